//! Texts at the end of a picture so far.
ghost use Rattle.std.specs.Prelude.{◌≡◌, ◌++◌, OnOk, string_bytes};
ghost use Rattle.heap_picture.specs.Text.{red};

use std::alloc::AllocError;

// Adds a text.
pub(crate) fn push_text(out: &mut String, text: &str) -> Result<(), AllocError>
    ensures { OnOk result (string_bytes out.new ≡ string_bytes out.old ++ text.now) }
{
    out.push_str(text)
}

// Adds the attribute of an arrow that a collection may take.
pub(crate) fn push_red(out: &mut String, is_red: bool) -> Result<(), AllocError>
    ensures { OnOk result (string_bytes out.new ≡ string_bytes out.old ++ red is_red) }
{
    if is_red {
        push_text(out, ", color=red, penwidth=2.5")
    } else {
        Ok(())
    }
}
