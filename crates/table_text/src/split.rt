// A line split at its first space.
ghost use Rattle.std.specs.Prelude.{◌≡◌, ◌∷◌, option_map};
ghost use Rattle.table_text.specs.Faults.{texts_behind};
ghost use Rattle.text_script.specs.Faults.{texts};

use text_script::split::split_once;

// The text before the first space, and what stands after the space, if there is one.
pub(crate) fn first_text(line: &[u8]) -> (&[u8], Option<&[u8]>)
    ensures { texts line.now ≡ result.0.now ∷ texts_behind (option_map (λ r. r.now) result.1) }
{
    match split_once(line, b' ') {
        Some((text, tail)) => (text, Some(tail)),
        None => (line, None),
    }
}
