//! Keys in lists of bindings.
ghost use Rattle.std.specs.Prelude.{◌≡◌, ◌++◌, OnOk};
ghost use Rattle.std.specs.List.{list_all};
ghost use Rattle.judge_outputs.specs.Texts.Keys.{is_held};
ghost use Rattle.weak_laws.specs.Tables.Structures.{datum_at, without};

use crate::texts::places::is_held;
use model_core::graph::Value;
use model_core::label::Label;
use std::alloc::AllocError;

/// Whether these registers hold all keys that are bound.
pub(crate) fn are_held(registers: &[Option<Label>], bindings: &[(Label, Value)]) -> bool
    ensures { result ≡ list_all (λ b. is_held registers.now b.0) bindings.now }
{
    bindings.iter().all(|binding| is_held(registers, binding.0))
}

/// What the key is bound to.
pub(crate) fn datum_of(bindings: &[(Label, Value)], key: Label) -> Option<Value>
    ensures { result ≡ datum_at bindings.now key }
{
    for binding in bindings {
        if binding.0 == key {
            return Some(binding.1);
        }
    }
    None
}

/// Puts the bindings of all other keys behind these.
pub(crate) fn push_without(
    kept: &mut Vec<(Label, Value)>,
    bindings: &[(Label, Value)],
    key: Label,
) -> Result<(), AllocError>
    ensures { OnOk result (kept.new.items ≡ kept.old.items ++ without key bindings.now) }
{
    for binding in bindings {
        if binding.0 != key {
            kept.push(*binding)?;
        }
    }
    Ok(())
}
