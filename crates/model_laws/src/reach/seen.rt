//! The blocks that a search has come to, each with what led to it.
ghost use Rattle.std.specs.Prelude.{◌≡◌, ◌<◌, ℕ, Some, Option, IfOk, length, slice_get};
ghost use Rattle.model_core.specs.declared.label.Label as labels;
ghost use Rattle.model_laws.specs.Reach.Ways.{Edges, leads};
ghost use Rattle.model_laws.specs.Reach.Exploring.{Adds, AllTraced, IsOrdered, has_seen};

use model_core::label::Label;
use std::alloc::{AllocError, Global};

/// What led to a block.
#[derive(Clone, Copy, Debug, PartialEq, Eq)]
pub enum Origin {
    /// A register.
    Register(u8),
    /// A field of the block at a place of the list.
    Field { block: usize, index: u16 },
}

/// A block that a search has come to.
#[derive(Clone, Copy, Debug, PartialEq, Eq)]
pub struct Seen {
    pub label: Label,
    pub origin: Origin,
}

/// A way to a block: a register, and then fields, one behind the other.
#[derive(Debug, Drop)]
pub struct Way {
    pub register: u8,
    pub fields: Vec<u16>,
}

// Whether a search has come to a block.
pub(crate) fn has_seen(seen: &[Seen], label: Label) -> bool
    ensures { result ≡ has_seen seen.now label }
{
    seen.iter().any(|b| b.label.domain == label.domain && b.label.serial == label.serial)
}

// Notes a block, unless it was noted before.
pub(crate) fn add(seen: &mut Vec<Seen>, label: Label, origin: Origin) -> Result<(), AllocError>
    ensures { IfOk result (λ _. Adds seen.old.items seen.new.items label origin) }
{
    if !has_seen(seen, label) {
        seen.push(Seen { label, origin })?;
    }
    Ok(())
}

// The way to the block at a place of the list.
pub(crate) fn way_to(alloc: Global, seen: &[Seen], at: usize) -> Result<Way, AllocError>
    requires inside { at < length seen.now }
    requires ordered { IsOrdered seen.now }
    ensures few { IfOk result (λ w. w.register < 14) }
    ensures leads { IfOk result (λ w. (f : Edges) (roots : ℕ → Option labels.Label) (b : Seen) → AllTraced f roots seen.now → slice_get seen.now at ≡ Some b → leads f roots w ≡ Some b.label) }
{
    let mut fields = Vec::new(alloc);
    let mut here = at;
    'up: loop {
        match seen[here].origin {
            Origin::Register(register) => {
                fields.reverse();
                return Ok(Way { register, fields });
            }
            Origin::Field { block, index } => {
                fields.push(index)?;
                here = block;
            }
        }
    }
}
