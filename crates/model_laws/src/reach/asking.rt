//! Why a block is still there.
ghost use Rattle.std.specs.Prelude.{◌≡◌, IfOk, position};
ghost use Rattle.model_core.specs.Graph.{same_label};
ghost use Rattle.model_laws.specs.declared.reach.seen.Seen as blocks;
ghost use Rattle.model_laws.specs.Reach.Asking.{IsWhyAlone};
ghost use Rattle.model_laws.specs.Reach.Walks.{StaysAlone, Walks};

use crate::reach::exploring::{Stop, explore};
use crate::reach::seen::{Seen, Way, way_to};
use crate::reach::walker::Walker;
use model_core::label::Label;
use std::alloc::Global;

/// What leads to a block.
#[derive(Debug, Drop)]
pub enum Reason {
    /// This way does.
    Way(Way),
    /// Nothing does, and there is no ephemeron to which fields lead, so no data either.
    Nothing,
    /// No field does. Whether the data of an ephemeron do isn't said.
    NoField,
}

// The place at which a block stands in the list.
fn place_of(seen: &[Seen], label: Label) -> Option<usize>
    ensures { result ≡ position (λ (b : blocks.Seen). same_label b.label label) seen.now }
{
    seen.iter().position(|b| b.label.domain == label.domain && b.label.serial == label.serial)
}

/// Looks for a way from registers 0 to 13 through fields to a block. It looks into so many blocks at most. Registers 14 and
/// 15 hold blocks that it came to. Where nobody else has made an entry meanwhile, the answer is exact.
pub fn why<M: Walker>(alloc: Global, m: &mut M, target: Label, most: u32) -> Result<Reason, Stop>
    ensures home { M.home m.new ≡ M.home m.old }
    ensures sizes { M.sizes m.new ≡ M.sizes m.old }
    ensures number { M.number m.new ≡ M.number m.old }
    ensures walks { Walks (M.number m.old) (M.front m.old) (M.front m.new) }
    ensures still { IfOk result (λ _. StaysAlone (M.sizes m.old) (M.number m.old) (M.front m.old) (M.front m.new)) }
    ensures why { IfOk result (IsWhyAlone (M.sizes m.old) (M.number m.old) (M.front m.old) (M.front m.new) target) }
{
    let found = explore(alloc, m, None, most)?;
    match place_of(&found.seen, target) {
        Some(at) => Ok(Reason::Way(way_to(alloc, &found.seen, at)?)),
        None if found.weak => Ok(Reason::NoField),
        None => Ok(Reason::Nothing),
    }
}
