//! What the next complete collection may do with each block.
ghost use Rattle.std.specs.Prelude.{◌≡◌, IfOk};
ghost use Rattle.model_core.specs.Graph.{has_label};
ghost use Rattle.heap_picture.specs.Fates.{fate_of, reached_in, may_go as goes, may_run as runs, may_empty as empties};

use judge_plain::SlowHeap;
use model_core::label::Label;
use std::alloc::AllocError;
use std::marker::Model;

/// What the next complete collection may do with a block.
#[derive(Clone, Copy, Debug, PartialEq, Eq)]
pub(crate) enum Fate {
    /// It is kept: a register or a queued finaliser leads to it.
    Kept,
    /// Only a registration of `finalise` leads to it, so its block, and all that this leads to, comes back.
    MayReturn,
    /// Nothing leads to it, so keys that hold it may be emptied, and its `finalise_last` queued.
    MayGo,
}

// Whether a collection may empty a key that holds a block of this fate, or queue a `finalise_last` of it.
pub(crate) fn may_go(fate: Fate) -> bool
    ensures { result ≡ goes fate }
{
    match fate {
        Fate::Kept | Fate::MayReturn => false,
        Fate::MayGo => true,
    }
}

// Whether a collection may queue a `finalise` of a block of this fate.
pub(crate) fn may_run(fate: Fate) -> bool
    ensures { result ≡ runs fate }
{
    match fate {
        Fate::Kept => false,
        Fate::MayReturn | Fate::MayGo => true,
    }
}

/// The fate of each block of a heap. Contracts see the labels that are reached, without and with the waiting
/// registrations of `finalise`.
#[derive(Drop)]
pub(crate) struct Fates {
    reached: Vec<Label>,
    settled: Vec<Label>,
}

impl Model for Fates {
    ghost use Rattle.heap_picture.specs.Fates.{Reached};

    ghost Value = { Reached };

    ghost view = { λ f. (f.reached.items, f.settled.items) };
}

// Whether a label is in a list.
fn holds_label(labels: &Vec<Label>, l: Label) -> bool
    ensures { result ≡ has_label labels.now.items l }
{
    labels.iter().any(|k| *k == l)
}

impl Fates {
    // The fates in a heap's present state.
    pub(crate) fn of(heap: &SlowHeap) -> Result<Fates, AllocError>
        ensures { IfOk result (λ f. f ≡ reached_in heap.now) }
    {
        let reached = heap.reach()?;
        let settled = heap.settled_reach()?;
        Ok(Fates { reached, settled })
    }

    pub(crate) fn fate(&self, l: Label) -> Fate
        ensures { result ≡ fate_of self.now l }
    {
        if holds_label(&self.reached, l) {
            Fate::Kept
        } else if holds_label(&self.settled, l) {
            Fate::MayReturn
        } else {
            Fate::MayGo
        }
    }

    // Whether a key is full and may be emptied.
    pub(crate) fn may_empty(&self, key: Option<Label>) -> bool
        ensures { result ≡ empties (fate_of self.now) key }
    {
        match key {
            None => false,
            Some(k) => may_go(self.fate(k)),
        }
    }
}
