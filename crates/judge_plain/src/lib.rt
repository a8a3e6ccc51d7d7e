//! The heap as plain data: a slow sequential object that follows the entries of a history.
#![tactic(auto)]

pub mod history;
pub mod scheduled;
pub mod spawned;

ghost use Rattle.std.specs.Prelude.{◌≡◌, ◌↔◌, IsTrue, IfOk, OnOk, OnErr};
ghost use Rattle.model_core.specs.Domains.{opening, sizes_of, IsWithinLimits, queues, reach as reach_of, settled_reach};
ghost use Rattle.model_core.specs.Entries.{Allowed, next, reply, IsInRange};

mod blocks;
mod collections;
mod commands;
mod entries;
mod ephemerons;
mod fields;
mod finalisers;
mod looks;
mod opened;
mod opening;
mod own;
mod queueing;
mod reach;
mod registers;
mod roots;
mod wiping;

use model_core::entry::Entry;
use model_core::label::Label;
use model_core::reply::{Applied, ApplyFault};
use model_core::state::{Sizes, State};
use std::alloc::{AllocError, Global};
use std::marker::Model;

/// The heap as a sequential object, which contracts see as its state.
#[derive(Debug, Drop)]
pub struct SlowHeap {
    alloc: Global,
    state: State,
}

impl Model for SlowHeap {
    ghost use Rattle.model_core.specs.declared.state.State.{State};
    ghost use Rattle.model_core.specs.WellFormed.{IsSound};

    ghost Value = { State };

    ghost view = { λ h. h.state };

    ghost invariant = { λ h. IsSound h.state };
}

impl SlowHeap {
    /// The heap before its first entry. An `Err` says that there is no memory for it.
    ///
    /// `domains` is 1 to 8, `classes` 6 or 9, and `minor_words`, the words of a domain's minor area, a multiple of
    /// 4,096 from 4,096 to 65,536. `pools` is at most 2,048 and at least
    /// `domains * (minor_words / 4096 + 2 * classes) + 1`.
    pub fn make(
        alloc: Global,
        domains: u32,
        pools: u32,
        minor_words: u32,
        classes: u32,
    ) -> Result<SlowHeap, AllocError>
        requires { IsWithinLimits (sizes_of domains pools minor_words classes) }
        ensures { IfOk result (λ h. h ≡ opening (sizes_of domains pools minor_words classes)) }
    {
        let sizes = Sizes {
            domains,
            pools,
            minor_words,
            classes,
        };
        let state = opening::opening_state(alloc, sizes)?;
        Ok(SlowHeap { alloc, state })
    }

    /// The same heap, of these sizes.
    pub fn of_sizes(alloc: Global, sizes: &Sizes) -> Result<SlowHeap, AllocError>
        requires { IsWithinLimits sizes.now }
        ensures { IfOk result (λ h. h ≡ opening sizes.now) }
    {
        SlowHeap::make(
            alloc,
            sizes.domains,
            sizes.pools,
            sizes.minor_words,
            sizes.classes,
        )
    }

    /// The state that the entries so far leave.
    pub fn state(&self) -> &State
        ensures { result.now ≡ self.now }
    {
        &self.state
    }

    /// The labels that the registers and the present queues reach, each once. An `Err` says that there is no memory
    /// for them.
    pub fn reach(&self) -> Result<Vec<Label>, AllocError>
        ensures { IfOk result (λ v. v.items ≡ reach_of self.now) }
    {
        roots::reach(self.alloc, &self.state)
    }

    /// The labels that the registers, the present queues and the waiting registrations of `finalise` reach, each once.
    /// A collection may empty the keys outside of them. An `Err` says that there is no memory for them.
    pub fn settled_reach(&self) -> Result<Vec<Label>, AllocError>
        ensures { IfOk result (λ v. v.items ≡ settled_reach self.now (queues self.now)) }
    {
        roots::settled(self.alloc, &self.state)
    }

    /// Whether an entry may be given to `apply`: the domain that it names is one of the heap's, and the domain of an
    /// allocation has a serial left.
    pub fn is_in_range(&self, entry: &Entry) -> bool
        ensures { IsTrue result ↔ IsInRange self.now entry.now }
    {
        entries::is_in_range(&self.state, entry)
    }

    /// Follows an entry, where it is allowed: `Replied` with the reply of a command or of a finaliser that runs, and
    /// `Silent` at every other entry. Takes as much memory as the graph has labels, and more at each allocation.
    ///
    /// `NotLegal`: the entry is not allowed in this state. `Memory`: there is no memory for it. After both the state is
    /// as it was.
    pub fn apply(&mut self, entry: &Entry) -> Result<Applied, ApplyFault>
        requires { IsInRange self.old entry.now }
        ensures allowed { OnOk result (Allowed self.old entry.now) }
        ensures reply { IfOk result (λ a. a ≡ reply self.old entry.now) }
        ensures state { OnOk result (self.new ≡ next self.old entry.now) }
        ensures not_legal { result ≡ Err ApplyFault.NotLegal → Allowed self.old entry.now → ⊥ }
        ensures err { OnErr result (self.new ≡ self.old) }
    {
        entries::follow(self.alloc, &mut self.state, entry)
    }
}
