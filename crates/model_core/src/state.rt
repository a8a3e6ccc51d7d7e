//! The state that a history leaves.
ghost use Rattle.std.specs.Prelude.{◌≡◌, ◌≤◌, ◌↔◌, IsNone};
ghost use Rattle.model_core.specs.Domains.{class_count, least_pools, first_outside, IsWithinLimits};

use crate::graph::{Node, Value};
use crate::label::Label;
use crate::sequence::Sequence;

/// A registration of `finalise`.
#[derive(Clone, Copy, Debug, PartialEq, Eq)]
pub struct Finaliser {
    /// The number by which replies tell of it, in scripts 0 to 65,535.
    pub number: u32,
    /// The block that it is registered for.
    pub label: Label,
    /// The register that holds the block again once it runs, 0 to 15.
    pub register: u8,
}

/// A registration of `finalise_last`.
#[derive(Clone, Copy, Debug, PartialEq, Eq)]
pub struct LastFinaliser {
    /// The number by which replies tell of it, in scripts 0 to 65,535.
    pub number: u32,
    /// The block that it is registered for. The registration does not keep it alive.
    pub label: Label,
}

/// A finaliser that waits in a domain's queue.
#[derive(Clone, Copy, Debug, PartialEq, Eq)]
pub enum Pending {
    /// One of `finalise`. It keeps its block alive, which its register holds once it runs.
    Fin {
        number: u32,
        label: Label,
        register: u8,
    },
    /// One of `finalise_last`. It keeps nothing alive.
    Last {
        number: u32,
    },
}

/// How far a collection has come.
#[derive(Clone, Copy, Debug, PartialEq, Eq)]
pub enum Mode {
    /// No collection has stopped the domains: they make their entries, and `Cut` may come.
    Open,
    /// Since `Cut`: `Queue` and `Seal` may come.
    Cut,
    /// Since `Seal`: `Wipe`, `Last`, `Collected` and `Done` may come.
    Sealed,
    /// Since `Collected`: `full_major` and `Done` may come.
    Answer,
}

/// The part of the state that belongs to one domain.
#[derive(Debug, Drop)]
pub struct DomainState {
    /// What each of the 16 registers holds.
    pub registers: Sequence<Value>,
    /// How many blocks the domain has made, which is also the serial of the latest one's label.
    pub serial: u32,
    /// Whether the domain's trace has ended.
    pub ended: bool,
    /// The registrations of `finalise` that were not queued yet, the oldest first.
    pub finals: Sequence<Finaliser>,
    /// The registrations of `finalise_last` that were not queued yet, the oldest first.
    pub lasts: Sequence<LastFinaliser>,
    /// The finalisers that are to run, the next one first.
    pub queue: Sequence<Pending>,
    /// Registrations at places below this may still be queued in this collection: places in `finals` from `Cut` to
    /// `Seal`, in `lasts` from then on. It says nothing between collections.
    pub low: u64,
    /// Whether a complete collection has been since the domain's last command. At the start it is false.
    pub fresh: bool,
    /// How many finalisers the domain's queue had after its last command or run finaliser. At the start it is 0.
    pub due: u64,
}

/// The numbers of domains, pools, minor words and classes.
#[derive(Clone, Copy, Debug, PartialEq, Eq)]
pub struct Sizes {
    /// How many domains run, 1 to 8.
    pub domains: u32,
    /// How many pools of 4,096 words the major heap has, at most 2,048.
    pub pools: u32,
    /// How many words each domain's minor area has: a multiple of 4,096, from 4,096 to 65,536.
    pub minor_words: u32,
    /// How many classes of block sizes there are, 6 or 9.
    pub classes: u32,
}

impl Sizes {
    // The pools that must be there: those kept free for promotion, one for each class and domain, and one more.
    fn least_pools(&self) -> u32
        requires domains { self.now.domains ≤ 8 }
        requires minor_words { self.now.minor_words ≤ 65536 }
        requires classes { self.now.classes ≡ class_count }
        ensures { result ≡ least_pools self.now }
    {
        let reserve = self.domains * (self.minor_words / 4096 + self.classes);
        reserve + self.classes * self.domains + 1
    }

    /// The first number that is outside its limit: 1 for `domains`, 2 for `minor_words`, 3 for `pools`. The limits are
    /// those of the fields; `pools` is at least as many as promotion may need, one more for each class and domain, and
    /// one for the shared block.
    pub fn first_outside(&self) -> Option<u32>
        requires { self.now.classes ≡ class_count }
        ensures first { result ≡ first_outside self.now }
        ensures none { IsNone result ↔ IsWithinLimits self.now }
    {
        if self.domains < 1 || self.domains > 8 {
            return Some(1);
        }
        if self.minor_words < 4096 || self.minor_words > 65536 || self.minor_words % 4096 != 0 {
            return Some(2);
        }
        if self.pools < self.least_pools() || self.pools > 2048 {
            return Some(3);
        }
        None
    }
}

/// The heap after a history: the graph of blocks, what each domain has, and how far a collection has come.
#[derive(Debug, Drop)]
pub struct State {
    /// The numbers that the heap was made with, which never change.
    pub sizes: Sizes,
    /// All blocks that were ever made, the oldest first, each with its label. No block is taken out.
    pub graph: Sequence<(Label, Node)>,
    /// The part of each domain, by its number.
    pub domains: Sequence<DomainState>,
    /// How far a collection has come.
    pub mode: Mode,
    /// Each domain's queue at the last `Cut`, by its number. They are empty before the first.
    pub cut: Sequence<Sequence<Pending>>,
    /// How many blocks the last complete collection found reachable, together with those made since. At the start it
    /// is 1, for the shared block.
    pub kept: u64,
    /// The labels taken since the last `Seal`: of the keys that `Wipe` emptied, and of the blocks whose `finalise_last`
    /// was queued.
    pub taken: Sequence<Label>,
}
