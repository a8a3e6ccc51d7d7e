//! Phases: the kinds that there are, where a domain stands in them, how far a collection has come, and
//! what a domain has done at the control words.
ghost use Rattle.std.specs.Prelude.{◌≡◌};
ghost use Rattle.heap_rule.specs.Views.{no_collection};

/// What kind of phase it is.
#[derive(Clone, Copy, Debug, PartialEq, Eq)]
pub enum Kind {
    /// Domains run their commands.
    Run,
    /// Young blocks are copied into pools.
    Promote,
    /// Minor areas are emptied.
    Reset,
    /// What registers and queues refer to is marked.
    Roots,
    /// What marked blocks refer to is marked.
    Mark,
    /// The data of marked ephemerons whose full keys are all marked is marked.
    Rounds,
    /// Registrations of finalisers whose values are unmarked are queued.
    Decide,
    /// The blocks that queues keep alive are marked.
    Queued,
    /// Unmarked keys of marked ephemerons are emptied, and their data with them.
    Clean,
    /// Registrations of last finalisers whose values are unmarked are queued.
    Lasts,
    /// What wasn't marked is freed.
    Sweep,
    /// Domains that wait for a complete collection are answered.
    Answer,
}

/// Where a domain stands. No value of it is made: it exists in contracts alone.
pub enum Stage {
    /// In an even phase of this kind, in which it hasn't arrived.
    In(Kind),
    /// In an odd phase after one of this kind, in which it hasn't arrived. Domain 0 hasn't led.
    Leads(Kind),
    /// Domain 0, in an odd phase in which it has named this kind as the next.
    Led(Kind),
    /// It has arrived, and the last even phase that it knows of had this kind.
    Gone(Kind),
}

/// How far a collection of the major heap has come, as domain 0 keeps it from phase to phase.
#[derive(Clone, Copy, Debug, PartialEq, Eq)]
pub struct Progress {
    /// Whether its cut is made.
    pub cut: bool,
    /// Whether it began in this pause.
    pub whole: bool,
    /// Whether the last one ended while garbage was left, which may not all be freed so far: a sweep is
    /// owed, and comes before the next one begins.
    pub unswept: bool,
    /// Whether one goes on beside running domains, or went on so before this pause.
    pub armed: bool,
}

impl Progress {
    /// Before the first collection: no garbage is left of another one.
    pub fn start() -> Progress
        ensures { result ≡ no_collection }
    {
        Progress {
            cut: false,
            whole: true,
            unswept: false,
            armed: false,
        }
    }
}

/// What a domain found or did at a control word. No value of it is made.
pub enum Note {
    /// It found this want word.
    Want(u64),
    /// It found this changed word.
    Changed(u64),
    /// It wrote that so many free pools are listed.
    Listed(u64),
    /// It set these bits of the want word.
    Asked(u64),
    /// It found this barrier word.
    Barrier(u64),
    /// It found this many ended traces.
    Ended(u64),
    /// It wrote 0 into the want word.
    Cleared,
    /// It set the cursor back, so that none of the pools behind it is of the reserve.
    SetBack,
}
