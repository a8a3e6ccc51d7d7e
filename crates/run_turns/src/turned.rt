//! What a turn answers.

/// What a turn did.
#[derive(Clone, Copy, Debug, PartialEq, Eq)]
pub enum Turned {
    /// It ran a finaliser, tried one command, did its share of a phase, arrived, asked for a pause, or
    /// ended the trace.
    Did,
    /// The domain has arrived and others haven't: the barrier word, below the end of its turn.
    Waiting(u64),
    /// The run looked at the flag of this section, and it isn't what the run waits for: that its own
    /// section is begun, or, for a join, that the section has told its end.
    Held { section: u32 },
    /// All commands that were handed in are done, no finaliser waits, no pause is wanted, and more commands
    /// may be handed in.
    Hungry,
    /// The trace has ended, no pause is wanted, and so many traces have ended, which aren't all.
    Idle { ended: u64 },
    /// The trace has ended, no pause is wanted, and all traces have ended.
    Ended,
}
