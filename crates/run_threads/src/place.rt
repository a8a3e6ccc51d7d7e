//! Where a trace is, of those that the caller and some threads turn.
ghost use Rattle.std.specs.Prelude.{◌≡◌};
ghost use Rattle.run_threads.specs.declared.trace.Went.TheVariants.{Ended};

use crate::trace::{Trace, Went};
use crate::turning::{Told, Worked};
use std::snapshot::Snapshot;
use std::thread::{Promise, PromisedHandle};

// The promise of a thread: the trace that it was given comes back, maybe further on.
#[derive(Drop)]
pub(crate) struct SameTrace<S, T> {
    pub(crate) shared: Snapshot<S>,
    pub(crate) trace: Snapshot<T>,
}

impl<S, T: Trace<S>> Promise<Worked<T>> for SameTrace<S, T> {
    ghost kept_by = { λ p r. T.shares p.shared.value r.trace × T.follows p.trace.value r.trace × (r.went ≡ Ended → T.is_over r.trace) };
}

// Where a trace is.
#[derive(Drop)]
pub(crate) enum Place<S, T: Trace<S>> {
    // No trace has this place.
    Empty,
    // The caller turns it: what was told of it, and how far its last turn came.
    Here { trace: T, told: Told, went: Went },
    // A thread turns it, or has given it back.
    Away(PromisedHandle<Worked<T>, SameTrace<S, T>>),
}

impl<S, T: Trace<S>> Place<S, T> {
    // Whether the caller turns it, and its commands aren't over.
    pub(crate) fn is_busy(&self) -> bool {
        match self {
            Place::Here { went, .. } => !matches!(*went, Went::Idle | Went::Ended),
            Place::Empty | Place::Away(_) => false,
        }
    }

    // Whether the caller turns it, and its commands are over, but not those of all others.
    pub(crate) fn is_idle(&self) -> bool {
        matches!(
            self,
            Place::Here {
                went: Went::Idle,
                ..
            }
        )
    }

    // Whether a thread turns it.
    pub(crate) fn is_away(&self) -> bool {
        matches!(self, Place::Away(_))
    }
}
