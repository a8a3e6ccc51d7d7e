//! What the threads of some traces and their caller tell one another.
use crossbeam_utils::sync::EventCount;
use std::sync::atomic::{AtomicU32, AtomicU64, Ordering};

// What those wait for that have nothing to do.
#[derive(Drop)]
pub(crate) struct Events {
    // Those that sleep.
    pub(crate) sleepers: EventCount,
    // How often traces have come to where each waits for all.
    arrivals: AtomicU64,
    // How many traces there are.
    traces: u64,
    // How many threads turn them.
    threads: AtomicU32,
}

impl Events {
    // Those of so many traces, of which each has a thread for now.
    pub(crate) fn of(traces: u32) -> Events {
        Events {
            sleepers: EventCount::new(),
            arrivals: AtomicU64::new(0),
            traces: u64::from(traces),
            threads: AtomicU32::new(traces),
        }
    }

    // A thread has given its trace back, or was refused.
    pub(crate) fn leave(&self) {
        self.threads.fetch_sub(1, Ordering::SeqCst);
    }

    // Something has happened that others may wait for.
    pub(crate) fn tell(&self) {
        self.sleepers.notify_all();
    }

    // Whether one thread turns all traces.
    pub(crate) fn has_one_thread(&self) -> bool {
        self.threads.load(Ordering::SeqCst) < 2
    }

    // A trace has come to where each waits for all. Those that sleep are woken where all have come as often as one of them waits
    // for, and where one has come as the first: a command may have asked for that without telling anybody.
    #[inline(never)]
    pub(crate) fn arrive(&self) {
        let arrivals = self.arrivals.fetch_add(1, Ordering::SeqCst).wrapping_add(1);
        match arrivals.checked_rem(self.traces) {
            None | Some(0 | 1) => self.tell(),
            Some(_) => (),
        }
    }

    // How many arrivals there are once each trace has come so often.
    pub(crate) fn arrivals_of(&self, each: u64) -> u64 {
        self.traces.wrapping_mul(each)
    }

    // Whether there are so many arrivals.
    pub(crate) fn have_come(&self, all: u64) -> bool {
        all <= self.arrivals.load(Ordering::SeqCst)
    }
}

// What the threads of some traces and their caller tell one another. A place has the bit of its index.
#[derive(Drop)]
pub(crate) struct Signals {
    // Turns that went on without a command, threads that return, and a call.
    pub(crate) events: Events,
    // The bit of the place whose thread was refused, while its trace is taken back.
    pub(crate) refused: AtomicU32,
    // The bits of the places whose threads return.
    pub(crate) returned: AtomicU32,
    // Whether the caller calls for the traces that threads still have: 1 or 0.
    pub(crate) called: AtomicU32,
}

impl Signals {
    pub(crate) fn of(traces: u32) -> Signals {
        Signals {
            events: Events::of(traces),
            refused: AtomicU32::new(0),
            returned: AtomicU32::new(0),
            called: AtomicU32::new(0),
        }
    }
}
