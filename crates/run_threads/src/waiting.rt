//! How a thread waits that has nothing to do.
use crate::signals::Events;
use crate::trace::Went;
use crossbeam_utils::Backoff;
use crossbeam_utils::sync::{EventCount, Key};
use std::sync::Wait;
use std::sync::atomic::{AtomicU32, Ordering};

// After so many turns in a row that found nothing to do a thread sleeps. A `Backoff` spins ever longer after them. It never
// yields, since on a busy machine a yield gives a whole time slice away.
const SPINS: u32 = 7;

// So often, which is some 60 microseconds, a thread spins at most where it waits for all: longer than it takes to wake another.
const MOST_SPINS: u32 = 1 << 10;

// So many exchanges take some 60 nanoseconds. The hint for spinning of the kit takes no time.
const DELAY: u32 = 8;

// After so many sleeps in a row it spins so often again.
const SLEEPS: u32 = 256;

/// What a thread waits by that has nothing to do: it spins at first, and then sleeps until another thread tells of an
/// event. It says nothing of what is waited for: whoever waits looks again after each call.
#[derive(Drop)]
pub struct Waiter<'a> {
    events: &'a EventCount,
    backoff: Backoff,
    spins: u32,
    // How many arrivals there are once all have come for which the last one waits.
    all: u64,
    // How often it spins for them at most: a quarter of that after each sleep, until that was enough once.
    most: u32,
    // How often it has slept since.
    sleeps: u32,
    // A word that nobody reads, by whose exchanges time goes by.
    delay: AtomicU32,
}

impl<'a> Waiter<'a> {
    /// One that hasn't waited so far.
    pub fn new(events: &'a EventCount) -> Waiter<'a> {
        Waiter {
            events,
            backoff: Backoff::new(),
            spins: 0,
            all: 0,
            most: MOST_SPINS,
            sleeps: 0,
            delay: AtomicU32::new(0),
        }
    }

    /// Announces a sleep once spinning is no use. That comes before the turn that finds nothing to do, so
    /// that whatever another thread does after this turn's look ends the sleep.
    pub fn announced(&self) -> Option<Key<'a>> {
        if self.spins < SPINS {
            None
        } else {
            Some(self.events.prepare_wait())
        }
    }

    /// Sleeps until the next event, where that was announced, and else spins.
    pub fn wait<R: Wait>(&mut self, rt: &R, announced: Option<Key<'_>>) {
        match announced {
            Some(key) => key.wait(rt),
            None => {
                self.backoff.spin();
                self.spins = self.spins.saturating_add(1);
            }
        }
    }

    // A trace has come, after so many times, to where each waits for all. Answers whether its next turn may do something: where
    // all have come as often, or one thread turns them.
    #[inline(always)]
    pub(crate) fn arrives_last(&mut self, events: &Events, arrivals: &mut u64) -> bool {
        events.has_one_thread() || self.arrive(events, arrivals)
    }

    // The same where several threads turn them.
    #[inline(never)]
    fn arrive(&mut self, events: &Events, arrivals: &mut u64) -> bool {
        events.arrive();
        *arrivals = arrivals.wrapping_add(1);
        self.all = events.arrivals_of(*arrivals);
        events.have_come(self.all)
    }

    // Lets a little time go by.
    #[inline(always)]
    fn pause(&self) {
        'delay: for _ in 0..DELAY {
            self.delay.fetch_add(1, Ordering::SeqCst);
        }
    }

    // Spins until all have come for which the last arrival waits. Answers whether they have.
    fn spin(&self, events: &Events) -> bool {
        'spins: for _ in 0..self.most {
            if events.have_come(self.all) {
                return true;
            }
            self.pause();
        }
        false
    }

    // The same, and the next time it spins as often as at first, or less.
    fn spins_enough(&mut self, events: &Events) -> bool {
        if self.spin(events) {
            self.most = MOST_SPINS;
            self.sleeps = 0;
            return true;
        }
        self.sleeps = self.sleeps.saturating_add(1);
        self.most = if self.sleeps < SLEEPS {
            self.most / 4
        } else {
            self.sleeps = 0;
            MOST_SPINS
        };
        false
    }

    // Waits until all have come for which the last arrival waits, or something else is told.
    #[inline(never)]
    pub(crate) fn meet<R: Wait>(&mut self, rt: &R, events: &Events) {
        if self.spins_enough(events) {
            return;
        }
        let key = self.events.prepare_wait();
        if !events.have_come(self.all) {
            key.wait(rt);
        }
    }

    // The same without a sleep: the next wait is one, if nothing has happened until then.
    #[inline(never)]
    fn await_all(&mut self, events: &Events) {
        if !self.spins_enough(events) {
            self.spins = SPINS;
        }
    }

    // A turn came nowhere, or was held.
    #[inline(never)]
    pub(crate) fn rest<R: Wait>(&mut self, rt: &R, went: Went, announced: Option<Key<'_>>) {
        if went == Went::Held {
            self.held();
        } else {
            self.wait(rt, announced);
        }
    }

    // A turn came so far.
    #[inline(always)]
    pub(crate) fn after<R: Wait>(
        &mut self,
        rt: &R,
        events: &Events,
        went: Went,
        announced: Option<Key<'_>>,
    ) {
        match went {
            Went::On => self.went_on(),
            Went::Arrived => self.await_all(events),
            _ => self.rest(rt, went, announced),
        }
    }

    /// A turn was held: it spins, ever longer, and never sleeps.
    pub fn held(&mut self) {
        self.backoff.spin();
    }

    /// A turn did something.
    pub fn went_on(&mut self) {
        self.backoff.reset();
        self.spins = 0;
    }
}
