//! The hints of a domain: of blocks that it is to scan next.
ghost use Rattle.std.specs.Prelude.{◌≡◌, ◌<◌, ◌≤◌, ◌+◌, ℕ, true, false, length, IfOk, vec_len, slice_index_or};
ghost use Rattle.crossbeam_deque.specs.Handles.{worker_flavor};
ghost use Rattle.gc_mark.specs.Decks.{AreUncounted, uncounted, Missed, NotesOn, TakesOwn, Took};

use crate::darkening::Hint;
use crate::deck::Deck;
use crate::trail::Trail;
use crate::waiting::Waiting;
use crate::workers::{
    HINTS_ROOM, Other, Own, holds_none, make_workers, others_of, pop_hint, push_hint, steal_hint,
};
use std::alloc::{AllocError, Global};
use std::marker::Model;

// How many domains there are at most.
const MOST_DOMAINS: usize = 8;

/// A domain's own deque of hints, and those of the other domains, from which it may take hints. Of its
/// own the last one that was noted is taken first, so that of a tree it holds no more than its depth.
///
/// While it holds 4096, or where there is no memory for one more, what it notes is let go: the block stays
/// grey, and a later walk finds it.
///
/// Beside its deque it has room for as many ephemerons as it may list, each of which may wait until a
/// block is marked. An ephemeron that isn't woken is found by a later look at all of them.
#[derive(Drop)]
pub struct Hints {
    number: u32,
    domains: u32,
    own: Own,
    others: Vec<Other>,
    noted: usize,
    misses: [u64; MOST_DOMAINS],
    taken: u64,
    pushes: u64,
    is_dry: bool,
    early: u64,
    pub(crate) trail: Trail,
    pub(crate) waiting: Waiting,
}

impl Model for Hints {
    ghost use Rattle.std.specs.Prelude.{◌≡◌, ◌+◌, ◌<◌, ◌≤◌, vec_len};
    ghost use Rattle.crossbeam_deque.specs.Handles.{worker_flavor};
    ghost use Rattle.gc_mark.specs.Decks.{DeckCounts};

    ghost Value = { DeckCounts };

    ghost view = { λ r. record { number = r.number; domains = r.domains; misses = r.misses; taken = r.taken; pushes = r.pushes; is_dry = r.is_dry; early = r.early } };

    ghost invariant = { λ r. (worker_flavor r.own ≡ 1) × (vec_len r.others + 1 ≡ r.domains) × (r.number < r.domains) × (r.domains ≤ 8) };
}

// The other domains' deques, for each domain.
fn all_others(alloc: Global, workers: &[Own]) -> Result<Vec<Vec<Other>>, AllocError>
    ensures { IfOk result (λ v. (vec_len v ≡ length workers.now) × ((k : ℕ) (d : _) → k < vec_len v → vec_len (slice_index_or v.items k d) + 1 ≡ length workers.now)) }
{
    let mut all = Vec::with_capacity(alloc, workers.len())?;
    for domain in 0..workers.len() {
        all.push(others_of(alloc, workers, domain)?)?;
    }
    Ok(all)
}

impl Hints {
    // The hints of a domain that has noted none.
    fn assemble(
        number: u32,
        domains: u32,
        own: Own,
        others: Vec<Other>,
        trail: Trail,
        waiting: Waiting,
    ) -> Hints
        requires lifo { worker_flavor own ≡ 1 }
        requires others { vec_len others + 1 ≡ domains }
        requires inside { number < domains }
        requires few { domains ≤ 8 }
        ensures { result ≡ uncounted number domains }
    {
        Hints {
            number,
            domains,
            own,
            others,
            noted: 0,
            misses: [0; MOST_DOMAINS],
            taken: 0,
            pushes: 0,
            is_dry: false,
            early: 0,
            trail,
            waiting,
        }
    }

    /// The hints of each of so many domains, 1 to 8, in order, with room for so many ephemerons that
    /// wait. Fails for want of memory alone.
    pub fn make(alloc: Global, domains: u32, ephemerons: u32) -> Result<Vec<Hints>, AllocError>
        requires some { 1 ≤ domains }
        requires few { domains ≤ 8 }
        ensures { IfOk result (λ v. (vec_len v ≡ domains) × AreUncounted domains v.items) }
    {
        let mut workers = make_workers(alloc, domains)?;
        let mut lists = all_others(alloc, &workers)?;
        let mut all = Vec::new(alloc);
        for number in 0..domains {
            let trail = Trail::make(alloc, HINTS_ROOM)?;
            let waiting = Waiting::make(alloc, ephemerons)?;
            let own = workers.remove(0);
            let others = lists.remove(0);
            all.push(Hints::assemble(number, domains, own, others, trail, waiting))?;
        }
        Ok(all)
    }

    /// The number of the domain.
    pub fn number(&self) -> u32
        ensures { result ≡ self.now.number }
    {
        self.number
    }

    /// How many domains there are.
    pub fn domains(&self) -> u32
        ensures { result ≡ self.now.domains }
    {
        self.domains
    }

    // Counts that a hint was taken, or that a domain was found without one.
    fn count(&mut self, from: u32, took: bool)
        requires inside { from < self.old.domains }
        ensures took { took ≡ true → Took self.old.is_dry self.old self.new }
        ensures missed { took ≡ false → Missed from self.old.is_dry self.old self.new }
        ensures own_first { self.new.early ≡ self.old.early }
    {
        if took {
            self.taken = self.taken.saturating_add(1);
        } else {
            let at = from as usize;
            self.misses[at] = self.misses[at].saturating_add(1);
        }
    }

    /// None of so many ephemerons waits for a block or is woken.
    pub fn start_waiting(&mut self, count: usize)
        ensures { self.new ≡ self.old }
    {
        self.waiting.start(count);
    }

    /// The ephemeron at this place of the domain's list is looked at.
    pub fn look_at(&mut self, place: usize)
        ensures { self.new ≡ self.old }
    {
        self.waiting.look_at(place);
    }

    /// The ephemeron that is looked at waits until this block is marked.
    pub fn wait_for(&mut self, address: u32)
        ensures { self.new ≡ self.old }
    {
        self.waiting.wait_for(address);
    }

    /// Wakes the ephemerons that wait until this block is marked.
    pub fn wake(&mut self, address: u32)
        ensures { self.new ≡ self.old }
    {
        self.waiting.wake(address);
    }

    /// Takes the place of an ephemeron that was woken, which is looked at next.
    pub fn next_woken(&mut self) -> Option<usize>
        ensures { self.new ≡ self.old }
    {
        self.waiting.next_woken()
    }

    // Lets all hints in the domain's own deque go.
    #[tactic(auto, using(crate::proofs::Taking::takes_none, crate::proofs::Taking::takes_took, crate::proofs::Taking::takes_missed))]
    pub(crate) fn clear(&mut self)
        ensures notes { NotesOn self.old self.new }
        ensures takes { TakesOwn self.old self.new }
    {
        for _ in 0..HINTS_ROOM {
            if self.own().is_none() {
                return;
            }
        }
    }
}

impl Deck for Hints {
    ghost counts = { λ h. h };

    fn push(&mut self, hint: Hint) {
        self.pushes = self.pushes.saturating_add(1);
        self.is_dry = false;
        if self.noted < HINTS_ROOM {
            self.noted += 1;
            push_hint(&mut self.own, hint);
        }
    }

    fn own(&mut self) -> Option<Hint> {
        let hint = pop_hint(&mut self.own);
        self.noted = if holds_none(&self.own) {
            0
        } else {
            self.noted.saturating_sub(1)
        };
        self.is_dry = hint.is_none();
        self.count(self.number, hint.is_some());
        hint
    }

    fn steal(&mut self, from: u32) -> Option<Hint> {
        let place = if from < self.number { from } else { from - 1 };
        let hint = steal_hint(&self.others[place as usize]);
        if !self.is_dry {
            self.early = self.early.saturating_add(1);
        }
        self.count(from, hint.is_some());
        hint
    }
}
