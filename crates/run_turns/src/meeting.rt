//! All runs of a heap, which meet at once.
ghost use Rattle.std.specs.Prelude.{◌≡◌, ◌≢◌, ◌+◌, ◌-◌, ◌<◌, ◌≤◌, ◌^◌, [], true, false, length, slice_get, slice_set, vec_capacity, None, Some};
ghost use Rattle.heap_rule.specs.Ending.{AllIn};
ghost use Rattle.heap_rule.specs.Token.{IsIn};
ghost use Rattle.run_turns.specs.Meeting.{AllRunsMet, AreHere, Brought, MayLook, MayPassAmong, PassesAmong};
ghost use Rattle.run_turns.specs.Runs.{GoesOn};

use crate::passing::{left_after, pass};
use crate::run::DomainRun;
use crate::turns::{keep_answer, waits_for_answer};
use gc_pause::phases::Decider;
use gc_pause::stops::{Look, look_all};
use heap_rule::{Domain, Heap};

// All these domains meet, and the first of them looks at the barrier, if it is to.
fn meet_at_once(heap: &Heap, domains: &mut Vec<Domain>, looks: bool) -> Option<Look>
    requires here { AllIn heap.now domains.old.items }
    requires some { 0 < length domains.old.items }
    requires may { looks ≡ true → MayLook domains.old.items }
    ensures here { AllIn heap.now domains.new.items }
    ensures brought { Brought heap.now.config domains.old.items domains.new.items 0 [] [] result }
    ensures looks { (looks ≡ true → result ≢ None) × (looks ≡ false → result ≡ None) }
    ensures room { vec_capacity domains.new ≡ vec_capacity domains.old }
{
    if looks {
        return Some(look_all(heap, domains));
    }
    heap.meet_all(domains);
    None
}

// Takes the run at a place, if one is there.
fn take_run(runs: &mut [Option<DomainRun>], at: usize) -> Option<DomainRun>
    requires inside { at < length runs.old }
    ensures taken { slice_get runs.old at ≡ Some result }
    ensures rest { runs.new ≡ slice_set runs.old at None }
{
    runs[at].take()
}

// Puts a run to a place.
fn put_run(runs: &mut [Option<DomainRun>], at: usize, run: DomainRun)
    requires inside { at < length runs.old }
    ensures { runs.new ≡ slice_set runs.old at (Some run) }
{
    runs[at] = Some(run);
}

// Brings the domains in `room` together with those of the runs from a place on, which lie there for so
// long. The first of them looks at the barrier, if it is to.
fn bring(
    heap: &Heap,
    others: &mut [Option<DomainRun>],
    from: usize,
    room: &mut Vec<Domain>,
    looks: bool,
) -> Option<Look>
    requires here { AllIn heap.now room.old.items }
    requires some { 0 < length room.old.items }
    requires others { AreHere heap.now others.old }
    requires inside { from ≤ length others.old }
    requires fits { length room.old.items + (length others.old - from) ≤ vec_capacity room.old }
    requires may { looks ≡ true → MayLook room.old.items }
    ensures here { AllIn heap.now room.new.items }
    ensures brought { Brought heap.now.config room.old.items room.new.items from others.old others.new result }
    ensures looks { (looks ≡ true → result ≢ None) × (looks ≡ false → result ≡ None) }
    ensures room { vec_capacity room.new ≡ vec_capacity room.old }
{
    if from == others.len() {
        return meet_at_once(heap, room, looks);
    }
    let Some(run) = take_run(others, from) else {
        return bring(heap, others, from + 1, room, looks);
    };
    room.push_reserved(run.domain);
    let found = bring(heap, others, from + 1, room, looks);
    let Some(domain) = room.pop() else {
        unreachable!()
    };
    put_run(others, from, DomainRun { domain, ..run });
    found
}

impl DomainRun {
    /// Brings the domains of all these runs together for a moment, in room that is empty and has a place
    /// for each. All then see one history, in which none has an entry that it hadn't seen, and stand in one
    /// pause; they are else as they were. A place with no run is passed over.
    pub fn meet_all(
        self,
        heap: &Heap,
        others: &mut [Option<DomainRun>],
        room: &mut Vec<Domain>,
    ) -> DomainRun
        requires here { IsIn self.token heap.now }
        requires others { AreHere heap.now others.old }
        requires empty { room.old.items ≡ [] }
        requires fits { length others.old < vec_capacity room.old }
        ensures here { IsIn result.token heap.now }
        ensures met { AllRunsMet heap.now self result others.old others.new }
        ensures room { (room.new.items ≡ []) × (vec_capacity room.new ≡ vec_capacity room.old) }
    {
        room.push_reserved(self.domain);
        bring(heap, others, 0, room, false);
        let Some(domain) = room.pop() else {
            unreachable!()
        };
        DomainRun { domain, ..self }
    }

    /// Takes a domain that has arrived one step further, as `pass_on` does, and brings it together with all
    /// others as it looks at the barrier. All domains of the heap are there, and none of them has arrived less
    /// often: so it never finds that others are missing.
    pub fn pass_among(
        self,
        heap: &Heap,
        others: &mut [Option<DomainRun>],
        room: &mut Vec<Domain>,
        decider: Decider,
    ) -> DomainRun
        requires here { IsIn self.token heap.now }
        requires may { MayPassAmong heap.now self others.old }
        requires empty { room.old.items ≡ [] }
        requires fits { length others.old < vec_capacity room.old }
        ensures here { IsIn result.token heap.now }
        ensures passed { PassesAmong heap.now decider self result others.old others.new }
        ensures goes_on { GoesOn self result }
        ensures room { (room.new.items ≡ []) × (vec_capacity room.new ≡ vec_capacity room.old) }
    {
        let Some(last) = self.left else {
            unreachable!()
        };
        let live = waits_for_answer(&self);
        room.push_reserved(self.domain);
        let Some(found) = bring(heap, others, 0, room, true) else {
            unreachable!()
        };
        let Some(domain) = room.pop() else {
            unreachable!()
        };
        let mut run = DomainRun { domain, ..self };
        let past = pass(
            heap,
            &mut run.domain,
            last,
            decider,
            &mut run.progress,
            live,
            &mut run.hints,
            found,
        );
        run.left = left_after(&past, last);
        keep_answer(
            heap,
            &past,
            run.domain.queued(),
            &mut run.next,
            &mut run.replies,
            &mut run.asked,
            &mut run.collected,
            &mut run.due,
        );
        run
    }
}
