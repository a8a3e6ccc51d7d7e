//! The steps of a pause, and the end of a trace.
ghost use Rattle.std.specs.Prelude.{◌≡◌, ◌+◌, ◌<◌, length, vec_capacity};
ghost use Rattle.heap_rule.specs.declared.phase.Kind.TheVariants.{Run};
ghost use Rattle.heap_rule.specs.declared.phase.Stage.TheVariants.{In};
ghost use Rattle.heap_rule.specs.Phases.{kind_at};
ghost use Rattle.step_pauses.specs.Pauses.{IsGone, IsWish, ArriveMay, ClearMay, LeadMay, WantTold, AskTold, Arrived, LookTold, LooksAll, PlanTold, ClearTold, LeadTold, EndTold, EndedTold};
ghost use Rattle.heap_rule.specs.Standing.{Acts};
ghost use Rattle.heap_rule.specs.Ending.{AllIn};
ghost use Rattle.heap_rule.specs.Token.{IsIn, views_of};
ghost use Rattle.heap_rule.specs.Views.{domain_in};

use heap_rule::{
    BARRIER, Change, Domain, ENDED, Heap, Leaving, Own, PLAN, WANT, Writing, raw_add, raw_load,
    raw_load_all, raw_or, raw_store,
};
use heap_words::Value;
use std::marker::Brand;

/// A load of the want word, at which no entry stands. Answers the word. It tells too that the registers
/// hold what they hold in the state after the front: of a block not which, for that see `label_load`.
pub fn want_load(heap: &Heap, dom: &mut Domain) -> u64
    requires here { IsIn dom.old heap.now }
    ensures here { IsIn dom.new heap.now }
    ensures told { WantTold heap.now.config dom.old.view result dom.new.view }
{
    raw_load::<Brand, Leaving>(heap, dom, WANT, &Leaving, &[])
}

/// A running domain sets a bit of the want word: it wishes for a minor collection (1), for a cycle of the
/// major heap (2), for the end of the one that goes on (4), or for a complete collection (8).
pub fn ask(heap: &Heap, dom: &mut Domain, bits: u64)
    requires here { IsIn dom.old heap.now }
    requires runs { dom.old.view.seen.stage ≡ In Run }
    requires wish { IsWish bits }
    ensures here { IsIn dom.new heap.now }
    ensures told { AskTold bits dom.old.view 0 dom.new.view }
{
    raw_or::<Brand, Leaving>(heap, dom, WANT, bits, &Leaving, &[]);
}

// The arrival is counted, and the list of copies is emptied.
#[derive(Clone, Copy)]
struct Arriving;

impl Writing for Arriving {
    ghost use Rattle.step_pauses.specs.Pauses.{CanArrive, CountsArrival};

    ghost can = { λ _ _ _ own. CanArrive own };

    ghost writes = { λ _ _ _ own after. CountsArrival own after };

    fn write(&self, _found: u64, _changes: &[Change], own: &mut Own) {
        own.arrivals += 1;
        own.pending.clear();
    }
}

/// The domain arrives, which empties its list of copies. It owes the darkening of no block that a weak
/// read has brought.
pub fn arrive(heap: &Heap, dom: &mut Domain)
    requires here { IsIn dom.old heap.now }
    requires may { ArriveMay heap.now.config dom.old.view }
    ensures here { IsIn dom.new heap.now }
    ensures told { Arrived dom.old.view 0 dom.new.view }
{
    raw_add::<Brand, Arriving>(heap, dom, BARRIER, 1, &Arriving, &[]);
}

/// A load of the barrier word by a domain that has arrived. Answers the word: where it isn't below the
/// domain's arrivals times the number of domains, the next phase has begun. Where that is an even one,
/// the history tells how far a collection has come.
pub fn look(heap: &Heap, dom: &mut Domain) -> u64
    requires here { IsIn dom.old heap.now }
    requires gone { IsGone dom.old.view }
    ensures here { IsIn dom.new heap.now }
    ensures told { LookTold heap.now.config dom.old.view result dom.new.view }
{
    raw_load::<Brand, Leaving>(heap, dom, BARRIER, &Leaving, &[])
}

/// A load of the barrier word by the first of these domains, which has arrived, at which all of them meet:
/// all see one history, which begins with what each had seen, and stand in one pause. To the first it tells
/// what `look` tells, and the others are else as they were. Where they are all domains of the heap, and none
/// has arrived less often than the first, the word isn't below its arrivals times the number of domains.
pub fn look_all(heap: &Heap, domains: &mut Vec<Domain>) -> u64
    requires here { AllIn heap.now domains.old.items }
    requires some { 0 < length domains.old.items }
    requires gone { IsGone (domain_in (views_of domains.old.items)) }
    ensures here { AllIn heap.now domains.new.items }
    ensures told { LooksAll heap.now.config (views_of domains.old.items) result (views_of domains.new.items) }
    ensures room { vec_capacity domains.new ≡ vec_capacity domains.old }
{
    raw_load_all::<Brand>(heap, domains, BARRIER)
}

/// A load of the plan word, which is the kind of the phase that the domain is in.
pub fn plan_load(heap: &Heap, dom: &mut Domain) -> u64
    requires here { IsIn dom.old heap.now }
    ensures here { IsIn dom.new heap.now }
    ensures told { PlanTold dom.old.view result dom.new.view }
{
    raw_load::<Brand, Leaving>(heap, dom, PLAN, &Leaving, &[])
}

/// Domain 0 writes 0 into the want word, in an odd phase.
pub fn want_clear(heap: &Heap, dom: &mut Domain)
    requires here { IsIn dom.old heap.now }
    requires may { ClearMay dom.old.view }
    ensures here { IsIn dom.new heap.now }
    ensures told { ClearTold dom.old.view 0 dom.new.view }
{
    raw_store::<Brand, Leaving>(heap, dom, WANT, 0, &Leaving, &[]);
}

/// Domain 0 names the kind of the next phase, in an odd phase: `new` is its word. Before the domains
/// run beside a cycle, and before one that goes on is finished, it knows that the armed word is set;
/// before they run after a collection, and before another begins where blocks were copied, that it
/// isn't.
pub fn plan_store(heap: &Heap, dom: &mut Domain, new: u64)
    requires here { IsIn dom.old heap.now }
    requires may { LeadMay heap.now.config dom.old.view new (kind_at new) }
    ensures here { IsIn dom.new heap.now }
    ensures told { LeadTold heap.now.config (kind_at new) dom.old.view new dom.new.view }
{
    raw_store::<Brand, Leaving>(heap, dom, PLAN, new, &Leaving, &[]);
}

// The registers hold nothing, and nothing is registered.
#[derive(Clone, Copy)]
struct Ending;

impl Writing for Ending {
    ghost use Rattle.heap_rule.specs.Raw.{CanLeave};
    ghost use Rattle.step_pauses.specs.Pauses.{ClearsTrace};

    ghost can = { λ _ _ _ own. CanLeave own };

    ghost writes = { λ _ _ _ own after. ClearsTrace own after };

    fn write(&self, _found: u64, _changes: &[Change], own: &mut Own) {
        own.registers = [Value::Nothing; 16];
        own.finalisers.finals.clear();
        own.finalisers.lasts.clear();
    }
}

/// The end of a trace: the ended word rises by one, and the entry of the end stands there. The
/// registers hold nothing then, and nothing is registered.
pub fn ended_add(heap: &Heap, dom: &mut Domain)
    requires here { IsIn dom.old heap.now }
    requires acts { Acts heap.now.config dom.old.view }
    ensures here { IsIn dom.new heap.now }
    ensures told { EndTold heap.now.config dom.old.view 0 dom.new.view }
{
    raw_add::<Brand, Ending>(heap, dom, ENDED, 1, &Ending, &[]);
}

/// A load of the ended word. Answers how many traces have ended.
pub fn ended_load(heap: &Heap, dom: &mut Domain) -> u64
    requires here { IsIn dom.old heap.now }
    ensures here { IsIn dom.new heap.now }
    ensures told { EndedTold heap.now.config dom.old.view result dom.new.view }
{
    raw_load::<Brand, Leaving>(heap, dom, ENDED, &Leaving, &[])
}
