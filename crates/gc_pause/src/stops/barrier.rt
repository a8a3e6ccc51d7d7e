//! The steps of a pause, for a domain that takes turns.
ghost use Rattle.std.specs.Prelude.{◌≡◌, ◌≤◌, ◌<◌, ◌^◌, ◌++◌, length, vec_capacity};
ghost use Rattle.heap_rule.specs.declared.phase.Kind.TheVariants.{Run};
ghost use Rattle.heap_rule.specs.declared.phase.Stage.TheVariants.{In, Leads};
ghost use Rattle.heap_rule.specs.declared.phase.Note.TheVariants as note;
ghost use Rattle.heap_rule.specs.Phases.{code, kind_at};
ghost use Rattle.heap_rule.specs.Standing.{noted, ShowsRegisters};
ghost use Rattle.step_pauses.specs.Pauses.{IsGone, ArriveMay, ClearMay, LookTold, kind_in, arrived_view};
ghost use Rattle.heap_rule.specs.declared.view.DomainView.{DomainView};
ghost use Rattle.heap_rule.specs.Ending.{AllIn};
ghost use Rattle.heap_rule.specs.Token.{IsIn, views_of};
ghost use Rattle.heap_rule.specs.Views.{domain_in};
ghost use Rattle.gc_pause.specs.Stops.Looks.{bit_of, cleared, is_wanted, LedTo, LookAnswers, LooksTogether, MayName};

use crate::stops::answer::{Look, Want, Wants};
use heap_rule::{Domain, Heap, Kind};
use step_pauses::{plan_load, plan_store, want_clear, want_load};

// The plan word of a kind.
fn word_of(kind: Kind) -> u64
    ensures { result ≡ code kind }
{
    match kind {
        Kind::Run => 0,
        Kind::Promote => 1,
        Kind::Reset => 2,
        Kind::Roots => 3,
        Kind::Mark => 4,
        Kind::Rounds => 5,
        Kind::Decide => 6,
        Kind::Queued => 7,
        Kind::Clean => 8,
        Kind::Lasts => 9,
        Kind::Sweep => 10,
        Kind::Answer => 11,
    }
}

// The kind of a plan word.
fn kind_of(word: u64) -> Kind
    ensures { result ≡ kind_at word }
{
    match word {
        0 => Kind::Run,
        1 => Kind::Promote,
        2 => Kind::Reset,
        3 => Kind::Roots,
        4 => Kind::Mark,
        5 => Kind::Rounds,
        6 => Kind::Decide,
        7 => Kind::Queued,
        8 => Kind::Clean,
        9 => Kind::Lasts,
        10 => Kind::Sweep,
        _ => Kind::Answer,
    }
}

// The bit of a wish.
fn bit_of(want: Want) -> u64
    ensures { result ≡ bit_of want }
{
    match want {
        Want::Minor => 1,
        Want::Cycle => 2,
        Want::Finish => 4,
        Want::Full => 8,
    }
}

/// The wishes so far, by one load. It tells too that what the domain's registers hold shows what they
/// hold in the state after its front.
pub fn wants(heap: &Heap, dom: &mut Domain) -> Wants
    requires here { IsIn dom.old heap.now }
    ensures here { IsIn dom.new heap.now }
    ensures view { dom.new.view ≡ noted dom.old.view (note.Want result.bits) }
    ensures registers { ShowsRegisters heap.now.config dom.old.view }
{
    Wants {
        bits: want_load(heap, dom),
    }
}

/// Whether a wish is among those that were found.
pub fn is_wanted(wants: Wants, want: Want) -> bool
    ensures { result ≡ is_wanted want wants.bits }
{
    wants.bits / bit_of(want) % 2 == 1
}

/// Asks for a pause.
pub fn ask(heap: &Heap, dom: &mut Domain, want: Want)
    requires here { IsIn dom.old heap.now }
    requires runs { dom.old.view.seen.stage ≡ In Run }
    ensures here { IsIn dom.new heap.now }
    ensures view { dom.new.view ≡ noted dom.old.view (note.Asked (bit_of want)) }
{
    step_pauses::ask(heap, dom, bit_of(want));
}

/// The domain arrives: its share of the phase is done, and it owes the darkening of no block that a
/// weak read has brought.
pub fn arrive(heap: &Heap, dom: &mut Domain)
    requires here { IsIn dom.old heap.now }
    requires may { ArriveMay heap.now.config dom.old.view }
    ensures here { IsIn dom.new heap.now }
    ensures view { dom.new.view ≡ arrived_view dom.old.view }
{
    step_pauses::arrive(heap, dom);
}

// What a look came to that found this barrier word, whatever the domain's view was before it.
fn answer_look(heap: &Heap, dom: &mut Domain, found: u64) -> Look
    requires here { IsIn dom.old heap.now }
    requires few { dom.old.view.own.arrivals ≤ 2 ^ 60 }
    ensures here { IsIn dom.new heap.now }
    ensures view { dom.new.view ≡ dom.old.view }
    ensures answer { (before : DomainView) → LookTold heap.now.config before found dom.old.view → LookAnswers heap.now.config before dom.new.view result }
{
    if found < dom.arrivals() * u64::from(heap.config().domains) {
        return Look::NotAll(found);
    }
    if dom.arrivals() % 2 == 1 {
        return Look::Lead;
    }
    let word = plan_load(heap, dom);
    Look::Next(kind_of(word))
}

/// Whether all domains have arrived. Then the next phase has begun, and the domain is in it.
pub fn look(heap: &Heap, dom: &mut Domain) -> Look
    requires here { IsIn dom.old heap.now }
    requires gone { IsGone dom.old.view }
    requires few { dom.old.view.own.arrivals ≤ 2 ^ 60 }
    ensures here { IsIn dom.new heap.now }
    ensures answer { LookAnswers heap.now.config dom.old.view dom.new.view result }
{
    let found = step_pauses::look(heap, dom);
    answer_look(heap, dom, found)
}

/// The same of the first of these domains, which has arrived, where all of them meet as it looks: all see
/// one history, and stand in one pause. Where they are all domains of the heap, and none has arrived less
/// often than the first, all have arrived.
pub fn look_all(heap: &Heap, domains: &mut Vec<Domain>) -> Look
    requires here { AllIn heap.now domains.old.items }
    requires some { 0 < length domains.old.items }
    requires gone { IsGone (domain_in (views_of domains.old.items)) }
    requires few { (domain_in (views_of domains.old.items)).own.arrivals ≤ 2 ^ 60 }
    ensures here { AllIn heap.now domains.new.items }
    ensures answer { LooksTogether heap.now.config (views_of domains.old.items) (views_of domains.new.items) result }
    ensures room { vec_capacity domains.new ≡ vec_capacity domains.old }
{
    let found = step_pauses::look_all(heap, domains);
    answer_look(heap, &mut domains[0], found)
}

// Takes the wishes back where domains run next.
fn clear_for(heap: &Heap, dom: &mut Domain, next: Kind)
    requires here { IsIn dom.old heap.now }
    requires may { ClearMay dom.old.view }
    ensures here { IsIn dom.new heap.now }
    ensures view { dom.new.view ≡ record dom.old.view { seen = record dom.old.view.seen { notes = dom.old.view.seen.notes ++ cleared next } } }
{
    match next {
        Kind::Run => want_clear(heap, dom),
        _ => (),
    }
}

/// Domain 0 says in an odd phase which phase comes next. Before domains run again no wish is left, and
/// the list of free pools has been written anew in this phase, or stays. Before they copy the cursor was just set
/// back out of the reserve. Before they run beside a cycle, and before one that goes on is finished, it
/// knows that the armed word is set; before they run after a collection, and before another begins where
/// blocks were copied, that it isn't. Another begins there only where no garbage of the last one is left:
/// where some is, it is freed first. Where the next kind asks for an entry of the collector it stands then.
pub fn lead(heap: &Heap, dom: &mut Domain, next: Kind)
    requires here { IsIn dom.old heap.now }
    requires leads { dom.old.view.own.number ≡ 0 }
    requires odd { dom.old.view.seen.stage ≡ Leads (kind_in dom.old.view.seen.stage) }
    requires may { MayName heap.now.config next dom.old.view }
    ensures here { IsIn dom.new heap.now }
    ensures led { LedTo heap.now.config next dom.old.view dom.new.view }
{
    clear_for(heap, dom, next);
    plan_store(heap, dom, word_of(next));
}
