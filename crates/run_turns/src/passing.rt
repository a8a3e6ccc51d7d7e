//! What a domain does that has arrived.
ghost use Rattle.std.specs.Prelude.{◌≡◌, ◌<◌, ◌^◌, [], false, length, true};
ghost use Rattle.model_core.specs.Domains.{domain_at};
ghost use Rattle.model_core.specs.declared.entry.Entry.{Entry};
ghost use Rattle.heap_rule.specs.declared.phase.Kind.TheVariants.{Run, Promote, Reset, Answer};
ghost use Rattle.heap_rule.specs.declared.phase.Stage.TheVariants.{In, Leads};
ghost use Rattle.heap_rule.specs.declared.view.DomainView.{DomainView};
ghost use Rattle.heap_rule.specs.declared.view.Hunt.TheVariants.{Rests};
ghost use Rattle.heap_rule.specs.Rule.{state_of};
ghost use Rattle.heap_rule.specs.Running.{RemembersAll};
ghost use Rattle.heap_rule.specs.Token.{IsIn};
ghost use Rattle.heap_rule.specs.Views.{voided};
ghost use Rattle.step_pauses.specs.Pauses.{arrived_view};
ghost use Rattle.gc_pause.specs.Phases.Sharing.{HintsIn};
ghost use Rattle.gc_mark.specs.Decks.{StaysDeck};
ghost use Rattle.run_turns.specs.LookOutcomes.{CameOf, Looked, PassAnswers, PassHints, left_after};
ghost use Rattle.run_turns.specs.Pausing.{HasNothingPending, KnowsProgress, LeavesEven, LeavesOdd, LeavesPromote, LeavesReset, IsReady, CountsAndAnswers, LivesAs, due_of};

use do_alloc::young::reset;
use gc_copy::promote;
use gc_mark::Hints;
use gc_pause::phases::{Decider, give_back, lead_on, share};
use gc_pause::stops::{Look, arrive};
use heap_rule::{Domain, Heap, Kind, Progress};
use model_core::reply::Reply;
use step_sweep::{live_blocks_load, live_words_load};

// What a look at the barrier came to.
#[derive(Drop)]
pub(crate) enum LookOutcome {
    // Not all have arrived: the barrier word.
    Waits(u64),
    // The phase that had begun is done, and the domain has arrived.
    Arrived(Kind),
    // So it has where a collection was answered: how many blocks that left, and the reply of its
    // `full_major`.
    Answered { blocks: u64, reply: Option<Reply> },
    // The domain runs.
    Runs,
}

// In an odd phase domain 0 names the kind that comes next, and then each domain arrives. Answers the kind
// of the last even phase that the domain knows of.
fn leave_odd(
    heap: &Heap,
    dom: &mut Domain,
    last: Kind,
    decider: Decider,
    progress: &mut Progress,
) -> Kind
    requires here { IsIn dom.old heap.now }
    requires odd { dom.old.view.seen.stage ≡ Leads last }
    requires at_rest { dom.old.view.seen.hunt ≡ Rests }
    requires idle { dom.old.view.seen.made ≡ [] }
    requires few { dom.old.view.own.arrivals < 2 ^ 60 }
    requires forgot { dom.old.view.seen.share ≡ voided dom.old.view.seen.share }
    requires knows { KnowsProgress progress.old dom.old.view }
    ensures here { IsIn dom.new heap.now }
    ensures leaves { LeavesOdd heap.now.config decider dom.old.view dom.new.view last result }
    ensures knows { KnowsProgress progress.new dom.new.view }
{
    if dom.number() == 0 {
        lead_on(heap, dom, last, decider, progress)
    } else {
        arrive(heap, dom);
        last
    }
}

// The domain copies the young blocks that it needs, and arrives.
fn leave_promote(heap: &Heap, dom: &mut Domain)
    requires here { IsIn dom.old heap.now }
    requires stage { dom.old.view.seen.stage ≡ In Promote }
    requires at_rest { dom.old.view.seen.hunt ≡ Rests }
    requires idle { dom.old.view.seen.made ≡ [] }
    requires few { dom.old.view.own.arrivals < 2 ^ 60 }
    requires quiet { HasNothingPending dom.old.view }
    requires remembers { RemembersAll dom.old.view }
    ensures here { IsIn dom.new heap.now }
    ensures leaves { LeavesPromote heap.now.config dom.old.view dom.new.view }
{
    promote(heap, dom);
    arrive(heap, dom);
}

// The domain empties its minor area, and arrives.
fn leave_reset(heap: &Heap, dom: &mut Domain)
    requires here { IsIn dom.old heap.now }
    requires stage { dom.old.view.seen.stage ≡ In Reset }
    requires at_rest { dom.old.view.seen.hunt ≡ Rests }
    requires idle { dom.old.view.seen.made ≡ [] }
    requires few { dom.old.view.own.arrivals < 2 ^ 60 }
    requires quiet { HasNothingPending dom.old.view }
    requires looked_through { dom.old.view.seen.remembered ≡ [] }
    ensures here { IsIn dom.new heap.now }
    ensures leaves { LeavesReset heap.now.config dom.old.view dom.new.view }
{
    reset(heap, dom);
    arrive(heap, dom);
}

// The domain does its share of an even phase, and arrives. No collection is answered in it.
fn leave_even(heap: &Heap, dom: &mut Domain, kind: Kind, hints: &mut Hints)
    requires here { IsIn dom.old heap.now }
    requires stage { dom.old.view.seen.stage ≡ In kind }
    requires pauses { (kind ≡ Run → ⊥) × (kind ≡ Answer → ⊥) }
    requires at_rest { dom.old.view.seen.hunt ≡ Rests }
    requires idle { dom.old.view.seen.made ≡ [] }
    requires few { dom.old.view.own.arrivals < 2 ^ 60 }
    requires quiet { HasNothingPending dom.old.view }
    requires ready { IsReady heap.now.config kind dom.old.view }
    ensures here { IsIn dom.new heap.now }
    ensures leaves { LeavesEven heap.now.config kind dom.old.view dom.new.view }
    ensures deck { StaysDeck hints.old hints.new }
    ensures hints { HintsIn kind (length dom.old.view.own.finalisers.queue.items) hints.old hints.new }
{
    match kind {
        Kind::Run | Kind::Answer => unreachable!(),
        Kind::Promote => leave_promote(heap, dom),
        Kind::Reset => leave_reset(heap, dom),
        _ => share(heap, dom, kind, hints),
    }
}

// Makes the entry of a `full_major`, where so many blocks live, and answers its reply.
fn answer_live(heap: &Heap, dom: &mut Domain, blocks: u64) -> Reply
    requires here { IsIn dom.old heap.now }
    requires stage { dom.old.view.seen.stage ≡ In Answer }
    requires known { dom.old.view.seen.share.blocks ≡ Some blocks }
    requires goes_on { (domain_at (state_of heap.now.config dom.old.view.seen.front) dom.old.view.own.number).ended ≡ false }
    requires paid { due_of heap.now.config dom.old.view ≡ 0 }
    ensures here { IsIn dom.new heap.now }
    ensures lives { LivesAs heap.now.config dom.old.view dom.new.view blocks result }
{
    let words = live_words_load(heap, dom, blocks);
    Reply::Live { blocks, words }
}

// Where a collection is answered: makes the entry of a `full_major` if the domain waits for one, gives
// back the pools in which nothing is left, and arrives. Answers how many blocks live, and the reply.
fn answer(heap: &Heap, dom: &mut Domain, live: bool) -> (u64, Option<Reply>)
    requires here { IsIn dom.old heap.now }
    requires stage { dom.old.view.seen.stage ≡ In Answer }
    requires at_rest { dom.old.view.seen.hunt ≡ Rests }
    requires idle { dom.old.view.seen.made ≡ [] }
    requires few { dom.old.view.own.arrivals < 2 ^ 60 }
    requires forgot { dom.old.view.seen.share ≡ voided dom.old.view.seen.share }
    requires goes_on { live ≡ true → (domain_at (state_of heap.now.config dom.old.view.seen.front) dom.old.view.own.number).ended ≡ false }
    requires paid { live ≡ true → due_of heap.now.config dom.old.view ≡ 0 }
    ensures here { IsIn dom.new heap.now }
    ensures answers { CountsAndAnswers heap.now.config dom.old.view dom.new.view live result.0 result.1 }
{
    let blocks = live_blocks_load(heap, dom);
    let reply = if live {
        Some(answer_live(heap, dom, blocks))
    } else {
        None
    };
    give_back(heap, dom);
    (blocks, reply)
}

// After a look at the barrier: where all have arrived the domain does its share of the phase that has
// begun, and arrives. Where the domains run again its minor area is empty. `live`: its next command is a
// `full_major`, which is answered where a collection is, and it owes no finaliser before it.
#[inline(never)]
pub(crate) fn pass(
    heap: &Heap,
    dom: &mut Domain,
    last: Kind,
    decider: Decider,
    progress: &mut Progress,
    live: bool,
    hints: &mut Hints,
    found: Look,
) -> LookOutcome
    requires here { IsIn dom.old heap.now }
    requires looked { (before : DomainView) × Looked heap.now.config before dom.old.view last live progress.old found }
    ensures here { IsIn dom.new heap.now }
    ensures answer { (before : DomainView) → Looked heap.now.config before dom.old.view last live progress.old found → (says : PassAnswers heap.now.config decider before dom.new.view last live result) × CameOf heap.now.config decider before dom.new.view last live result says found dom.old.view }
    ensures knows { KnowsProgress progress.new dom.new.view }
    ensures deck { StaysDeck hints.old hints.new }
    ensures hints { (before : DomainView) → Looked heap.now.config before dom.old.view last live progress.old found → PassHints before result hints.old hints.new }
{
    match found {
        Look::NotAll(b) => LookOutcome::Waits(b),
        Look::Lead => LookOutcome::Arrived(leave_odd(heap, dom, last, decider, progress)),
        Look::Next(kind) => match kind {
            Kind::Run => LookOutcome::Runs,
            Kind::Answer => {
                let (blocks, reply) = answer(heap, dom, live);
                LookOutcome::Answered { blocks, reply }
            }
            _ => {
                leave_even(heap, dom, kind, hints);
                LookOutcome::Arrived(kind)
            }
        },
    }
}

// The kind of the last even phase that the domain knows of, where it has arrived.
pub(crate) fn left_after(past: &LookOutcome, last: Kind) -> Option<Kind>
    ensures { result ≡ left_after past.now last }
{
    match past {
        LookOutcome::Waits(_) => Some(last),
        LookOutcome::Arrived(kind) => Some(*kind),
        LookOutcome::Answered { .. } => Some(Kind::Answer),
        LookOutcome::Runs => None,
    }
}
