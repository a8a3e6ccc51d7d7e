//! What domain 0 does in an odd phase before it names the next kind.
ghost use Rattle.std.specs.Prelude.{◌≡◌, true};
ghost use Rattle.heap_rule.specs.declared.phase.Kind.TheVariants.{Run, Promote, Reset, Roots, Mark, Rounds, Queued, Lasts, Sweep, Answer};
ghost use Rattle.heap_rule.specs.declared.phase.Stage.TheVariants.{Leads};
ghost use Rattle.heap_rule.specs.Token.{IsIn};
ghost use Rattle.heap_rule.specs.Views.{voided};
ghost use Rattle.step_marks.specs.Marking.Arming.{ArmMay, knowing_armed};
ghost use Rattle.step_pools.specs.Listings.{IsLeader, NamesAll};
ghost use Rattle.do_alloc.specs.Pools.Listed.{ListsFree};
ghost use Rattle.step_sweep.specs.Turning.{ClearMay};
ghost use Rattle.gc_pause.specs.declared.phases.decider.Decider.{Decider};
ghost use Rattle.gc_pause.specs.Phases.Leading.{CountsCleared, Opens, begins, completes, finishes, kind_after_reset};

use crate::phases::decider::Decider;
use crate::stops::{Want, Wants, is_wanted, wants};
use do_alloc::pools::{list_free, set_cursor_back};
use heap_rule::{Config, Domain, Heap, Kind, Progress};
use heap_words::{pack_colours, rotate};
use step_marks::marking::{armed_store, changed_load, colours_now};
use step_sweep::{blocks_clear, colours_store, words_clear};

// Before young blocks are copied the cursor is set back.
fn after_run(heap: &Heap, dom: &mut Domain) -> Kind
    requires here { IsIn dom.old heap.now }
    requires first { dom.old.view.own.number ≡ 0 }
    requires odd { dom.old.view.seen.stage ≡ Leads Run }
    ensures here { IsIn dom.new heap.now }
    ensures opens { (who : Decider) → Opens heap.now.config who dom.old.view dom.new.view Run result }
{
    set_cursor_back(heap, dom);
    Kind::Promote
}

// Whether a collection of the major heap begins, where so many pools are listed, or the caller says so.
fn begins(limits: &Config, decider: Decider, wants: Wants, free: u32) -> bool
    ensures { result ≡ begins limits.now decider wants.bits free }
{
    match decider {
        Decider::Wishes => {
            is_wanted(wants, Want::Cycle)
                || is_wanted(wants, Want::Full)
                || 2 * u64::from(free) < u64::from(limits.pools)
        }
        Decider::Caller { complete } => complete,
    }
}

// Whether a collection that goes on beside running domains is finished.
fn finishes(decider: Decider, wants: Wants) -> bool
    ensures { result ≡ finishes decider wants.bits }
{
    match decider {
        Decider::Wishes => is_wanted(wants, Want::Finish) || is_wanted(wants, Want::Full),
        Decider::Caller { complete } => complete,
    }
}

// Whether a collection of the major heap is a complete one.
fn completes(decider: Decider, wants: Wants) -> bool
    ensures { result ≡ completes decider wants.bits }
{
    match decider {
        Decider::Wishes => is_wanted(wants, Want::Full),
        Decider::Caller { complete } => complete,
    }
}

// Before the domains run the armed word says whether a collection of the major heap goes on beside them,
// and the list of free pools stays, or is written anew where a pool came back. Answers how many it names.
fn before_run(heap: &Heap, dom: &mut Domain, armed: bool) -> u32
    requires here { IsIn dom.old heap.now }
    requires may { ArmMay dom.old.view armed }
    requires leader { IsLeader dom.old.view }
    ensures here { IsIn dom.new heap.now }
    ensures list { NamesAll heap.now.config dom.new.view }
    ensures lists { ListsFree result (knowing_armed dom.old.view armed) dom.new.view }
{
    armed_store(heap, dom, armed);
    list_free(heap, dom)
}

// What comes after the minor collection, where so many pools are listed, by whether a collection of the
// major heap goes on beside running domains, and whether garbage of the last one may be left.
fn kind_after_reset(
    limits: &Config,
    decider: Decider,
    wants: Wants,
    free: u32,
    progress: Progress,
) -> Kind
    ensures { result ≡ kind_after_reset limits.now decider wants.bits free progress }
{
    match (
        progress.armed,
        finishes(decider, wants),
        begins(limits, decider, wants, free),
    ) {
        (true, true, _) => Kind::Mark,
        (false, _, true) if progress.unswept => Kind::Sweep,
        (false, _, true) => Kind::Roots,
        _ => Kind::Run,
    }
}

// Nothing that lives is counted yet.
fn clear_counts(heap: &Heap, dom: &mut Domain)
    requires here { IsIn dom.old heap.now }
    requires may { ClearMay dom.old.view }
    ensures here { IsIn dom.new heap.now }
    ensures cleared { CountsCleared dom.old.view dom.new.view }
{
    blocks_clear(heap, dom);
    words_clear(heap, dom);
}

// The list of free pools stays, or is written anew. A collection of the major heap begins or none does;
// one that goes on is finished or goes on. Before one begins the garbage that is left of the last one is
// freed.
fn after_reset(heap: &Heap, dom: &mut Domain, decider: Decider, progress: Progress) -> Kind
    requires here { IsIn dom.old heap.now }
    requires first { dom.old.view.own.number ≡ 0 }
    requires odd { dom.old.view.seen.stage ≡ Leads Reset }
    requires knows { progress ≡ dom.old.view.seen.share.progress }
    ensures here { IsIn dom.new heap.now }
    ensures opens { Opens heap.now.config decider dom.old.view dom.new.view Reset result }
{
    let free = list_free(heap, dom);
    let found = wants(heap, dom);
    let next = kind_after_reset(&heap.config(), decider, found, free, progress);
    match next {
        Kind::Sweep => clear_counts(heap, dom),
        _ => (),
    }
    next
}

// Where a complete collection is asked for it is finished in this pause, and else it goes on beside
// running domains.
fn after_roots(heap: &Heap, dom: &mut Domain, decider: Decider) -> Kind
    requires here { IsIn dom.old heap.now }
    requires first { dom.old.view.own.number ≡ 0 }
    requires odd { dom.old.view.seen.stage ≡ Leads Roots }
    ensures here { IsIn dom.new heap.now }
    ensures opens { Opens heap.now.config decider dom.old.view dom.new.view Roots result }
{
    let found = wants(heap, dom);
    if completes(decider, found) {
        Kind::Mark
    } else {
        before_run(heap, dom, true);
        Kind::Run
    }
}

// Blocks are marked until no domain leaves one behind that it has darkened and hasn't scanned.
fn after_mark(heap: &Heap, dom: &mut Domain) -> Kind
    requires here { IsIn dom.old heap.now }
    requires first { dom.old.view.own.number ≡ 0 }
    requires odd { dom.old.view.seen.stage ≡ Leads Mark }
    ensures here { IsIn dom.new heap.now }
    ensures opens { (who : Decider) → Opens heap.now.config who dom.old.view dom.new.view Mark result }
{
    if changed_load(heap, dom) == 0 {
        Kind::Rounds
    } else {
        Kind::Mark
    }
}

// The same of ephemerons. Then the first pass of the collection ends, or the second where the cut is
// made.
fn after_rounds(heap: &Heap, dom: &mut Domain, cut: bool) -> Kind
    requires here { IsIn dom.old heap.now }
    requires first { dom.old.view.own.number ≡ 0 }
    requires odd { dom.old.view.seen.stage ≡ Leads Rounds }
    requires cut { cut ≡ dom.old.view.seen.share.progress.cut }
    ensures here { IsIn dom.new heap.now }
    ensures opens { (who : Decider) → Opens heap.now.config who dom.old.view dom.new.view Rounds result }
{
    if changed_load(heap, dom) != 0 {
        return Kind::Mark;
    }
    if cut { Kind::Clean } else { Kind::Decide }
}

// What the queues keep alive is followed, and where they keep nothing alive that wasn't marked before the
// cut, the second pass ends at once.
fn after_queued(heap: &Heap, dom: &mut Domain) -> Kind
    requires here { IsIn dom.old heap.now }
    requires first { dom.old.view.own.number ≡ 0 }
    requires odd { dom.old.view.seen.stage ≡ Leads Queued }
    ensures here { IsIn dom.new heap.now }
    ensures opens { (who : Decider) → Opens heap.now.config who dom.old.view dom.new.view Queued result }
{
    if changed_load(heap, dom) == 0 {
        Kind::Clean
    } else {
        Kind::Mark
    }
}

// What wasn't marked is garbage from here on. Where a complete collection is asked for it is freed in
// this pause, and nothing that lives is counted yet. Else the domains run, and free it as they do.
fn after_lasts(heap: &Heap, dom: &mut Domain, decider: Decider) -> Kind
    requires here { IsIn dom.old heap.now }
    requires first { dom.old.view.own.number ≡ 0 }
    requires odd { dom.old.view.seen.stage ≡ Leads Lasts }
    requires forgot { dom.old.view.seen.share ≡ voided dom.old.view.seen.share }
    ensures here { IsIn dom.new heap.now }
    ensures opens { Opens heap.now.config decider dom.old.view dom.new.view Lasts result }
{
    let colours = colours_now(heap, dom);
    colours_store(heap, dom, pack_colours(rotate(colours)));
    let found = wants(heap, dom);
    if completes(decider, found) {
        clear_counts(heap, dom);
        Kind::Sweep
    } else {
        before_run(heap, dom, false);
        Kind::Run
    }
}

// Once the garbage is freed that was left of the last collection another one begins, or, where none is
// asked for any more, the domains run.
fn after_late_sweep(heap: &Heap, dom: &mut Domain, decider: Decider) -> Kind
    requires here { IsIn dom.old heap.now }
    requires first { dom.old.view.own.number ≡ 0 }
    requires odd { dom.old.view.seen.stage ≡ Leads Sweep }
    requires unswept { dom.old.view.seen.share.progress.unswept ≡ true }
    ensures here { IsIn dom.new heap.now }
    ensures opens { Opens heap.now.config decider dom.old.view dom.new.view Sweep result }
{
    let free = list_free(heap, dom);
    let found = wants(heap, dom);
    if begins(&heap.config(), decider, found, free) {
        Kind::Roots
    } else {
        Kind::Run
    }
}

// A collection that began in this pause is answered, and after one that began in an earlier pause
// another begins.
fn after_sweep(heap: &Heap, dom: &mut Domain, decider: Decider, progress: Progress) -> Kind
    requires here { IsIn dom.old heap.now }
    requires first { dom.old.view.own.number ≡ 0 }
    requires odd { dom.old.view.seen.stage ≡ Leads Sweep }
    requires knows { progress ≡ dom.old.view.seen.share.progress }
    ensures here { IsIn dom.new heap.now }
    ensures opens { Opens heap.now.config decider dom.old.view dom.new.view Sweep result }
{
    if progress.unswept {
        after_late_sweep(heap, dom, decider)
    } else if progress.whole {
        Kind::Answer
    } else {
        Kind::Roots
    }
}

// No collection goes on, and the list of free pools is written anew, where pools were given back.
fn after_answer(heap: &Heap, dom: &mut Domain) -> Kind
    requires here { IsIn dom.old heap.now }
    requires first { dom.old.view.own.number ≡ 0 }
    requires odd { dom.old.view.seen.stage ≡ Leads Answer }
    ensures here { IsIn dom.new heap.now }
    ensures opens { (who : Decider) → Opens heap.now.config who dom.old.view dom.new.view Answer result }
{
    before_run(heap, dom, false);
    Kind::Run
}

// Finds which kind comes next, or is told, and does what belongs before it.
pub(crate) fn open(
    heap: &Heap,
    dom: &mut Domain,
    last: Kind,
    decider: Decider,
    progress: Progress,
) -> Kind
    requires here { IsIn dom.old heap.now }
    requires first { dom.old.view.own.number ≡ 0 }
    requires odd { dom.old.view.seen.stage ≡ Leads last }
    requires forgot { dom.old.view.seen.share ≡ voided dom.old.view.seen.share }
    requires knows { progress ≡ dom.old.view.seen.share.progress }
    ensures here { IsIn dom.new heap.now }
    ensures opens { Opens heap.now.config decider dom.old.view dom.new.view last result }
{
    match last {
        Kind::Run => after_run(heap, dom),
        Kind::Promote => Kind::Reset,
        Kind::Reset => after_reset(heap, dom, decider, progress),
        Kind::Roots => after_roots(heap, dom, decider),
        Kind::Mark => after_mark(heap, dom),
        Kind::Rounds => after_rounds(heap, dom, progress.cut),
        Kind::Decide => Kind::Queued,
        Kind::Queued => after_queued(heap, dom),
        Kind::Clean => Kind::Lasts,
        Kind::Lasts => after_lasts(heap, dom, decider),
        Kind::Sweep => after_sweep(heap, dom, decider, progress),
        Kind::Answer => after_answer(heap, dom),
    }
}
