//! Turns.
ghost use Rattle.std.specs.Prelude.{◌≡◌, ◌≢◌, ◌≤◌, ◌<◌, ◌^◌, ◌&&◌, ℕ, nat_lt, true, false, length, slice_get, vec_capacity, vec_len, Some, None};
ghost use Rattle.model_core.specs.declared.command.Command.TheVariants.{Poll};
ghost use Rattle.gc_pause.specs.declared.stops.answer.Want.TheVariants.{Finish, Full};
ghost use Rattle.heap_rule.specs.declared.phase.Note.TheVariants as note;
ghost use Rattle.heap_rule.specs.declared.phase.Kind.TheVariants.{Run};
ghost use Rattle.step_pauses.specs.Pauses.{arrived_view};
ghost use Rattle.heap_rule.specs.Running.{Runs};
ghost use Rattle.heap_rule.specs.Standing.{noted, with_front, ShowsRegisters};
ghost use Rattle.heap_rule.specs.Token.{IsIn};
ghost use Rattle.gc_pause.specs.Stops.Looks.{bit_of};
ghost use Rattle.heap_rule.specs.Limits.{sizes_in};
ghost use Rattle.run_turns.specs.Runs.{EndsWith, KnowsQueue, StaysOver, Stretches, HasEnded, EndsTrace, RunAnswers, TurnAnswers, RestAnswers, CalmAnswers, GoesOn, CalmDid, IsHandedIn, IsUnqueued, PassesOn, Polls, RunsFinaliser, TrialAnswers, WaitsForAnswer, is_asked, lets_refuse, may_use_up, served_since, halted, noted_token, places_in, ran_with, said_with, WorksBeside};
ghost use Rattle.run_turns.specs.Sections.{IsOrdinary, IsTold};
ghost use Rattle.run_turns.specs.LookOutcomes.{PastAnswers, asked_after, collected_after, due_after, next_after, replies_after};
ghost use Rattle.model_core.specs.declared.reply.Reply as says;
ghost use Rattle.run_turns.specs.declared.passing.LookOutcome.TheVariants.{Answered};
ghost use Rattle.run_turns.specs.declared.turned.Turned as turned;

use crate::command::{Attempt, try_command};
use crate::passing::{LookOutcome, left_after, pass};
use crate::place::Place;
use crate::run::DomainRun;
use crate::sections::{join, make_command, see_start, tell_end};
use crate::supply::Supply;
use crate::turned::Turned;
use do_finalisers::run_next;
use gc_mark::{Why, slice};
use gc_pause::phases::Decider;
use gc_pause::stops::{Want, arrive, ask, look, wants};
use gc_sweep::sweep_slice;
use heap_rule::{Domain, Heap, Kind};
use heap_words::classes::reserve;
use heap_words::remembered::BoundedQueue;
use model_core::command::Command;
use model_core::reply::Reply;
use step_marks::marking::armed_now;
use step_pauses::{ended_add, ended_load};
use step_run::queues::queue_load;

// Makes the entry of the end of a trace. The registers hold nothing then.
fn end(heap: &Heap, dom: &mut Domain)
    requires { Runs heap.now dom.old }
    ensures { HasEnded heap.now dom.old dom.new }
{
    ended_add(heap, dom);
}

// Whether a domain has arrived since it asked for a pause. It is a call of its own, so that a command of a domain which has
// asked for none doesn't pay for it.
#[inline(never)]
fn has_arrived_since(run: &DomainRun, asked: u64) -> bool
    ensures { result ≡ nat_lt asked run.now.token.view.own.arrivals }
{
    asked < run.domain.arrivals()
}

// Whether a pause was begun and ended since the domain asked for one.
#[inline(always)]
pub(crate) fn is_served(run: &DomainRun) -> bool
    ensures { result ≡ served_since run.now.asked run.now.token.view.own.arrivals }
{
    match run.asked {
        Some(at) => has_arrived_since(run, at),
        None => false,
    }
}

// Keeps the reply of a finaliser: where commands are handed in, apart from theirs.
#[inline(always)]
fn keep_ran(supply: Supply, replies: &mut Vec<Reply>, ran: &mut BoundedQueue<Reply>, reply: Reply)
    requires among { (IsHandedIn supply → ⊥) → vec_len replies.old < vec_capacity replies.old }
    requires apart { IsHandedIn supply → 1 ≤ ran.old.room }
    ensures replies { replies.new.items ≡ said_with supply replies.old.items reply }
    ensures ran { ran.new.items ≡ ran_with supply ran.old.items reply }
    ensures room { vec_capacity replies.new ≡ vec_capacity replies.old }
    ensures places { places_in ran.new ≡ places_in ran.old }
{
    match supply {
        Supply::Listed | Supply::Section => replies.push_reserved(reply),
        Supply::Open | Supply::Closed => ran.push(reply),
    }
}

// Runs the finaliser that has waited longest in the domain's queue, and keeps its reply. Answers whether
// one waited.
#[inline(always)]
fn runs_finaliser(heap: &Heap, run: &mut DomainRun) -> bool
    requires here { IsIn run.old.token heap.now }
    requires running { run.old.ended ≡ false }
    requires left { run.old.left ≡ None }
    ensures here { IsIn run.new.token heap.now }
    ensures ran { result ≡ true → RunsFinaliser heap.now run.old.token run.old run.new }
    ensures same { result ≡ false → run.new ≡ run.old }
    ensures unqueued { result ≡ false → IsUnqueued run.old.token }
{
    let Some(ran) = run_next(heap, &mut run.domain) else {
        return false;
    };
    keep_ran(run.supply, &mut run.replies, &mut run.ran, ran.reply());
    run.due = run.domain.queued();
    true
}

// Tries the next command of a run, and keeps its reply. Else answers which pause must come first.
#[inline(always)]
fn try_next(heap: &Heap, run: &mut DomainRun, command: &Command) -> Option<Want>
    requires here { IsIn run.old.token heap.now }
    requires running { run.old.ended ≡ false }
    requires left { run.old.left ≡ None }
    requires unqueued { IsUnqueued run.old.token }
    requires going { run.old.place ≢ Place.Before }
    requires ordinary { IsOrdinary command.now }
    requires next { slice_get run.old.commands run.old.next ≡ Some command.now }
    ensures here { IsIn run.new.token heap.now }
    ensures answer { TrialAnswers heap.now run.old run.new command.now result }
    ensures poll { command.now ≡ Poll → run.new.token.view ≡ with_front run.old.token.view run.new.token.view.seen.front }
{
    let served = is_served(run);
    let collected = run.collected;
    match try_command(heap, &mut run.domain, command, served, collected) {
        Attempt::Made(reply) => {
            run.replies.push_reserved(reply);
            run.next += 1;
            run.asked = None;
            run.collected = false;
            run.due = 0;
            None
        }
        Attempt::Needs(want) => Some(want),
        Attempt::NoRoom => Some(Want::Full),
    }
}

// Ends the trace of a run that has no command left, and gets none.
fn end_trace(heap: &Heap, run: &mut DomainRun)
    requires here { IsIn run.old.token heap.now }
    requires shut { run.old.supply ≢ Supply.Open }
    requires running { run.old.ended ≡ false }
    requires left { run.old.left ≡ None }
    requires unqueued { IsUnqueued run.old.token }
    requires whole { length run.old.commands ≤ run.old.next }
    requires told { IsTold run.old.place }
    ensures here { IsIn run.new.token heap.now }
    ensures ends { EndsTrace heap.now run.old.token run.old run.new }
{
    end(heap, &mut run.domain);
    run.ended = true;
    run.collected = false;
}

// The want word.
#[inline(always)]
pub(crate) fn find_wants(heap: &Heap, run: &mut DomainRun) -> u64
    requires here { IsIn run.old.token heap.now }
    requires left { run.old.left ≡ None }
    ensures here { IsIn run.new.token heap.now }
    ensures run { run.new ≡ record run.old { token = noted_token run.old.token (note.Want result) } }
    ensures shows { ShowsRegisters heap.now.config run.new.token.view }
{
    wants(heap, &mut run.domain).bits
}

// A running domain arrives.
fn stop(heap: &Heap, run: &mut DomainRun)
    requires here { IsIn run.old.token heap.now }
    requires left { run.old.left ≡ None }
    requires few { run.old.token.view.own.arrivals < 2 ^ 60 }
    ensures here { IsIn run.new.token heap.now }
    ensures run { run.new ≡ record run.old { token = record run.old.token { view = arrived_view run.old.token.view }; left = Some Run; collected = false } }
{
    arrive(heap, &mut run.domain);
    run.left = Some(Kind::Run);
    run.collected = false;
}

// Asks for a pause.
pub(crate) fn wish(heap: &Heap, run: &mut DomainRun, want: Want)
    requires here { IsIn run.old.token heap.now }
    requires left { run.old.left ≡ None }
    requires going { run.old.place ≢ Place.Before }
    ensures here { IsIn run.new.token heap.now }
    ensures run { run.new ≡ record run.old { token = noted_token run.old.token (note.Asked (bit_of want)); asked = Some run.old.token.view.own.arrivals } }
{
    ask(heap, &mut run.domain, want);
    run.asked = Some(run.domain.arrivals());
}

// How many blocks a domain scans in a poll, or how many places it sweeps.
const SLICE: u32 = 256;

// Works for the collector beside the other domains: marks blocks, where a collection goes on beside
// running domains, and sweeps own pools else. Answers whether it marked, and found no hint of a block
// more that is to be scanned.
fn work_beside(heap: &Heap, run: &mut DomainRun) -> bool
    requires here { IsIn run.old.token heap.now }
    requires left { run.old.left ≡ None }
    ensures here { IsIn run.new.token heap.now }
    ensures works { WorksBeside heap.now run.old run.new result }
{
    if armed_now(heap, &mut run.domain) {
        let scanned = slice(heap, &mut run.domain, &mut run.hints, SLICE);
        return scanned.why == Why::NoneFound;
    }
    sweep_slice(heap, &mut run.domain, SLICE);
    false
}

// Asks for the end of the collection that goes on beside running domains.
fn ask_end(heap: &Heap, run: &mut DomainRun)
    requires here { IsIn run.old.token heap.now }
    requires left { run.old.left ≡ None }
    ensures here { IsIn run.new.token heap.now }
    ensures run { run.new ≡ record run.old { token = noted_token run.old.token (note.Asked (bit_of Finish)) } }
{
    ask(heap, &mut run.domain, Want::Finish);
}

// The turn of a run whose next command is a poll, where no pause is wanted.
fn poll(heap: &Heap, run: &mut DomainRun, command: &Command)
    requires here { IsIn run.old.token heap.now }
    requires running { run.old.ended ≡ false }
    requires left { run.old.left ≡ None }
    requires unqueued { IsUnqueued run.old.token }
    requires next { slice_get run.old.commands run.old.next ≡ Some command.now }
    requires going { run.old.place ≢ Place.Before }
    requires is { command.now ≡ Poll }
    ensures here { IsIn run.new.token heap.now }
    ensures polls { Polls heap.now run.old run.new }
{
    let spent = work_beside(heap, run);
    match try_next(heap, run, command) {
        None if spent => ask_end(heap, run),
        None => (),
        Some(_) => unreachable!(),
    }
}

// The turn of a run whose next command is this one, where no pause is wanted.
#[inline(always)]
fn attempt(heap: &Heap, run: &mut DomainRun, command: &Command)
    requires here { IsIn run.old.token heap.now }
    requires running { run.old.ended ≡ false }
    requires left { run.old.left ≡ None }
    requires unqueued { IsUnqueued run.old.token }
    requires going { run.old.place ≢ Place.Before }
    requires ordinary { IsOrdinary command.now }
    requires next { slice_get run.old.commands run.old.next ≡ Some command.now }
    ensures here { IsIn run.new.token heap.now }
    ensures did { CalmDid heap.now run.old run.new }
{
    match command {
        Command::Poll => poll(heap, run, command),
        _ => {
            if let Some(want) = try_next(heap, run, command) {
                wish(heap, run, want);
            }
        }
    }
}

// The turn of a run whose trace has ended, where no pause is wanted.
fn rest(heap: &Heap, run: &mut DomainRun) -> Turned
    requires here { IsIn run.old.token heap.now }
    requires left { run.old.left ≡ None }
    requires over { run.old.ended ≡ true }
    ensures here { IsIn run.new.token heap.now }
    ensures answer { RestAnswers heap.now run.old run.new result }
{
    let ended = ended_load(heap, &mut run.domain);
    if ended < u64::from(heap.config().domains) {
        Turned::Idle { ended }
    } else {
        Turned::Ended
    }
}

// The turn of a run that has no command left, where no pause is wanted: its trace ends, unless more
// commands may come, or it has the end of its section to tell.
fn run_out(heap: &Heap, run: &mut DomainRun) -> Turned
    requires here { IsIn run.old.token heap.now }
    requires running { run.old.ended ≡ false }
    requires left { run.old.left ≡ None }
    requires unqueued { IsUnqueued run.old.token }
    requires going { run.old.place ≢ Place.Before }
    requires whole { length run.old.commands ≤ run.old.next }
    ensures here { IsIn run.new.token heap.now }
    ensures answer { CalmAnswers heap.now run.old run.new result }
{
    if run.supply == Supply::Open {
        return Turned::Hungry;
    }
    if run.place == Place::Within {
        tell_end(heap, run);
        return Turned::Did;
    }
    end_trace(heap, run);
    Turned::Did
}

// The turn of a run whose next command is this one, where no pause is wanted: the commands of sections
// have turns of their own.
#[inline(always)]
fn take_command(heap: &Heap, run: &mut DomainRun, command: &Command) -> Turned
    requires here { IsIn run.old.token heap.now }
    requires running { run.old.ended ≡ false }
    requires left { run.old.left ≡ None }
    requires unqueued { IsUnqueued run.old.token }
    requires going { run.old.place ≢ Place.Before }
    requires next { slice_get run.old.commands run.old.next ≡ Some command.now }
    requires shows { run.old.supply ≡ Supply.Section → ShowsRegisters heap.now.config run.old.token.view }
    ensures here { IsIn run.new.token heap.now }
    ensures answer { CalmAnswers heap.now run.old run.new result }
{
    match *command {
        Command::Join { dst, section } => join(heap, run, dst, section),
        Command::Spawn { .. } | Command::Argument { .. } | Command::PutResult { .. } => {
            make_command(heap, run, command);
            Turned::Did
        }
        _ => {
            attempt(heap, run, command);
            Turned::Did
        }
    }
}

// The turn of a run whose trace hasn't ended, where no pause is wanted. The finalisers that wait come
// before its next command, and before the end of its trace.
#[inline(always)]
fn step_on(heap: &Heap, run: &mut DomainRun) -> Turned
    requires here { IsIn run.old.token heap.now }
    requires running { run.old.ended ≡ false }
    requires left { run.old.left ≡ None }
    requires shows { run.old.supply ≡ Supply.Section → ShowsRegisters heap.now.config run.old.token.view }
    ensures here { IsIn run.new.token heap.now }
    ensures answer { CalmAnswers heap.now run.old run.new result }
{
    if runs_finaliser(heap, run) {
        return Turned::Did;
    }
    if run.place == Place::Before {
        return see_start(heap, run);
    }
    match run.commands.get(run.next).copied() {
        Some(command) => take_command(heap, run, &command),
        None => run_out(heap, run),
    }
}

/// The turn of a running domain whatever the want word is: it runs a finaliser, tries its next command,
/// asks for a pause, or ends its trace. It doesn't arrive, and never waits. Of what a turn answers it
/// answers neither `Waiting` nor that a pause was found wanted. The domain of a section knows, by a look at
/// the want word, that its registers hold what they hold in the state after what it has seen.
#[inline(always)]
pub fn go_on(heap: &Heap, run: &mut DomainRun) -> Turned
    requires here { IsIn run.old.token heap.now }
    requires left { run.old.left ≡ None }
    requires shows { run.old.supply ≡ Supply.Section → ShowsRegisters heap.now.config run.old.token.view }
    ensures here { IsIn run.new.token heap.now }
    ensures answer { CalmAnswers heap.now run.old run.new result }
    ensures over { run.old.ended ≡ true → StaysOver run.old run.new }
{
    if run.ended {
        return rest(heap, run);
    }
    step_on(heap, run)
}

// The turn of a running domain.
#[inline(always)]
fn turn_running(heap: &Heap, run: &mut DomainRun) -> Turned
    requires here { IsIn run.old.token heap.now }
    requires left { run.old.left ≡ None }
    requires few { run.old.token.view.own.arrivals < 2 ^ 60 }
    ensures here { IsIn run.new.token heap.now }
    ensures answer { RunAnswers heap.now run.old run.new result }
    ensures over { run.old.ended ≡ true → StaysOver run.old run.new }
{
    if find_wants(heap, run) != 0 {
        stop(heap, run);
        return Turned::Did;
    }
    go_on(heap, run)
}

// Whether the next command is a `full_major` for which the domain has asked for a pause, which is
// answered where a complete collection is, and the domain owes no finaliser before it.
pub(crate) fn waits_for_answer(run: &DomainRun) -> bool
    ensures yes { result ≡ true → WaitsForAnswer run.now }
    ensures no { result ≡ false → WaitsForAnswer run.now → ⊥ }
{
    run.due == 0
        && run.asked.is_some()
        && matches!(run.commands.get(run.next), Some(Command::FullMajor))
}

// Whether so many blocks may use up the pools: where each has one to itself, no more are free than the
// reserve of promotion.
fn may_use_up(heap: &Heap, blocks: u64) -> bool
    ensures { result ≡ may_use_up heap.now.config blocks }
{
    let config = heap.config();
    u64::from(config.pools - reserve(config.domains, config.minor_words)) <= blocks
}

// Whether a complete collection that left so many blocks lets an allocation be answered `full` that is
// refused behind it: they may use up the pools, or no other domain is there that may have used up what it
// freed.
fn lets_refuse(heap: &Heap, blocks: u64) -> bool
    ensures { result ≡ lets_refuse heap.now.config blocks }
{
    heap.config().domains == 1 || may_use_up(heap, blocks)
}

// Whether it lets the next command be answered `full`. `asked` says whether the domain had asked for a
// pause for it, and when.
fn counts_for(heap: &Heap, asked: Option<u64>, blocks: u64) -> bool
    ensures { result ≡ (is_asked asked && lets_refuse heap.now.config blocks) }
{
    asked.is_some() && lets_refuse(heap, blocks)
}

// What a run keeps of its commands where a collection was answered, and `queued` finalisers wait in its
// domain's queue.
pub(crate) fn keep_answer(
    heap: &Heap,
    past: &LookOutcome,
    queued: usize,
    next: &mut usize,
    replies: &mut Vec<Reply>,
    asked: &mut Option<u64>,
    collected: &mut bool,
    due: &mut usize,
)
    requires few { next.old ≤ 200000 }
    requires room { (blocks : ℕ) (reply : says.Reply) → past.now ≡ Answered blocks (Some reply) → vec_len replies.old < vec_capacity replies.old }
    ensures next { next.new ≡ next_after past.now next.old }
    ensures replies { replies.new.items ≡ replies_after past.now replies.old.items }
    ensures asked { asked.new ≡ asked_after past.now asked.old }
    ensures collected { collected.new ≡ collected_after heap.now.config past.now asked.old collected.old }
    ensures due { due.new ≡ due_after past.now queued due.old }
    ensures capacity { vec_capacity replies.new ≡ vec_capacity replies.old }
{
    match *past {
        LookOutcome::Answered {
            blocks: _,
            reply: Some(reply),
        } => {
            replies.push_reserved(reply);
            *next += 1;
            *asked = None;
            *collected = false;
            *due = queued;
        }
        LookOutcome::Answered {
            blocks,
            reply: None,
        } => *collected = counts_for(heap, *asked, blocks),
        LookOutcome::Waits(_) | LookOutcome::Arrived(_) | LookOutcome::Runs => (),
    }
}

// What a domain that has arrived does with the phase that has begun, if one has.
#[inline(never)]
fn pass_by(heap: &Heap, run: &mut DomainRun, last: Kind, decider: Decider) -> LookOutcome
    requires here { IsIn run.old.token heap.now }
    requires left { run.old.left ≡ Some last }
    requires few { run.old.token.view.own.arrivals < 2 ^ 60 }
    ensures here { IsIn run.new.token heap.now }
    ensures answer { PastAnswers heap.now decider run.old run.new result }
{
    let live = waits_for_answer(run);
    let found = look(heap, &mut run.domain);
    let past = pass(
        heap,
        &mut run.domain,
        last,
        decider,
        &mut run.progress,
        live,
        &mut run.hints,
        found,
    );
    run.left = left_after(&past, last);
    keep_answer(
        heap,
        &past,
        run.domain.queued(),
        &mut run.next,
        &mut run.replies,
        &mut run.asked,
        &mut run.collected,
        &mut run.due,
    );
    past
}

/// Takes a domain that has arrived one step further: does its share of the phase that has begun, and
/// arrives. Where the domains run again it does no more than come back. It never waits. Domain 0 finds
/// which kind of phase comes next as the decider says.
pub fn pass_on(heap: &Heap, run: &mut DomainRun, decider: Decider) -> Turned
    requires here { IsIn run.old.token heap.now }
    requires arrived { run.old.left ≢ None }
    requires few { run.old.token.view.own.arrivals < 2 ^ 60 }
    ensures here { IsIn run.new.token heap.now }
    ensures answer { PassesOn heap.now decider run.old run.new result }
    ensures goes_on { GoesOn run.old run.new }
{
    run.shows_faithful();
    let Some(last) = run.left else { unreachable!() };
    match pass_by(heap, run, last, decider) {
        LookOutcome::Waits(b) => Turned::Waiting(b),
        _ => Turned::Did,
    }
}

impl DomainRun {
    /// A running domain arrives, whether a pause is wanted or not. Its trace may have ended.
    pub fn halt(&mut self, heap: &Heap)
        requires here { IsIn self.old.token heap.now }
        requires running { self.old.left ≡ None }
        requires few { self.old.token.view.own.arrivals < 2 ^ 60 }
        ensures here { IsIn self.new.token heap.now }
        ensures run { self.new ≡ halted self.old }
    {
        stop(heap, self);
    }

    /// Looks at the queue of a running domain: as many finalisers wait there as in the state after what the
    /// domain has seen of the history. Nothing changes.
    pub fn look_at_queue(&mut self, heap: &Heap)
        requires here { IsIn self.old.token heap.now }
        requires running { self.old.left ≡ None }
        ensures same { self.new ≡ self.old }
        ensures queue { KnowsQueue heap.now.config self.old.token }
    {
        queue_load(heap, &mut self.domain);
    }

    /// Forgets that a complete collection lets the next command be answered `full`: before it is, another
    /// one must come.
    pub fn forget_collected(&mut self)
        ensures { self.new ≡ record self.old { collected = false } }
    {
        self.collected = false;
    }

    /// Asks for a complete collection, for no command of the domain, which runs. Its trace may have ended.
    pub fn ask_full(&mut self, heap: &Heap)
        requires here { IsIn self.old.token heap.now }
        requires running { self.old.left ≡ None }
        ensures here { IsIn self.new.token heap.now }
        ensures run { self.new ≡ record self.old { token = noted_token self.old.token (note.Asked (bit_of Full)) } }
    {
        ask(heap, &mut self.domain, Want::Full);
    }
}

// The turn of a domain.
#[inline(always)]
fn turn_on(heap: &Heap, run: &mut DomainRun) -> Turned
    requires here { IsIn run.old.token heap.now }
    requires few { run.old.token.view.own.arrivals < 2 ^ 60 }
    ensures here { IsIn run.new.token heap.now }
    ensures answer { TurnAnswers heap.now run.old run.new result }
    ensures goes_on { GoesOn run.old run.new }
    ensures ended { EndsWith result run.new }
{
    run.shows_faithful();
    let Some(last) = run.left else {
        return turn_running(heap, run);
    };
    match pass_by(heap, run, last, Decider::Wishes) {
        LookOutcome::Waits(b) => Turned::Waiting(b),
        LookOutcome::Arrived(_) | LookOutcome::Answered { .. } => Turned::Did,
        LookOutcome::Runs => turn_running(heap, run),
    }
}

/// Takes a domain one step further: runs a finaliser, tries its next command, does its share of the phase
/// that has begun, arrives, asks for a pause, or ends its trace. It arrives at most once, and never waits.
///
/// A finaliser that waits in the domain's queue runs before the next command, and before the trace ends;
/// of several the one that has waited longest is first.
///
/// It asks for a collection of young blocks exactly where the next command is `minor` and no pause has
/// served it, where it allocates a young block for which the minor area has no room, or where it stores
/// and no more word can be remembered; for one of the major heap where it is `major` and no pause has
/// served it; and for a complete one where it is `full_major`, or where it is an allocation that is
/// refused in this turn. One for a young block is refused exactly where fewer pools are free than
/// promotion may need, and one for the major heap exactly where no pool is to be had and no own pool is
/// left to be swept. It is answered
/// `full` instead where a complete collection has come since it was first tried, no pause after that, and
/// that collection left so many blocks that they may use up the pools.
///
/// Before a `poll`, where a collection goes on beside running domains, the domain marks: it scans 256
/// blocks, or looks at 8192 that it has noted, or finds that it has noted none more, and then it asks for
/// the end of the collection. Where none goes on it sweeps: it looks at 256 places of its own pools and
/// frees the garbage there, or no own pool is left to be swept. From one collection to the next it looks
/// at each place once.
///
/// A run of a section that a spawn begins looks first, once in a turn, whether it is begun, and a join
/// looks so whether the section that it waits for has told its end: while it isn't so the turn answers
/// `Held`. A spawn, an argument and a result are one turn with all their steps, and so is a join with its
/// last look. Before a spawn it asks for a pause where it can't remember two words more, and before a
/// result and before it tells its end where it can't remember one. Its end is told by a turn of its own.
///
/// Of an open run the trace doesn't end: where all commands that were handed in are done the turn answers
/// `Hungry`, and changes nothing.
///
/// A `full_major` is answered in the pause, as the collection is, if the domain has asked for one for it,
/// and after all finalisers that waited when the domain's last `full_major` was answered. A domain that runs again after a pause
/// has an empty minor area, remembers no field, and holds no address of a minor area.
#[inline(always)]
pub fn turn(heap: &Heap, run: &mut DomainRun) -> Turned
    requires here { IsIn run.old.token heap.now }
    requires few { run.old.token.view.own.arrivals < 2 ^ 60 }
    ensures here { IsIn run.new.token heap.now }
    ensures answer { TurnAnswers heap.now run.old run.new result }
    ensures exact { (other : turned.Turned) → TurnAnswers heap.now run.old run.new other → other ≡ result }
    ensures goes_on { GoesOn run.old run.new }
    ensures stretch { Stretches (sizes_in heap.now.config) run.old run.new }
    ensures ended { EndsWith result run.new }
{
    turn_on(heap, run)
}
