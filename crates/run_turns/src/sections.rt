//! The turns of a section of a script with spawns.
ghost use Rattle.std.specs.Prelude.{◌≡◌, ◌≢◌, ◌≤◌, ◌<◌, false, length, slice_get, Some, None};
ghost use Rattle.model_core.specs.declared.command.Command.TheVariants.{Join};
ghost use Rattle.heap_rule.specs.Running.{ChangesRegisters, Runs};
ghost use Rattle.heap_rule.specs.Standing.{ShowsRegisters};
ghost use Rattle.heap_rule.specs.Token.{IsIn};
ghost use Rattle.do_spawn.specs.Expanding.{ChangesWords, Expands};
ghost use Rattle.run_turns.specs.Runs.{CalmAnswers, CalmDid, IsUnqueued, TakeAnswers};
ghost use Rattle.run_turns.specs.Sections.{FitsSection, IsSingle, words_for};

use crate::place::Place;
use crate::run::DomainRun;
use crate::supply::Supply;
use crate::turned::Turned;
use crate::turns::wish;
use do_spawn::{argument, begin, begun, done, finish, put_result, take_result};
use gc_pause::stops::Want;
use heap_rule::{Domain, Heap};
use model_core::command::Command;
use model_core::reply::Reply;

// A look at the flag of the domain's own section, which isn't known to be begun.
pub(crate) fn see_start(heap: &Heap, run: &mut DomainRun) -> Turned
    requires here { IsIn run.old.token heap.now }
    requires running { run.old.ended ≡ false }
    requires left { run.old.left ≡ None }
    requires unqueued { IsUnqueued run.old.token }
    requires was { run.old.place ≡ Place.Before }
    ensures here { IsIn run.new.token heap.now }
    ensures answer { CalmAnswers heap.now run.old run.new result }
{
    let section = run.domain.number();
    let seen = begun(heap, &mut run.domain);
    run.collected = false;
    run.due = 0;
    if seen {
        run.place = Place::Within;
        Turned::Did
    } else {
        Turned::Held { section }
    }
}

// A look at the flag of a section that a join waits for, and where that has told its end its result.
fn take(heap: &Heap, dom: &mut Domain, dst: u8, section: u32) -> Option<Reply>
    requires runs { Runs heap.now dom.old }
    requires dst { dst < 14 }
    requires section { section < 8 }
    ensures taken { TakeAnswers heap.now dom.old dom.new dst section result }
    ensures rest { ChangesRegisters dom.old dom.new }
{
    if done(heap, dom, section) {
        Some(take_result(heap, dom, dst, section))
    } else {
        None
    }
}

// The turn of a run whose next command is a join.
pub(crate) fn join(heap: &Heap, run: &mut DomainRun, dst: u8, section: u32) -> Turned
    requires here { IsIn run.old.token heap.now }
    requires running { run.old.ended ≡ false }
    requires left { run.old.left ≡ None }
    requires unqueued { IsUnqueued run.old.token }
    requires going { run.old.place ≢ Place.Before }
    requires next { slice_get run.old.commands run.old.next ≡ Some (Join dst section) }
    ensures here { IsIn run.new.token heap.now }
    ensures answer { CalmAnswers heap.now run.old run.new result }
{
    let Some(reply) = take(heap, &mut run.domain, dst, section) else {
        run.collected = false;
        run.due = 0;
        return Turned::Held { section };
    };
    run.replies.push_reserved(reply);
    run.next += 1;
    run.asked = None;
    run.collected = false;
    run.due = 0;
    Turned::Did
}

// How many words a command of a section may have to remember.
fn words_for(command: &Command) -> usize
    ensures { result ≡ words_for command.now }
{
    match command {
        Command::Spawn { .. } => 2,
        Command::PutResult { .. } => 1,
        _ => 0,
    }
}

// Makes the steps of a command of a section, and answers the reply of the last.
fn expand(heap: &Heap, dom: &mut Domain, command: &Command) -> Reply
    requires runs { Runs heap.now dom.old }
    requires single { IsSingle command.now }
    requires fits { FitsSection command.now }
    requires room { words_for command.now ≤ dom.old.view.own.remembered.room }
    requires shows { ShowsRegisters heap.now.config dom.old.view }
    ensures expands { Expands heap.now dom.old dom.new command.now result }
    ensures rest { ChangesWords dom.old dom.new }
{
    match *command {
        Command::Spawn { section, item } => begin(heap, dom, section, item),
        Command::Argument { dst } => argument(heap, dom, dst),
        Command::PutResult { item } => put_result(heap, dom, item),
        _ => unreachable!(),
    }
}

// The turn of a run whose next command is a spawn, an argument or a result.
pub(crate) fn make_command(heap: &Heap, run: &mut DomainRun, command: &Command)
    requires here { IsIn run.old.token heap.now }
    requires running { run.old.ended ≡ false }
    requires left { run.old.left ≡ None }
    requires unqueued { IsUnqueued run.old.token }
    requires going { run.old.place ≢ Place.Before }
    requires single { IsSingle command.now }
    requires next { slice_get run.old.commands run.old.next ≡ Some command.now }
    requires shows { run.old.supply ≡ Supply.Section → ShowsRegisters heap.now.config run.old.token.view }
    ensures here { IsIn run.new.token heap.now }
    ensures did { CalmDid heap.now run.old run.new }
{
    if run.domain.remembered_room() < words_for(command) {
        wish(heap, run, Want::Minor);
        return;
    }
    let reply = expand(heap, &mut run.domain, command);
    run.replies.push_reserved(reply);
    run.next += 1;
    run.asked = None;
    run.collected = false;
    run.due = 0;
}

// The turn of a run that has made the commands of its section, and hasn't told its end.
pub(crate) fn tell_end(heap: &Heap, run: &mut DomainRun)
    requires here { IsIn run.old.token heap.now }
    requires running { run.old.ended ≡ false }
    requires left { run.old.left ≡ None }
    requires unqueued { IsUnqueued run.old.token }
    requires was { run.old.place ≡ Place.Within }
    requires whole { length run.old.commands ≤ run.old.next }
    ensures here { IsIn run.new.token heap.now }
    ensures did { CalmDid heap.now run.old run.new }
{
    if run.domain.remembered_room() == 0 {
        wish(heap, run, Want::Minor);
        return;
    }
    finish(heap, &mut run.domain);
    run.asked = None;
    run.collected = false;
    run.due = 0;
    run.place = Place::Behind;
}
