//! Commands and turns, as C calls them.
ghost use Rattle.std.specs.Prelude.{◌≡◌, ◌≢◌, ◌↔◌, ◌<◌, ◌≤◌, true, false};
ghost use Rattle.run_turns.specs.declared.singly.turning.Came as far;
ghost use Rattle.run_turns.specs.Runs.{GoesOn, IsHandedIn};
ghost use Rattle.run_turns.specs.Singly.Turning.{CameTo};
ghost use Rattle.run_seats.specs.Shared.Idling.{StaysAlong};
ghost use Rattle.run_seats.specs.Shared.Sharing.{MayClose};
ghost use Rattle.camlheap_c.specs.Exported.{Adds, Calls, CallsAsked, HasEnded, RefusesAs, Submits, TakesSome, TakesTurn, TakesTurns, TellsCame, TellsLast};
ghost use Rattle.camlheap_c.specs.Forms.{came_form, command_as};

use crate::codes::{AGAIN, DONE, NO_DOMAIN, UNFIT, refusal_code, turn_code};
use crate::crossing::{CamlheapCommand, CamlheapReply, command_of, reply_of};
use crate::handle::CamlheapDomain;
use run_seats::shared::SharedRun;
use std::alloc::Global;

// Hands in a command.
fn submit_to(run: &mut SharedRun, command: &CamlheapCommand) -> u32
    ensures taken { result ≡ 0 → Submits run.old run.new command.now }
    ensures why { result ≢ 0 → RefusesAs run.old (command_as command.now) result }
    ensures refused { result ≢ 0 → run.new ≡ run.old }
    ensures told { result ≢ 16 }
{
    let Some(command) = command_of(command) else {
        return UNFIT;
    };
    match run.submit(command) {
        Ok(()) => DONE,
        Err(refused) => refusal_code(refused),
    }
}

/// Hands in the next command of a domain. `DONE` where it was taken, and else why not; then nothing has changed.
#[unsafe(no_mangle)]
pub extern "C" fn camlheap_submit(
    _alloc: Global,
    handle: &mut CamlheapDomain,
    command: &CamlheapCommand,
) -> u32
    ensures kept { handle.new.full ≡ handle.old.full }
    ensures none { (handle.old.full ≡ false) ↔ (result ≡ 16) }
    ensures taken { handle.old.full ≡ true → result ≡ 0 → Submits handle.old.value handle.new.value command.now }
    ensures why { handle.old.full ≡ true → result ≢ 0 → RefusesAs handle.old.value (command_as command.now) result }
    ensures refused { handle.old.full ≡ true → result ≢ 0 → handle.new.value ≡ handle.old.value }
{
    if !handle.is_full() {
        return NO_DOMAIN;
    }
    let run = handle.lend();
    submit_to(run, command)
}

/// One turn of a domain: `AGAIN` where it did something, `WAITING` where others are missing, `HUNGRY` where it has no
/// command to make, `ENDED` where the traces of all domains have ended.
#[unsafe(no_mangle)]
pub extern "C" fn camlheap_turn(_alloc: Global, handle: &mut CamlheapDomain) -> u32
    ensures kept { handle.new.full ≡ handle.old.full }
    ensures none { (handle.old.full ≡ false) ↔ (result ≡ 16) }
    ensures turn { handle.old.full ≡ true → TakesTurn handle.old.value handle.new.value }
    ensures came { handle.old.full ≡ true → TellsCame handle.old.value.heap handle.old.value.run handle.new.value.run result }
    ensures exact { handle.old.full ≡ true → (c : far.Came) → CameTo handle.old.value.heap handle.old.value.run handle.new.value.run c → result ≡ came_form c }
    ensures ended { handle.old.full ≡ true → result ≡ 4 → handle.new.value.run.ended ≡ true }
{
    if !handle.is_full() {
        return NO_DOMAIN;
    }
    let run = handle.lend();
    turn_code(run.turn())
}

// Turns of a domain until its command is made, or it can't go on by itself.
fn turns_of(run: &mut SharedRun, turns: u32, reply: &mut CamlheapReply) -> u32
    ensures goes_on { TakesTurns run.old run.new reply.old reply.new result }
    ensures heap { run.new.heap ≡ run.old.heap }
    ensures further { GoesOn run.old.run run.new.run }
    ensures idle { MayClose run.old → StaysAlong run.old run.new }
    ensures ended { result ≡ 4 → HasEnded run.new.run }
    ensures told { result < 5 }
    ensures last { result ≢ 0 → result ≢ 1 → TellsLast run.old run.new result }
    ensures ran { IsHandedIn run.old.run.supply → Adds run.old run.new }
{
    'turns: for _ in 0..turns {
        let (came, answer) = run.await_turn();
        if let Some(answer) = answer {
            *reply = reply_of(answer);
            return DONE;
        }
        let told = turn_code(came);
        if told != AGAIN {
            return told;
        }
    }
    AGAIN
}

/// At most so many turns of a domain. `DONE` and the reply once the command that was handed in last is made; `AGAIN` where
/// all turns were taken; and else what the last turn answered.
#[unsafe(no_mangle)]
pub extern "C" fn camlheap_run(
    _alloc: Global,
    handle: &mut CamlheapDomain,
    turns: u32,
    reply: &mut CamlheapReply,
) -> u32
    ensures kept { handle.new.full ≡ handle.old.full }
    ensures none { (handle.old.full ≡ false) ↔ (result ≡ 16) }
    ensures some { handle.old.full ≡ true → TakesSome handle.old.value handle.new.value reply.old reply.new result }
    ensures unread { handle.old.full ≡ false → reply.new ≡ reply.old }
{
    if !handle.is_full() {
        return NO_DOMAIN;
    }
    let run = handle.lend();
    turns_of(run, turns, reply)
}

// Makes a command at once, where that can be, and else hands it in and takes turns.
fn call_on(
    run: &mut SharedRun,
    command: &CamlheapCommand,
    turns: u32,
    reply: &mut CamlheapReply,
) -> u32
    ensures called { result < 17 → Calls run.old run.new command.now reply.old reply.new result }
    ensures why { 17 ≤ result → RefusesAs run.old (command_as command.now) result }
    ensures refused { 17 ≤ result → (run.new ≡ run.old) × (reply.new ≡ reply.old) }
    ensures told { result ≢ 16 }
    ensures few { result < 17 → result < 5 }
    ensures lasts { result ≢ 4 }
{
    let Some(command) = command_of(command) else {
        return UNFIT;
    };
    match run.begin(command) {
        Ok(Some(answer)) => {
            *reply = reply_of(answer);
            DONE
        }
        Ok(None) => turns_of(run, turns, reply),
        Err(refused) => refusal_code(refused),
    }
}

/// Makes a command of a domain: what [`camlheap_submit`] and then [`camlheap_run`] do, and at once where no pause is wanted
/// and none must come first. `DONE` and the reply where it is made; why it isn't taken, and then nothing has changed; and
/// else what the last turn answered: then it is handed in, and [`camlheap_run`] goes on.
#[unsafe(no_mangle)]
pub extern "C" fn camlheap_call(
    _alloc: Global,
    handle: &mut CamlheapDomain,
    command: &CamlheapCommand,
    turns: u32,
    reply: &mut CamlheapReply,
) -> u32
    ensures { CallsAsked handle.old handle.new command.now reply.old reply.new result }
{
    if !handle.is_full() {
        return NO_DOMAIN;
    }
    let run = handle.lend();
    call_on(run, command, turns, reply)
}
