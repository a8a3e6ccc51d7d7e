//! What a domain tells, as C asks it.
ghost use Rattle.std.specs.Prelude.{◌≡◌, ◌≢◌, ◌↔◌, true, false};
ghost use Rattle.run_seats.specs.Shared.Sharing.{MayClose, closed_of, taken_of};
ghost use Rattle.run_turns.specs.Singly.Counting.{stats_of};
ghost use Rattle.camlheap_c.specs.Exported.{RefusesClose, ShowsRegister, Tells, TellsRan};
ghost use Rattle.camlheap_c.specs.Forms.{stats_form};

use crate::codes::{AGAIN, DONE, NO_DOMAIN, NO_MORE, NO_REGISTER, refusal_code};
use crate::crossing::{CamlheapReply, CamlheapStats, reply_of, stats_as_c};
use crate::handle::CamlheapDomain;
use std::alloc::Global;

/// The reply to the command that was handed in last, once it is made, and else `AGAIN`.
#[unsafe(no_mangle)]
pub extern "C" fn camlheap_answer(
    _alloc: Global,
    handle: &mut CamlheapDomain,
    reply: &mut CamlheapReply,
) -> u32
    ensures kept { handle.new.full ≡ handle.old.full }
    ensures none { (handle.old.full ≡ false) ↔ (result ≡ 16) }
    ensures same { handle.old.full ≡ true → handle.new.value ≡ handle.old.value }
    ensures tells { handle.old.full ≡ true → Tells handle.old.value reply.old reply.new result }
    ensures unread { handle.old.full ≡ false → reply.new ≡ reply.old }
{
    if !handle.is_full() {
        return NO_DOMAIN;
    }
    let run = handle.lend();
    let answer = run.answer();
    match answer {
        Some(answer) => {
            *reply = reply_of(answer);
            DONE
        }
        None => AGAIN,
    }
}

/// What a register holds, as a reply. `NO_REGISTER` where there is no such register.
#[unsafe(no_mangle)]
pub extern "C" fn camlheap_show(
    _alloc: Global,
    handle: &mut CamlheapDomain,
    register: u8,
    reply: &mut CamlheapReply,
) -> u32
    ensures { ShowsRegister handle.old handle.new register reply.old reply.new result }
{
    if !handle.is_full() {
        return NO_DOMAIN;
    }
    let run = handle.lend();
    let shown = run.show(register);
    match shown {
        Some(answer) => {
            *reply = reply_of(answer);
            DONE
        }
        None => NO_REGISTER,
    }
}

/// No command comes any more for a domain: its trace ends in later turns, behind the finalisers that wait. `DONE`, or why
/// it can't be closed; then nothing has changed.
#[unsafe(no_mangle)]
pub extern "C" fn camlheap_close(_alloc: Global, handle: &mut CamlheapDomain) -> u32
    ensures kept { handle.new.full ≡ handle.old.full }
    ensures none { (handle.old.full ≡ false) ↔ (result ≡ 16) }
    ensures closed { handle.old.full ≡ true → result ≡ 0 → handle.new.value ≡ closed_of handle.old.value }
    ensures may { handle.old.full ≡ true → result ≡ 0 → MayClose handle.old.value }
    ensures why { handle.old.full ≡ true → result ≢ 0 → RefusesClose handle.old.value result }
    ensures refused { handle.old.full ≡ true → result ≢ 0 → handle.new.value ≡ handle.old.value }
{
    if !handle.is_full() {
        return NO_DOMAIN;
    }
    let run = handle.lend();
    let closed = run.close();
    match closed {
        Ok(()) => DONE,
        Err(refused) => refusal_code(refused),
    }
}

/// The reply of one of the finalisers of a domain that ran and weren't taken yet, by its place among them, counted from 0, the
/// oldest first. `NO_MORE` where fewer wait. Nothing is taken.
#[unsafe(no_mangle)]
pub extern "C" fn camlheap_ran(
    _alloc: Global,
    handle: &mut CamlheapDomain,
    place: usize,
    reply: &mut CamlheapReply,
) -> u32
    ensures kept { handle.new.full ≡ handle.old.full }
    ensures none { (handle.old.full ≡ false) ↔ (result ≡ 16) }
    ensures same { handle.old.full ≡ true → handle.new.value ≡ handle.old.value }
    ensures tells { handle.old.full ≡ true → TellsRan handle.old.value place reply.old reply.new result }
    ensures unread { handle.old.full ≡ false → reply.new ≡ reply.old }
{
    if !handle.is_full() {
        return NO_DOMAIN;
    }
    let run = handle.lend();
    match run.ran(place) {
        Some(ran) => {
            *reply = reply_of(ran);
            DONE
        }
        None => NO_MORE,
    }
}

/// Takes the reply of the oldest of the finalisers of a domain that ran and weren't taken yet. `NO_MORE` where none waits. What
/// waits only this call takes, and it may be taken behind the end of the domain's trace too.
#[unsafe(no_mangle)]
pub extern "C" fn camlheap_take_ran(
    _alloc: Global,
    handle: &mut CamlheapDomain,
    reply: &mut CamlheapReply,
) -> u32
    ensures kept { handle.new.full ≡ handle.old.full }
    ensures none { (handle.old.full ≡ false) ↔ (result ≡ 16) }
    ensures tells { handle.old.full ≡ true → TellsRan handle.old.value 0 reply.old reply.new result }
    ensures taken { handle.old.full ≡ true → handle.new.value ≡ taken_of handle.old.value }
    ensures unread { handle.old.full ≡ false → reply.new ≡ reply.old }
{
    if !handle.is_full() {
        return NO_DOMAIN;
    }
    let run = handle.lend();
    match run.take_ran() {
        Some(ran) => {
            *reply = reply_of(ran);
            DONE
        }
        None => NO_MORE,
    }
}

/// What a domain counts. It costs no look at the heap.
#[unsafe(no_mangle)]
pub extern "C" fn camlheap_stats(
    _alloc: Global,
    handle: &mut CamlheapDomain,
    stats: &mut CamlheapStats,
) -> u32
    ensures kept { handle.new.full ≡ handle.old.full }
    ensures none { (handle.old.full ≡ false) ↔ (result ≡ 16) }
    ensures told { (result ≡ 0) ↔ (handle.old.full ≡ true) }
    ensures same { handle.old.full ≡ true → handle.new.value ≡ handle.old.value }
    ensures stats { handle.old.full ≡ true → stats.new ≡ stats_form (stats_of handle.old.value.run.token.view.own) }
    ensures unread { handle.old.full ≡ false → stats.new ≡ stats.old }
{
    if !handle.is_full() {
        return NO_DOMAIN;
    }
    let run = handle.lend();
    *stats = stats_as_c(run.stats());
    DONE
}
