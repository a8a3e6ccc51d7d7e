//! A call of its own for each of the commands that a program makes most. `DONE` and the reply where the command is made at
//! once; `AGAIN` where a pause is wanted or must come first: then it is handed in, and [`camlheap_run`] goes on; and else
//! why it isn't taken, and then nothing has changed.
//!
//! [`camlheap_run`]: crate::driving::camlheap_run
ghost use Rattle.std.specs.Prelude.{◌≡◌, ◌≢◌, ◌<◌, ◌≤◌, Some};
ghost use Rattle.model_core.specs.declared.command.Command.TheVariants as model;
ghost use Rattle.camlheap_c.specs.Exported.{Begins, CallsDirectly, RefusesAs};

use crate::codes::{AGAIN, DONE, NO_DOMAIN, refusal_code};
use crate::crossing::{CamlheapReply, reply_of};
use crate::handle::CamlheapDomain;
use model_core::command::Command;
use run_seats::shared::SharedRun;
use std::alloc::Global;

// Makes a command at once, where that can be, and else hands it in.
#[inline(always)]
fn begin_on(run: &mut SharedRun, command: Command, reply: &mut CamlheapReply) -> u32
    ensures begun { result < 17 → Begins run.old run.new command reply.old reply.new result }
    ensures why { 17 ≤ result → RefusesAs run.old (Some command) result }
    ensures same { 17 ≤ result → (run.new ≡ run.old) × (reply.new ≡ reply.old) }
    ensures told { result ≢ 16 }
    ensures few { result < 17 → result < 2 }
{
    match run.begin(command) {
        Ok(Some(answer)) => {
            *reply = reply_of(answer);
            DONE
        }
        Ok(None) => AGAIN,
        Err(refused) => refusal_code(refused),
    }
}

// Makes a command of the domain in a handle so.
#[inline(always)]
fn call(handle: &mut CamlheapDomain, command: Command, reply: &mut CamlheapReply) -> u32
    ensures { CallsDirectly handle.old handle.new command reply.old reply.new result }
{
    if handle.is_full() {
        begin_on(handle.lend(), command, reply)
    } else {
        NO_DOMAIN
    }
}

/// An integer into a register: its reply is always `ok`.
#[unsafe(no_mangle)]
pub extern "C" fn camlheap_put_int(
    _alloc: Global,
    handle: &mut CamlheapDomain,
    dst: u8,
    value: i64,
    reply: &mut CamlheapReply,
) -> u32
    ensures { CallsDirectly handle.old handle.new (model.PutInt dst value) reply.old reply.new result }
{
    call(handle, Command::PutInt { dst, value }, reply)
}

/// What a register holds into another.
#[unsafe(no_mangle)]
pub extern "C" fn camlheap_copy(
    _alloc: Global,
    handle: &mut CamlheapDomain,
    dst: u8,
    src: u8,
    reply: &mut CamlheapReply,
) -> u32
    ensures { CallsDirectly handle.old handle.new (model.Copy dst src) reply.old reply.new result }
{
    call(handle, Command::Copy { dst, src }, reply)
}

/// A register holds nothing any more.
#[unsafe(no_mangle)]
pub extern "C" fn camlheap_forget(
    _alloc: Global,
    handle: &mut CamlheapDomain,
    dst: u8,
    reply: &mut CamlheapReply,
) -> u32
    ensures { CallsDirectly handle.old handle.new (model.Forget dst) reply.old reply.new result }
{
    call(handle, Command::Forget { dst }, reply)
}

/// A new young block.
#[unsafe(no_mangle)]
pub extern "C" fn camlheap_alloc(
    _alloc: Global,
    handle: &mut CamlheapDomain,
    dst: u8,
    tag: u8,
    fields: u16,
    reply: &mut CamlheapReply,
) -> u32
    ensures { CallsDirectly handle.old handle.new (model.Alloc dst tag fields) reply.old reply.new result }
{
    call(handle, Command::Alloc { dst, tag, fields }, reply)
}

/// A field of a block into a register.
#[unsafe(no_mangle)]
pub extern "C" fn camlheap_load(
    _alloc: Global,
    handle: &mut CamlheapDomain,
    dst: u8,
    src: u8,
    index: u16,
    reply: &mut CamlheapReply,
) -> u32
    ensures { CallsDirectly handle.old handle.new (model.Load dst src index) reply.old reply.new result }
{
    call(handle, Command::Load { dst, src, index }, reply)
}

/// What a register holds into a field of a block.
#[unsafe(no_mangle)]
pub extern "C" fn camlheap_store(
    _alloc: Global,
    handle: &mut CamlheapDomain,
    block: u8,
    index: u16,
    item: u8,
    reply: &mut CamlheapReply,
) -> u32
    ensures { CallsDirectly handle.old handle.new (model.Store block index item) reply.old reply.new result }
{
    call(handle, Command::Store { block, index, item }, reply)
}

/// What a register holds into a field of a block, where that holds what another register holds.
#[unsafe(no_mangle)]
pub extern "C" fn camlheap_cas(
    _alloc: Global,
    handle: &mut CamlheapDomain,
    block: u8,
    index: u16,
    expected: u8,
    item: u8,
    reply: &mut CamlheapReply,
) -> u32
    ensures { CallsDirectly handle.old handle.new (model.Cas block index expected item) reply.old reply.new result }
{
    call(
        handle,
        Command::Cas {
            block,
            index,
            expected,
            item,
        },
        reply,
    )
}

/// A block into a key of an ephemeron.
#[unsafe(no_mangle)]
pub extern "C" fn camlheap_set_key(
    _alloc: Global,
    handle: &mut CamlheapDomain,
    ephe: u8,
    index: u16,
    item: u8,
    reply: &mut CamlheapReply,
) -> u32
    ensures { CallsDirectly handle.old handle.new (model.SetKey ephe index item) reply.old reply.new result }
{
    call(handle, Command::SetKey { ephe, index, item }, reply)
}

/// A key of an ephemeron into a register.
#[unsafe(no_mangle)]
pub extern "C" fn camlheap_get_key(
    _alloc: Global,
    handle: &mut CamlheapDomain,
    dst: u8,
    ephe: u8,
    index: u16,
    reply: &mut CamlheapReply,
) -> u32
    ensures { CallsDirectly handle.old handle.new (model.GetKey dst ephe index) reply.old reply.new result }
{
    call(handle, Command::GetKey { dst, ephe, index }, reply)
}

/// Whether a key of an ephemeron is full.
#[unsafe(no_mangle)]
pub extern "C" fn camlheap_check_key(
    _alloc: Global,
    handle: &mut CamlheapDomain,
    ephe: u8,
    index: u16,
    reply: &mut CamlheapReply,
) -> u32
    ensures { CallsDirectly handle.old handle.new (model.CheckKey ephe index) reply.old reply.new result }
{
    call(handle, Command::CheckKey { ephe, index }, reply)
}

/// What a register holds into the data of an ephemeron.
#[unsafe(no_mangle)]
pub extern "C" fn camlheap_set_data(
    _alloc: Global,
    handle: &mut CamlheapDomain,
    ephe: u8,
    item: u8,
    reply: &mut CamlheapReply,
) -> u32
    ensures { CallsDirectly handle.old handle.new (model.SetData ephe item) reply.old reply.new result }
{
    call(handle, Command::SetData { ephe, item }, reply)
}

/// The data of an ephemeron into a register.
#[unsafe(no_mangle)]
pub extern "C" fn camlheap_get_data(
    _alloc: Global,
    handle: &mut CamlheapDomain,
    dst: u8,
    ephe: u8,
    reply: &mut CamlheapReply,
) -> u32
    ensures { CallsDirectly handle.old handle.new (model.GetData dst ephe) reply.old reply.new result }
{
    call(handle, Command::GetData { dst, ephe }, reply)
}

/// A step of the collector's.
#[unsafe(no_mangle)]
pub extern "C" fn camlheap_poll(
    _alloc: Global,
    handle: &mut CamlheapDomain,
    reply: &mut CamlheapReply,
) -> u32
    ensures { CallsDirectly handle.old handle.new (model.Poll) reply.old reply.new result }
{
    call(handle, Command::Poll, reply)
}
