//! Weak maps. Each call answers `DONE` and the reply; `AGAIN` where a command of it was put off, since a pause is wanted or must
//! come first: then no binding has changed, and it may be asked anew behind a turn; and else why it isn't begun: `NO_DOMAIN`,
//! `CLOSED`, `BUSY`, `NO_REGISTER` for one that isn't below 8, `NO_LABEL`; a put
//! also `NO_EPHEMERON`. Then nothing has changed.
ghost use Rattle.std.specs.Prelude.{◌≡◌, ◌≢◌, ◌⊎◌, ◌<◌, ◌≤◌};
ghost use Rattle.camlheap_c.specs.Maps.{AreLow, labels_left, GetsFor, LacksLabel, LooksUp, MakesFor, MakesMap, MayCall, MayPut, PutsFor, PutsIn, RefusesMap, RefusesPut, TakesFor, TakesOut};

use crate::codes::{AGAIN, DONE, NO_DOMAIN, NO_EPHEMERON, NO_LABEL, NO_REGISTER, refusal_code};
use crate::crossing::{CamlheapReply, reply_of};
use crate::handle::CamlheapDomain;
use run_seats::shared::SharedRun;
use std::alloc::Global;
use weak_direct::getting::map_get;
use weak_direct::making::map_make;
use weak_direct::putting::map_put;
use weak_direct::taking::map_take;

// Looks a key up.
fn get_on(run: &mut SharedRun, dst: u8, map: u8, key: u8, reply: &mut CamlheapReply) -> u32
    ensures does { result < 17 → LooksUp run.old run.new dst map key reply.old reply.new result }
    ensures few { result < 17 → result < 2 }
    ensures may { result < 17 → MayCall run.old (AreLow dst map key) }
    ensures why { 17 ≤ result → RefusesMap run.old (AreLow dst map key) result }
    ensures same { 17 ≤ result → (run.new ≡ run.old) × (reply.new ≡ reply.old) }
    ensures told { result ≢ 16 }
{
    if let Err(refused) = run.may_close() {
        return refusal_code(refused);
    }
    if dst >= 8 || map >= 8 || key >= 8 {
        return NO_REGISTER;
    }
    match map_get(run, dst, map, key) {
        Some(answer) => {
            *reply = reply_of(answer);
            DONE
        }
        None => AGAIN,
    }
}

// Takes a binding out.
fn take_on(run: &mut SharedRun, map: u8, key: u8, reply: &mut CamlheapReply) -> u32
    ensures does { result < 17 → TakesOut run.old run.new map key reply.old reply.new result }
    ensures few { result < 17 → result < 2 }
    ensures may { result < 17 → MayCall run.old ((map < 8) × (key < 8)) }
    ensures why { 17 ≤ result → RefusesMap run.old ((map < 8) × (key < 8)) result }
    ensures same { 17 ≤ result → (run.new ≡ run.old) × (reply.new ≡ reply.old) }
    ensures told { result ≢ 16 }
{
    if let Err(refused) = run.may_close() {
        return refusal_code(refused);
    }
    if map >= 8 || key >= 8 {
        return NO_REGISTER;
    }
    match map_take(run, map, key) {
        Some(answer) => {
            *reply = reply_of(answer);
            DONE
        }
        None => AGAIN,
    }
}

// Binds a key.
fn put_on(run: &mut SharedRun, map: u8, key: u8, item: u8, reply: &mut CamlheapReply) -> u32
    ensures does { result < 17 → PutsIn run.old run.new map key item reply.old reply.new result }
    ensures few { result < 17 → result < 2 }
    ensures may { result < 17 → MayPut run.old map key item }
    ensures why { 17 ≤ result → RefusesPut run.old map key item result }
    ensures same { 17 ≤ result → (run.new ≡ run.old) × (reply.new ≡ reply.old) }
    ensures told { result ≢ 16 }
{
    if let Err(refused) = run.may_close() {
        return refusal_code(refused);
    }
    if map >= 8 || key >= 8 || item >= 8 {
        return NO_REGISTER;
    }
    if run.labels_left() < 2 {
        return NO_LABEL;
    }
    if run.ephes_room() < 1 {
        return NO_EPHEMERON;
    }
    match map_put(run, map, key, item) {
        Some(answer) => {
            *reply = reply_of(answer);
            DONE
        }
        None => AGAIN,
    }
}

// Makes a map.
fn make_on(run: &mut SharedRun, dst: u8, reply: &mut CamlheapReply) -> u32
    ensures does { result < 17 → MakesMap run.old run.new dst reply.old reply.new result }
    ensures few { result < 17 → result < 2 }
    ensures may { result < 17 → MayCall run.old (dst < 8) × (1 ≤ labels_left run.old) }
    ensures why { 17 ≤ result → RefusesMap run.old (dst < 8) result ⊎ LacksLabel run.old 1 result }
    ensures same { 17 ≤ result → (run.new ≡ run.old) × (reply.new ≡ reply.old) }
    ensures told { result ≢ 16 }
{
    if let Err(refused) = run.may_close() {
        return refusal_code(refused);
    }
    if dst >= 8 {
        return NO_REGISTER;
    }
    if run.labels_left() < 1 {
        return NO_LABEL;
    }
    match map_make(run, dst) {
        Some(answer) => {
            *reply = reply_of(answer);
            DONE
        }
        None => AGAIN,
    }
}

/// Makes a weak map in a register. It binds nothing. The reply is its block.
#[unsafe(no_mangle)]
pub extern "C" fn camlheap_map_make(
    _alloc: Global,
    handle: &mut CamlheapDomain,
    dst: u8,
    reply: &mut CamlheapReply,
) -> u32
    ensures { MakesFor handle.old handle.new dst reply.old reply.new result }
{
    if !handle.is_full() {
        return NO_DOMAIN;
    }
    let run = handle.lend();
    make_on(run, dst, reply)
}

/// Reads into a register what the map in another binds the key in a third to. The reply is the datum; `none` where the key
/// isn't bound, and then the register holds nothing; or `type` where the third holds no block.
#[unsafe(no_mangle)]
pub extern "C" fn camlheap_map_get(
    _alloc: Global,
    handle: &mut CamlheapDomain,
    dst: u8,
    map: u8,
    key: u8,
    reply: &mut CamlheapReply,
) -> u32
    ensures { GetsFor handle.old handle.new dst map key reply.old reply.new result }
{
    if !handle.is_full() {
        return NO_DOMAIN;
    }
    let run = handle.lend();
    get_on(run, dst, map, key, reply)
}

/// Takes the binding of the key in a register out of the map in another. The reply is `ok`; `none` where the key isn't bound;
/// or `type` where the register holds no block.
#[unsafe(no_mangle)]
pub extern "C" fn camlheap_map_take(
    _alloc: Global,
    handle: &mut CamlheapDomain,
    map: u8,
    key: u8,
    reply: &mut CamlheapReply,
) -> u32
    ensures { TakesFor handle.old handle.new map key reply.old reply.new result }
{
    if !handle.is_full() {
        return NO_DOMAIN;
    }
    let run = handle.lend();
    take_on(run, map, key, reply)
}

/// Binds, in the map in a register, the key in another to what a third holds. The reply is `ok`; `full` where an allocation was
/// refused; or `type` where the second register holds no block, or the third nothing. `AGAIN` also where another call won the
/// field, or a leaf of another key was in the way, for which the call has made room then. Two labels and room for an ephemeron
/// must be left.
#[unsafe(no_mangle)]
pub extern "C" fn camlheap_map_put(
    _alloc: Global,
    handle: &mut CamlheapDomain,
    map: u8,
    key: u8,
    item: u8,
    reply: &mut CamlheapReply,
) -> u32
    ensures { PutsFor handle.old handle.new map key item reply.old reply.new result }
{
    if !handle.is_full() {
        return NO_DOMAIN;
    }
    let run = handle.lend();
    put_on(run, map, key, item, reply)
}
