//! Weak maps and caches in a heap that a program drives: each call, beside collections that take a dead key's binding.
ghost use Rattle.std.specs.Prelude.{◌<◌};

use crate::sessions::same::same;
use model_core::command::Command;
use model_core::label::Label;
use model_core::reply::Reply;
use run_session::TableSession;
use run_session::domains::SessionDomain;
use std::process::Abort;
use std::sync::Wait;
use std::test::Fail;
use weak_cache::cache::{cache_get, cache_make, cache_put, cache_take};
use weak_maps::cleaning::map_clean;
use weak_maps::getting::map_get;
use weak_maps::machine::perform;
use weak_maps::making::map_make;
use weak_maps::putting::map_put;
use weak_maps::sweeps::sweeping::map_sweep;
use weak_maps::taking::map_take;

// The register of the map or the cache, and that of an answer.
const HOME: u8 = 7;

const ANSWER: u8 = 6;

// How many values the cache keeps.
const SLOTS: u16 = 2;

const fn block(serial: u32) -> Reply {
    Reply::Block(Label { domain: 0, serial })
}

// Makes a block of so many fields, where a label is left.
fn make(rt: &impl Wait, heap: &mut SessionDomain, dst: u8, fields: u16) -> Option<Reply>
    requires { (dst < 16) × (0 < fields) × (fields < 1023) }
{
    if heap.session().labels_left() < 1 {
        return None;
    }
    Some(perform(
        heap,
        rt,
        Command::Alloc {
            dst,
            tag: 0,
            fields,
        },
    ))
}

// Binds a key in the map, where there is room.
fn put(rt: &impl Wait, heap: &mut SessionDomain, key: u8, item: u8) -> Option<Reply>
    requires { (key < 8) × (item < 8) }
{
    if heap.session().labels_left() < 7 || heap.session().ephes_room() < 1 {
        return None;
    }
    Some(map_put(heap, rt, HOME, key, item))
}

fn get(rt: &impl Wait, heap: &mut SessionDomain, key: u8) -> Reply
    requires { key < 8 }
{
    map_get(heap, rt, ANSWER, HOME, key)
}

// Puts a value into the cache, where there is room.
fn keep(rt: &impl Wait, heap: &mut SessionDomain, key: u8, item: u8) -> Option<Reply>
    requires { (key < 8) × (item < 8) }
{
    if heap.session().labels_left() < 1 || heap.session().ephes_room() < 1 {
        return None;
    }
    Some(cache_put(heap, rt, HOME, SLOTS, key, item))
}

fn kept(rt: &impl Wait, heap: &mut SessionDomain, key: u8) -> Reply
    requires { key < 8 }
{
    cache_get(heap, rt, ANSWER, HOME, SLOTS, key)
}

// Lets go of what a register holds, and has the heap collect.
fn let_go(heap: SessionDomain, register: u8) -> SessionDomain
    requires { register < 16 }
{
    let mut session = heap.into_inner();
    if session.arrivals_left() >= 1 << 29 {
        session.perform(Command::Forget { dst: register });
        session.perform(Command::FullMajor);
    }
    SessionDomain::new(session)
}

// A heap with a map, two keys and the number 9 in register 3.
fn with_map(rt: &(impl Wait + Abort), heap: &mut SessionDomain) {
    if heap.session().labels_left() < 1 {
        return;
    }
    same(rt, map_make(heap, rt, HOME), block(1));
    same(rt, make(rt, heap, 1, 1), Some(block(2)));
    same(rt, make(rt, heap, 2, 1), Some(block(3)));
    perform(heap, rt, Command::PutInt { dst: 3, value: 9 });
}

#[test]
fn a_map_binds_keys(rt: HostRuntime) -> Result<(), Fail> {
    let session = TableSession::make(rt.alloc(), 4096, 20, 8)?;
    let mut heap = SessionDomain::new(session);
    with_map(&rt, &mut heap);
    same(&rt, get(&rt, &mut heap, 1), Reply::Empty);
    same(&rt, put(&rt, &mut heap, 1, 3), Some(Reply::Done));
    same(&rt, put(&rt, &mut heap, 2, 1), Some(Reply::Done));
    same(&rt, get(&rt, &mut heap, 1), Reply::Int(9));
    same(&rt, get(&rt, &mut heap, 2), block(2));
    same(&rt, put(&rt, &mut heap, 1, 2), Some(Reply::Done));
    same(&rt, get(&rt, &mut heap, 1), block(3));
    same(&rt, put(&rt, &mut heap, 3, 1), Some(Reply::BadType));
    same(&rt, put(&rt, &mut heap, 1, 4), Some(Reply::BadType));
    same(&rt, get(&rt, &mut heap, 3), Reply::BadType);
    same(&rt, map_take(&mut heap, &rt, HOME, 1), Reply::Done);
    same(&rt, map_take(&mut heap, &rt, HOME, 1), Reply::Empty);
    same(&rt, map_take(&mut heap, &rt, HOME, 3), Reply::BadType);
    same(&rt, get(&rt, &mut heap, 1), Reply::Empty);
    same(&rt, get(&rt, &mut heap, 2), block(2));
    Ok(())
}

// The binding of a key that is let go is there until the collection, and then none is.
#[test]
fn a_map_loses_dead_keys(rt: HostRuntime) -> Result<(), Fail> {
    let session = TableSession::make(rt.alloc(), 4096, 20, 8)?;
    let mut heap = SessionDomain::new(session);
    with_map(&rt, &mut heap);
    same(&rt, put(&rt, &mut heap, 1, 3), Some(Reply::Done));
    same(&rt, put(&rt, &mut heap, 2, 3), Some(Reply::Done));
    let mut heap = let_go(heap, 1);
    same(&rt, map_clean(&mut heap, &rt, HOME), false);
    same(&rt, get(&rt, &mut heap, 2), Reply::Int(9));
    let mut heap = let_go(heap, 2);
    same(&rt, map_clean(&mut heap, &rt, HOME), true);
    Ok(())
}

// What a field of the map's first block holds.
fn field(rt: &impl Wait, heap: &mut SessionDomain, index: u16) -> Reply {
    perform(
        heap,
        rt,
        Command::Load {
            dst: ANSWER,
            src: HOME,
            index,
        },
    )
}

// A sweep takes the leaf of the key that was let go out of its field, and leaves the other's.
#[test]
fn a_map_is_swept(rt: HostRuntime) -> Result<(), Fail> {
    let session = TableSession::make(rt.alloc(), 4096, 20, 8)?;
    let mut heap = SessionDomain::new(session);
    with_map(&rt, &mut heap);
    same(&rt, put(&rt, &mut heap, 1, 3), Some(Reply::Done));
    same(&rt, put(&rt, &mut heap, 2, 3), Some(Reply::Done));
    let mut heap = let_go(heap, 1);
    same(&rt, field(&rt, &mut heap, 2), block(4));
    map_sweep(&mut heap, &rt, HOME);
    same(&rt, field(&rt, &mut heap, 2), Reply::Int(0));
    same(&rt, field(&rt, &mut heap, 3), block(5));
    same(&rt, get(&rt, &mut heap, 2), Reply::Int(9));
    let mut heap = let_go(heap, 2);
    map_sweep(&mut heap, &rt, HOME);
    same(&rt, field(&rt, &mut heap, 3), Reply::Int(0));
    Ok(())
}

// Two keys whose ways part only below the root: their serials differ by 512. The block between them goes with its last leaf.
#[test]
fn a_map_grows_deeper(rt: HostRuntime) -> Result<(), Fail> {
    let session = TableSession::make(rt.alloc(), 4096, 20, 8)?;
    let mut heap = SessionDomain::new(session);
    with_map(&rt, &mut heap);
    for _ in 0..510u32 {
        make(&rt, &mut heap, 4, 1);
    }
    same(&rt, make(&rt, &mut heap, 4, 1), Some(block(514)));
    same(&rt, put(&rt, &mut heap, 1, 3), Some(Reply::Done));
    same(&rt, put(&rt, &mut heap, 4, 1), Some(Reply::Done));
    same(&rt, get(&rt, &mut heap, 1), Reply::Int(9));
    same(&rt, get(&rt, &mut heap, 4), block(2));
    same(&rt, map_take(&mut heap, &rt, HOME, 1), Reply::Done);
    same(&rt, get(&rt, &mut heap, 4), block(2));
    same(&rt, map_take(&mut heap, &rt, HOME, 4), Reply::Done);
    same(&rt, map_clean(&mut heap, &rt, HOME), true);
    Ok(())
}

#[test]
fn a_cache_keeps_the_last_used(rt: HostRuntime) -> Result<(), Fail> {
    let session = TableSession::make(rt.alloc(), 4096, 20, 8)?;
    let mut heap = SessionDomain::new(session);
    if heap.session().labels_left() >= 1 {
        same(&rt, cache_make(&mut heap, &rt, HOME, SLOTS), block(1));
    }
    for key in 1..4u8 {
        make(&rt, &mut heap, key, 1);
    }
    same(&rt, keep(&rt, &mut heap, 1, 2), Some(Reply::Done));
    same(&rt, keep(&rt, &mut heap, 2, 3), Some(Reply::Done));
    same(&rt, kept(&rt, &mut heap, 1), block(3));
    same(&rt, keep(&rt, &mut heap, 3, 1), Some(Reply::Done));
    same(&rt, kept(&rt, &mut heap, 2), Reply::Empty);
    same(&rt, kept(&rt, &mut heap, 1), block(3));
    same(&rt, keep(&rt, &mut heap, 0, 5), Some(Reply::BadType));
    same(&rt, kept(&rt, &mut heap, 5), Reply::BadType);
    let mut heap = let_go(heap, ANSWER);
    same(&rt, kept(&rt, &mut heap, 3), block(2));
    same(&rt, kept(&rt, &mut heap, 1), block(3));
    same(
        &rt,
        cache_take(&mut heap, &rt, ANSWER, HOME, SLOTS, 3),
        block(2),
    );
    same(&rt, kept(&rt, &mut heap, 3), Reply::Empty);
    same(&rt, kept(&rt, &mut heap, 1), block(3));
    same(&rt, keep(&rt, &mut heap, 2, 2), Some(Reply::Done));
    same(&rt, kept(&rt, &mut heap, 1), block(3));
    Ok(())
}
