//! A cache of the example crate: an entry goes with its key, or where its key was used least recently.
ghost use Rattle.std.specs.Prelude.{◌<◌};

use crate::sessions::same::same;
use example_cache::{Cache, Inserted};
use model_core::label::Label;
use model_core::reply::Reply;
use run_session::TableSession;
use std::sync::Wait;
use std::test::Fail;

// The shared block, which register 0 holds.
const SHARED: Reply = Reply::Block(Label {
    domain: 0,
    serial: 0,
});

#[test]
fn entries_go_with_their_keys(rt: HostRuntime) -> Result<(), Fail> {
    let session = TableSession::make(rt.alloc(), 4096, 20, 4)?;
    let Ok(mut cache) = Cache::make(&rt, session, 2) else {
        return Err(Fail::from("no room for the cache"));
    };
    for key in 1..4u8 {
        same(&rt, cache.new_key(&rt, key), true);
    }
    same(&rt, cache.insert(&rt, 1, 0), Inserted::Stored);
    same(&rt, cache.insert(&rt, 2, 1), Inserted::Stored);
    same(&rt, cache.get(&rt, 4, 1), Some(SHARED));
    same(&rt, cache.insert(&rt, 3, 0), Inserted::Stored);
    same(&rt, cache.get(&rt, 4, 2), None);
    same(&rt, cache.insert(&rt, 5, 0), Inserted::NoKey);
    same(&rt, cache.take(&rt, 4, 1), Some(SHARED));
    same(&rt, cache.get(&rt, 4, 1), None);
    same(&rt, cache.get(&rt, 4, 3), Some(SHARED));
    cache.let_go(&rt, 3);
    cache.collect(&rt);
    same(&rt, cache.insert(&rt, 1, 0), Inserted::Stored);
    same(&rt, cache.insert(&rt, 2, 0), Inserted::Stored);
    same(&rt, cache.get(&rt, 4, 1), Some(SHARED));
    Ok(())
}

// Two fresh keys, the second of which only the entry of the first leads to. Each gets an entry.
fn insert_two(rt: &impl Wait, cache: &mut Cache, register: u8) -> bool
    requires { register < 6 }
{
    cache.new_key(rt, register)
        && cache.new_key(rt, 6)
        && cache.insert(rt, register, 6) == Inserted::Stored
        && cache.insert(rt, 6, 0) == Inserted::Stored
}

// 2,000 entries of fresh keys, ten of which are alive at a time, on the least heap, with room for 160 ephemerons.
#[test]
fn a_cache_uses_its_slots_again(rt: HostRuntime) -> Result<(), Fail> {
    let session = TableSession::make(rt.alloc(), 4096, 20, 160)?;
    let Ok(mut cache) = Cache::make(&rt, session, 10) else {
        return Err(Fail::from("no room for the cache"));
    };
    for pair in 0..1_000u32 {
        if pair % 10 == 0 {
            cache.collect(&rt);
        }
        let register = 1 + (pair % 5) as u8;
        same(&rt, insert_two(&rt, &mut cache, register), true);
    }
    Ok(())
}
