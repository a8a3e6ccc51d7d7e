// Rows with the replies that they have by hand.
use crate::model::play::Step::*;
use crate::model::play::{Step, block, play, play_small};
use model_core::command::Command;
use model_core::command::Command::*;
use model_core::reply::Reply;
use std::test::Fail;

fn int(dst: u8, value: i64) -> Step {
    Makes(PutInt { dst, value }, Reply::Done)
}

fn load(dst: u8, src: u8, index: u16, reply: Reply) -> Step {
    Makes(Load { dst, src, index }, reply)
}

fn store(block: u8, index: u16, item: u8, reply: Reply) -> Step {
    Makes(Store { block, index, item }, reply)
}

fn cas(block: u8, index: u16, expected: u8, item: u8, reply: Reply) -> Step {
    let exchange = Cas {
        block,
        index,
        expected,
        item,
    };
    Makes(exchange, reply)
}

fn done(command: Command) -> Step {
    Makes(command, Reply::Done)
}

fn new(command: Command, serial: u32) -> Step {
    Makes(command, Reply::Block(block(serial)))
}

fn alloc(dst: u8) -> Command {
    Alloc {
        dst,
        tag: 0,
        fields: 1,
    }
}

fn live(blocks: u64, words: u64) -> Step {
    Makes(FullMajor, Reply::Live { blocks, words })
}

// Types and bounds, and a domain that has ended.
#[test]
fn plain_blocks(rt: HostRuntime) -> Result<(), Fail> {
    let row = [
        int(1, 5),
        load(2, 1, 0, Reply::BadType),
        load(2, 0, 16, Reply::BadIndex),
        load(2, 0, 15, Reply::Int(0)),
        store(0, 0, 9, Reply::BadType),
        End,
        Refuses(Poll, false),
    ];
    play(&rt, rt.alloc(), &row)
}

// Once two blocks are kept, an allocation is answered `full`: after a complete collection, until the domain's next command.
#[test]
fn used_up_pools(rt: HostRuntime) -> Result<(), Fail> {
    let row = [
        Refuses(alloc(1), true),
        Cut,
        Seal,
        Collected,
        Done,
        Refuses(alloc(1), true),
        new(alloc(1), 1),
        Refuses(alloc(2), true),
        Cut,
        Seal,
        Collected,
        Done,
        Refuses(Poll, true),
        Fills(alloc(2)),
        Refuses(alloc(2), true),
        new(alloc(2), 2),
    ];
    play_small(&rt, rt.alloc(), &row)
}

#[test]
fn raw_blocks(rt: HostRuntime) -> Result<(), Fail> {
    let raw = Raw {
        dst: 1,
        tag: 252,
        fields: 3,
    };
    let row = [
        new(raw, 1),
        int(2, 5),
        store(1, 0, 2, Reply::Done),
        store(1, 1, 1, Reply::BadType),
        load(3, 1, 0, Reply::Int(5)),
        Cut,
        Seal,
        Collected,
        live(2, 23),
        Done,
    ];
    play(&rt, rt.alloc(), &row)
}

#[test]
fn compare_and_set(rt: HostRuntime) -> Result<(), Fail> {
    let row = [
        int(1, 0),
        int(2, 9),
        cas(0, 3, 1, 2, Reply::Yes),
        cas(0, 3, 1, 2, Reply::No),
        load(3, 0, 3, Reply::Int(9)),
        cas(0, 16, 1, 2, Reply::BadIndex),
        cas(0, 3, 9, 2, Reply::BadType),
        Refuses(Argument { dst: 1 }, false),
    ];
    play(&rt, rt.alloc(), &row)
}

// The data of an ephemeron reaches its own key. Nothing that is permitted may be left.
#[test]
fn ephemerons(rt: HostRuntime) -> Result<(), Fail> {
    let key = SetKey {
        ephe: 3,
        index: 0,
        item: 1,
    };
    let row = [
        new(alloc(1), 1),
        new(alloc(2), 2),
        store(2, 0, 1, Reply::Done),
        new(Ephe { dst: 3, keys: 1 }, 3),
        done(key),
        done(SetData { ephe: 3, item: 2 }),
        done(Forget { dst: 1 }),
        done(Forget { dst: 2 }),
        Cut,
        NoWipe(3, &[0]),
        Seal,
        NoCollected,
        Wipe(3, &[0]),
        Collected,
        live(2, 22),
        Done,
        Makes(CheckKey { ephe: 3, index: 0 }, Reply::No),
        Makes(CheckData { ephe: 3 }, Reply::No),
    ];
    play(&rt, rt.alloc(), &row)
}

// Both finalisers of one value: `finalise_last` waits until the value is let go for good.
#[test]
fn finalisers(rt: HostRuntime) -> Result<(), Fail> {
    let finalise = Finalise {
        item: 1,
        number: 5,
        dst: 2,
    };
    let fin = Reply::Fin {
        number: 5,
        label: block(1),
    };
    let row = [
        new(alloc(1), 1),
        done(finalise),
        done(FinaliseLast { item: 1, number: 6 }),
        done(Forget { dst: 1 }),
        Cut,
        Queue(&[0]),
        Seal,
        NoLast(0),
        Collected,
        live(2, 21),
        Done,
        Ran(fin),
        done(Forget { dst: 2 }),
        Cut,
        Seal,
        Last(0),
        Collected,
        live(1, 18),
        Done,
        Ran(Reply::Last { number: 6 }),
    ];
    play(&rt, rt.alloc(), &row)
}
