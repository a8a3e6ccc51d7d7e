//! Words worked out by hand, and the words that nothing packs to.
use crate::words::same::same;
use heap_words::{
    Colours, Head, Value, pack_colours, pack_head, pack_label, pack_value, rotate, unpack_colours,
    unpack_head, unpack_label, unpack_value,
};

// Values and their words.
const VALUES: [(Value, u64); 6] = [
    (Value::Int(7), 0x0000_0000_0000_000f),
    (Value::Int(-1), 0xffff_ffff_ffff_ffff),
    (Value::Int(4_611_686_018_427_387_903), 0x7fff_ffff_ffff_ffff),
    (
        Value::Int(-4_611_686_018_427_387_904),
        0x8000_0000_0000_0001,
    ),
    (Value::Ref(5), 0x0000_0000_0000_000a),
    (Value::Nothing, 0),
];

// Heads and their words.
const HEADS: [(Head, u64); 5] = [
    (Head::Free, 0),
    (
        Head::Plain {
            size: 2,
            tag: 0,
            colour: 0,
            scanned: false,
        },
        0x0000_0000_0002_0001,
    ),
    (
        Head::Plain {
            size: 126,
            tag: 245,
            colour: 2,
            scanned: true,
        },
        0x0000_0000_007e_f531,
    ),
    (
        Head::Ephe {
            keys: 1,
            colour: 1,
            scanned: false,
        },
        0x0000_0000_0001_000a,
    ),
    (Head::Forward(5), 0x0000_0005_0000_0003),
];

// Words that no head packs to: each field out of its range, and each bit that has no name.
const NO_HEADS: [u64; 19] = [
    0x0000_0000_0000_0004,
    0x0000_0000_0001_0007,
    0x0000_0000_0001_0000,
    0x0000_0000_0001_0019,
    0x0000_0000_0001_001a,
    0x0000_0000_0000_0001,
    0x0000_0000_03ff_0001,
    0x0000_0000_0000_0002,
    0x0000_0000_0009_0002,
    0x0000_0000_0001_0041,
    0x0000_0000_0001_0081,
    0x0000_0001_0001_0001,
    0x0000_0000_0001_0102,
    0x0000_0000_0001_0042,
    0x0000_0001_0001_0002,
    0x0000_0000_0000_0003,
    0x0000_0005_0000_000b,
    0x0000_0005_0000_0103,
    0x0000_0005_0001_0003,
];

// Words of no three different colours: a colour twice, a number above 2, a bit that has no name.
const NO_COLOURS: [u64; 5] = [0, 20, 39, 57, 100];

#[test]
fn values_have_their_words(rt: HostRuntime) {
    for (value, word) in &VALUES {
        let unpacked = unpack_value(*word);
        same(&rt, unpacked, Some(*value));
        same(&rt, unpacked.map(|value| pack_value(value)), Some(*word));
    }
    same(&rt, unpack_value(0x1_ffff_fffe), Some(Value::Ref(u32::MAX)));
    same(&rt, unpack_value(0x2_0000_0000), None);
    same(&rt, unpack_value(0xffff_ffff_ffff_fffe), None);
}

#[test]
fn heads_have_their_words(rt: HostRuntime) {
    for (head, word) in &HEADS {
        let unpacked = unpack_head(*word);
        same(&rt, unpacked, Some(*head));
        same(&rt, unpacked.map(|head| pack_head(head)), Some(*word));
    }
    for word in &NO_HEADS {
        same(&rt, unpack_head(*word), None);
    }
}

#[test]
fn colours_have_their_words(rt: HostRuntime) {
    let opening = Colours {
        marked: 0,
        unmarked: 1,
        garbage: 2,
    };
    same(&rt, pack_colours(opening), 36);
    same(&rt, unpack_colours(36), Some(opening));
    let turned = rotate(opening);
    same(
        &rt,
        turned,
        Colours {
            marked: 2,
            unmarked: 0,
            garbage: 1,
        },
    );
    same(&rt, pack_colours(turned), 18);
    for word in &NO_COLOURS {
        same(&rt, unpack_colours(*word), None);
    }
}

#[test]
fn labels_have_their_words(rt: HostRuntime) {
    same(&rt, pack_label(3, 9), 75);
    same(&rt, unpack_label(75), Some((3, 9)));
    same(&rt, unpack_label(0x7_ffff_ffff), Some((7, u32::MAX)));
    same(&rt, unpack_label(0x8_0000_0000), None);
}
