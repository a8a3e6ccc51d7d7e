//! What the words of heads say of blocks that are marked beside running domains.
use crate::calls::fixtures::same;
use do_fields::darkening::scan_of;
use heap_words::Colours;

const COLOURS: Colours = Colours {
    marked: 0,
    unmarked: 1,
    garbage: 2,
};

// Words, how many fields of grey blocks are to be scanned, and the heads by which they are scanned. Nothing of an ephemeron
// is. Then come a scanned block, an unmarked one, and a free place.
const TO_SCAN: [(u64, Option<(u32, u64)>); 5] = [
    (0x0000_0000_0002_0001, Some((2, 0x0000_0000_0002_0021))),
    (0x0000_0000_0001_0002, Some((0, 0x0000_0000_0001_0022))),
    (0x0000_0000_0002_0021, None),
    (0x0000_0000_0002_0009, None),
    (0, None),
];

#[test]
fn heads_are_scanned(rt: HostRuntime) {
    for (word, wanted) in &TO_SCAN {
        let found = scan_of(*word, COLOURS).map(|found| (found.fields, found.scanned));
        same(&rt, found, *wanted);
    }
}
