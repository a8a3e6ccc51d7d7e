//! The commands of a domain's trace.

/// One command of a domain's trace. Registers are numbers below 16. An `index` counts from 0, in scripts to 1,023.
#[derive(Clone, Copy)]
pub enum Command {
    /// `int`: register `dst` holds the integer, in scripts from -2^62 to 2^62 - 1.
    PutInt {
        dst: u8,
        value: i64,
    },
    /// `move`: register `dst` holds what `src` holds, also nothing.
    Copy {
        dst: u8,
        src: u8,
    },
    /// `drop`: register `dst` holds nothing.
    Forget {
        dst: u8,
    },
    /// `alloc`: `dst` holds a new block of the minor heap. Tag 0 to 245; 1 to 1022 fields, each the integer 0.
    Alloc {
        dst: u8,
        tag: u8,
        fields: u16,
    },
    /// `allocmaj`: the same in the major heap, in the same ranges.
    AllocMaj {
        dst: u8,
        tag: u8,
        fields: u16,
    },
    /// `load`: register `dst` holds what a field of the block in `src` holds.
    Load {
        dst: u8,
        src: u8,
        index: u16,
    },
    /// `store`: a field of the block in register `block` holds what `item` holds, a raw block's an integer alone.
    Store {
        block: u8,
        index: u16,
        item: u8,
    },
    /// `raw`: `dst` holds a new raw block of the minor heap. Tag 251 to 255; 1 to 1022 fields, each the integer 0.
    Raw {
        dst: u8,
        tag: u8,
        fields: u16,
    },
    /// `cas`: where a field of the block in register `block` holds what `expected` holds, it holds what `item` holds, in
    /// one step. Tells whether it was written.
    Cas {
        block: u8,
        index: u16,
        expected: u8,
        item: u8,
    },
    /// `ephe`: `dst` holds a new ephemeron with 1 to 8 empty keys and empty data.
    Ephe {
        dst: u8,
        keys: u16,
    },
    /// `set_key`: a key of the ephemeron in `ephe` is the block in `item`.
    SetKey {
        ephe: u8,
        index: u16,
        item: u8,
    },
    /// `unset_key`: a key is empty.
    UnsetKey {
        ephe: u8,
        index: u16,
    },
    /// `get_key`: register `dst` holds a key, or nothing where it is empty.
    GetKey {
        dst: u8,
        ephe: u8,
        index: u16,
    },
    /// `check_key`: tells whether a key is full.
    CheckKey {
        ephe: u8,
        index: u16,
    },
    /// `set_data`: the data of the ephemeron in `ephe` is what `item` holds.
    SetData {
        ephe: u8,
        item: u8,
    },
    /// `unset_data`: the data is empty.
    UnsetData {
        ephe: u8,
    },
    /// `get_data`: register `dst` holds the data, or nothing where it is empty.
    GetData {
        dst: u8,
        ephe: u8,
    },
    /// `check_data`: tells whether the data is full.
    CheckData {
        ephe: u8,
    },
    /// `finalise`: registers a finaliser for the block in `item`, with a number of 0 to 65,535. Once it runs, `dst`
    /// holds the block.
    Finalise {
        item: u8,
        number: u32,
        dst: u8,
    },
    /// `finalise_last`: registers one that runs once the block in `item` is gone, with a number of 0 to 65,535.
    FinaliseLast {
        item: u8,
        number: u32,
    },
    /// `poll`: changes nothing. The domain is at a safepoint.
    Poll,
    /// `minor`: asks for a minor collection. Nothing changes in the graph.
    Minor,
    /// `major`: asks for a cycle of the major collector. Nothing changes in the graph.
    Major,
    /// `full_major`: asks for a complete collection, and tells what is reachable then.
    FullMajor,
    /// `spawn`: the domain of a section begins, and what `item` holds is its argument. Like the three below it stands
    /// for several other commands, and is no entry of a history.
    Spawn {
        section: u32,
        item: u8,
    },
    /// `argument`: register `dst` holds the argument of the domain's own section.
    Argument {
        dst: u8,
    },
    /// `result`: what `item` holds is the result of the domain's own section.
    PutResult {
        item: u8,
    },
    /// `join`: waits for the end of a section, and register `dst` holds its result.
    Join {
        dst: u8,
        section: u32,
    },
}
