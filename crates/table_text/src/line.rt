//! The lines of a table's text.

/// A line of a table's text. Registers are 1 to 5 and hold keys, slots are 0 to 15 and hold them weakly.
#[derive(Clone, Copy, Debug, PartialEq, Eq)]
pub enum TableLine {
    /// The register holds a new key.
    Key { reg: u8 },
    /// The register holds nothing.
    Forget { reg: u8 },
    /// The key in the register is bound to the value, which has 63 bits.
    Put { reg: u8, value: i64 },
    /// What the key in the register is bound to.
    Get { reg: u8 },
    /// The binding of the key in the register is taken out.
    Del { reg: u8 },
    /// The slot holds the key in the register weakly.
    SetWeak { slot: u8, reg: u8 },
    /// The register holds the key of the slot, or nothing.
    GetWeak { dst: u8, slot: u8 },
    /// How many bindings there are.
    Count,
    /// A complete collection.
    FullMajor,
}
