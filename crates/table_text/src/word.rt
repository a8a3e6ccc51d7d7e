// The names in the table of lines.

// A kind of number on a line. Each kind has a range of its own.
#[derive(Clone, Copy, Debug, PartialEq, Eq)]
pub enum Operand {
    Register,
    Slot,
    Integer,
}

// The word that a line begins with.
#[derive(Clone, Copy, Debug, PartialEq, Eq)]
pub enum Word {
    Key,
    Forget,
    Put,
    Get,
    Del,
    SetWeak,
    GetWeak,
    Count,
    FullMajor,
}
