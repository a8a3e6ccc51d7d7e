//! The names in the table of command forms.
ghost use Rattle.std.specs.Prelude.{◌≡◌};

/// A kind of number on a command's line. Each kind has a range of its own.
#[derive(Clone, Copy, Debug, PartialEq, Eq)]
pub enum Operand {
    Register,
    Tag,
    RawTag,
    FieldCount,
    KeyCount,
    Index,
    FinaliserNumber,
    Integer,
    Section,
}

/// A row of the table: the word that a command's line begins with.
#[derive(Clone, Copy, Debug, PartialEq, Eq)]
pub enum Word {
    Int,
    Move,
    Drop,
    Alloc,
    AllocMaj,
    Load,
    Store,
    Raw,
    Cas,
    Ephe,
    SetKey,
    UnsetKey,
    GetKey,
    CheckKey,
    SetData,
    UnsetData,
    GetData,
    CheckData,
    Finalise,
    FinaliseLast,
    Poll,
    Minor,
    Major,
    FullMajor,
    Spawn,
    Argument,
    Result,
    Join,
}
