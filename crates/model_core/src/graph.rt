//! The blocks of the object graph.
use crate::label::Label;
use crate::sequence::Sequence;

/// What a register, a field or the data of an ephemeron holds. A field never holds nothing.
#[derive(Clone, Copy, Debug, PartialEq, Eq)]
pub enum Value {
    Int(i64),
    Block(Label),
    Nothing,
}

/// A block of the object graph.
#[derive(Debug, Drop)]
pub enum Node {
    /// Fields that hold integers and blocks.
    Plain {
        tag: u8,
        fields: Sequence<Value>,
    },
    /// Fields that hold integers alone, and keep no block alive.
    Raw {
        tag: u8,
        fields: Sequence<Value>,
    },
    /// Weak keys, and data that is reachable through the ephemeron only while all its full keys are.
    Ephe {
        keys: Sequence<Option<Label>>,
        datum: Value,
    },
}
