//! What a step changes in a domain's token.
ghost use Rattle.std.specs.Prelude.{◌≡◌, ℕ, length};
ghost use Rattle.heap_words.specs.declared.value.Value as words;
ghost use Rattle.heap_rule.specs.Changes.{FitChanges, changed};
ghost use Rattle.heap_rule.specs.Reads.{Reads};

use crate::view::Own;
use heap_words::{Value, unpack_value};

/// A list of the token. Changes write the registers alone: each other list is written by the steps
/// that it belongs to.
#[derive(Clone, Copy)]
pub enum Part {
    /// The 16 registers.
    Register,
    /// Registrations of `finalise`.
    Final,
    /// Registrations of `finalise_last`.
    Last,
    /// Finalisers that wait to be run.
    Queue,
    /// Young blocks.
    Young,
    /// Remembered fields.
    Remembered,
    /// Blocks that are prepared for promotion.
    Prepared,
    /// Copies whose fields are still to be promoted.
    Pending,
    /// Ephemerons.
    Ephe,
    /// Own pools.
    Pool,
    /// Own pools that are still to be swept.
    ToSweep,
}

/// One item of a list. A number that a list doesn't use is 0, and a value `Nothing`.
#[derive(Clone, Copy)]
pub struct Item {
    pub value: Value,
    pub number: u32,
    pub more: u32,
}

/// One change of the token. The changes of a step are made in their order.
#[derive(Clone, Copy)]
pub enum Change {
    /// The item at the place is this one.
    Set { part: Part, place: u32, item: Item },
    /// The register holds the value that the step read, and nothing where the step read no value.
    Read { register: u8 },
    /// The item stands at the end of the list. The registers have no such change.
    Append { part: Part, item: Item },
    /// The item at the place is gone. The registers have no such change.
    Remove { part: Part, place: u32 },
    /// The list is empty. The registers hold nothing.
    Clear { part: Part },
}

/// Makes the changes of a step at which this value was read.
pub fn make_changes(own: &mut Own, read: Value, changes: &[Change])
    requires { FitChanges changes.now }
    ensures { own.new ≡ changed read changes.now own.old }
{
    for change in changes {
        match *change {
            Change::Set {
                part: Part::Register,
                place,
                item,
            } => own.registers[place as usize] = item.value,
            Change::Read { register } => own.registers[register as usize] = read,
            Change::Clear {
                part: Part::Register,
            } => own.registers = [Value::Nothing; 16],
            _ => unreachable!(),
        }
    }
}

/// How a step reads the word that it found.
#[derive(Clone, Copy, Debug, PartialEq, Eq)]
pub enum Reading {
    /// Not at all.
    Unread,
    /// As the word of a value.
    AsValue,
}

/// The value that the word is read as, and nothing where it is unread.
pub fn read_as(reading: Reading, word: u64) -> Value
    requires { (v : words.Value) × Reads reading word v }
    ensures { Reads reading word result }
{
    match reading {
        Reading::Unread => Value::Nothing,
        Reading::AsValue => {
            let Some(value) = unpack_value(word) else {
                unreachable!()
            };
            value
        }
    }
}
