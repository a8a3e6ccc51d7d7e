//! What a register, a field or an ephemeron's data holds, as one word.
ghost use Rattle.std.specs.Prelude.{◌≡◌, ◌≤◌, ◌<◌, ℕ, ◌%◌, ◌^◌, ◌/◌, IsNone, ◌↔◌};
ghost use Rattle.heap_words.specs.Unpacked.{IsWordOf, ReadsAs, Unpacks};
ghost use Rattle.heap_words.specs.Values.{IsPackable, value_word};

/// A value of the heap: an integer of 63 bits, the address of a block, or nothing.
///
/// The lowest bit of a word tells an integer from an address, as in OCaml ("Retrofitting
/// Parallelism onto OCaml", section 2).
#[derive(Clone, Copy, Debug, PartialEq, Eq)]
pub enum Value {
    /// From -2^62 to 2^62 - 1.
    Int(i64),
    /// An address, at least 1.
    Ref(u32),
    Nothing,
}

/// The word of a value: the integer `v` as the two's complement of `2 * v + 1`, the address `a` as
/// `2 * a`, and nothing as 0.
pub fn pack_value(value: Value) -> u64
    requires { IsPackable value }
    ensures { result ≡ value_word value }
{
    match value {
        Value::Int(v) => (2 * v + 1).cast_unsigned(),
        Value::Ref(address) => 2 * u64::from(address),
        Value::Nothing => 0,
    }
}

/// The value whose word this is. `None` exactly where the word is even and its half is above the
/// largest address, 4,294,967,295.
pub fn unpack_value(word: u64) -> Option<Value>
    ensures unpacks { Unpacks IsPackable value_word word result }
    ensures none { IsNone result ↔ ((word % 2 ≡ 0) × (2 ^ 32 ≤ word / 2)) }
{
    if word % 2 == 1 {
        return Some(Value::Int(word.cast_signed() >> 1));
    }
    if word == 0 {
        return Some(Value::Nothing);
    }
    if word / 2 < 1 << 32 {
        Some(Value::Ref((word / 2) as u32))
    } else {
        None
    }
}

/// The value whose word this is, where one has it.
#[inline(always)]
pub fn read_value(word: u64) -> Value
    requires known { IsWordOf IsPackable value_word word }
    ensures reads { ReadsAs IsPackable value_word word result }
{
    if word % 2 == 1 {
        Value::Int(word.cast_signed() >> 1)
    } else if word == 0 {
        Value::Nothing
    } else {
        Value::Ref((word / 2) as u32)
    }
}
