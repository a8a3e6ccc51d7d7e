//! What the judge answers.
use text_script::ScriptFault;

/// What came of judging an output.
#[derive(Clone, Copy, Debug, PartialEq, Eq)]
pub enum Judged {
    /// Some legal history makes the output. It was written.
    Legal,
    /// The search went through all states that it makes, and found no history.
    NoneFound,
    /// The search ended before it had seen all states.
    GaveUp,
    /// The script has this first fault.
    Script(ScriptFault),
    /// No line `---` stands behind a script.
    NoSeparator,
    /// The input has more bytes than are read.
    TooLong,
    /// A read failed.
    ReadFault,
    /// A write failed. A front part of the answer was written.
    WriteFault,
    /// Memory ran out before a byte was written.
    Memory,
}
