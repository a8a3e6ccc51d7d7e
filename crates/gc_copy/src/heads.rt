//! What the word of a head says of its block.
ghost use Rattle.std.specs.Prelude.{◌≡◌, ℕ};
ghost use Rattle.model_core.specs.Fronts.{Shape};
ghost use Rattle.heap_rule.specs.Places.{extent};
ghost use Rattle.heap_words.specs.Heads.{IsPackableHead, head_word};
ghost use Rattle.heap_words.specs.Unpacked.{IsWordOf, Unpacks};
ghost use Rattle.gc_copy.specs.Heads.{IsForward, forward_word, IsHeadFor};

use heap_words::{Head, read_head};

// The copy to which the head forwards.
pub(crate) fn copy_of(word: u64) -> Option<u32>
    requires { IsWordOf IsPackableHead head_word word }
    ensures { Unpacks IsForward forward_word word result }
{
    match read_head(word) {
        Head::Forward(copy) => Some(copy),
        _ => None,
    }
}

// The words of the block, its head and its label among them.
pub(crate) fn words_of(word: u64) -> u32
    requires { (shape : Shape) × IsHeadFor shape word }
    ensures { (shape : Shape) → IsHeadFor shape word → result ≡ extent shape }
{
    match read_head(word) {
        Head::Ephe { keys, .. } => u32::from(keys) + 3,
        Head::Plain { size, .. } => u32::from(size) + 2,
        Head::Free | Head::Forward(_) => unreachable!(),
    }
}
