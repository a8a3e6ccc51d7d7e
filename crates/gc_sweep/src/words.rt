//! What the word of a head says of its block.
ghost use Rattle.std.specs.Prelude.{◌≡◌, ◌≤◌};
ghost use Rattle.model_core.specs.Fronts.{Shape};
ghost use Rattle.heap_rule.specs.Places.{extent, IsHeadOf};

use heap_words::{Head, read_head};

// The words of the block whose head this is, its head and its label among them.
pub(crate) fn words_of(word: u64) -> u64
    requires { (shape : Shape) × IsHeadOf shape word }
    ensures words { (shape : Shape) → IsHeadOf shape word → result ≡ extent shape }
    ensures few { result ≤ 1024 }
{
    match read_head(word) {
        Head::Plain { size, .. } => u64::from(size) + 2,
        Head::Ephe { keys, .. } => u64::from(keys) + 3,
        Head::Free | Head::Forward(_) => unreachable!(),
    }
}
