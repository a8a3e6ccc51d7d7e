//! Whether an output is that of a run of a table's text.
ghost use Rattle.std.specs.Prelude.{◌≡◌, IfOk, IsTrue};
ghost use Rattle.model_core.specs.Domains.{IsWithinLimits};
ghost use Rattle.judge_outputs.specs.Texts.Answer.{IsTrueAnswer};
ghost use Rattle.table_text.specs.Machine.Texts.{replies_text};

use crate::texts::judge::refused_line;
use crate::texts::machine::Gone;
use crate::texts::replies::{print_replies, read_replies};
use crate::texts::search::find_gone;
use model_core::state::Sizes;
use std::alloc::{AllocError, Global};
use table_text::TableText;
use table_text::machine::LineReply;

/// What came of judging an output of a table's text.
#[derive(Drop)]
pub enum Explained {
    /// The machine may answer so, where these keys go before these lines.
    Run(Vec<Gone>),
    /// No run was found. In that which was tried this line of the output, counted from 1, is the first that it hasn't.
    NoneFound { line: u64 },
}

// Whether replies are written as this output.
fn prints(alloc: Global, replies: &[LineReply], output: &[u8]) -> Result<bool, AllocError>
    ensures { IfOk result (λ yes. IsTrue yes → replies_text replies.now ≡ output.now) }
{
    let text = print_replies(alloc, replies)?;
    Ok(text.as_slice() == output)
}

/// Looks for a run of the machine of this text, on a heap of these sizes, whose replies are written as this output.
///
/// What the search proposes is played, so a run is one. That there is none where none was found no clause says.
pub fn explain_output(
    alloc: Global,
    sizes: &Sizes,
    text: &TableText,
    output: &[u8],
) -> Result<Explained, AllocError>
    requires { IsWithinLimits sizes.now }
    ensures { IfOk result (IsTrueAnswer sizes.now text.now output.now) }
{
    let replies = read_replies(alloc, output)?;
    let gone = find_gone(alloc, text, &replies)?;
    if let Some(line) = refused_line(alloc, sizes, text, &replies, &gone)? {
        return Ok(Explained::NoneFound {
            line: (line as u64).saturating_add(1),
        });
    }
    if prints(alloc, &replies, output)? {
        Ok(Explained::Run(gone))
    } else {
        Ok(Explained::NoneFound {
            line: (replies.len() as u64).saturating_add(1),
        })
    }
}
