//! Whether an output is that of a run of several domains.
ghost use Rattle.std.specs.Prelude.{IfOk, map};
ghost use Rattle.judge_outputs.specs.Sections.Answer.{IsTrueAnswer};

use crate::sections::check::explain;
use crate::sections::search::{Found, find_turns};
use crate::sections::turn::Turn;
use std::alloc::{AllocError, Global};
use table_text::TableLine;

/// What came of judging an output of sections.
#[derive(Drop)]
pub enum Explained {
    /// The machine may answer so, where the lines are made in this order.
    Legal(Vec<Turn>),
    /// The search went through all states that it makes, and found no order.
    NoneFound,
    /// The search ended before it had seen all states.
    GivenUp,
}

/// Looks for one order of all lines of these sections, each domain's in their order, in which the machine of several domains
/// gives replies that are written as this output. It looks at so many states at most.
///
/// What the search proposes is played, so an order is one. That there is none where none was found no clause says.
pub fn explain_sections(
    alloc: Global,
    sections: &[Vec<TableLine>],
    output: &[u8],
    states: u64,
) -> Result<Explained, AllocError>
    ensures { IfOk result (IsTrueAnswer (map (λ v. v.items) sections.now) output.now) }
{
    match find_turns(alloc, sections, output, states)? {
        Found::Turns(turns) => {
            if explain(alloc, sections, output, &turns)? {
                Ok(Explained::Legal(turns))
            } else {
                Ok(Explained::NoneFound)
            }
        }
        Found::Nothing => Ok(Explained::NoneFound),
        Found::More => Ok(Explained::GivenUp),
    }
}
