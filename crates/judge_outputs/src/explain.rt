//! Whether some legal history makes an output.
ghost use Rattle.std.specs.Prelude.{◌≡◌, length, IfOk, IsTrue};
ghost use Rattle.model_core.specs.Domains.{IsWithinLimits};
ghost use Rattle.judge_outputs.specs.Answer.{ExplainsScript, IsTrueAnswer, IsTrueNear};

use crate::search::Nearest;
use judge_plain::history::gives;
use judge_plain::scheduled::first_difference;
use judge_plain::spawned::gives_spawning;
use model_core::entry::Entry;
use model_core::state::Sizes;
use std::alloc::{AllocError, Global};
use text_script::Script;

/// What a search for a history comes to.
#[derive(Drop)]
pub enum Sought {
    /// This history may make the output. So many states were looked at.
    History { entries: Vec<Entry>, states: u64 },
    /// The search went through all states that it makes, so many, and found none. This output may be legal and near.
    Nothing { states: u64, near: Option<Nearest> },
    /// The search ended before it had seen all states: so many were looked at.
    CutShort { states: u64, near: Option<Nearest> },
}

/// A search for histories. What it finds is played before it is believed.
pub trait Seek {
    /// Looks for a history of a heap of these sizes in which each domain makes the commands of its section and ends, and which
    /// prints this output.
    fn seek(
        &mut self,
        alloc: Global,
        sizes: &Sizes,
        script: &Script,
        output: &[u8],
    ) -> Result<Sought, AllocError>;
}

/// An output that some legal history makes, and the first line, counted from 1, in which the judged output isn't as it.
#[derive(Drop)]
pub(crate) struct Near {
    pub text: Vec<u8>,
    pub line: u64,
}

/// Whether some legal history makes an output.
#[derive(Drop)]
pub(crate) enum Explained {
    /// This one does.
    Legal(Vec<Entry>),
    /// The search went through all states that it makes, so many, and found none.
    NoneFound { states: u64, near: Option<Near> },
    /// The search ended before it had seen all states, or what it found can't be played: so many were looked at.
    GaveUp { states: u64, near: Option<Near> },
}

// Whether a history makes an output of a script of any version.
fn explains(
    alloc: Global,
    sizes: &Sizes,
    script: &Script,
    history: &[Entry],
    output: &[u8],
) -> Result<bool, AllocError>
    requires limits { IsWithinLimits sizes.now }
    requires sections { length script.now.sections ≡ sizes.now.domains }
    ensures { IfOk result (λ yes. IsTrue yes → ExplainsScript sizes.now script.now output.now history.now) }
{
    if script.version() == 3 {
        gives_spawning(alloc, sizes, script, history, output)
    } else {
        gives(alloc, sizes, script, history, output)
    }
}

// The line in which an output isn't as a legal one that was found near. `None`: it isn't legal, or it is the same.
fn near_to(
    alloc: Global,
    sizes: &Sizes,
    script: &Script,
    output: &[u8],
    nearest: Option<Nearest>,
) -> Result<Option<Near>, AllocError>
    requires limits { IsWithinLimits sizes.now }
    requires sections { length script.now.sections ≡ sizes.now.domains }
    ensures { IfOk result (IsTrueNear sizes.now script.now output.now) }
{
    let Some(Nearest { entries, text }) = nearest else {
        return Ok(None);
    };
    if !explains(alloc, sizes, script, &entries, &text)? {
        return Ok(None);
    }
    match first_difference(&text, output) {
        Some(line) => Ok(Some(Near {
            text,
            line: line as u64,
        })),
        None => Ok(None),
    }
}

/// Looks for a legal history of a heap of these sizes in which each domain makes the commands of its section, each once
/// and in order, and ends, and which prints this output.
pub(crate) fn explain<F: Seek>(
    alloc: Global,
    sizes: &Sizes,
    script: &Script,
    output: &[u8],
    search: &mut F,
) -> Result<Explained, AllocError>
    requires limits { IsWithinLimits sizes.now }
    requires sections { length script.now.sections ≡ sizes.now.domains }
    ensures { IfOk result (IsTrueAnswer sizes.now script.now output.now) }
{
    match search.seek(alloc, sizes, script, output)? {
        Sought::History { entries, states } => {
            if explains(alloc, sizes, script, &entries, output)? {
                Ok(Explained::Legal(entries))
            } else {
                Ok(Explained::GaveUp { states, near: None })
            }
        }
        Sought::Nothing { states, near } => {
            let near = near_to(alloc, sizes, script, output, near)?;
            Ok(Explained::NoneFound { states, near })
        }
        Sought::CutShort { states, near } => {
            let near = near_to(alloc, sizes, script, output, near)?;
            Ok(Explained::GaveUp { states, near })
        }
    }
}
