//! Whether the slow heap prints what seats were told.
use heap_rule::Config;
use judge_outputs::search::{Found, Search};
use judge_plain::history::gives;
use model_core::reply::Reply;
use std::alloc::{AllocError, Global};
use text_script::{Line, Script, print_heading, print_reply};

// So many states are looked at.
const STATES: u64 = 20_000;

fn add_line(bytes: &mut Vec<u8>, line: &Line, length: usize) -> Result<(), AllocError> {
    for byte in line.iter().take(length) {
        bytes.push(*byte)?;
    }
    Ok(())
}

fn add_replies(bytes: &mut Vec<u8>, replies: &[Reply]) -> Result<(), AllocError> {
    for reply in replies {
        let mut line: Line = [0; 64];
        let length = print_reply(reply, &mut line);
        add_line(bytes, &line, length)?;
    }
    Ok(())
}

/// The output in which each domain was told these replies.
pub(crate) fn output(alloc: Global, told: &[Vec<Reply>]) -> Result<Vec<u8>, AllocError> {
    let mut bytes = Vec::new(alloc);
    let mut d = 0;
    for replies in told {
        let mut line: Line = [0; 64];
        let length = print_heading(d, &mut line);
        add_line(&mut bytes, &line, length)?;
        add_replies(&mut bytes, replies)?;
        d = d.saturating_add(1);
    }
    Ok(bytes)
}

/// Whether some legal history, in which each domain makes the commands of its section and ends, prints this output on
/// the slow heap. A search looks for one, and the slow heap plays what it found.
pub(crate) fn is_explained(
    alloc: Global,
    config: &Config,
    script: &Script,
    output: &[u8],
) -> Result<bool, AllocError> {
    let sizes = config.sizes();
    if sizes.first_outside().is_some() || script.sections() != sizes.domains as usize {
        return Ok(false);
    }
    let Some(mut search) = Search::begin(alloc, sizes, script, output)? else {
        return Ok(false);
    };
    match search.go_on(STATES)? {
        Found::History(history) => gives(alloc, &sizes, script, &history, output),
        Found::Nothing | Found::CutShort | Found::More => Ok(false),
    }
}
