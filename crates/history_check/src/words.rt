//! The words behind the program's name.
ghost use Rattle.std.specs.Prelude.{IfOk, IfSome};
ghost use Rattle.model_core.specs.Domains.{IsWithinLimits};

use model_core::state::Sizes;
use std::alloc::{AllocError, Global};
use text_script::words::{Job, read_words};

/// How many states are looked at where no word says so.
const STATES: u64 = 200_000;

/// What the words ask for.
#[derive(Clone, Copy)]
pub(crate) struct Asked {
    /// The sizes of the heap.
    pub sizes: Sizes,
    /// How many states are looked at at most.
    pub states: u64,
    /// Whether the schedule of the history's turns is written in place of the history.
    pub schedule: bool,
    /// Whether a table's text has a section for each domain: the words name their count, and there are several.
    pub sections: bool,
}

// A number of at most nine digits.
fn number(text: &str) -> Option<u64> {
    let bytes = text.as_bytes();
    if bytes.len() > 9 || !bytes.iter().all(|byte| byte.is_ascii_digit()) {
        return None;
    }
    text.parse::<u64>().ok()
}

// Whether some word is `--domains`, or has its number too.
fn name_domains(words: &[String]) -> bool {
    words.iter().any(|word| {
        word.as_str() == "--domains" || word.as_str().starts_with("--domains=")
    })
}

// What the words ask for but for `--states`, which are those of a run.
fn sizes_asked(alloc: Global, words: &[String]) -> Result<Option<Sizes>, AllocError>
    ensures { IfOk result (λ o. IfSome o IsWithinLimits) }
{
    match read_words(alloc, words)? {
        Some(Job::Run(sizes)) if sizes.first_outside().is_none() => Ok(Some(sizes)),
        _ => Ok(None),
    }
}

// The words of a run, without `--schedule`, and without `--states` and its number.
#[derive(Drop)]
struct Sorted {
    run: Vec<String>,
    states: Option<u64>,
    waiting: bool,
    schedule: bool,
}

impl Sorted {
    // Takes a word. False where it is no number of states, or one that was there.
    fn take(&mut self, word: String) -> Result<bool, AllocError> {
        if self.waiting {
            self.waiting = false;
            self.states = number(word.as_str());
            return Ok(self.states.is_some());
        }
        if word.as_str() == "--schedule" {
            let is_first = !self.schedule;
            self.schedule = true;
            return Ok(is_first);
        }
        if word.as_str() == "--states" {
            self.waiting = self.states.is_none();
            return Ok(self.waiting);
        }
        if let Some(text) = word.as_str().strip_prefix("--states=") {
            let is_first = self.states.is_none();
            self.states = number(text);
            return Ok(is_first && self.states.is_some());
        }
        self.run.push(word)?;
        Ok(true)
    }
}

/// What the words ask for: any of `--domains N`, `--minor W` and `--pools P` as behind `camlheap run`, and `--states S`, a
/// number of at most nine digits, each also as `--states=S` and so on, and `--schedule`, each at most once. `None`: they are other words.
pub(crate) fn read_asked(alloc: Global, words: Vec<String>) -> Result<Option<Asked>, AllocError>
    ensures { IfOk result (λ o. IfSome o (λ asked. IsWithinLimits asked.sizes)) }
{
    let mut sorted = Sorted {
        run: Vec::new(alloc),
        states: None,
        waiting: false,
        schedule: false,
    };
    sorted.run.push(String::from_str(alloc, "run")?)?;
    for word in words {
        if !sorted.take(word)? {
            return Ok(None);
        }
    }
    if sorted.waiting {
        return Ok(None);
    }
    match sizes_asked(alloc, &sorted.run)? {
        Some(sizes) => Ok(Some(Asked {
            sizes,
            states: sorted.states.unwrap_or(STATES),
            schedule: sorted.schedule,
            sections: 2 <= sizes.domains && name_domains(&sorted.run),
        })),
        None => Ok(None),
    }
}
