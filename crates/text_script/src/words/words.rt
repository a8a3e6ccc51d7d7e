//! Which lists of words are taken.
ghost use Rattle.std.specs.Prelude.{◌≡◌, ◌↔◌, IsTrue, IsSome, IfSome, IfOk, IfErr, Some, map, string_bytes, option_map};
ghost use Rattle.text_script.specs.declared.words.job.Job.{Job};
ghost use Rattle.text_script.specs.Words.Jobs.{asked_job, generated_after, script_if, IsWithinRange};
ghost use Rattle.text_script.specs.Words.Numbers.{option_number};
ghost use Rattle.text_script.specs.Words.Options.{given_by, nothing_read, with_name, with_text, with_word};
ghost use Rattle.text_script.specs.Words.RunWords.{given_after, replay_sizes, run_sizes, sizes_or, table_sizes};
ghost use Rattle.text_script.specs.Words.Spelled.{AsksFor};

use crate::words::job::{Generated, Job, RUN_DOMAINS, TABLE_DOMAINS, is_replay, is_run, is_table};
use crate::words::long::long_option;
use crate::words::number::number;
use crate::words::options::{Given, Read, Setting, named_setting, sizes};
use crate::words::parse::{job_found, matches_of, want_of_memory};
use model_core::state::Sizes;
use std::alloc::{AllocError, Global};

// The number that an option was given is this text.
fn read_text(read: Read, text: &str, setting: Setting) -> Option<Read>
    ensures { result ≡ with_text read setting text.now }
{
    let number = number(text)?;
    Some(Read {
        given: read.given.with(setting, number),
        waiting: None,
    })
}

// An option's name, with the text behind its `=` if there is one.
fn read_name(read: Read, text: Option<&str>, setting: Setting) -> Option<Read>
    ensures { result ≡ with_name read (option_map (λ t. t.now) text.entry) setting }
{
    if read.given.number(setting).is_some() {
        return None;
    }
    match text {
        Some(text) => read_text(read, text, setting),
        None => Some(Read {
            given: read.given,
            waiting: Some(setting),
        }),
    }
}

// One more word.
fn read_word(read: Read, word: &str) -> Option<Read>
    ensures { result ≡ with_word read word.now }
{
    if let Some(setting) = read.waiting {
        return read_text(read, word, setting);
    }
    let (name, text) = long_option(word)?;
    read_name(read, text, named_setting(name)?)
}

// The numbers that words give behind a command.
fn given(words: &[String]) -> Option<Given>
    ensures { result ≡ given_by nothing_read (map string_bytes words.now) }
{
    let mut read = Read {
        given: Given {
            domains: None,
            minor: None,
            pools: None,
        },
        waiting: None,
    };
    for word in words {
        read = read_word(read, word.as_str())?;
    }
    match read.waiting {
        None => Some(read.given),
        Some(_) => None,
    }
}

// The sizes that the words ask for, where they are this command and options; so many domains where no option says it.
fn sizes_asked(words: &[String], command: &str, domains: u32) -> Option<Sizes>
    ensures { result ≡ option_map (sizes_or domains) (given_after command.now (map string_bytes words.now)) }
{
    let (first, rest) = words.split_first()?;
    if first.as_str() != command {
        return None;
    }
    Some(sizes(given(rest)?, domains))
}

// The sizes that the words of a run ask for.
fn run_asked(words: &[String]) -> Option<Sizes>
    ensures { result ≡ run_sizes (map string_bytes words.now) }
{
    let sizes = sizes_asked(words, "run", RUN_DOMAINS)?;
    if is_run(&sizes) { Some(sizes) } else { None }
}

// The sizes that the words of a replay ask for.
fn replay_asked(words: &[String]) -> Option<Sizes>
    ensures { result ≡ replay_sizes (map string_bytes words.now) }
{
    let sizes = sizes_asked(words, "replay", RUN_DOMAINS)?;
    if is_replay(&sizes) { Some(sizes) } else { None }
}

// The sizes that the words of a table ask for.
fn table_asked(words: &[String]) -> Option<Sizes>
    ensures { result ≡ table_sizes (map string_bytes words.now) }
{
    let sizes = sizes_asked(words, "table", TABLE_DOMAINS)?;
    if is_table(&sizes) { Some(sizes) } else { None }
}

// The script of three numbers, where each of them is one.
fn script_of(base: &str, domains: &str, commands: &str) -> Option<Generated>
    ensures { result ≡ script_if (option_number base.now) (option_number domains.now) (option_number commands.now) }
{
    Some(Generated {
        base: number(base)?,
        domains: number(domains)?,
        commands: number(commands)?,
    })
}

// The script that the words ask for, where they are this command and three numbers.
fn script_asked(words: &[String], command: &str) -> Option<Generated>
    ensures { result ≡ generated_after command.now (map string_bytes words.now) }
{
    let [word, base, domains, commands] = words else {
        return None;
    };
    if word.as_str() != command {
        return None;
    }
    let script = script_of(base.as_str(), domains.as_str(), commands.as_str())?;
    if !script.is_generable() {
        return None;
    }
    Some(script)
}

// What the words ask for.
#[tactic(auto, unfolding(crate::specs::Words::Jobs::asked_job))]
fn asked(words: &[String]) -> Option<Job>
    ensures { result ≡ asked_job (map string_bytes words.now) }
{
    if let Some(sizes) = run_asked(words) {
        return Some(Job::Run(sizes));
    }
    if let Some(sizes) = replay_asked(words) {
        return Some(Job::Replay(sizes));
    }
    if let Some(sizes) = table_asked(words) {
        return Some(Job::Table(sizes));
    }
    if let Some(script) = script_asked(words, "gen") {
        return Some(Job::Gen(script));
    }
    Some(Job::Load(script_asked(words, "load")?))
}

/// Whether the words after the program's name are taken. They are one of these:
///
/// - `run`, followed by any of `--domains N`, `--minor W` and `--pools P`, in any order, each at
///   most once, each also as `--domains=N` and so on. The sizes that they ask for are within the
///   limits of a heap: 1 to 8 domains, minor areas of 4096 to 65,536 words in whole pools of 4096,
///   and up to 2048 pools, among them those that are kept free for promotion and one more for each
///   class of each domain, and one. What isn't given is 2 domains, 32,768 words and 512 pools.
/// - `replay`, followed by the same options. There are twice the pools that are kept free, and two more, at
///   least.
/// - `table`, followed by the same options, where what isn't given is 1 domain. There are 32 pools at least
///   beside those that are kept free and one for each class.
/// - `gen BASE N C` or `load BASE N C`: a script whose integers count from BASE, which is 0 to
///   1,000,000, for N domains, which are 1 to 8, with C commands for each domain, which are at most
///   200,000 in all domains.
///
/// The numbers are decimal, without sign and without leading zeros. All other words are refused,
/// also those that ask for help, or that hold the word `--`. Takes no memory.
pub fn words_fit(words: &[String]) -> bool
    ensures taken { IsTrue result ↔ IsSome (asked_job (map string_bytes words.now)) }
    ensures spelled { (j : Job) → (asked_job (map string_bytes words.now) ≡ Some j)
        ↔ AsksFor (map string_bytes words.now) j }
{
    asked(words).is_some()
}

/// What the words ask for, as [`words_fit`] has it, and `None` exactly where it refuses the words.
/// Fails for want of memory alone, and only where it takes the words.
pub fn read_words(alloc: Global, words: &[String]) -> Result<Option<Job>, AllocError>
    ensures job { IfOk result (λ j. j ≡ asked_job (map string_bytes words.now)) }
    ensures limits { IfOk result (λ j. IfSome j IsWithinRange) }
    ensures refused { IfErr result (λ _. IsSome (asked_job (map string_bytes words.now))) }
{
    if !words_fit(words) {
        return Ok(None);
    }
    match matches_of(alloc, words) {
        Ok(matches) => Ok(job_found(&matches)),
        Err(error) => Err(want_of_memory(error)),
    }
}
