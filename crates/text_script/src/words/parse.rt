//! The words of the command line as `clap` reads them.
ghost use Rattle.std.specs.Prelude.{◌≡◌, false, true, IfOk, IfErr, map, string_bytes, option_and_then};
ghost use Rattle.clap.specs.Words.{app_of, found_of, kind_of, rows_of, rule_of, subcommand_rows_of, takes, with_rule, HasMatchesOf};
ghost use Rattle.clap.specs.declared.builder.command.Command.TheViews.{out-Command};
ghost use Rattle.clap.specs.declared.error.kind.ErrorKind.TheVariants.{OutOfMemory};
ghost use Rattle.text_script.specs.Words.Commands.{camlheap_app, given_in, job_at, number_in, number_rule, option_rule, options_app, script_app, script_in};

use crate::words::job::{Generated, Job, RUN_DOMAINS, TABLE_DOMAINS};
use crate::words::number::number;
use crate::words::options::{Given, sizes};
use clap::{Arg, ArgMatches, Command, Error};
use std::alloc::{AllocError, Global};

// An option with a long name.
fn option_arg<'a>(alloc: Global, name: &'a str) -> Arg<'a>
    ensures rule { rule_of result ≡ option_rule name.entry.now }
    ensures local { result.global ≡ false }
{
    Arg::new(alloc, name).long(name)
}

// The command with one more option.
fn with_option<'a>(
    alloc: Global,
    command: Command<'a>,
    name: &'a str,
) -> Result<Command<'a>, AllocError>
    ensures shape { IfOk result (λ c. app_of c ≡ with_rule (app_of command.entry) (option_rule name.entry.now)) }
    ensures local { IfOk result (λ c. (out-Command c).has_globals ≡ (out-Command command.entry).has_globals) }
{
    command.arg(option_arg(alloc, name))
}

// A command with the options of `run`.
fn options_command<'a>(alloc: Global, name: &'a str) -> Result<Command<'a>, AllocError>
    ensures shape { IfOk result (λ c. app_of c ≡ options_app name.entry.now) }
    ensures local { IfOk result (λ c. (out-Command c).has_globals ≡ false) }
{
    let named = Command::new(alloc, name);
    let one = with_option(alloc, named, "domains")?;
    let two = with_option(alloc, one, "minor")?;
    let three = with_option(alloc, two, "pools")?;
    Ok(three)
}

// A number that stands at its place.
fn number_arg<'a>(alloc: Global, name: &'a str) -> Arg<'a>
    ensures rule { rule_of result ≡ number_rule name.entry.now }
    ensures local { result.global ≡ false }
{
    Arg::new(alloc, name).required(true)
}

// The command with one more number that stands at its place.
fn with_number<'a>(
    alloc: Global,
    command: Command<'a>,
    name: &'a str,
) -> Result<Command<'a>, AllocError>
    ensures shape { IfOk result (λ c. app_of c ≡ with_rule (app_of command.entry) (number_rule name.entry.now)) }
    ensures local { IfOk result (λ c. (out-Command c).has_globals ≡ (out-Command command.entry).has_globals) }
{
    command.arg(number_arg(alloc, name))
}

// A command with the three numbers of a script.
fn script_command<'a>(alloc: Global, name: &'a str) -> Result<Command<'a>, AllocError>
    ensures shape { IfOk result (λ c. app_of c ≡ script_app name.entry.now) }
    ensures local { IfOk result (λ c. (out-Command c).has_globals ≡ false) }
{
    let named = Command::new(alloc, name);
    let one = with_number(alloc, named, "base")?;
    let two = with_number(alloc, one, "domains")?;
    let three = with_number(alloc, two, "commands")?;
    Ok(three)
}

// The program's command, of which the words behind the program's name are parsed.
fn camlheap_command<'a>(alloc: Global) -> Result<Command<'a>, AllocError>
    ensures { IfOk result (λ c. app_of c ≡ camlheap_app) }
{
    let run = options_command(alloc, "run")?;
    let replay = options_command(alloc, "replay")?;
    let table = options_command(alloc, "table")?;
    let generate = script_command(alloc, "gen")?;
    let load = script_command(alloc, "load")?;
    let named = Command::new(alloc, "camlheap").no_binary_name(true);
    let without_flag = named.disable_help_flag(true);
    let plain = without_flag.disable_help_subcommand(true);
    let asking = plain.subcommand_required(true);
    let one = asking.subcommand(run)?;
    let two = one.subcommand(replay)?;
    let three = two.subcommand(table)?;
    let four = three.subcommand(generate)?;
    let five = four.subcommand(load)?;
    Ok(five)
}

// The matches of the words. Words that the command takes fail for want of memory alone.
pub(crate) fn matches_of<'a>(alloc: Global, words: &'a [String]) -> Result<ArgMatches<'a>, Error>
    ensures matches { IfOk result (HasMatchesOf camlheap_app (map string_bytes words.entry.now)) }
    ensures memory { IfErr result (λ e. takes camlheap_app (map string_bytes words.entry.now) ≡ true → kind_of e ≡ OutOfMemory) }
{
    let command = camlheap_command(alloc)?;
    command.try_get_matches_from(words)
}

// An error that is want of memory.
pub(crate) fn want_of_memory(_error: Error) -> AllocError
    requires { kind_of _error ≡ OutOfMemory }
{
    AllocError
}

// The number under a name.
fn number_found(matches: &ArgMatches<'_>, name: &str) -> Option<u32>
    ensures { result ≡ number_in (rows_of (found_of matches.now)) name.now }
{
    number(matches.get_str(name)?)
}

// The numbers of all options.
fn given_found(matches: &ArgMatches<'_>) -> Given
    ensures { result ≡ given_in (rows_of (found_of matches.now)) }
{
    Given {
        domains: number_found(matches, "domains"),
        minor: number_found(matches, "minor"),
        pools: number_found(matches, "pools"),
    }
}

// The three numbers of a script.
fn script_found(matches: &ArgMatches<'_>) -> Option<Generated>
    ensures { result ≡ script_in (rows_of (found_of matches.now)) }
{
    Some(Generated {
        base: number_found(matches, "base")?,
        domains: number_found(matches, "domains")?,
        commands: number_found(matches, "commands")?,
    })
}

// What the command `name` is asked for, by its matches.
fn job_in(name: &str, matches: &ArgMatches<'_>) -> Option<Job>
    ensures { result ≡ job_at (name.now, rows_of (found_of matches.now)) }
{
    match name {
        "run" => Some(Job::Run(sizes(given_found(matches), RUN_DOMAINS))),
        "replay" => Some(Job::Replay(sizes(given_found(matches), RUN_DOMAINS))),
        "table" => Some(Job::Table(sizes(given_found(matches), TABLE_DOMAINS))),
        "gen" => Some(Job::Gen(script_found(matches)?)),
        "load" => Some(Job::Load(script_found(matches)?)),
        _ => None,
    }
}

// What the command that a parse entered is asked for.
pub(crate) fn job_found(matches: &ArgMatches<'_>) -> Option<Job>
    ensures { result ≡ option_and_then job_at (subcommand_rows_of matches.now) }
{
    let (name, entered) = matches.subcommand()?;
    job_in(name, entered)
}
