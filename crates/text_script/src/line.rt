// Reading one line of a section.
ghost use Rattle.std.specs.Prelude.{◌≡◌, ℤ, true, List, ℕ, ◌≤◌, ◌<◌, ◌^◌, length, drop, sum_by, option_map, IfSome, IfOk, IfErr, OnOk};
ghost use Rattle.text_script.specs.declared.version.Version.TheVariants.{One};
ghost use Rattle.text_script.specs.Forms.{is_built};
ghost use Rattle.text_script.specs.Spawning.{place_in};
ghost use Rattle.text_script.specs.Faults.{first_out_of_range as first_out_of_range_of};
ghost use Rattle.text_script.specs.Steps.{heading_said, row_said, line_at, IsFaultOf, IsHeading, Knows, Says, StaysKnown, Takes, TakesCommand};

use crate::fault::ScriptFault;
use crate::form::{Operand, Word};
use crate::grammar::Grammar;
use crate::number::row_at;
use crate::script::Script;
use crate::spawns::Spawns;
use crate::table::{make, operands_of, search_word, text_of};
use crate::text::{first_text, stands_at};
use model_core::command::Command;
use std::alloc::Global;

// The greatest count of commands of a script.
pub(crate) const MAX_COMMANDS: u32 = 200_000;

// The place of the first number outside the range of its operand, counted from 1.
#[inline(always)]
fn first_out_of_range(grammar: &Grammar, kinds: &[Operand], numbers: &[i64]) -> Option<u32>
    requires few { length kinds.now ≤ 4 }
    requires counted { length numbers.now ≡ length kinds.now }
    ensures { result ≡ first_out_of_range_of grammar.now.version grammar.now.domains 1 kinds.now numbers.now }
{
    for (at, kind) in kinds.iter().enumerate() {
        if !grammar.fits(*kind, numbers[at]) {
            return Some(at as u32 + 1);
        }
    }
    None
}

// The number of a heading whose word ends at a place, and where the next line begins.
fn heading_at(bytes: &[u8], at: usize) -> Option<(i64, usize)>
    ensures said { IsHeading (heading_said (drop at bytes.now)) (option_map {U = ℤ × List ℕ} (λ p. (p.0, drop p.1 bytes.now)) result) }
    ensures further { IfSome result (λ p. at < p.1) }
    ensures within { IfSome result (λ p. p.1 ≤ length bytes.now) }
{
    let row = row_at(bytes, at, 1)?;
    Some((row.numbers[0], row.next))
}

// Takes a heading, whose word ends at a place, and answers where the next line begins.
fn take_heading(
    alloc: Global,
    grammar: &Grammar,
    line: u32,
    script: &mut Script,
    spawns: &mut Spawns,
    bytes: &[u8],
    at: usize,
) -> Result<usize, ScriptFault>
    requires domains { grammar.now.domains < 2 ^ 32 }
    requires knows { Knows spawns.old.named spawns.old.own (place_in script.old.sections) }
    ensures ok { IfOk result (Takes grammar.now (heading_said (drop at bytes.now)) bytes.now script.old script.new) }
    ensures further { IfOk result (λ next. at < next) }
    ensures within { IfOk result (λ next. next ≤ length bytes.now) }
    ensures version { OnOk result (script.new.version ≡ script.old.version) }
    ensures knows { OnOk result (Knows spawns.new.named spawns.new.own (place_in script.new.sections)) }
    ensures fault { IfErr result (IsFaultOf grammar.now line script.old (heading_said (drop at bytes.now))) }
{
    let Some((number, next)) = heading_at(bytes, at) else {
        return Err(ScriptFault::Syntax { line });
    };
    if !grammar.is_section(number) {
        return Err(ScriptFault::Range { line, which: 1 });
    }
    if number.unsigned_abs() != script.sections() as u64 {
        return Err(ScriptFault::Order { line });
    }
    if !spawns.may_begin(grammar.version(), script.sections()) {
        return Err(ScriptFault::Spawn { line });
    }
    match script.open_section(alloc) {
        Ok(()) => {
            spawns.open();
            Ok(next)
        }
        Err(_) => Err(ScriptFault::Memory),
    }
}

// The command whose word ends at a place, and where the next line begins. The order of spawns isn't looked at.
fn command_at(
    grammar: &Grammar,
    line: u32,
    script: &Script,
    word: Word,
    bytes: &[u8],
    at: usize,
) -> Result<(Command, usize), ScriptFault>
    ensures says { IfOk result (λ p. Says grammar.now.version grammar.now.domains (row_said word (drop at bytes.now)) (drop p.1 bytes.now) script.now.sections word p.0) }
    ensures further { IfOk result (λ p. at < p.1) }
    ensures within { IfOk result (λ p. p.1 ≤ length bytes.now) }
    ensures fault { IfErr result (IsFaultOf grammar.now line script.now (row_said word (drop at bytes.now))) }
{
    let operands = operands_of(word);
    let Some(row) = row_at(bytes, at, operands.len()) else {
        return Err(ScriptFault::Syntax { line });
    };
    if script.sections() == 0 {
        return Err(ScriptFault::Order { line });
    }
    if MAX_COMMANDS <= script.commands() {
        return Err(ScriptFault::TooMany { line });
    }
    match first_out_of_range(grammar, operands, &row.numbers[..operands.len()]) {
        Some(which) => Err(ScriptFault::Range { line, which }),
        None => Ok((make(word, &row.numbers), row.next)),
    }
}

// Takes a command, whose word ends at a place, and answers where the next line begins.
fn take_command(
    grammar: &Grammar,
    line: u32,
    script: &mut Script,
    spawns: &mut Spawns,
    word: Word,
    bytes: &[u8],
    at: usize,
) -> Result<usize, ScriptFault>
    requires knows { Knows spawns.old.named spawns.old.own (place_in script.old.sections) }
    ensures ok { IfOk result (Takes grammar.now (row_said word (drop at bytes.now)) bytes.now script.old script.new) }
    ensures further { IfOk result (λ next. at < next) }
    ensures within { IfOk result (λ next. next ≤ length bytes.now) }
    ensures version { OnOk result (script.new.version ≡ script.old.version) }
    ensures knows { OnOk result (Knows spawns.new.named spawns.new.own (place_in script.new.sections)) }
    ensures fault { IfErr result (IsFaultOf grammar.now line script.old (row_said word (drop at bytes.now))) }
{
    let (command, next) = match command_at(grammar, line, script, word, bytes, at) {
        Ok(found) => found,
        Err(fault) => return Err(fault),
    };
    if !spawns.may_follow(grammar.version(), script.sections(), command) {
        return Err(ScriptFault::Spawn { line });
    }
    spawns.call(command);
    match script.push(command) {
        Ok(()) => Ok(next),
        Err(_) => Err(ScriptFault::Memory),
    }
}

// Takes the line that begins at a place, whichever word it has, or tells its fault.
#[inline(never)]
fn take_other(
    alloc: Global,
    grammar: &Grammar,
    line: u32,
    script: &mut Script,
    spawns: &mut Spawns,
    bytes: &[u8],
    at: usize,
) -> Result<usize, ScriptFault>
    requires within { at ≤ length bytes.now }
    requires domains { grammar.now.domains < 2 ^ 32 }
    requires knows { Knows spawns.old.named spawns.old.own (place_in script.old.sections) }
    ensures ok { IfOk result (Takes grammar.now (line_at grammar.now bytes.now at) bytes.now script.old script.new) }
    ensures further { IfOk result (λ next. at < next) }
    ensures within { IfOk result (λ next. next ≤ length bytes.now) }
    ensures version { OnOk result (script.new.version ≡ script.old.version) }
    ensures knows { OnOk result (Knows spawns.new.named spawns.new.own (place_in script.new.sections)) }
    ensures fault { IfErr result (IsFaultOf grammar.now line script.old (line_at grammar.now bytes.now at)) }
{
    let text = first_text(&bytes[at..]);
    let end = at + text.len();
    if text == b"domain".as_slice() {
        return take_heading(alloc, grammar, line, script, spawns, bytes, end);
    }
    match search_word(grammar.version(), text) {
        Some(word) => take_command(grammar, line, script, spawns, word, bytes, end),
        None => Err(ScriptFault::Syntax { line }),
    }
}

// The command of the line that begins at a place, and where the next line begins, if the line is one of this row and
// nothing is wrong with it. The word is one of the first version.
#[inline(always)]
fn row_command(
    grammar: &Grammar,
    script: &Script,
    word: Word,
    bytes: &[u8],
    at: usize,
) -> Option<(Command, usize)>
    requires within { at ≤ length bytes.now }
    requires first { is_built One word ≡ true }
    requires begun { 0 < length script.now.sections }
    requires room { sum_by length script.now.sections < 200000 }
    ensures takes { IfSome result (TakesCommand grammar.now (line_at grammar.now bytes.now at) bytes.now script.now) }
    ensures further { IfSome result (λ p. at < p.1) }
    ensures within { IfSome result (λ p. p.1 ≤ length bytes.now) }
    ensures knows { StaysKnown script.now.sections result }
{
    let text = text_of(word);
    if !stands_at(bytes, at, text) {
        return None;
    }
    let operands = operands_of(word);
    let row = row_at(bytes, at + text.len(), operands.len())?;
    match first_out_of_range(grammar, operands, &row.numbers[..operands.len()]) {
        Some(_) => None,
        None => Some((make(word, &row.numbers), row.next)),
    }
}

// What `row_command` finds for the first of some words for which it finds anything.
macro_rules! first_command {
    ($grammar:expr, $script:expr, $bytes:expr, $at:expr; $word:ident) => {
        row_command($grammar, $script, Word::$word, $bytes, $at)
    };
    ($grammar:expr, $script:expr, $bytes:expr, $at:expr; $word:ident, $($others:ident),+) => {
        match row_command($grammar, $script, Word::$word, $bytes, $at) {
            Some(found) => Some(found),
            None => first_command!($grammar, $script, $bytes, $at; $($others),+),
        }
    };
}

// The command of the line that begins at a place, and where the next line begins, if its word is a common one and nothing
// is wrong with it. Each word has its own part here, so that the compiler knows its row.
#[inline(always)]
fn common_command(
    grammar: &Grammar,
    script: &Script,
    bytes: &[u8],
    at: usize,
) -> Option<(Command, usize)>
    requires within { at ≤ length bytes.now }
    ensures takes { IfSome result (TakesCommand grammar.now (line_at grammar.now bytes.now at) bytes.now script.now) }
    ensures further { IfSome result (λ p. at < p.1) }
    ensures within { IfSome result (λ p. p.1 ≤ length bytes.now) }
    ensures begun { IfSome result (λ p. 0 < length script.now.sections) }
    ensures room { IfSome result (λ p. sum_by length script.now.sections < 200000) }
    ensures knows { StaysKnown script.now.sections result }
{
    if bytes.len() <= at || script.sections() == 0 || MAX_COMMANDS <= script.commands() {
        return None;
    }
    match bytes[at] {
        b'a' => first_command!(grammar, script, bytes, at; Alloc, AllocMaj),
        b'c' => first_command!(grammar, script, bytes, at; CheckKey, CheckData),
        b'd' => first_command!(grammar, script, bytes, at; Drop),
        b'g' => first_command!(grammar, script, bytes, at; GetKey, GetData),
        b'i' => first_command!(grammar, script, bytes, at; Int),
        b'l' => first_command!(grammar, script, bytes, at; Load),
        b'm' => first_command!(grammar, script, bytes, at; Move),
        b'p' => first_command!(grammar, script, bytes, at; Poll),
        b's' => first_command!(grammar, script, bytes, at; Store, SetKey, SetData),
        _ => None,
    }
}

// The same, if its word is one of the other words of the first version.
#[inline(always)]
fn rare_command(
    grammar: &Grammar,
    script: &Script,
    bytes: &[u8],
    at: usize,
) -> Option<(Command, usize)>
    requires within { at ≤ length bytes.now }
    ensures takes { IfSome result (TakesCommand grammar.now (line_at grammar.now bytes.now at) bytes.now script.now) }
    ensures further { IfSome result (λ p. at < p.1) }
    ensures within { IfSome result (λ p. p.1 ≤ length bytes.now) }
    ensures begun { IfSome result (λ p. 0 < length script.now.sections) }
    ensures room { IfSome result (λ p. sum_by length script.now.sections < 200000) }
    ensures knows { StaysKnown script.now.sections result }
{
    if bytes.len() <= at || script.sections() == 0 || MAX_COMMANDS <= script.commands() {
        return None;
    }
    match bytes[at] {
        b'e' => first_command!(grammar, script, bytes, at; Ephe),
        b'f' => first_command!(grammar, script, bytes, at; Finalise, FinaliseLast, FullMajor),
        b'm' => first_command!(grammar, script, bytes, at; Minor, Major),
        b'u' => first_command!(grammar, script, bytes, at; UnsetKey, UnsetData),
        _ => None,
    }
}

// The same of a line whose word isn't a common one.
#[inline(never)]
fn take_rare(
    alloc: Global,
    grammar: &Grammar,
    line: u32,
    script: &mut Script,
    spawns: &mut Spawns,
    bytes: &[u8],
    at: usize,
) -> Result<usize, ScriptFault>
    requires within { at ≤ length bytes.now }
    requires domains { grammar.now.domains < 2 ^ 32 }
    requires knows { Knows spawns.old.named spawns.old.own (place_in script.old.sections) }
    ensures ok { IfOk result (Takes grammar.now (line_at grammar.now bytes.now at) bytes.now script.old script.new) }
    ensures further { IfOk result (λ next. at < next) }
    ensures within { IfOk result (λ next. next ≤ length bytes.now) }
    ensures version { OnOk result (script.new.version ≡ script.old.version) }
    ensures knows { OnOk result (Knows spawns.new.named spawns.new.own (place_in script.new.sections)) }
    ensures fault { IfErr result (IsFaultOf grammar.now line script.old (line_at grammar.now bytes.now at)) }
{
    match rare_command(grammar, script, bytes, at) {
        Some((command, next)) => match script.push(command) {
            Ok(()) => Ok(next),
            Err(_) => Err(ScriptFault::Memory),
        },
        None => take_other(alloc, grammar, line, script, spawns, bytes, at),
    }
}

// Takes the line below the first that begins at a place, and answers where the next line begins.
#[inline(always)]
pub(crate) fn take_line(
    alloc: Global,
    grammar: &Grammar,
    line: u32,
    script: &mut Script,
    spawns: &mut Spawns,
    bytes: &[u8],
    at: usize,
) -> Result<usize, ScriptFault>
    requires within { at ≤ length bytes.now }
    requires domains { grammar.now.domains < 2 ^ 32 }
    requires knows { Knows spawns.old.named spawns.old.own (place_in script.old.sections) }
    ensures ok { IfOk result (Takes grammar.now (line_at grammar.now bytes.now at) bytes.now script.old script.new) }
    ensures further { IfOk result (λ next. at < next) }
    ensures within { IfOk result (λ next. next ≤ length bytes.now) }
    ensures version { OnOk result (script.new.version ≡ script.old.version) }
    ensures knows { OnOk result (Knows spawns.new.named spawns.new.own (place_in script.new.sections)) }
    ensures fault { IfErr result (IsFaultOf grammar.now line script.old (line_at grammar.now bytes.now at)) }
{
    match common_command(grammar, script, bytes, at) {
        Some((command, next)) => match script.push(command) {
            Ok(()) => Ok(next),
            Err(_) => Err(ScriptFault::Memory),
        },
        None => take_rare(alloc, grammar, line, script, spawns, bytes, at),
    }
}
