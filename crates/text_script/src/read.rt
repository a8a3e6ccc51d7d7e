//! Reading a script.
ghost use Rattle.std.specs.Prelude.{◌≡◌, ◌≤◌, ◌<◌, ◌^◌, ◌+◌, ◌++◌, ◌∷◌, [], ◌==◌, ℕ, List, length, Some, Ok, Err, IfOk, IfErr};
ghost use Rattle.std.specs.List.{slice_split};
ghost use Rattle.model_core.specs.Output.{line as line_text};
ghost use Rattle.text_script.specs.declared.fault.ScriptFault as declared_fault;
ghost use Rattle.text_script.specs.Forms.{first_line};
ghost use Rattle.text_script.specs.Script.{Scripted};
ghost use Rattle.text_script.specs.Spelling.{script_lines, spelling, with_empty, Spells, IsUnlessMemory, IsWritten};
ghost use Rattle.text_script.specs.Spawning.{place_in};
ghost use Rattle.text_script.specs.Steps.{Knows};
ghost use Rattle.text_script.specs.Faults.{fault_from, first_fault, version_of as version_of_line, read_version as read_version_of, IsFaultUnlessMemory};

use crate::fault::ScriptFault;
use crate::grammar::Grammar;
use crate::line::take_line;
use crate::script::Script;
use crate::spawns::Spawns;
use crate::split::split_once;
use crate::version::Version;
use std::alloc::Global;

/// The greatest count of bytes of a script.
const MAX_BYTES: usize = 16_777_216;

// Reads on behind sections that were read, the next line of which has this number.
#[inline(never)]
pub(crate) fn read_on(
    alloc: Global,
    grammar: &Grammar,
    mut script: Script,
    mut spawns: Spawns,
    mut line: u32,
    behind: &[u8],
) -> Result<Script, ScriptFault>
    requires few { length behind.now ≤ 16777216 }
    requires domains { grammar.now.domains < 2 ^ 32 }
    requires version { script.version ≡ grammar.now.version }
    requires written { IsWritten grammar.now.version grammar.now.domains script.sections }
    requires number { line ≡ length (script_lines grammar.now.version script.sections) + 1 }
    requires near { line ≤ 3 }
    requires knows { Knows spawns.named spawns.own (place_in script.sections) }
    ensures version { IfOk result (λ s. s.version ≡ grammar.now.version) }
    ensures written { IfOk result (λ s. IsWritten grammar.now.version grammar.now.domains s.sections) }
    ensures found { IfOk result (λ s. spelling grammar.now.version script.sections ++ behind.now ≡ spelling grammar.now.version s.sections) }
    ensures fault { (whole : List ℕ) → line_text (first_line grammar.now.version) ++ whole ≡ spelling grammar.now.version script.sections ++ behind.now
        → IfErr result (λ e. IsFaultUnlessMemory e (fault_from grammar.now.version grammar.now.domains (first_line grammar.now.version ∷ []) (slice_split (λ b. b == 10) whole))) }
{
    let mut at = 0;
    'lines: while at < behind.len() {
        match take_line(alloc, grammar, line, &mut script, &mut spawns, behind, at) {
            Ok(next) => at = next,
            Err(fault) => return Err(fault),
        }
        line += 1;
    }
    Ok(script)
}

// The sections that stand behind the first line.
fn read_sections(alloc: Global, grammar: &Grammar, behind: &[u8]) -> Result<Script, ScriptFault>
    requires few { length behind.now ≤ 16777216 }
    requires domains { grammar.now.domains < 2 ^ 32 }
    ensures version { IfOk result (λ s. s.version ≡ grammar.now.version) }
    ensures written { IfOk result (λ s. IsWritten grammar.now.version grammar.now.domains s.sections) }
    ensures found { IfOk result (λ s. line_text (first_line grammar.now.version) ++ behind.now ≡ spelling grammar.now.version s.sections) }
    ensures fault { IfErr result (λ e. IsFaultUnlessMemory e
        (fault_from grammar.now.version grammar.now.domains (first_line grammar.now.version ∷ []) (slice_split (λ b. b == 10) behind.now))) }
{
    let script = Script::new(alloc, grammar.version());
    read_on(alloc, grammar, script, Spawns::new(), 2, behind)
}

// A script with an empty section for each further domain.
pub(crate) fn with_all_sections(
    alloc: Global,
    domains: u32,
    mut script: Script,
) -> Result<Script, ScriptFault>
    ensures ok { IfOk result (λ s. s ≡ record script { sections = with_empty domains script.sections }) }
    ensures err { IfErr result (λ e. e ≡ ScriptFault.Memory) }
{
    for _ in script.sections()..domains as usize {
        if script.open_section(alloc).is_err() {
            return Err(ScriptFault::Memory);
        }
    }
    Ok(script)
}

// The version that a first line names, if it does.
fn version_of(line: &[u8]) -> Option<Version>
    ensures { result ≡ version_of_line line.now }
{
    if line == Version::One.first_line() {
        Some(Version::One)
    } else if line == Version::Two.first_line() {
        Some(Version::Two)
    } else if line == Version::Three.first_line() {
        Some(Version::Three)
    } else {
        None
    }
}

// The same, unless it is newer than the newest that is read.
fn read_version(newest: Version, line: &[u8]) -> Option<Version>
    ensures { result ≡ read_version_of newest line.now }
{
    let version = version_of(line)?;
    if version.number() <= newest.number() {
        Some(version)
    } else {
        None
    }
}

// A script of at most the greatest count of bytes.
fn read_lines(
    alloc: Global,
    newest: Version,
    domains: u32,
    bytes: &[u8],
) -> Result<Script, ScriptFault>
    requires { length bytes.now ≤ 16777216 }
    ensures found { IfOk result (λ s. Spells newest domains s bytes.now) }
    ensures fault { IfErr result (λ e. IsFaultUnlessMemory e (first_fault newest domains bytes.now)) }
{
    let Some((first, behind)) = split_once(bytes, b'\n') else {
        return Err(ScriptFault::Syntax { line: 1 });
    };
    let Some(version) = read_version(newest, first) else {
        return Err(ScriptFault::Syntax { line: 1 });
    };
    let grammar = Grammar::new(version, domains);
    match read_sections(alloc, &grammar, behind) {
        Ok(script) => with_all_sections(alloc, domains, script),
        Err(fault) => Err(fault),
    }
}

// A script, or its first fault.
fn script_or_fault(
    alloc: Global,
    newest: Version,
    domains: u32,
    bytes: &[u8],
) -> Result<Script, ScriptFault>
    ensures found { IfOk result (λ s. Spells newest domains s bytes.now) }
    ensures fault { IfErr result (λ e. IsFaultUnlessMemory e (first_fault newest domains bytes.now)) }
{
    if MAX_BYTES < bytes.len() {
        Err(ScriptFault::TooLong {
            bytes: bytes.len() as u64,
        })
    } else {
        read_lines(alloc, newest, domains, bytes)
    }
}

/// Reads a script of a version up to the newest, for a run with so many domains. The script has a
/// section for each of them, and those that aren't written are empty.
///
/// A first line that names a newer version is refused as one that names none.
///
/// A script that is refused is told by its first fault. Only want of memory comes without a cause
/// in the bytes.
pub fn read_script(
    alloc: Global,
    newest: Version,
    domains: u32,
    bytes: &[u8],
) -> Result<Script, ScriptFault>
    // What is read is spelled so.
    ensures found { IfOk result (λ s. Spells newest domains s bytes.now) }
    // What is spelled so is read, unless memory runs out.
    ensures only { (s : Scripted) → Spells newest domains s bytes.now → IsUnlessMemory result (Ok s) }
    // A fault is the first one of the bytes, unless memory ran out.
    ensures fault { IfErr result (λ e. IsFaultUnlessMemory e (first_fault newest domains bytes.now)) }
    // The first fault of the bytes is answered, unless memory runs out.
    ensures refused { (e : declared_fault.ScriptFault) → first_fault newest domains bytes.now ≡ Some e
        → IsUnlessMemory result (Err e) }
{
    script_or_fault(alloc, newest, domains, bytes)
}
