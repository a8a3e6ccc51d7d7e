//! Reading a section alone, and joining sections that were read.
ghost use Rattle.std.specs.Prelude.{◌≡◌, ◌≢◌, ◌≤◌, ◌<◌, ◌∷◌, [], List, length, map, sum_by, Err, IfOk};
ghost use Rattle.model_core.specs.declared.command.Command.{Command as declared_command};
ghost use Rattle.text_script.specs.Sections.{IsSectionText};
ghost use Rattle.text_script.specs.Spelling.{with_empty};

use crate::fault::ScriptFault;
use crate::grammar::Grammar;
use crate::line::MAX_COMMANDS;
use crate::read::{read_on, with_all_sections};
use crate::script::Script;
use crate::spawns::Spawns;
use crate::version::Version;
use model_core::command::Command;
use std::alloc::Global;

/// Why there is no section, or no script of sections.
#[derive(Clone, Copy, Debug, PartialEq, Eq)]
pub enum NoSection {
    /// The lines are those of no section, or there are too many commands.
    Refused,
    /// Memory ran out.
    Memory,
}

// The state behind the heading of a first section.
fn open_first(alloc: Global, version: Version) -> Result<Script, NoSection>
    ensures version { IfOk result (λ s. s.version ≡ version) }
    ensures sections { IfOk result (λ s. s.sections ≡ [] ∷ []) }
    ensures memory { result ≢ Err NoSection.Refused }
{
    let mut script = Script::new(alloc, version);
    match script.open_section(alloc) {
        Ok(()) => Ok(script),
        Err(_) => Err(NoSection::Memory),
    }
}

// Want of memory is no fault of the lines.
fn no_section(fault: ScriptFault) -> NoSection
    ensures refused { result ≡ NoSection.Refused → fault ≢ ScriptFault.Memory }
    ensures memory { result ≡ NoSection.Memory → fault ≡ ScriptFault.Memory }
{
    match fault {
        ScriptFault::Memory => NoSection::Memory,
        _ => NoSection::Refused,
    }
}

/// Reads the lines behind a section's heading, up to the next heading or the end of the text, for a run with so many domains.
/// They are read as those of a script's only section.
pub fn read_section(
    alloc: Global,
    version: Version,
    domains: u32,
    lines: &[u8],
) -> Result<Vec<Command>, NoSection>
    requires some { 1 ≤ domains }
    requires few { length lines.now ≤ 16777216 }
    // What is read has these lines.
    ensures found { IfOk result (λ v. IsSectionText version domains lines.now v.items) }
    // The lines of a section are read, unless memory runs out.
    ensures only { (commands : List declared_command) → result ≡ Err NoSection.Refused
        → IsSectionText version domains lines.now commands → ⊥ }
{
    let grammar = Grammar::new(version, domains);
    let script = open_first(alloc, version)?;
    let mut spawns = Spawns::new();
    spawns.open();
    let script = match read_on(alloc, &grammar, script, spawns, 3, lines) {
        Ok(script) => script,
        Err(fault) => return Err(no_section(fault)),
    };
    match script.into_only_section() {
        Some(section) => Ok(section),
        None => Err(NoSection::Refused),
    }
}

/// The script with these sections, for a run with so many domains: those behind them are empty. It is refused exactly where
/// the sections have more commands than a script may have.
pub fn join_sections(
    alloc: Global,
    version: Version,
    domains: u32,
    sections: Vec<Vec<Command>>,
) -> Result<Script, NoSection>
    ensures version { IfOk result (λ s. s.version ≡ version) }
    ensures joined { IfOk result (λ s. s.sections ≡ with_empty domains (map (λ v. v.items) sections.items)) }
    ensures few { IfOk result (λ s. sum_by length (map (λ v. v.items) sections.items) ≤ 200000) }
    ensures many { result ≡ Err NoSection.Refused → 200000 < sum_by length (map (λ v. v.items) sections.items) }
{
    let mut script = Script::new(alloc, version);
    for section in sections {
        if MAX_COMMANDS as usize - (script.commands() as usize) < section.len() {
            return Err(NoSection::Refused);
        }
        if script.push_section(section).is_err() {
            return Err(NoSection::Memory);
        }
    }
    match with_all_sections(alloc, domains, script) {
        Ok(script) => Ok(script),
        Err(_) => Err(NoSection::Memory),
    }
}
