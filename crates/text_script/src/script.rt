//! Scripts: a version, and a list of commands for each domain.
ghost use Rattle.std.specs.Prelude.{◌≡◌, ◌≢◌, ◌≤◌, ◌<◌, ◌+◌, ◌++◌, ◌∷◌, [], length, map, slice_index_or, sum_by, IfSome, IfNone, IfOk, OnOk};
ghost use Rattle.text_script.specs.Forms.{version_number};
ghost use Rattle.std.specs.List.{list_any};
ghost use Rattle.text_script.specs.Script.{with_command};
ghost use Rattle.text_script.specs.Spawning.{spawns, is_spawned as is_spawned_in};

use crate::version::Version;
use model_core::command::Command;
use std::alloc::{AllocError, Global};
use std::marker::Model;

/// A script: its version, and for each domain of a run the commands of its trace, in order.
#[derive(Drop)]
pub struct Script {
    version: Version,
    sections: Vec<Vec<Command>>,
    commands: u32,
}

// Whether one of these commands spawns section `d`.
fn spawns_in(commands: &[Command], d: u32) -> bool
    ensures { result ≡ list_any (spawns d) commands.now }
{
    commands.iter().any(
        |command| matches!(*command, Command::Spawn { section, .. } if section == d),
    )
}

impl Model for Script {
    ghost use Rattle.std.specs.Prelude.{◌≡◌, List, length, map, sum_by};
    ghost use Rattle.text_script.specs.Script.{Scripted};

    ghost Value = { Scripted };

    ghost view = { λ s. record { version = s.version; sections = map (λ v. v.items) s.sections.items } };

    ghost invariant = { λ s. s.commands ≡ sum_by length (map (λ v. v.items) s.sections.items) };
}

impl Script {
    /// The version of the script: 1 to 3.
    pub fn version(&self) -> u32
        ensures { result ≡ version_number self.now.version }
    {
        self.version.number()
    }

    /// How many sections there are: one for each domain of the run.
    pub fn sections(&self) -> usize
        ensures { result ≡ length self.now.sections }
    {
        self.sections.len()
    }

    /// The commands of domain `i`, in order.
    pub fn section(&self, i: usize) -> &[Command]
        requires { i < length self.now.sections }
        ensures { result.now ≡ slice_index_or self.now.sections i [] }
    {
        self.sections[i].as_slice()
    }

    /// Whether a spawn names section `d`. Such a section waits for its spawn before its first
    /// command, and tells its end.
    pub fn is_spawned(&self, d: u32) -> bool
        ensures { result ≡ is_spawned_in self.now.sections d }
    {
        for at in 0..self.sections() {
            if spawns_in(self.section(at), d) {
                return true;
            }
        }
        false
    }

    /// The commands of each domain, in the order of the domains.
    pub fn into_sections(self) -> Vec<Vec<Command>>
        ensures { map (λ v. v.items) result.items ≡ self.sections }
    {
        self.sections
    }

    // The commands of the only section, if there is just one.
    pub(crate) fn into_only_section(self) -> Option<Vec<Command>>
        ensures one { IfSome result (λ v. self.sections ≡ v.items ∷ []) }
        ensures others { IfNone result (length self.sections ≢ 1) }
    {
        let mut sections = self.sections;
        if sections.len() == 1 {
            sections.pop()
        } else {
            None
        }
    }

    // A script with no section.
    pub(crate) fn new(alloc: Global, version: Version) -> Script
        ensures version { result.version ≡ version }
        ensures sections { result.sections ≡ [] }
    {
        Script {
            version,
            sections: Vec::new(alloc),
            commands: 0,
        }
    }

    // How many commands all sections have.
    pub(crate) fn commands(&self) -> u32
        ensures { result ≡ sum_by length self.now.sections }
    {
        self.commands
    }

    // A further section.
    pub(crate) fn push_section(&mut self, section: Vec<Command>) -> Result<(), AllocError>
        requires room { sum_by length self.old.sections + length section.items ≤ 200000 }
        ensures { OnOk result (self.new ≡ record self.old { sections = self.old.sections ++ section.items ∷ [] }) }
    {
        let commands = section.len() as u32;
        self.sections.push(section)?;
        self.commands += commands;
        Ok(())
    }

    // A further section, which is empty.
    pub(crate) fn open_section(&mut self, alloc: Global) -> Result<(), AllocError>
        ensures { OnOk result (self.new ≡ record self.old { sections = self.old.sections ++ [] ∷ [] }) }
    {
        self.sections.push(Vec::new(alloc))?;
        Ok(())
    }

    // A command at the end of the last section.
    pub(crate) fn push(&mut self, command: Command) -> Result<(), AllocError>
        requires some { 0 < length self.old.sections }
        requires room { sum_by length self.old.sections < 200000 }
        ensures { OnOk result (self.new ≡ record self.old { sections = with_command self.old.sections command }) }
    {
        let last = self.sections.len() - 1;
        self.sections[last].push(command)?;
        self.commands += 1;
        Ok(())
    }
}
