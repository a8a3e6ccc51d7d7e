//! A run under a schedule, entry by entry.
ghost use Rattle.std.specs.Prelude.{◌≡◌, ◌∷◌, [], ◌<◌, ◌^◌, IfOk, OnOk, length, replicate, slice_set};
ghost use Rattle.model_core.specs.Domains.{IsWithinLimits, domain_at, queues};
ghost use Rattle.model_core.specs.Entries.{Allowed};
ghost use Rattle.model_core.specs.History.{LegalFrom};
ghost use Rattle.model_traces.specs.Schedules.Scheduled.{all_lasts as lasts_in, all_queued as queued_in, all_wiped as wiped_in, begun, behind, complete, left_of, next_entries, with_entries, with_next};

use crate::SlowHeap;
use crate::scheduled::keys::all_wiped;
use crate::scheduled::lasts::all_lasts;
use crate::scheduled::queues::all_queued;
use model_core::command::Command;
use model_core::entry::Entry;
use model_core::reply::ApplyFault;
use model_core::state::{Sizes, State};
use std::alloc::{AllocError, Global};
use std::marker::Model;
use text_script::Script;

/// How far a run has come: the heap, the commands of each domain that are left, and the history.
#[derive(Drop)]
pub(crate) struct Run<'a> {
    heap: SlowHeap,
    left: Vec<&'a [Command]>,
    history: Vec<Entry>,
}

impl<'a> Model for Run<'a> {
    ghost use Rattle.std.specs.Prelude.{map};
    ghost use Rattle.model_traces.specs.Schedules.Scheduled.{Played};

    ghost Value = { Played };

    ghost view = { λ r. record { state = r.heap; left = map (λ s. s.now) r.left.items; history = r.history.items } };
}

impl<'a> Run<'a> {
    /// The start: all commands are left.
    pub(crate) fn begin(
        alloc: Global,
        sizes: &Sizes,
        script: &'a Script,
    ) -> Result<Run<'a>, AllocError>
        requires { IsWithinLimits sizes.now }
        ensures { IfOk result (λ r. r ≡ begun sizes.now script.now.sections) }
    {
        let heap = SlowHeap::of_sizes(alloc, sizes)?;
        let mut left = Vec::new(alloc);
        'sections: for d in 0..script.sections() {
            left.push(script.section(d))?;
        }
        Ok(Run {
            heap,
            left,
            history: Vec::new(alloc),
        })
    }

    /// The state that the entries so far leave.
    pub(crate) fn state(&self) -> &State
        ensures { result.now ≡ self.now.state }
    {
        self.heap.state()
    }

    /// The history.
    pub(crate) fn into_history(self) -> Vec<Entry>
        ensures { result.items ≡ self.entry.history }
    {
        self.history
    }

    // Makes an entry.
    fn make(&mut self, entry: Entry) -> Result<(), AllocError>
        requires { Allowed self.old.state entry }
        ensures { OnOk result (self.new ≡ with_entries self.old (entry ∷ [])) }
    {
        // A domain with more blocks than 32 bits count would fill more than all memory.
        if !self.heap.is_in_range(&entry) {
            return Err(AllocError);
        }
        match self.heap.apply(&entry) {
            Ok(_) => {}
            Err(ApplyFault::NotLegal) => unreachable!(),
            Err(ApplyFault::Memory) => return Err(AllocError),
        }
        self.history.push(entry)?;
        Ok(())
    }

    // Makes entries, one behind the other.
    #[tactic(auto, using(crate::proofs::OfScheduled::EntryLemmas::first_allowed, crate::proofs::OfScheduled::EntryLemmas::rest_made))]
    fn make_all(&mut self, entries: Vec<Entry>) -> Result<(), AllocError>
        requires { LegalFrom self.old.state entries.items }
        ensures { OnOk result (self.new ≡ with_entries self.old entries.items) }
    {
        let mut rest = entries;
        'entries: while !rest.is_empty() {
            let entry = rest.remove(0);
            self.make(entry)?;
        }
        Ok(())
    }

    // Queues all that may be queued of `finalise`.
    fn queue_finals(&mut self, alloc: Global) -> Result<(), AllocError>
        requires cut { self.old.state.cut ≡ queues self.old.state }
        requires legal { LegalFrom self.old.state (queued_in self.old.state) }
        ensures { OnOk result (self.new ≡ with_entries self.old (queued_in self.old.state)) }
    {
        let entries = all_queued(alloc, &self.heap)?;
        self.make_all(entries)
    }

    // Empties all keys that may be emptied.
    fn empty_keys(&mut self, alloc: Global) -> Result<(), AllocError>
        requires { LegalFrom self.old.state (wiped_in self.old.state) }
        ensures { OnOk result (self.new ≡ with_entries self.old (wiped_in self.old.state)) }
    {
        let entries = all_wiped(alloc, &self.heap)?;
        self.make_all(entries)
    }

    // Queues all that may be queued of `finalise_last`.
    fn queue_lasts(&mut self, alloc: Global) -> Result<(), AllocError>
        requires { LegalFrom self.old.state (lasts_in self.old.state) }
        ensures { OnOk result (self.new ≡ with_entries self.old (lasts_in self.old.state)) }
    {
        let entries = all_lasts(alloc, &self.heap)?;
        self.make_all(entries)
    }

    /// Makes a complete collection, in which these entries stand where it is answered.
    #[tactic(auto, using(crate::proofs::OfScheduled::EntryLemmas::stages, crate::proofs::OfScheduled::EntryLemmas::cut_queues, crate::proofs::OfScheduled::EntryLemmas::all_parts))]
    pub(crate) fn collect(&mut self, alloc: Global, answered: Vec<Entry>) -> Result<(), AllocError>
        requires { LegalFrom self.old.state (complete self.old.state answered.items) }
        ensures { OnOk result (self.new ≡ with_entries self.old (complete self.old.state answered.items)) }
    {
        self.make(Entry::Cut)?;
        self.queue_finals(alloc)?;
        self.make(Entry::Seal)?;
        self.empty_keys(alloc)?;
        self.queue_lasts(alloc)?;
        self.make(Entry::Collected)?;
        self.make_all(answered)?;
        self.make(Entry::Done)
    }

    /// Runs so many finalisers of a domain.
    pub(crate) fn run_finalisers(
        &mut self,
        alloc: Global,
        domain: u32,
        count: usize,
    ) -> Result<(), AllocError>
        requires { LegalFrom self.old.state (replicate count (Entry.Ran domain)) }
        ensures { OnOk result (self.new ≡ with_entries self.old (replicate count (Entry.Ran domain))) }
    {
        let mut entries = Vec::new(alloc);
        'runs: for _run in 0..count {
            entries.push(Entry::Ran { domain })?;
        }
        self.make_all(entries)
    }

    // Makes a command, with a complete collection round `full_major`.
    #[tactic(auto, using(crate::proofs::OfScheduled::EntryLemmas::next_alone))]
    fn make_command(
        &mut self,
        alloc: Global,
        domain: u32,
        command: Command,
    ) -> Result<(), AllocError>
        requires { LegalFrom self.old.state (next_entries self.old.state domain (command ∷ [])) }
        ensures { OnOk result (self.new ≡ with_entries self.old (next_entries self.old.state domain (command ∷ []))) }
    {
        let is_major = matches!(command, Command::FullMajor);
        let entry = Entry::Command {
            domain,
            command,
            full: false,
        };
        if !is_major {
            return self.make(entry);
        }
        let mut answered = Vec::new(alloc);
        answered.push(entry)?;
        self.collect(alloc, answered)
    }

    // The commands of a domain that are left.
    fn left_at(&self, domain: u32) -> &'a [Command]
        requires { domain < length self.now.left }
        ensures { result.now ≡ left_of self.now domain }
    {
        self.left[domain as usize]
    }

    // These commands of a domain are left.
    #[tactic(auto, using(crate::proofs::OfScheduled::ListLemmas::map_set))]
    fn set_left(&mut self, domain: u32, rest: &'a [Command])
        requires { domain < length self.old.left }
        ensures { self.new ≡ record self.old { left = slice_set self.old.left domain rest.now } }
    {
        self.left[domain as usize] = rest;
    }

    /// A domain makes its next command, or its end where none is left.
    #[tactic(auto, using(crate::proofs::OfScheduled::EntryLemmas::next_alone))]
    pub(crate) fn make_next(&mut self, alloc: Global, domain: u32) -> Result<(), AllocError>
        requires inside { domain < length self.old.left }
        requires legal { LegalFrom self.old.state (next_entries self.old.state domain (left_of self.old domain)) }
        ensures { OnOk result (self.new ≡ with_next self.old domain) }
    {
        let left = self.left_at(domain);
        let Some((command, rest)) = left.split_first() else {
            return self.make(Entry::End { domain });
        };
        self.set_left(domain, rest);
        self.make_command(alloc, domain, *command)?;
        Ok(())
    }
}
