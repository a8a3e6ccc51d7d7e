//! What the calls need of a session.
ghost use Rattle.std.specs.Prelude.{◌≡◌, ◌+◌, ◌<◌, ◌≤◌, ℕ, List, []};
ghost use Rattle.model_core.specs.declared.entry.Entry.{Entry};
ghost use Rattle.model_core.specs.declared.state.Sizes.{Sizes};
ghost use Rattle.model_core.specs.Domains.{IsWithinLimits, domain_at, opening};
ghost use Rattle.model_core.specs.History.{Legal};
ghost use Rattle.model_core.specs.Commands.{shown};
ghost use Rattle.model_core.specs.Registrations.{all_registered};
ghost use Rattle.weak_laws.specs.Tables.Thinning.{state_of};
ghost use Rattle.weak_laws.specs.Tables.Performing.{Performed, refusals, full_of, is_spared, writes, writings};
ghost use Rattle.weak_laws.specs.Tables.Stages.{held_in};
ghost use Rattle.model_core.specs.Counts.Counts.{labels_of, labels_given, ephemerons_of, ephemerons_given};
ghost use Rattle.model_core.specs.declared.command.Command.TheVariants as command;
ghost use Rattle.weak_tables.specs.Commands.{IsCallCommand};
ghost use Rattle.weak_tables.specs.Frames.{Keeps, Passes};

use model_core::command::Command;
use model_core::reply::Reply;
use std::sync::Wait;

/// The registers that calls use between: one for an ephemeron, one for the node of a cell, and one for what is only
/// looked at.
pub(crate) const EPHE: u8 = 8;

pub(crate) const CELL: u8 = 9;

pub(crate) const LOOKED: u8 = 10;

/// The fields of a cell's node: its ephemeron, and the next cell.
pub(crate) const OWN: u16 = 0;

pub(crate) const NEXT: u16 = 1;

/// The one domain of a heap, whose commands are handed in one by one.
pub trait Machine {
    /// The numbers of the heap.
    ghost sizes: { Self → Sizes };

    /// The history so far.
    ghost front: { Self → List Entry };

    /// How many labels are left to give out.
    ghost labels_left: { Self → ℕ };

    /// How many ephemerons fit into the domain's list.
    ghost ephes_room: { Self → ℕ };

    /// Nothing changes. There is one domain, the numbers are within their limits, the history is legal and registers no
    /// finaliser, and each label was given out or is left.
    fn shows_legal(&self)
        ensures alone { (sizes self.now).domains ≡ 1 }
        ensures limits { IsWithinLimits (sizes self.now) }
        ensures legal { Legal (sizes self.now) (front self.now) }
        ensures unregistered { all_registered 0 (opening (sizes self.now)) (front self.now) ≡ [] }
        ensures labels { (domain_at (state_of (sizes self.now) (front self.now)) 0).serial + labels_left self.now ≡ 4294967295 };

    /// The reply that shows what a register holds. No entry is made.
    fn show(&mut self, r: u8) -> Reply
        requires few { r < 16 }
        ensures sizes { sizes self.new ≡ sizes self.old }
        ensures front { front self.new ≡ front self.old }
        ensures labels { labels_left self.new ≡ labels_left self.old }
        ensures room { ephes_room self.new ≡ ephes_room self.old }
        ensures reply { result ≡ shown (held_in (sizes self.old) (front self.old) r) };

    /// Makes a command. The history grows by entries of the collector and then by this one. It gives out a label exactly
    /// for the block that it makes, and takes room for the ephemeron that it makes: more room is there only where
    /// ephemerons were swept.
    fn perform<R: Wait>(&mut self, rt: &R, c: Command) -> Reply
        requires fits { IsCallCommand c }
        requires label { labels_of c ≤ labels_left self.old }
        requires room { ephemerons_of c ≤ ephes_room self.old }
        ensures sizes { sizes self.new ≡ sizes self.old }
        ensures labels { labels_left self.old ≡ labels_left self.new + labels_given c result }
        ensures room { ephes_room self.old ≤ ephes_room self.new + ephemerons_given c result }
        ensures performed { Performed (sizes self.old) (front self.old) (front self.new) c result };
}

// Makes a command: one entry more is refused exactly where it is answered `full`, and an allocation gives out a label or is.
pub(crate) fn perform<M: Machine, R: Wait>(m: &mut M, rt: &R, c: Command) -> Reply
    requires fits { IsCallCommand c }
    requires label { labels_of c ≤ M.labels_left m.old }
    requires room { ephemerons_of c ≤ M.ephes_room m.old }
    ensures sizes { M.sizes m.new ≡ M.sizes m.old }
    ensures labels { M.labels_left m.old ≡ M.labels_left m.new + labels_given c result }
    ensures room { M.ephes_room m.old ≤ M.ephes_room m.new + ephemerons_of c }
    ensures refused { refusals (M.front m.new) ≡ refusals (M.front m.old) + full_of result }
    ensures given { labels_given c result + full_of result ≡ labels_of c }
    ensures written { writings (M.front m.new) ≡ writings (M.front m.old) + writes c }
    ensures performed { Performed (M.sizes m.old) (M.front m.old) (M.front m.new) c result }
{
    m.shows_legal();
    m.perform(rt, c)
}

// Makes a command that makes no block.
pub(crate) fn perform_plain<M: Machine, R: Wait>(m: &mut M, rt: &R, c: Command) -> Reply
    requires fits { IsCallCommand c }
    requires plain { (labels_of c ≡ 0) × (ephemerons_of c ≡ 0) }
    ensures keeps { Keeps M.sizes M.labels_left M.ephes_room m.old m.new }
    ensures refused { refusals (M.front m.new) ≡ refusals (M.front m.old) + full_of result }
    ensures answered { full_of result ≡ 0 }
    ensures written { writings (M.front m.new) ≡ writings (M.front m.old) + writes c }
    ensures performed { Performed (M.sizes m.old) (M.front m.old) (M.front m.new) c result }
{
    perform(m, rt, c)
}

// Makes a command that makes no block and writes none of the registers 1 to 7.
pub(crate) fn perform_between<M: Machine, R: Wait>(m: &mut M, rt: &R, c: Command) -> Reply
    requires fits { IsCallCommand c }
    requires plain { (labels_of c ≡ 0) × (ephemerons_of c ≡ 0) × (writes c ≡ 0) }
    ensures passes { Passes M.sizes M.front M.labels_left M.ephes_room m.old m.new }
    ensures performed { Performed (M.sizes m.old) (M.front m.old) (M.front m.new) c result }
{
    perform_plain(m, rt, c)
}

// Loads a field of a block into a register that calls use between.
pub(crate) fn load<M: Machine, R: Wait>(m: &mut M, rt: &R, dst: u8, src: u8, index: u16) -> Reply
    requires few { (dst < 16) × (src < 16) }
    requires between { is_spared dst ≡ 0 }
    ensures passes { Passes M.sizes M.front M.labels_left M.ephes_room m.old m.new }
    ensures performed { Performed (M.sizes m.old) (M.front m.old) (M.front m.new) (command.Load dst src index) result }
{
    perform_between(m, rt, Command::Load { dst, src, index })
}

// Stores what a register holds into a field of a block.
pub(crate) fn store<M: Machine, R: Wait>(
    m: &mut M,
    rt: &R,
    block: u8,
    index: u16,
    item: u8,
) -> Reply
    requires few { (block < 16) × (item < 16) }
    ensures passes { Passes M.sizes M.front M.labels_left M.ephes_room m.old m.new }
    ensures performed { Performed (M.sizes m.old) (M.front m.old) (M.front m.new) (command.Store block index item) result }
{
    perform_between(m, rt, Command::Store { block, index, item })
}
