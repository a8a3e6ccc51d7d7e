//! What the calls need of a domain.
ghost use Rattle.std.specs.Prelude.{◌≡◌, ◌+◌, ◌<◌, ◌≤◌, ℕ, List, []};
ghost use Rattle.model_core.specs.declared.entry.Entry.{Entry};
ghost use Rattle.model_core.specs.declared.state.Sizes.{Sizes};
ghost use Rattle.model_core.specs.Domains.{IsWithinLimits, domain_at, opening};
ghost use Rattle.model_core.specs.History.{Legal};
ghost use Rattle.model_core.specs.Commands.{shown};
ghost use Rattle.model_core.specs.Registrations.{all_registered};
ghost use Rattle.weak_laws.specs.Tables.Thinning.{state_of};
ghost use Rattle.model_core.specs.Counts.Counts.{labels_of, labels_given, ephemerons_of, ephemerons_given};
ghost use Rattle.weak_maps.specs.Commands.{IsMapCommand};
ghost use Rattle.weak_laws.specs.Maps.Calls.{PerformedBy};
ghost use Rattle.weak_maps.specs.Beside.{held_by};
ghost use Rattle.weak_maps.specs.Frames.{Shows, Spends, Stays};

use model_core::command::Command;
use model_core::reply::Reply;
use std::sync::Wait;

/// A domain of a heap, whose commands are handed in one by one. Between two of them there may be commands of other domains.
pub trait Machine {
    /// What the domain is a domain of.
    type Heap;

    /// What it is a domain of stays, whatever is called.
    ghost heap: { Self → Self.Heap };

    /// The numbers of the heap.
    ghost sizes: { Self → Sizes };

    /// The number of the domain.
    ghost domain: { Self → ℕ };

    /// What the domain has seen of the history so far.
    ghost front: { Self → List Entry };

    /// How many labels are left for the domain's blocks.
    ghost labels_left: { Self → ℕ };

    /// How many ephemerons fit into the domain's list.
    ghost ephes_room: { Self → ℕ };

    /// Nothing changes. The domain is one of the heap's, the numbers are within their limits, the history is legal and
    /// registers no finaliser of the domain, and each of its labels was given out or is left.
    fn shows_legal(&self)
        ensures inside { domain self.now < (sizes self.now).domains }
        ensures limits { IsWithinLimits (sizes self.now) }
        ensures legal { Legal (sizes self.now) (front self.now) }
        ensures unregistered { all_registered (domain self.now) (opening (sizes self.now)) (front self.now) ≡ [] }
        ensures labels { (domain_at (state_of (sizes self.now) (front self.now)) (domain self.now)).serial + labels_left self.now ≡ 4294967295 };

    /// How many domains the heap has.
    fn domains(&self) -> u32
        ensures { result ≡ (sizes self.now).domains };

    /// The reply that shows what a register holds. No entry is made.
    fn show(&mut self, r: u8) -> Reply
        requires few { r < 16 }
        ensures shows { Shows sizes domain heap front labels_left ephes_room self.old self.new }
        ensures reply { result ≡ shown (held_by (sizes self.old) (domain self.old) (front self.old) r) };

    /// Makes a command. The history grows by entries of the collector and of other domains, and then by this one. It gives
    /// out a label exactly for the block that it makes, and takes room for the ephemeron that it makes: more room is there
    /// only where ephemerons were swept.
    fn perform<R: Wait>(&mut self, rt: &R, c: Command) -> Reply
        requires fits { IsMapCommand c }
        requires label { labels_of c ≤ labels_left self.old }
        requires room { ephemerons_of c ≤ ephes_room self.old }
        ensures stays { Stays sizes domain heap self.old self.new }
        ensures labels { labels_left self.old ≡ labels_left self.new + labels_given c result }
        ensures room { ephes_room self.old ≤ ephes_room self.new + ephemerons_given c result }
        ensures performed { PerformedBy (sizes self.old) (domain self.old) (front self.old) (front self.new) c result };
}

/// Makes a command: one entry more of the domain is refused exactly where it is answered `full`, and an allocation gives out a
/// label or is.
#[inline(always)]
pub fn perform<M: Machine, R: Wait>(m: &mut M, rt: &R, c: Command) -> Reply
    requires fits { IsMapCommand c }
    requires label { labels_of c ≤ M.labels_left m.old }
    requires room { ephemerons_of c ≤ M.ephes_room m.old }
    ensures spends { Spends M.sizes M.domain M.heap M.front M.labels_left M.ephes_room m.old m.new c result }
    ensures performed { PerformedBy (M.sizes m.old) (M.domain m.old) (M.front m.old) (M.front m.new) c result }
{
    m.shows_legal();
    m.perform(rt, c)
}
