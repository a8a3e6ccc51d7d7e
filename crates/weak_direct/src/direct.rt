//! What the calls need of a domain.
ghost use Rattle.std.specs.Prelude.{◌≡◌, ◌+◌, ◌<◌, ◌≤◌, ℕ, List, None, IfSome};
ghost use Rattle.model_core.specs.declared.entry.Entry.{Entry};
ghost use Rattle.model_core.specs.declared.state.Sizes.{Sizes};
ghost use Rattle.model_core.specs.Commands.{shown};
ghost use Rattle.model_core.specs.Counts.Counts.{ephemerons_of, labels_of};
ghost use Rattle.model_core.specs.Domains.{IsWithinLimits};
ghost use Rattle.weak_laws.specs.Tables.Performing.{full_of, writes};
ghost use Rattle.weak_laws.specs.Maps.Calls.{PerformedBy};
ghost use Rattle.weak_maps.specs.Beside.{held_by};
ghost use Rattle.weak_maps.specs.Commands.{IsMapCommand};
ghost use Rattle.weak_maps.specs.Walks.{OwnQuiet};
ghost use Rattle.weak_direct.specs.Tries.{EndsBy, IsBetween, IsLast, IsMake, Passes, QuietIf, Reads, TriedBy, ephemerons_by, labels_by};
ghost use Rattle.weak_maps.specs.Frames.{Stays};
ghost use Rattle.weak_direct.specs.Frames.{Allocates, Goes, Keeps, Looks, Shows, Spends};

use model_core::command::Command;
use model_core::reply::Reply;

/// A domain of a heap whose commands are made at once, or put off. Between two of them there may be commands of other
/// domains.
pub trait Direct {
    /// What the domain is a domain of.
    type Heap;

    /// What it is a domain of stays, whatever is called.
    ghost heap: { Self → Self.Heap };

    /// The numbers of the heap.
    ghost sizes: { Self → Sizes };

    /// The number of the domain.
    ghost domain: { Self → ℕ };

    /// What the domain has seen of the history so far.
    ghost front: { Self → List Entry };

    /// How many labels are left for the domain's blocks.
    ghost labels_left: { Self → ℕ };

    /// How many ephemerons fit into the domain's list.
    ghost ephes_room: { Self → ℕ };

    /// Nothing changes. The domain is one of the heap's, and the numbers are within their limits.
    fn shows_inside(&self)
        ensures inside { domain self.now < (sizes self.now).domains }
        ensures limits { IsWithinLimits (sizes self.now) };

    /// How many domains the heap has.
    fn domains(&self) -> u32
        ensures { result ≡ (sizes self.now).domains };

    /// The reply that shows what a register holds. No entry is made.
    fn show(&mut self, r: u8) -> Reply
        requires few { r < 16 }
        ensures shows { Shows sizes domain heap front labels_left ephes_room self.old self.new }
        ensures reply { result ≡ shown (held_by (sizes self.old) (domain self.old) (front self.old) r) };

    /// Makes a command at once, and answers its reply. The history grows by entries of other domains, and then by this one.
    /// It gives out a label exactly for the block that it makes, and takes room for the ephemeron that it makes: more room
    /// is there only where ephemerons were swept. None where the command is put off: then it isn't made, and the domain has
    /// at most seen entries of others.
    fn perform(&mut self, c: Command) -> Option<Reply>
        requires fits { IsMapCommand c }
        requires label { labels_of c ≤ labels_left self.old }
        requires room { ephemerons_of c ≤ ephes_room self.old }
        ensures stays { Stays sizes domain heap self.old self.new }
        ensures labels { labels_left self.old ≡ labels_left self.new + labels_by c result }
        ensures room { ephes_room self.old ≤ ephes_room self.new + ephemerons_by c result }
        ensures tried { TriedBy (sizes self.old) (domain self.old) (front self.old) (front self.new) c result };
}

/// Makes a command that makes no block, and writes no register but 8 to 11, where it isn't put off.
#[inline(always)]
pub fn step<M: Direct>(m: &mut M, c: Command) -> Option<Reply>
    requires fits { IsMapCommand c }
    requires between { IsBetween c }
    ensures goes { Goes M.sizes M.domain M.heap M.front M.labels_left M.ephes_room m.old m.new }
    ensures quiet { QuietIf (M.sizes m.old) (M.domain m.old) (M.front m.old) (M.front m.new) c }
    ensures stopped { result ≡ None → OwnQuiet (M.sizes m.old) (M.domain m.old) (M.front m.old) (M.front m.new) }
    ensures performed { IfSome result (PerformedBy (M.sizes m.old) (M.domain m.old) (M.front m.old) (M.front m.new) c) }
{
    m.perform(c)
}

/// Empties the registers that the calls use between, as far as that is possible at once.
pub fn clear<M: Direct>(m: &mut M)
    ensures looks { Looks M.sizes M.domain M.heap M.front M.labels_left M.ephes_room m.old m.new }
{
    let _eight = step(m, Command::Forget { dst: 8 });
    let _nine = step(m, Command::Forget { dst: 9 });
    let _ten = step(m, Command::Forget { dst: 10 });
    let _eleven = step(m, Command::Forget { dst: 11 });
}

/// Empties the registers that a look-up uses between, as far as that is possible at once.
pub fn clear_read<M: Direct>(m: &mut M)
    ensures looks { Looks M.sizes M.domain M.heap M.front M.labels_left M.ephes_room m.old m.new }
{
    let _eight = step(m, Command::Forget { dst: 8 });
    let _nine = step(m, Command::Forget { dst: 9 });
}

/// Makes the last command of a look-up, which reads into a register or empties it, where it isn't put off. Registers 8 and 9
/// are emptied then, as far as that is possible at once.
#[inline(always)]
pub fn finish<M: Direct>(m: &mut M, c: Command) -> Option<Reply>
    requires fits { IsMapCommand c }
    requires last { IsLast c }
    ensures keeps { Keeps M.sizes M.domain M.heap M.labels_left M.ephes_room m.old m.new }
    ensures reads { Reads (M.sizes m.old) (M.domain m.old) (writes c) (M.front m.old) (M.front m.new) }
    ensures stopped { result ≡ None → Passes (M.sizes m.old) (M.domain m.old) (M.front m.old) (M.front m.new) }
    ensures granted { IfSome result (λ r. full_of r ≡ 0) }
    ensures ends { IfSome result (EndsBy (M.sizes m.old) (M.domain m.old) (M.front m.old) (M.front m.new) c) }
{
    let reply = m.perform(c)?;
    clear_read(m);
    Some(reply)
}

/// Makes an allocation of a put, where it isn't put off.
#[inline(always)]
pub fn allocate<M: Direct>(m: &mut M, c: Command) -> Option<Reply>
    requires fits { IsMapCommand c }
    requires make { IsMake c }
    requires label { 1 ≤ M.labels_left m.old }
    requires room { ephemerons_of c ≤ M.ephes_room m.old }
    ensures spends { Spends M.sizes M.domain M.heap M.front M.labels_left M.ephes_room 1 (ephemerons_of c) m.old m.new }
    ensures stopped { result ≡ None → OwnQuiet (M.sizes m.old) (M.domain m.old) (M.front m.old) (M.front m.new) }
    ensures made { IfSome result (Allocates M.sizes M.domain M.front M.labels_left m.old m.new c) }
{
    m.perform(c)
}
