//! Which scripts a schedule can be given for.
ghost use Rattle.std.specs.Prelude.{◌≡◌, ◌↔◌, ◌≤◌, ◌+◌, ◌-◌, ◌*◌, ◌^◌, ℕ, nat_lt, min, count_by};
ghost use Rattle.std.specs.List.{list_any};
ghost use Rattle.model_core.specs.Domains.{class_count};
ghost use Rattle.model_core.specs.Commands.{is_allocation as allocates};
ghost use Rattle.text_script.specs.Schedule.Text.Replayable.{CanReplay, allocations, has_major, is_major as starts_cycle, why_not};

use crate::Script;
use model_core::command::Command;

/// Why a script can't be replayed under a schedule.
#[derive(Clone, Copy, Debug, PartialEq, Eq)]
pub struct NotReplayable {
    /// 3: it is of version 3, whose sections are spawned. 1: it isn't, and has a `major`. 2: it has none, and
    /// makes so many blocks that the pools might run short.
    pub why: u32,
}

// How many blocks the commands make, if none is answered `full`, and whether a `major` is among them.
#[derive(Clone, Copy)]
struct Tally {
    blocks: usize,
    major: bool,
}

fn tally_of(section: &[Command]) -> Tally
    ensures blocks { result.blocks ≡ count_by allocates section.now }
    ensures major { result.major ≡ list_any starts_cycle section.now }
{
    let mut tally = Tally {
        blocks: 0,
        major: false,
    };
    'commands: for command in section {
        match *command {
            Command::Alloc { .. }
            | Command::AllocMaj { .. }
            | Command::Raw { .. }
            | Command::Ephe { .. } => tally.blocks += 1,
            Command::Major => tally.major = true,
            _ => {}
        }
    }
    tally
}

// What all sections have. So many blocks that 64 bits don't hold their number are as many as those hold.
fn tally_all(script: &Script) -> Tally
    ensures blocks { result.blocks ≡ min (allocations script.now.sections) (2 ^ 64 - 1) }
    ensures major { result.major ≡ has_major script.now.sections }
{
    let mut all = Tally {
        blocks: 0,
        major: false,
    };
    'sections: for i in 0..script.sections() {
        let tally = tally_of(script.section(i));
        all.blocks = all.blocks.saturating_add(tally.blocks);
        all.major = all.major || tally.major;
    }
    all
}

// How many classes of block sizes a heap has.
const CLASSES: usize = 9;

// Whether so many blocks may take more than half of the pools.
fn takes_too_many(blocks: usize, domains: u32, pools: u32) -> bool
    requires { domains ≤ 8 }
    ensures { result ≡ nat_lt pools (2 * (blocks + 1 + class_count * domains)) }
{
    let begun = 1 + CLASSES * domains as usize;
    pools as usize / 2 < blocks.saturating_add(begun)
}

/// Whether a script can be replayed on a heap of so many domains and pools: it is of version 1 or 2, has no `major`, and
/// twice the pools that its blocks may take are no more than there are. Then no collection of the major
/// heap begins that a schedule or a `full_major` doesn't ask for, and no allocation is answered `full`.
pub fn replayable(script: &Script, domains: u32, pools: u32) -> Result<(), NotReplayable>
    requires { (1 ≤ domains) × (domains ≤ 8) }
    ensures ok { (result ≡ Ok tt) ↔ CanReplay domains pools script.now }
    ensures refused { (k : ℕ) → (result ≡ Err (record { why = k })) ↔ (why_not domains pools script.now ≡ Some k) }
{
    if script.version() == 3 {
        return Err(NotReplayable { why: 3 });
    }
    let tally = tally_all(script);
    if tally.major {
        return Err(NotReplayable { why: 1 });
    }
    if takes_too_many(tally.blocks, domains, pools) {
        return Err(NotReplayable { why: 2 });
    }
    Ok(())
}
