//! The search: from the registers of a domain to all blocks to which fields lead.
ghost use Rattle.std.specs.Prelude.{◌≡◌, ◌≢◌, ◌<◌, ◌≤◌, ℕ, [], false, IfOk, IsTrue, true, Option, Some, length, slice_get};
ghost use Rattle.model_core.specs.declared.graph.Value.TheVariants.{Block as BlockValue};
ghost use Rattle.model_core.specs.Domains.{register as held};
ghost use Rattle.model_core.specs.declared.label.Label as labels;
ghost use Rattle.model_laws.specs.Reach.Exploring.{Explored, FindsAlone, Extends, IsOnce, IsOrdered, Looked, Notes, Visited, Went, graph_of, roots_of};
ghost use Rattle.model_laws.specs.Reach.Walks.{Copied, Loaded, Still, Walked, WalksOn, is_hand, state_of};

use crate::reach::seen::{Origin, Seen, Way, add, way_to};
use crate::reach::walker::Walker;
use model_core::command::Command;
use model_core::label::Label;
use model_core::reply::Reply;
use std::alloc::{AllocError, Global};

/// Why a search has stopped.
#[derive(Clone, Copy, Debug, PartialEq, Eq)]
pub enum Stop {
    /// A load couldn't be made at once.
    PutOff,
    /// There are more blocks than the search was to look into.
    Many,
    /// There was no memory for what it has found.
    Memory,
}

impl From<AllocError> for Stop {
    fn from(_: AllocError) -> Stop {
        Stop::Memory
    }
}

// Brings the block in a register into register 14.
fn take_up<M: Walker>(m: &mut M, src: u8) -> Result<(), Stop>
    ensures on { WalksOn M.home M.sizes M.number M.front m.old m.new }
    ensures copied { IfOk result (λ _. Walked (M.number m.old) (M.front m.old) (M.front m.new) → Copied (M.sizes m.old) (M.number m.old) (M.front m.old) (M.front m.new) src) }
{
    m.shows_limits();
    match m.perform(Command::Copy { dst: 14, src }) {
        Some(_) => Ok(()),
        None => Err(Stop::PutOff),
    }
}

// Loads a field of the block in register 14 into one of the two registers.
fn load<M: Walker>(m: &mut M, dst: u8, index: u16) -> Result<Reply, Stop>
    requires hand { IsTrue (is_hand dst) }
    ensures on { WalksOn M.home M.sizes M.number M.front m.old m.new }
    ensures loaded { IfOk result (λ r. Walked (M.number m.old) (M.front m.old) (M.front m.new) → Loaded (M.sizes m.old) (M.number m.old) (M.front m.old) (M.front m.new) dst index r) }
{
    m.shows_limits();
    let load = Command::Load {
        dst,
        src: 14,
        index,
    };
    match m.perform(load) {
        Some(reply) => Ok(reply),
        None => Err(Stop::PutOff),
    }
}

// Notes the block that a reply names, if it names one.
fn note(seen: &mut Vec<Seen>, reply: Reply, origin: Origin) -> Result<(), Stop>
    ensures { IfOk result (λ _. Notes seen.old.items seen.new.items reply origin) }
{
    if let Reply::Block(label) = reply {
        add(seen, label, origin)?;
    }
    Ok(())
}

// Goes along a way: register 14 then holds the block to which it leads.
fn go<M: Walker>(m: &mut M, way: &Way) -> Result<(), Stop>
    ensures on { WalksOn M.home M.sizes M.number M.front m.old m.new }
    ensures went { IfOk result (λ _. Walked (M.number m.old) (M.front m.old) (M.front m.new) → Went (M.sizes m.old) (M.number m.old) (M.front m.old) (M.front m.new) way.now) }
{
    take_up(m, way.register)?;
    'fields: for field in &way.fields {
        load(m, 14, *field)?;
    }
    Ok(())
}

// Reads all fields of the block at a place, which register 14 holds, and notes the blocks to which they refer. Answers
// whether it is an ephemeron, which has none.
fn visit<M: Walker>(m: &mut M, seen: &mut Vec<Seen>, at: usize) -> Result<bool, Stop>
    requires inside { at < length seen.old.items }
    requires ordered { IsOrdered seen.old.items }
    requires once { IsOnce seen.old.items }
    ensures on { WalksOn M.home M.sizes M.number M.front m.old m.new }
    ensures ordered { IfOk result (λ _. IsOrdered seen.new.items) }
    ensures once { IfOk result (λ _. IsOnce seen.new.items) }
    ensures goes_on { IfOk result (λ _. Extends seen.old.items seen.new.items) }
    ensures visited { IfOk result (λ weak. Walked (M.number m.old) (M.front m.old) (M.front m.new) → Still (M.sizes m.old) (M.number m.old) (M.front m.old) (M.front m.new)
        × ((b : Seen) → slice_get seen.old.items at ≡ Some b → held (state_of (M.sizes m.old) (M.front m.old)) (M.number m.old) 14 ≡ BlockValue b.label
        → Visited (graph_of (M.sizes m.old) (M.front m.old)) at b.label seen.old.items seen.new.items weak)) }
{
    'fields: for index in 0..u16::MAX {
        let reply = load(m, 15, index)?;
        match reply {
            Reply::BadIndex => return Ok(false),
            Reply::BadType => return Ok(true),
            _ => note(seen, reply, Origin::Field { block: at, index })?,
        }
    }
    Err(Stop::Many)
}

// Notes the blocks that the registers hold.
fn note_roots<M: Walker>(m: &mut M, seen: &mut Vec<Seen>) -> Result<(), Stop>
    requires empty { seen.old.items ≡ [] }
    ensures home { M.home m.new ≡ M.home m.old }
    ensures sizes { M.sizes m.new ≡ M.sizes m.old }
    ensures number { M.number m.new ≡ M.number m.old }
    ensures front { M.front m.new ≡ M.front m.old }
    ensures ordered { IfOk result (λ _. IsOrdered seen.new.items) }
    ensures once { IfOk result (λ _. IsOnce seen.new.items) }
    ensures noted { IfOk result (λ _. (stop : Option labels.Label) → Explored (graph_of (M.sizes m.old) (M.front m.old)) (roots_of (M.sizes m.old) (M.number m.old) (M.front m.old)) stop seen.new.items 0 false) }
{
    'registers: for register in 0..14 {
        let reply = m.show(register);
        note(seen, reply, Origin::Register(register))?;
    }
    Ok(())
}

// Whether a block is the one into which the search doesn't look.
fn is_stop(stop: Option<Label>, label: Label) -> bool
    ensures yes { result ≡ true → stop ≡ Some label }
    ensures no { result ≡ false → stop ≢ Some label }
{
    stop == Some(label)
}

// Looks into the block at a place, unless it is `stop`: notes the blocks to which its fields refer. Answers whether it is an
// ephemeron.
fn look<M: Walker>(
    alloc: Global,
    m: &mut M,
    seen: &mut Vec<Seen>,
    at: usize,
    stop: Option<Label>,
) -> Result<bool, Stop>
    requires inside { at < length seen.old.items }
    requires ordered { IsOrdered seen.old.items }
    requires once { IsOnce seen.old.items }
    ensures on { WalksOn M.home M.sizes M.number M.front m.old m.new }
    ensures ordered { IfOk result (λ _. IsOrdered seen.new.items) }
    ensures once { IfOk result (λ _. IsOnce seen.new.items) }
    ensures goes_on { IfOk result (λ _. Extends seen.old.items seen.new.items) }
    ensures looked { IfOk result (λ weak. Walked (M.number m.old) (M.front m.old) (M.front m.new) → Looked (M.sizes m.old) (M.number m.old) (M.front m.old) (M.front m.new) stop at seen.old.items seen.new.items weak) }
{
    if is_stop(stop, seen[at].label) {
        return Ok(false);
    }
    let way = way_to(alloc, seen, at)?;
    go(m, &way)?;
    visit(m, seen, at)
}

/// What a search has found: all blocks to which fields lead, and whether an ephemeron is among them.
#[derive(Debug, Drop)]
pub struct Blocks {
    pub seen: Vec<Seen>,
    pub weak: bool,
}

/// Looks for all blocks to which fields lead from registers 0 to 13, in the order of how many fields are between, but no
/// further than through so many blocks. `stop` is a block into which it doesn't look.
pub fn explore<M: Walker>(
    alloc: Global,
    m: &mut M,
    stop: Option<Label>,
    most: u32,
) -> Result<Blocks, Stop>
    ensures on { WalksOn M.home M.sizes M.number M.front m.old m.new }
    ensures ordered { IfOk result (λ x. IsOrdered x.seen.items) }
    ensures once { IfOk result (λ x. IsOnce x.seen.items) }
    ensures explored { IfOk result (FindsAlone (M.sizes m.old) (M.number m.old) (M.front m.old) (M.front m.new) stop) }
{
    let mut seen = Vec::new(alloc);
    let mut weak = false;
    note_roots(m, &mut seen)?;
    'places: for at in 0..most as usize {
        if at >= seen.len() {
            return Ok(Blocks { seen, weak });
        }
        weak |= look(alloc, m, &mut seen, at, stop)?;
    }
    Err(Stop::Many)
}
