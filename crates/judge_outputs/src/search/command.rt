//! What commands do to a state of the search, and what they answer.
use crate::search::run::{Block, Run, Shape, shown};
use crate::search::state::{DomainState, Held, Registration, State};
use model_core::command::Command;
use model_core::reply::Reply;
use std::alloc::AllocError;

/// What a command has done.
#[derive(Clone, Copy)]
pub(crate) struct Outcome {
    pub reply: Reply,
    /// What the register, field or data held that was written.
    pub let_go: Held,
    /// What came into a register out of a block.
    pub brought: Held,
    /// The block out of which something came, or into which something was written.
    pub used: Option<usize>,
    /// Whether something was written into that block.
    pub wrote: bool,
}

// A place in a block.
#[derive(Clone, Copy)]
struct Slot {
    block: usize,
    at: usize,
}

fn told(reply: Reply) -> Outcome {
    Outcome {
        reply,
        let_go: Held::Nothing,
        brought: Held::Nothing,
        used: None,
        wrote: false,
    }
}

fn keep(state: &mut State, d: usize, dst: u8, held: Held) -> Outcome {
    Outcome {
        let_go: state.put(d, dst, held),
        ..told(Reply::Done)
    }
}

fn write(state: &mut State, slot: Slot, held: Held) -> Outcome {
    Outcome {
        let_go: state.write(slot.at, held),
        used: Some(slot.block),
        wrote: true,
        ..told(Reply::Done)
    }
}

fn bring(run: &Run, state: &mut State, d: usize, dst: u8, slot: Slot) -> Outcome {
    let held = state.slot(slot.at);
    Outcome {
        reply: shown(run, held),
        let_go: state.put(d, dst, held),
        brought: held,
        used: Some(slot.block),
        wrote: false,
    }
}

fn yes_or_no(yes: bool) -> Reply {
    if yes { Reply::Yes } else { Reply::No }
}

fn allocate(run: &Run, state: &mut State, d: usize, dst: u8) -> Outcome {
    let own = state.domain_at(d);
    let made = Held::Block(run.first_block(d).saturating_add(own.serial));
    state.set_domain(
        d,
        DomainState {
            serial: own.serial.saturating_add(1),
            ..own
        },
    );
    Outcome {
        reply: shown(run, made),
        ..keep(state, d, dst, made)
    }
}

// The slot of a field of a block that isn't an ephemeron, or the refusal.
fn field_in(run: &Run, number: usize, block: Block, index: u16) -> Result<Slot, Reply> {
    if index < block.count {
        Ok(Slot {
            block: number,
            at: block.first.saturating_add(run.rank(index)),
        })
    } else {
        Err(Reply::BadIndex)
    }
}

// The slot of a field that is to hold something, where anything is to be written, or the refusal.
fn field(run: &Run, held: Held, index: u16, item: Option<Held>) -> Result<Slot, Reply> {
    let Held::Block(number) = held else {
        return Err(Reply::BadType);
    };
    let block = run.block(number);
    match (block.shape, item) {
        (Shape::Ephemeron, _) | (_, Some(Held::Nothing)) | (Shape::Raw, Some(Held::Block(_))) => {
            Err(Reply::BadType)
        }
        _ => field_in(run, number, block, index),
    }
}

fn load(run: &Run, state: &mut State, d: usize, dst: u8, found: Result<Slot, Reply>) -> Outcome {
    match found {
        Ok(slot) => bring(run, state, d, dst, slot),
        Err(reply) => told(reply),
    }
}

fn store(state: &mut State, found: Result<Slot, Reply>, item: Held) -> Outcome {
    match found {
        Ok(slot) => write(state, slot, item),
        Err(reply) => told(reply),
    }
}

fn exchange(state: &mut State, found: Result<Slot, Reply>, expected: Held, item: Held) -> Outcome {
    match found {
        _ if expected == Held::Nothing => told(Reply::BadType),
        Err(reply) => told(reply),
        Ok(slot) if state.slot(slot.at) == expected => Outcome {
            reply: Reply::Yes,
            ..write(state, slot, item)
        },
        Ok(_) => told(Reply::No),
    }
}

/// The number of the ephemeron in a register.
pub(crate) fn ephemeron(run: &Run, state: &State, d: usize, r: u8) -> Option<usize> {
    let Held::Block(number) = state.register(d, r) else {
        return None;
    };
    if matches!(run.block(number).shape, Shape::Ephemeron) {
        Some(number)
    } else {
        None
    }
}

// The slot of a key, or the refusal.
fn key(run: &Run, state: &State, d: usize, r: u8, index: u16) -> Result<Slot, Reply> {
    let Some(number) = ephemeron(run, state, d, r) else {
        return Err(Reply::BadType);
    };
    let block = run.block(number);
    if index < block.count {
        Ok(Slot {
            block: number,
            at: block.first.saturating_add(usize::from(index)),
        })
    } else {
        Err(Reply::BadIndex)
    }
}

// The slot of the data, or the refusal.
fn data_of(run: &Run, state: &State, d: usize, r: u8) -> Result<Slot, Reply> {
    match ephemeron(run, state, d, r) {
        Some(block) => Ok(Slot {
            block,
            at: run.block(block).data_at(),
        }),
        None => Err(Reply::BadType),
    }
}

fn check(state: &State, found: Result<Slot, Reply>) -> Outcome {
    match found {
        Ok(slot) => told(yes_or_no(state.slot(slot.at) != Held::Nothing)),
        Err(reply) => told(reply),
    }
}

fn set_key(state: &mut State, found: Result<Slot, Reply>, item: Held) -> Outcome {
    match item {
        Held::Block(_) => store(state, found, item),
        _ => told(Reply::BadType),
    }
}

fn set_data(state: &mut State, found: Result<Slot, Reply>, item: Held) -> Outcome {
    match item {
        Held::Nothing => told(Reply::BadType),
        _ => store(state, found, item),
    }
}

fn register(
    state: &mut State,
    d: usize,
    item: u8,
    number: u32,
    register: Option<u8>,
) -> Result<Outcome, AllocError> {
    let Held::Block(block) = state.register(d, item) else {
        return Ok(told(Reply::BadType));
    };
    let registration = Registration {
        domain: d,
        number,
        block,
        register,
        queued: false,
    };
    state.add(registration)?;
    Ok(told(Reply::Done))
}

// A command on a field.
fn use_field(run: &Run, state: &mut State, d: usize, command: Command) -> Outcome {
    match command {
        Command::Load { dst, src, index } => {
            let found = field(run, state.register(d, src), index, None);
            load(run, state, d, dst, found)
        }
        Command::Store { block, index, item } => {
            let item = state.register(d, item);
            let found = field(run, state.register(d, block), index, Some(item));
            store(state, found, item)
        }
        Command::Cas {
            block,
            index,
            expected,
            item,
        } => {
            let item = state.register(d, item);
            let expected = state.register(d, expected);
            let found = field(run, state.register(d, block), index, Some(item));
            exchange(state, found, expected, item)
        }
        _ => told(Reply::BadType),
    }
}

// A command on an ephemeron's key.
fn use_key(run: &Run, state: &mut State, d: usize, command: Command) -> Outcome {
    match command {
        Command::SetKey { ephe, index, item } => {
            let item = state.register(d, item);
            let found = key(run, state, d, ephe, index);
            set_key(state, found, item)
        }
        Command::UnsetKey { ephe, index } => {
            let found = key(run, state, d, ephe, index);
            store(state, found, Held::Nothing)
        }
        Command::GetKey { dst, ephe, index } => {
            let found = key(run, state, d, ephe, index);
            load(run, state, d, dst, found)
        }
        Command::CheckKey { ephe, index } => {
            let found = key(run, state, d, ephe, index);
            check(state, found)
        }
        _ => use_data(run, state, d, command),
    }
}

// A command on an ephemeron's data.
fn use_data(run: &Run, state: &mut State, d: usize, command: Command) -> Outcome {
    match command {
        Command::SetData { ephe, item } => {
            let item = state.register(d, item);
            let found = data_of(run, state, d, ephe);
            set_data(state, found, item)
        }
        Command::UnsetData { ephe } => {
            let found = data_of(run, state, d, ephe);
            store(state, found, Held::Nothing)
        }
        Command::GetData { dst, ephe } => {
            let found = data_of(run, state, d, ephe);
            load(run, state, d, dst, found)
        }
        Command::CheckData { ephe } => {
            let found = data_of(run, state, d, ephe);
            check(state, found)
        }
        _ => told(Reply::BadType),
    }
}

/// Makes a command of a domain other than `full_major`.
pub(crate) fn make(
    run: &Run,
    state: &mut State,
    d: usize,
    command: Command,
) -> Result<Outcome, AllocError> {
    Ok(match command {
        Command::PutInt { dst, value } => keep(state, d, dst, Held::Int(value)),
        Command::Copy { dst, src } => {
            let held = state.register(d, src);
            keep(state, d, dst, held)
        }
        Command::Forget { dst } => keep(state, d, dst, Held::Nothing),
        Command::Alloc { dst, .. }
        | Command::AllocMaj { dst, .. }
        | Command::Raw { dst, .. }
        | Command::Ephe { dst, .. } => allocate(run, state, d, dst),
        Command::Load { .. } | Command::Store { .. } | Command::Cas { .. } => {
            use_field(run, state, d, command)
        }
        Command::Finalise { item, number, dst } => register(state, d, item, number, Some(dst))?,
        Command::FinaliseLast { item, number } => register(state, d, item, number, None)?,
        Command::Poll | Command::Minor | Command::Major => told(Reply::Done),
        _ => use_key(run, state, d, command),
    })
}
