//! One command on the shared heap.
ghost use Rattle.std.specs.Prelude.{◌≡◌, ◌+◌, ◌^◌, ◌<◌, ◌≤◌, Bool, true, IfOk, IfErr, OnOk, OnErr};
ghost use Rattle.model_core.specs.declared.command.Command as model;
ghost use Rattle.model_core.specs.declared.command.Command.TheVariants.{Alloc, AllocMaj, Raw, Ephe, Poll};
ghost use Rattle.model_core.specs.Commands.{is_allocation};
ghost use Rattle.model_core.specs.declared.entry.Entry.{Entry};
ghost use Rattle.model_core.specs.declared.reply.Reply.TheVariants.{Block};
ghost use Rattle.heap_rule.specs.Places.{class_words};
ghost use Rattle.heap_rule.specs.Running.{Runs, Did, ChangesRegisters, own_entry};
ghost use Rattle.do_alloc.specs.Young.Area.{Grows, HasRoom, Needs, IsOpened};
ghost use Rattle.heap_rule.specs.Standing.{with_front};
ghost use Rattle.step_run.specs.Fields.Ticks.{is_quiet};
ghost use Rattle.step_run.specs.Fields.Ticks.{IsUsedUp};
ghost use Rattle.step_finalisers.specs.Registering.{count_of};
ghost use Rattle.run_turns.specs.Tries.{AttemptAnswers, FitsHeap, HasFew, IsFresh, IsPlainCall, IsStore, RefusesAs, RefusesFull, ephemerons_of, full_entry, labels_of, registrations_of};

use do_alloc::pools::{alloc_major, create};
use do_alloc::young::{Need, alloc_young};
use do_ephemerons::{
    check_data, check_key, get_data, get_key, set_data, set_key, unset_data, unset_key,
};
use do_fields::fields::{cas, copy, forget, load, put_int, store};
use do_finalisers::{finalise, finalise_last};
use gc_pause::stops::Want;
use heap_rule::{Domain, Heap};
use model_core::command::Command;
use model_core::label::Label;
use model_core::reply::Reply;
use step_run::fields::{short_load, tick};

// What the try of a command came to.
#[derive(Drop)]
pub(crate) enum Attempt {
    // The entry of the command was made: its reply.
    Made(Reply),
    // A pause must come first, and nothing has changed: the wish for it.
    Needs(Want),
    // An allocation found no room, and a complete collection, or one more, must come first.
    NoRoom,
}

#[inline(always)]
fn quiet_as(heap: &Heap, dom: &mut Domain, _command: &Command) -> Reply
    ghost entry: { Entry }
    requires entry { entry ≡ own_entry dom.old _command.now }
    requires runs { Runs heap.now dom.old }
    requires quiet { is_quiet _command.now ≡ true }
    ensures did { Did heap.now dom.old dom.new _command.now result }
    ensures rest { ChangesRegisters dom.old dom.new }
    ensures view { dom.new.view ≡ with_front dom.old.view dom.new.view.seen.front }
{
    tick(heap, dom, 0, &[]);
    Reply::Done
}

// Makes the entry of a command that changes nothing.
#[inline(always)]
fn quiet(heap: &Heap, dom: &mut Domain, command: &Command) -> Reply
    requires runs { Runs heap.now dom.old }
    requires quiet { is_quiet command.now ≡ true }
    ensures did { Did heap.now dom.old dom.new command.now result }
    ensures rest { ChangesRegisters dom.old dom.new }
    ensures view { dom.new.view ≡ with_front dom.old.view dom.new.view.seen.front }
{
    quiet_as(heap, dom, command)
}

fn full_as(heap: &Heap, dom: &mut Domain, _command: &Command) -> Reply
    ghost entry: { Entry }
    requires entry { entry ≡ full_entry dom.old _command.now }
    requires runs { Runs heap.now dom.old }
    requires allocates { is_allocation _command.now ≡ true }
    requires used_up { IsUsedUp heap.now.config dom.old.view }
    ensures refuses { RefusesFull heap.now dom.old dom.new _command.now result }
    ensures rest { ChangesRegisters dom.old dom.new }
{
    tick(heap, dom, 0, &[]);
    Reply::Full
}

// Makes the entry of an allocation that is answered `full`.
fn full(heap: &Heap, dom: &mut Domain, command: &Command) -> Reply
    requires runs { Runs heap.now dom.old }
    requires allocates { is_allocation command.now ≡ true }
    requires used_up { IsUsedUp heap.now.config dom.old.view }
    ensures refuses { RefusesFull heap.now dom.old dom.new command.now result }
    ensures rest { ChangesRegisters dom.old dom.new }
{
    full_as(heap, dom, command)
}

// What becomes of an allocation that found no room: where a complete collection that left much has come
// before for this command it is answered `full`. Else the domain looks at the history, in which many blocks were made.
fn refuse(heap: &Heap, dom: &mut Domain, command: &Command, collected: bool) -> Attempt
    requires runs { Runs heap.now dom.old }
    requires allocates { is_allocation command.now ≡ true }
    requires few { HasFew heap.now.config dom.old.view }
    requires fresh { collected ≡ true → IsFresh heap.now.config dom.old.view }
    ensures refuses { RefusesAs heap.now dom.old dom.new command.now collected result }
{
    if collected {
        return Attempt::Made(full(heap, dom, command));
    }
    short_load(heap, dom, 0, &[]);
    Attempt::NoRoom
}

// Allocates in the major heap, or answers that no pool is to be had.
fn alloc_in_pools(
    heap: &Heap,
    dom: &mut Domain,
    dst: u8,
    tag: u8,
    fields: u16,
    collected: bool,
) -> Attempt
    requires runs { Runs heap.now dom.old }
    requires dst { dst < 16 }
    requires tag { tag ≤ 245 }
    requires fields { (1 ≤ fields) × (fields ≤ 1022) }
    requires serial { dom.old.view.own.serial + 1 < 2 ^ 32 }
    requires fresh { collected ≡ true → IsFresh heap.now.config dom.old.view }
    ensures { (served : Bool) → AttemptAnswers heap.now dom.old dom.new (AllocMaj dst tag fields) served collected result }
{
    match alloc_major(heap, dom, dst, tag, fields) {
        Ok(label) => Attempt::Made(Reply::Block(label)),
        Err(_none) => refuse(
            heap,
            dom,
            &Command::AllocMaj { dst, tag, fields },
            collected,
        ),
    }
}

// Makes an ephemeron in the major heap, or answers that no pool is to be had.
fn create_in_pools(heap: &Heap, dom: &mut Domain, dst: u8, keys: u16, collected: bool) -> Attempt
    requires runs { Runs heap.now dom.old }
    requires dst { dst < 16 }
    requires keys { (1 ≤ keys) × (keys ≤ 8) }
    requires room { 1 ≤ dom.old.view.own.ephemerons.room }
    requires serial { dom.old.view.own.serial + 1 < 2 ^ 32 }
    requires fresh { collected ≡ true → IsFresh heap.now.config dom.old.view }
    ensures { (served : Bool) → AttemptAnswers heap.now dom.old dom.new (Ephe dst keys) served collected result }
{
    match create(heap, dom, dst, keys) {
        Ok(label) => Attempt::Made(Reply::Block(label)),
        Err(_none) => refuse(heap, dom, &Command::Ephe { dst, keys }, collected),
    }
}

// Allocates a young block, a plain one: the call of its own command.
#[inline(always)]
fn alloc_plain(heap: &Heap, dom: &mut Domain, dst: u8, tag: u8, fields: u16) -> Result<Label, Need>
    requires runs { Runs heap.now dom.old }
    requires dst { dst < 16 }
    requires tag { tag ≤ 245 }
    requires fields { (1 ≤ fields) × (fields ≤ 1022) }
    requires serial { dom.old.view.own.serial + 1 < 2 ^ 32 }
    ensures did { IfOk result (λ l. Did heap.now dom.old dom.new (Alloc dst tag fields) (Block l)) }
    ensures grows { OnOk result (Grows dom.old dom.new (class_words (fields + 2))) }
    ensures room { OnOk result (HasRoom heap.now.config dom.old.view fields) }
    ensures open { OnOk result (IsOpened heap.now.config dom.old.view dom.new.view) }
    ensures needs { IfErr result (λ need. Needs heap.now dom.old dom.new fields need) }
    ensures runs { OnErr result (Runs heap.now dom.new) }
{
    alloc_young(heap, dom, dst, tag, fields)
}

// Allocates a young block, a raw one: the call of its own command.
fn alloc_raw(heap: &Heap, dom: &mut Domain, dst: u8, tag: u8, fields: u16) -> Result<Label, Need>
    requires runs { Runs heap.now dom.old }
    requires dst { dst < 16 }
    requires tag { (251 ≤ tag) × (tag < 256) }
    requires fields { (1 ≤ fields) × (fields ≤ 1022) }
    requires serial { dom.old.view.own.serial + 1 < 2 ^ 32 }
    ensures did { IfOk result (λ l. Did heap.now dom.old dom.new (Raw dst tag fields) (Block l)) }
    ensures grows { OnOk result (Grows dom.old dom.new (class_words (fields + 2))) }
    ensures room { OnOk result (HasRoom heap.now.config dom.old.view fields) }
    ensures open { OnOk result (IsOpened heap.now.config dom.old.view dom.new.view) }
    ensures needs { IfErr result (λ need. Needs heap.now dom.old dom.new fields need) }
    ensures runs { OnErr result (Runs heap.now dom.new) }
{
    alloc_young(heap, dom, dst, tag, fields)
}

// Allocates in the minor area, or answers that the area has no room, or that too few pools are free.
#[inline(always)]
fn alloc_in_area(
    heap: &Heap,
    dom: &mut Domain,
    dst: u8,
    tag: u8,
    fields: u16,
    collected: bool,
) -> Attempt
    requires runs { Runs heap.now dom.old }
    requires dst { dst < 16 }
    requires tag { tag ≤ 245 }
    requires fields { (1 ≤ fields) × (fields ≤ 1022) }
    requires serial { dom.old.view.own.serial + 1 < 2 ^ 32 }
    requires fresh { collected ≡ true → IsFresh heap.now.config dom.old.view }
    ensures { (served : Bool) → AttemptAnswers heap.now dom.old dom.new (Alloc dst tag fields) served collected result }
{
    match alloc_plain(heap, dom, dst, tag, fields) {
        Ok(label) => Attempt::Made(Reply::Block(label)),
        Err(Need::AreaFull { .. }) => Attempt::Needs(Want::Minor),
        Err(Need::Closed { .. }) => {
            refuse(heap, dom, &Command::Alloc { dst, tag, fields }, collected)
        }
    }
}

// Allocates a raw block in the minor area, or answers that the area has no room, or that too few pools are free.
fn raw_in_area(
    heap: &Heap,
    dom: &mut Domain,
    dst: u8,
    tag: u8,
    fields: u16,
    collected: bool,
) -> Attempt
    requires runs { Runs heap.now dom.old }
    requires dst { dst < 16 }
    requires tag { (251 ≤ tag) × (tag < 256) }
    requires fields { (1 ≤ fields) × (fields ≤ 1022) }
    requires serial { dom.old.view.own.serial + 1 < 2 ^ 32 }
    requires fresh { collected ≡ true → IsFresh heap.now.config dom.old.view }
    ensures { (served : Bool) → AttemptAnswers heap.now dom.old dom.new (Raw dst tag fields) served collected result }
{
    match alloc_raw(heap, dom, dst, tag, fields) {
        Ok(label) => Attempt::Made(Reply::Block(label)),
        Err(Need::AreaFull { .. }) => Attempt::Needs(Want::Minor),
        Err(Need::Closed { .. }) => {
            refuse(heap, dom, &Command::Raw { dst, tag, fields }, collected)
        }
    }
}

// Makes the entry of a store, where one more word can be remembered.
#[inline(always)]
fn try_store(heap: &Heap, dom: &mut Domain, command: &Command) -> Attempt
    requires runs { Runs heap.now dom.old }
    requires fits { FitsHeap command.now }
    requires stores { IsStore command.now }
    ensures { (served collected : Bool) → AttemptAnswers heap.now dom.old dom.new command.now served collected result }
{
    if dom.remembered_room() == 0 {
        return Attempt::Needs(Want::Minor);
    }
    let reply = match *command {
        Command::Store { block, index, item } => store(heap, dom, block, index, item),
        Command::Cas {
            block,
            index,
            expected,
            item,
        } => cas(heap, dom, block, index, expected, item),
        Command::SetKey { ephe, index, item } => set_key(heap, dom, ephe, index, item),
        Command::SetData { ephe, item } => set_data(heap, dom, ephe, item),
        _ => unreachable!(),
    };
    Attempt::Made(reply)
}

// Makes the entry of a registration.
#[inline(always)]
fn try_registration(heap: &Heap, dom: &mut Domain, command: &Command) -> Attempt
    requires runs { Runs heap.now dom.old }
    requires fits { FitsHeap command.now }
    requires registers { registrations_of command.now ≡ 1 }
    requires room { registrations_of command.now + count_of dom.old.view.own.finalisers ≤ heap.now.config.finals }
    ensures { (served collected : Bool) → AttemptAnswers heap.now dom.old dom.new command.now served collected result }
{
    let reply = match *command {
        Command::Finalise { item, number, dst } => finalise(heap, dom, item, number, dst),
        Command::FinaliseLast { item, number } => finalise_last(heap, dom, item, number),
        _ => unreachable!(),
    };
    Attempt::Made(reply)
}

// Makes the entry of a command for which no pause must come first, and that changes registers at most of
// what the domain owns.
#[inline(always)]
fn call(heap: &Heap, dom: &mut Domain, command: &Command) -> Reply
    requires runs { Runs heap.now dom.old }
    requires fits { FitsHeap command.now }
    requires plain { IsPlainCall command.now }
    ensures did { Did heap.now dom.old dom.new command.now result }
    ensures rest { ChangesRegisters dom.old dom.new }
{
    match *command {
        Command::PutInt { dst, value } => put_int(heap, dom, dst, value),
        Command::Copy { dst, src } => copy(heap, dom, dst, src),
        Command::Forget { dst } => forget(heap, dom, dst),
        Command::Load { dst, src, index } => load(heap, dom, dst, src, index),
        Command::UnsetKey { ephe, index } => unset_key(heap, dom, ephe, index),
        Command::GetKey { dst, ephe, index } => get_key(heap, dom, dst, ephe, index),
        Command::CheckKey { ephe, index } => check_key(heap, dom, ephe, index),
        Command::UnsetData { ephe } => unset_data(heap, dom, ephe),
        Command::GetData { dst, ephe } => get_data(heap, dom, dst, ephe),
        Command::CheckData { ephe } => check_data(heap, dom, ephe),
        _ => unreachable!(),
    }
}

// Makes such an entry, and answers its reply.
#[inline(always)]
fn try_call(heap: &Heap, dom: &mut Domain, command: &Command) -> Attempt
    requires runs { Runs heap.now dom.old }
    requires fits { FitsHeap command.now }
    requires plain { IsPlainCall command.now }
    ensures { (served collected : Bool) → AttemptAnswers heap.now dom.old dom.new command.now served collected result }
{
    Attempt::Made(call(heap, dom, command))
}

// Makes the entry of a command, where no pause must come first. `served` says whether one has served a
// `minor` or a `major`, and `collected` whether a complete collection has come since this command was
// first tried, and left so many blocks that they may use up the pools. A young allocation is refused
// exactly where fewer pools are free than promotion may need, and one in the major heap, as also that of
// an ephemeron is, exactly where no pool is to be had; it is answered `full` where `collected`.
#[inline(always)]
pub(crate) fn try_command(
    heap: &Heap,
    dom: &mut Domain,
    command: &Command,
    served: bool,
    collected: bool,
) -> Attempt
    requires runs { Runs heap.now dom.old }
    requires fits { FitsHeap command.now }
    requires room { ephemerons_of command.now ≤ dom.old.view.own.ephemerons.room }
    requires enlists { registrations_of command.now + count_of dom.old.view.own.finalisers ≤ heap.now.config.finals }
    requires serial { dom.old.view.own.serial + labels_of command.now < 2 ^ 32 }
    requires fresh { collected ≡ true → IsFresh heap.now.config dom.old.view }
    ensures answer { AttemptAnswers heap.now dom.old dom.new command.now served collected result }
    ensures poll { command.now ≡ Poll → dom.new.view ≡ with_front dom.old.view dom.new.view.seen.front }
{
    match *command {
        Command::Alloc { dst, tag, fields } => {
            alloc_in_area(heap, dom, dst, tag, fields, collected)
        }
        Command::Raw { dst, tag, fields } => { raw_in_area(heap, dom, dst, tag, fields, collected) }
        Command::AllocMaj { dst, tag, fields } => {
            alloc_in_pools(heap, dom, dst, tag, fields, collected)
        }
        Command::Ephe { dst, keys } => create_in_pools(heap, dom, dst, keys, collected),
        Command::Store { .. }
        | Command::Cas { .. }
        | Command::SetKey { .. }
        | Command::SetData { .. } => { try_store(heap, dom, command) }
        Command::Finalise { .. } | Command::FinaliseLast { .. } => {
            try_registration(heap, dom, command)
        }
        Command::Minor if !served => return Attempt::Needs(Want::Minor),
        Command::Major if !served => return Attempt::Needs(Want::Cycle),
        Command::FullMajor => Attempt::Needs(Want::Full),
        Command::Poll | Command::Minor | Command::Major => {
            Attempt::Made(quiet(heap, dom, command))
        }
        _ => try_call(heap, dom, command),
    }
}
