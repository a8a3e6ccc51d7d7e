//! Loads at which young blocks are met, stores to copies, and the roots.
ghost use Rattle.heap_rule.specs.Standing.{IsInHeap};
ghost use Rattle.heap_rule.specs.Token.{IsIn};
ghost use Rattle.step_promote.specs.Promotion.{FillMay, FillTold, FilledMay, FilledTold, HeadMay, HeadMet, HeldMoveMay, HeldMoveTold, LabelMay, LabelMet, MoveMay, MoveTold, RecallMay, Recalled, ResetMay, ResetTold, RewriteMay, RewriteTold, ValueMay, ValueMet};

use heap_rule::{
    Change, Domain, Heap, Held, Leaving, Own, Registered, RegisteredLast, Waiting, Writing,
    raw_load, raw_store,
};
use heap_words::Value;
use std::marker::Brand;

// The token's own data stays as it is. The addresses are there for the pick alone.
#[derive(Clone, Copy)]
struct Meeting {
    at: u32,
    place: u32,
}

impl Writing for Meeting {
    ghost use Rattle.heap_rule.specs.Raw.{CanLeave, Leaves};

    ghost can = { λ _ _ _ own. CanLeave own };

    ghost writes = { λ _ _ _ own after. Leaves own after };

    fn write(&self, _found: u64, _changes: &[Change], _own: &mut Own) {}
}

// A register gets the address of a copy.
#[derive(Clone, Copy)]
struct Moving {
    register: u8,
    copy: u32,
}

impl Writing for Moving {
    ghost use Rattle.step_promote.specs.Writes.{CanMove, Moves};

    ghost can = { λ s _ _ _. CanMove s.register };

    ghost writes = { λ s _ _ own after. Moves s.register s.copy own after };

    fn write(&self, _found: u64, _changes: &[Change], own: &mut Own) {
        own.registers[self.register as usize] = Value::Ref(self.copy);
    }
}

// A place of the lists of finalisers gets the address of a copy.
#[derive(Clone, Copy)]
struct Holding {
    held: Held,
    copy: u32,
}

impl Writing for Holding {
    ghost use Rattle.step_promote.specs.Writes.{CanMoveHeld, MovesHeld};

    ghost can = { λ s _ _ own. CanMoveHeld s.held own };

    ghost writes = { λ s _ _ own after. MovesHeld s.held s.copy own after };

    fn write(&self, _found: u64, _changes: &[Change], own: &mut Own) {
        let address = self.copy;
        match self.held {
            Held::Final(i) => {
                let item = own.finalisers.finals.get(i as usize);
                let moved = Registered { address, ..item };
                own.finalisers.finals.set(i as usize, moved);
            }
            Held::Last(i) => {
                let item = own.finalisers.lasts.get(i as usize);
                let moved = RegisteredLast { address, ..item };
                own.finalisers.lasts.set(i as usize, moved);
            }
            Held::Queue(i) => {
                let Waiting::Fin {
                    number,
                    register,
                    ..
                } = own.finalisers.queue.get(i as usize)
                else {
                    unreachable!()
                };
                let moved = Waiting::Fin {
                    address,
                    number,
                    register,
                };
                own.finalisers.queue.set(i as usize, moved);
            }
        }
    }
}

// No word of the area is used, and no field is remembered.
#[derive(Clone, Copy)]
struct Resetting;

impl Writing for Resetting {
    ghost use Rattle.heap_rule.specs.Raw.{CanLeave};
    ghost use Rattle.step_promote.specs.Writes.{Resets};

    ghost can = { λ _ _ _ own. CanLeave own };

    ghost writes = { λ _ _ _ own after. Resets own after };

    fn write(&self, _found: u64, _changes: &[Change], own: &mut Own) {
        own.used = 0;
        own.remembered.clear();
    }
}

/// A load of the head of a block that was met, or to which a register or a list of finalisers refers.
/// The block is met, and so is its copy where it forwards to one. `at` is the block's address. Answers
/// the head's word.
pub fn young_head_load(heap: &Heap, dom: &mut Domain, at: u32) -> u64
    requires here { IsIn dom.old heap.now }
    requires inside { IsInHeap heap.now.config at }
    requires may { HeadMay dom.old.view at }
    ensures here { IsIn dom.new heap.now }
    ensures told { HeadMet heap.now.config at dom.old.view result dom.new.view }
{
    let index = heap.index_of(at);
    raw_load::<Brand, Meeting>(heap, dom, index, &Meeting { at, place: 0 }, &[])
}

/// A load of the label of a block that was met, which is at `source`. `at` is the label's address.
/// Answers the label's word.
pub fn young_label_load(heap: &Heap, dom: &mut Domain, at: u32, source: u32) -> u64
    requires here { IsIn dom.old heap.now }
    requires inside { IsInHeap heap.now.config at }
    requires may { LabelMay dom.old.view at source }
    ensures here { IsIn dom.new heap.now }
    ensures told { LabelMet source dom.old.view result dom.new.view }
{
    let index = heap.index_of(at);
    raw_load::<Brand, Meeting>(
        heap,
        dom,
        index,
        &Meeting {
            at: source,
            place: 0,
        },
        &[],
    )
}

/// A load of value `place` of a block in a minor area that was met, which is at `source`. The block
/// whose address the value is is met. `at` is the value's address. Answers the value's word.
pub fn young_field_load(heap: &Heap, dom: &mut Domain, at: u32, source: u32, place: u32) -> u64
    requires here { IsIn dom.old heap.now }
    requires inside { IsInHeap heap.now.config at }
    requires may { ValueMay heap.now.config dom.old.view at source place }
    ensures here { IsIn dom.new heap.now }
    ensures told { ValueMet heap.now.config source place dom.old.view result dom.new.view }
{
    let index = heap.index_of(at);
    raw_load::<Brand, Meeting>(heap, dom, index, &Meeting { at: source, place }, &[])
}

/// The next value of the first copy that the domain is to fill. `at` is the value's address, and
/// `new` its word, which is no address of a minor area.
pub fn copy_store(heap: &Heap, dom: &mut Domain, at: u32, new: u64)
    requires here { IsIn dom.old heap.now }
    requires inside { IsInHeap heap.now.config at }
    requires may { FillMay heap.now.config dom.old.view at new }
    ensures here { IsIn dom.new heap.now }
    ensures told { FillTold dom.old.view new dom.new.view }
{
    let index = heap.index_of(at);
    raw_store::<Brand, Leaving>(heap, dom, index, new, &Leaving, &[]);
}

/// The first copy that the domain is to fill has all its values: it is owed nothing more. A load of
/// any word of the heap. Answers the word.
pub fn copy_end(heap: &Heap, dom: &mut Domain, at: u32) -> u64
    requires here { IsIn dom.old heap.now }
    requires inside { IsInHeap heap.now.config at }
    requires may { FilledMay dom.old.view at }
    ensures here { IsIn dom.new heap.now }
    ensures told { FilledTold dom.old.view result dom.new.view }
{
    let index = heap.index_of(at);
    raw_load::<Brand, Leaving>(heap, dom, index, &Leaving, &[])
}

/// A register that holds the address of a block that was met gets that of its copy. A load of any
/// word of the heap. Answers the word.
pub fn register_move(heap: &Heap, dom: &mut Domain, at: u32, register: u8, copy: u32) -> u64
    requires here { IsIn dom.old heap.now }
    requires inside { IsInHeap heap.now.config at }
    requires may { MoveMay dom.old.view register copy }
    ensures here { IsIn dom.new heap.now }
    ensures told { MoveTold heap.now.config register copy dom.old.view result dom.new.view }
{
    let index = heap.index_of(at);
    raw_load::<Brand, Moving>(heap, dom, index, &Moving { register, copy }, &[])
}

/// A place of the lists of finalisers that has the address of a block that was met gets that of its
/// copy. A load of any word of the heap. Answers the word.
pub fn held_move(heap: &Heap, dom: &mut Domain, at: u32, held: Held, copy: u32) -> u64
    requires here { IsIn dom.old heap.now }
    requires inside { IsInHeap heap.now.config at }
    requires may { HeldMoveMay dom.old.view held copy }
    ensures here { IsIn dom.new heap.now }
    ensures told { HeldMoveTold heap.now.config held copy dom.old.view result dom.new.view }
{
    let index = heap.index_of(at);
    raw_load::<Brand, Holding>(heap, dom, index, &Holding { held, copy }, &[])
}

/// A load of the first field that the domain has to look through. The block that has the field is
/// met, and so is the block whose address the field holds. `at` is the field's address. Answers the
/// word.
pub fn remembered_load(heap: &Heap, dom: &mut Domain, at: u32) -> u64
    requires here { IsIn dom.old heap.now }
    requires inside { IsInHeap heap.now.config at }
    requires may { RecallMay dom.old.view at }
    ensures here { IsIn dom.new heap.now }
    ensures told { Recalled heap.now.config at dom.old.view result dom.new.view }
{
    let index = heap.index_of(at);
    raw_load::<Brand, Meeting>(heap, dom, index, &Meeting { at, place: 0 }, &[])
}

/// The first field that the domain has to look through gets a word that is no address of a minor
/// area, and nobody remembers it any more. `at` is the field's address.
pub fn remembered_store(heap: &Heap, dom: &mut Domain, at: u32, new: u64)
    requires here { IsIn dom.old heap.now }
    requires inside { IsInHeap heap.now.config at }
    requires may { RewriteMay heap.now.config dom.old.view at new }
    ensures here { IsIn dom.new heap.now }
    ensures told { RewriteTold at dom.old.view new dom.new.view }
{
    let index = heap.index_of(at);
    raw_store::<Brand, Meeting>(heap, dom, index, new, &Meeting { at, place: 0 }, &[]);
}

/// In Reset the domain's own minor area is free again, and its list of remembered fields is empty. A
/// store of Free to the area's first word, which is at `at`. No young block is left then: no register
/// and no list of finalisers of the domain has an address of a minor area.
pub fn area_reset(heap: &Heap, dom: &mut Domain, at: u32)
    requires here { IsIn dom.old heap.now }
    requires inside { IsInHeap heap.now.config at }
    requires may { ResetMay heap.now.config dom.old.view at }
    ensures here { IsIn dom.new heap.now }
    ensures told { ResetTold heap.now.config dom.old.view 0 dom.new.view }
{
    let index = heap.index_of(at);
    raw_store::<Brand, Resetting>(heap, dom, index, 0, &Resetting, &[]);
}
