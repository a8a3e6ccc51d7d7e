//! The calls that each step call stands on: one step on the table, after which the token's plain
//! data is written. The caller shows that the rule allows the step, and says what it tells.
ghost use Rattle.std.specs.Prelude.{◌≡◌, ℕ, ◌<◌, ◌+◌, ◌%◌, ◌^◌, ◌==◌, bit_or};
ghost use prog.Atomic.{either};
ghost use Rattle.atomic_table.specs.Table.{Allows};
ghost use Rattle.heap_rule.specs.Layout.{table_words};
ghost use Rattle.heap_rule.specs.Raw.{MayStep, MayStore, Closes};
ghost use Rattle.heap_rule.specs.Rule.{Rule};
ghost use Rattle.heap_rule.specs.Token.{IsIn};
ghost use Rattle.heap_rule.specs.Views.{Tells};

use crate::change::{Change, Reading, make_changes, read_as};
use crate::config::Config;
use crate::domain::Domain;
use crate::heap::Heap;
use crate::rule::{Law, Telling, Told};
use crate::view::{Own, View};
use atomic_table::{Seat, Shared};

// A load of the word at an index.
fn load_step<T: Told>(
    table: &Shared<(), View, Config, Law>,
    seat: &mut Seat<(), View>,
    index: usize,
) -> u64
    requires table { seat.old.table_id ≡ table.now.table_id }
    requires inside { index < table.now.table_id.words }
    requires rule { Allows (Rule table.now.key) table.now.table_id.slots seat.old.id seat.old.me index
        (λ n. n) (Tells T.tells seat.old.me) }
    ensures same { seat.new.table_id ≡ seat.old.table_id }
    ensures told { Tells T.tells seat.old.me result seat.new.me }
{
    table.load::<Telling<T>>(seat, index)
}

// A store, likewise.
fn store_step<T: Told>(
    table: &Shared<(), View, Config, Law>,
    seat: &mut Seat<(), View>,
    index: usize,
    new: u64,
)
    requires table { seat.old.table_id ≡ table.now.table_id }
    requires inside { index < table.now.table_id.words }
    requires rule { Allows (Rule table.now.key) table.now.table_id.slots seat.old.id seat.old.me index
        (λ _. new) (λ _. Tells T.tells seat.old.me new) }
    ensures same { seat.new.table_id ≡ seat.old.table_id }
    ensures told { Tells T.tells seat.old.me new seat.new.me }
{
    table.store::<Telling<T>>(seat, index, new);
}

// An add, likewise.
fn add_step<T: Told>(
    table: &Shared<(), View, Config, Law>,
    seat: &mut Seat<(), View>,
    index: usize,
    amount: u64,
) -> u64
    requires table { seat.old.table_id ≡ table.now.table_id }
    requires inside { index < table.now.table_id.words }
    requires rule { Allows (Rule table.now.key) table.now.table_id.slots seat.old.id seat.old.me index
        (λ n. (n + amount) % 2 ^ 64) (Tells T.tells seat.old.me) }
    ensures same { seat.new.table_id ≡ seat.old.table_id }
    ensures told { Tells T.tells seat.old.me result seat.new.me }
{
    table.fetch_add::<Telling<T>>(seat, index, amount)
}

// An `or` of bits, likewise.
fn or_step<T: Told>(
    table: &Shared<(), View, Config, Law>,
    seat: &mut Seat<(), View>,
    index: usize,
    bits: u64,
) -> u64
    requires table { seat.old.table_id ≡ table.now.table_id }
    requires inside { index < table.now.table_id.words }
    requires rule { Allows (Rule table.now.key) table.now.table_id.slots seat.old.id seat.old.me index
        (λ n. bit_or n bits) (Tells T.tells seat.old.me) }
    ensures same { seat.new.table_id ≡ seat.old.table_id }
    ensures told { Tells T.tells seat.old.me result seat.new.me }
{
    table.fetch_or::<Telling<T>>(seat, index, bits)
}

// An exchange of the word where it is `old`, likewise.
fn exchange_step<T: Told>(
    table: &Shared<(), View, Config, Law>,
    seat: &mut Seat<(), View>,
    index: usize,
    old: u64,
    new: u64,
) -> u64
    requires table { seat.old.table_id ≡ table.now.table_id }
    requires inside { index < table.now.table_id.words }
    requires rule { Allows (Rule table.now.key) table.now.table_id.slots seat.old.id seat.old.me index
        (λ n. either (n == old) new n) (Tells T.tells seat.old.me) }
    ensures same { seat.new.table_id ≡ seat.old.table_id }
    ensures told { Tells T.tells seat.old.me result seat.new.me }
{
    table.compare_exchange::<Telling<T>>(seat, index, old, new)
}

/// What is made of a token's plain data once a step has found its word. What it holds is there for
/// the step call's pick of `Told` too.
pub trait Writing {
    ghost use Rattle.std.specs.Prelude.{ℕ, List};
    ghost use Rattle.heap_rule.specs.declared.change.Change.{Change};
    ghost use Rattle.heap_rule.specs.declared.view.Own.{Own};

    ghost can: { Self → ℕ → List Change → Own → Type 0 };

    ghost writes: { Self → ℕ → List Change → Own → Own → Type 0 };

    fn write(&self, found: u64, changes: &[Change], own: &mut Own)
        requires { can self.now found changes.now own.old }
        ensures { writes self.now found changes.now own.old own.new };
}

/// The changes are made, with the value that the word is read as. The address is
/// there for the pick alone.
#[derive(Clone, Copy)]
pub struct Changing {
    pub at: u32,
    pub reading: Reading,
}

impl Writing for Changing {
    ghost use Rattle.heap_rule.specs.Raw.{CanChange, Changes};

    ghost can = { λ s found changes own. CanChange s.reading found changes };

    ghost writes = { λ s found changes own after. Changes s.reading found changes own after };

    #[inline(always)]
    fn write(&self, found: u64, changes: &[Change], own: &mut Own) {
        make_changes(own, read_as(self.reading, found), changes);
    }
}

/// The token's plain data stays as it is.
#[derive(Clone, Copy)]
pub struct Leaving;

impl Writing for Leaving {
    ghost use Rattle.heap_rule.specs.Raw.{CanLeave, Leaves};

    ghost can = { λ _ _ _ own. CanLeave own };

    ghost writes = { λ _ _ _ own after. Leaves own after };

    fn write(&self, _found: u64, _changes: &[Change], _own: &mut Own) {}
}

/// A load of the word at an index, after which the token's plain data is written. The rule allows
/// the load, and what it tells of the plain data is what is written. Answers the word.
pub fn raw_load<T: Told, W: Writing>(
    heap: &Heap,
    dom: &mut Domain,
    index: usize,
    writing: &W,
    changes: &[Change],
) -> u64
    requires here { IsIn dom.old heap.now }
    requires inside { index < table_words heap.now.config }
    requires may { MayStep heap.now.config dom.old.view index (λ n. n) T.tells }
    requires closes { (found : ℕ) → Closes heap.now.config dom.old.view found T.tells
        (W.can writing.now found changes.now) (W.writes writing.now found changes.now) }
    ensures here { IsIn dom.new heap.now }
    ensures told { T.tells dom.old.view result dom.new.view }
{
    let found = load_step::<T>(&heap.table.shared, &mut dom.seat, index);
    writing.write(found, changes, &mut dom.own);
    found
}

/// A store to the word at an index, likewise.
pub fn raw_store<T: Told, W: Writing>(
    heap: &Heap,
    dom: &mut Domain,
    index: usize,
    new: u64,
    writing: &W,
    changes: &[Change],
)
    requires here { IsIn dom.old heap.now }
    requires inside { index < table_words heap.now.config }
    requires may { MayStore heap.now.config dom.old.view index new T.tells }
    requires closes { Closes heap.now.config dom.old.view new T.tells
        (W.can writing.now new changes.now) (W.writes writing.now new changes.now) }
    ensures here { IsIn dom.new heap.now }
    ensures told { T.tells dom.old.view new dom.new.view }
{
    store_step::<T>(&heap.table.shared, &mut dom.seat, index, new);
    writing.write(new, changes, &mut dom.own);
}

/// An add to the word at an index, likewise. Answers the word as it was.
pub fn raw_add<T: Told, W: Writing>(
    heap: &Heap,
    dom: &mut Domain,
    index: usize,
    amount: u64,
    writing: &W,
    changes: &[Change],
) -> u64
    requires here { IsIn dom.old heap.now }
    requires inside { index < table_words heap.now.config }
    requires may { MayStep heap.now.config dom.old.view index (λ n. (n + amount) % 2 ^ 64) T.tells }
    requires closes { (found : ℕ) → Closes heap.now.config dom.old.view found T.tells
        (W.can writing.now found changes.now) (W.writes writing.now found changes.now) }
    ensures here { IsIn dom.new heap.now }
    ensures told { T.tells dom.old.view result dom.new.view }
{
    let found = add_step::<T>(&heap.table.shared, &mut dom.seat, index, amount);
    writing.write(found, changes, &mut dom.own);
    found
}

/// An `or` of bits to the word at an index, likewise. Answers the word as it was.
pub fn raw_or<T: Told, W: Writing>(
    heap: &Heap,
    dom: &mut Domain,
    index: usize,
    bits: u64,
    writing: &W,
    changes: &[Change],
) -> u64
    requires here { IsIn dom.old heap.now }
    requires inside { index < table_words heap.now.config }
    requires may { MayStep heap.now.config dom.old.view index (λ n. bit_or n bits) T.tells }
    requires closes { (found : ℕ) → Closes heap.now.config dom.old.view found T.tells
        (W.can writing.now found changes.now) (W.writes writing.now found changes.now) }
    ensures here { IsIn dom.new heap.now }
    ensures told { T.tells dom.old.view result dom.new.view }
{
    let found = or_step::<T>(&heap.table.shared, &mut dom.seat, index, bits);
    writing.write(found, changes, &mut dom.own);
    found
}

/// An exchange of the word at an index by `new` where it is `old`, likewise. Answers the word as it
/// was.
pub fn raw_exchange<T: Told, W: Writing>(
    heap: &Heap,
    dom: &mut Domain,
    index: usize,
    old: u64,
    new: u64,
    writing: &W,
    changes: &[Change],
) -> u64
    requires here { IsIn dom.old heap.now }
    requires inside { index < table_words heap.now.config }
    requires may { MayStep heap.now.config dom.old.view index (λ n. either (n == old) new n) T.tells }
    requires closes { (found : ℕ) → Closes heap.now.config dom.old.view found T.tells
        (W.can writing.now found changes.now) (W.writes writing.now found changes.now) }
    ensures here { IsIn dom.new heap.now }
    ensures told { T.tells dom.old.view result dom.new.view }
{
    let found = exchange_step::<T>(&heap.table.shared, &mut dom.seat, index, old, new);
    writing.write(found, changes, &mut dom.own);
    found
}
