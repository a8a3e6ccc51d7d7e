//! A load by several domains at once: their seats are made one for it, and cut again.
ghost use Rattle.std.specs.Prelude.{◌≡◌, ◌<◌, ℕ, [], ◌++◌, length, vec_capacity};
ghost use Rattle.atomic_table.specs.Table.{Allows};
ghost use Rattle.heap_rule.specs.Ending.{AllIn};
ghost use Rattle.heap_rule.specs.Layout.{table_words};
ghost use Rattle.heap_rule.specs.Raw.{LeavesAll, MayLoadAll, SameOwn};
ghost use Rattle.heap_rule.specs.Rule.{Rule};
ghost use Rattle.heap_rule.specs.Token.{views_of};
ghost use Rattle.heap_rule.specs.Views.{TellsAll};

use crate::config::Config;
use crate::domain::Domain;
use crate::heap::Heap;
use crate::rule::{JoinSeat, Law, SplitSeat, TellingAll, ToldAll};
use crate::view::View;
use atomic_table::{Seat, Shared};

// A load of the word at an index by a seat that stands for several domains.
pub(crate) fn load_together<T: ToldAll>(
    table: &Shared<(), View, Config, Law>,
    seat: &mut Seat<(), View>,
    index: usize,
) -> u64
    requires table { seat.old.table_id ≡ table.now.table_id }
    requires inside { index < table.now.table_id.words }
    requires rule { Allows (Rule table.now.key) table.now.table_id.slots seat.old.id seat.old.me index
        (λ n. n) (TellsAll T.tells_all seat.old.me) }
    ensures same { seat.new.table_id ≡ seat.old.table_id }
    ensures told { TellsAll T.tells_all seat.old.me result seat.new.me }
{
    table.load::<TellingAll<T>>(seat, index)
}

// A load by a seat that stands for these domains and, behind them, for those of another seat. Answers that
// seat, which stands for those alone again, and the word.
fn load_before<T: ToldAll>(
    table: &Shared<(), View, Config, Law>,
    domains: &mut Vec<Domain>,
    seat: Seat<(), View>,
    index: usize,
) -> (Seat<(), View>, u64)
    requires table { seat.table_id ≡ table.now.table_id }
    requires here { AllIn (record { table = table.now.table_id; config = table.now.key }) domains.old.items }
    requires seat { (seat.me.0.config ≡ table.now.key) × (seat.me.1 ≡ []) }
    requires inside { index < table.now.table_id.words }
    requires may { MayLoadAll table.now.key (views_of domains.old.items ++ seat.me.0.domains) index T.tells_all }
    requires leaves { LeavesAll (views_of domains.old.items ++ seat.me.0.domains) T.tells_all }
    ensures table { result.0.table_id ≡ seat.table_id }
    ensures here { AllIn (record { table = table.now.table_id; config = table.now.key }) domains.new.items }
    ensures seat { (result.0.me.0.config ≡ table.now.key) × (result.0.me.1 ≡ []) }
    ensures told { T.tells_all (views_of domains.old.items ++ seat.me.0.domains) result.1 (views_of domains.new.items ++ result.0.me.0.domains) }
    ensures same { SameOwn (views_of domains.old.items) (views_of domains.new.items) }
    ensures own { SameOwn seat.me.0.domains result.0.me.0.domains }
    ensures room { vec_capacity domains.new ≡ vec_capacity domains.old }
{
    let Some(last) = domains.pop() else {
        let mut seat = seat;
        let found = load_together::<T>(table, &mut seat, index);
        return (seat, found);
    };
    let Domain {
        seat: mut both,
        config,
        own,
    } = last;
    table.join_seat::<JoinSeat>(&mut both, seat);
    let (mut rest, found) = load_before::<T>(table, domains, both, index);
    let seat = table.split_seat::<SplitSeat>(&mut rest);
    domains.push_reserved(Domain { seat, config, own });
    (rest, found)
}

/// A load of the word at an index by all these domains at once. The rule allows the load to a seat that
/// stands for them in this order, and it leaves their plain data. Answers the word.
pub fn raw_load_all<T: ToldAll>(heap: &Heap, domains: &mut Vec<Domain>, index: usize) -> u64
    requires here { AllIn heap.now domains.old.items }
    requires some { 0 < length domains.old.items }
    requires inside { index < table_words heap.now.config }
    requires may { MayLoadAll heap.now.config (views_of domains.old.items) index T.tells_all }
    requires leaves { LeavesAll (views_of domains.old.items) T.tells_all }
    ensures here { AllIn heap.now domains.new.items }
    ensures told { T.tells_all (views_of domains.old.items) result (views_of domains.new.items) }
    ensures room { vec_capacity domains.new ≡ vec_capacity domains.old }
{
    let Some(last) = domains.pop() else {
        unreachable!()
    };
    let Domain { seat, config, own } = last;
    let (seat, found) = load_before::<T>(&heap.table.shared, domains, seat, index);
    domains.push_reserved(Domain { seat, config, own });
    found
}
