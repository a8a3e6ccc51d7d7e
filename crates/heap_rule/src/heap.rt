//! The heap, from its start to its end.
ghost use Rattle.std.specs.Prelude.{◌≡◌, ◌↔◌, ◌+◌, ◌<◌, ◌≤◌, ℕ, [], length, vec_capacity, IfOk, Some, Err};
ghost use Rattle.model_core.specs.Domains.{IsWithinLimits};
ghost use Rattle.model_core.specs.History.{Legal};
ghost use Rattle.heap_rule.specs.Layout.{before_heap};
ghost use Rattle.heap_rule.specs.Limits.{sizes_in, first_outside};
ghost use Rattle.heap_rule.specs.Opening.{opening_token, opening_tokens};
ghost use Rattle.heap_rule.specs.Ending.{AllIn, AllBegin};
ghost use Rattle.heap_rule.specs.Views.{first_view};
ghost use Rattle.heap_rule.specs.Meeting.{InOnePause, Met, MetAll, SameCopies};
ghost use Rattle.heap_rule.specs.Phases.{Agree};
ghost use Rattle.heap_rule.specs.Token.{IsIn};

use crate::config::{Config, StartFault};
use crate::domain::Domain;
use crate::layout::{WANT, index_of, opening_words};
use crate::rule::{JoinSeat, Law, Learn, SplitSeat};
use crate::together::{load_together, raw_load_all};
use crate::view::View;
use atomic_table::{Seat, Table};
use std::alloc::{AllocError, Global};
use std::marker::{Brand, Model};

/// The heap, which all domains share.
#[derive(Drop)]
pub struct Heap {
    pub(crate) table: Table<(), View, Config, Law, Global>,
    pub(crate) config: Config,
    // The index before that of the heap's first word, which is the word with address 1.
    pub(crate) before: usize,
}

impl Model for Heap {
    ghost use Rattle.std.specs.Prelude.{◌≡◌, ◌≤◌};
    ghost use Rattle.model_core.specs.Domains.{IsWithinLimits};
    ghost use Rattle.heap_rule.specs.Limits.{sizes_in};
    ghost use Rattle.heap_rule.specs.Layout.{before_heap, table_words};
    ghost use Rattle.heap_rule.specs.Token.{SharedHeap};

    ghost Value = { SharedHeap };

    ghost view = { λ h. record { table = h.table.shared.table_id; config = h.table.shared.key } };

    ghost invariant = { λ h. (h.table.shared.table_id.words ≡ table_words h.table.shared.key) × (h.config ≡ h.table.shared.key) × (h.before ≡ before_heap h.table.shared.key) × IsWithinLimits (sizes_in h.table.shared.key) };
}

impl Heap {
    /// How large the heap is. Its numbers are within their limits.
    pub fn config(&self) -> Config
        ensures value { result ≡ self.now.config }
        ensures limits { IsWithinLimits (sizes_in self.now.config) }
    {
        self.config
    }

    /// The index of the word with this address.
    pub fn index_of(&self, address: u32) -> usize
        ensures { result ≡ before_heap self.now.config + address }
    {
        self.before + address as usize
    }

    /// A heap, and the tokens of its domains, numbered from 0. Each runs, register 0 holds the
    /// shared block and the others nothing. All memory is taken here.
    ///
    /// `Config(k)` names the first field of `config` outside its limit.
    pub fn start(alloc: Global, config: Config) -> Result<(Heap, Vec<Domain>), StartFault>
        ensures outside { (k : ℕ) → (result ≡ Err (StartFault.Config k)) ↔ (first_outside config ≡ Some k) }
        ensures config { IfOk result (λ r. r.0.config ≡ config) }
        ensures tokens { IfOk result (λ r. r.1.items ≡ opening_tokens r.0.table config 0 config.domains) }
    {
        if let Some(field) = config.first_outside() {
            return Err(StartFault::Config(field));
        }
        let words = opening_words(alloc, &config)?;
        let (table, seat) = Table::of_words(alloc, words.as_slice(), &config)?;
        let before = index_of(config.pools, 0);
        let heap = Heap {
            table,
            config,
            before,
        };
        let domains = seated(alloc, &heap, seat, config.domains)?;
        Ok((heap, domains))
    }
}

// Cuts the first seat, so that each domain has one of its own.
fn seated(
    alloc: Global,
    heap: &Heap,
    seat: Seat<(), View>,
    count: u32,
) -> Result<Vec<Domain>, AllocError>
    requires seat { (seat.table_id ≡ heap.now.table) × (seat.me ≡ (first_view heap.now.config, [])) }
    requires count { (count ≡ heap.now.config.domains) × (0 < count) }
    ensures { IfOk result (λ v. v.items ≡ opening_tokens heap.now.table heap.now.config 0 count) }
{
    let mut seat = seat;
    let mut domains = Vec::new(alloc);
    for i in 0..count - 1 {
        let mine = heap.table.shared.split_seat::<SplitSeat>(&mut seat);
        let domain = Domain::make(alloc, mine, &heap.config, i)?;
        domains.push(domain)?;
    }
    let last = Domain::make(alloc, seat, &heap.config, count - 1)?;
    domains.push(last)?;
    Ok(domains)
}

/// A heap that has ended. Contracts see its numbers and its one history.
#[derive(Drop)]
pub struct Ended {
    seat: Seat<(), View>,
}

impl Model for Ended {
    ghost use Rattle.model_core.specs.History.{Legal};
    ghost use Rattle.heap_rule.specs.Ending.{EndedHeap};
    ghost use Rattle.heap_rule.specs.Limits.{sizes_in};

    ghost Value = { EndedHeap };

    ghost view = { λ e. record { sizes = sizes_in e.seat.me.0.config; history = e.seat.me.0.history } };

    ghost invariant = { λ e. Legal (sizes_in e.seat.me.0.config) e.seat.me.0.history };
}

impl Ended {
    /// The history is legal for the heap's numbers of domains, minor words and pools.
    pub fn shows_legal(&self)
        ensures { Legal self.now.sizes self.now.history }
    {
        let _seat = &self.seat;
    }
}

impl Heap {
    /// Ends the heap. `domains` has at least one domain, and all are of this heap. The history begins
    /// with the front of each domain that is handed in, and has no other entry of that domain. A domain
    /// that isn't handed in may have further entries.
    pub fn stop(self, domains: Vec<Domain>) -> Ended
        requires here { AllIn self domains.items }
        requires some { 0 < length domains.items }
        ensures sizes { result.sizes ≡ sizes_in self.config }
        ensures legal { Legal result.sizes result.history }
        ensures fronts { AllBegin result.history domains.items }
    {
        let mut domains = domains;
        let Some(last) = domains.pop() else {
            unreachable!()
        };
        let Domain {
            mut seat,
            config: _,
            own: _,
        } = last;
        while let Some(next) = domains.pop() {
            let Domain {
                seat: other,
                config: _,
                own: _,
            } = next;
            self.table.shared.join_seat::<JoinSeat>(&mut seat, other);
        }
        self.table.shared.load::<Learn>(&mut seat, WANT);
        Ended { seat }
    }
}

impl Heap {
    /// Brings two domains together for a moment. Both then see one history, which begins with what each
    /// had seen and in which neither has made an entry that it hadn't seen, and are else as they were. Each
    /// acts where the other may: while one is in a phase of a pause the other doesn't run, and two that are
    /// in even phases, and haven't arrived there, are in phases of one kind. Both have arrived as often as
    /// the number of one phase or once more, and know the same kinds of phases. While they copy young
    /// blocks, no block has two copies: where both know of one, it is the same.
    pub fn meet(&self, a: Domain, b: Domain) -> (Domain, Domain)
        requires here { IsIn a self.now × IsIn b self.now }
        ensures agree { Agree a.view.seen.stage b.view.seen.stage }
        ensures one_pause { InOnePause a.view b.view }
        ensures copies { SameCopies a.view a.view × SameCopies a.view b.view × SameCopies b.view b.view }
        ensures met { Met self.now.config a b result.0 result.1 }
    {
        let Domain {
            mut seat,
            config,
            own,
        } = a;
        let Domain {
            seat: other,
            config: other_config,
            own: other_own,
        } = b;
        self.table.shared.join_seat::<JoinSeat>(&mut seat, other);
        load_together::<Brand>(&self.table.shared, &mut seat, WANT);
        let first = self.table.shared.split_seat::<SplitSeat>(&mut seat);
        let first = Domain {
            seat: first,
            config,
            own,
        };
        let second = Domain {
            seat,
            config: other_config,
            own: other_own,
        };
        (first, second)
    }

    /// Brings all these domains together for a moment, of which there is at least one. All then see one
    /// history, which begins with what each had seen and in which none has made an entry that it hadn't
    /// seen, and are else as they were. They stand in one pause, and where they are all domains of the heap
    /// one of them has arrived as often as the number of the phase: it acts. While they copy young blocks,
    /// no block has two copies: where two know of one, it is the same.
    pub fn meet_all(&self, domains: &mut Vec<Domain>)
        requires here { AllIn self.now domains.old.items }
        requires some { 0 < length domains.old.items }
        ensures here { AllIn self.now domains.new.items }
        ensures met { MetAll self.now.config domains.old.items domains.new.items }
        ensures room { vec_capacity domains.new ≡ vec_capacity domains.old }
    {
        raw_load_all::<Brand>(self, domains, WANT);
    }
}
