//! The token of a domain.
ghost use Rattle.std.specs.Prelude.{◌≡◌, ◌≢◌, ◌+◌, ◌<◌, ◌≤◌, ℕ, [], IfOk, length, slice_get, Some};
ghost use Rattle.model_core.specs.Domains.{class_count, IsWithinLimits};
ghost use Rattle.heap_words.specs.declared.value.Value.TheVariants.{Ref};
ghost use Rattle.heap_words.specs.Values.{IsPackable};
ghost use Rattle.heap_rule.specs.Changes.{value_at};
ghost use Rattle.heap_rule.specs.Items.{items_of};
ghost use Rattle.heap_rule.specs.Limits.{sizes_in};
ghost use Rattle.heap_rule.specs.Opening.{opening_token};
ghost use Rattle.heap_rule.specs.Pools.{blocks_of, prepared_at, search_at};
ghost use Rattle.heap_rule.specs.Standing.{IsInHeap};
ghost use Rattle.heap_rule.specs.Token.{IsAddress, SweptWithin, next_address};
ghost use Rattle.heap_rule.specs.Views.{one, opening_view, pending_room};

use crate::change::{Item, Part};
use crate::config::Config;
use crate::view::{
    Copied, Finalisers, Own, Registered, RegisteredLast, Search, Spot, Swept, View, Waiting,
};
use atomic_table::Seat;
use heap_words::Value;
use heap_words::classes::{CLASS_COUNT, POOL_WORDS};
use heap_words::remembered::{BoundedList, BoundedQueue, Remembered};
use std::alloc::{AllocError, Global};
use std::marker::Model;

/// One domain of a heap. It may move between threads.
#[derive(Drop)]
pub struct Domain {
    pub(crate) seat: Seat<(), View>,
    pub(crate) config: Config,
    pub(crate) own: Own,
}

impl Model for Domain {
    ghost use Rattle.heap_rule.specs.Token.{Token};

    ghost Value = { Token };

    ghost use Rattle.heap_rule.specs.Token.{IsSeatOf};
    ghost use Rattle.heap_rule.specs.Views.{domain_in};

    ghost view = { λ d. record { table = d.seat.table_id; config = d.config; view = record { own = d.own; seen = (domain_in d.seat.me.0.domains).seen } } };

    ghost invariant = { λ d. IsSeatOf d.config (record { own = d.own; seen = (domain_in d.seat.me.0.domains).seen }) d.seat.me };
}

impl Domain {
    // The token of a domain that has just been given its seat.
    pub(crate) fn make(
        alloc: Global,
        seat: Seat<(), View>,
        config: &Config,
        number: u32,
    ) -> Result<Domain, AllocError>
        requires seat { seat.me ≡ (one config.now [] (opening_view config.now number), []) }
        requires limits { IsWithinLimits (sizes_in config.now) }
        requires inside { number < config.now.domains }
        ensures { IfOk result (λ d. d ≡ opening_token seat.table_id config.now number) }
    {
        let mut registers = [Value::Nothing; 16];
        registers[0] = Value::Ref(1);
        let remembered = Remembered::make(alloc, config.minor_words as usize)?;
        let area_words = config.domains as usize * config.minor_words as usize;
        let pending = BoundedList::make(alloc, area_words / 4)?;
        let ephemerons = BoundedList::make(alloc, config.ephes as usize)?;
        let finals = BoundedQueue::make(alloc, config.finals as usize)?;
        let lasts = BoundedQueue::make(alloc, config.finals as usize)?;
        let queue = BoundedQueue::make(alloc, config.finals as usize)?;
        Ok(Domain {
            seat,
            config: *config,
            own: Own {
                number,
                registers,
                used: 0,
                serial: 0,
                arrivals: 0,
                looked: [Search {
                    pool: 0,
                    slot: 0,
                    only: false,
                }; CLASS_COUNT],
                remembered,
                prepared: [None; CLASS_COUNT],
                pending,
                ephemerons,
                finalisers: Finalisers {
                    finals,
                    lasts,
                    queue,
                },
                swept: Swept {
                    listed: 0,
                    spot: Spot {
                        pool: config.pools,
                        slot: 0,
                    },
                    top: 1,
                },
            },
        })
    }

    /// The domain's number, counted from 0.
    pub fn number(&self) -> u32
        ensures value { result ≡ self.now.view.own.number }
        ensures below { result < self.now.config.domains }
    {
        self.own.number
    }

    /// What register `r` holds.
    pub fn register(&self, r: u8) -> Value
        requires { r < 16 }
        ensures value { result ≡ value_at self.now.view.own.registers r }
        ensures packable { IsPackable result }
        ensures inside { (a : ℕ) → result ≡ Ref a → IsAddress self.now.config a }
    {
        self.own.registers[r as usize]
    }

    /// The class words of the young blocks that the domain has made.
    pub fn area_used(&self) -> u32
        ensures value { result ≡ self.now.view.own.used }
        ensures room { result ≤ self.now.config.minor_words }
    {
        self.own.used
    }

    /// The address at which the domain's next young block begins.
    pub fn next_address(&self) -> u32
        ensures { result ≡ next_address self.now.config self.now.view }
    {
        let area = self.own.number * self.config.minor_words;
        self.config.pools * POOL_WORDS + area + 1 + self.own.used
    }

    /// How far a free place of the class was looked for in the domain's own pools.
    pub fn looked(&self, class: u32) -> Search
        requires { class < class_count }
        ensures value { result ≡ search_at self.now.view.own.looked class }
        ensures within { (result.pool ≤ self.now.config.pools) × (result.slot < blocks_of class) }
    {
        self.own.looked[class as usize]
    }

    /// How far the domain has swept its own pools, and its list of ephemerons.
    pub fn swept(&self) -> Swept
        ensures value { result ≡ self.now.view.own.swept }
        ensures within { SweptWithin self.now.config result }
    {
        self.own.swept
    }

    /// How many more fields the domain can remember before its next collection.
    pub fn remembered_room(&self) -> usize
        ensures { result ≡ self.now.view.own.remembered.room }
    {
        self.own.remembered.room()
    }

    /// How many fields the domain remembers, in the order in which they were remembered. With those that it can remember still
    /// they are as many as its minor area has words.
    pub fn remembered_len(&self) -> usize
        ensures value { result ≡ length self.now.view.own.remembered.items }
        ensures whole { let list = self.now.view.own.remembered in list.room + length list.items ≡ self.now.config.minor_words }
    {
        self.own.remembered.len()
    }

    /// The `i`-th of them.
    pub fn remembered_at(&self, i: usize) -> u32
        requires { i < length self.now.view.own.remembered.items }
        ensures item { Some result ≡ slice_get self.now.view.own.remembered.items i }
        ensures inside { IsInHeap self.now.config result }
    {
        self.own.remembered.get(i)
    }

    /// The place that is prepared for a copy of a size class.
    pub fn prepared(&self, class: u32) -> Option<u32>
        requires { class < class_count }
        ensures place { result ≡ prepared_at self.now.view.own.prepared class }
        ensures wide { length self.now.view.own.prepared ≡ class_count }
    {
        self.own.prepared[class as usize]
    }

    /// How many copies the domain has made in this collection.
    pub fn pending_len(&self) -> usize
        ensures count { result ≡ length self.now.view.own.pending.items }
        ensures few { result ≤ pending_room self.now.config }
    {
        self.own.pending.len()
    }

    /// The `i`-th of them.
    pub fn pending_at(&self, i: usize) -> Copied
        requires { i < length self.now.view.own.pending.items }
        ensures { Some result ≡ slice_get self.now.view.own.pending.items i }
    {
        self.own.pending.get(i)
    }

    /// How many labels the domain has given out.
    pub fn labels_made(&self) -> u32
        ensures { result ≡ self.now.view.own.serial }
    {
        self.own.serial
    }

    /// How often the domain has arrived at the barrier.
    pub fn arrivals(&self) -> u64
        ensures { result ≡ self.now.view.own.arrivals }
    {
        self.own.arrivals
    }

    /// How many finalisers wait in the domain's queue.
    pub fn queued(&self) -> usize
        ensures { result ≡ length self.now.view.own.finalisers.queue.items }
    {
        self.own.finalisers.queue.len()
    }

    /// The `i`-th of them, the next one first.
    pub fn queue_at(&self, i: usize) -> Waiting
        requires { i < length self.now.view.own.finalisers.queue.items }
        ensures { Some result ≡ slice_get self.now.view.own.finalisers.queue.items i }
    {
        self.own.finalisers.queue.get(i)
    }

    /// How many registrations of `finalise` the domain has that aren't queued.
    pub fn finals_len(&self) -> usize
        ensures { result ≡ length self.now.view.own.finalisers.finals.items }
    {
        self.own.finalisers.finals.len()
    }

    /// The `i`-th of them, the oldest first.
    pub fn final_at(&self, i: usize) -> Registered
        requires { i < length self.now.view.own.finalisers.finals.items }
        ensures { Some result ≡ slice_get self.now.view.own.finalisers.finals.items i }
    {
        self.own.finalisers.finals.get(i)
    }

    /// How many registrations of `finalise_last` the domain has that aren't queued.
    pub fn lasts_len(&self) -> usize
        ensures { result ≡ length self.now.view.own.finalisers.lasts.items }
    {
        self.own.finalisers.lasts.len()
    }

    /// The `i`-th of them, the oldest first.
    pub fn last_at(&self, i: usize) -> RegisteredLast
        requires { i < length self.now.view.own.finalisers.lasts.items }
        ensures { Some result ≡ slice_get self.now.view.own.finalisers.lasts.items i }
    {
        self.own.finalisers.lasts.get(i)
    }

    /// How many more registrations fit. Those that wait in the queue take room until they have run.
    pub fn finals_room(&self) -> usize
        ensures room { result + length self.now.view.own.finalisers.finals.items
            + length self.now.view.own.finalisers.lasts.items
            + length self.now.view.own.finalisers.queue.items ≡ self.now.config.finals }
    {
        let room = self.config.finals as usize;
        room - self.finals_len() - self.lasts_len() - self.queued()
    }

    /// How many more ephemerons fit into the domain's list.
    pub fn ephes_room(&self) -> usize
        ensures { result ≡ self.now.view.own.ephemerons.room }
    {
        self.own.ephemerons.room()
    }

    /// How many ephemerons are listed: those in the domain's own pools, and those that a sweep has
    /// still to free.
    pub fn ephemerons_len(&self) -> usize
        ensures { result ≡ length self.now.view.own.ephemerons.items }
    {
        self.own.ephemerons.len()
    }

    /// The address of the `i`-th of them.
    pub fn ephemeron_at(&self, i: usize) -> u32
        requires { i < length self.now.view.own.ephemerons.items }
        ensures item { Some result ≡ slice_get self.now.view.own.ephemerons.items i }
        ensures inside { IsInHeap self.now.config result }
    {
        self.own.ephemerons.get(i)
    }

    /// The length of a list of the token. The list of young blocks isn't lent.
    pub fn part_len(&self, part: Part) -> u32
        requires { part ≢ Part.Young }
        ensures { result ≡ length (items_of part self.now.view.own) }
    {
        let _seat = &self.seat;
        match part {
            Part::Register => self.own.registers.len() as u32,
            _ => 0,
        }
    }

    /// An item of a list of the token.
    pub fn part_at(&self, part: Part, place: u32) -> Item
        requires part { part ≢ Part.Young }
        requires inside { place < length (items_of part self.now.view.own) }
        ensures { Some result ≡ slice_get (items_of part self.now.view.own) place }
    {
        match part {
            Part::Register => Item {
                value: self.own.registers[place as usize],
                number: 0,
                more: 0,
            },
            _ => unreachable!(),
        }
    }
}
