//! The slices in which a running domain marks, and those in which it sweeps.
ghost use Rattle.heap_rule.specs.declared.phase.Kind.TheVariants.{Run};
ghost use Rattle.heap_rule.specs.declared.phase.Stage.TheVariants.{In};
ghost use Rattle.heap_rule.specs.declared.view.Hunt.TheVariants.{Rests};
ghost use Rattle.heap_rule.specs.Token.{IsIn};
ghost use Rattle.std.specs.Prelude.{◌≡◌};

use crate::fixtures::{CHAINED, Play, Section, TWO_DOMAINS, are_of, same};
use gc_mark::{Deck, Hint, Hints, Scanned, Why, slice};
use gc_sweep::sweep_slice;
use heap_rule::{Domain, Heap};
use model_core::command::Command;
use std::alloc::Global;
use std::test::Fail;
use std::thread::join;
use step_marks::marking::armed_now;

// The decks of two domains.
fn two_decks(alloc: Global) -> Result<(Hints, Hints), Fail> {
    let mut decks = Hints::make(alloc, 2, 0)?;
    let (Some(second), Some(first)) = (decks.pop(), decks.pop()) else {
        return Err(Fail::from("no two decks"));
    };
    Ok((first, second))
}

// A domain behind the end of its trace, with its hints.
#[derive(Drop)]
struct Marker {
    heap: Heap,
    domain: Domain,
    hints: Hints,
    ghost here: { IsIn domain heap },
    ghost runs: { domain.view.seen.stage ≡ In Run },
}

impl Marker {
    // Takes a hint of its own, or else of the other of two domains.
    fn take(&mut self) -> Option<Hint> {
        if self.hints.number() != 1 || self.hints.domains() != 2 {
            return None;
        }
        let own = self.hints.own();
        if own.is_some() {
            own
        } else {
            self.hints.steal(0)
        }
    }

    // A slice of at most so many blocks, where a collection goes on.
    fn sliced(&mut self, most: u32) -> Option<Scanned> {
        if most == 0 || !armed_now(&self.heap, &mut self.domain) {
            return None;
        }
        if !are_of(&self.hints, &self.heap, &self.domain) {
            return None;
        }
        Some(slice(&self.heap, &mut self.domain, &mut self.hints, most))
    }

    // The first such slice that finds a block.
    fn first_sliced(mut self, most: u32) -> Option<Scanned> {
        for _ in 0..100_000_000u32 {
            let scanned = self.sliced(most)?;
            if scanned.count > 0 {
                return Some(scanned);
            }
        }
        None
    }
}

// The second of two domains, which have had these commands.
fn second_marker(alloc: Global, sections: &[Section]) -> Result<Marker, Fail> {
    let play = Play::start(alloc, TWO_DOMAINS, sections)?;
    let (heap, domain, hints) = play.into_ended(1)?;
    Ok(Marker {
        heap,
        domain,
        hints,
    })
}

// A chain of 300 blocks hangs from the shared block alone, and a collection begins.
const CHAIN: [Section; 2] = [
    &[
        (1, &[Command::PutInt { dst: 2, value: 0 }]),
        (300, &CHAINED),
        (
            1,
            &[
                Command::Store {
                    block: 0,
                    index: 0,
                    item: 1,
                },
                Command::Forget { dst: 1 },
                Command::Forget { dst: 2 },
                Command::Major,
            ],
        ),
    ],
    &[],
];

// Commands, and what slices of 256 blocks answer behind them. One domain has marked the shared block, as its root, and has
// the hint of it. The second slice goes on with what the first has noted. Where no collection goes on there is no slice.
const SLICES: [(&[Section], &[Option<Scanned>]); 2] = [
    (
        &CHAIN,
        &[
            Some(Scanned {
                count: 256,
                why: Why::Enough,
            }),
            Some(Scanned {
                count: 45,
                why: Why::NoneFound,
            }),
            Some(Scanned {
                count: 0,
                why: Why::NoneFound,
            }),
        ],
    ),
    (&[&[(1, &[Command::Minor])], &[]], &[None]),
];

// Whether slices of 256 blocks answer so.
fn slices_so(marker: &mut Marker, slices: &[Option<Scanned>]) -> bool {
    let mut right = true;
    for wanted in slices {
        right = marker.sliced(256) == *wanted && right;
    }
    right
}

#[test]
fn slices_scan_256_blocks(rt: HostRuntime) -> Result<(), Fail> {
    for (sections, slices) in &SLICES {
        let mut marker = second_marker(rt.alloc(), sections)?;
        let right = slices_so(&mut marker, slices);
        same(&rt, right, true);
    }
    Ok(())
}

// The hint is the first domain's, and the second, in another thread, scans what hangs from it.
#[test]
fn another_thread_takes_a_hint(rt: HostRuntime) -> Result<(), Fail> {
    let mut second = second_marker(rt.alloc(), &CHAIN)?;
    let hint = second.take().ok_or("no hint")?;
    let (mut first, hints) = two_decks(rt.alloc())?;
    second.hints = hints;
    let (mut first, scanned) = join(
        &rt,
        move || {
            first.push(hint);
            first
        },
        move || second.first_sliced(64),
    );
    let wanted = Scanned {
        count: 64,
        why: Why::Enough,
    };
    same(&rt, scanned, Some(wanted));
    same(&rt, first.own().is_none(), true);
    Ok(())
}

// Register 1 holds a new block of the major heap.
const BLOCK: Command = Command::AllocMaj {
    dst: 1,
    tag: 0,
    fields: 1,
};

// Three blocks hang from the shared block, each at a higher address than the one before, and a collection begins.
const THREE: [Section; 2] = [
    &[(
        1,
        &[
            BLOCK,
            Command::Store {
                block: 0,
                index: 0,
                item: 1,
            },
            BLOCK,
            Command::Store {
                block: 0,
                index: 1,
                item: 1,
            },
            BLOCK,
            Command::Store {
                block: 0,
                index: 2,
                item: 1,
            },
            Command::Forget { dst: 1 },
            Command::Major,
        ],
    )],
    &[],
];

// The hints of the blocks that one slice has darkened are taken newest first. Then none is left.
#[test]
fn the_newest_hint_is_taken_first(rt: HostRuntime) -> Result<(), Fail> {
    let mut marker = second_marker(rt.alloc(), &THREE)?;
    let wanted = Scanned {
        count: 1,
        why: Why::Enough,
    };
    same(&rt, marker.sliced(1), Some(wanted));
    let mut newer = marker.take().ok_or("no hint")?.address();
    for _ in 0..2u32 {
        let address = marker.take().ok_or("no hint")?.address();
        same(&rt, address < newer, true);
        newer = address;
    }
    same(&rt, marker.take().is_none(), true);
    Ok(())
}

// A domain that runs on behind the end of its trace.
#[derive(Drop)]
struct Sweeper {
    heap: Heap,
    domain: Domain,
    ghost here: { IsIn domain heap },
    ghost runs: { domain.view.seen.stage ≡ In Run },
    ghost at_rest: { domain.view.seen.hunt ≡ Rests },
}

impl Sweeper {
    // The first of two domains, behind these commands.
    fn behind(alloc: Global, sections: &[Section]) -> Result<Sweeper, Fail> {
        let play = Play::start(alloc, TWO_DOMAINS, sections)?;
        let (heap, domain, _) = play.into_ended(0)?;
        Ok(Sweeper { heap, domain })
    }

    // A slice of at most so many places.
    fn sliced(&mut self, most: u32) -> u32 {
        sweep_slice(&self.heap, &mut self.domain, most)
    }
}

// Commands, and at how many places slices of 100 look behind them. Where no collection has ended there is nothing to sweep. Of
// the second a block of 128 words dies: the poll asks for the end of the collection, which comes before that of the trace. The
// pool of the shared block has 128 places, and that of the other one 32. Each is looked at once.
const SWEEPS: [(&[Section], &[u32]); 2] = [
    (&[&[], &[]], &[0]),
    (
        &[
            &[(
                1,
                &[
                    Command::AllocMaj {
                        dst: 1,
                        tag: 0,
                        fields: 126,
                    },
                    Command::Forget { dst: 1 },
                    Command::Major,
                    Command::Poll,
                ],
            )],
            &[],
        ],
        &[100, 60, 0],
    ),
];

#[test]
fn slices_of_100_places_sweep_two_pools(rt: HostRuntime) -> Result<(), Fail> {
    for (sections, slices) in &SWEEPS {
        let mut sweeper = Sweeper::behind(rt.alloc(), sections)?;
        for looked_at in *slices {
            same(&rt, sweeper.sliced(100), *looked_at);
        }
    }
    Ok(())
}
