//! Domains that race for a field of the shared block.
use crate::scripts::program::{run_plain, run_with_gate, sink, source};
use std::alloc::{AllocError, Global};
use std::sync::Wait;
use std::sync::atomic::{AtomicUsize, Ordering};
use std::test::Fail;
use std::thread::Threads;
use text_ends::Gate;

const WORDS: &str = "run --minor 4096 --pools 39";

// Each domain stores a number of its own into the same field, and loads it.
const RACE: &str =
    "heap 1\ndomain 0\nint 1 10\nstore 0 0 1\nload 2 0 0\ndomain 1\nint 1 20\nstore 0 0 1\nload 2 0 0\n";

// What the histories print: both loads find the later store, or each its own.
const BOTH_10: &str = "domain 0\nok\nok\nint 10\ndomain 1\nok\nok\nint 10\n";

const EACH_ITS_OWN: &str = "domain 0\nok\nok\nint 10\ndomain 1\nok\nok\nint 20\n";

const BOTH_20: &str = "domain 0\nok\nok\nint 20\ndomain 1\nok\nok\nint 20\n";

// Each domain puts a number into a field that holds 0.
const EXCHANGES: &str =
    "heap 2\ndomain 0\nint 1 0\nint 2 5\ncas 0 0 1 2\ndomain 1\nint 1 0\nint 2 5\ncas 0 0 1 2\n";

// Exactly one of them does.
const FIRST_WINS: &str = "domain 0\nok\nok\nyes\ndomain 1\nok\nok\nno\n";

const SECOND_WINS: &str = "domain 0\nok\nok\nno\ndomain 1\nok\nok\nyes\n";

// Scripts, and what the histories of each print.
const RACES: [(&str, &[&str]); 2] = [
    (RACE, &[BOTH_10, EACH_ITS_OWN, BOTH_20]),
    (EXCHANGES, &[FIRST_WINS, SECOND_WINS]),
];

#[test]
fn a_race_prints_what_a_history_allows(rt: HostRuntime) -> Result<(), Fail> {
    for turn in 0..200u32 {
        for (script, allowed) in &RACES {
            let given = run_plain(&rt, rt.alloc(), WORDS, script)?;
            assert_eq!(rt; given.number, 0, "run {turn}");
            let is_allowed = allowed
                .iter()
                .any(|prints| given.written.as_slice() == prints.as_bytes());
            assert!(rt; is_allowed, "run {turn}");
        }
    }
    Ok(())
}

// How often a domain looks whether it is its turn.
const LOOKS: u32 = 1_000_000_000;

// Lets some commands, each told by its domain and its index, pass one after another in this order.
#[derive(Drop)]
struct InOrder {
    order: [(u32, u32); 4],
    passed: AtomicUsize,
}

impl InOrder {
    fn place(&self, domain: u32, index: u32) -> Option<usize> {
        self.order.iter().position(|at| *at == (domain, index))
    }
}

impl Gate for InOrder {
    fn before(&self, domain: u32, index: u32) {
        let Some(place) = self.place(domain, index) else {
            return;
        };
        for _ in 0..LOOKS {
            if self.passed.load(Ordering::SeqCst) == place {
                return;
            }
        }
    }

    fn after(&self, domain: u32, index: u32) {
        if self.place(domain, index).is_some() {
            self.passed.fetch_add(1, Ordering::SeqCst);
        }
    }
}

// What a run of two domains prints whose commands pass in this order.
fn prints_in_order<R: Threads + Wait + Sync>(
    rt: &R,
    alloc: Global,
    script: &str,
    order: [(u32, u32); 4],
) -> Result<Vec<u8>, AllocError> {
    let gate = InOrder {
        order,
        passed: AtomicUsize::new(0),
    };
    let source = source(alloc, script, 4096, &[])?;
    let sink = sink(alloc, 4096, &[])?;
    let given = run_with_gate(rt, alloc, WORDS, source, sink, &gate)?;
    Ok(given.written)
}

// Domain 0 stores a young block into the shared block and forgets it, domain 1 loads it there and stores it into another
// field, and domain 0 finds it again.
const TO_AND_FRO: &str =
    "heap 1\ndomain 0\nalloc 1 0 1\nstore 0 0 1\ndrop 1\nload 2 0 1\ndomain 1\npoll\nload 1 0 0\nstore 0 1 1\nmove 2 1\n";

const FOUND_AGAIN: &str = "domain 0\nblk 0:1\nok\nok\nblk 0:1\ndomain 1\nok\nblk 0:1\nok\nok\n";

// Scripts, an order of four commands, and what is printed then. Each output of the race comes about.
const IN_ORDER: [(&str, [(u32, u32); 4], &str); 5] = [
    (RACE, [(0, 1), (0, 2), (1, 1), (1, 2)], EACH_ITS_OWN),
    (RACE, [(1, 1), (1, 2), (0, 1), (0, 2)], EACH_ITS_OWN),
    (RACE, [(0, 1), (1, 1), (1, 2), (0, 2)], BOTH_20),
    (RACE, [(1, 1), (0, 1), (1, 2), (0, 2)], BOTH_10),
    (TO_AND_FRO, [(0, 1), (1, 1), (1, 2), (0, 3)], FOUND_AGAIN),
];

#[test]
fn commands_that_pass_in_order(rt: HostRuntime) -> Result<(), Fail> {
    for (script, order, prints) in &IN_ORDER {
        let written = prints_in_order(&rt, rt.alloc(), script, *order)?;
        assert!(rt; written.as_slice() == prints.as_bytes(), "{prints}");
    }
    Ok(())
}
