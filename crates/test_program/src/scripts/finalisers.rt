//! Finalisers in scripts, with the replies that they have by hand.
use crate::scripts::program::{run_with_gate, sink, source};
use std::alloc::{AllocError, Global};
use std::process::Abort;
use std::sync::Wait;
use std::sync::atomic::{AtomicUsize, Ordering};
use std::test::Fail;
use std::thread::Threads;
use text_ends::Gate;

/// The commands of domain 0, and what they print.
pub(crate) const REPLIES: [(&str, &str); 16] = [
    // The finaliser of `finalise` is given its value, which lives again; that of `finalise_last` runs once the value
    // is let go for good.
    (
        "alloc 1 0 1\nfinalise 1 5 2\nfinalise_last 1 6\ndrop 1\nfull_major\nfull_major\ndrop 2\nfull_major\n",
        "blk 0:1\nok\nok\nok\nlive 2 21\nfin 5 0:1\nlive 2 21\nok\nlive 1 18\nlast 6\n",
    ),
    // Three of one value, the newest first.
    (
        "alloc 1 0 1\nfinalise 1 1 2\nfinalise 1 2 2\nfinalise 1 3 2\ndrop 1\nfull_major\n",
        "blk 0:1\nok\nok\nok\nok\nlive 2 21\nfin 3 0:1\nfin 2 0:1\nfin 1 0:1\n",
    ),
    // Five of one value, of both kinds. Those of `finalise_last` wait until the value is let go of again.
    (
        "alloc 1 0 1\nfinalise 1 1 2\nfinalise_last 1 2\nfinalise 1 3 3\nfinalise_last 1 4\nfinalise 1 5 2\ndrop 1\nfull_major\ndrop 2\nfull_major\ndrop 3\nfull_major\npoll\n",
        "blk 0:1\nok\nok\nok\nok\nok\nok\nlive 2 21\nfin 5 0:1\nfin 3 0:1\nfin 1 0:1\nok\nlive 2 21\nok\nlive 1 18\nlast 4\nlast 2\nok\n",
    ),
    // A value that lives at the end of the trace isn't finalised.
    ("alloc 1 0 1\nfinalise 1 5 2\n", "blk 0:1\nok\n"),
    // Nor is one that is dead by then, without a collection of the major heap.
    (
        "alloc 1 0 1\nfinalise 1 5 2\nfinalise_last 1 6\ndrop 1\nminor\n",
        "blk 0:1\nok\nok\nok\nok\n",
    ),
    // A weak key is empty when the finaliser of its value runs.
    (
        "alloc 1 0 1\nephe 2 1\nset_key 2 0 1\nfinalise_last 1 4\ndrop 1\nfull_major\ncheck_key 2 0\n",
        "blk 0:1\nblk 0:2\nok\nok\nok\nlive 2 22\nlast 4\nno\n",
    ),
    // It stays full where the finaliser gives the value back.
    (
        "alloc 1 0 1\nephe 2 1\nset_key 2 0 1\nfinalise 1 4 3\ndrop 1\nfull_major\nget_key 5 2 0\ndrop 3\ndrop 5\nfull_major\ncheck_key 2 0\n",
        "blk 0:1\nblk 0:2\nok\nok\nok\nlive 3 25\nfin 4 0:1\nblk 0:1\nok\nok\nlive 2 22\nno\n",
    ),
    // The value is stored where it lives, and its finaliser doesn't run again.
    (
        "alloc 1 0 1\nfinalise 1 5 2\ndrop 1\nfull_major\nstore 0 0 2\ndrop 2\nfull_major\nload 3 0 0\nfull_major\n",
        "blk 0:1\nok\nok\nlive 2 21\nfin 5 0:1\nok\nok\nlive 2 21\nblk 0:1\nlive 2 21\n",
    ),
    // It is let go of again, and its finaliser doesn't run again.
    (
        "alloc 1 0 1\nfinalise 1 5 2\ndrop 1\nfull_major\ndrop 2\nfull_major\nfull_major\n",
        "blk 0:1\nok\nok\nlive 2 21\nfin 5 0:1\nok\nlive 1 18\nlive 1 18\n",
    ),
    // Unless it was registered again.
    (
        "alloc 1 0 1\nfinalise 1 5 2\ndrop 1\nfull_major\nfinalise 2 6 3\ndrop 2\nfull_major\nmove 4 3\ndrop 3\nfull_major\n",
        "blk 0:1\nok\nok\nlive 2 21\nfin 5 0:1\nok\nok\nlive 2 21\nfin 6 0:1\nok\nok\nlive 2 21\n",
    ),
    // Two finalisers put their values into one register: only the one that was put there last lives on.
    (
        "alloc 1 0 1\nalloc 2 0 2\nfinalise 1 1 5\nfinalise 2 2 5\ndrop 1\ndrop 2\nfull_major\nfull_major\nload 6 5 1\n",
        "blk 0:1\nblk 0:2\nok\nok\nok\nok\nlive 3 25\nfin 2 0:2\nfin 1 0:1\nlive 2 21\nbounds\n",
    ),
    // A value to which one leads that waits for its `finalise` isn't dead for good.
    (
        "alloc 1 0 1\nalloc 2 0 1\nstore 1 0 2\nfinalise 1 5 3\nfinalise_last 2 7\ndrop 1\ndrop 2\nfull_major\nfull_major\ndrop 3\nfull_major\n",
        "blk 0:1\nblk 0:2\nok\nok\nok\nok\nok\nlive 3 24\nfin 5 0:1\nlive 3 24\nok\nlive 1 18\nlast 7\n",
    ),
    // Two values that lead to each other are finalised together. `major` begins a collection, and `poll` finds that all
    // is scanned, and asks for its end: their finalisers come behind both.
    (
        "alloc 1 0 1\nalloc 2 0 1\nstore 1 0 2\nstore 2 0 1\nfinalise 2 8 3\nfinalise 1 9 4\ndrop 1\ndrop 2\nmajor\npoll\n",
        "blk 0:1\nblk 0:2\nok\nok\nok\nok\nok\nok\nok\nok\nfin 9 0:1\nfin 8 0:2\n",
    ),
    // An ephemeron is a value too, and the shared block never dies.
    (
        "ephe 1 1\nfinalise 1 65535 1\nfinalise_last 0 0\nfinalise 0 0 15\nset_key 1 0 0\ndrop 1\nfull_major\ncheck_key 1 0\n",
        "blk 0:1\nok\nok\nok\nok\nok\nlive 2 22\nfin 65535 0:1\nyes\n",
    ),
    // What isn't a block has no finaliser.
    (
        "int 1 5\nfinalise 1 1 2\nfinalise 9 1 2\nfinalise_last 1 1\nfinalise_last 9 1\nfull_major\n",
        "ok\ntype\ntype\ntype\ntype\nlive 1 18\n",
    ),
    // A registration goes with its value through a minor collection.
    (
        "alloc 1 0 1\nint 2 7\nstore 1 0 2\nfinalise 1 3 4\nfinalise_last 1 5\ndrop 1\nminor\nminor\nfull_major\nload 6 4 0\n",
        "blk 0:1\nok\nok\nok\nok\nok\nok\nok\nlive 2 21\nfin 3 0:1\nint 7\n",
    ),
];

// How often a domain looks whether it may go on.
const LOOKS: u32 = 1_000_000_000;

// Of the commands, each told by its domain and its index, some are counted, and some wait until so many were.
#[derive(Drop)]
struct Counted {
    counted: &'static [(u32, u32)],
    waiting: &'static [((u32, u32), usize)],
    count: AtomicUsize,
}

impl Counted {
    fn wait_for(&self, count: usize) {
        for _ in 0..LOOKS {
            if self.count.load(Ordering::SeqCst) >= count {
                return;
            }
        }
    }
}

impl Gate for Counted {
    fn before(&self, domain: u32, index: u32) {
        for (at, count) in self.waiting {
            if *at == (domain, index) {
                self.wait_for(*count);
            }
        }
    }

    fn after(&self, domain: u32, index: u32) {
        if self.counted.iter().any(|at| *at == (domain, index)) {
            self.count.fetch_add(1, Ordering::SeqCst);
        }
    }
}

// A run of several domains, and the finalisers of each in the order in which they ran.
struct Shared {
    words: &'static str,
    script: &'static str,
    counted: &'static [(u32, u32)],
    waiting: &'static [((u32, u32), usize)],
    finalised: &'static str,
}

// The headings of an output, and the lines of finalisers.
fn finalised_in(alloc: Global, written: &[u8]) -> Result<Vec<u8>, AllocError> {
    let mut lines = Vec::new(alloc);
    for line in written.split(|byte| *byte == b'\n') {
        if [b"domain".as_slice(), b"fin", b"last"]
            .iter()
            .any(|word| line.starts_with(word))
        {
            lines.extend_from_slice(line)?;
            lines.push(b'\n')?;
        }
    }
    Ok(lines)
}

fn finalises<R: Threads + Wait + Sync + Abort>(
    rt: &R,
    alloc: Global,
    shared: &Shared,
) -> Result<(), AllocError> {
    let gate = Counted {
        counted: shared.counted,
        waiting: shared.waiting,
        count: AtomicUsize::new(0),
    };
    let source = source(alloc, shared.script, 4096, &[])?;
    let sink = sink(alloc, 4096, &[])?;
    let given = run_with_gate(rt, alloc, shared.words, source, sink, &gate)?;
    assert_eq!(rt; given.number, 0);
    let finalised = finalised_in(alloc, &given.written)?;
    assert_eq!(rt; finalised.as_slice(), shared.finalised.as_bytes());
    Ok(())
}

// Once all have registered the value and let it go, domain 0 lets go of it too. Then each domain asks for a collection of
// its own, and so has run its finalisers before its trace ends.
const SEVERAL: [Shared; 2] = [
    Shared {
        words: "run",
        script: "heap 1\ndomain 0\nalloc 1 0 1\nstore 0 0 1\nfinalise 1 1 2\ndrop 1\nint 3 0\nstore 0 0 3\nfull_major\ndomain 1\nload 1 0 0\nfinalise 1 2 2\ndrop 1\nfull_major\n",
        counted: &[(0, 1), (1, 2), (0, 5)],
        waiting: &[((1, 0), 1), ((0, 5), 2), ((1, 3), 3)],
        finalised: "domain 0\nfin 1 0:1\ndomain 1\nfin 2 0:1\n",
    },
    Shared {
        words: "run --domains 3",
        script: "heap 1\ndomain 0\nalloc 1 0 1\nstore 0 0 1\nfinalise 1 1 2\nfinalise 1 2 2\ndrop 1\nint 3 0\nstore 0 0 3\nfull_major\ndomain 1\nload 1 0 0\nfinalise 1 3 2\nfinalise 1 4 2\ndrop 1\nfull_major\ndomain 2\nload 1 0 0\nfinalise 1 5 2\ndrop 1\nfull_major\n",
        counted: &[(0, 1), (1, 3), (2, 2), (0, 6)],
        waiting: &[
            ((1, 0), 1),
            ((2, 0), 1),
            ((0, 6), 3),
            ((1, 4), 4),
            ((2, 3), 4),
        ],
        finalised: "domain 0\nfin 2 0:1\nfin 1 0:1\ndomain 1\nfin 4 0:1\nfin 3 0:1\ndomain 2\nfin 5 0:1\n",
    },
];

#[test]
fn each_domain_finalises_a_value_that_all_registered(rt: HostRuntime) -> Result<(), Fail> {
    for shared in &SEVERAL {
        for _ in 0..20u32 {
            finalises(&rt, rt.alloc(), shared)?;
        }
    }
    Ok(())
}

// Domain 1 ends while its values live, and they die with it.
const ENDED: Shared = Shared {
    words: "run",
    script: "heap 1\ndomain 0\npoll\nfull_major\nfull_major\nfull_major\nfull_major\ndomain 1\nalloc 1 0 1\nfinalise 1 5 2\nfinalise_last 1 6\n",
    counted: &[(1, 2)],
    waiting: &[((0, 0), 1)],
    finalised: "domain 0\ndomain 1\n",
};

#[test]
fn registrations_of_a_domain_that_has_ended_never_run(rt: HostRuntime) -> Result<(), Fail> {
    for _ in 0..20u32 {
        finalises(&rt, rt.alloc(), &ENDED)?;
    }
    Ok(())
}
