//! Runs driven in threads, and by the caller alone.
use crate::fixtures::{ONE_DOMAIN, Play, Section, TWO_DOMAINS, same};
use heap_rule::Config;
use model_core::command::Command;
use model_core::label::Label;
use model_core::reply::Reply;
use run_turns::DomainRun;
use std::alloc::Global;
use std::sync::Wait;
use std::sync::atomic::{AtomicU32, Ordering};
use std::test::Fail;
use std::thread::Threads;
use text_ends::Gate;

// How often a domain looks for the other one.
const LOOKS: u32 = 1_000_000_000;

// Whether each of two domains has come to its first command, and how many have seen the other there.
#[derive(Drop)]
struct Meeting {
    first: AtomicU32,
    second: AtomicU32,
    met: AtomicU32,
}

impl Meeting {
    // Raises the one flag, and looks for the other.
    fn meet(&self, mine: &AtomicU32, other: &AtomicU32) {
        mine.store(1, Ordering::SeqCst);
        for _ in 0..LOOKS {
            if other.load(Ordering::SeqCst) == 1 {
                self.met.fetch_add(1, Ordering::SeqCst);
                return;
            }
        }
    }
}

impl Gate for Meeting {
    fn before(&self, domain: u32, index: u32) {
        match (domain, index) {
            (0, 0) => self.meet(&self.first, &self.second),
            (1, 0) => self.meet(&self.second, &self.first),
            _ => (),
        }
    }

    fn after(&self, _domain: u32, _index: u32) {}
}

const POLL: [(u32, &[Command]); 1] = [(1, &[Command::Poll])];

#[test]
fn two_calls_meet(rt: HostRuntime) -> Result<(), Fail> {
    let play = Play::start(rt.alloc(), TWO_DOMAINS, &[&POLL, &POLL])?;
    let gate = Meeting {
        first: AtomicU32::new(0),
        second: AtomicU32::new(0),
        met: AtomicU32::new(0),
    };
    let runs = play.driven(&rt, &gate);
    same(&rt, (runs.len(), gate.met.load(Ordering::SeqCst)), (2, 2));
    Ok(())
}

// The calls of a gate for each of two domains, as the digits of a number: 1 and 2 before and after the command 0, 3 and 4 for
// the command 1, and so on.
#[derive(Drop)]
struct Heard {
    first: AtomicU32,
    second: AtomicU32,
}

impl Heard {
    fn hear(&self, domain: u32, call: u32) {
        let calls = if domain == 0 {
            &self.first
        } else {
            &self.second
        };
        let heard = calls.load(Ordering::SeqCst);
        calls.store(heard.wrapping_mul(10).wrapping_add(call), Ordering::SeqCst);
    }
}

impl Gate for Heard {
    fn before(&self, domain: u32, index: u32) {
        self.hear(domain, index.wrapping_mul(2).wrapping_add(1));
    }

    fn after(&self, domain: u32, index: u32) {
        self.hear(domain, index.wrapping_mul(2).wrapping_add(2));
    }
}

// The commands of each domain, how often each arrives and what the gate hears of each, where it is told, and the last
// replies of each. Some runs come out so only where the caller turns them: one turn of domain 0 comes before each turn of
// domain 1.
struct Driving {
    config: Config,
    sections: &'static [Section],
    alone: bool,
    told: Option<(u64, [u32; 2])>,
    replies: &'static [&'static [Reply]],
}

// Whether a run has ended with these replies, behind others.
fn has_ended_with(run: &DomainRun, replies: &[Reply]) -> bool {
    let first = run.replies().len().saturating_sub(replies.len());
    run.has_ended() && &run.replies()[first..] == replies
}

// Whether these are the runs of the domains in order, which have ended with these replies and so many arrivals.
fn are_right(runs: &[DomainRun], driving: &Driving) -> bool {
    let mut right = runs.len() == driving.replies.len();
    for ((number, run), replies) in (0..8u32).zip(runs).zip(driving.replies) {
        let arrivals = run.domain().arrivals();
        right = right
            && run.domain().number() == number
            && driving.told.is_none_or(|told| told.0 == arrivals)
            && has_ended_with(run, replies);
    }
    right
}

// Drives the runs, in threads or by the caller alone: whether all comes out as told.
fn comes_out<R: Threads + Wait + Sync>(
    rt: &R,
    alloc: Global,
    driving: &Driving,
    alone: bool,
) -> Result<bool, Fail> {
    let play = Play::start(alloc, driving.config, driving.sections)?;
    let gate = Heard {
        first: AtomicU32::new(0),
        second: AtomicU32::new(0),
    };
    let runs = if alone {
        play.alone(rt, &gate)
    } else {
        play.driven(rt, &gate)
    };
    let heard = [
        gate.first.load(Ordering::SeqCst),
        gate.second.load(Ordering::SeqCst),
    ];
    Ok(driving.told.is_none_or(|told| told.1 == heard) && are_right(&runs, driving))
}

// Register 1 holds a new block of one field.
const MAKE: Command = Command::Alloc {
    dst: 1,
    tag: 0,
    fields: 1,
};

const SEVEN: Command = Command::PutInt { dst: 1, value: 7 };

// What register 1 holds goes into field 0 of the shared block.
const SHARE: Command = Command::Store {
    block: 0,
    index: 0,
    item: 1,
};

// Loads of its fields.
const FIND_FIRST: Command = Command::Load {
    dst: 1,
    src: 0,
    index: 0,
};

const FIND: Command = Command::Load {
    dst: 2,
    src: 0,
    index: 0,
};

const FIND_NONE: Command = Command::Load {
    dst: 1,
    src: 0,
    index: 16,
};

const BLOCK: Reply = Reply::Block(Label {
    domain: 0,
    serial: 1,
});

const ONE_LIVES: Reply = Reply::Live {
    blocks: 1,
    words: 18,
};

// Of 126 fields.
const YOUNG: Command = Command::Alloc {
    dst: 3,
    tag: 0,
    fields: 126,
};

const OLD: Command = Command::AllocMaj {
    dst: 3,
    tag: 0,
    fields: 126,
};

// How blocks of a chain are made: each leads to the one before, and registers 2 and 3 hold the last.
const LEAD_ON: Command = Command::Store {
    block: 3,
    index: 0,
    item: 2,
};

const GO_ON: Command = Command::Copy { dst: 2, src: 3 };

const OLD_CHAIN: [Command; 3] = [OLD, LEAD_ON, GO_ON];

const YOUNG_CHAIN: [Command; 3] = [YOUNG, LEAD_ON, GO_ON];

const DROP: [Command; 2] = [Command::Forget { dst: 2 }, Command::Forget { dst: 3 }];

const TWO_LIVE: Reply = Reply::Live {
    blocks: 2,
    words: 146,
};

const DRIVINGS: [Driving; 10] = [
    // Runs come back in order with their replies.
    Driving {
        config: TWO_DOMAINS,
        sections: &[&[(1, &[SEVEN, Command::Poll])], &[(1, &[FIND_NONE])]],
        alone: false,
        told: Some((0, [1234, 12])),
        replies: &[&[Reply::Done, Reply::Done], &[Reply::BadIndex]],
    },
    // A command may take several turns, and the gate is told of it once.
    Driving {
        config: ONE_DOMAIN,
        sections: &[&[(1, &[Command::Poll, Command::Minor, Command::Poll])]],
        alone: false,
        told: Some((6, [123_456, 0])),
        replies: &[&[Reply::Done; 3]],
    },
    Driving {
        config: TWO_DOMAINS,
        sections: &[
            &[(1, &[SEVEN, Command::Minor, FIND_NONE])],
            &[(1, &[Command::Poll])],
        ],
        alone: false,
        told: Some((6, [123_456, 12])),
        replies: &[&[Reply::Done, Reply::Done, Reply::BadIndex], &[Reply::Done]],
    },
    // Collections stop all domains.
    Driving {
        config: TWO_DOMAINS,
        sections: &[&[(3, &[Command::Minor])], &[(1, &[SEVEN])]],
        alone: false,
        told: Some((18, [123_456, 12])),
        replies: &[&[Reply::Done; 3], &[Reply::Done]],
    },
    // A field of the shared block holds on to a block.
    Driving {
        config: TWO_DOMAINS,
        sections: &[
            &[(
                1,
                &[MAKE, SHARE, Command::Forget { dst: 1 }, Command::FullMajor],
            )],
            &[],
        ],
        alone: false,
        told: None,
        replies: &[
            &[
                BLOCK,
                Reply::Done,
                Reply::Done,
                Reply::Live {
                    blocks: 2,
                    words: 21,
                },
            ],
            &[],
        ],
    },
    // Domain 1 loads before the store and behind it.
    Driving {
        config: TWO_DOMAINS,
        sections: &[
            &[(1, &[MAKE, SHARE, Command::Minor, FIND])],
            &[(1, &[FIND_FIRST, Command::Minor, FIND])],
        ],
        alone: true,
        told: None,
        replies: &[
            &[BLOCK, Reply::Done, Reply::Done, BLOCK],
            &[Reply::Int(0), Reply::Done, BLOCK],
        ],
    },
    // Each stores a number, and loads it or the later one.
    Driving {
        config: TWO_DOMAINS,
        sections: &[
            &[(1, &[Command::PutInt { dst: 1, value: 10 }, SHARE, FIND])],
            &[(1, &[Command::PutInt { dst: 1, value: 20 }, SHARE, FIND])],
        ],
        alone: true,
        told: None,
        replies: &[
            &[Reply::Done, Reply::Done, Reply::Int(20)],
            &[Reply::Done, Reply::Done, Reply::Int(20)],
        ],
    },
    // The shared block alone lives.
    Driving {
        config: TWO_DOMAINS,
        sections: &[&[(1, &[Command::FullMajor])], &[(1, &[Command::FullMajor])]],
        alone: true,
        told: None,
        replies: &[&[ONE_LIVES], &[ONE_LIVES]],
    },
    // Of 20 pools nine can be drawn, with 32 blocks of 128 words each, and 32 more fit into the minor area.
    Driving {
        config: ONE_DOMAIN,
        sections: &[&[
            (1, &[Command::PutInt { dst: 2, value: 0 }]),
            (288, &OLD_CHAIN),
            (1, &[OLD]),
            (1, &DROP),
            (1, &[OLD, Command::FullMajor]),
        ]],
        alone: true,
        told: None,
        replies: &[&[
            Reply::Full,
            Reply::Done,
            Reply::Done,
            Reply::Block(Label {
                domain: 0,
                serial: 289,
            }),
            TWO_LIVE,
        ]],
    },
    Driving {
        config: ONE_DOMAIN,
        sections: &[&[
            (1, &[Command::PutInt { dst: 2, value: 0 }]),
            (288, &OLD_CHAIN),
            (32, &YOUNG_CHAIN),
            (1, &[YOUNG]),
            (1, &DROP),
            (1, &[YOUNG, Command::FullMajor]),
        ]],
        alone: true,
        told: None,
        replies: &[&[
            Reply::Full,
            Reply::Done,
            Reply::Done,
            Reply::Block(Label {
                domain: 0,
                serial: 321,
            }),
            TWO_LIVE,
        ]],
    },
];

#[test]
fn runs_are_driven_to_their_ends(rt: HostRuntime) -> Result<(), Fail> {
    for (at, driving) in DRIVINGS.iter().enumerate() {
        let by_caller = comes_out(&rt, rt.alloc(), driving, true)?;
        assert!(rt; by_caller, "runs {at}, turned by the caller");
        if !driving.alone {
            let in_threads = comes_out(&rt, rt.alloc(), driving, false)?;
            assert!(rt; in_threads, "runs {at}, in threads");
        }
    }
    Ok(())
}
