//! What domains show on their way through traces, as it is by hand.
use crate::fixtures::{CHAINED, ONE_DOMAIN, Section, TWO_DOMAINS};
use heap_rule::{Config, Spot, Waiting};
use heap_words::Value;
use model_core::command::Command;
use model_core::label::Label;
use model_core::reply::Reply;
use run_turns::Turned;

/// How far the domains are turned.
#[derive(Clone, Copy)]
pub(crate) enum Until {
    // One turn of each of these domains, in order, with these answers.
    Answers(&'static [(usize, Turned)]),
    // So many turns of each domain, one after the other.
    Rounds(u32),
    // Rounds until domain 0 has made so many commands.
    Made(usize),
}

/// What a domain shows.
#[derive(Clone, Copy)]
pub(crate) enum Sight {
    Arrivals(u64),
    // The words used of its minor area, how many fields it remembers, and three of its registers.
    Holds(u32, usize, &'static [Value]),
    // How many finalisers it has of each list, how many of them wait, and the first of these.
    Finalisers(usize, usize, usize, Option<Waiting>),
    // Where it goes on to sweep.
    Sweeps(Spot),
    HasEnded(bool),
}

/// A domain at some moment, and what it shows then.
pub(crate) type Moment = (Until, usize, Sight);

/// The commands of each domain, what they show on the way, and the replies of domain 0 behind so many others.
pub(crate) struct Scene {
    pub config: Config,
    pub sections: &'static [Section],
    pub moments: &'static [Moment],
    pub before: usize,
    pub replies: &'static [Reply],
}

const SHARED: Value = Value::Ref(1);

// The first place of the first minor area, where the heap has 20 pools and where it has 39, and that of the first pool that
// is drawn.
const YOUNG: Value = Value::Ref(20 * 4096 + 1);

const YOUNG_OF_TWO: Value = Value::Ref(39 * 4096 + 1);

const DRAWN: Value = Value::Ref(4097);

const NOTHING: Value = Value::Nothing;

const FIRST: Label = Label {
    domain: 0,
    serial: 1,
};

// The shared block alone lives.
const ONE_LIVES: Reply = Reply::Live {
    blocks: 1,
    words: 18,
};

// A young block of two fields.
const MAKE: Command = Command::Alloc {
    dst: 1,
    tag: 0,
    fields: 2,
};

// Puts it into the shared block, and loads it there.
const SHARE: Command = Command::Store {
    block: 0,
    index: 3,
    item: 1,
};

const FIND: Command = Command::Load {
    dst: 2,
    src: 0,
    index: 3,
};

const FINALISE: Command = Command::Finalise {
    item: 1,
    number: 5,
    dst: 2,
};

const FINALISE_LAST: Command = Command::FinaliseLast { item: 1, number: 6 };

const DROP: Command = Command::Forget { dst: 1 };

// The answers of two domains' turns, in order.
const PAUSE: [(usize, Turned); 28] = [
    // The second ends its trace, and is idle.
    (1, Turned::Did),
    (1, Turned::Did),
    (1, Turned::Idle { ended: 1 }),
    // The first asks, and arrives in phase 0.
    (0, Turned::Did),
    (0, Turned::Did),
    (0, Turned::Waiting(1)),
    // The idle one arrives too, and both go through the phases 1 to 5.
    (1, Turned::Did),
    (1, Turned::Did),
    (1, Turned::Waiting(3)),
    (0, Turned::Did),
    (1, Turned::Did),
    (1, Turned::Waiting(5)),
    (0, Turned::Did),
    (1, Turned::Did),
    (1, Turned::Waiting(7)),
    (0, Turned::Did),
    (1, Turned::Did),
    (1, Turned::Waiting(9)),
    (0, Turned::Did),
    (1, Turned::Did),
    (1, Turned::Waiting(11)),
    (0, Turned::Did),
    // In phase 6 all run. The wish was served, and the entry of `minor` is made.
    (1, Turned::Idle { ended: 1 }),
    (0, Turned::Did),
    (0, Turned::Did),
    (0, Turned::Ended),
    (1, Turned::Ended),
    (1, Turned::Ended),
];

// The lists of 50,000 blocks each lie in 98 pools.
const ROOMY: Config = Config {
    domains: 2,
    minor_words: 4096,
    pools: 150,
    finals: 0,
    ephes: 0,
};

// Two domains that take turns make two lists. Each puts its blocks behind those of the other, in the one list and in the
// other by turns.

// A new block of either list.
const NEW_OF_ONE: Command = Command::AllocMaj {
    dst: 1,
    tag: 0,
    fields: 1,
};

const NEW_OF_OTHER: Command = Command::AllocMaj {
    dst: 2,
    tag: 0,
    fields: 1,
};

// A field of the shared block leads to it.
const BEGIN_ONE: Command = Command::Store {
    block: 0,
    index: 0,
    item: 1,
};

const BEGIN_OTHER: Command = Command::Store {
    block: 0,
    index: 1,
    item: 2,
};

// Register 3 holds the first block of either list.
const FIRST_OF_ONE: Command = Command::Load {
    dst: 3,
    src: 0,
    index: 0,
};

const FIRST_OF_OTHER: Command = Command::Load {
    dst: 3,
    src: 0,
    index: 1,
};

// Or the last one, which the other domain has made.
const LAST_OF_ONE: Command = Command::Load {
    dst: 3,
    src: 1,
    index: 0,
};

const LAST_OF_OTHER: Command = Command::Load {
    dst: 3,
    src: 2,
    index: 0,
};

// Its field leads to the new one.
const LEAD_ON_ONE: Command = Command::Store {
    block: 3,
    index: 0,
    item: 1,
};

const LEAD_ON_OTHER: Command = Command::Store {
    block: 3,
    index: 0,
    item: 2,
};

// A collection goes on beside a domain that polls.
const MARK: [Command; 4] = [Command::Major, Command::Poll, Command::Poll, Command::Poll];

pub(crate) const SCENES: [Scene; 19] = [
    // A trace runs to its end.
    Scene {
        config: ONE_DOMAIN,
        sections: &[&[(
            1,
            &[
                MAKE,
                SHARE,
                Command::Load {
                    dst: 2,
                    src: 0,
                    index: 16,
                },
                Command::Poll,
            ],
        )]],
        moments: &[
            (
                Until::Answers(&[(0, Turned::Did); 4]),
                0,
                Sight::HasEnded(false),
            ),
            (
                Until::Answers(&[(0, Turned::Did), (0, Turned::Ended)]),
                0,
                Sight::HasEnded(true),
            ),
        ],
        before: 0,
        replies: &[
            Reply::Block(FIRST),
            Reply::Done,
            Reply::BadIndex,
            Reply::Done,
        ],
    },
    // A block is made and written to. The domain asks, goes through the phases and makes the entry of `minor`: the register
    // leads to a block of a pool, which has the field that the young one had.
    Scene {
        config: ONE_DOMAIN,
        sections: &[&[(
            1,
            &[
                MAKE,
                Command::Store {
                    block: 1,
                    index: 1,
                    item: 0,
                },
                Command::Minor,
                Command::Load {
                    dst: 2,
                    src: 1,
                    index: 1,
                },
            ],
        )]],
        moments: &[
            (
                Until::Answers(&[(0, Turned::Did); 2]),
                0,
                Sight::Holds(4, 0, &[SHARED, YOUNG, NOTHING]),
            ),
            (
                Until::Answers(&[(0, Turned::Did); 8]),
                0,
                Sight::Holds(0, 0, &[SHARED, DRAWN, NOTHING]),
            ),
            (
                Until::Answers(&[(0, Turned::Did)]),
                0,
                Sight::Holds(0, 0, &[SHARED, DRAWN, SHARED]),
            ),
            (Until::Rounds(0), 0, Sight::Arrivals(6)),
        ],
        before: 0,
        replies: &[
            Reply::Block(FIRST),
            Reply::Done,
            Reply::Done,
            Reply::Block(Label {
                domain: 0,
                serial: 0,
            }),
        ],
    },
    // A pause takes all domains with it.
    Scene {
        config: TWO_DOMAINS,
        sections: &[&[(1, &[Command::Minor])], &[(1, &[Command::Poll])]],
        moments: &[(Until::Answers(&PAUSE), 0, Sight::Arrivals(6))],
        before: 0,
        replies: &[Reply::Done],
    },
    // A young block is reached from a register of each domain and from a field that the first remembers. Both domains claim
    // it, and go on with one copy of it. The second has commands left when the first has loaded the field.
    Scene {
        config: TWO_DOMAINS,
        sections: &[
            &[(1, &[MAKE, SHARE, Command::Minor, FIND])],
            &[
                (
                    1,
                    &[
                        Command::Poll,
                        Command::Load {
                            dst: 1,
                            src: 0,
                            index: 3,
                        },
                    ],
                ),
                (4, &[Command::Poll]),
            ],
        ],
        moments: &[
            (
                Until::Rounds(2),
                0,
                Sight::Holds(4, 1, &[SHARED, YOUNG_OF_TWO, NOTHING]),
            ),
            (
                Until::Rounds(0),
                1,
                Sight::Holds(0, 0, &[SHARED, YOUNG_OF_TWO, NOTHING]),
            ),
            (
                Until::Made(4),
                0,
                Sight::Holds(0, 0, &[SHARED, DRAWN, DRAWN]),
            ),
            (
                Until::Rounds(0),
                1,
                Sight::Holds(0, 0, &[SHARED, DRAWN, NOTHING]),
            ),
            (Until::Rounds(0), 0, Sight::Arrivals(6)),
            (Until::Rounds(0), 1, Sight::Arrivals(6)),
            (Until::Rounds(40), 0, Sight::HasEnded(true)),
            (Until::Rounds(0), 1, Sight::HasEnded(true)),
        ],
        before: 0,
        replies: &[
            Reply::Block(FIRST),
            Reply::Done,
            Reply::Done,
            Reply::Block(FIRST),
        ],
    },
    // A collection that two domains make together finds the shared block alone. The pool of the block that is gone is given
    // back, so that the next block, of another size class, lies where that one lay.
    Scene {
        config: TWO_DOMAINS,
        sections: &[
            &[(
                1,
                &[
                    Command::AllocMaj {
                        dst: 1,
                        tag: 0,
                        fields: 126,
                    },
                    DROP,
                    Command::FullMajor,
                    Command::AllocMaj {
                        dst: 1,
                        tag: 0,
                        fields: 2,
                    },
                ],
            )],
            &[(1, &[Command::Poll])],
        ],
        moments: &[(
            Until::Made(4),
            0,
            Sight::Holds(0, 0, &[SHARED, DRAWN, NOTHING]),
        )],
        before: 0,
        replies: &[
            Reply::Block(FIRST),
            Reply::Done,
            ONE_LIVES,
            Reply::Block(Label {
                domain: 0,
                serial: 2,
            }),
        ],
    },
    // Each collection queues what is to run, and it runs before the next command, or before the end.
    Scene {
        config: ONE_DOMAIN,
        sections: &[&[(
            1,
            &[
                MAKE,
                FINALISE,
                FINALISE_LAST,
                DROP,
                Command::FullMajor,
                Command::Forget { dst: 2 },
                Command::FullMajor,
            ],
        )]],
        moments: &[
            (
                Until::Made(5),
                0,
                Sight::Finalisers(
                    0,
                    1,
                    1,
                    Some(Waiting::Fin {
                        address: 4097,
                        number: 5,
                        register: 2,
                    }),
                ),
            ),
            (Until::Made(6), 0, Sight::Finalisers(0, 1, 0, None)),
            (
                Until::Made(7),
                0,
                Sight::Finalisers(0, 0, 1, Some(Waiting::Last { number: 6 })),
            ),
            (Until::Rounds(0), 0, Sight::HasEnded(false)),
            (Until::Rounds(40), 0, Sight::Finalisers(0, 0, 0, None)),
            (Until::Rounds(0), 0, Sight::HasEnded(true)),
        ],
        before: 0,
        replies: &[
            Reply::Block(FIRST),
            Reply::Done,
            Reply::Done,
            Reply::Done,
            Reply::Live {
                blocks: 2,
                words: 22,
            },
            Reply::Fin {
                number: 5,
                label: FIRST,
            },
            Reply::Done,
            ONE_LIVES,
            Reply::Last { number: 6 },
        ],
    },
    // A block dies with the trace that registered it, and nothing is queued.
    Scene {
        config: TWO_DOMAINS,
        sections: &[
            &[(1, &[Command::FullMajor])],
            &[(1, &[MAKE, FINALISE, FINALISE_LAST])],
        ],
        moments: &[
            (
                Until::Answers(&[(1, Turned::Did); 4]),
                1,
                Sight::Finalisers(0, 0, 0, None),
            ),
            (Until::Made(1), 1, Sight::Finalisers(0, 0, 0, None)),
        ],
        before: 0,
        replies: &[ONE_LIVES],
    },
    // How often a domain has arrived: two times for each even phase, but once for one in which a collection is answered. A
    // `major` begins a collection of the major heap, which takes one more phase than a `minor`. A `full_major` makes a whole
    // one in its pause, and finishes first the one that goes on. Where the last one left its garbage to the running domains,
    // both take one phase more, in which what is left of it is freed.
    Scene {
        config: ONE_DOMAIN,
        sections: &[&[(1, &[Command::Minor])]],
        moments: &[(Until::Made(1), 0, Sight::Arrivals(6))],
        before: 0,
        replies: &[Reply::Done],
    },
    Scene {
        config: ONE_DOMAIN,
        sections: &[&[(1, &[Command::Major])]],
        moments: &[(Until::Made(1), 0, Sight::Arrivals(8))],
        before: 0,
        replies: &[Reply::Done],
    },
    Scene {
        config: ONE_DOMAIN,
        sections: &[&[(1, &[Command::FullMajor])]],
        moments: &[(Until::Made(1), 0, Sight::Arrivals(23))],
        before: 0,
        replies: &[ONE_LIVES],
    },
    Scene {
        config: ONE_DOMAIN,
        sections: &[&[(1, &[Command::Major, Command::FullMajor])]],
        moments: &[(Until::Made(2), 0, Sight::Arrivals(45))],
        before: 1,
        replies: &[ONE_LIVES],
    },
    Scene {
        config: ONE_DOMAIN,
        sections: &[&[
            (1, &[Command::Major]),
            (2, &[Command::Poll]),
            (1, &[Command::Major]),
        ]],
        moments: &[(Until::Made(4), 0, Sight::Arrivals(36))],
        before: 3,
        replies: &[Reply::Done],
    },
    Scene {
        config: ONE_DOMAIN,
        sections: &[&[
            (1, &[Command::Major]),
            (2, &[Command::Poll]),
            (1, &[Command::FullMajor]),
        ]],
        moments: &[(Until::Made(4), 0, Sight::Arrivals(51))],
        before: 3,
        replies: &[ONE_LIVES],
    },
    // The second domain asks for its `full_major`, and the first arrives before it asks for its own. It isn't answered in this
    // pause, but in one for which it asked.
    Scene {
        config: TWO_DOMAINS,
        sections: &[
            &[(
                1,
                &[Command::FullMajor, Command::PutInt { dst: 1, value: 1 }],
            )],
            &[(1, &[Command::FullMajor])],
        ],
        moments: &[
            (
                Until::Answers(&[(1, Turned::Did), (0, Turned::Did)]),
                0,
                Sight::Arrivals(1),
            ),
            (Until::Made(1), 0, Sight::Arrivals(47)),
            (Until::Made(2), 0, Sight::Arrivals(48)),
        ],
        before: 0,
        replies: &[ONE_LIVES, Reply::Done],
    },
    // A poll scans 256 blocks and no more, of a chain and the shared block. One that finds none left to scan asks for the end
    // of the collection, and the pause comes before the next. It marks nothing: one phase finds that all is scanned.
    Scene {
        config: ONE_DOMAIN,
        sections: &[&[(254, &CHAINED), (1, &MARK)]],
        moments: &[
            (Until::Made(763), 0, Sight::Arrivals(8)),
            (Until::Made(764), 0, Sight::Arrivals(8)),
            (Until::Made(765), 0, Sight::Arrivals(26)),
            (Until::Made(766), 0, Sight::Arrivals(26)),
        ],
        before: 762,
        replies: &[Reply::Done; 4],
    },
    Scene {
        config: ONE_DOMAIN,
        sections: &[&[(255, &CHAINED), (1, &MARK)]],
        moments: &[
            (Until::Made(766), 0, Sight::Arrivals(8)),
            (Until::Made(767), 0, Sight::Arrivals(8)),
            (Until::Made(768), 0, Sight::Arrivals(8)),
            (Until::Made(769), 0, Sight::Arrivals(26)),
        ],
        before: 765,
        replies: &[Reply::Done; 4],
    },
    Scene {
        config: ONE_DOMAIN,
        sections: &[&[(300, &CHAINED), (1, &MARK)]],
        moments: &[
            (Until::Made(901), 0, Sight::Arrivals(8)),
            (Until::Made(902), 0, Sight::Arrivals(8)),
            (Until::Made(903), 0, Sight::Arrivals(8)),
            (Until::Made(904), 0, Sight::Arrivals(26)),
        ],
        before: 900,
        replies: &[Reply::Done; 4],
    },
    // Where no collection goes on a poll sweeps 256 places and no more, and at first none is left to be swept. The block lies
    // in a pool of 1024 places, and the shared block in one of 128. The second poll comes behind the end of the collection.
    Scene {
        config: ONE_DOMAIN,
        sections: &[&[(
            1,
            &[
                Command::AllocMaj {
                    dst: 1,
                    tag: 0,
                    fields: 2,
                },
                Command::Major,
                Command::Poll,
                Command::Poll,
                Command::Poll,
            ],
        )]],
        moments: &[
            (Until::Made(3), 0, Sight::Sweeps(Spot { pool: 20, slot: 0 })),
            (
                Until::Made(4),
                0,
                Sight::Sweeps(Spot { pool: 1, slot: 128 }),
            ),
            (
                Until::Made(5),
                0,
                Sight::Sweeps(Spot { pool: 1, slot: 384 }),
            ),
        ],
        before: 0,
        replies: &[
            Reply::Block(FIRST),
            Reply::Done,
            Reply::Done,
            Reply::Done,
            Reply::Done,
        ],
    },
    // What follows each block of two lists lies in the other domain's pools. Were a block found only where its pool is looked
    // through, each block would take a phase of its own. A complete collection in which nothing is queued has eleven phases, an
    // odd one behind each, besides those in which blocks are marked: here one, for all blocks.
    Scene {
        config: ROOMY,
        sections: &[
            &[
                (
                    1,
                    &[
                        NEW_OF_ONE,
                        BEGIN_ONE,
                        Command::Poll,
                        FIRST_OF_OTHER,
                        NEW_OF_OTHER,
                        LEAD_ON_OTHER,
                    ],
                ),
                (
                    24_999,
                    &[
                        LAST_OF_ONE,
                        NEW_OF_ONE,
                        LEAD_ON_ONE,
                        LAST_OF_OTHER,
                        NEW_OF_OTHER,
                        LEAD_ON_OTHER,
                    ],
                ),
                (1, &[Command::FullMajor]),
            ],
            &[
                (
                    1,
                    &[
                        NEW_OF_OTHER,
                        BEGIN_OTHER,
                        Command::Poll,
                        FIRST_OF_ONE,
                        NEW_OF_ONE,
                        LEAD_ON_ONE,
                    ],
                ),
                (
                    24_999,
                    &[
                        LAST_OF_OTHER,
                        NEW_OF_OTHER,
                        LEAD_ON_OTHER,
                        LAST_OF_ONE,
                        NEW_OF_ONE,
                        LEAD_ON_ONE,
                    ],
                ),
            ],
        ],
        moments: &[
            (Until::Rounds(151_000), 0, Sight::Arrivals(24)),
            (Until::Rounds(0), 0, Sight::HasEnded(true)),
            (Until::Rounds(0), 1, Sight::HasEnded(true)),
        ],
        before: 150_000,
        replies: &[Reply::Live {
            blocks: 100_001,
            words: 300_018,
        }],
    },
];
