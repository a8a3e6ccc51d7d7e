//! Scripts of many commands, which are made of pieces.
use crate::scripts::program::{is_given, run_plain};
use std::alloc::{AllocError, Global};
use std::test::Fail;

// Commands of domain 0 and their replies, so often. In a reply `#` is the number of the next block that the domain makes, and
// `<` that of the one before the block that was named last.
type Piece = (u32, &'static str, &'static str);

// Words, the pieces of the script, the number and the line of the run's end.
struct Long {
    words: &'static str,
    pieces: &'static [Piece],
    number: u8,
    line: &'static str,
}

// Of 20 pools nine can be drawn, with 32 blocks of 128 words each, and a minor area has room for 32 more.
const SMALL: &str = "run --domains 1 --minor 4096 --pools 20";

// A block that leads to the one before. Registers 1 and 2 hold the last.
const OLD: &str = "allocmaj 1 0 126\nstore 1 0 2\nmove 2 1\n";

const YOUNG: &str = "alloc 1 0 126\nstore 1 0 2\nmove 2 1\n";

const CHAINED: &str = "blk 0:#\nok\nok\n";

// One that isn't held.
const LOOSE: &str = "allocmaj 1 0 126\n";

const MADE: &str = "blk 0:#\n";

const LONG: [Long; 11] = [
    // A block of 126 fields takes 128 words. A collection comes before the 33rd, the 65th and so on.
    Long {
        words: SMALL,
        pieces: &[
            (100, "alloc 1 0 126\n", MADE),
            (1, "load 2 1 125\n", "int 0\n"),
        ],
        number: 0,
        line: "",
    },
    // Each block of a chain leads to the one before. After a collection the chain leads on to its first block.
    Long {
        words: SMALL,
        pieces: &[
            (1, "int 1 0\n", "ok\n"),
            (500, "alloc 2 0 2\nstore 2 0 1\nmove 1 2\n", CHAINED),
            (1, "minor\n", "ok\n"),
            (499, "load 1 1 0\n", "blk 0:<\n"),
            (1, "load 1 1 0\n", "int 0\n"),
        ],
        number: 0,
        line: "",
    },
    // A domain remembers at most 4096 fields. A collection comes before the store of one more, into the shared block and into
    // another one of the pools.
    Long {
        words: SMALL,
        pieces: &[
            (1, "alloc 1 0 2\n", MADE),
            (5000, "store 0 3 1\n", "ok\n"),
            (1, "load 2 0 3\n", "blk 0:1\n"),
        ],
        number: 0,
        line: "",
    },
    Long {
        words: SMALL,
        pieces: &[
            (1, "allocmaj 1 0 1\nalloc 2 0 1\n", "blk 0:#\nblk 0:#\n"),
            (5000, "store 1 0 2\n", "ok\n"),
            (1, "load 3 1 0\n", "blk 0:2\n"),
        ],
        number: 0,
        line: "",
    },
    // Each pause lists the pools that are left, so the blocks are as many as without a pause.
    Long {
        words: SMALL,
        pieces: &[
            (1, "int 2 0\n", "ok\n"),
            (64, OLD, CHAINED),
            (1, "minor\n", "ok\n"),
            (224, OLD, CHAINED),
            (1, "minor\nallocmaj 1 0 126\n", "ok\nfull\n"),
        ],
        number: 0,
        line: "",
    },
    // An allocation is answered `full` while all blocks are kept, and finds room once they are dropped. Of young blocks 32 more
    // are made: the minor area holds those that no pool has room for.
    Long {
        words: SMALL,
        pieces: &[
            (1, "int 2 0\n", "ok\n"),
            (288, OLD, CHAINED),
            (
                1,
                "allocmaj 3 0 126\ndrop 1\ndrop 2\nallocmaj 3 0 126\nfull_major\n",
                "full\nok\nok\nblk 0:#\nlive 2 146\n",
            ),
        ],
        number: 0,
        line: "",
    },
    Long {
        words: SMALL,
        pieces: &[
            (1, "int 2 0\n", "ok\n"),
            (320, YOUNG, CHAINED),
            (
                1,
                "alloc 3 0 126\ndrop 1\ndrop 2\nalloc 3 0 126\nfull_major\n",
                "full\nok\nok\nblk 0:#\nlive 2 146\n",
            ),
        ],
        number: 0,
        line: "",
    },
    // Of 1000 blocks that are made and dropped no more than 288 have room at once.
    Long {
        words: SMALL,
        pieces: &[(1000, LOOSE, MADE), (1, "full_major\n", "live 2 146\n")],
        number: 0,
        line: "",
    },
    // A collection leaves an ephemeron, its key and 255 dead blocks, and the pools are full. The domain frees these as it runs:
    // as many blocks are made again, and the key, which died behind that collection, is still there. For one block more another
    // collection comes, and the key goes.
    Long {
        words: SMALL,
        pieces: &[
            (
                1,
                "allocmaj 3 0 126\nephe 2 1\nset_key 2 0 3\n",
                "blk 0:#\nblk 0:#\nok\n",
            ),
            (255, LOOSE, MADE),
            (
                1,
                "drop 1\nmajor\npoll\npoll\ndrop 3\n",
                "ok\nok\nok\nok\nok\n",
            ),
            (255, LOOSE, MADE),
            (
                1,
                "check_key 2 0\nallocmaj 1 0 126\ncheck_key 2 0\n",
                "yes\nblk 0:#\nno\n",
            ),
        ],
        number: 0,
        line: "",
    },
    // Each of 500 ephemerons is dropped with its key, in a heap that has room for fewer.
    Long {
        words: SMALL,
        pieces: &[
            (
                500,
                "allocmaj 1 0 126\nephe 2 8\nset_key 2 3 1\nset_data 2 1\n",
                "blk 0:#\nblk 0:#\nok\nok\n",
            ),
            (1, "full_major\n", "live 3 157\n"),
        ],
        number: 0,
        line: "",
    },
    // All domains together have at most 200,000 commands.
    Long {
        words: "run --domains 1",
        pieces: &[(200_001, "poll\n", "")],
        number: 2,
        line: "script line 200003: too many commands\n",
    },
];

// Appends a reply, by the number of the block that was named last.
fn push_reply(
    alloc: Global,
    prints: &mut String,
    named: &mut u32,
    reply: &str,
) -> Result<(), AllocError> {
    for character in reply.chars() {
        match character {
            '#' => *named = named.saturating_add(1),
            '<' => *named = named.saturating_sub(1),
            _ => {
                prints.push(character)?;
                continue;
            }
        }
        prints.push_str(&format!(in alloc; "{named}")?)?;
    }
    Ok(())
}

// The script of these pieces, and what it prints.
fn script_of(alloc: Global, pieces: &[Piece]) -> Result<(String, String), AllocError> {
    let mut script = String::from_str(alloc, "heap 1\ndomain 0\n")?;
    let mut prints = String::from_str(alloc, "domain 0\n")?;
    let mut named = 0u32;
    for (times, commands, replies) in pieces {
        for _ in 0..*times {
            script.push_str(commands)?;
            push_reply(alloc, &mut prints, &mut named, replies)?;
        }
    }
    Ok((script, prints))
}

#[test]
fn scripts_of_many_commands(rt: HostRuntime) -> Result<(), Fail> {
    for long in &LONG {
        let (script, prints) = script_of(rt.alloc(), long.pieces)?;
        let given = run_plain(&rt, rt.alloc(), long.words, &script)?;
        let wanted = if long.number == 0 { &prints } else { "" };
        is_given(&rt, &given, long.number, long.line, wanted);
    }
    Ok(())
}
