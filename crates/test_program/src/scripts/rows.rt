//! Scripts with the replies that they have by hand.
use crate::scripts::program::{PLAIN, PLAIN_PRINTS, is_given, run_plain, runs_to};
use crate::scripts::{beside, ephemerons, finalisers};
use std::test::Fail;

// Words, a script, and what its run prints.
const REPLIES: [(&str, &str, &str); 34] = [
    (
        "replay",
        "schedule 1\nturn 1\nturn 1\nturn 0\nend\nheap 1\ndomain 0\nload 1 0 0\ndomain 1\nint 1 5\nstore 0 0 1\n",
        "domain 0\nint 5\ndomain 1\nok\nok\n",
    ),
    (
        "replay",
        "schedule 1\nend\nheap 1\ndomain 0\nload 1 0 0\ndomain 1\nint 1 5\nstore 0 0 1\n",
        "domain 0\nint 0\ndomain 1\nok\nok\n",
    ),
    (
        "replay --domains 1",
        "schedule 1\nturn 0\nturn 0\nturn 0\nturn 0\ncollect\nend\nheap 1\ndomain 0\nalloc 1 0 1\nephe 2 1\nset_key 2 0 1\ndrop 1\ncheck_key 2 0\n",
        "domain 0\nblk 0:1\nblk 0:2\nok\nok\nno\n",
    ),
    (
        "replay --domains 1",
        "schedule 1\nturn 0\nturn 0\nturn 0\nturn 0\nend\nheap 1\ndomain 0\nalloc 1 0 1\nephe 2 1\nset_key 2 0 1\ndrop 1\ncheck_key 2 0\n",
        "domain 0\nblk 0:1\nblk 0:2\nok\nok\nyes\n",
    ),
    // The full_major of domain 0 doesn't answer that of domain 1.
    (
        "replay",
        "schedule 1\nturn 0\nend\nheap 1\ndomain 0\nfull_major\nalloc 1 0 1\ndomain 1\nfull_major\nint 1 1\n",
        "domain 0\nlive 1 18\nblk 0:1\ndomain 1\nlive 2 21\nok\n",
    ),
    (
        "table",
        "table 1\nkey 1\nkey 2\nput 1 10\nput 2 20\nput 1 11\nget 1\ncount\nforget 2\nfull_major\ncount\nget 1\ndel 1\nget 1\nget 2\n",
        "ok\nok\nok\nok\nok\nint 11\ncount 2\nok\nok\ncount 1\nint 11\nok\nnone\ntype\n",
    ),
    (
        "table --minor=4096 --pools 51",
        "table 2\nkey 1\nwset 3 1\nwget 2 3\nforget 1\nfull_major\nwget 4 3\nforget 2\nforget 4\nfull_major\nwget 5 3\n",
        "ok\nok\nyes\nok\nok\nyes\nok\nok\nok\nnone\n",
    ),
    // Each domain binds keys and sets slots of its own.
    (
        "table --domains 2",
        "table 2\ndomain 0\nkey 1\nput 1 10\nget 1\ndel 1\nget 1\ndomain 1\nkey 1\nwset 3 1\nwget 2 3\nfull_major\nput 2 7\nget 1\n",
        "domain 0\nok\nok\nint 10\nok\nnone\ndomain 1\nok\nok\nyes\nok\nok\nint 7\n",
    ),
    ("run --domains 1", PLAIN, PLAIN_PRINTS),
    ("run --domains 1", "heap 1\ndomain 0\n", "domain 0\n"),
    ("run", "heap 1\ndomain 0\n", "domain 0\ndomain 1\n"),
    (
        "run --domains 3",
        "heap 1\ndomain 0\nint 1 4\nstore 0 5 1\nload 2 0 5\n",
        "domain 0\nok\nok\nint 4\ndomain 1\ndomain 2\n",
    ),
    (
        "run --domains=1 --pools=20 --minor=4096",
        "heap 1\ndomain 0\nint 1 5\nload 2 1 0\nload 2 0 16\nload 2 0 15\nstore 0 0 9\n",
        "domain 0\nok\ntype\nbounds\nint 0\ntype\n",
    ),
    (
        "run --domains 1",
        "heap 1\ndomain 0\nint 1 4611686018427387903\nint 1 -4611686018427387904\n",
        "domain 0\nok\nok\n",
    ),
    (
        "run --domains 1",
        "heap 1\ndomain 0\nalloc 1 245 126\n",
        "domain 0\nblk 0:1\n",
    ),
    (
        "run",
        "heap 1\ndomain 0\nminor\nminor\nminor\ndomain 1\nint 1 1\n",
        "domain 0\nok\nok\nok\ndomain 1\nok\n",
    ),
    (
        "run --domains 1",
        "heap 1\ndomain 0\nallocmaj 1 3 126\nload 2 1 125\nload 2 1 126\n",
        "domain 0\nblk 0:1\nint 0\nbounds\n",
    ),
    (
        "run --domains 1",
        "heap 1\ndomain 0\nalloc 1 0 2\nint 2 7\nstore 1 0 2\nstore 0 3 1\ndrop 1\nminor\nload 4 0 3\nload 5 4 0\n",
        "domain 0\nblk 0:1\nok\nok\nok\nok\nok\nblk 0:1\nint 7\n",
    ),
    (
        "run --domains 1",
        "heap 1\ndomain 0\nalloc 1 0 2\nalloc 2 0 2\nstore 1 0 2\nstore 2 0 1\nstore 1 1 1\nminor\nload 3 1 0\nload 4 3 0\nload 5 4 1\n",
        "domain 0\nblk 0:1\nblk 0:2\nok\nok\nok\nok\nblk 0:2\nblk 0:1\nblk 0:1\n",
    ),
    (
        "run --domains 1",
        "heap 1\ndomain 0\nallocmaj 1 0 126\ndrop 1\nfull_major\nallocmaj 1 0 1\nallocmaj 2 0 1\nfull_major\n",
        "domain 0\nblk 0:1\nok\nlive 1 18\nblk 0:2\nblk 0:3\nlive 3 24\n",
    ),
    (
        "run --domains 1",
        "heap 1\ndomain 0\nallocmaj 1 0 28\ndrop 1\nfull_major\nallocmaj 1 0 5\nfull_major\n",
        "domain 0\nblk 0:1\nok\nlive 1 18\nblk 0:2\nlive 2 25\n",
    ),
    (
        "run --domains 1",
        "heap 1\ndomain 0\nalloc 1 0 2\nalloc 2 0 1\nstore 1 0 2\nstore 2 0 1\nstore 1 1 1\ndrop 2\nminor\nload 3 1 0\nload 4 3 0\nload 5 1 1\nfull_major\n",
        "domain 0\nblk 0:1\nblk 0:2\nok\nok\nok\nok\nok\nblk 0:2\nblk 0:1\nblk 0:1\nlive 3 25\n",
    ),
    (
        "run --domains 1",
        "heap 1\ndomain 0\nallocmaj 1 0 1\nalloc 2 0 1\nstore 1 0 2\nint 3 9\nstore 1 0 3\ndrop 2\nminor\nload 4 1 0\nfull_major\n",
        "domain 0\nblk 0:1\nblk 0:2\nok\nok\nok\nok\nok\nint 9\nlive 2 21\n",
    ),
    (
        "run",
        "heap 3\ndomain 0\nint 1 5\nspawn 1 1\njoin 2 1\nload 3 2 0\ndomain 1\nargument 1\nalloc 2 0 1\nstore 2 0 1\nresult 2\n",
        "domain 0\nok\nok\nblk 1:1\nint 5\ndomain 1\nint 5\nblk 1:1\nok\nok\n",
    ),
    (
        "run --domains 1",
        "heap 3\ndomain 0\nalloc 1 0 1\nfull_major\n",
        "domain 0\nblk 0:2\nlive 3 47\n",
    ),
    // A chain of sections, with pauses while the others are held. The last ends without a result.
    (
        "run --domains 3",
        "heap 3\ndomain 0\nint 1 3\nspawn 1 1\nminor\njoin 1 1\ndomain 1\nargument 1\nspawn 2 1\nfull_major\njoin 2 2\nresult 1\ndomain 2\nargument 1\nmajor\n",
        "domain 0\nok\nok\nok\nint 3\ndomain 1\nint 3\nok\nlive 2 44\nint 0\nok\ndomain 2\nint 3\nok\n",
    ),
    (
        "run --domains 1",
        "heap 2\ndomain 0\nraw 1 252 3\nint 2 5\nstore 1 0 2\nstore 1 1 1\nload 3 1 0\nfull_major\n",
        "domain 0\nblk 0:1\nok\nok\ntype\nint 5\nlive 2 23\n",
    ),
    (
        "run --domains 1",
        "heap 2\ndomain 0\nint 1 0\nint 2 9\ncas 0 3 1 2\ncas 0 3 1 2\nload 3 0 3\ncas 0 16 1 2\ncas 0 3 9 2\n",
        "domain 0\nok\nok\nyes\nno\nint 9\nbounds\ntype\n",
    ),
    (
        "run --domains 1",
        "heap 2\ndomain 0\nalloc 1 0 1\nstore 0 0 1\nminor\nint 2 1\ncas 0 0 1 2\n",
        "domain 0\nblk 0:1\nok\nok\nok\nyes\n",
    ),
    (
        "run --domains 1",
        "heap 2\ndomain 0\nalloc 1 0 1022\nload 2 1 1021\nload 2 1 1022\nfull_major\n",
        "domain 0\nblk 0:1\nint 0\nbounds\nlive 2 1042\n",
    ),
    (
        "run",
        "heap 1\ndomain 0\nfull_major\ndomain 1\nfull_major\n",
        "domain 0\nlive 1 18\ndomain 1\nlive 1 18\n",
    ),
    (
        "run",
        "heap 1\ndomain 0\nalloc 1 0 1\nstore 0 0 1\ndrop 1\nfull_major\ndomain 1\n",
        "domain 0\nblk 0:1\nok\nok\nlive 2 21\ndomain 1\n",
    ),
    (
        "run --domains 1",
        "heap 1\ndomain 0\nallocmaj 1 0 126\nallocmaj 1 0 126\nallocmaj 1 0 126\ndrop 1\nmajor\nfull_major\n",
        "domain 0\nblk 0:1\nblk 0:2\nblk 0:3\nok\nok\nlive 1 18\n",
    ),
    // The second poll ends in the midst of the pool of three dead blocks. Before the next one a pause comes, and a pool for
    // blocks of another class. The sweep goes on and ends.
    (
        "run --domains 1 --minor 4096 --pools 20",
        "heap 1\ndomain 0\nallocmaj 1 0 1\nallocmaj 1 0 1\nallocmaj 1 0 1\ndrop 1\nmajor\npoll\npoll\nminor\nallocmaj 1 0 126\npoll\n",
        "domain 0\nblk 0:1\nblk 0:2\nblk 0:3\nok\nok\nok\nok\nok\nblk 0:4\nok\n",
    ),
];

// Tables of the commands of a single domain, and what they print.
const OF_ONE_DOMAIN: [&[(&str, &str)]; 3] = [
    &beside::REPLIES,
    &ephemerons::REPLIES,
    &finalisers::REPLIES,
];

#[test]
fn scripts_of_few_replies(rt: HostRuntime) -> Result<(), Fail> {
    for (words, script, prints) in &REPLIES {
        runs_to(&rt, rt.alloc(), words, script, prints)?;
    }
    Ok(())
}

#[test]
fn scripts_of_one_domain(rt: HostRuntime) -> Result<(), Fail> {
    for table in &OF_ONE_DOMAIN {
        for (commands, prints) in *table {
            let alloc = rt.alloc();
            let script = format!(in alloc; "heap 1\ndomain 0\n{commands}")?;
            let output = format!(in alloc; "domain 0\n{prints}")?;
            runs_to(&rt, alloc, "run --domains 1", &script, &output)?;
        }
    }
    Ok(())
}

// Words, a script, and the line of its first fault.
const REFUSED: [(&str, &str, &str); 25] = [
    (
        "run",
        "heap 3\ndomain 0\ndomain 1\n",
        "script line 3: spawn\n",
    ),
    (
        "run",
        "heap 3\ndomain 0\nspawn 0 1\n",
        "script line 3: spawn\n",
    ),
    (
        "run",
        "heap 3\ndomain 0\nint 14 0\n",
        "script line 3: number 1 out of range\n",
    ),
    (
        "run --domains 1",
        "heap 1\ndomain 0\nint 1 4611686018427387903\nint 1 -4611686018427387904\nint 1 4611686018427387904\n",
        "script line 5: number 2 out of range\n",
    ),
    (
        "run --domains 1",
        "heap 1\ndomain 0\nalloc 1 0 127\n",
        "script line 3: number 3 out of range\n",
    ),
    (
        "run --domains 1",
        "heap 1\ndomain 0\nalloc 1 246 1\n",
        "script line 3: number 2 out of range\n",
    ),
    (
        "run --domains 1",
        "heap 1\ndomain 0\nload 1 16 2000\n",
        "script line 3: number 2 out of range\n",
    ),
    // The first number that is out of range is told.
    (
        "run --domains 1",
        "heap 1\ndomain 0\nint 16 99999999999999999999\n",
        "script line 3: number 1 out of range\n",
    ),
    (
        "run --domains 1",
        "heap 1\ndomain -1\n",
        "script line 2: number 1 out of range\n",
    ),
    (
        "run",
        "heap 1\ndomain 2\n",
        "script line 2: number 1 out of range\n",
    ),
    (
        "run --domains 1",
        "heap 1\ndomain 0\nint 1 5",
        "script line 3: syntax\n",
    ),
    (
        "run --domains 1",
        "heap 1\ndomain 0\nint 1\n",
        "script line 3: syntax\n",
    ),
    (
        "run --domains 1",
        "heap 1\ndomain 0\nallok 1 0 1\n",
        "script line 3: syntax\n",
    ),
    (
        "run --domains 1",
        "heap 1\ndomain 0\n poll\n",
        "script line 3: syntax\n",
    ),
    (
        "run --domains 1",
        "heap 1\ndomain 0\nint 1 07\n",
        "script line 3: syntax\n",
    ),
    ("run --domains 1", "", "script line 1: syntax\n"),
    (
        "run --domains 1",
        "heap 1\nint 1 5\n",
        "script line 2: section order\n",
    ),
    (
        "run --domains 1",
        "heap 1\ndomain 0\ndomain 0\n",
        "script line 3: section order\n",
    ),
    (
        "run",
        "heap 1\ndomain 1\n",
        "script line 2: section order\n",
    ),
    ("table", "heap 1\n", "script line 1: syntax\n"),
    (
        "table",
        "table 1\nkey 1\nkey 6\n",
        "script line 3: number 1 out of range\n",
    ),
    (
        "table",
        "table 1\nwset 16 1\n",
        "script line 2: number 1 out of range\n",
    ),
    ("table", "table 1\ncount", "script line 2: syntax\n"),
    (
        "table --domains 2",
        "table 2\ndomain 0\ncount\ndomain 1\n",
        "script line 3: syntax\n",
    ),
    (
        "table --domains 2",
        "table 2\ndomain 0\n",
        "script line 3: section order\n",
    ),
];

// The words of a replay, its text, the status and the line of its first fault.
const NOT_REPLAYED: [(&str, &str, u8, &str); 9] = [
    ("replay", "schedule 1\n", 6, "schedule line 2\n"),
    ("replay", "schedule 2\nend\n", 6, "schedule line 1\n"),
    (
        "replay",
        "schedule 1\nturn 2\nend\n",
        6,
        "schedule line 2\n",
    ),
    (
        "replay",
        "schedule 1\nturn 0\nturn 00\nend\n",
        6,
        "schedule line 3\n",
    ),
    ("replay", "schedule 1\ncollect\nend", 6, "schedule line 3\n"),
    (
        "replay",
        "schedule 1\nend\nheap 1\ndomain 0\nint 16 0\n",
        2,
        "script line 3: number 1 out of range\n",
    ),
    (
        "replay",
        "schedule 1\nend\nheap 1\ndomain 0\nmajor\n",
        7,
        "not replayable: 1\n",
    ),
    // The version is looked at first.
    (
        "replay",
        "schedule 1\nend\nheap 3\ndomain 0\nmajor\n",
        7,
        "not replayable: 3\n",
    ),
    (
        "replay --domains 1 --minor 4096 --pools 22",
        "schedule 1\nend\nheap 1\ndomain 0\nalloc 1 0 1\nalloc 1 0 1\n",
        7,
        "not replayable: 2\n",
    ),
];

const OTHER_WORDS: [&str; 23] = [
    "replay --domains 1 --minor 4096 --pools 21",
    "",
    "run x",
    "run --domains 9",
    "run --domains 1 1",
    "run --domains",
    "run --domains 1 --minor 4096 --pools 19",
    "run --minor 5000",
    "run --pools 20 --pools 20",
    "table --domains 9",
    "--help",
    "gen",
    "gen 7 1",
    "gen 7 1 5 5",
    "gen 1000001 1 5",
    "gen 7 0 5",
    "gen 7 9 5",
    "gen 7 2 100001",
    "gen 07 1 5",
    "load 7 1 -5",
    "load -- 7 1 5",
    "gen --help",
    "help",
];

const USAGE: &str =
    "usage: camlheap run|replay|table [--domains N] [--minor W] [--pools P] | gen|load BASE N C\n";

#[test]
fn refused_words_and_scripts(rt: HostRuntime) -> Result<(), Fail> {
    for words in &OTHER_WORDS {
        let given = run_plain(&rt, rt.alloc(), words, PLAIN)?;
        is_given(&rt, &given, 1, USAGE, "");
    }
    for (words, script, line) in &REFUSED {
        let given = run_plain(&rt, rt.alloc(), words, script)?;
        is_given(&rt, &given, 2, line, "");
    }
    for (words, text, status, line) in &NOT_REPLAYED {
        let given = run_plain(&rt, rt.alloc(), words, text)?;
        is_given(&rt, &given, *status, line, "");
    }
    Ok(())
}
