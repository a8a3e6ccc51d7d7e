//! Worked scripts and reply lines.
use crate::words::same::same;
use model_core::command::Command;
use model_core::label::Label;
use model_core::reply::Reply;
use std::alloc::{AllocError, Global};
use std::test::Fail;
use text_script::ScriptFault::{Order, Range, Spawn, Syntax, TooLong, TooMany};
use text_script::{
    Line, Script, ScriptFault, Version, generate, print_command, print_heading, print_reply,
    read_script,
};

// What the first sections of a script print as.
fn printed(alloc: Global, script: &Script, written: usize) -> Result<Vec<u8>, AllocError> {
    let first: &[u8] = match script.version() {
        3 => b"heap 3\n",
        2 => b"heap 2\n",
        _ => b"heap 1\n",
    };
    let mut bytes = Vec::from_slice(alloc, first)?;
    let mut line: Line = [0; 64];
    for domain in 0..written.min(script.sections()).min(8) {
        let len = print_heading(domain as u32, &mut line);
        bytes.extend_from_slice(&line[..len])?;
        for command in script.section(domain) {
            let len = print_command(command, &mut line);
            bytes.extend_from_slice(&line[..len])?;
        }
    }
    Ok(bytes)
}

// Two lines, and then so many copies of a third.
fn many_lines(alloc: Global, copies: usize, last: &[u8]) -> Result<Vec<u8>, AllocError> {
    let mut bytes = Vec::from_slice(alloc, b"heap 1\ndomain 0\n")?;
    for _ in 0..copies {
        bytes.extend_from_slice(b"int 1 5\n")?;
    }
    bytes.extend_from_slice(last)?;
    Ok(bytes)
}

// Domains, sections that are written, and a script.
const SCRIPTS: [(u32, usize, &[u8]); 13] = [
    (1, 0, b"heap 1\n"),
    (1, 1, b"heap 1\ndomain 0\n"),
    (2, 1, b"heap 1\ndomain 0\nint 0 0\n"),
    (
        1,
        1,
        b"heap 1\ndomain 0\nalloc 1 0 2\nint 2 7\nstore 1 0 2\nload 3 1 0\n",
    ),
    (
        1,
        1,
        b"heap 1\ndomain 0\nint 1 4611686018427387903\nint 1 -4611686018427387904\n",
    ),
    (1, 1, b"heap 1\ndomain 0\nalloc 1 245 126\nload 2 0 1023\n"),
    (1, 1, b"heap 1\ndomain 0\nmove 1 15\ndrop 0\npoll\n"),
    (1, 1, b"heap 1\ndomain 0\nallocmaj 1 3 126\nminor\n"),
    (1, 1, b"heap 1\ndomain 0\nmajor\nfull_major\n"),
    (1, 1, b"heap 2\ndomain 0\nraw 1 251 1022\ncas 0 1023 1 15\n"),
    (
        1,
        1,
        b"heap 2\ndomain 0\nalloc 1 245 1022\nallocmaj 1 3 127\n",
    ),
    (
        8,
        3,
        b"heap 1\ndomain 0\ndomain 1\nint 15 -1\ndomain 2\nint 1 10\n",
    ),
    (
        3,
        3,
        b"heap 3\ndomain 0\nspawn 2 1\nspawn 1 13\ndomain 1\nargument 1\ndomain 2\nresult 2\n",
    ),
];

#[test]
fn scripts_are_printed_back(rt: HostRuntime) -> Result<(), Fail> {
    for (domains, written, bytes) in &SCRIPTS {
        let script = read_script(rt.alloc(), Version::Three, *domains, bytes)?;
        same(&rt, script.sections(), *domains as usize);
        let again = printed(rt.alloc(), &script, *written)?;
        same(&rt, again.as_slice(), *bytes);
    }
    Ok(())
}

#[test]
fn commands_are_read(rt: HostRuntime) -> Result<(), Fail> {
    let script = read_script(
        rt.alloc(),
        Version::Three,
        1,
        b"heap 1\ndomain 0\nstore 1 1023 2\nint 3 -7\n",
    )?;
    assert_eq!(rt; script.sections(), 1);
    let are_read = matches!(
        script.section(0),
        [
            Command::Store {
                block: 1,
                index: 1023,
                item: 2,
            },
            Command::PutInt { dst: 3, value: -7 },
        ]
    );
    same(&rt, are_read, true);
    Ok(())
}

// Domains, bytes, and their first fault.
const FAULTS: [(u32, &[u8], ScriptFault); 42] = [
    (1, b"", Syntax { line: 1 }),
    (1, b"heap 1", Syntax { line: 1 }),
    (1, b"heap 4\n", Syntax { line: 1 }),
    (2, b"heap 3\ndomain 0\ndomain 1\n", Spawn { line: 3 }),
    (2, b"heap 3\ndomain 0\njoin 2 1\n", Spawn { line: 3 }),
    (
        2,
        b"heap 3\ndomain 0\nspawn 2 1\n",
        Range { line: 3, which: 1 },
    ),
    (
        2,
        b"heap 3\ndomain 0\nint 14 0\n",
        Range { line: 3, which: 1 },
    ),
    (1, b"heap 1\ndomain 0\nraw 1 252 3\n", Syntax { line: 3 }),
    (1, b"heap 1\ndomain 0\ncas 0 3 1 2\n", Syntax { line: 3 }),
    (
        1,
        b"heap 2\ndomain 0\nraw 1 250 1\n",
        Range { line: 3, which: 2 },
    ),
    (
        1,
        b"heap 2\ndomain 0\nalloc 1 0 1023\n",
        Range { line: 3, which: 3 },
    ),
    (
        1,
        b"heap 2\ndomain 0\nalloc 1 246 1\n",
        Range { line: 3, which: 2 },
    ),
    (1, b"heap 1 \n", Syntax { line: 1 }),
    (1, b"heap 1\n\n", Syntax { line: 2 }),
    (1, b"heap 1\ndomain 0\nint 1 5", Syntax { line: 3 }),
    (1, b"heap 1\ndomain 0\nint 1 07\n", Syntax { line: 3 }),
    (1, b"heap 1\ndomain 0\nint 1 -0\n", Syntax { line: 3 }),
    (1, b"heap 1\ndomain 0\nint 1 +5\n", Syntax { line: 3 }),
    (1, b"heap 1\ndomain 0\nint 1 -\n", Syntax { line: 3 }),
    (1, b"heap 1\ndomain 0\nint 1\n", Syntax { line: 3 }),
    (1, b"heap 1\ndomain 0\nint 1 5 6\n", Syntax { line: 3 }),
    (1, b"heap 1\ndomain 0\nint  1 5\n", Syntax { line: 3 }),
    (1, b"heap 1\ndomain 0\nint 1 5 \n", Syntax { line: 3 }),
    (1, b"heap 1\ndomain 0\n int 1 5\n", Syntax { line: 3 }),
    (1, b"heap 1\ndomain 0\nint 1\t5\n", Syntax { line: 3 }),
    (1, b"heap 1\ndomain 0\nint 1 5\r\n", Syntax { line: 3 }),
    (1, b"heap 1\ndomain 0\nallok 1 0 1\n", Syntax { line: 3 }),
    (1, b"heap 1\ndomain 0\npoll 1\n", Syntax { line: 3 }),
    (1, b"heap 1\ndomain 0\nspawn 1 1\n", Syntax { line: 3 }),
    (
        1,
        b"heap 1\ndomain 0\nint 99 99\nint\n",
        Range { line: 3, which: 1 },
    ),
    (
        1,
        b"heap 1\ndomain 0\nint 1 4611686018427387904\n",
        Range { line: 3, which: 2 },
    ),
    (
        1,
        b"heap 1\ndomain 0\nint 1 -4611686018427387905\n",
        Range { line: 3, which: 2 },
    ),
    (
        1,
        b"heap 1\ndomain 0\nint 1 18446744073709551616\n",
        Range { line: 3, which: 2 },
    ),
    (
        1,
        b"heap 1\ndomain 0\nalloc 1 0 127\n",
        Range { line: 3, which: 3 },
    ),
    (
        1,
        b"heap 1\ndomain 0\nalloc 1 246 1\n",
        Range { line: 3, which: 2 },
    ),
    (
        1,
        b"heap 1\ndomain 0\nload 1 16 2000\n",
        Range { line: 3, which: 2 },
    ),
    (
        1,
        b"heap 1\ndomain 0\nint 16 99999999999999999999\n",
        Range { line: 3, which: 1 },
    ),
    (2, b"heap 1\ndomain 1\n", Order { line: 2 }),
    (2, b"heap 1\nint 1 5\n", Order { line: 2 }),
    (2, b"heap 1\ndomain 2\n", Range { line: 2, which: 1 }),
    (1, b"heap 1\ndomain 0\ndomain 0\n", Order { line: 3 }),
    (1, b"heap 1\ndomain -1\n", Range { line: 2, which: 1 }),
];

#[test]
fn first_faults(rt: HostRuntime) -> Result<(), Fail> {
    for (domains, bytes, fault) in &FAULTS {
        let read = read_script(rt.alloc(), Version::Three, *domains, bytes);
        same(&rt, (read.err(), *bytes), (Some(*fault), *bytes));
    }
    Ok(())
}

#[test]
fn too_many_commands(rt: HostRuntime) -> Result<(), Fail> {
    let faults: [(&[u8], ScriptFault); 4] = [
        (b"int 1 5\n", TooMany { line: 200_003 }),
        (b"domain 1\nint 1 5\n", TooMany { line: 200_004 }),
        (b"int 16 1\n", TooMany { line: 200_003 }),
        (b"int 16\n", Syntax { line: 200_003 }),
    ];
    for (last, fault) in faults {
        let bytes = many_lines(rt.alloc(), 200_000, last)?;
        let read = read_script(rt.alloc(), Version::Three, 2, bytes.as_slice());
        same(&rt, read.err(), Some(fault));
    }
    let bytes = many_lines(rt.alloc(), 200_000, b"")?;
    let script = read_script(rt.alloc(), Version::Three, 1, bytes.as_slice())?;
    assert_eq!(rt; script.sections(), 1);
    same(&rt, script.section(0).len(), 200_000);
    Ok(())
}

// Two scripts that are generated: half a group of one domain, and a group of each of two.
const HALF_A_GROUP: &[u8] = b"heap 1
domain 0
alloc 1 0 9
int 2 7
store 1 0 2
int 3 0
move 3 1
";

const TWO_GROUPS: &[u8] = b"heap 1
domain 0
alloc 1 0 2
int 2 0
store 1 0 2
int 3 0
move 3 1
store 0 0 1
load 4 0 0
load 5 4 0
ephe 6 1
poll
domain 1
alloc 1 0 2
int 2 1
store 1 0 2
int 3 0
move 3 1
store 0 1 1
load 4 0 1
load 5 4 0
ephe 6 1
poll
";

#[test]
fn scripts_are_generated(rt: HostRuntime) -> Result<(), Fail> {
    let generated = [
        (generate(rt.alloc(), 7, 1, 5)?, HALF_A_GROUP),
        (generate(rt.alloc(), 0, 2, 10)?, TWO_GROUPS),
    ];
    for (script, bytes) in &generated {
        let text = printed(rt.alloc(), script, script.sections())?;
        same(&rt, text.as_slice(), *bytes);
    }
    Ok(())
}

fn line_feeds(alloc: Global, count: usize) -> Result<Vec<u8>, AllocError> {
    vec![in alloc; b'\n'; count]
}

#[test]
fn too_many_bytes(rt: HostRuntime) -> Result<(), Fail> {
    for (count, fault) in [
        (16_777_217, TooLong { bytes: 16_777_217 }),
        (16_777_216, Syntax { line: 1 }),
    ] {
        let bytes = line_feeds(rt.alloc(), count)?;
        let read = read_script(rt.alloc(), Version::Three, 1, bytes.as_slice());
        same(&rt, read.err(), Some(fault));
    }
    Ok(())
}

const LABEL: Label = Label {
    domain: 7,
    serial: 4_294_967_295,
};

// Replies and their lines.
const REPLIES: [(Reply, &[u8]); 13] = [
    (Reply::Done, b"ok\n"),
    (
        Reply::Int(-4_611_686_018_427_387_904),
        b"int -4611686018427387904\n",
    ),
    (Reply::Block(LABEL), b"blk 7:4294967295\n"),
    (
        Reply::Block(Label {
            domain: 0,
            serial: 0,
        }),
        b"blk 0:0\n",
    ),
    (Reply::BadType, b"type\n"),
    (Reply::BadIndex, b"bounds\n"),
    (Reply::Empty, b"none\n"),
    (Reply::Yes, b"yes\n"),
    (Reply::No, b"no\n"),
    (Reply::Full, b"full\n"),
    (
        Reply::Live {
            blocks: 101,
            words: 12_818,
        },
        b"live 101 12818\n",
    ),
    (
        Reply::Fin {
            number: 65_535,
            label: LABEL,
        },
        b"fin 65535 7:4294967295\n",
    ),
    (Reply::Last { number: 6 }, b"last 6\n"),
];

#[test]
fn reply_lines(rt: HostRuntime) -> Result<(), Fail> {
    for (reply, text) in &REPLIES {
        let mut line: Line = [1; 64];
        let len = print_reply(reply, &mut line);
        same(&rt, &line[..len], *text);
    }
    Ok(())
}
