//! Words that are taken, with what they ask for, and words that are refused.
use crate::words::same::same;
use model_core::state::Sizes;
use std::alloc::{AllocError, Global};
use std::test::Fail;
use text_script::words::{Generated, Job, read_words, words_fit};

// The words of a line, which single spaces part.
fn words(alloc: Global, line: &str) -> Result<Vec<String>, AllocError> {
    let mut words = Vec::new(alloc);
    for word in line.split(' ') {
        words.push(String::from_str(alloc, word)?)?;
    }
    Ok(words)
}

// Whether the words of a line are taken, and what they ask for.
fn read(alloc: Global, line: &str) -> Result<(bool, Option<Job>), AllocError> {
    let words = words(alloc, line)?;
    let job = read_words(alloc, &words)?;
    Ok((words_fit(&words), job))
}

// Words of a run, and the domains, minor words and pools that they ask for.
const RUNS: [(&str, (u32, u32, u32)); 6] = [
    ("run", (2, 32768, 512)),
    ("run --domains 1", (1, 32768, 512)),
    (
        "run --domains=8 --minor=65536 --pools=2048",
        (8, 65536, 2048),
    ),
    ("run --pools 20 --minor 4096 --domains 1", (1, 4096, 20)),
    ("run --minor=4096", (2, 4096, 512)),
    ("run --minor 4096 --pools=39", (2, 4096, 39)),
];

// Words of a table, and the domains, minor words and pools that they ask for.
const TABLES: [(&str, (u32, u32, u32)); 5] = [
    ("table", (1, 32768, 512)),
    ("table --domains=1 --pools 600", (1, 32768, 600)),
    ("table --minor 4096 --pools 51", (1, 4096, 51)),
    ("table --domains 8", (8, 32768, 512)),
    ("table --domains 2 --minor 4096 --pools 61", (2, 4096, 61)),
];

// Numbers of a script that may be asked for.
const SCRIPTS: [(&str, (u32, u32, u32)); 3] = [
    ("0 1 0", (0, 1, 0)),
    ("17 3 66666", (17, 3, 66666)),
    ("1000000 8 25000", (1_000_000, 8, 25000)),
];

const REFUSED: [&str; 37] = [
    "",
    "run x",
    "runs",
    "run --domains 9",
    "run --domains 0",
    "run --domains",
    "run --domains=",
    "run --domains 01",
    "run --domains +1",
    "run --domains -1",
    "run --domains 4294967297",
    "run --domains 99999999999999999999999",
    "run --domains 1 --minor 4096 --pools 19",
    "run --minor 5000",
    "run --minor 4096 --pools 38",
    "run --pools 20 --pools 20",
    "run --pools=600 --pools 600",
    "run --help",
    "run --",
    "run --domain 1",
    "table --domains 9",
    "table --minor 4096 --pools 50",
    "table --domains 2 --minor 4096 --pools 60",
    "table table",
    "gen",
    "gen 1 2",
    "gen 1 2 3 4",
    "gen 1 2 03",
    "gen -- 1 2 3",
    "gen 1000001 1 1",
    "load 0 0 0",
    "load 0 9 1",
    "load 0 8 25001",
    "load 0 8 4294967295",
    "load 1 2 3 --domains 2",
    "help gen",
    "--help",
];

#[test]
fn lines_are_taken_or_refused(rt: HostRuntime) -> Result<(), Fail> {
    for (line, asked) in &RUNS {
        let job = Job::Run(Sizes {
            domains: asked.0,
            pools: asked.2,
            minor_words: asked.1,
            classes: 9,
        });
        same(
            &rt,
            (read(rt.alloc(), line)?, *line),
            ((true, Some(job)), *line),
        );
    }
    for (line, asked) in &TABLES {
        let job = Job::Table(Sizes {
            domains: asked.0,
            pools: asked.2,
            minor_words: asked.1,
            classes: 9,
        });
        same(
            &rt,
            (read(rt.alloc(), line)?, *line),
            ((true, Some(job)), *line),
        );
    }
    for line in &REFUSED {
        same(
            &rt,
            (read(rt.alloc(), line)?, *line),
            ((false, None), *line),
        );
    }
    same(&rt, words_fit(&[]), false);
    Ok(())
}

#[test]
fn scripts_are_asked_for(rt: HostRuntime) -> Result<(), Fail> {
    for (numbers, asked) in &SCRIPTS {
        let script = Generated {
            base: asked.0,
            domains: asked.1,
            commands: asked.2,
        };
        let generate = format!(in rt.alloc(); "gen {numbers}")?;
        let load = format!(in rt.alloc(); "load {numbers}")?;
        same(
            &rt,
            read(rt.alloc(), &generate)?,
            (true, Some(Job::Gen(script))),
        );
        same(
            &rt,
            read(rt.alloc(), &load)?,
            (true, Some(Job::Load(script))),
        );
    }
    Ok(())
}
