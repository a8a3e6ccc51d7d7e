//! Domains that stop together for minor collections, and go on together.
use crate::scripts::program::{Output, is_given, run_plain};
use std::alloc::{AllocError, Global};
use std::sync::atomic::{AtomicU32, Ordering};
use std::sync::{Arc, Wait};
use std::test::Fail;
use std::thread;
use std::thread::Threads;
use std::time::{Clock, Duration};

// How often domain 0 asks for a pause in a run.
const PAUSES: u32 = 40;

// A script and what it prints. Each domain asks for fewer pauses than the one before it, so that traces end while others
// still ask.
#[derive(Drop)]
struct Row {
    script: String,
    prints: String,
}

fn row_of(alloc: Global, domains: u32) -> Result<Row, AllocError> {
    let mut script = String::from_str(alloc, "heap 1\n")?;
    let mut prints = String::new(alloc);
    for domain in 0..domains {
        let heading = format!(in alloc; "domain {domain}\n")?;
        script.push_str(&heading)?;
        prints.push_str(&heading)?;
        for _ in 0..PAUSES / (domain + 1) {
            script.push_str("minor\n")?;
            prints.push_str("ok\n")?;
        }
    }
    Ok(Row { script, prints })
}

fn run_of<R: Threads + Wait + Sync>(
    rt: &R,
    alloc: Global,
    domains: u32,
    script: &str,
) -> Result<Output, AllocError> {
    let words = format!(in alloc; "run --domains {domains} --minor 4096 --pools 153")?;
    run_plain(rt, alloc, &words, script)
}

// A run in a thread of its own. It fails where the run hasn't ended after half a minute.
fn run_in_time<R: Threads + Wait + Clock + Send + Sync + Copy + 'static>(
    rt: R,
    alloc: Global,
    domains: u32,
    script: String,
) -> Result<Output, Fail> {
    let ended = Arc::new(alloc, AtomicU32::new(0))?;
    let seen = ended.clone()?;
    let child = thread::spawn(&rt, move || {
        let given = run_of(&rt, alloc, domains, &script);
        ended.store(1, Ordering::SeqCst);
        given
    })?;
    for _ in 0..3000u32 {
        if seen.load(Ordering::SeqCst) == 1 {
            return Ok(child.join(&rt)?);
        }
        thread::sleep(&rt, Duration::from_millis(10));
    }
    Err(Fail::new("the run hangs"))
}

#[test]
fn pauses_end(rt: HostRuntime) -> Result<(), Fail> {
    for domains in 1..=8 {
        for _ in 0..3 {
            let Row { script, prints } = row_of(rt.alloc(), domains)?;
            let given = run_in_time(rt, rt.alloc(), domains, script)?;
            is_given(&rt, &given, 0, "", &prints);
        }
    }
    Ok(())
}
