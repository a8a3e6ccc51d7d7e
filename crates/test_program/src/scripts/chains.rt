//! Chains of ephemerons: the data of each is the key of the next, whichever domain made them and in
//! which order.
ghost use Rattle.std.specs.Prelude.{◌<◌, ◌≤◌};

use crate::scripts::program::{is_given, run_with_gate, sink, source};
use std::alloc::{AllocError, Global};
use std::process::Abort;
use std::sync::Wait;
use std::sync::atomic::{AtomicUsize, Ordering};
use std::test::Fail;
use std::thread::Threads;
use text_ends::Gate;

// How often a domain looks whether it may go on.
const LOOKS: u32 = 1_000_000_000;

// The other domains begin when domain 0 has made two commands, and it goes on when they have made all
// of theirs.
#[derive(Drop)]
struct Staged {
    theirs: usize,
    first: AtomicUsize,
    rest: AtomicUsize,
}

fn wait_for(counter: &AtomicUsize, count: usize) {
    for _ in 0..LOOKS {
        if counter.load(Ordering::SeqCst) >= count {
            return;
        }
    }
}

impl Gate for Staged {
    fn before(&self, domain: u32, index: u32) {
        match (domain, index) {
            (0, 2) => wait_for(&self.rest, self.theirs),
            (0, _) => (),
            (_, 0) => wait_for(&self.first, 2),
            _ => (),
        }
    }

    fn after(&self, domain: u32, index: u32) {
        if domain != 0 {
            self.rest.fetch_add(1, Ordering::SeqCst);
        } else if index < 2 {
            self.first.fetch_add(1, Ordering::SeqCst);
        }
    }
}

// In which order the ephemerons of a chain were made.
#[derive(Clone, Copy, Debug, PartialEq, Eq)]
enum Order {
    Rising,
    Falling,
    Mixed,
}

// A chain of so many ephemerons, made in turns by so many domains.
#[derive(Clone, Copy)]
struct Chain {
    length: u32,
    domains: u32,
    order: Order,
}

// A script and what it prints.
#[derive(Drop)]
struct Play {
    script: String,
    prints: String,
}

impl Play {
    fn push(&mut self, commands: &str, replies: &str) -> Result<(), AllocError> {
        self.script.push_str(commands)?;
        self.prints.push_str(replies)
    }
}

impl Chain {
    // Which of the ephemerons stands at a place of the chain.
    fn made_at(self, place: u32) -> u32
        requires { (1 ≤ self.length) × (self.length ≤ 64) × (place < self.length) }
        ensures { result < self.length }
    {
        match self.order {
            Order::Rising => place,
            Order::Falling => self.length - 1 - place,
            Order::Mixed => (5 * place + 3) % self.length,
        }
    }

    // How many of the ephemerons a domain makes.
    fn count_of(self, domain: u32) -> u32
        requires { (1 ≤ self.domains) × (self.length ≤ 64) × (domain < self.domains) × (self.domains ≤ 8) }
        ensures { result ≤ 71 }
    {
        (self.length + self.domains - 1 - domain) / self.domains
    }
}

// The domain that made an ephemeron, and its label there. Domain 0 makes a plain block first.
fn label_text(alloc: Global, chain: Chain, made: u32) -> Result<String, AllocError>
    requires { (1 ≤ chain.domains) × (made < 64) }
{
    let domain = made % chain.domains;
    let before = if domain == 0 { 2 } else { 1 };
    format!(in alloc; "blk {domain}:{}\n", made / chain.domains + before)
}

// A domain's ephemerons: it makes each and keeps it in the field of its number of a block that all
// have.
fn push_makers(alloc: Global, play: &mut Play, chain: Chain, domain: u32) -> Result<(), AllocError>
    requires { (1 ≤ chain.domains) × (chain.length ≤ 64) }
{
    for made in 0..chain.length {
        if made % chain.domains == domain {
            let label = label_text(alloc, chain, made)?;
            play.push("ephe 2 1\n", &label)?;
            play.push(&format!(in alloc; "store 1 {made} 2\n")?, "ok\n")?;
        }
    }
    Ok(())
}

// The data of each ephemeron of the chain is a new block, which is the key of the next. Register 6
// keeps the first key.
fn push_links(alloc: Global, play: &mut Play, chain: Chain) -> Result<(), AllocError>
    requires { (1 ≤ chain.domains) × (chain.domains ≤ 8) × (chain.length ≤ 64) }
{
    let before = chain.count_of(0) + 2;
    play.push(
        "alloc 3 0 1\nmove 6 3\n",
        &format!(in alloc; "blk 0:{before}\nok\n")?,
    )?;
    for place in 0..chain.length {
        let made = chain.made_at(place);
        let block = format!(in alloc; "blk 0:{}\n", before + 1 + place)?;
        play.push("alloc 4 0 1\n", &block)?;
        let label = label_text(alloc, chain, made)?;
        play.push(&format!(in alloc; "load 5 1 {made}\n")?, &label)?;
        play.push("set_key 5 0 3\nset_data 5 4\nmove 3 4\n", "ok\nok\nok\n")?;
    }
    Ok(())
}

// Each ephemeron is asked whether its key and its data are full.
fn push_checks(alloc: Global, play: &mut Play, chain: Chain, reply: &str) -> Result<(), AllocError>
    requires { (1 ≤ chain.domains) × (chain.length ≤ 64) }
{
    for made in 0..chain.length {
        let label = label_text(alloc, chain, made)?;
        play.push(&format!(in alloc; "load 5 1 {made}\n")?, &label)?;
        play.push(
            "check_key 5 0\ncheck_data 5\n",
            &format!(in alloc; "{reply}{reply}")?,
        )?;
    }
    Ok(())
}

// Domain 0 makes the block that all have, waits, makes the chain, and looks at it while its first key
// is held and once it isn't.
fn push_first(alloc: Global, play: &mut Play, chain: Chain) -> Result<(), AllocError>
    requires { (1 ≤ chain.domains) × (chain.domains ≤ 8) × (chain.length ≤ 64) }
{
    let length = chain.length;
    play.push("heap 1\ndomain 0\n", "domain 0\n")?;
    play.push("allocmaj 1 0 126\nstore 0 0 1\n", "blk 0:1\nok\n")?;
    play.push("poll\n", "ok\n")?;
    push_makers(alloc, play, chain, 0)?;
    push_links(alloc, play, chain)?;
    let live = format!(in alloc;
        "ok\nok\nok\nlive {} {}\n",
        2 * length + 3,
        7 * length + 149
    )?;
    play.push("drop 3\ndrop 4\ndrop 5\nfull_major\n", &live)?;
    push_checks(alloc, play, chain, "yes\n")?;
    let live = format!(in alloc; "ok\nok\nlive {} {}\n", length + 2, 4 * length + 146)?;
    play.push("drop 5\ndrop 6\nfull_major\n", &live)?;
    push_checks(alloc, play, chain, "no\n")
}

// The whole script, and what it prints.
fn play_of(alloc: Global, chain: Chain) -> Result<Play, AllocError>
    requires { (1 ≤ chain.domains) × (chain.domains ≤ 8) × (chain.length ≤ 64) }
{
    let mut play = Play {
        script: String::from_str(alloc, "")?,
        prints: String::from_str(alloc, "")?,
    };
    push_first(alloc, &mut play, chain)?;
    for domain in 1..chain.domains {
        let heading = format!(in alloc; "domain {domain}\n")?;
        play.push(&heading, &heading)?;
        play.push("load 1 0 0\n", "blk 0:1\n")?;
        push_makers(alloc, &mut play, chain, domain)?;
    }
    Ok(play)
}

// How many commands the other domains make.
fn commands_of_others(chain: Chain) -> usize
    requires { (1 ≤ chain.domains) × (chain.domains ≤ 8) × (chain.length ≤ 64) }
{
    let of_others = chain.length.saturating_sub(chain.count_of(0));
    (chain.domains - 1 + 2 * of_others) as usize
}

// The whole chain lives while its first key does, and no key and no data of it any longer.
fn lives_with_its_first_key<R: Threads + Wait + Sync + Abort>(
    rt: &R,
    alloc: Global,
    chain: Chain,
) -> Result<(), AllocError>
    requires { (1 ≤ chain.domains) × (chain.domains ≤ 8) × (chain.length ≤ 64) }
{
    let play = play_of(alloc, chain)?;
    let gate = Staged {
        theirs: commands_of_others(chain),
        first: AtomicUsize::new(0),
        rest: AtomicUsize::new(0),
    };
    let words = format!(in alloc; "run --domains {}", chain.domains)?;
    let source = source(alloc, &play.script, 4096, &[])?;
    let sink = sink(alloc, 4096, &[])?;
    let given = run_with_gate(rt, alloc, &words, source, sink, &gate)?;
    is_given(rt, &given, 0, "", &play.prints);
    Ok(())
}

#[test]
fn chains_live_with_their_first_key(rt: HostRuntime) -> Result<(), Fail> {
    for length in [2, 3, 8, 17, 64] {
        for domains in [1, 2, 8] {
            for order in [Order::Rising, Order::Falling, Order::Mixed] {
                let chain = Chain {
                    length,
                    domains,
                    order,
                };
                lives_with_its_first_key(&rt, rt.alloc(), chain)?;
            }
        }
    }
    Ok(())
}
