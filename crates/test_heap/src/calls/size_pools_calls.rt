//! Pools that fill, of one domain and of eight at once.
ghost use Rattle.std.specs.Prelude.{All, ◌≡◌, ◌+◌, ◌^◌, ◌<◌, ◌≤◌};
ghost use Rattle.heap_rule.specs.Running.{Runs};
ghost use Rattle.test_heap.specs.Calls.Fresh.{IsFresh};

use crate::calls::fixtures::{one_domain, same, started};
use do_alloc::pools::{NoPool, alloc_major};
use heap_rule::{Config, Domain, Heap};
use heap_words::Value;
use model_core::label::Label;
use std::alloc::{AllocError, Global};
use std::test::Fail;
use std::thread::for_each_mut;

// The reserve is 80 pools, so the domains can draw 119 of the 199 that are listed.
const EIGHT: Config = Config {
    domains: 8,
    minor_words: 4096,
    pools: 200,
    finals: 0,
    ephes: 0,
};

const DRAWN: usize = 119;

// Allocates so many blocks of `fields` fields.
fn allocate(heap: &Heap, dom: &mut Domain, fields: u16, blocks: u32) -> Result<(), NoPool>
    requires runs { Runs heap.now dom.old }
    requires fields { (1 ≤ fields) × (fields ≤ 1022) }
    requires labels { dom.old.view.own.serial + blocks < 2 ^ 32 }
    ensures runs { Runs heap.now dom.new }
    ensures labels { dom.new.view.own.serial ≤ dom.old.view.own.serial + blocks }
{
    for _made in 0..blocks {
        alloc_major(heap, dom, 1, 0, fields)?;
    }
    Ok(())
}

// Numbers of fields and of blocks, what making so many answers, and where the last block lies that was made. The 1024 places of
// a pool of the least class lie side by side, and the next block is in another pool. Of blocks of 128 words 224 fit the
// seven other pools that the reserve leaves, and no more.
const FILLING: [(u16, u32, Result<(), NoPool>, u32); 6] = [
    (2, 1, Ok(()), 4097),
    (2, 1023, Ok(()), 8189),
    (1, 1, Ok(()), 8193),
    (126, 224, Ok(()), 40_833),
    (126, 1, Err(NoPool { free: 10 }), 40_833),
    (126, 1, Err(NoPool { free: 10 }), 40_833),
];

// Whether the pools fill so.
fn fill_so(heap: &Heap, dom: &mut Domain) -> bool
    requires { Runs heap.now dom.old }
{
    let mut right = true;
    for (fields, blocks, answer, at) in &FILLING {
        if dom.labels_made() > 1_000_000 || *blocks > 1_000_000 {
            return false;
        }
        let made = allocate(heap, dom, *fields, *blocks);
        right = right && made == *answer && dom.register(1) == Value::Ref(*at);
    }
    right
}

#[test]
fn the_pools_fill(rt: HostRuntime) -> Result<(), Fail> {
    let (heap, mut dom) = one_domain(rt.alloc())?;
    let right = fill_so(&heap, &mut dom);
    same(&rt, (right, dom.labels_made()), (true, 1249));
    Ok(())
}

// A domain that takes blocks until no pool is to be had, and where its blocks lie.
#[derive(Drop)]
struct Drawer<'h> {
    heap: &'h Heap,
    dom: Domain,
    blocks: Vec<u32>,
    // The pools that were free when none was to be had.
    free: Option<u32>,
    // Whether each label was the domain's next.
    labelled: bool,
    ghost runs: { Runs heap.now dom },
}

impl<'h> Drawer<'h> {
    // Takes a block of 128 words. Answers whether it got one.
    fn take(&mut self) -> bool {
        let made = self.dom.labels_made();
        if made >= 1_000_000 {
            return false;
        }
        match alloc_major(self.heap, &mut self.dom, 1, 0, 126) {
            Ok(Label { domain, serial }) => {
                let number = self.dom.number();
                self.labelled = self.labelled && domain == number && serial == made + 1;
                let Value::Ref(at) = self.dom.register(1) else {
                    return false;
                };
                self.blocks.push(at).is_ok()
            }
            Err(NoPool { free }) => {
                self.free = Some(free);
                false
            }
        }
    }

    fn draw_all(&mut self) {
        for _ in 0..1_000_000 {
            if !self.take() {
                return;
            }
        }
    }
}

// Marks the places of a domain's blocks, and the domain as the owner of their pools. Answers whether
// no place was marked before and no pool had another owner.
fn mark(blocks: &[u32], domain: u32, owners: &mut [Option<u32>], places: &mut [bool]) -> bool {
    let mut right = true;
    for at in blocks {
        let place = (at.saturating_sub(1) / 128) as usize;
        let pool = place / 32;
        if let (Some(owner), Some(taken)) = (owners.get_mut(pool), places.get_mut(place)) {
            right = right && !*taken && owner.unwrap_or(domain) == domain;
            *taken = true;
            *owner = Some(domain);
        } else {
            right = false;
        }
    }
    right
}

// A drawer for each of these domains.
fn drawers_of<'h>(
    alloc: Global,
    heap: &'h Heap,
    domains: Vec<Domain>,
) -> Result<Vec<Drawer<'h>>, AllocError>
    requires { All (IsFresh heap.now) domains.items }
{
    let mut domains = domains;
    let mut drawers = Vec::new(alloc);
    for _ in 0..domains.len() {
        let Some(dom) = domains.pop() else {
            break;
        };
        drawers.push(Drawer {
            heap,
            dom,
            blocks: Vec::new(alloc),
            free: None,
            labelled: true,
        })?;
    }
    Ok(drawers)
}

// Eight domains draw pools at once until none is to be had: each pool that may be drawn is one domain's,
// and all its places are blocks.
#[test]
fn eight_domains_draw_pools_at_once(rt: HostRuntime) -> Result<(), Fail> {
    let alloc = rt.alloc();
    let (heap, domains) = started(alloc, EIGHT)?;
    let mut drawers = drawers_of(alloc, &heap, domains)?;
    for_each_mut(
        &rt,
        &mut drawers,
        8,
        &|_, drawer: &mut Drawer| drawer.draw_all(),
    );
    let mut owners = vec![in alloc; None; 200]?;
    let mut places = vec![in alloc; false; 6400]?;
    for drawer in drawers.iter() {
        same(&rt, drawer.free, Some(80));
        let number = drawer.dom.number();
        let apart = mark(&drawer.blocks, number, &mut owners, &mut places);
        same(&rt, (drawer.labelled, apart), (true, true));
    }
    same(
        &rt,
        owners.iter().filter(|owner| owner.is_some()).count(),
        DRAWN,
    );
    same(
        &rt,
        places.iter().filter(|taken| **taken).count(),
        DRAWN * 32,
    );
    Ok(())
}
