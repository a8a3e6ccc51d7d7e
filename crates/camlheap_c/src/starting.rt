//! The start and the end of a heap, as C calls them.
ghost use Rattle.std.specs.Prelude.{◌≡◌, ◌≢◌, ◌↔◌, ◌<◌, ◌≤◌, IfOk, false, true, length, map};
ghost use Rattle.camlheap_c.specs.Exported.{Fills, HoldsAny, Starts, TellsOutside};

use crate::codes::{DONE, HAS_DOMAIN, MEMORY, TOO_FEW_HANDLES, outside_code};
use crate::crossing::CamlheapConfig;
use crate::handle::CamlheapDomain;
use heap_rule::{Config, StartFault};
use run_seats::shared::{SharedRun, make_all};
use std::alloc::{AllocError, Global};

/// The number of this library's interface.
#[unsafe(no_mangle)]
pub extern "C" fn camlheap_version() -> u32
    ensures { result ≡ 1 }
{
    1
}

// Each of these runs in a box of its own.
fn boxed(alloc: Global, runs: Vec<SharedRun>) -> Result<Vec<Box<SharedRun>>, AllocError>
    ensures { IfOk result (λ v. map (λ b. b.value) v.items ≡ runs.items) }
{
    let mut boxes = Vec::new(alloc);
    'runs: for run in runs {
        boxes.push(Box::new(alloc, run)?)?;
    }
    Ok(boxes)
}

// Whether one of the first so many handles holds a domain.
fn is_any_full(handles: &mut [CamlheapDomain], count: usize) -> bool
    requires room { count ≤ length handles.old }
    ensures any { (result ≡ true) ↔ HoldsAny count handles.old }
    ensures same { handles.new ≡ handles.old }
{
    'handles: for at in 0..count {
        if handles[at].is_full() {
            return true;
        }
    }
    false
}

// Puts each of these into a handle.
fn hand_out(boxes: Vec<Box<SharedRun>>, handles: &mut [CamlheapDomain])
    requires room { length boxes.items ≤ length handles.old }
    ensures { Fills (map (λ b. b.value) boxes.items) handles.old handles.new }
{
    let mut at = 0;
    'boxes: for run in boxes {
        handles[at].put(run);
        at += 1;
    }
}

/// Starts a heap, and puts each of its domains into a handle. `DONE`; `TOO_FEW_HANDLES`; `HAS_DOMAIN` where one of the handles
/// that are to be filled holds a domain; `OUTSIDE` with the number of the first field of `config` outside its limit added; or
/// `MEMORY`. Handles are filled only where it answers `DONE`.
#[unsafe(no_mangle)]
pub extern "C" fn camlheap_start(
    alloc: Global,
    config: &CamlheapConfig,
    handles: &mut [CamlheapDomain],
) -> u32
    ensures few { (result ≡ 25) ↔ (length handles.old < config.now.domains) }
    ensures has_domain { config.now.domains ≤ length handles.old → (result ≡ 29) ↔ HoldsAny config.now.domains handles.old }
    ensures outside { config.now.domains ≤ length handles.old → result ≢ 29 → TellsOutside config.now result }
    ensures started { result ≡ 0 → Starts config.now handles.old handles.new }
    ensures same { result ≢ 0 → handles.new ≡ handles.old }
    ensures told { (result ≢ 0) → (result ≢ 24) → (result ≢ 25) → (result ≢ 29) → 32 < result }
{
    if handles.len() < config.domains as usize {
        return TOO_FEW_HANDLES;
    }
    if is_any_full(handles, config.domains as usize) {
        return HAS_DOMAIN;
    }
    let sizes = Config {
        domains: config.domains,
        minor_words: config.minor_words,
        pools: config.pools,
        finals: config.finals,
        ephes: config.ephes,
    };
    let runs = match make_all(alloc, sizes) {
        Ok(runs) => runs,
        Err(StartFault::Config(field)) => return outside_code(field),
        Err(StartFault::Memory) => return MEMORY,
    };
    let Ok(boxes) = boxed(alloc, runs) else {
        return MEMORY;
    };
    hand_out(boxes, handles);
    DONE
}

/// Frees a domain, and the heap with the last of them. The handle holds nothing then. Other domains wait for one that is
/// freed before all traces have ended, in the next pause, and forever.
#[unsafe(no_mangle)]
pub extern "C" fn camlheap_free(alloc: Global, handle: &mut CamlheapDomain)
    ensures gone { handle.new.full ≡ false }
{
    let _run = handle.take(alloc);
}
