//! How large a heap is, and why it can't be started.
ghost use Rattle.std.specs.Prelude.{◌≡◌};
ghost use Rattle.heap_rule.specs.Limits.{sizes_in, first_outside};
ghost use Rattle.heap_rule.specs.declared.config.StartFault.TheVariants.{Memory};

use heap_words::classes::CLASS_COUNT;
use model_core::state::Sizes;
use std::alloc::{AllocError, AllocFailed};
use thiserror::Error;

/// How large a heap is.
#[derive(Clone, Copy, Debug, PartialEq, Eq)]
pub struct Config {
    /// 1 to 8.
    pub domains: u32,
    /// Words of each domain's minor area: a multiple of 4096, 4096 to 65,536.
    pub minor_words: u32,
    /// Pools of 4096 words in the major heap: as many as promotion may need, one for each size
    /// class and domain, and one more, up to 2048.
    pub pools: u32,
    /// Registrations of finalisers that a domain has room for, up to 200,000.
    pub finals: u32,
    /// Ephemerons that a domain has room for, up to 200,000.
    pub ephes: u32,
}

/// Why a heap wasn't started.
#[derive(Clone, Copy, Debug, PartialEq, Eq, Error)]
pub enum StartFault {
    /// The first field outside its limit, counted from 1 in the order of `Config`.
    #[error("config field {0}")]
    Config(u32),
    #[error("out of memory")]
    Memory,
}

impl From<AllocError> for StartFault {
    ghost from_gives = { λ _ fault. fault ≡ Memory };

    fn from(_error: AllocError) -> StartFault {
        StartFault::Memory
    }
}

impl<T: Drop> From<AllocFailed<T>> for StartFault {
    ghost from_gives = { λ _ fault. fault ≡ Memory };

    fn from(_error: AllocFailed<T>) -> StartFault {
        StartFault::Memory
    }
}

// The most registrations, or ephemerons, that a domain may have room for.
const MOST_ROOM: u32 = 200_000;

impl Config {
    /// The numbers that say which histories are legal.
    pub fn sizes(&self) -> Sizes
        ensures { result ≡ sizes_in self.now }
    {
        Sizes {
            domains: self.domains,
            pools: self.pools,
            minor_words: self.minor_words,
            classes: CLASS_COUNT as u32,
        }
    }

    // The first field outside its limit, counted from 1.
    pub(crate) fn first_outside(&self) -> Option<u32>
        ensures { result ≡ first_outside self.now }
    {
        if let Some(field) = self.sizes().first_outside() {
            return Some(field);
        }
        if self.finals > MOST_ROOM {
            return Some(4);
        }
        if self.ephes > MOST_ROOM {
            return Some(5);
        }
        None
    }
}
