//! The search, up to a number of states.
use judge_outputs::search::{Found, Search};
use judge_outputs::{Seek, Sought};
use model_core::state::Sizes;
use std::alloc::{AllocError, Global};
use std::time::{Duration, Instant};
use text_script::Script;

// So many states are looked at before it is told how far the search has come.
const ROUND: u64 = 1_000;

/// A search that looks at no more than so many states, and tells how far it has come each time that another second has passed.
#[derive(Drop)]
pub(crate) struct Bounded<'a> {
    rt: &'a HostRuntime,
    told: Option<Instant>,
    limit: u64,
}

impl<'a> Bounded<'a> {
    /// Nothing was told yet.
    pub(crate) fn new(rt: &'a HostRuntime, limit: u64) -> Bounded<'a> {
        Bounded {
            rt,
            told: Instant::now(rt).ok(),
            limit,
        }
    }

    fn tell(&mut self, states: u64) {
        let Some(before) = self.told else {
            return;
        };
        let Ok(passed) = before.elapsed(self.rt) else {
            return;
        };
        if passed >= Duration::from_secs(1) {
            let _ = eprintln!(self.rt; "history_check: looked at {states} states");
            self.told = Instant::now(self.rt).ok();
        }
    }

    // Looks at the states that are left.
    fn go_on(&mut self, search: &mut Search) -> Result<Found, AllocError> {
        for _ in 0..self.limit {
            let left = self.limit.saturating_sub(search.states());
            if left == 0 {
                return Ok(Found::More);
            }
            match search.go_on(left.min(ROUND))? {
                Found::More => self.tell(search.states()),
                found => return Ok(found),
            }
        }
        Ok(Found::More)
    }
}

impl<'a> Seek for Bounded<'a> {
    fn seek(
        &mut self,
        alloc: Global,
        sizes: &Sizes,
        script: &Script,
        output: &[u8],
    ) -> Result<Sought, AllocError> {
        let Some(mut search) = Search::begin(alloc, *sizes, script, output)? else {
            return Ok(Sought::Nothing {
                states: 0,
                near: None,
            });
        };
        let found = self.go_on(&mut search)?;
        let states = search.states();
        Ok(match found {
            Found::History(entries) => Sought::History { entries, states },
            Found::Nothing => Sought::Nothing {
                states,
                near: Some(search.nearest()?),
            },
            Found::CutShort | Found::More => Sought::CutShort {
                states,
                near: Some(search.nearest()?),
            },
        })
    }
}
