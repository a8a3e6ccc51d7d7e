//! The search: a stack of states that are to be looked at, and a set of those that were seen.
use crate::search::collect::{Next, add_queued, add_wished};
use crate::search::lines::{Kind, Line};
use crate::search::near::{count_told, finish};
use crate::search::plain::{Link, PlainEntry, history};
use crate::search::run::Run;
use crate::search::state::{Key, State};
use crate::search::step::{Step, make_next};
use model_core::entry::Entry;
use model_core::state::Sizes;
use std::alloc::{AllocError, Global};
use std::collections::BTreeSet;
use text_script::Script;

/// How far a search has come.
#[derive(Drop)]
pub enum Found {
    /// These entries may make the output.
    History(Vec<Entry>),
    /// All states were seen that the search goes through, and none of them has made the output.
    Nothing,
    /// All states were seen, but some choices were too many to be tried.
    CutShort,
    /// There are more states.
    More,
}

// A state that is to be looked at, and the last link of the way to it.
#[derive(Drop)]
struct Task {
    state: State,
    link: usize,
}

/// A legal output, and a history that makes it.
#[derive(Drop)]
pub struct Nearest {
    pub entries: Vec<Entry>,
    pub text: Vec<u8>,
}

/// A search for a history that makes an output.
#[derive(Drop)]
pub struct Search {
    alloc: Global,
    run: Run,
    stack: Vec<Task>,
    seen: BTreeSet<Key>,
    links: Vec<Link>,
    /// The state so far at which the most lines are printed, and their number.
    furthest: Task,
    told: usize,
    cut_short: bool,
    states: u64,
}

// Whether all domains have ended.
fn is_over(state: &State) -> bool {
    let mut over = true;
    for d in 0..state.domains() {
        over = over && state.domain_at(d).ended;
    }
    over
}

// Whether some line of a domain is `full`.
fn has_full(lines: &[Line]) -> bool {
    let mut full = false;
    for line in lines {
        full = full || line.kind == Kind::Full;
    }
    full
}

// Whether some line is `full`.
fn tells_full(run: &Run) -> bool {
    let mut full = false;
    for lines in &run.lines {
        full = full || has_full(lines);
    }
    full
}

// The state behind the first next entry of a domain of which it doesn't matter when it is made. All others that can be
// made are added to `found`.
fn next_unseen(
    alloc: Global,
    run: &Run,
    state: &State,
    found: &mut Vec<Next>,
) -> Result<Option<Next>, AllocError> {
    for d in 0..run.domains() {
        let mut next = Next::after(alloc, state)?;
        match make_next(alloc, run, &mut next, d)? {
            Step::Unseen => return Ok(Some(next)),
            Step::Seen => found.push(next)?,
            Step::Refused => {}
        }
    }
    Ok(None)
}

impl Search {
    /// A search for a legal history of a heap of these sizes, in which each domain makes the commands of its section and
    /// ends, and which makes this output. `None`: the output hasn't a section of lines for each domain.
    pub fn begin(
        alloc: Global,
        sizes: Sizes,
        script: &Script,
        output: &[u8],
    ) -> Result<Option<Search>, AllocError> {
        let Some(run) = Run::read(alloc, sizes, script, output)? else {
            return Ok(None);
        };
        let state = run.opening(alloc)?;
        let mut search = Search {
            alloc,
            cut_short: tells_full(&run),
            run,
            stack: Vec::new(alloc),
            seen: BTreeSet::new(alloc),
            links: Vec::new(alloc),
            furthest: Task {
                state: state.copy(alloc)?,
                link: 0,
            },
            told: 0,
            states: 0,
        };
        search.links.push(Link {
            before: 0,
            entry: PlainEntry::Done,
        })?;
        search.stack.push(Task { state, link: 0 })?;
        Ok(Some(search))
    }

    /// How many states were looked at.
    pub fn states(&self) -> u64 {
        self.states
    }

    // Adds the links of a way behind a link, and answers the last one.
    fn add_links(&mut self, link: usize, entries: &[PlainEntry]) -> Result<usize, AllocError> {
        let mut before = link;
        for entry in entries {
            let at = self.links.len();
            self.links.push(Link {
                before,
                entry: *entry,
            })?;
            before = at;
        }
        Ok(before)
    }

    fn push(&mut self, link: usize, next: Next) -> Result<(), AllocError> {
        let link = self.add_links(link, &next.entries)?;
        self.stack.push(Task {
            state: next.state,
            link,
        })?;
        Ok(())
    }

    fn push_all(&mut self, link: usize, found: Vec<Next>) -> Result<(), AllocError> {
        let mut found = found;
        found.reverse();
        for next in found {
            self.push(link, next)?;
        }
        Ok(())
    }

    // Makes all entries of which it doesn't matter when they are made, and answers those that come next else.
    fn hurry(&mut self, task: &mut Task) -> Result<Vec<Next>, AllocError> {
        for _ in 0..u32::MAX {
            let mut found = Vec::new(self.alloc);
            let Some(next) = next_unseen(self.alloc, &self.run, &task.state, &mut found)? else {
                return Ok(found);
            };
            task.link = self.add_links(task.link, &next.entries)?;
            task.state = next.state;
        }
        Ok(Vec::new(self.alloc))
    }

    // Adds the collections for the lines to come.
    fn push_collections(&mut self, task: &Task) -> Result<(), AllocError> {
        let mut found = Vec::new(self.alloc);
        if !add_queued(self.alloc, &self.run, &task.state, &mut found)? {
            self.cut_short = true;
        }
        for d in 0..self.run.domains() {
            if !add_wished(self.alloc, &self.run, &task.state, d, &mut found)? {
                self.cut_short = true;
            }
        }
        self.push_all(task.link, found)
    }

    // Notes a state at which more lines are printed than at those before.
    fn note(&mut self, task: &Task) -> Result<(), AllocError> {
        let told = count_told(&task.state);
        if told > self.told {
            self.told = told;
            self.furthest = Task {
                state: task.state.copy(self.alloc)?,
                link: task.link,
            };
        }
        Ok(())
    }

    /// A legal output that has the most lines which the search has found a history of, and a history that makes it.
    pub fn nearest(&mut self) -> Result<Nearest, AllocError> {
        let mut next = Next::after(self.alloc, &self.furthest.state)?;
        let text = finish(self.alloc, &self.run, &mut next)?;
        let link = self.add_links(self.furthest.link, &next.entries)?;
        let entries = history(self.alloc, &self.run, &self.links, link)?;
        Ok(Nearest { entries, text })
    }

    // Looks at one state. Answers the last link of the way where all domains have ended.
    fn look(&mut self, task: Task) -> Result<Option<usize>, AllocError> {
        let mut task = task;
        let found = self.hurry(&mut task)?;
        if is_over(&task.state) {
            return Ok(Some(task.link));
        }
        self.note(&task)?;
        if self.seen.insert(task.state.key(self.alloc)?)? {
            self.push_collections(&task)?;
            self.push_all(task.link, found)?;
        }
        Ok(None)
    }

    /// Looks at so many more states at most.
    pub fn go_on(&mut self, states: u64) -> Result<Found, AllocError> {
        for _ in 0..states {
            let Some(task) = self.stack.pop() else {
                return Ok(if self.cut_short {
                    Found::CutShort
                } else {
                    Found::Nothing
                });
            };
            self.states = self.states.saturating_add(1);
            if let Some(link) = self.look(task)? {
                let entries = history(self.alloc, &self.run, &self.links, link)?;
                return Ok(Found::History(entries));
            }
        }
        Ok(Found::More)
    }
}
