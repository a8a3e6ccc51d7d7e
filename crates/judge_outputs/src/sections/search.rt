//! The search for an order: depth first over states, with a set of those that were seen. Nothing is claimed of what it finds.
use crate::sections::play::make_turn;
use crate::sections::turn::Turn;
use crate::show::push_between;
use crate::texts::machine::Machine;
use crate::texts::replies::reply_of;
use model_core::graph::Value;
use model_core::label::Label;
use std::alloc::{AllocError, Global};
use std::collections::BTreeSet;
use table_text::TableLine;
use table_text::machine::LineReply;

/// What a search comes to.
#[derive(Drop)]
pub(crate) enum Found {
    /// These turns may explain the output.
    Turns(Vec<Turn>),
    /// All states were seen, and in none of them are all lines made.
    Nothing,
    /// There are more states.
    More,
}

// How far the domains have come. A key is named by its domain and the number of the line that made it, whatever the order.
#[derive(Drop)]
struct State {
    next: Vec<usize>,
    machine: Machine,
    /// The last link of the way to it.
    link: usize,
}

// A turn of a way, and the link before it.
#[derive(Clone, Copy)]
struct Link {
    before: usize,
    turn: Option<Turn>,
}

// A label as numbers.
type Name = (u32, u32);

// A state as numbers, which no other state has.
#[derive(Drop, PartialEq, Eq, PartialOrd, Ord)]
struct StateKey {
    next: Vec<usize>,
    places: Vec<Option<Name>>,
    bindings: Vec<(Name, i64)>,
}

fn name_of(label: Label) -> Name {
    (label.domain, label.serial)
}

// The replies that an output tells of each domain, or nothing where it isn't one of so many domains.
fn read_told(
    alloc: Global,
    output: &[u8],
    domains: usize,
) -> Result<Option<Vec<Vec<LineReply>>>, AllocError> {
    let mut told: Vec<Vec<LineReply>> = Vec::new(alloc);
    for text in output.split(|byte| *byte == b'\n') {
        if is_heading(alloc, text, told.len())? {
            told.push(Vec::new(alloc))?;
        } else if let (Some(reply), Some(last)) = (reply_of(text), told.last_mut()) {
            last.push(reply)?;
        } else if !text.is_empty() {
            return Ok(None);
        }
    }
    Ok(if told.len() == domains {
        Some(told)
    } else {
        None
    })
}

// Whether a text is the heading of a domain.
fn is_heading(alloc: Global, text: &[u8], domain: usize) -> Result<bool, AllocError> {
    let Ok(number) = u32::try_from(domain) else {
        return Ok(false);
    };
    let mut heading = Vec::new(alloc);
    push_between(&mut heading, b"domain ", number, b"")?;
    Ok(heading.as_slice() == text)
}

// All turns of each domain.
fn all_turns(
    alloc: Global,
    sections: &[Vec<TableLine>],
    told: &[Vec<LineReply>],
) -> Result<Option<Vec<Vec<Turn>>>, AllocError> {
    let mut all = Vec::new(alloc);
    for (domain, (lines, replies)) in sections.iter().zip(told.iter()).enumerate() {
        let Ok(domain) = u8::try_from(domain) else {
            return Ok(None);
        };
        if lines.len() != replies.len() {
            return Ok(None);
        }
        all.push(turns_of(alloc, domain, lines, replies)?)?;
    }
    Ok(Some(all))
}

// The turns of a domain.
fn turns_of(
    alloc: Global,
    domain: u8,
    lines: &[TableLine],
    replies: &[LineReply],
) -> Result<Vec<Turn>, AllocError> {
    let mut turns = Vec::new(alloc);
    for (line, reply) in lines.iter().zip(replies.iter()) {
        turns.push(Turn {
            domain,
            line: *line,
            reply: *reply,
        })?;
    }
    Ok(turns)
}

impl State {
    // Before the first line.
    fn opening(alloc: Global, domains: u8) -> Result<State, AllocError> {
        Ok(State {
            next: vec![in alloc; 0; usize::from(domains)]?,
            machine: Machine::of_domains(alloc, domains)?,
            link: 0,
        })
    }

    fn copy(&self) -> Result<State, AllocError> {
        Ok(State {
            next: self.next.clone()?,
            machine: self.machine.copy()?,
            link: self.link,
        })
    }

    // The next turn of a domain, and its number.
    fn next_turn(&self, turns: &[Vec<Turn>], domain: usize) -> Option<(Turn, u32)> {
        let at = *self.next.get(domain)?;
        let turn = turns.get(domain)?.get(at)?;
        Some((*turn, u32::try_from(at).ok()?))
    }

    // Makes the next turn of a domain, if it has one and the machine may answer it so.
    fn advance(
        &mut self,
        alloc: Global,
        turns: &[Vec<Turn>],
        domain: usize,
    ) -> Result<Option<Turn>, AllocError> {
        let Some((turn, serial)) = self.next_turn(turns, domain) else {
            return Ok(None);
        };
        let label = Label {
            domain: u32::from(turn.domain),
            serial,
        };
        if !make_turn(&mut self.machine, alloc, turn, label)? {
            return Ok(None);
        }
        if let Some(next) = self.next.get_mut(domain) {
            *next = next.saturating_add(1);
        }
        Ok(Some(turn))
    }

    // Whether all lines are made.
    fn is_over(&self, turns: &[Vec<Turn>]) -> bool {
        self.next
            .iter()
            .zip(turns.iter())
            .all(|(next, all)| *next == all.len())
    }

    fn key(&self, alloc: Global) -> Result<StateKey, AllocError> {
        let mut places = Vec::new(alloc);
        for place in self
            .machine
            .registers
            .iter()
            .chain(self.machine.slots.iter())
        {
            places.push(place.map(name_of))?;
        }
        let mut bindings = Vec::new(alloc);
        for (key, value) in &self.machine.bindings {
            if let Value::Int(value) = value {
                bindings.push((name_of(*key), *value))?;
            }
        }
        bindings.sort()?;
        Ok(StateKey {
            next: self.next.clone()?,
            places,
            bindings,
        })
    }
}

// A search: a stack of states that are to be looked at, and those that were seen.
#[derive(Drop)]
struct Search {
    alloc: Global,
    turns: Vec<Vec<Turn>>,
    stack: Vec<State>,
    seen: BTreeSet<StateKey>,
    links: Vec<Link>,
}

impl Search {
    fn begin(alloc: Global, turns: Vec<Vec<Turn>>, domains: u8) -> Result<Search, AllocError> {
        let mut search = Search {
            alloc,
            turns,
            stack: Vec::new(alloc),
            seen: BTreeSet::new(alloc),
            links: Vec::new(alloc),
        };
        search.links.push(Link {
            before: 0,
            turn: None,
        })?;
        search.stack.push(State::opening(alloc, domains)?)?;
        Ok(search)
    }

    // Puts the state behind the next turn of a domain on the stack, if there is one that wasn't seen.
    fn push_next(&mut self, state: &State, domain: usize) -> Result<(), AllocError> {
        let mut next = state.copy()?;
        let Some(turn) = next.advance(self.alloc, &self.turns, domain)? else {
            return Ok(());
        };
        if self.seen.insert(next.key(self.alloc)?)? {
            next.link = self.links.len();
            self.links.push(Link {
                before: state.link,
                turn: Some(turn),
            })?;
            self.stack.push(next)?;
        }
        Ok(())
    }

    // The turns of the way to a link.
    fn way(&self, link: usize) -> Result<Vec<Turn>, AllocError> {
        let mut way = Vec::new(self.alloc);
        let mut at = link;
        for _ in 0..self.links.len() {
            let Some(
                Link {
                    before,
                    turn: Some(turn),
                },
            ) = self.links.get(at).copied()
            else {
                break;
            };
            way.push(turn)?;
            at = before;
        }
        way.reverse();
        Ok(way)
    }

    // Looks at so many states at most.
    fn run(&mut self, states: u64) -> Result<Found, AllocError> {
        for _ in 0..states {
            let Some(state) = self.stack.pop() else {
                return Ok(Found::Nothing);
            };
            if state.is_over(&self.turns) {
                return Ok(Found::Turns(self.way(state.link)?));
            }
            for domain in (0..self.turns.len()).rev() {
                self.push_next(&state, domain)?;
            }
        }
        Ok(Found::More)
    }
}

/// Looks for turns that make these sections and are answered as an output tells.
pub(crate) fn find_turns(
    alloc: Global,
    sections: &[Vec<TableLine>],
    output: &[u8],
    states: u64,
) -> Result<Found, AllocError> {
    let Ok(domains) = u8::try_from(sections.len()) else {
        return Ok(Found::Nothing);
    };
    let Some(told) = read_told(alloc, output, sections.len())? else {
        return Ok(Found::Nothing);
    };
    match all_turns(alloc, sections, &told)? {
        Some(turns) => Search::begin(alloc, turns, domains)?.run(states),
        None => Ok(Found::Nothing),
    }
}
