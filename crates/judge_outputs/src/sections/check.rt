//! Whether turns explain an output.
ghost use Rattle.std.specs.Prelude.{◌≡◌, ◌<◌, IfOk, IsTrue, length, map, slice_get};
ghost use Rattle.judge_outputs.specs.Sections.Answer.{AreOf, MakesAll, SectionsExplain};
ghost use Rattle.judge_outputs.specs.Sections.Turns.{TurnsAnswered, lines_of, told_from};

use crate::sections::play::make_turn;
use crate::sections::told::{lines_of, told};
use crate::sections::turn::Turn;
use crate::texts::machine::{Machine, label_of};
use std::alloc::{AllocError, Global};
use table_text::TableLine;

// Whether each turn is one of so many domains.
fn are_of(domains: u8, turns: &[Turn]) -> bool
    ensures { IsTrue result → AreOf domains turns.now }
{
    for turn in turns {
        if turn.domain >= domains {
            return false;
        }
    }
    true
}

// Whether two lines are the same.
fn is_same(x: TableLine, y: TableLine) -> bool
    ensures { IsTrue result → x ≡ y }
{
    match (x, y) {
        (TableLine::Key { reg: a }, TableLine::Key { reg: b }) => a == b,
        (TableLine::Forget { reg: a }, TableLine::Forget { reg: b }) => a == b,
        (TableLine::Put { reg: a, value: v }, TableLine::Put { reg: b, value: w }) => {
            a == b && v == w
        }
        (TableLine::Get { reg: a }, TableLine::Get { reg: b }) => a == b,
        (TableLine::Del { reg: a }, TableLine::Del { reg: b }) => a == b,
        (TableLine::SetWeak { slot: i, reg: a }, TableLine::SetWeak { slot: j, reg: b }) => {
            i == j && a == b
        }
        (TableLine::GetWeak { dst: a, slot: i }, TableLine::GetWeak { dst: b, slot: j }) => {
            a == b && i == j
        }
        (TableLine::Count, TableLine::Count) => true,
        (TableLine::FullMajor, TableLine::FullMajor) => true,
        _ => false,
    }
}

// Whether lines are the same.
#[tactic(auto, using(crate::proofs::OfSections::TurnLemmas::same_whole))]
fn are_same(xs: &[TableLine], ys: &[TableLine]) -> bool
    ensures { IsTrue result → xs.now ≡ ys.now }
{
    if xs.len() != ys.len() {
        return false;
    }
    for i in 0..xs.len() {
        if !is_same(xs[i], ys[i]) {
            return false;
        }
    }
    true
}

// Whether a domain makes just these lines.
fn makes(alloc: Global, turns: &[Turn], domain: u8, lines: &[TableLine]) -> Result<bool, AllocError>
    ensures { IfOk result (λ yes. IsTrue yes → lines_of domain turns.now ≡ lines.now) }
{
    let made = lines_of(alloc, turns, domain)?;
    Ok(are_same(&made, lines))
}

// Whether each domain makes just its section.
fn make_all(
    alloc: Global,
    turns: &[Turn],
    domains: u8,
    sections: &[Vec<TableLine>],
) -> Result<bool, AllocError>
    requires { domains ≡ length sections.now }
    ensures { IfOk result (λ yes. IsTrue yes → MakesAll (map (λ v. v.items) sections.now) turns.now) }
{
    for domain in 0..domains {
        if !makes(alloc, turns, domain, &sections[usize::from(domain)])? {
            return Ok(false);
        }
    }
    Ok(true)
}

// The turn of a number, if there is one.
fn turn_at(turns: &[Turn], at: usize) -> Option<Turn>
    ensures { result ≡ slice_get turns.now at }
{
    turns.get(at).copied()
}

// Whether the machine of so many domains may answer these turns so. A key is named by the number of its turn.
fn are_answered(alloc: Global, turns: &[Turn], domains: u8) -> Result<bool, AllocError>
    ensures { IfOk result (λ yes. IsTrue yes → TurnsAnswered domains turns.now) }
{
    let mut machine = Machine::of_domains(alloc, domains)?;
    for i in 0..turns.len() {
        let (Some(turn), Ok(number)) = (turn_at(turns, i), u32::try_from(i)) else {
            return Ok(false);
        };
        if !make_turn(&mut machine, alloc, turn, label_of(number))? {
            return Ok(false);
        }
    }
    Ok(true)
}

// Whether this is written for these turns of so many domains.
fn print(alloc: Global, turns: &[Turn], domains: u8, output: &[u8]) -> Result<bool, AllocError>
    ensures { IfOk result (λ yes. IsTrue yes → told_from 0 domains turns.now ≡ output.now) }
{
    let text = told(alloc, turns, domains)?;
    Ok(text.as_slice() == output)
}

/// Whether turns explain an output of these sections. `true` alone says something: keys go no sooner than an answer tells.
pub(crate) fn explain(
    alloc: Global,
    sections: &[Vec<TableLine>],
    output: &[u8],
    turns: &[Turn],
) -> Result<bool, AllocError>
    ensures { IfOk result (λ yes. IsTrue yes → SectionsExplain (map (λ v. v.items) sections.now) output.now turns.now) }
{
    let Ok(domains) = u8::try_from(sections.len()) else {
        return Ok(false);
    };
    Ok(
        are_of(domains, turns)
            && make_all(alloc, turns, domains, sections)?
            && are_answered(alloc, turns, domains)?
            && print(alloc, turns, domains, output)?,
    )
}
