//! The turns and collections of a schedule.
ghost use Rattle.std.specs.Prelude.{◌≡◌, ◌+◌, IfOk, OnOk, fold, length, map, max};
ghost use Rattle.std.specs.List.{list_all};
ghost use Rattle.model_core.specs.Domains.{IsWithinLimits};
ghost use Rattle.model_traces.specs.Schedules.Scheduled.{all_ended as ended_in, scheduled, take_item as item_taken, take_round as round_taken, take_rounds as rounds_taken, take_turn as turn_taken};
ghost use Rattle.model_traces.specs.Scheduled.Runs.{IsPlainScript};
ghost use Rattle.judge_plain.specs.Scheduled.UnderWay.{IsUnderWay};

use crate::scheduled::run::Run;
use model_core::entry::Entry;
use model_core::state::{Sizes, State};
use model_traces::schedules::Item;
use std::alloc::{AllocError, Global};
use text_script::Script;

// A domain that hasn't ended runs its queue, and makes its next command or its end.
#[tactic(auto, using(crate::proofs::OfScheduled::TurnLemmas::turn_past, crate::proofs::OfScheduled::TurnLemmas::turn_ended, crate::proofs::OfScheduled::TurnLemmas::turn_running, crate::proofs::OfScheduled::TurnLemmas::runs_legal, crate::proofs::OfScheduled::TurnLemmas::next_legal, crate::proofs::OfScheduled::TurnLemmas::inside))]
fn take_turn(alloc: Global, run: &mut Run, domain: u32) -> Result<(), AllocError>
    requires { IsUnderWay run.old }
    ensures { OnOk result (run.new ≡ turn_taken run.old domain) }
{
    let domains = &run.state().domains;
    let Some(part) = domains.items.get(domain as usize) else {
        return Ok(());
    };
    if part.ended {
        return Ok(());
    }
    let queue = &part.queue;
    let count = queue.items.len();
    run.run_finalisers(alloc, domain, count)?;
    run.make_next(alloc, domain)
}

// Whether all traces have ended.
fn all_ended(state: &State) -> bool
    ensures { result ≡ ended_in state.now }
{
    let domains = &state.domains;
    domains.items.iter().all(|domain| domain.ended)
}

// An item: a turn, or a complete collection if not all have ended.
#[tactic(auto, using(crate::proofs::OfScheduled::TurnLemmas::collect_legal))]
fn take_item(alloc: Global, run: &mut Run, item: Item) -> Result<(), AllocError>
    requires { IsUnderWay run.old }
    ensures { OnOk result (run.new ≡ item_taken run.old item) }
{
    match item {
        Item::Turn(domain) => take_turn(alloc, run, domain),
        Item::Collect => {
            if all_ended(run.state()) {
                Ok(())
            } else {
                run.collect(alloc, Vec::new(alloc))
            }
        }
    }
}

// The items of a schedule.
#[tactic(auto, using(crate::proofs::OfScheduled::TurnLemmas::item_way, crate::proofs::OfScheduled::ListLemmas::fold_take))]
fn take_items(alloc: Global, run: &mut Run, items: &[Item]) -> Result<(), AllocError>
    requires { IsUnderWay run.old }
    ensures { OnOk result (run.new ≡ fold item_taken run.old items.now) }
{
    'items: for item in items {
        take_item(alloc, run, *item)?;
    }
    Ok(())
}

// A turn of each domain.
#[tactic(auto, using(crate::proofs::OfScheduled::TurnLemmas::turn_way, crate::proofs::OfScheduled::TurnLemmas::few_domains, crate::proofs::OfScheduled::ListLemmas::fold_more))]
fn take_round(alloc: Global, run: &mut Run) -> Result<(), AllocError>
    requires { IsUnderWay run.old }
    ensures { OnOk result (run.new ≡ round_taken run.old) }
{
    let domains = &run.state().domains;
    let count = domains.items.len() as u32;
    'domains: for domain in 0..count {
        take_turn(alloc, run, domain)?;
    }
    Ok(())
}

// So many rounds, and one more.
#[tactic(auto, using(crate::proofs::OfScheduled::TurnLemmas::round_way, crate::proofs::OfScheduled::ListLemmas::fold_more))]
fn take_rounds(alloc: Global, run: &mut Run, count: usize) -> Result<(), AllocError>
    requires { IsUnderWay run.old }
    ensures { OnOk result (run.new ≡ rounds_taken (count + 1) run.old) }
{
    'rounds: for _round in 0..count {
        take_round(alloc, run)?;
    }
    take_round(alloc, run)
}

// How many commands the longest section has.
fn longest(script: &Script) -> usize
    ensures { result ≡ fold max 0 (map length script.now.sections) }
{
    let mut most = 0;
    'sections: for d in 0..script.sections() {
        most = script.section(d).len().max(most);
    }
    most
}

/// The history of a script under a schedule, on a heap of these sizes: the items of the schedule are taken in order, and
/// then a turn of each domain again and again until all traces have ended.
///
/// `IsPlainScript`: no section spawns or joins. There may be no memory for it.
pub fn scheduled_history(
    alloc: Global,
    sizes: &Sizes,
    script: &Script,
    items: &[Item],
) -> Result<Vec<Entry>, AllocError>
    requires limits { IsWithinLimits sizes.now }
    requires sections { length script.now.sections ≡ sizes.now.domains }
    requires plain { IsPlainScript script.now.sections }
    ensures { IfOk result (λ v. v.items ≡ scheduled sizes.now script.now.sections items.now) }
{
    let mut run = Run::begin(alloc, sizes, script)?;
    take_items(alloc, &mut run, items)?;
    take_rounds(alloc, &mut run, longest(script))?;
    Ok(run.into_history())
}
