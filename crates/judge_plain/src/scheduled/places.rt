//! The places at which a complete collection finds something to take.
ghost use Rattle.std.specs.Prelude.{◌≡◌, ◌++◌, ◌∷◌, [], ◌&&◌, ◌<◌, not, cond, length, IfOk, OnOk, map};
ghost use Rattle.std.specs.List.{list_all};
ghost use Rattle.model_core.specs.Graph.{has_label, node_at};
ghost use Rattle.model_core.specs.Entries.{ephe_holds, is_some_and};
ghost use Rattle.model_traces.specs.Schedules.Scheduled.{places_where};

use crate::looks::{is_dead_at, is_gone_at, is_gone_key};
use model_core::graph::Node;
use model_core::label::Label;
use model_core::sequence::Sequence;
use model_core::state::{Finaliser, LastFinaliser};
use std::alloc::{AllocError, Global};

// Adds a place that passes a test.
fn push_place(places: &mut Vec<u32>, place: usize, passes: bool) -> Result<(), AllocError>
    ensures { OnOk result (places.new.items ≡ places.old.items ++ cond passes (place ∷ []) []) }
{
    if passes {
        // A list with more elements than 32 bits count would fill more than all memory.
        let place = u32::try_from(place).map_err(|_| AllocError)?;
        places.push(place)?;
    }
    Ok(())
}

// The places of the registrations of `finalise` whose values are not among these.
#[tactic(auto, using(crate::proofs::OfScheduled::ListLemmas::filter_more))]
pub(crate) fn dead_places(
    alloc: Global,
    finals: &Sequence<Finaliser>,
    live: &Vec<Label>,
) -> Result<Vec<u32>, AllocError>
    ensures { IfOk result (λ v. v.items ≡ places_where (λ f. not (has_label live.now.items f.label)) finals.now) }
{
    let mut places = Vec::new(alloc);
    'places: for place in 0..finals.items.len() {
        push_place(&mut places, place, is_dead_at(finals, place, live))?;
    }
    Ok(places)
}

// The places of the full keys that are not among these.
#[tactic(auto, using(crate::proofs::OfScheduled::ListLemmas::filter_more))]
pub(crate) fn key_places(
    alloc: Global,
    keys: &Sequence<Option<Label>>,
    live: &Vec<Label>,
) -> Result<Vec<u32>, AllocError>
    ensures { IfOk result (λ v. v.items ≡ places_where (is_some_and (λ l. not (has_label live.now.items l))) keys.now) }
{
    let mut places = Vec::new(alloc);
    'places: for place in 0..keys.items.len() {
        push_place(&mut places, place, is_gone_key(keys, place, live))?;
    }
    Ok(places)
}

// The places of the registrations of `finalise_last` whose values are not among these, and which no ephemeron of these has.
#[tactic(auto, using(crate::proofs::OfScheduled::ListLemmas::filter_more))]
pub(crate) fn gone_places(
    alloc: Global,
    graph: &Sequence<(Label, Node)>,
    lasts: &Sequence<LastFinaliser>,
    live: &Vec<Label>,
) -> Result<Vec<u32>, AllocError>
    ensures { IfOk result (λ v. v.items ≡ places_where (λ f. not (has_label live.now.items f.label) && list_all (λ x. not (ephe_holds f.label (node_at graph.now x))) live.now.items) lasts.now) }
{
    let mut places = Vec::new(alloc);
    'places: for place in 0..lasts.items.len() {
        push_place(&mut places, place, is_gone_at(graph, lasts, place, live))?;
    }
    Ok(places)
}
