//! The whole picture.
ghost use Rattle.std.specs.Prelude.{◌≡◌, ◌++◌, IfOk, OnOk, flat_map, string_bytes};
ghost use Rattle.heap_picture.specs.Fates.{fate_of, reached_in};
ghost use Rattle.heap_picture.specs.Text.{domain_text, state_text, picture_text};

use crate::blocks::{hides_shared, push_blocks};
use crate::fates::Fates;
use crate::registers::{push_finals, push_lasts, push_queue, push_registers};
use crate::text::push_text;
use judge_plain::SlowHeap;
use model_core::sequence::Sequence;
use model_core::state::{DomainState, State};
use std::alloc::{AllocError, Global};

const HEAD: &str =
    "digraph heap {\n  rankdir=LR;\n  node [shape=record, style=filled, fillcolor=white, fontname=Helvetica, fontsize=11];\n";

// Adds what a domain has.
#[tactic(auto, unfolding(crate::specs::Text::domain_text))]
fn push_domain(
    out: &mut String,
    hides: bool,
    fates: &Fates,
    domain: &DomainState,
) -> Result<(), AllocError>
    ensures { OnOk result (string_bytes out.new ≡ string_bytes out.old ++ domain_text hides (fate_of fates.now) domain.now) }
{
    push_registers(out, hides, &domain.registers)?;
    push_queue(out, &domain.queue)?;
    push_finals(out, fates, &domain.finals)?;
    push_lasts(out, fates, &domain.lasts)
}

// Adds what all domains have.
fn push_domains(
    out: &mut String,
    hides: bool,
    fates: &Fates,
    domains: &Sequence<DomainState>,
) -> Result<(), AllocError>
    ensures { OnOk result (string_bytes out.new ≡ string_bytes out.old ++ flat_map (domain_text hides (fate_of fates.now)) domains.now) }
{
    for domain in &domains.items {
        push_domain(out, hides, fates, domain)?;
    }
    Ok(())
}

// Adds a picture.
fn push_picture(out: &mut String, fates: &Fates, state: &State) -> Result<(), AllocError>
    ensures { OnOk result (string_bytes out.new ≡ string_bytes out.old ++ state_text (fate_of fates.now) state.now) }
{
    push_text(out, HEAD)?;
    push_domains(out, hides_shared(&state.graph), fates, &state.domains)?;
    push_blocks(out, fates, &state.graph)?;
    push_text(out, "}\n")
}

/// The picture of a heap's present state, as Graphviz text. The heap is one of one domain: those of several would
/// share the names of their nodes.
pub(crate) fn picture(alloc: Global, heap: &SlowHeap) -> Result<String, AllocError>
    ensures { IfOk result (λ t. string_bytes t ≡ picture_text heap.now) }
{
    let fates = Fates::of(heap)?;
    let mut out = String::new(alloc);
    push_picture(&mut out, &fates, heap.state())?;
    Ok(out)
}
