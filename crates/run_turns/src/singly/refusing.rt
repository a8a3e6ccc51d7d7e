//! Why a run can't be given a command.
ghost use Rattle.std.specs.Prelude.{◌≡◌, ◌↔◌, cond, true, None};
ghost use Rattle.model_core.specs.Counts.Counts.{ephemerons_of, labels_of};
ghost use Rattle.run_turns.specs.Tries.{FitsHeap, registrations_of};
ghost use Rattle.run_turns.specs.Singly.Refusing.{IsRefused, Takes};

use model_core::command::Command;

/// Why a command isn't taken: the first of these that holds.
#[derive(Clone, Copy, Debug, PartialEq, Eq)]
pub enum Refusal {
    /// It isn't one that runs on the shared heap, or one of its numbers is outside its range.
    Shape,
    /// There is no room for the ephemeron that it makes.
    NoEphemeron,
    /// There is no room for the finaliser that it registers.
    NoFinaliser,
    /// No label is left for the block that it allocates.
    NoLabel,
}

// The least and the greatest integer of 63 bits.
const LEAST: i64 = -(1 << 62);

const MOST: i64 = (1 << 62) - 1;

/// Whether a command is one that runs on the shared heap, with its numbers in their ranges.
#[inline(always)]
pub fn fits(command: &Command) -> bool
    ensures { (result ≡ true) ↔ FitsHeap command.now }
{
    match *command {
        Command::PutInt { dst, value } => dst < 16 && LEAST <= value && value <= MOST,
        Command::Copy { dst, src } | Command::Load { dst, src, .. } => dst < 16 && src < 16,
        Command::Forget { dst } => dst < 16,
        Command::Alloc { dst, tag, fields } | Command::AllocMaj { dst, tag, fields } => dst < 16
            && tag <= 245
            && 1 <= fields
            && fields <= 1022,
        Command::Raw { dst, tag, fields } => dst < 16
            && 251 <= tag
            && 1 <= fields
            && fields <= 1022,
        Command::Store { block, item, .. } => block < 16 && item < 16,
        Command::Cas {
            block,
            expected,
            item,
            ..
        } => block < 16 && expected < 16 && item < 16,
        Command::Ephe { dst, keys } => dst < 16 && 1 <= keys && keys <= 8,
        Command::SetKey { ephe, item, .. } | Command::SetData { ephe, item } => ephe < 16
            && item < 16,
        Command::UnsetKey { ephe, .. }
        | Command::CheckKey { ephe, .. }
        | Command::UnsetData { ephe }
        | Command::CheckData { ephe } => ephe < 16,
        Command::GetKey { dst, ephe, .. } | Command::GetData { dst, ephe } => dst < 16 && ephe < 16,
        Command::Finalise { item, dst, .. } => item < 16 && dst < 16,
        Command::FinaliseLast { item, .. } => item < 16,
        Command::Poll | Command::Minor | Command::Major | Command::FullMajor => true,
        Command::Spawn { .. }
        | Command::Argument { .. }
        | Command::PutResult { .. }
        | Command::Join { .. } => false,
    }
}

// Whether a command makes an ephemeron.
#[inline(always)]
fn makes_ephemeron(command: &Command) -> bool
    ensures { ephemerons_of command.now ≡ cond result 1 0 }
{
    matches!(command, Command::Ephe { .. })
}

// Whether it registers a finaliser.
#[inline(always)]
fn registers(command: &Command) -> bool
    ensures { registrations_of command.now ≡ cond result 1 0 }
{
    matches!(
        command,
        Command::Finalise { .. } | Command::FinaliseLast { .. }
    )
}

// Whether it allocates a block.
#[inline(always)]
fn allocates(command: &Command) -> bool
    ensures { labels_of command.now ≡ cond result 1 0 }
{
    matches!(
        command,
        Command::Alloc { .. }
            | Command::AllocMaj { .. }
            | Command::Raw { .. }
            | Command::Ephe { .. }
    )
}

/// Why a command isn't taken where there are room for so many ephemerons and finalisers and so many labels. None
/// exactly where it is.
#[inline(always)]
pub fn refuses(command: &Command, ephes: usize, finals: usize, labels: u32) -> Option<Refusal>
    ensures none { (result ≡ None) ↔ Takes ephes finals labels command.now }
    ensures why { IsRefused ephes finals labels command.now result }
{
    if !fits(command) {
        return Some(Refusal::Shape);
    }
    if makes_ephemeron(command) && ephes == 0 {
        return Some(Refusal::NoEphemeron);
    }
    if registers(command) && finals == 0 {
        return Some(Refusal::NoFinaliser);
    }
    if allocates(command) && labels == 0 {
        return Some(Refusal::NoLabel);
    }
    None
}
