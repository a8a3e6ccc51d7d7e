//! From the bytes of a script to the text of its picture.
ghost use Rattle.std.specs.Prelude.{◌≡◌, ◌<◌, [], length, slice_index_or, IfOk, IfErr, string_bytes};
ghost use Rattle.text_script.specs.declared.version.Version.TheVariants.{Three};
ghost use Rattle.text_script.specs.Faults.{first_fault};
ghost use Rattle.heap_picture.specs.Plays.{IsPictureOf, IsDrawn, IsFaultOf};
ghost use Rattle.heap_picture.specs.Sections.{made_of};

use crate::fault::PictureFault;
use crate::picture::picture;
use crate::play::play;
use crate::sections::commands_of;
use judge_plain::SlowHeap;
use model_core::command::Command;
use model_core::reply::ApplyFault;
use std::alloc::Global;
use text_script::{Script, Version, read_script};

// The picture of what a script leaves.
fn draw_script(alloc: Global, script: &Script) -> Result<String, ApplyFault>
    requires { 0 < length script.now.sections }
    ensures { IfOk result (λ t. IsDrawn (made_of script.now.version (slice_index_or script.now.sections 0 [])) (string_bytes t)) }
{
    let commands = commands_of(alloc, script)?;
    draw_commands(alloc, commands.as_slice())
}

// The picture of what commands leave.
fn draw_commands(alloc: Global, commands: &[Command]) -> Result<String, ApplyFault>
    ensures { IfOk result (λ t. IsDrawn commands.now (string_bytes t)) }
{
    let mut heap = SlowHeap::make(alloc, 1, 512, 32768, 6)?;
    play(alloc, &mut heap, commands)?;
    Ok(picture(alloc, &heap)?)
}

/// The picture of what a script of one domain leaves, on a heap with the sizes that `camlheap run` has without options.
pub(crate) fn draw(alloc: Global, bytes: &[u8]) -> Result<String, PictureFault>
    ensures picture { IfOk result (λ t. IsPictureOf bytes.now (string_bytes t)) }
    ensures fault { IfErr result (IsFaultOf (first_fault Three 1 bytes.now)) }
{
    match read_script(alloc, Version::Three, 1, bytes) {
        Ok(script) => match draw_script(alloc, &script) {
            Ok(text) => Ok(text),
            Err(fault) => Err(PictureFault::Play(fault)),
        },
        Err(fault) => Err(PictureFault::Script(fault)),
    }
}
