//! Why no picture is drawn.
use model_core::reply::ApplyFault;
use text_script::ScriptFault;

/// Why no picture is drawn.
#[derive(Clone, Copy, Debug, PartialEq, Eq)]
pub(crate) enum PictureFault {
    /// The script has this fault first.
    Script(ScriptFault),
    /// The script couldn't be played.
    Play(ApplyFault),
}
