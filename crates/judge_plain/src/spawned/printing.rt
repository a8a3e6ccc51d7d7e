//! Which replies are printed.
ghost use Rattle.std.specs.Prelude.{◌≡◌};
ghost use Rattle.model_traces.specs.Spawns.Printed.{is_hidden_store_printed as is_store_told, is_printed as is_told};

use model_core::command::Command;

// The least register that scripts don't name.
const SCRATCH: u8 = 14;

// The register of the hidden block.
const HIDDEN: u8 = 15;

// Whether the reply of a store into the hidden block is printed.
fn is_hidden_store_printed(d: u32, index: u16) -> bool
    ensures { result ≡ is_store_told d index }
{
    if index < 8 {
        u32::from(index) != d
    } else {
        index >= 16
    }
}

/// Whether the reply of a command of a domain is printed.
pub(crate) fn is_printed(d: u32, command: &Command) -> bool
    ensures { result ≡ is_told d command.now }
{
    match command {
        Command::PutInt { dst, .. } => *dst < SCRATCH,
        Command::Forget { dst } => *dst < SCRATCH,
        Command::AllocMaj { dst, .. } => *dst < SCRATCH,
        Command::Load { dst, .. } => *dst < SCRATCH,
        Command::Store { block, index, item } => {
            if *block == HIDDEN {
                is_hidden_store_printed(d, *index)
            } else {
                *item < SCRATCH
            }
        }
        _ => true,
    }
}
