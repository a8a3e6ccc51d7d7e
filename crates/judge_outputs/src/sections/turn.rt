//! Turns of domains.
ghost use Rattle.std.specs.Prelude.{◌≡◌, ◌+◌, ◌*◌, IfSome};
ghost use Rattle.judge_outputs.specs.Sections.Machine.{placed};

use table_text::TableLine;
use table_text::machine::LineReply;

/// A line that a domain makes, and what it is answered.
#[derive(Clone, Copy, Debug, PartialEq, Eq)]
pub struct Turn {
    pub domain: u8,
    pub line: TableLine,
    pub reply: LineReply,
}

// The register of a domain among those of all, as far as there are so many.
fn place_of(domain: u8, reg: u8) -> Option<u8>
    ensures { IfSome result (λ place. place ≡ 5 * domain + reg) }
{
    u8::try_from(5 * u32::from(domain) + u32::from(reg)).ok()
}

/// The line of a domain, as the machine of all has its registers, as far as there are so many.
pub(crate) fn placed(domain: u8, line: TableLine) -> Option<TableLine>
    ensures { IfSome result (λ l. l ≡ placed domain line) }
{
    Some(match line {
        TableLine::Key { reg } => TableLine::Key {
            reg: place_of(domain, reg)?,
        },
        TableLine::Forget { reg } => TableLine::Forget {
            reg: place_of(domain, reg)?,
        },
        TableLine::Put { reg, value } => TableLine::Put {
            reg: place_of(domain, reg)?,
            value,
        },
        TableLine::Get { reg } => TableLine::Get {
            reg: place_of(domain, reg)?,
        },
        TableLine::Del { reg } => TableLine::Del {
            reg: place_of(domain, reg)?,
        },
        TableLine::SetWeak { slot, reg } => TableLine::SetWeak {
            slot,
            reg: place_of(domain, reg)?,
        },
        TableLine::GetWeak { dst, slot } => TableLine::GetWeak {
            dst: place_of(domain, dst)?,
            slot,
        },
        TableLine::Count => TableLine::Count,
        TableLine::FullMajor => TableLine::FullMajor,
    })
}
