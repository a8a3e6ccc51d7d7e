//! What the word of a head says of its block's marks.
ghost use Rattle.std.specs.Prelude.{◌≡◌, ◌⊎◌, nat_le, cond, MatchOption};
ghost use Rattle.heap_words.specs.ColourWords.{IsPermutation};
ghost use Rattle.step_marks.specs.Marking.Marking.{IsGrey, IsMarked, IsUnmarked};
ghost use Rattle.do_fields.specs.Darkening.Heads.{IsDarkened, IsScanOf};

use heap_words::{Colours, Head, pack_head, read_head, unpack_head};

// The least tag of a raw block.
const FIRST_RAW: u8 = 251;

/// The head by which an unmarked block is marked, and scanned at once where it is a raw one, whose
/// fields refer to nothing. The word is the head of an unmarked block or of a marked one: `None` where
/// it is that of a marked one.
pub fn darkened_head(word: u64, colours: Colours) -> Option<u64>
    requires meanings { IsPermutation colours }
    requires block { IsUnmarked colours word ⊎ IsMarked colours word }
    ensures darkened { MatchOption result (IsUnmarked colours word → ⊥) (IsDarkened colours word) }
{
    let marked = colours.marked;
    match read_head(word) {
        Head::Plain {
            size,
            tag,
            colour,
            ..
        } if colour == colours.unmarked => Some(pack_head(Head::Plain {
            size,
            tag,
            colour: marked,
            scanned: FIRST_RAW <= tag,
        })),
        Head::Ephe { keys, colour, .. } if colour == colours.unmarked => {
            Some(pack_head(Head::Ephe {
                keys,
                colour: marked,
                scanned: false,
            }))
        }
        _ => None,
    }
}

/// How many fields of a grey block are to be scanned, and the head by which it is marked and scanned.
#[derive(Clone, Copy)]
pub struct ToScan {
    pub fields: u32,
    pub scanned: u64,
}

// How many fields of a block with fields are to be scanned: those of a plain one.
fn fields_to_scan(size: u16, tag: u8) -> u32
    ensures { result ≡ cond (nat_le 251 tag) 0 size }
{
    if FIRST_RAW <= tag { 0 } else { u32::from(size) }
}

/// What is to be done for a grey block: one that is marked and not scanned. `None` where the word isn't
/// the head of one.
pub fn scan_of(word: u64, colours: Colours) -> Option<ToScan>
    requires { IsPermutation colours }
    ensures { MatchOption result (IsGrey colours word → ⊥) (λ s. IsScanOf colours word s.fields s.scanned) }
{
    // A walk through a pool looks at many scanned blocks.
    if word / 32 % 2 == 1 {
        return None;
    }
    let marked = colours.marked;
    match unpack_head(word) {
        Some(
            Head::Plain {
                size,
                tag,
                colour,
                scanned: false,
            },
        ) if colour == marked => Some(ToScan {
            fields: fields_to_scan(size, tag),
            scanned: pack_head(Head::Plain {
                size,
                tag,
                colour,
                scanned: true,
            }),
        }),
        Some(
            Head::Ephe {
                keys,
                colour,
                scanned: false,
            },
        ) if colour == marked => Some(ToScan {
            fields: 0,
            scanned: pack_head(Head::Ephe {
                keys,
                colour,
                scanned: true,
            }),
        }),
        _ => None,
    }
}
