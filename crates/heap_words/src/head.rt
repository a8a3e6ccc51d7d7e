//! The head word of a block.
ghost use Rattle.std.specs.Prelude.{◌≡◌, ◌%◌, MatchOption};
ghost use Rattle.heap_words.specs.Heads.{IsPackableHead, head_word};
ghost use Rattle.heap_words.specs.Marks.{AreMarksOf, HasNoMarks};
ghost use Rattle.heap_words.specs.Unpacked.{IsWordOf, ReadsAs, Unpacks};

/// What the first word of a block says.
///
/// A header holds the size, the tag and the colour, as in OCaml. A young block that was promoted
/// has the address of its copy there ("Retrofitting Parallelism onto OCaml", section 3.4).
#[derive(Clone, Copy, Debug, PartialEq, Eq)]
pub enum Head {
    /// No block.
    Free,
    /// A plain block of `size` fields, 1 to 1022. The colour is 0 to 2.
    Plain {
        size: u16,
        tag: u8,
        colour: u8,
        scanned: bool,
    },
    /// An ephemeron of 1 to 8 keys. The colour is 0 to 2.
    Ephe {
        keys: u16,
        colour: u8,
        scanned: bool,
    },
    /// A block whose copy is at this address, at least 1.
    Forward(u32),
}

const FREE: u64 = 0;

const PLAIN: u64 = 1;

const EPHEMERON: u64 = 2;

const FORWARD: u64 = 3;

/// The word of a head: the kind in bits 0 to 2, the colour in bits 3 and 4, the scanned mark in
/// bit 5, the tag in bits 8 to 15, the size in bits 16 to 31, the address in bits 32 to 63.
pub fn pack_head(head: Head) -> u64
    requires { IsPackableHead head }
    ensures { result ≡ head_word head }
{
    match head {
        Head::Free => FREE,
        Head::Plain {
            size,
            tag,
            colour,
            scanned,
        } => {
            PLAIN
                + 8 * u64::from(colour)
                + 32 * u64::from(scanned)
                + 256 * u64::from(tag)
                + 65536 * u64::from(size)
        }
        Head::Ephe {
            keys,
            colour,
            scanned,
        } => EPHEMERON + 8 * u64::from(colour) + 32 * u64::from(scanned) + 65536 * u64::from(keys),
        Head::Forward(address) => FORWARD + (u64::from(address) << 32),
    }
}

/// The head whose word this is. `None` exactly where no head packs to it.
#[inline(always)]
pub fn unpack_head(word: u64) -> Option<Head>
    ensures { Unpacks IsPackableHead head_word word result }
{
    match word % 8 {
        FREE if word == 0 => Some(Head::Free),
        PLAIN => unpack_plain(word),
        EPHEMERON => unpack_ephemeron(word),
        FORWARD => unpack_forward(word),
        _ => None,
    }
}

/// The head whose word this is, where one has it: of a word that is known to be a head's nothing is
/// tested but its kind.
#[inline(always)]
pub fn read_head(word: u64) -> Head
    requires known { IsWordOf IsPackableHead head_word word }
    ensures reads { ReadsAs IsPackableHead head_word word result }
{
    match word % 8 {
        PLAIN => Head::Plain {
            size: (word / 65536 % 65536) as u16,
            tag: (word / 256 % 256) as u8,
            colour: (word / 8 % 4) as u8,
            scanned: word / 32 % 2 == 1,
        },
        EPHEMERON => Head::Ephe {
            keys: (word / 65536 % 65536) as u16,
            colour: (word / 8 % 4) as u8,
            scanned: word / 32 % 2 == 1,
        },
        FORWARD => Head::Forward((word >> 32) as u32),
        _ => Head::Free,
    }
}

// The parts that a plain block and an ephemeron have in common.
#[derive(Drop)]
struct Marks {
    colour: u8,
    scanned: bool,
    tag: u8,
    size: u16,
}

// The parts of a word whose unnamed bits are 0 and whose colour is a colour.
fn marks_in(word: u64) -> Option<Marks>
    ensures { MatchOption result (HasNoMarks word) (AreMarksOf word) }
{
    let marks = Marks {
        colour: (word / 8 % 4) as u8,
        scanned: word / 32 % 2 == 1,
        tag: (word / 256 % 256) as u8,
        size: (word / 65536 % 65536) as u16,
    };
    if word / 64 % 4 == 0 && word < 1 << 32 && marks.colour < 3 {
        Some(marks)
    } else {
        None
    }
}

// The plain block in a word of that kind.
fn unpack_plain(word: u64) -> Option<Head>
    requires { word % 8 ≡ 1 }
    ensures { Unpacks IsPackableHead head_word word result }
{
    let Some(marks) = marks_in(word) else {
        return None;
    };
    if marks.size == 0 || marks.size > 1022 {
        return None;
    }
    Some(Head::Plain {
        size: marks.size,
        tag: marks.tag,
        colour: marks.colour,
        scanned: marks.scanned,
    })
}

// The ephemeron in a word of that kind.
fn unpack_ephemeron(word: u64) -> Option<Head>
    requires { word % 8 ≡ 2 }
    ensures { Unpacks IsPackableHead head_word word result }
{
    let Some(marks) = marks_in(word) else {
        return None;
    };
    if marks.tag != 0 || marks.size == 0 || marks.size > 8 {
        return None;
    }
    Some(Head::Ephe {
        keys: marks.size,
        colour: marks.colour,
        scanned: marks.scanned,
    })
}

// The forwarding address in a word of that kind.
fn unpack_forward(word: u64) -> Option<Head>
    requires { word % 8 ≡ 3 }
    ensures { Unpacks IsPackableHead head_word word result }
{
    let address = (word >> 32) as u32;
    if word % (1 << 32) == FORWARD && address > 0 {
        Some(Head::Forward(address))
    } else {
        None
    }
}
