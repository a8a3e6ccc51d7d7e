//! Commands and replies as C has them.
ghost use Rattle.std.specs.Prelude.{◌≡◌, pos};
ghost use Rattle.camlheap_c.specs.Forms.{command_as, plain as plain_form, reply_form, stats_form};

use model_core::command::Command;
use model_core::label::Label;
use model_core::reply::Reply;
use run_turns::singly::Stats;

/// How large a heap is.
#[repr(C)]
#[derive(Clone, Copy)]
pub struct CamlheapConfig {
    pub domains: u32,
    pub minor_words: u32,
    pub pools: u32,
    pub finals: u32,
    pub ephes: u32,
}

/// A command: what it is, its registers, its tag, its index or count, the number of a finaliser, and its integer.
#[repr(C)]
#[derive(Clone, Copy)]
pub struct CamlheapCommand {
    pub op: u8,
    pub dst: u8,
    pub a: u8,
    pub b: u8,
    pub tag: u8,
    pub n: u16,
    pub number: u32,
    pub value: i64,
}

/// A reply: what it is, and its numbers; those that its kind doesn't have are 0.
#[repr(C)]
#[derive(Clone, Copy)]
pub struct CamlheapReply {
    pub kind: u32,
    /// The label of a block: the domain that made it, and which of its blocks it is.
    pub domain: u32,
    pub serial: u32,
    /// The number of a finaliser.
    pub number: u32,
    /// An integer.
    pub value: i64,
    /// How many blocks live, and with how many words.
    pub blocks: u64,
    pub words: u64,
}

/// What a domain counts: labels that it has given out, words of its minor area that its young blocks take, fields that it
/// remembers, ephemerons, registrations of both kinds that don't wait yet, finalisers that wait, and how often it has
/// arrived at the barrier.
#[repr(C)]
#[derive(Clone, Copy)]
pub struct CamlheapStats {
    pub labels: u32,
    pub young_words: u32,
    pub remembered: usize,
    pub ephemerons: usize,
    pub finals: usize,
    pub lasts: usize,
    pub waiting: usize,
    pub arrivals: u64,
}

// What C reads of these counts.
pub(crate) fn stats_as_c(stats: Stats) -> CamlheapStats
    ensures { result ≡ stats_form stats }
{
    let Stats {
        labels,
        young_words,
        remembered,
        ephemerons,
        finals,
        lasts,
        waiting,
        arrivals,
    } = stats;
    CamlheapStats {
        labels,
        young_words,
        remembered,
        ephemerons,
        finals,
        lasts,
        waiting,
        arrivals,
    }
}

// The command that C's stands for.
pub(crate) fn command_of(c: &CamlheapCommand) -> Option<Command>
    ensures { result ≡ command_as c.now }
{
    let CamlheapCommand {
        op,
        dst,
        a,
        b,
        tag,
        n,
        number,
        value,
    } = *c;
    let command = match op {
        0 => Command::PutInt { dst, value },
        1 => Command::Copy { dst, src: a },
        2 => Command::Forget { dst },
        3 => Command::Alloc {
            dst,
            tag,
            fields: n,
        },
        4 => Command::AllocMaj {
            dst,
            tag,
            fields: n,
        },
        5 => Command::Raw {
            dst,
            tag,
            fields: n,
        },
        6 => Command::Load {
            dst,
            src: a,
            index: n,
        },
        7 => Command::Store {
            block: a,
            index: n,
            item: b,
        },
        8 => Command::Cas {
            block: a,
            index: n,
            expected: dst,
            item: b,
        },
        9 => Command::Ephe { dst, keys: n },
        10 => Command::SetKey {
            ephe: a,
            index: n,
            item: b,
        },
        11 => Command::UnsetKey { ephe: a, index: n },
        12 => Command::GetKey {
            dst,
            ephe: a,
            index: n,
        },
        13 => Command::CheckKey { ephe: a, index: n },
        14 => Command::SetData { ephe: a, item: b },
        15 => Command::UnsetData { ephe: a },
        16 => Command::GetData { dst, ephe: a },
        17 => Command::CheckData { ephe: a },
        18 => Command::Poll,
        19 => Command::Minor,
        20 => Command::Major,
        21 => Command::FullMajor,
        22 => Command::Finalise {
            item: a,
            number,
            dst,
        },
        23 => Command::FinaliseLast { item: a, number },
        _ => return None,
    };
    Some(command)
}

// A reply of this kind, with no number.
#[inline(always)]
fn plain(kind: u32) -> CamlheapReply
    ensures { result ≡ plain_form kind }
{
    CamlheapReply {
        kind,
        domain: 0,
        serial: 0,
        number: 0,
        value: 0,
        blocks: 0,
        words: 0,
    }
}

// What C reads of a reply.
#[inline(always)]
pub(crate) fn reply_of(reply: Reply) -> CamlheapReply
    ensures { result ≡ reply_form reply }
{
    match reply {
        Reply::Done => plain(0),
        Reply::Int(value) => CamlheapReply { value, ..plain(1) },
        Reply::Block(Label { domain, serial }) => CamlheapReply {
            domain,
            serial,
            ..plain(2)
        },
        Reply::BadType => plain(3),
        Reply::BadIndex => plain(4),
        Reply::Empty => plain(5),
        Reply::Yes => plain(6),
        Reply::No => plain(7),
        Reply::Full => plain(8),
        Reply::Live { blocks, words } => CamlheapReply {
            blocks,
            words,
            ..plain(9)
        },
        Reply::Fin {
            number,
            label: Label { domain, serial },
        } => CamlheapReply {
            number,
            domain,
            serial,
            ..plain(10)
        },
        Reply::Last { number } => CamlheapReply {
            number,
            ..plain(11)
        },
    }
}
