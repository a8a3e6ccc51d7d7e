//! The generator of scripts.
ghost use Rattle.std.specs.Prelude.{◌≡◌, ℕ, ◌≤◌, ◌<◌, ◌*◌, IfOk};
ghost use Rattle.text_script.specs.declared.version.Version.{Version as declared_version};
ghost use Rattle.text_script.specs.declared.version.Version.TheVariants.{One};
ghost use Rattle.text_script.specs.Generated.{chain_row, ephemeron_row, collection_row, command_at as command_of, section_of, generated};
ghost use Rattle.text_script.specs.Spelling.{spelling, Spells, IsWritten};

use crate::script::Script;
use crate::version::Version;
use model_core::command::Command;
use std::alloc::{AllocError, Global};

// Links the new block of a group to the block before. Each twentieth begins a chain.
fn chain_command(group: u32) -> Command
    ensures { result ≡ chain_row group }
{
    if group % 20 == 0 {
        Command::PutInt { dst: 3, value: 0 }
    } else {
        Command::Store {
            block: 1,
            index: 1,
            item: 3,
        }
    }
}

// The command of a group on ephemerons or finalisers.
fn ephemeron_command(group: u32) -> Command
    ensures { result ≡ ephemeron_row group }
{
    match group % 8 {
        0 => Command::Ephe { dst: 6, keys: 1 },
        1 => Command::SetKey {
            ephe: 6,
            index: 0,
            item: 1,
        },
        2 => Command::SetData { ephe: 6, item: 3 },
        3 => Command::FinaliseLast {
            item: 1,
            number: group,
        },
        4 => Command::CheckKey { ephe: 6, index: 0 },
        5 => Command::Finalise {
            item: 1,
            number: group,
            dst: 7,
        },
        6 => Command::CheckData { ephe: 6 },
        _ => Command::Poll,
    }
}

// The command that ends a group, now and then a collection.
fn collection_command(group: u32) -> Command
    ensures { result ≡ collection_row group }
{
    match group % 50 {
        24 => Command::Minor,
        49 => Command::FullMajor,
        _ => Command::Poll,
    }
}

// The command of a domain at a place, which is counted from 0. A group has ten.
fn command_at(base: u32, domain: u32, place: u32) -> Command
    requires base { base ≤ 1000000 }
    requires domain { domain < 8 }
    requires place { place < 200000 }
    ensures { result ≡ command_of base domain place }
{
    let group = place / 10;
    let own_field = domain as u16;
    match place % 10 {
        0 => Command::Alloc {
            dst: 1,
            tag: (group % 246) as u8,
            fields: (2 + (base + group) % 125) as u16,
        },
        1 => Command::PutInt {
            dst: 2,
            value: i64::from(base + 3 * group + domain),
        },
        2 => Command::Store {
            block: 1,
            index: 0,
            item: 2,
        },
        3 => chain_command(group),
        4 => Command::Copy { dst: 3, src: 1 },
        5 => Command::Store {
            block: 0,
            index: own_field,
            item: 1,
        },
        6 => Command::Load {
            dst: 4,
            src: 0,
            index: own_field,
        },
        7 => Command::Load {
            dst: 5,
            src: 4,
            index: 0,
        },
        8 => ephemeron_command(group),
        _ => collection_command(group),
    }
}

// The commands of a domain.
fn section(alloc: Global, base: u32, domain: u32, commands: u32) -> Result<Vec<Command>, AllocError>
    requires base { base ≤ 1000000 }
    requires domain { domain < 8 }
    requires commands { commands ≤ 200000 }
    ensures { IfOk result (λ v. v.items ≡ section_of base commands domain) }
{
    let mut section = Vec::with_capacity(alloc, commands as usize)?;
    for place in 0..commands {
        section.push(command_at(base, domain, place))?;
    }
    Ok(section)
}

/// A script of the first version with a section of `commands` commands for each of `domains` domains, which is the same
/// at each call with the same numbers.
///
/// `base` is at most 1,000,000, `domains` is from 1 to 8, and `domains * commands` is at most
/// 200,000, the limit of the format. `AllocError` is want of memory alone.
///
/// It is for tests and measurements: a script of any size, with allocations, chains of blocks,
/// ephemerons, finalisers and collections, whose integer loads are known beforehand. Domain `d` is
/// the only one that writes field `d` of the shared block, so where no allocation is answered
/// `full`, the integers that it loads are the same in every schedule: of `10 * n` commands there
/// are `n`, and their sum is `n * (base + d) + 3 * n * (n - 1) / 2`.
pub fn generate(alloc: Global, base: u32, domains: u32, commands: u32) -> Result<Script, AllocError>
    requires base { base ≤ 1000000 }
    requires domains { (1 ≤ domains) × (domains ≤ 8) }
    requires commands { domains * commands ≤ 200000 }
    // The script is the one of the tables.
    ensures script { IfOk result (λ s. s ≡ record { version = One; sections = generated base domains commands }) }
    // It is within the limits of the format.
    ensures written { IfOk result (λ s. IsWritten One domains s.sections) }
    // What it prints as is read as the same script.
    ensures spelled { (newest : declared_version) → IfOk result
        (λ s. Spells newest domains s (spelling One s.sections)) }
{
    let mut script = Script::new(alloc, Version::One);
    for domain in 0..domains {
        script.push_section(section(alloc, base, domain, commands)?)?;
    }
    Ok(script)
}
