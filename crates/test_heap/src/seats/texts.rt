//! The script whose sections the eight threads play.
//!
//! Each section has two halves. In the first each domain asks for complete collections, and all of these count the same,
//! at whatever moments they come. In the second blocks get finalisers that give them back. A domain begins it, or ends,
//! once it finds that all others are through with the first. So a search for a history has few wrong ways to go.
use std::alloc::{AllocError, Global};
use text_script::{Script, ScriptFault, Version, read_script};

/// How many domains there are.
pub(crate) const DOMAINS: u32 = 8;

/// How many finalisers give their blocks back.
pub(crate) const FINALISERS: usize = 15;

/// Whether a domain has a second half.
fn goes_on(d: u32) -> bool {
    !matches!(d, 2 | 5 | 7)
}

/// How many commands a domain makes once all threads have come to their end.
pub(crate) fn kept_back(d: u32) -> usize {
    if d == 0 { 3 } else { 1 }
}

// A domain makes a block for the others to find in the shared one, and two of its own.
fn opening(alloc: Global, d: u32) -> Result<String, AllocError> {
    format!(in alloc;
        "domain {d}\nallocmaj 14 0 2\nint 2 {d}\nstore 14 0 2\nstore 0 {d} 14\nalloc 5 0 2\nalloc 1 0 2\n"
    )
}

// A round of a domain: it makes a block in place of that of the round before, which may have a finaliser, looks at a
// block of another domain, to which its own leads then, and asks for a collection.
fn round(
    alloc: Global,
    d: u32,
    number: u32,
    finaliser: &str,
    collection: &str,
) -> Result<String, AllocError> {
    let other = d.saturating_add(number).saturating_add(1) % DOMAINS;
    format!(in alloc;
        "alloc 1 0 2\nint 2 {number}\nstore 1 0 2\n{finaliser}\nload 3 0 {other}\nload 4 3 0\nstore 14 1 3\n{collection}\n"
    )
}

// The collection that a domain asks for in a round of the first half.
fn collection(d: u32, number: u32) -> &'static str {
    match d.saturating_add(number) % 3 {
        0 => "minor",
        1 => "full_major",
        _ => "major",
    }
}

// The first half. Its finalisers have all run at its end, since complete collections come behind them.
fn add_first_half(alloc: Global, text: &mut String, d: u32) -> Result<(), AllocError> {
    text.push_str(&opening(alloc, d)?)?;
    for number in 0..2 {
        let finaliser = format!(in alloc; "finalise_last 1 {number}")?;
        text.push_str(&round(alloc, d, number, &finaliser, collection(d, number))?)?;
    }
    text.push_str(&round(alloc, d, 2, "poll", collection(d, 2))?)?;
    let place = d.saturating_add(DOMAINS);
    text.push_str(&format!(in alloc; "full_major\nint 2 1\nstore 0 {place} 2\n")?)?;
    text.push_str(&round(alloc, d, 3, "poll", "minor")?)
}

// A domain finds that all are through with the first half.
fn add_meeting(alloc: Global, text: &mut String) -> Result<(), AllocError> {
    for other in DOMAINS..2 * DOMAINS {
        text.push_str(&format!(in alloc; "load 4 0 {other}\n")?)?;
    }
    Ok(())
}

// The second half.
fn add_second_half(alloc: Global, text: &mut String, d: u32) -> Result<(), AllocError> {
    for number in 4..8 {
        let finaliser = format!(in alloc; "finalise 1 {number} 5")?;
        text.push_str(&round(alloc, d, number, &finaliser, "minor")?)?;
    }
    Ok(())
}

// The section of a domain. In the end the first domain asks for a complete collection, which queues the finalisers, and
// the others find that it has.
fn add_section(alloc: Global, text: &mut String, d: u32) -> Result<(), AllocError> {
    add_first_half(alloc, text, d)?;
    add_meeting(alloc, text)?;
    if goes_on(d) {
        add_second_half(alloc, text, d)?;
    }
    text.push_str(if d == 0 {
        "full_major\nint 2 2\nstore 0 8 2\n"
    } else {
        "load 4 0 8\n"
    })
}

/// The script.
pub(crate) fn script(alloc: Global) -> Result<Script, ScriptFault> {
    let mut text = String::from_str(alloc, "heap 2\n")?;
    for d in 0..DOMAINS {
        add_section(alloc, &mut text, d)?;
    }
    read_script(alloc, Version::Two, DOMAINS, text.as_bytes())
}
