//! Outputs of a table's text for two domains, judged.
use judge_outputs::sections::{Explained, explain_sections};
use std::alloc::{AllocError, Global};
use table_text::read_sections;

// Domain 0 makes a key, binds it and sets a slot, and lets it go before it looks for it; domain 1 looks for it too.
const TEXT: &[u8] =
    b"table 2\ndomain 0\nkey 1\nput 1 10\nwset 3 1\nforget 1\nfull_major\nwget 2 3\n\
domain 1\nwget 2 3\nget 2\nforget 2\n";

// What came of a judgement.
#[derive(Clone, Copy, Debug, PartialEq, Eq)]
enum Came {
    Legal { turns: usize },
    NoneFound,
    GivenUp,
    NoText,
}

fn came_of(explained: &Explained) -> Came {
    match explained {
        Explained::Legal(turns) => Came::Legal { turns: turns.len() },
        Explained::NoneFound => Came::NoneFound,
        Explained::GivenUp => Came::GivenUp,
    }
}

fn judged(alloc: Global, states: u64, output: &[u8]) -> Result<Came, AllocError> {
    let Ok(text) = read_sections(alloc, 2, TEXT) else {
        return Ok(Came::NoText);
    };
    let sections = text.into_sections();
    let explained = explain_sections(alloc, &sections, output, states)?;
    Ok(came_of(&explained))
}

#[test]
fn some_order_explains_them(rt: HostRuntime) {
    let alloc = rt.alloc();
    let all = Ok(Came::Legal { turns: 9 });
    // Domain 1 holds the key at the collection.
    let found = b"domain 0\nok\nok\nok\nok\nok\nyes\ndomain 1\nyes\nint 10\nok\n";
    assert!(rt; judged(alloc, 1000, found) == all);
    // It looks when the key is gone.
    let gone = b"domain 0\nok\nok\nok\nok\nok\nnone\ndomain 1\nnone\ntype\nok\n";
    assert!(rt; judged(alloc, 1000, gone) == all);
    // It looks before the slot is set.
    let full = b"domain 0\nok\nfull\nok\nok\nok\nnone\ndomain 1\nnone\ntype\nok\n";
    assert!(rt; judged(alloc, 1000, full) == all);
}

#[test]
fn no_order_explains_them(rt: HostRuntime) {
    let alloc = rt.alloc();
    let none = Ok(Came::NoneFound);
    // The key that is found has lost its binding.
    let lost = b"domain 0\nok\nok\nok\nok\nok\nyes\ndomain 1\nyes\nnone\nok\n";
    assert!(rt; judged(alloc, 1000, lost) == none);
    // One reply is changed.
    let other = b"domain 0\nok\nok\nok\nok\nok\nyes\ndomain 1\nyes\nint 11\nok\n";
    assert!(rt; judged(alloc, 1000, other) == none);
    // Domain 0 finds the key behind a collection at which none held it.
    let kept = b"domain 0\nok\nok\nok\nok\nok\nyes\ndomain 1\nnone\ntype\nok\n";
    assert!(rt; judged(alloc, 1000, kept) == none);
    // A section is missing.
    assert!(rt; judged(alloc, 1000, b"domain 0\nok\nok\nok\nok\nok\nyes\n") == none);
}

#[test]
fn the_search_is_given_up(rt: HostRuntime) {
    let found = b"domain 0\nok\nok\nok\nok\nok\nyes\ndomain 1\nyes\nint 10\nok\n";
    assert!(rt; judged(rt.alloc(), 2, found) == Ok(Came::GivenUp));
}
