//! A parent and a child, by turns: what they answer and print, as it is by hand.
ghost use Rattle.std.specs.Prelude.{◌≡◌, ◌≤◌, All, IfOk, true, length};
ghost use Rattle.heap_rule.specs.Token.{IsIn};
ghost use Rattle.test_turns.specs.Sections.{IsHanded, MayStand};

use crate::fixtures::{Play, TWO_DOMAINS, are_of};
use do_spawn::open_hidden;
use gc_mark::Hints;
use heap_rule::{Domain, Heap, StartFault};
use model_core::command::Command;
use model_core::label::Label;
use model_core::reply::Reply;
use run_turns::{DomainRun, Place, Turned};
use std::alloc::Global;
use std::test::Fail;

// Section 0 begins section 1 with an argument, waits for it, and looks into the block that it gives back.
const PARENT: [Command; 4] = [
    Command::PutInt { dst: 1, value: 5 },
    Command::Spawn {
        section: 1,
        item: 1,
    },
    Command::Join { dst: 2, section: 1 },
    Command::Load {
        dst: 3,
        src: 2,
        index: 0,
    },
];

// Section 1 puts its argument into a block, which is its result.
const CHILD: [Command; 4] = [
    Command::Argument { dst: 1 },
    Command::Alloc {
        dst: 2,
        tag: 0,
        fields: 1,
    },
    Command::Store {
        block: 2,
        index: 0,
        item: 1,
    },
    Command::PutResult { item: 2 },
];

const GIVEN: Label = Label {
    domain: 1,
    serial: 1,
};

const HELD: Turned = Turned::Held { section: 1 };

// Whether it is a command that these sections have, with its numbers in their ranges.
fn may_stand(command: &Command, number: u32) -> bool
    ensures { result ≡ true → MayStand number command.now }
{
    match *command {
        Command::PutInt { dst, value } => dst < 14 && 0 <= value && value <= 1000,
        Command::Alloc { dst, tag, fields } => {
            dst < 14 && tag <= 245 && 1 <= fields && fields <= 126
        }
        Command::Load { dst, src, .. } => dst < 14 && src < 14,
        Command::Store { block, item, .. } => block < 14 && item < 14,
        Command::Spawn { section, item } => section < 8 && section != number && item < 14,
        Command::Argument { dst } => dst < 14,
        Command::PutResult { item } => item < 14,
        Command::Join { dst, section } => section < 8 && section != number && dst < 14,
        _ => false,
    }
}

// Whether a section may have these commands.
fn all_may(commands: &[Command], number: u32) -> bool
    ensures few { result ≡ true → length commands.now ≤ 200000 }
    ensures all { result ≡ true → All (MayStand number) commands.now }
{
    for command in commands {
        if !may_stand(command, number) {
            return false;
        }
    }
    commands.len() <= 200_000
}

// A heap of two domains that have the hidden block.
fn opened(alloc: Global) -> Result<(Heap, Domain, Domain), StartFault>
    ensures first { IfOk result (λ r. IsHanded r.0 r.1) }
    ensures second { IfOk result (λ r. IsHanded r.0 r.2) }
{
    let (heap, mut domains) = Heap::start(alloc, TWO_DOMAINS)?;
    open_hidden(&heap, &mut domains);
    let second = domains.remove(1);
    let first = domains.remove(0);
    Ok((heap, first, second))
}

// A run of a domain's section.
fn run_of(
    alloc: Global,
    heap: &Heap,
    domain: Domain,
    hints: Hints,
    commands: &[Command],
    spawned: bool,
) -> Result<DomainRun, Fail>
    requires handed { IsHanded heap.now domain }
    ensures { IfOk result (λ r. IsIn r.token heap.now) }
{
    let _limits = heap.config();
    if !are_of(&hints, heap, &domain) {
        return Err(Fail::from("the hints of another domain"));
    }
    if !all_may(commands, domain.number()) {
        return Err(Fail::from("a command that may not stand there"));
    }
    let commands = Vec::from_slice(alloc, commands)?;
    Ok(DomainRun::make_spawning(alloc, domain, hints, commands, spawned)?)
}

// Both sections before their first turns.
fn start(alloc: Global) -> Result<Play, Fail> {
    let (heap, first, second) = opened(alloc)?;
    let mut decks = Hints::make(alloc, 2, heap.config().ephes)?;
    let (Some(last), Some(deck)) = (decks.pop(), decks.pop()) else {
        return Err(Fail::from("no hints"));
    };
    let mut runs = Vec::new(alloc);
    runs.push(run_of(alloc, &heap, first, deck, &PARENT, false)?)?;
    runs.push(run_of(alloc, &heap, second, last, &CHILD, true)?)?;
    Ok(Play { heap, runs })
}

// Whether a run has come so far, and has these replies.
fn shows(run: Option<&DomainRun>, place: Place, replies: &[Reply]) -> bool {
    match run {
        Some(run) => run.place() == place && run.replies() == replies,
        None => false,
    }
}

// A child that isn't begun is held, and so is a join whose section hasn't told its end. The argument comes to the child, and
// its result to the join.
#[test]
fn a_parent_waits_for_its_child(rt: HostRuntime) -> Result<(), Fail> {
    let mut play = start(rt.alloc())?;
    assert!(rt; play.all_answer(&[(1, HELD), (0, Turned::Did), (1, HELD), (0, Turned::Did)]));
    assert!(rt; shows(play.runs.get(1), Place::Before, &[]));
    assert!(rt;
        play.all_answer(&[
            (0, HELD),
            (1, Turned::Did),
            (1, Turned::Did),
            (1, Turned::Did)
        ])
    );
    assert!(rt;
        shows(
            play.runs.get(1),
            Place::Within,
            &[Reply::Int(5), Reply::Block(GIVEN),]
        )
    );
    assert!(rt;
        play.all_answer(&[
            (1, Turned::Did),
            (1, Turned::Did),
            (0, HELD),
            (1, Turned::Did)
        ])
    );
    assert!(rt;
        shows(
            play.runs.get(1),
            Place::Behind,
            &[
                Reply::Int(5),
                Reply::Block(GIVEN),
                Reply::Done,
                Reply::Done,
            ]
        )
    );
    assert!(rt;
        play.all_answer(&[
            (0, Turned::Did),
            (0, Turned::Did),
            (0, Turned::Did),
            (1, Turned::Did)
        ])
    );
    assert!(rt;
        shows(
            play.runs.first(),
            Place::AsEver,
            &[
                Reply::Done,
                Reply::Done,
                Reply::Block(GIVEN),
                Reply::Int(5),
            ]
        )
    );
    assert!(rt; play.all_answer(&[(0, Turned::Ended), (1, Turned::Ended)]));
    Ok(())
}
