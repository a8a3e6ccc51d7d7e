//! A heap that a program drives: each call of a session once, with the replies that the model gives.
use crate::sessions::same::same;
use model_core::command::Command;
use model_core::label::Label;
use model_core::reply::Reply;
use run_session::{Refusal, Session};
use run_turns::singly::Refusal as Lack;
use std::test::Fail;

// Makes a command, where the session takes it.
fn made(session: &mut Session, command: Command) -> Option<Reply> {
    if session.refuses(&command).is_some() {
        return None;
    }
    Some(session.perform(command))
}

const fn block(serial: u32) -> Reply {
    Reply::Block(Label { domain: 0, serial })
}

#[test]
fn a_program_drives_a_heap(rt: HostRuntime) -> Result<(), Fail> {
    let mut session = Session::make(rt.alloc(), 4096, 20, 1, 2)?;
    let alloc = Command::Alloc {
        dst: 1,
        tag: 0,
        fields: 2,
    };
    same(&rt, made(&mut session, alloc), Some(block(1)));
    let ephe = Command::Ephe { dst: 3, keys: 1 };
    same(&rt, made(&mut session, ephe), Some(block(2)));
    let set = Command::SetKey {
        ephe: 3,
        index: 0,
        item: 1,
    };
    same(&rt, made(&mut session, set), Some(Reply::Done));
    same(&rt, session.show(1), block(1));
    let forget = Command::Forget { dst: 1 };
    same(&rt, made(&mut session, forget), Some(Reply::Done));
    let live = Reply::Live {
        blocks: 2,
        words: 22,
    };
    let collect = Command::FullMajor;
    same(&rt, made(&mut session, collect), Some(live));
    let check = Command::CheckKey { ephe: 3, index: 0 };
    same(&rt, made(&mut session, check), Some(Reply::No));
    same(&rt, session.labels_left(), u32::MAX - 2);
    session.shows_legal();
    session.stop().shows_legal();
    Ok(())
}

// Three handles, each with a finaliser that puts its block into register 5, are let go. Their finalisers run
// before the next command, the newest first, and their replies are told apart from the command's.
#[test]
fn finalisers_run_between_commands(rt: HostRuntime) -> Result<(), Fail> {
    let mut session = Session::make(rt.alloc(), 4096, 20, 4, 2)?;
    for number in 0..3u32 {
        let alloc = Command::Alloc {
            dst: 1,
            tag: 0,
            fields: 1,
        };
        same(&rt, made(&mut session, alloc), Some(block(number + 1)));
        let finalise = Command::Finalise {
            item: 1,
            number,
            dst: 5,
        };
        same(&rt, made(&mut session, finalise), Some(Reply::Done));
    }
    same(&rt, session.finals_room(), 1);
    let outside = Command::Forget { dst: 16 };
    same(
        &rt,
        session.refuses(&outside),
        Some(Refusal::Unfit(Lack::Shape)),
    );
    let forget = Command::Forget { dst: 1 };
    same(&rt, made(&mut session, forget), Some(Reply::Done));
    made(&mut session, Command::FullMajor);
    same(&rt, session.ran_len(), 0);
    let polled = made(&mut session, Command::Poll);
    same(&rt, polled, Some(Reply::Done));
    same(&rt, session.ran_len(), 3);
    for turn in 0..3u32 {
        let number = 2 - turn;
        let fin = Reply::Fin {
            number,
            label: Label {
                domain: 0,
                serial: number + 1,
            },
        };
        same(&rt, session.ran(0), Some(fin));
        same(&rt, session.take_ran(), Some(fin));
    }
    same(&rt, session.take_ran(), None);
    same(&rt, session.finals_room(), 4);
    same(&rt, session.show(5), block(1));
    session.stop().shows_legal();
    Ok(())
}
