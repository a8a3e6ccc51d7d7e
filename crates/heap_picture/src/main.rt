//! Draws the object graph that a script of one domain leaves: reads the script from standard input, and writes the
//! picture to standard output, as text for Graphviz.
//!
//! `draw` says it whole: its text is `picture_text` of the state `played start cs`, where `cs` are the commands that a run
//! makes of those that the bytes spell, and a legal history with these commands leads from `start`, a heap of one domain with the sizes that
//! `camlheap run` has without options, to that state. `played` says which history it is: before each command the queued
//! finalisers run, and `major` and `full_major` make a complete collection. What is white, grey and red in a picture is
//! said by `specs/Fates` in the words of the model: reach and settled reach.
//!
//! Tests alone show that this history is always legal, so that no script ends with `NotLegal`, and that Graphviz reads
//! the text.
//!
//! The program ends with status 0, with 2 where the script is refused, and else with 1.
#![tactic(auto)]

mod blocks;
mod collect;
mod draw;
mod ephemerons;
mod fates;
mod fault;
mod picture;
mod play;
mod registers;
mod sections;
mod text;

use fault::PictureFault;
use std::io;
use std::io::{Read, Write};
use std::process::ExitCode;
use text_script::ScriptFault;

// Reads the script, and writes its picture.
fn run(rt: &HostRuntime) -> io::Result<Result<(), PictureFault>> {
    let mut bytes = Vec::new(rt.alloc());
    rt.stdin().read_to_end(&mut bytes)?;
    match draw::draw(rt.alloc(), &bytes) {
        Ok(text) => {
            rt.stdout().write_all(text.as_bytes())?;
            Ok(Ok(()))
        }
        Err(fault) => Ok(Err(fault)),
    }
}

fn main(rt: HostRuntime) -> ExitCode {
    match run(&rt) {
        Ok(Ok(())) => ExitCode::SUCCESS,
        Ok(Err(PictureFault::Script(fault))) if fault != ScriptFault::Memory => {
            let _ = eprintln!(rt; "{fault}");
            ExitCode::from(2)
        }
        Ok(Err(fault)) => {
            let _ = eprintln!(rt; "heap_picture: {fault:?}");
            ExitCode::from(1)
        }
        Err(_) => {
            let _ = eprintln!(rt; "heap_picture: a read or a write failed");
            ExitCode::from(1)
        }
    }
}
