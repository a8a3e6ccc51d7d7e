//! Writes a generated script.
ghost use Rattle.std.specs.Prelude.{◌≡◌, ◌<◌, ◌≤◌, length, Option};
ghost use Rattle.model_core.specs.Output.{line};
ghost use Rattle.heap_rule.specs.Ending.{EndedHeap};
ghost use Rattle.text_script.specs.Spelling.{command_text, spelling};
ghost use Rattle.text_script.specs.declared.version.Version.TheVariants.{One};
ghost use Rattle.text_ends.specs.Faults.{HasCause, Rose};
ghost use Rattle.text_script.specs.Words.Jobs.{IsGenerable};
ghost use Rattle.camlheap_run.specs.Generating.{section_text, sections_text, commands_text, WritesScript, WritesFrontOfScript};
ghost use Rattle.camlheap_run.specs.Outcome.{IsRunAnswer, IsWriteFault};
ghost use Rattle.text_ends.specs.Writing.{Writes};

use crate::Status;
use crate::write::sections::write_heading;
use model_core::command::Command;
use std::alloc::{AllocError, Global};
use text_ends::{Failed, Sink, write_all};
use text_script::words::Generated;
use text_script::{Line, Script, generate, print_command};

// Writes the line of a command.
fn write_command<K: Sink>(out: &mut K, command: &Command) -> Result<(), Failed>
    ensures cause { HasCause (K.faults out.old) (K.faults out.new) result }
    ensures bytes { Writes (K.written out.old) (K.written out.new) result (line (command_text command.now)) }
{
    let mut text: Line = [0; 64];
    let length = print_command(command, &mut text);
    write_all(out, &text[..length])
}

// Writes the lines of commands, in order.
fn write_commands<K: Sink>(out: &mut K, commands: &[Command]) -> Result<(), Failed>
    ensures cause { HasCause (K.faults out.old) (K.faults out.new) result }
    ensures bytes { Writes (K.written out.old) (K.written out.new) result (commands_text commands.now) }
{
    'commands: for command in commands {
        write_command(out, command)?;
    }
    Ok(())
}

// Writes a section: its heading, and the lines of its commands.
fn write_section<K: Sink>(out: &mut K, script: &Script, domain: u32) -> Result<(), Failed>
    requires { domain < length script.now.sections }
    ensures cause { HasCause (K.faults out.old) (K.faults out.new) result }
    ensures bytes { Writes (K.written out.old) (K.written out.new) result (section_text script.now.sections domain) }
{
    write_heading(out, domain)?;
    write_commands(out, script.section(domain as usize))
}

// Writes the sections of a script, in order.
fn write_sections<K: Sink>(out: &mut K, script: &Script) -> Result<(), Failed>
    requires { length script.now.sections ≤ 8 }
    ensures cause { HasCause (K.faults out.old) (K.faults out.new) result }
    ensures bytes { Writes (K.written out.old) (K.written out.new) result (sections_text script.now.sections (length script.now.sections)) }
{
    'sections: for domain in 0..script.sections() {
        write_section(out, script, domain as u32)?;
    }
    Ok(())
}

// Writes the sections of a script as one of the first version.
fn write_script<K: Sink>(out: &mut K, script: &Script) -> Result<(), Failed>
    requires { length script.now.sections ≤ 8 }
    ensures cause { HasCause (K.faults out.old) (K.faults out.new) result }
    ensures bytes { Writes (K.written out.old) (K.written out.new) result (spelling One script.now.sections) }
{
    write_all(out, b"heap 1\n")?;
    write_sections(out, script)
}

// Generates a script and writes it. No heap is started.
pub(crate) fn generate_script<K: Sink>(alloc: Global, generated: &Generated, out: &mut K) -> Status
    requires { IsGenerable generated.now }
    ensures later { K.faults out.old ≤ K.faults out.new }
    ensures done { (ended : Option EndedHeap) → result ≡ Status.Done ended → WritesScript generated.now ended (K.written out.old) (K.written out.new) }
    ensures cut { (ended : Option EndedHeap) → result ≡ Status.WriteFault ended → WritesFrontOfScript generated.now ended (K.written out.old) (K.written out.new) }
    ensures fault { (ended : Option EndedHeap) → result ≡ Status.WriteFault ended → Rose (K.faults out.old) (K.faults out.new) }
    ensures failed { K.faults out.old < K.faults out.new → IsWriteFault result }
    ensures quiet { result ≡ Status.Memory → out.new ≡ out.old }
    ensures answers { IsRunAnswer result }
{
    let script = match generate(alloc, generated.base, generated.domains, generated.commands) {
        Ok(script) => script,
        Err(AllocError) => return Status::Memory,
    };
    match write_script(out, &script) {
        Ok(()) => Status::Done { ended: None },
        Err(Failed) => Status::WriteFault { ended: None },
    }
}
