//! Hands a text to a sink.
ghost use Rattle.text_ends.specs.Faults.{HasCause};
ghost use Rattle.text_ends.specs.Writing.{Writes};

use crate::{Failed, Sink};

/// Hands a text to the sink, and again what a write leaves of it.
#[inline(always)]
pub fn write_all<K: Sink>(out: &mut K, text: &[u8]) -> Result<(), Failed>
    ensures cause { HasCause (K.faults out.old) (K.faults out.new) result }
    ensures bytes { Writes (K.written out.old) (K.written out.new) result text.now }
{
    let mut at = 0;
    'writing: while at < text.len() {
        let count = out.write(&text[at..])?;
        at += count;
    }
    Ok(())
}
