//! What the commands on an ephemeron have in common: the look at the block in its register.
ghost use Rattle.std.specs.Prelude.{◌≡◌, ◌+◌, ◌^◌, ◌<◌, true, false, [], IfOk, IfErr};
ghost use Rattle.model_core.specs.declared.command.Command.{Command};
ghost use Rattle.model_core.specs.declared.reply.Reply.TheVariants.{BadType};
ghost use Rattle.model_core.specs.Fronts.{Shape};
ghost use Rattle.heap_rule.specs.Places.{IsHeadOf};
ghost use Rattle.heap_rule.specs.Running.{Runs};
ghost use Rattle.step_run.specs.Fields.Ticks.{TickCommand};
ghost use Rattle.step_ephemerons.specs.Commands.Heads.{HasItem, HasKey, LacksKey};
ghost use Rattle.step_ephemerons.specs.Commands.Loads.{word_of};
ghost use Rattle.do_ephemerons.specs.Found.{Found, Refused, keys_of};
ghost use Rattle.do_ephemerons.specs.Naming.{LooksInto, NamesRegisters};

use heap_rule::{Domain, Heap};
use heap_words::{Head, Value, read_head};
use model_core::reply::Reply;
use step_ephemerons::commands::ephe_head_load;
use step_run::fields::tick;

// The number of keys of the ephemeron whose head this is, and nothing for a plain block.
fn key_count(head: u64) -> Option<u16>
    requires { (s : Shape) × IsHeadOf s head }
    ensures { (s : Shape) → IsHeadOf s head → result ≡ keys_of s }
{
    match read_head(head) {
        Head::Ephe { keys, .. } => Some(keys),
        Head::Plain { .. } | Head::Free | Head::Forward(_) => None,
    }
}

// Whether an ephemeron with so many keys lacks the key that a command names.
fn lacks_key(key: Option<u16>, keys: u16) -> bool
    ensures lacks { result ≡ true → LacksKey key keys }
    ensures has { result ≡ false → HasKey key keys }
{
    match key {
        Some(index) => index >= keys,
        None => false,
    }
}

// The address of a key or of the datum of the ephemeron at an address.
pub fn word_at(block: u32, key: Option<u16>) -> u32
    requires { block < 2 ^ 24 }
    ensures { result ≡ word_of key block }
{
    match key {
        Some(index) => block + 3 + u32::from(index),
        None => block + 2,
    }
}

// The reply to a command that has no block to look into or nothing to set.
pub fn refuse(heap: &Heap, dom: &mut Domain) -> Reply
    ghost command: { Command }
    requires runs { Runs heap.now dom.old }
    requires names { NamesRegisters command }
    requires may { TickCommand dom.old.view [] command }
    ensures reply { result ≡ BadType }
    ensures refused { Refused heap.now dom.old dom.new command result }
{
    tick(heap, dom, 0, &[]);
    Reply::BadType
}

// The address of the ephemeron that a command looks into, which has the key that it names. Else the
// command's reply.
#[inline(always)]
pub fn find(heap: &Heap, dom: &mut Domain, ephe: u8, key: Option<u16>) -> Result<u32, Reply>
    ghost command: { Command }
    requires runs { Runs heap.now dom.old }
    requires looks { LooksInto command ephe key }
    requires item { HasItem dom.old.view command }
    ensures found { IfOk result (λ a. Found heap.now dom.old dom.new command a) }
    ensures refused { IfErr result (λ r. Refused heap.now dom.old dom.new command r) }
{
    let _limits = heap.config();
    let Value::Ref(address) = dom.register(ephe) else {
        return Err(refuse(heap, dom));
    };
    let Some(keys) = key_count(ephe_head_load(heap, dom, address, &[])) else {
        return Err(Reply::BadType);
    };
    if lacks_key(key, keys) {
        return Err(Reply::BadIndex);
    }
    Ok(address)
}
