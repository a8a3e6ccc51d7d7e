//! The registration of finalisers.
ghost use Rattle.std.specs.Prelude.{◌≡◌, ◌<◌, IfNone, IfSome};
ghost use Rattle.model_core.specs.declared.command.Command.TheVariants.{Finalise, FinaliseLast};
ghost use Rattle.model_core.specs.declared.entry.Entry.{Entry};
ghost use Rattle.heap_words.specs.declared.value.Value.TheVariants.{Ref};
ghost use Rattle.heap_rule.specs.Changes.{value_at};
ghost use Rattle.heap_rule.specs.Places.{IsNoBlock};
ghost use Rattle.heap_rule.specs.Running.{Runs, Did, own_entry};
ghost use Rattle.heap_rule.specs.Token.{Holds};
ghost use Rattle.step_finalisers.specs.Registering.{HasRoom};
ghost use Rattle.do_finalisers.specs.Registering.{finalising, finalising_last, registering_reply};

use heap_rule::{Domain, Heap, Registered, RegisteredLast};
use heap_words::Value;
use model_core::reply::Reply;
use step_finalisers::{register_final, register_last};
use step_run::fields::tick;

// The address of the block that a register holds, if it holds one.
fn block_in(dom: &Domain, r: u8) -> Option<u32>
    requires few { r < 16 }
    ensures block { IfSome result (λ address. value_at dom.now.view.own.registers r ≡ Ref address) }
    ensures none { IfNone result (IsNoBlock (value_at dom.now.view.own.registers r)) }
{
    match dom.register(r) {
        Value::Ref(address) => Some(address),
        Value::Int(_) | Value::Nothing => None,
    }
}

fn finalise_as(heap: &Heap, dom: &mut Domain, item: u8, number: u32, dst: u8) -> Reply
    ghost entry: { Entry }
    requires entry { entry ≡ own_entry dom.old (Finalise item number dst) }
    requires runs { Runs heap.now dom.old }
    requires item { item < 16 }
    requires dst { dst < 16 }
    requires room { HasRoom heap.now.config dom.old.view.own.finalisers }
    ensures did { Did heap.now dom.old dom.new (Finalise item number dst) result }
    ensures own { dom.new.view.own ≡ finalising item number dst dom.old.view.own }
    ensures reply { result ≡ registering_reply (value_at dom.old.view.own.registers item) }
    ensures holds { Holds heap.now.config dom.new.view.own.registers }
{
    let Some(address) = block_in(dom, item) else {
        tick(heap, dom, 0, &[]);
        return Reply::BadType;
    };
    let registered = Registered {
        address,
        number,
        register: dst,
    };
    register_final(heap, dom, item, registered);
    Reply::Done
}

/// Registers the finaliser with this number for the block in register `item`. It is called once the
/// block is first unreachable, and is given the block: register `dst` holds it then, so that it is
/// reachable again (OCaml manual, module `Gc`, `finalise`). Of several finalisers of one block each is
/// called once. The reply is `type` where the register holds no block, and then nothing changes. Else
/// it is `ok`, and the registration is the domain's newest.
///
/// Registers are below 16, the domain's trace hasn't ended, no finaliser waits in its queue, and there
/// is room for one more registration.
pub fn finalise(heap: &Heap, dom: &mut Domain, item: u8, number: u32, dst: u8) -> Reply
    requires runs { Runs heap.now dom.old }
    requires item { item < 16 }
    requires dst { dst < 16 }
    requires room { HasRoom heap.now.config dom.old.view.own.finalisers }
    ensures did { Did heap.now dom.old dom.new (Finalise item number dst) result }
    ensures own { dom.new.view.own ≡ finalising item number dst dom.old.view.own }
    ensures reply { result ≡ registering_reply (value_at dom.old.view.own.registers item) }
    ensures holds { Holds heap.now.config dom.new.view.own.registers }
{
    finalise_as(heap, dom, item, number, dst)
}

fn finalise_last_as(heap: &Heap, dom: &mut Domain, item: u8, number: u32) -> Reply
    ghost entry: { Entry }
    requires entry { entry ≡ own_entry dom.old (FinaliseLast item number) }
    requires runs { Runs heap.now dom.old }
    requires item { item < 16 }
    requires room { HasRoom heap.now.config dom.old.view.own.finalisers }
    ensures did { Did heap.now dom.old dom.new (FinaliseLast item number) result }
    ensures own { dom.new.view.own ≡ finalising_last item number dom.old.view.own }
    ensures reply { result ≡ registering_reply (value_at dom.old.view.own.registers item) }
    ensures holds { Holds heap.now.config dom.new.view.own.registers }
{
    let Some(address) = block_in(dom, item) else {
        tick(heap, dom, 0, &[]);
        return Reply::BadType;
    };
    register_last(heap, dom, item, RegisteredLast { address, number });
    Reply::Done
}

/// Registers the finaliser with this number for the block in register `item`. It is called once the
/// block is unreachable for the last time, when no finaliser of `finalise` can bring it back any more,
/// and isn't given the block (OCaml manual, module `Gc`, `finalise_last`). Of several finalisers of one
/// block each is called once. The reply is `type` where the register holds no block, and then nothing
/// changes. Else it is `ok`, and the registration is the domain's newest.
///
/// The register is below 16, the domain's trace hasn't ended, no finaliser waits in its queue, and
/// there is room for one more registration.
pub fn finalise_last(heap: &Heap, dom: &mut Domain, item: u8, number: u32) -> Reply
    requires runs { Runs heap.now dom.old }
    requires item { item < 16 }
    requires room { HasRoom heap.now.config dom.old.view.own.finalisers }
    ensures did { Did heap.now dom.old dom.new (FinaliseLast item number) result }
    ensures own { dom.new.view.own ≡ finalising_last item number dom.old.view.own }
    ensures reply { result ≡ registering_reply (value_at dom.old.view.own.registers item) }
    ensures holds { Holds heap.now.config dom.new.view.own.registers }
{
    finalise_last_as(heap, dom, item, number)
}
