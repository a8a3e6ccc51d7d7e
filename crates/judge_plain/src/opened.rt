//! The graph in which an ephemeron keeps its keys alive too, and its data in any case.
ghost use Rattle.std.specs.Prelude.{◌≡◌, ◌++◌, IfOk, OnOk, map};
ghost use Rattle.model_core.specs.Commands.{key_value};
ghost use Rattle.model_core.specs.Entries.{opened_node, opened};

use model_core::graph::{Node, Value};
use model_core::label::Label;
use model_core::sequence::{Sequence, copy};
use std::alloc::{AllocError, Global};

// A key as a value.
fn value_of(key: Option<Label>) -> Value
    ensures { result ≡ key_value key }
{
    match key {
        None => Value::Nothing,
        Some(label) => Value::Block(label),
    }
}

// Adds keys as values.
fn add_keys(keys: &Sequence<Option<Label>>, values: &mut Vec<Value>) -> Result<(), AllocError>
    ensures { OnOk result (values.new.items ≡ values.old.items ++ map key_value keys.now) }
{
    for key in &keys.items {
        values.push(value_of(*key))?;
    }
    Ok(())
}

// A block as one that keeps alive all that it names.
fn opened_block(alloc: Global, node: &Node) -> Result<Node, AllocError>
    ensures { IfOk result (λ n. n ≡ opened_node node.now) }
{
    match node {
        Node::Plain { tag, fields } => {
            let fields = copy(alloc, fields)?;
            Ok(Node::Plain { tag: *tag, fields })
        }
        Node::Raw { tag, fields } => {
            let fields = copy(alloc, fields)?;
            Ok(Node::Raw { tag: *tag, fields })
        }
        Node::Ephe { keys, datum } => {
            let mut values = Vec::new(alloc);
            values.push(*datum)?;
            add_keys(keys, &mut values)?;
            Ok(Node::Plain {
                tag: 0,
                fields: Sequence::make(values),
            })
        }
    }
}

// Adds these blocks, opened.
fn add_blocks(
    alloc: Global,
    blocks: &Sequence<(Label, Node)>,
    made: &mut Vec<(Label, Node)>,
) -> Result<(), AllocError>
    ensures { OnOk result (made.new.items ≡ made.old.items ++ opened blocks.now) }
{
    for block in &blocks.items {
        let node = opened_block(alloc, &block.1)?;
        made.push((block.0, node))?;
    }
    Ok(())
}

// The graph, opened.
pub(crate) fn opened_graph(
    alloc: Global,
    graph: &Sequence<(Label, Node)>,
) -> Result<Sequence<(Label, Node)>, AllocError>
    ensures { IfOk result (λ g. g ≡ opened graph.now) }
{
    let mut made = Vec::new(alloc);
    add_blocks(alloc, graph, &mut made)?;
    Ok(Sequence::make(made))
}
