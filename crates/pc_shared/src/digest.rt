//! Numbers that tell nodes and homes apart quickly: equal ones have one digest, and others mostly have others.
use crate::node::SharedNode;
use pc_window::Home;
use pc_word::{Item, Operand, Operands};
use std::hash::{DefaultHasher, Hash, Hasher};

/// Mixes an operand into a digest.
fn mix_operand(state: &mut DefaultHasher, operand: Operand) {
    match operand {
        Operand::Name(name) => state.write_u32(name),
        Operand::Lit(value) => state.write_i32(value),
    }
}

/// Mixes what an item reads and the name that it writes into a digest.
fn mix_item(state: &mut DefaultHasher, item: Item) {
    item.dest().hash(state);
    match item.operands() {
        Operands::None => state.write_u8(0),
        Operands::One(one) => mix_operand(state, one),
        Operands::Two(one, other) => {
            mix_operand(state, one);
            mix_operand(state, other);
        }
    }
}

/// The digest of a node.
pub(crate) fn node_digest(node: &SharedNode) -> u64 {
    let mut state = DefaultHasher::new();
    match *node {
        SharedNode::Step {
            tag,
            origin,
            item,
            rest,
        } => {
            state.write_u32(tag);
            state.write_u32(origin);
            mix_item(&mut state, item);
            rest.hash(&mut state);
        }
        SharedNode::Test {
            tag,
            origin,
            on,
            yes,
            no,
        } => {
            state.write_u32(tag);
            state.write_u32(origin);
            mix_operand(&mut state, on);
            yes.hash(&mut state);
            no.hash(&mut state);
        }
        SharedNode::Node { below } => below.hash(&mut state),
        SharedNode::Exit { region, tag, homes } => {
            state.write_u32(region);
            state.write_u32(tag);
            homes.hash(&mut state);
        }
        SharedNode::Stop => state.write_u8(0),
        SharedNode::Trap { line, .. } => state.write_u32(line),
    }
    state.finish()
}

/// The digest of homes.
pub(crate) fn homes_digest(homes: &[Home]) -> u64 {
    let mut state = DefaultHasher::new();
    for home in homes {
        state.write_u32(home.variable);
        mix_operand(&mut state, home.value);
    }
    state.finish()
}
