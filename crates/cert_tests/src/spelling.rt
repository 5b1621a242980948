//! The text of a draft.

use crate::drafts::Draft;
use certificates::CertNode;
use std::alloc::Global;
use symk_task::Memory;
use symk_text::{Text, push_bytes, push_number};

/// Adds the line of a node.
fn push_node(text: &mut Text, node: CertNode) -> Result<(), Memory> {
    push_number(text, u64::from(node.bit))?;
    push_bytes(text, b" ")?;
    push_number(text, node.lo)?;
    push_bytes(text, b" ")?;
    push_number(text, node.hi)?;
    push_bytes(text, b"\n")
}

/// Adds a line of a word and a number.
fn push_line(text: &mut Text, word: &[u8], number: u64) -> Result<(), Memory> {
    push_bytes(text, word)?;
    push_number(text, number)?;
    push_bytes(text, b"\n")
}

/// The text of a draft for states of so many bits.
pub fn text_of(alloc: Global, width: u32, draft: &Draft) -> Result<Text, Memory> {
    let mut text = Text::new(alloc);
    push_bytes(&mut text, b"symk-cert 1\n")?;
    push_line(&mut text, b"bits ", u64::from(width))?;
    push_line(&mut text, b"nodes ", draft.nodes.len() as u64)?;
    for node in &draft.nodes {
        push_node(&mut text, *node)?;
    }
    push_line(&mut text, b"root ", draft.root)?;
    push_bytes(&mut text, b"end\n")?;
    Ok(text)
}
