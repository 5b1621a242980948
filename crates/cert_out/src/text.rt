//! The text of a certificate.

ghost use Rattle.std.specs.Prelude.{◌≡◌, ◌++◌, ◌∷◌, [], OnOk, IfOk, map};
ghost use Rattle.sas_writer.specs.Spelling.{text_of};
ghost use Rattle.cert_out.specs.CertText.{numbered_line, node_line, cert_head_lines, end_lines, cert_text};

use certificates::{CertNode, Certificate};
use std::alloc::Global;
use symk_task::Memory;
use symk_text::{Text, push_bytes, push_number};

/// Appends the end of a line.
fn push_end(text: &mut Text) -> Result<(), Memory>
    ensures { OnOk result (text.new ≡ text.old ++ 10 ∷ []) }
{
    push_bytes(text, b"\n")
}

/// Appends a line of these bytes.
fn push_word(text: &mut Text, word: &[u8]) -> Result<(), Memory>
    ensures { OnOk result (text.new ≡ text.old ++ text_of (word.now ∷ [])) }
{
    push_bytes(text, word)?;
    push_end(text)
}

/// Appends a line of these bytes and a number.
fn push_numbered(text: &mut Text, word: &[u8], number: u64) -> Result<(), Memory>
    ensures { OnOk result (text.new ≡ text.old ++ text_of (numbered_line word.now number ∷ [])) }
{
    push_bytes(text, word)?;
    push_number(text, number)?;
    push_end(text)
}

/// Appends the three numbers of a node.
#[tactic(auto, unfolding(crate::specs::CertText::node_line))]
fn push_node(text: &mut Text, node: CertNode) -> Result<(), Memory>
    ensures { OnOk result (text.new ≡ text.old ++ node_line node) }
{
    push_number(text, u64::from(node.bit))?;
    push_bytes(text, b" ")?;
    push_number(text, node.lo)?;
    push_bytes(text, b" ")?;
    push_number(text, node.hi)
}

/// Appends the lines of the nodes.
fn push_nodes(text: &mut Text, nodes: &[CertNode]) -> Result<(), Memory>
    ensures { OnOk result (text.new ≡ text.old ++ text_of (map node_line nodes.now)) }
{
    for node in nodes {
        push_node(text, *node)?;
        push_end(text)?;
    }
    Ok(())
}

/// Appends the lines before the nodes.
fn push_head(text: &mut Text, width: u32, count: usize) -> Result<(), Memory>
    ensures { OnOk result (text.new ≡ text.old ++ text_of (cert_head_lines width count)) }
{
    push_word(text, b"symk-cert 1")?;
    push_numbered(text, b"bits ", u64::from(width))?;
    push_numbered(text, b"nodes ", count as u64)
}

/// Appends the lines after the nodes.
fn push_root(text: &mut Text, root: u64) -> Result<(), Memory>
    ensures { OnOk result (text.new ≡ text.old ++ text_of (end_lines root)) }
{
    push_numbered(text, b"root ", root)?;
    push_word(text, b"end")
}

/// The canonical text of the certificate.
pub fn cert_text(alloc: Global, width: u32, cert: &Certificate) -> Result<Vec<u8>, Memory>
    ensures { IfOk result (λ bytes. bytes.items ≡ cert_text width cert.now) }
{
    let mut text = Text::new(alloc);
    let nodes = cert.nodes.as_slice();
    push_head(&mut text, width, nodes.len())?;
    push_nodes(&mut text, nodes)?;
    push_root(&mut text, cert.root)?;
    Ok(text.into_vec())
}
