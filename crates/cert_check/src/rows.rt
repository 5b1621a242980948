//! The rows of a certificate, each read from the lines that are left.

ghost use Rattle.std.specs.Prelude.{◌≡◌, ◌<◌, ◌^◌, ◌==◌, false, codes};
ghost use Rattle.line_grammar.specs.Reading.{GivesReading, row_at};
ghost use Rattle.certificates.specs.Texts.{bit_of};
ghost use Rattle.cert_check.specs.Reading.{exact_line, bits_in, count_in, three_in, node_in, node_at, each_node_at, nodes_at, root_in};

use certificates::CertNode;
use line_grammar::{
    Rest, Stopped, first_line, first_number, is_numbered, number_after, number_then, stopped_at,
};
use std::alloc::Global;
use symk_task::List;

/// A line of exactly these bytes, and the lines after it.
pub fn word_of<'a>(word: &[u8], lines: Rest<'a>) -> Result<Rest<'a>, Stopped<()>>
    ensures { GivesReading (λ rest. (tt, rest)) result (row_at tt (exact_line word.now) lines.entry) }
{
    let left = lines.len();
    match first_line(lines) {
        Some((line, rest)) => {
            if line == word {
                Ok(rest)
            } else {
                Err(stopped_at((), left))
            }
        }
        None => Err(stopped_at((), left)),
    }
}

/// The line that says how many bits a state has, and the lines after it.
pub fn bits_of(width: u32, lines: Rest<'_>) -> Result<Rest<'_>, Stopped<()>>
    ensures { GivesReading (λ rest. (tt, rest)) result (row_at tt (bits_in width) lines.entry) }
{
    let left = lines.len();
    match first_line(lines) {
        Some((line, rest)) => {
            if is_numbered(line, b"bits ", u64::from(width)) {
                Ok(rest)
            } else {
                Err(stopped_at((), left))
            }
        }
        None => Err(stopped_at((), left)),
    }
}

/// How many nodes the line says that there are: none where a state has no bits.
fn count_in(width: u32, line: &[u8]) -> Option<u64>
    ensures { result ≡ count_in width line.now }
{
    match number_after(line, b"nodes ") {
        Some(count) => {
            if width > 0 || count == 0 {
                Some(count)
            } else {
                None
            }
        }
        None => None,
    }
}

/// How many nodes there are, and the lines after that line.
fn count_of(width: u32, lines: Rest<'_>) -> Result<(u64, Rest<'_>), Stopped<()>>
    ensures { GivesReading (λ x. (x.0, x.1)) result (row_at tt (count_in width) lines.entry) }
{
    let left = lines.len();
    match first_line(lines) {
        Some((line, rest)) => match count_in(width, line) {
            Some(count) => Ok((count, rest)),
            None => Err(stopped_at((), left)),
        },
        None => Err(stopped_at((), left)),
    }
}

/// The bit that a number asks for: a constant none, so the number past the last bit stands for it.
fn bit_of(width: u32, nodes: &[CertNode], number: u64) -> u32
    ensures { result ≡ bit_of width nodes.now number }
{
    if number < 2 {
        return width;
    }
    match nodes.get(number as usize - 2) {
        Some(node) => node.bit,
        None => 0,
    }
}

/// The three numbers of a node's line.
#[tactic(auto, unfolding(crate::specs::Reading::three_in))]
fn three_in(line: &[u8]) -> Option<(u64, u64, u64)>
    ensures { result ≡ three_in line.now }
{
    let (bit, rest) = first_number(line)?;
    let (lo, rest) = number_then(rest, b" ")?;
    let hi = number_after(rest, b" ")?;
    Some((bit, lo, hi))
}

/// The node that the line says, if it may follow these.
#[tactic(auto, unfolding(crate::specs::Reading::node_in))]
fn node_in(width: u32, nodes: &[CertNode], line: &[u8]) -> Option<CertNode>
    ensures { result ≡ node_in width nodes.now line.now }
{
    let (bit, lo, hi) = three_in(line)?;
    let known = nodes.len() as u64 + 2;
    if bit < u64::from(width)
        && lo < known
        && hi < known
        && bit < u64::from(bit_of(width, nodes, lo))
        && bit < u64::from(bit_of(width, nodes, hi))
    {
        Some(CertNode {
            bit: bit as u32,
            lo,
            hi,
        })
    } else {
        None
    }
}

/// A node, and the lines after it.
fn node_of<'a>(
    width: u32,
    nodes: &[CertNode],
    lines: Rest<'a>,
) -> Result<(CertNode, Rest<'a>), Stopped<()>>
    ensures { GivesReading (λ x. (x.0, x.1)) result (node_at width nodes.now lines.entry) }
{
    let left = lines.len();
    match first_line(lines) {
        Some((line, rest)) => match node_in(width, nodes, line) {
            Some(node) => Ok((node, rest)),
            None => Err(stopped_at((), left)),
        },
        None => Err(stopped_at((), left)),
    }
}

/// So many nodes, and the lines after them.
fn each_node(
    alloc: Global,
    width: u32,
    count: u64,
    lines: Rest<'_>,
) -> Result<(List<CertNode>, Rest<'_>), Stopped<()>>
    ensures { GivesReading (λ x. (x.0, x.1)) result (each_node_at width count lines.entry) }
{
    let mut nodes = List::of(Vec::new(alloc));
    let mut rest = lines;
    for _ in 0..count {
        let (node, after) = node_of(width, nodes.as_slice(), rest)?;
        nodes.push(node)?;
        rest = after;
    }
    Ok((nodes, rest))
}

/// The nodes, and the lines after them.
pub fn nodes_of(
    alloc: Global,
    width: u32,
    lines: Rest<'_>,
) -> Result<(List<CertNode>, Rest<'_>), Stopped<()>>
    ensures { GivesReading (λ x. (x.0, x.1)) result (nodes_at width lines.entry) }
{
    let (count, rest) = count_of(width, lines)?;
    each_node(alloc, width, count, rest)
}

/// The root of the line that names it, where there are so many nodes.
fn root_in(count: usize, line: &[u8]) -> Option<u64>
    requires { count < 2 ^ 63 }
    ensures { result ≡ root_in count line.now }
{
    match number_after(line, b"root ") {
        Some(root) => {
            if root < count as u64 + 2 {
                Some(root)
            } else {
                None
            }
        }
        None => None,
    }
}

/// The root, and the lines after it.
pub fn root_of(count: usize, lines: Rest<'_>) -> Result<(u64, Rest<'_>), Stopped<()>>
    requires { count < 2 ^ 63 }
    ensures { GivesReading (λ x. (x.0, x.1)) result (row_at tt (root_in count) lines.entry) }
{
    let left = lines.len();
    match first_line(lines) {
        Some((line, rest)) => match root_in(count, line) {
            Some(root) => Ok((root, rest)),
            None => Err(stopped_at((), left)),
        },
        None => Err(stopped_at((), left)),
    }
}
