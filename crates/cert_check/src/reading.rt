//! A whole certificate.

ghost use Rattle.std.specs.Prelude.{◌≡◌, ℕ, ◌<◌, ◌^◌, List, [], IfOk, IfErr};
ghost use Rattle.symk_text.specs.Lines.{lines};
ghost use Rattle.line_grammar.specs.Reading.{GivesReading, tail_at};
ghost use Rattle.certificates.specs.declared.node.Certificate.{Certificate};
ghost use Rattle.certificates.specs.Texts.{IsCertOf, nothing_follows};
ghost use Rattle.cert_check.specs.Reading.{cert_main_at, text_at};
ghost use Rattle.cert_check.specs.Refused.{CertRefusedAt};

use crate::fault::CertFault;
use crate::rows::{bits_of, nodes_of, root_of, word_of};
use certificates::Certificate;
use line_grammar::{Rest, Stopped, first_line, stopped_at};
use std::alloc::Global;
use symk_text::lines_of;

/// The rows of a certificate, and the lines after them.
#[tactic(auto, unfolding(crate::specs::Reading::cert_main_at))]
fn main_of<'a>(
    alloc: Global,
    width: u32,
    lines: Rest<'a>,
) -> Result<(Certificate, Rest<'a>), Stopped<()>>
    ensures { GivesReading (λ x. (x.0, x.1)) result (cert_main_at width lines.entry) }
{
    let rest = word_of(b"symk-cert 1", lines)?;
    let rest = bits_of(width, rest)?;
    let (nodes, rest) = nodes_of(alloc, width, rest)?;
    let (root, rest) = root_of(nodes.as_slice().len(), rest)?;
    let rest = word_of(b"end", rest)?;
    Ok((Certificate { nodes, root }, rest))
}

/// No line.
#[tactic(auto, unfolding(line_grammar::specs::Reading::tail_at))]
fn nothing_of(lines: Rest<'_>) -> Result<(), Stopped<()>>
    ensures { GivesReading (λ _. (tt, [])) result (tail_at tt nothing_follows lines.entry) }
{
    let left = lines.len();
    match first_line(lines) {
        Some(_) => Err(stopped_at((), left)),
        None => Ok(()),
    }
}

/// The certificate that the lines state, and no more.
fn cert_of(alloc: Global, width: u32, lines: Rest<'_>) -> Result<Certificate, Stopped<()>>
    ensures { GivesReading (λ x. (x, [])) result (text_at width lines.entry) }
{
    let (cert, rest) = main_of(alloc, width, lines)?;
    nothing_of(rest)?;
    Ok(cert)
}

/// Reads a certificate of a task whose states have so many bits.
///
/// A `CertFault::Offence` names the first line at which no certificate can go on so.
pub fn read_cert(alloc: Global, width: u32, bytes: &[u8]) -> Result<Certificate, CertFault>
    ensures cert { IfOk result (IsCertOf width (lines bytes.now)) }
    ensures offence { IfErr result (CertRefusedAt width (lines bytes.now)) }
{
    let lines = lines_of(alloc, bytes)?;
    let lines = lines.as_slice();
    match cert_of(alloc, width, Rest::of(lines)) {
        Ok(cert) => Ok(cert),
        Err(Stopped::Memory) => Err(CertFault::Memory),
        Err(Stopped::Offence(offence)) => Err(CertFault::Offence {
            line: (lines.len() - offence.left) as u64 + 1,
        }),
    }
}

/// The lines of a certificate's text are those of one certificate alone.
pub fn text_states_one_certificate()
    ensures { (width : ℕ) (lines : List (List ℕ)) (one other : Certificate) → width < 2 ^ 64
        → IsCertOf width lines one → IsCertOf width lines other → one ≡ other }
{}
