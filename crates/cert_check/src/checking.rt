//! A certificate is checked.

ghost use Rattle.std.specs.Prelude.{◌≡◌, ◌<◌, ℕ, List, length, All, IfOk, IfErr};
ghost use Rattle.symk_task.specs.Plans.{IsPlan};
ghost use Rattle.symk_text.specs.Lines.{lines};
ghost use Rattle.certificates.specs.declared.node.Certificate.{Certificate};
ghost use Rattle.var_order.specs.Layout.{IsOrderOf, bits};
ghost use Rattle.certificates.specs.Places.{places_of};
ghost use Rattle.certificates.specs.Texts.{state_width, IsInOrder, IsCertOf};
ghost use Rattle.certificates.specs.Meaning.{Named};
ghost use Rattle.cert_check.specs.declared.judging.CertVerdict.TheVariants.{Yes};
ghost use Rattle.cert_check.specs.Judging.{JudgesCert};
ghost use Rattle.cert_check.specs.Refused.{CertRefusedAt};

use crate::building::set_of;
use crate::fault::CertFault;
use crate::judging::{CertVerdict, judge};
use crate::reading::read_cert;
use axiom_layers::compile;
use bdd_ops::{CACHE, Ops};
use bdd_table::Table;
use certificates::{Certificate, places_of};
use std::alloc::Global;
use symk_task::{Memory, Task};
use var_order::Order;

/// Whether the states that the certificate names are inductive.
fn judge_cert(
    alloc: Global,
    task: &Task,
    order: &Order,
    places: &[u32],
    cert: &Certificate,
) -> Result<CertVerdict, Memory>
    requires order { IsOrderOf task.now order.now }
    requires places { places.now ≡ places_of task.now order.now }
    requires below { All (λ place. place < bits order.now) places.now }
    requires cert { IsInOrder (length places.now) cert.now }
    ensures { IfOk result (JudgesCert task.now (Named task.now cert.now)) }
{
    let _ = task.parts();
    let mut ops = Ops::new(Table::new(alloc)?, CACHE)?;
    let set = set_of(alloc, &mut ops, order, places, cert)?;
    let mut derived = compile(alloc, task, order, &mut ops)?;
    judge(alloc, task, order, &mut ops, &mut derived, set)
}

/// Whether the bytes are a certificate that the task has no plan.
///
/// `Yes` exactly where the states that it names are inductive, and then no list of operators is a plan. A
/// `CertFault::Offence` names the first line at which no certificate of the task's format can go on so.
pub fn check_cert(alloc: Global, task: &Task, bytes: &[u8]) -> Result<CertVerdict, CertFault>
    ensures verdict { IfOk result (λ verdict. (cert : Certificate)
        × IsCertOf (state_width task.now) (lines bytes.now) cert × JudgesCert task.now (Named task.now cert) verdict) }
    ensures offence { IfErr result (CertRefusedAt (state_width task.now) (lines bytes.now)) }
    ensures refutes { IfOk result (λ verdict. verdict ≡ Yes → (p : List ℕ) → ¬ IsPlan task.now p) }
{
    let _ = task.parts();
    let order = Order::of(alloc, task)?;
    let places = places_of(alloc, task, &order)?;
    let cert = read_cert(alloc, places.len() as u32, bytes)?;
    let verdict = judge_cert(alloc, task, &order, &places, &cert)?;
    Ok(verdict)
}
