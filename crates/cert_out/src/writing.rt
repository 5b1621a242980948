//! A certificate is written.

ghost use Rattle.std.specs.Prelude.{ℕ, ◌+◌, ◌^◌, ◌<◌, List, IfOk, MatchOption, length};
ghost use Rattle.symk_task.specs.Plans.{IsPlan};
ghost use Rattle.bdd_space.specs.Seen.{seen};
ghost use Rattle.certificates.specs.Inductive.{IsInductive};
ghost use Rattle.certificates.specs.Meaning.{Named};
ghost use Rattle.certificates.specs.Texts.{state_width, IsInOrder};
ghost use Rattle.certificates.specs.Tidy.{IsTidy};
ghost use Rattle.cert_out.specs.Closed.{IsClosedSet};
ghost use Rattle.cert_out.specs.Written.{IsProof};

use crate::closing::closure;
use crate::text::cert_text;
use bdd_space::BddSpace;
use certificates::{Certificate, cert_of};
use space_api::Space;
use std::alloc::Global;
use symk_task::{Memory, Task};

/// The certificate of a closed set of a space, of the task of the space.
fn certificate_of(alloc: Global, space: &BddSpace<'_>, set: usize) -> Result<Certificate, Memory>
    requires { IsClosedSet (seen space.now) set }
    ensures in_order { IfOk result (IsInOrder (state_width space.now.task)) }
    ensures few { IfOk result (λ cert. length cert.nodes + 2 < 2 ^ 63) }
    ensures tidy { IfOk result IsTidy }
    ensures inductive { IfOk result (λ cert. IsInductive space.now.task (Named space.now.task cert)) }
{
    let root = space.id(set);
    let task = space.task();
    let order = space.order();
    cert_of(alloc, task, order, space.ops().table(), root)
}

/// Its text.
fn text_of(alloc: Global, space: &BddSpace<'_>, set: usize) -> Result<Vec<u8>, Memory>
    requires { IsClosedSet (seen space.now) set }
    ensures { IfOk result (λ text. IsProof space.now.task text.items) }
{
    let cert = certificate_of(alloc, space, set)?;
    cert_text(alloc, space.order().bits(), &cert)
}

/// A certificate that the task has no plan, or None where it has one.
///
/// The states that are reached from the initial one are closed under the operators, so they are inductive where the
/// goal holds in none of them (Eriksson, Röger and Helmert, "Unsolvability Certificates for Classical Planning",
/// 2017). The bytes are the whole text, for `check_cert` or whoever checks it.
pub fn write_cert(alloc: Global, task: &Task) -> Result<Option<Vec<u8>>, Memory>
    ensures { IfOk result (λ found. MatchOption found
        ((p : List ℕ) × IsPlan task.now p)
        (λ text. IsProof task.now text.items × ((p : List ℕ) → ¬ IsPlan task.now p))) }
{
    // A task fits, and so its plans are those of its system.
    let _ = task.parts();
    let mut space = BddSpace::of(alloc, task)?;
    let found = closure(&mut space)?;
    match found {
        None => Ok(None),
        Some(set) => {
            let text = text_of(alloc, &space, set)?;
            Ok(Some(text))
        }
    }
}
