//! The line that ends a list.

ghost use Rattle.std.specs.Prelude.{◌≡◌, IfOk};
ghost use Rattle.plan_out.specs.Texts.{end_line};

use crate::print::push_numbered;
use std::alloc::Global;
use symk_task::Memory;
use symk_text::{Text, push_bytes};

/// How a list ends; `n` is how many plans it has.
#[derive(Clone, Copy, Debug, PartialEq, Eq)]
pub enum End {
    /// As many as were asked for are listed.
    Reached { n: u64 },
    /// There are no more.
    Exhausted { n: u64 },
    /// As many as were asked for are listed, and there is another.
    More { n: u64 },
    /// All up to the greatest cost that is wanted are listed.
    Bounded { n: u64 },
    /// There are more, and each costs more than 64 bits hold.
    CostRange,
}

/// The end line.
#[tactic(auto, unfolding(crate::specs::Texts::end_line))]
pub fn end_line(alloc: Global, end: End) -> Result<Vec<u8>, Memory>
    ensures { IfOk result (λ bytes. bytes.items ≡ end_line end) }
{
    let mut text = Text::new(alloc);
    match end {
        End::Reached { n } => push_numbered(&mut text, b"; reached ", n)?,
        End::Exhausted { n } => push_numbered(&mut text, b"; exhausted ", n)?,
        End::More { n } => push_numbered(&mut text, b"; more ", n)?,
        End::Bounded { n } => push_numbered(&mut text, b"; bounded ", n)?,
        End::CostRange => push_bytes(&mut text, b"; cost range\n")?,
    }
    Ok(text.into_vec())
}
