//! Pieces of texts.

ghost use Rattle.std.specs.Prelude.{◌≡◌, ◌++◌, OnOk, decimal};

use itoa::Buffer;
use symk_task::Memory;
use symk_text::{Text, push_bytes, push_number};

/// Appends these bytes and then the number.
pub fn push_number_after(text: &mut Text, bytes: &[u8], number: u64) -> Result<(), Memory>
    ensures { OnOk result (text.new ≡ text.old ++ (bytes.now ++ decimal number)) }
{
    push_bytes(text, bytes)?;
    push_number(text, number)
}

/// Appends these bytes and then the cost, which may be past 64 bits.
pub fn push_cost_after(text: &mut Text, bytes: &[u8], cost: u128) -> Result<(), Memory>
    ensures { OnOk result (text.new ≡ text.old ++ (bytes.now ++ decimal cost)) }
{
    let mut buffer = Buffer::new();
    push_bytes(text, bytes)?;
    push_bytes(text, buffer.format(cost).as_bytes())
}
