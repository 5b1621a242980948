//! Single lines.

ghost use Rattle.std.specs.Prelude.{◌≡◌, ◌<◌, ◌^◌, ◌++◌, ◌∷◌, [], OnOk, decimal};
ghost use Rattle.sas_writer.specs.Spelling.{text_of, name_line, or_minus_one};

use symk_task::{Memory, Name};
use symk_text::{Text, push_bytes, push_number};

/// Appends the end of a line.
pub fn push_end(text: &mut Text) -> Result<(), Memory>
    ensures { OnOk result (text.new ≡ text.old ++ 10 ∷ []) }
{
    push_bytes(text, b"\n")
}

/// Appends a line of these bytes.
pub fn push_word(text: &mut Text, word: &[u8]) -> Result<(), Memory>
    ensures { OnOk result (text.new ≡ text.old ++ text_of (word.now ∷ [])) }
{
    push_bytes(text, word)?;
    push_end(text)
}

/// Appends a line with one number.
pub fn push_number_line(text: &mut Text, number: u64) -> Result<(), Memory>
    ensures { OnOk result (text.new ≡ text.old ++ text_of (decimal number ∷ [])) }
{
    push_number(text, number)?;
    push_end(text)
}

/// Appends a line with a cost.
pub fn push_cost(text: &mut Text, cost: u64) -> Result<(), Memory>
    ensures line { OnOk result (text.new ≡ text.old ++ text_of (decimal cost ∷ [])) }
    ensures small { cost < 2 ^ 64 }
{
    push_number_line(text, cost)
}

/// Appends a line with a name.
pub fn push_name(text: &mut Text, name: &Name) -> Result<(), Memory>
    ensures { OnOk result (text.new ≡ text.old ++ text_of (name_line name.now ∷ [])) }
{
    push_spelled(text, name.as_slice())?;
    push_end(text)
}

/// Appends the bytes of a name, and a CR where it ends with one.
#[tactic(auto, unfolding(crate::specs::Spelling::name_line))]
fn push_spelled(text: &mut Text, name: &[u8]) -> Result<(), Memory>
    ensures { OnOk result (text.new ≡ text.old ++ name_line name.now) }
{
    push_bytes(text, name)?;
    if !name.is_empty() && name[name.len() - 1] == b'\r' {
        push_bytes(text, b"\r")?;
    }
    Ok(())
}

/// Appends the number, or -1 where there is none.
#[tactic(auto, unfolding(crate::specs::Spelling::or_minus_one))]
pub fn push_or_minus_one(text: &mut Text, number: Option<u32>) -> Result<(), Memory>
    ensures { OnOk result (text.new ≡ text.old ++ or_minus_one number) }
{
    match number {
        Some(number) => push_number(text, u64::from(number)),
        None => push_bytes(text, b"-1"),
    }
}

/// Appends a number and a space.
pub fn push_number_and_space(text: &mut Text, number: u64) -> Result<(), Memory>
    ensures { OnOk result (text.new ≡ text.old ++ decimal number ++ 32 ∷ []) }
{
    push_number(text, number)?;
    push_bytes(text, b" ")
}
