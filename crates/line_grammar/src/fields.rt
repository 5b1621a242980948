//! What stands at the front of a line.

ghost use Rattle.std.specs.Prelude.{◌≡◌};
ghost use Rattle.std.specs.Option.{option_copied, option_map};
ghost use Rattle.line_grammar.specs.Fields.{after, first_number, number_then, number_after, is_numbered};

use symk_text::number;

/// What follows these bytes at the front of a line.
pub fn after<'a>(line: &'a [u8], word: &[u8]) -> Option<&'a [u8]>
    ensures { option_copied result ≡ after word.now line.now }
{
    line.strip_prefix(word)
}

/// A number at the front of some bytes, and what follows it.
pub fn first_number(bytes: &[u8]) -> Option<(u64, &[u8])>
    ensures { option_map (λ x. (x.0, x.1.now)) result ≡ first_number bytes.now }
{
    match number(bytes, 0) {
        Some((value, end)) => Some((value, &bytes[end..])),
        None => None,
    }
}

/// The number that follows these bytes at the front of a line, and what follows the number.
pub fn number_then<'a>(line: &'a [u8], word: &[u8]) -> Option<(u64, &'a [u8])>
    ensures { option_map (λ x. (x.0, x.1.now)) result ≡ number_then word.now line.now }
{
    match after(line, word) {
        Some(digits) => first_number(digits),
        None => None,
    }
}

/// The number of a line that has these bytes before it and nothing after it.
pub fn number_after(line: &[u8], word: &[u8]) -> Option<u64>
    ensures { result ≡ number_after word.now line.now }
{
    match number_then(line, word) {
        Some((value, rest)) => { if rest.is_empty() { Some(value) } else { None } }
        None => None,
    }
}

/// Whether the line is these bytes and then this number, spelled with any leading zeros.
pub fn is_numbered(line: &[u8], word: &[u8], number: u64) -> bool
    ensures { result ≡ is_numbered word.now number line.now }
{
    match number_after(line, word) {
        Some(value) => value == number,
        None => false,
    }
}
