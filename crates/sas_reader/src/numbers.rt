//! Lines of numbers.

ghost use Rattle.std.specs.Prelude.{◌≡◌, ◌≤◌, ◌<◌, ℕ, length, drop, MatchOption, Some, None, not};
ghost use Rattle.std.specs.List.{prefix_len, take_while};
ghost use Rattle.std.specs.Option.{option_and_then};
ghost use Rattle.sas_reader.specs.Numbers.{is_blank_byte, is_blank, number_of_word, numbers_of, HasNoFirst, HasNoPlainFirst, with_first, only_number, two_numbers, three_numbers};

use symk_text::number;

fn is_blank_byte(byte: u8) -> bool
    ensures { result ≡ is_blank_byte byte }
{
    byte == b' ' || byte == b'\t'
}

/// The line holds only spaces and tabs, or nothing.
pub fn is_blank(line: &[u8]) -> bool
    ensures { result ≡ is_blank line.now }
{
    line.iter().all(|byte| is_blank_byte(*byte))
}

/// The line from its first byte on that is no blank.
fn without_blanks(line: &[u8]) -> &[u8]
    ensures { result.now ≡ drop (prefix_len is_blank_byte line.now) line.now }
{
    let mut count = 0;
    while count < line.len() && is_blank_byte(line[count]) {
        count += 1;
    }
    &line[count..]
}

/// What stands before the first blank.
fn first_word(line: &[u8]) -> &[u8]
    ensures word { result.now ≡ take_while (λ byte. not (is_blank_byte byte)) line.now }
    ensures within { length result.now ≤ length line.now }
{
    let mut count = 0;
    while count < line.len() && !is_blank_byte(line[count]) {
        count += 1;
    }
    &line[..count]
}

/// The number that the word is, None for `-1`.
#[tactic(auto, unfolding(crate::specs::Numbers::number_of_word))]
fn number_of_word(word: &[u8]) -> Option<Option<u64>>
    ensures { result ≡ number_of_word word.now }
{
    if word == b"-1".as_slice() {
        return Some(None);
    }
    match number(word, 0) {
        Some((value, end)) => {
            if end == word.len() {
                Some(Some(value))
            } else {
                None
            }
        }
        None => None,
    }
}

/// The first number of a line, None for `-1`, and what is left of the line after it.
pub fn first_number(line: &[u8]) -> Option<(Option<u64>, &[u8])>
    ensures { MatchOption result (HasNoFirst (numbers_of line.now)) (λ x. numbers_of line.now ≡ with_first x.0
        (numbers_of x.1.now)) }
{
    let from_word = without_blanks(line);
    let word = first_word(from_word);
    if word.is_empty() {
        return None;
    }
    match number_of_word(word) {
        Some(number) => Some((number, &from_word[word.len()..])),
        None => None,
    }
}

/// The first number of a line, where it isn't `-1`, and what is left of the line after it.
pub fn first_plain(line: &[u8]) -> Option<(u64, &[u8])>
    ensures { MatchOption result (HasNoPlainFirst (numbers_of line.now))
        (λ x. numbers_of line.now ≡ with_first (Some x.0) (numbers_of x.1.now)) }
{
    match first_number(line) {
        Some((Some(number), rest)) => Some((number, rest)),
        _ => None,
    }
}

/// The number that is alone in its line, None for `-1`.
pub fn only_number(line: &[u8]) -> Option<Option<u64>>
    ensures { result ≡ option_and_then only_number (numbers_of line.now) }
{
    let (number, rest) = first_number(line)?;
    if is_blank(rest) { Some(number) } else { None }
}

/// The two numbers of a line, neither being `-1`.
pub fn two_numbers(line: &[u8]) -> Option<(u64, u64)>
    ensures { result ≡ option_and_then two_numbers (numbers_of line.now) }
{
    let (one, rest) = first_plain(line)?;
    let (two, rest) = first_plain(rest)?;
    if is_blank(rest) {
        Some((one, two))
    } else {
        None
    }
}

/// The three numbers of a line, none being `-1`.
pub fn three_numbers(line: &[u8]) -> Option<(u64, u64, u64)>
    ensures { result ≡ option_and_then three_numbers (numbers_of line.now) }
{
    let (one, rest) = first_plain(line)?;
    let (two, rest) = first_plain(rest)?;
    let (three, rest) = first_plain(rest)?;
    if is_blank(rest) {
        Some((one, two, three))
    } else {
        None
    }
}
