//! Numbers in a line.

ghost use Rattle.std.specs.Prelude.{◌≡◌, ◌^◌, ◌≤◌, nat_lt, Some, None, if◌then◌else◌, All, length};
ghost use Rattle.std.specs.List.{take_while};
ghost use Rattle.std.specs.Char.{is_ascii_digit, IsAsciiDigit};
ghost use Rattle.symk_text.specs.Numbers.{number_at, value_of};

/// The most digits that a number has.
const MOST_DIGITS: usize = 20;

/// The number that begins at a place of a line, and the place after it: the longest run of digits there, of 1 to 20
/// digits and a value below 2^64. None where the run is empty or longer, or its value is larger; also where the place
/// is past the end.
pub fn number(line: &[u8], start: usize) -> Option<(u64, usize)>
    ensures { result ≡ number_at line.now start }
{
    if start >= line.len() {
        return None;
    }
    let run = digits_of(&line[start..]);
    if run.is_empty() || run.len() > MOST_DIGITS {
        return None;
    }
    match value_of(run) {
        Some(value) => Some((value, start + run.len())),
        None => None,
    }
}

/// The digits that the bytes begin with.
fn digits_of(bytes: &[u8]) -> &[u8]
    ensures run { result.now ≡ take_while is_ascii_digit bytes.now }
    ensures digits { All IsAsciiDigit result.now }
    ensures within { length result.now ≤ length bytes.now }
{
    let mut count = 0;
    while count < bytes.len() && bytes[count].is_ascii_digit() {
        count += 1;
    }
    &bytes[..count]
}

/// What digits spell, below 2^64.
fn value_of(digits: &[u8]) -> Option<u64>
    requires { All IsAsciiDigit digits.now }
    ensures { result ≡ (if nat_lt (value_of digits.now) (2 ^ 64) then Some (value_of digits.now) else None) }
{
    let mut value: u64 = 0;
    for digit in digits {
        value = value
            .checked_mul(10)?
            .checked_add(u64::from(*digit - b'0'))?;
    }
    Some(value)
}
