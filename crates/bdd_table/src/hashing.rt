//! How the unique table hashes its nodes.

ghost use Rattle.std.specs.Prelude.{◌≡◌, length};
ghost use Rattle.bdd_table.specs.WordHash as word_hash;

use std::hash::Hasher;

/// The digits of the golden ratio, in which bits of either kind are spread.
const MULTIPLIER: u64 = 0x9e37_79b9_7f4a_7c15;

/// Hasher of words of 64 bits, in some ten instructions a word: each is multiplied to 128 bits with the state, whose
/// halves are joined by xor (folded multiplication, Wang Yi, 2019). Its seed is fixed. Bytes that are no word count
/// as the word 0.
#[derive(Clone, Copy)]
pub(crate) struct WordHasher {
    state: u64,
}

impl Default for WordHasher {
    ghost is_default = { λ s. s ≡ word_hash.initial };

    fn default() -> WordHasher {
        WordHasher {
            state: 0x243f_6a88_85a3_08d3,
        }
    }
}

/// The two halves of the 128 bits of a product, joined by xor.
fn folded_multiply(a: u64, b: u64) -> u64
    ensures { result ≡ word_hash.folded_multiply a b }
{
    let product = a as u128 * b as u128;
    (product & 0xFFFF_FFFF_FFFF_FFFF) as u64 ^ (product >> 64) as u64
}

/// The state after a word.
fn mixed(state: u64, word: u64) -> u64
    ensures { result ≡ word_hash.mixed_word state word }
{
    folded_multiply(state ^ word, MULTIPLIER)
}

/// The word that these bytes are, the lowest first.
fn word_of(bytes: &[u8]) -> u64
    ensures { result ≡ word_hash.word_of bytes.now }
{
    if bytes.len() != 8 {
        return 0;
    }
    u64::from_le_bytes([
        bytes[0], bytes[1], bytes[2], bytes[3], bytes[4], bytes[5], bytes[6], bytes[7],
    ])
}

impl Hasher for WordHasher {
    ghost write = { word_hash.write };

    ghost finish = { word_hash.finish };

    fn finish(&self) -> u64 {
        self.state
    }

    fn write(&mut self, bytes: &[u8]) {
        self.state = mixed(self.state, word_of(bytes));
    }

    fn write_u64(&mut self, word: u64) {
        self.state = mixed(self.state, word);
    }
}
