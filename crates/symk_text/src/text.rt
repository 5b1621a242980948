//! Texts that grow.

ghost use Rattle.std.specs.Prelude.{◌≡◌, ◌++◌, ℕ, List, [], OnOk, OnErr, decimal};

use crate::Memory;
use itoa::Buffer;
use std::alloc::Global;
use std::marker::Model;

/// Bytes that are appended to.
#[derive(Drop)]
pub struct Text {
    bytes: Vec<u8>,
}

impl Model for Text {
    ghost Value = { List ℕ };

    ghost view = { λ a. a.bytes.items };
}

impl Text {
    /// The empty text.
    pub fn new(alloc: Global) -> Text
        ensures { result ≡ [] }
    {
        Text {
            bytes: Vec::new(alloc),
        }
    }

    /// The bytes of the text.
    pub fn as_slice(&self) -> &[u8]
        ensures { result.now ≡ self.now }
    {
        &self.bytes
    }

    /// The bytes of the text, as a vector.
    pub fn into_vec(self) -> Vec<u8>
        ensures { result.items ≡ self }
    {
        self.bytes
    }
}

/// Appends bytes. When out of memory the text is as before.
pub fn push_bytes(text: &mut Text, bytes: &[u8]) -> Result<(), Memory>
    ensures ok { OnOk result (text.new ≡ text.old ++ bytes.now) }
    ensures err { OnErr result (text.new ≡ text.old) }
{
    text.bytes.extend_from_slice(bytes)
}

/// Appends a number in decimal digits, without leading zeros. When out of memory the text is as before.
pub fn push_number(text: &mut Text, number: u64) -> Result<(), Memory>
    ensures ok { OnOk result (text.new ≡ text.old ++ decimal number) }
    ensures err { OnErr result (text.new ≡ text.old) }
{
    let mut buffer = Buffer::new();
    push_bytes(text, buffer.format(number).as_bytes())
}
