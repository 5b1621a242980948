//! Texts kept in memory under their names, and the place reached in the one that was opened last.

ghost use Rattle.std.specs.Prelude.{◌≡◌, ◌^◌, ◌-◌, ◌<◌, ◌≤◌, ◌+◌, ◌++◌, [], ◌∷◌, length, take, drop, IsTrue, IsFalse, IfSome, IfNone, OnOk, OnErr, Some, None, slice_get};
ghost use Rattle.symk_io.specs.Memory.{bytes_of, text_in, left_of, shelf_left, names_of};

use std::alloc::AllocError;

/// The text of a file in memory.
#[derive(Drop)]
pub enum MemText {
    /// These bytes.
    Bytes(Vec<u8>),
    /// One byte, `count` times; a long text that takes no memory.
    Run { byte: u8, count: u64 },
}

/// A file in memory. Of two files of one name the first one is opened.
#[derive(Drop)]
pub struct MemFile {
    /// The name that `open_file` looks for, byte by byte.
    pub name: String,
    /// The whole text.
    pub text: MemText,
}

/// The files, the names that were opened, and the place in the file that is open.
#[derive(Drop)]
pub struct Shelf {
    files: Vec<MemFile>,
    opened: Vec<String>,
    open: Option<usize>,
    at: usize,
}

/// The place of the first file of that name.
fn place_of(files: &[MemFile], name: &str) -> Option<usize>
    ensures some { IfSome result (λ i. text_in files.now name.now ≡ Some (left_of (slice_get files.now i) 0)) }
    ensures none { IfNone result (text_in files.now name.now ≡ None) }
{
    for (i, file) in files.iter().enumerate() {
        if file.name.as_str() == name {
            return Some(i);
        }
    }
    None
}

/// Copies from a place of a text on into the buffer, as much as there is and fits.
fn give(text: &MemText, at: usize, buf: &mut [u8]) -> usize
    ensures bound { result ≤ length buf.new }
    ensures bytes { drop at (bytes_of text.now) ≡ take result buf.new ++ drop (at + result) (bytes_of text.now) }
    ensures end { result ≡ 0 → 0 < length buf.new → drop at (bytes_of text.now) ≡ [] }
    ensures room { at + result ≤ 2 ^ 64 - 1 }
{
    match text {
        MemText::Bytes(bytes) => give_bytes(bytes, at, buf),
        MemText::Run { byte, count } => {
            let n = count.saturating_sub(at as u64).min(buf.len() as u64) as usize;
            buf[..n].fill(*byte);
            n
        }
    }
}

fn give_bytes(bytes: &[u8], at: usize, buf: &mut [u8]) -> usize
    ensures bound { result ≤ length buf.new }
    ensures bytes { drop at bytes.now ≡ take result buf.new ++ drop (at + result) bytes.now }
    ensures end { result ≡ 0 → 0 < length buf.new → drop at bytes.now ≡ [] }
    ensures room { at + result ≤ 2 ^ 64 - 1 }
{
    let n = bytes.len().saturating_sub(at).min(buf.len());
    if n > 0 {
        buf[..n].copy_from_slice(&bytes[at..at + n]);
    }
    n
}

impl Shelf {
    /// Nothing is opened yet.
    pub fn new(files: Vec<MemFile>) -> Shelf
        ensures files { result.files.items ≡ files.items }
        ensures left { shelf_left result ≡ [] }
        ensures names { names_of result ≡ [] }
    {
        let alloc = *files.allocator();
        Shelf {
            files,
            opened: Vec::new(alloc),
            open: None,
            at: 0,
        }
    }

    /// Leaves nothing to read.
    pub fn close(&mut self)
        ensures files { self.new.files ≡ self.old.files }
        ensures left { shelf_left self.new ≡ [] }
        ensures names { names_of self.new ≡ names_of self.old }
    {
        self.open = None;
    }

    /// Adds a name to those that were opened.
    pub fn note(&mut self, name: &str) -> Result<(), AllocError>
        ensures files { self.new.files ≡ self.old.files }
        ensures left { shelf_left self.new ≡ shelf_left self.old }
        ensures names { OnOk result (names_of self.new ≡ names_of self.old ++ (name.now ∷ [])) }
        ensures err { OnErr result (names_of self.new ≡ names_of self.old) }
    {
        let alloc = *self.files.allocator();
        self.opened.push(String::from_str(alloc, name)?)?;
        Ok(())
    }

    /// Opens the first file of that name, if there is one.
    pub fn open(&mut self, name: &str) -> bool
        ensures files { self.new.files ≡ self.old.files }
        ensures names { names_of self.new ≡ names_of self.old }
        ensures found { IsTrue result → text_in self.new.files.items name.now ≡ Some (shelf_left self.new) }
        ensures lost { IsFalse result → text_in self.new.files.items name.now ≡ None }
        ensures left { IsFalse result → shelf_left self.new ≡ shelf_left self.old }
    {
        match place_of(&self.files, name) {
            Some(i) => {
                self.open = Some(i);
                self.at = 0;
                true
            }
            None => false,
        }
    }

    /// Gives from the front of what is left.
    pub fn read(&mut self, buf: &mut [u8]) -> usize
        ensures files { self.new.files ≡ self.old.files }
        ensures names { names_of self.new ≡ names_of self.old }
        ensures bound { result ≤ length buf.new }
        ensures bytes { shelf_left self.old ≡ take result buf.new ++ shelf_left self.new }
        ensures end { result ≡ 0 → 0 < length buf.new → shelf_left self.new ≡ [] }
    {
        let Some(i) = self.open else { return 0 };
        let Some(file) = self.files.get(i) else {
            return 0;
        };
        let n = give(&file.text, self.at, buf);
        self.at += n;
        n
    }
}
