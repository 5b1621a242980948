//! Which calls the cache may have.

use crate::key::Key;
use crate::recent::spread;
use bdd_table::{Id, TableFault};
use lru::LruCache;
use std::alloc::Global;

/// How many words the bits of a filter are, 64 a word: a power of two.
const WORDS: usize = 16_384;

/// Bloom filter of one hash: a bit for each call whose result went into the cache, at a place that the call tells. A call
/// without its bit isn't in the cache, so that isn't asked.
#[derive(Drop)]
pub struct Filter {
    words: Vec<u64>,
    /// How many calls were added since it was empty.
    added: usize,
}

impl Filter {
    /// A filter that no call passes. Its bits take 128 kilobytes once a call is added.
    pub fn new(alloc: Global) -> Filter {
        Filter {
            words: Vec::new(alloc),
            added: 0,
        }
    }

    /// Whether the call passes: it was added, or one whose bit is the same.
    #[inline(always)]
    pub fn passes(&self, key: Key) -> bool {
        let place = spread(key) & (WORDS * 64 - 1);
        match self.words.get(place / 64) {
            Some(word) => (*word >> (place % 64)) & 1 == 1,
            None => false,
        }
    }

    /// Adds a call whose result is to go into the cache. Where twice as many were added as the cache holds, the filter
    /// is made anew first, of the calls in the cache alone, so that it doesn't fill with those that left. Without memory
    /// for the bits it stays as it was.
    pub fn add(&mut self, key: Key, cache: &LruCache<Key, Id>) -> Result<(), TableFault> {
        if self.added / 2 >= cache.cap().get() {
            self.clear();
            'kept: for (kept, _) in cache.iter() {
                self.set(*kept)?;
            }
        }
        self.set(key)
    }

    /// Sets the bit of a call. Without memory for the bits it stays as it was.
    fn set(&mut self, key: Key) -> Result<(), TableFault> {
        if self.words.is_empty() {
            self.words.resize(WORDS, 0)?;
        }
        let place = spread(key) & (WORDS * 64 - 1);
        if let Some(word) = self.words.get_mut(place / 64) {
            *word |= 1 << (place % 64);
        }
        self.added = self.added.saturating_add(1);
        Ok(())
    }

    /// Lets no call pass, until others are added.
    pub fn clear(&mut self) {
        self.words.clear();
        self.added = 0;
    }
}
