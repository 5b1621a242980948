//! Which bit of a certificate stands at a level.

ghost use Rattle.std.specs.Prelude.{◌≡◌, ◌≤◌, length, IfOk};
ghost use Rattle.certificates.specs.Levels.{IsIndex, AreIndexes, bit_at_level};

use std::alloc::Global;
use symk_task::Memory;

/// Which of the places this is.
fn index_of(places: &[u32], place: u32) -> Option<u32>
    requires { length places.now ≤ 65536 }
    ensures { IsIndex places.now place result }
{
    match places.iter().position(|other| *other == place) {
        Some(i) => Some(i as u32),
        None => None,
    }
}

/// For each of the first places, which of the places of the bits it is.
pub fn indexes_of(alloc: Global, places: &[u32], count: u32) -> Result<Vec<Option<u32>>, Memory>
    requires { length places.now ≤ 65536 }
    ensures { IfOk result (λ indexes. AreIndexes places.now indexes.items count) }
{
    let mut indexes = Vec::new(alloc);
    for place in 0..count {
        indexes.push(index_of(places, place))?;
    }
    Ok(indexes)
}

/// The bit that stands at a level, where a bit of the state does.
pub fn bit_at_level(indexes: &[Option<u32>], level: u32) -> Option<u32>
    ensures { result ≡ bit_at_level indexes.now level }
{
    if level % 2 == 0 {
        indexes.get((level / 2) as usize).copied().flatten()
    } else {
        None
    }
}
