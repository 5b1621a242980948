//! Marks, one for each value of each variable.

ghost use Rattle.std.specs.Prelude.{◌≡◌, ◌+◌, ◌<◌, ℕ, true};
ghost use Rattle.bdd_sets.specs.Marks.{is_marked, KeepsMarks};

/// Marks the place, if there is such a place.
pub fn mark(marks: &mut Vec<bool>, place: usize)
    ensures at { is_marked marks.new.items place ≡ true }
    ensures kept { KeepsMarks marks.old.items marks.new.items }
{
    if place < marks.len() {
        marks[place] = true;
    }
}

/// Marks so many places from the first on.
pub fn mark_all(marks: &mut Vec<bool>, first: usize, count: u32)
    requires { first + count < 18446744073709551616 }
    ensures all { (k : ℕ) → k < count → is_marked marks.new.items (first + k) ≡ true }
    ensures kept { KeepsMarks marks.old.items marks.new.items }
{
    'values: for value in 0..count {
        mark(marks, first + value as usize);
    }
}

/// Whether the place is marked, or there is no such place.
pub fn is_marked(marks: &[bool], place: usize) -> bool
    ensures { result ≡ is_marked marks.now place }
{
    marks.get(place).copied().unwrap_or(true)
}
