// Making a change in the rows of a table: the tail moves once, and up to three rows are written.
ghost use Rattle.std.specs.Prelude.{◌≡◌, ℕ, ◌+◌, ◌-◌, ◌≤◌, ◌++◌, length, take, drop, nat_le};
ghost use Rattle.std.specs.List.{SameBelow, SameFrom, CopiedTo};
ghost use Rattle.splice.specs.Changes.{listed, news, changed, count_after, Apt};

use crate::Change;
use std::ops::Range;

impl<T: Copy> Change<T> {
    // How many rows the change brings in.
    fn amount(&self) -> usize
        ensures is { result ≡ length (news self.now) }
        ensures few { result ≤ 3 }
    {
        usize::from(self.before.is_some()) + 1 + usize::from(self.after.is_some())
    }

    // Whether the change of the first `count` rows leaves no more of them than `most`.
    pub fn has_room(&self, count: usize, most: usize) -> bool
        requires apt { Apt count self.now }
        requires fits { count ≤ most }
        ensures { result ≡ nat_le (count_after self.now count) most }
    {
        self.amount() <= most - (self.from + (count - self.to))
    }

    // Makes the change in the first `count` rows, and says how many they are then; the rows past both counts stay.
    // The rows are a slice with a count beside it since they are the caller's: no heap, and memory is lent.
    pub fn apply(&self, rows: &mut [T], count: usize) -> usize
        requires apt { Apt count self.now }
        requires fits { count ≤ length rows.old }
        requires room { count_after self.now count ≤ length rows.old }
        ensures size { result ≡ count_after self.now count }
        ensures list { take result rows.new ≡ changed self.now (take count rows.old) }
        ensures rest { (n : ℕ) → count ≤ n → result ≤ n → drop n rows.new ≡ drop n rows.old }
    {
        let tail = self.from + self.amount();
        move_tail(rows, self.to..count, tail);
        let first = put(rows, self.from, self.before);
        let second = put(rows, first, Some(self.middle));
        let _ = put(rows, second, self.after);
        tail + (count - self.to)
    }
}

// Writes a value at `i`, if there is one, and says where the next one goes.
fn put<T: Copy>(rows: &mut [T], i: usize, x: Option<T>) -> usize
    requires { i + length (listed x) ≤ length rows.old }
    ensures next { result ≡ i + length (listed x) }
    ensures front { take result rows.new ≡ take i rows.old ++ listed x }
    ensures rest { (n : ℕ) → result ≤ n → drop n rows.new ≡ drop n rows.old }
{
    match x {
        Some(v) => {
            rows[i] = v;
            i + 1
        }
        None => i,
    }
}

// Brings the rows of a range to `tail`. Where they stand there already they are left: `copy_within` would write each onto itself, and most declarations that extend a run leave all rows after it in their places.
fn move_tail<T: Copy>(rows: &mut [T], range: Range<usize>, tail: usize)
    requires ordered { range.start ≤ range.end }
    requires within { range.end ≤ length rows.old }
    requires room { tail + (range.end - range.start) ≤ length rows.old }
    ensures kept { SameBelow rows.old rows.new tail }
    ensures moved { CopiedTo rows.old rows.new range.start tail (range.end - range.start) }
    ensures rest { SameFrom rows.old rows.new (tail + (range.end - range.start)) }
{
    if range.start != tail {
        rows.copy_within(range, tail);
    }
}
