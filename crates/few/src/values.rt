// What a short list tells, and its edits.
ghost use Rattle.std.specs.Prelude.{◌≡◌, ◌<◌, ◌≤◌, [], ◌∷◌, ◌++◌, length, slice_index_or, slice_set};
ghost use Rattle.std.specs.List.{insert, remove};
ghost use Rattle.few.specs.Listed.{listed};

use crate::Few;
use crate::places::{put_in, take_out};

impl<T: Copy, const N: usize> Few<T, N> {
    // No values. The rows are filled with `unused`, which is none of them.
    pub fn new(unused: T) -> Few<T, N>
        ensures { listed result ≡ [] }
    {
        Few {
            rows: [unused; N],
            count: 0,
        }
    }

    // How many values there are.
    pub fn len(&self) -> usize
        ensures value { result ≡ length (listed self.now) }
        ensures most { result ≤ N }
    {
        self.as_slice().len()
    }

    // The values, in their order.
    pub fn as_slice(&self) -> &[T]
        ensures { result.now ≡ listed self.now }
    {
        &self.rows[..self.count]
    }

    // Takes a value in as the last one.
    pub fn push(&mut self, x: T)
        requires { length (listed self.old) < N }
        ensures { listed self.new ≡ listed self.old ++ x ∷ [] }
    {
        self.rows[self.count] = x;
        self.count += 1;
    }

    // Puts a value in at `i`, from 0 to the number of values.
    pub fn insert(&mut self, i: usize, x: T)
        requires inside { i ≤ length (listed self.old) }
        requires room { length (listed self.old) < N }
        ensures { listed self.new ≡ insert (listed self.old) i x }
    {
        put_in(&mut self.rows[..=self.count], i, x);
        self.count += 1;
    }

    // Takes the value at `i` out.
    pub fn remove(&mut self, i: usize) -> T
        requires { i < length (listed self.old) }
        ensures value { (d : T) → result ≡ slice_index_or (listed self.old) i d }
        ensures rest { listed self.new ≡ remove (listed self.old) i }
    {
        let x = self.rows[i];
        take_out(&mut self.rows[..self.count], i);
        self.count -= 1;
        x
    }

    // Puts a value in the place of the one at `i`.
    pub fn set(&mut self, i: usize, x: T)
        requires { i < length (listed self.old) }
        ensures { listed self.new ≡ slice_set (listed self.old) i x }
    {
        self.rows[i] = x;
    }
}
