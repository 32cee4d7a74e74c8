//! Short lists of numbers, kept in place.

ghost use Rattle.std.specs.Prelude.{◌≡◌, ◌<◌, ◌≤◌, [], ◌∷◌, ◌++◌, length, MatchOption};

use arrayvec::ArrayVec;
use std::marker::Model;

/// At most `N` numbers. Contracts see it as their list; it allocates nothing.
#[derive(Debug, Drop)]
pub struct Numbers<const N: usize> {
    values: ArrayVec<i64, N>,
}

impl<const N: usize> Model for Numbers<N> {
    ghost use Rattle.std.specs.Prelude.{List, ℤ};

    ghost Value = { List ℤ };

    ghost view = { λ n. n.values.items };
}

impl<const N: usize> Numbers<N> {
    /// The empty list.
    pub fn new() -> Numbers<N>
        ensures { result ≡ [] }
    {
        Numbers {
            values: ArrayVec::new(),
        }
    }

    /// The numbers in their order.
    pub fn as_slice(&self) -> &[i64]
        ensures within { length result.now ≤ N }
        ensures same { result.now ≡ self.now }
    {
        self.values.as_slice()
    }

    /// Adds a number at the end.
    pub fn push(&mut self, value: i64)
        requires { length self.old < N }
        ensures { self.new ≡ self.old ++ value ∷ [] }
    {
        self.values.push(value);
    }

    /// Removes and returns the last number, if there is one.
    pub fn pop(&mut self) -> Option<i64>
        ensures { MatchOption result ((self.old ≡ []) × (self.new ≡ [])) (λ v. self.old ≡ self.new ++ v ∷ []) }
    {
        self.values.pop()
    }

    /// Removes all numbers.
    pub fn clear(&mut self)
        ensures { self.new ≡ [] }
    {
        self.values.clear();
    }

    /// A copy of the list.
    pub fn copy(&self) -> Numbers<N>
        ensures { result ≡ self.now }
    {
        let mut values = ArrayVec::new();
        let _fits = values.try_extend_from_slice(self.as_slice());
        Numbers { values }
    }
}
