//! Iterates over the values of a range.

ghost use Rattle.std.specs.Prelude.{◌≡◌};
ghost use Rattle.std.specs.Iterator.{YieldsFirst, item_count};
ghost use Rattle.range_space.specs.Values.{values};

use crate::steps::is_within;
use std::marker::Model;

/// An iterator over the values of a range. Contracts see it as the list of those that are still to come.
#[derive(Drop)]
pub struct Values {
    at: Option<i64>,
    hi: i64,
    step: i64,
}

impl Model for Values {
    ghost use Rattle.std.specs.Prelude.{List, ℤ};
    ghost use Rattle.range_space.specs.Values.{values_from};

    ghost Value = { List ℤ };

    ghost view = { λ v. values_from v.at v.hi v.step };
}

impl Values {
    // The values from `at` on.
    pub(crate) fn from(at: i64, hi: i64, step: i64) -> Values
        ensures { result ≡ values at hi step }
    {
        Values {
            at: Some(at),
            hi,
            step,
        }
    }
}

impl Iterator for Values {
    type Item = i64;

    ghost next_gives = { YieldsFirst (λ rest. rest) };

    ghost remaining = { item_count (λ rest. rest) };

    fn next(&mut self) -> Option<i64> {
        let v = self.at?;
        if is_within(self.hi, self.step, v) {
            self.at = v.checked_add(self.step);
            Some(v)
        } else {
            self.at = None;
            None
        }
    }
}
