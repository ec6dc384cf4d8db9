//! The two best vectors so far.
ghost use Rattle.std.specs.Prelude.{◌≤◌};
ghost use Rattle.quadratic_form.specs.declared.sizes.TheConstants.{MOST_INTEGERS};
ghost use Rattle.int_search.specs.Best.{KeepsBest};

use crate::orders::order;
use quadratic_form::MOST_INTEGERS;
use std::cmp::Ordering;

/// Two vectors in the coordinates of the answer, and the form's values at them.
#[derive(Clone, Copy, Debug)]
pub(crate) struct Best {
    pub(crate) first: [i64; MOST_INTEGERS],
    pub(crate) second: [i64; MOST_INTEGERS],
    pub(crate) p1: i128,
    pub(crate) p2: i128,
}

impl Best {
    /// Puts a vector y with the value p in its place among the two.
    pub(crate) fn offer(&mut self, p: i128, y: &[i64; MOST_INTEGERS], size: usize)
        requires { size ≤ MOST_INTEGERS }
        ensures { KeepsBest size p y.now self.old self.new }
    {
        match order(p, y, self.p1, &self.first, size) {
            Ordering::Less => {
                self.second = self.first;
                self.p2 = self.p1;
                self.first = *y;
                self.p1 = p;
            }
            Ordering::Equal => {}
            Ordering::Greater => {
                if let Ordering::Less = order(p, y, self.p2, &self.second, size) {
                    self.second = *y;
                    self.p2 = p;
                }
            }
        }
    }
}
