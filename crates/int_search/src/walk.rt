//! The search, depth first from the last integer to the first, at each level the nearest entry first.
ghost use Rattle.std.specs.Prelude.{◌≡◌, ◌+◌, ◌^◌, ◌<◌, ◌≤◌, length, unsigned_abs, MatchOption, MatchBool};
ghost use Rattle.integer_form.specs.Forms.{integers_of};
ghost use Rattle.int_search.specs.VisitedSuffixes.{IsStartTooWide, MeetsTooWide};
ghost use Rattle.int_search.specs.Vectors.{IsSmall};
ghost use Rattle.int_search.specs.SearchedForm.{search_form};
ghost use Rattle.int_search.specs.SearchStates.{CanSearch, search_image, IsWalk, IsFresh, BeginsWith, IsReach, IsPassed, IsPlainWalk, IsImageTooLarge, Offers, Visits, Gives};

use crate::best::Best;
use crate::images::image;
use crate::orders::order;
use crate::points::{neighbour_point, rounded_point};
use crate::rests::later_part;
use crate::stack::{Level, Stack};
use crate::steps::{
    Choice, bound_left, first_low, is_large, level_after, low_with, nearest, term_within,
    untouched_level,
};
use crate::values::value_at;
use integer_form::Form;
use quadratic_form::{BASELINE_COLUMNS, MOST_INTEGERS, MapTable};
use std::cmp::Ordering;

/// The state of a search.
#[derive(Drop)]
pub(crate) struct SearchState {
    /// The number of integers.
    pub(crate) size: usize,
    /// The vector whose last entries the levels fix.
    pub(crate) z: [i64; MOST_INTEGERS],
    pub(crate) stack: Stack,
    pub(crate) visits: u64,
    pub(crate) best: Best,
}

/// What a turn did.
pub(crate) enum Turn {
    Going,
    Done,
    Spent,
    Wide,
}

/// The next entry of the latest level, where its suffix is within the second best.
#[derive(Clone, Copy)]
pub(crate) struct NextEntry {
    pub(crate) level: Level,
    pub(crate) choice: Choice,
    /// The lower sum of the suffix.
    pub(crate) low: i128,
}

impl SearchState {
    /// The search at its first level, where no entry is taken.
    fn begin(form: &Form, z: [i64; MOST_INTEGERS], best: Best) -> SearchState
        requires some { 4 < form.now.columns }
        requires small { IsSmall z }
        ensures { BeginsWith (search_form form.now) best result }
    {
        let size = form.columns - BASELINE_COLUMNS - 1;
        let mut stack = Stack::new();
        stack.push(untouched_level(later_part(form, size - 1, &z), first_low(form.g)));
        SearchState {
            size,
            z,
            stack,
            visits: 0,
            best,
        }
    }

    /// The search over a form, with the rounded point and its neighbour as its two best; None where one is too wide.
    pub(crate) fn start(form: &Form, map: &MapTable) -> Option<SearchState>
        requires { CanSearch form.now map.now }
        ensures { MatchOption result (IsStartTooWide (search_form form.now) (search_image form.now
            map.now)) (IsFresh (search_form form.now) (search_image form.now map.now)) }
    {
        let size = form.columns - BASELINE_COLUMNS - 1;
        let z = rounded_point(form)?;
        let w = neighbour_point(form, &z)?;
        let p = value_at(form, &z);
        let q = value_at(form, &w);
        if p >= 1 << 62 || q >= 1 << 62 {
            return None;
        }
        let y = image(map, &z, size)?;
        let v = image(map, &w, size)?;
        match order(p, &y, q, &v, size) {
            Ordering::Less => {
                let best = Best {
                    first: y,
                    second: v,
                    p1: p,
                    p2: q,
                };
                Some(SearchState::begin(form, z, best))
            }
            Ordering::Equal => unreachable!(),
            Ordering::Greater => {
                let best = Best {
                    first: v,
                    second: y,
                    p1: q,
                    p2: p,
                };
                Some(SearchState::begin(form, z, best))
            }
        }
    }

    /// Compares a full vector with the two best; false where its image is too wide.
    fn offer(&mut self, form: &Form, map: &MapTable) -> bool
        requires can { CanSearch form.now map.now }
        requires size { self.old.size ≡ integers_of form.now }
        requires small { IsSmall self.old.z }
        ensures { MatchBool result
            (Offers (search_form form.now) (search_image form.now map.now) self.old self.new)
            (IsImageTooLarge (search_form form.now) (search_image form.now map.now) self.old) }
    {
        let p = value_at(form, &self.z);
        if p > self.best.p2 {
            return true;
        }
        let Some(y) = image(map, &self.z, self.size) else {
            return false;
        };
        self.best.offer(p, &y, self.size);
        true
    }

    /// The next entry of the latest level, where its suffix is within the second best.
    fn reach(&self, form: &Form) -> Option<NextEntry>
        requires some { 4 < form.now.columns }
        requires walk { IsPlainWalk (search_form form.now) self.now }
        requires level { 0 < length self.now.stack }
        ensures { MatchOption result (IsPassed (search_form form.now) self.now)
            (IsReach (search_form form.now) self.now) }
    {
        let level = self.stack.top();
        let choice = nearest(&level);
        let d = form.d[BASELINE_COLUMNS + self.size - self.stack.len()];
        let term = term_within(bound_left(self.best.p2, level.low), d, choice.offset)?;
        Some(NextEntry {
            level,
            choice,
            low: low_with(level.low, term),
        })
    }

    /// Visits the suffix with that entry; false where it is a full vector whose image is too wide.
    fn visit(&mut self, form: &Form, map: &MapTable, reach: &NextEntry) -> bool
        requires can { CanSearch form.now map.now }
        requires walk { IsWalk (search_form form.now) (search_image form.now map.now) self.old }
        requires reach { IsReach (search_form form.now) self.old reach.now }
        requires small { unsigned_abs reach.now.choice.entry < 2 ^ 30 }
        requires visits { self.old.visits + 1 < 2 ^ 64 }
        ensures { MatchBool result (Visits (search_form form.now)
            (search_image form.now map.now) self.old self.new) (MeetsTooWide (search_form form.now)
            (search_image form.now map.now) (self.old.visits + 1)) }
    {
        let i = self.size - self.stack.len();
        self.visits += 1;
        self.stack
            .replace(level_after(&reach.level, reach.choice.is_up));
        self.z[i] = reach.choice.entry;
        if i == 0 {
            return self.offer(form, map);
        }
        self.stack.push(untouched_level(later_part(form, i - 1, &self.z), reach.low));
        true
    }

    /// Takes the next entry of the latest level, or leaves the level.
    pub(crate) fn turn(&mut self, form: &Form, map: &MapTable, budget: u64) -> Turn
        requires can { CanSearch form.now map.now }
        requires walk { IsWalk (search_form form.now) (search_image form.now map.now) self.old }
        requires visits { self.old.visits ≤ budget }
        ensures { Gives (search_form form.now)
            (search_image form.now map.now) budget self.old self.new result }
    {
        if self.stack.len() == 0 {
            return Turn::Done;
        }
        let Some(reach) = self.reach(form) else {
            self.stack.pop();
            return Turn::Going;
        };
        if self.visits == budget {
            return Turn::Spent;
        }
        if is_large(reach.choice.entry as i128) {
            return Turn::Wide;
        }
        if self.visit(form, map, &reach) {
            Turn::Going
        } else {
            Turn::Wide
        }
    }
}
