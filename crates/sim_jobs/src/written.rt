//! What is written is read: numbers and lines.
ghost use Rattle.std.specs.Prelude.{◌≡◌, ◌^◌, ◌+◌, ◌*◌, ◌<◌, ◌≤◌, ◌∷◌, ◌++◌, ℕ, ℤ, suc, true, List, Ok, Some, replicate};
ghost use Rattle.decimal_text.specs.Whole.{size_of};
ghost use Rattle.decimal_text.specs.Write.{fixed_text, last_digits};
ghost use Rattle.decimal_text.specs.FixedForm.{IsReadAs};
ghost use Rattle.gps_time.specs.Ticks.{is_moment, ticks_since};
ghost use Rattle.line_source.specs.Lines.{lines_of};
ghost use Rattle.rinex_head.specs.Fields.{whole_of};
ghost use Rattle.sim_jobs.specs.Printed.{are_printed};

/// A number of at most 18 digits that is written with a point, after any blanks, is read as that number.
pub fn fixed_law()
    ensures { (blanks places : ℕ) (z : ℤ) → places ≤ 9 → size_of z < 10 ^ 18 →
        IsReadAs (replicate blanks 32 ++ fixed_text z places) places (Ok z) }
{}

/// The digits of a number, with zeros before them, are read as that number.
pub fn digits_law()
    ensures { (column k n : ℕ) → n < 10 ^ suc k →
        whole_of column (last_digits (suc k) n) ≡ Ok (Some n) }
{}

/// A text without control bytes and a line feed are a line, whatever follows.
pub fn line_law()
    ensures { (line rest : List ℕ) → are_printed line ≡ true →
        lines_of (line ++ 10 ∷ rest) ≡ line ∷ lines_of rest }
{}

/// Each time of 2024-01-01 is a moment, and these are its ticks.
pub fn new_year_law()
    ensures moment { (hour minute part : ℕ) → hour ≤ 23 → minute ≤ 59 → part ≤ 599_999_999 →
        is_moment 2024 1 1 hour minute part ≡ true }
    ensures ticks { (hour minute part : ℕ) → ticks_since 2024 1 1 hour minute part
        ≡ 13_881_024_000_000_000 + (hour * 60 + minute) * 600_000_000 + part }
{}
