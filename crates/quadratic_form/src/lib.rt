//! Quadratic forms over whole numbers: the tables that hold them, their elimination column by column, and what it says for all data
//! of the rows.
//!
//! *Tables.* A `Table` has ROWS rows and COLUMNS columns of 64-bit numbers, and the `NormalTable` 64 of each of 128-bit ones. Contracts
//! see either as the list of its rows. `zeros`, `at` and `set` are exact: `set` changes one entry and no other. `at` and `set` ask for
//! a row and a column inside; definitions take an entry past the ends as 0 (`entry`). No call fails, and none takes memory. A form has
//! at most 64 columns: three of the baseline, at most 60 of the integers, and that of the constant (`sizes_law`). No clause says how a
//! table prints.
//!
//! *Laws*, with nothing to run: each function below has an empty body, and its contract is the law. For all rational data in the boxes
//! of the rows, every integer vector and every rational baseline, 64 times the weighted sum of squares is at least 2^h times the value
//! of the integer form that the elimination leaves (`rational_bound_law`; over whole numbers `bound_law`). This has two parts: the
//! matrix at the centres, lessened by the squares of the radii, bounds the sum (`bounding_law`); and a step loses only what its square
//! covers (`step_law`). At given integers and a given move the sum of squares is at most the upper sum (`upper_law`). Where the second
//! least value is large enough against the upper sum of the first vector, that vector is strictly best for all data (`decision_law`).
#![tactic(auto)]

mod form_tables;
mod laws;
mod normal_tables;
mod sizes;

ghost use Rattle.std.specs.Prelude.{◌≡◌, ℕ, ◌^◌, ◌<◌, List, length, ℤ, pos, ◌+ℤ◌, ◌*ℤ◌, ◌≤ℤ◌, ◌<ℤ◌, Ok};
ghost use Rattle.whole_math.specs.Rational.{of_whole, ◌*ʳ◌, ◌≤ʳ◌};
ghost use Rattle.whole_math.specs.Vectors.{dot, len};
ghost use Rattle.quadratic_form.specs.Forms.{Column, Shaped, quad};
ghost use Rattle.quadratic_form.specs.Elimination.{Factor, factors, kept, next, steps};
ghost use Rattle.quadratic_form.specs.Rows.{WholeBaseline, SignalGroup, WholeData, GroupsOf, WholeFitsAll, matrix, radii, bounding_form, columns_at, first_rounding, value, whole_sum_of_squares};
ghost use Rattle.quadratic_form.specs.UpperSum.{upper_sum, top};
ghost use Rattle.quadratic_form.specs.TwoLeast.{TwoLeast};
ghost use Rattle.quadratic_form.specs.RationalData.{RowData, FitsAll, sum_of_squares, moved, IsBest};
ghost use Rattle.whole_math.specs.Spread.{Baseline};

pub use form_tables::{FactorTable, FormTable, FrontTable, MapTable, Table};
pub use laws::sizes_law;
pub use normal_tables::NormalTable;
pub use sizes::{BASELINE_COLUMNS, MOST_COLUMNS, MOST_FACTORS, MOST_FORM_COLUMNS, MOST_INTEGERS};

/// 63 times the matrix at the centres, with 16128 times the squares of the radii taken from four of
/// its own entries, stays below 64 times the sum of squares, whatever the data in the boxes are.
pub fn bounding_law()
    ensures { (d e : ℤ) (z : List ℤ) (b : WholeBaseline) (gs : List SignalGroup)
        (ts : List (List WholeData)) → GroupsOf (len z) gs → WholeFitsAll d gs ts →
        ((d *ℤ d) *ℤ quad (bounding_form (length z) (matrix (length z) gs) (radii gs))
        (columns_at e z b)) ≤ℤ (pos 64 *ℤ whole_sum_of_squares d e z b gs ts) }
{}

/// One step of the elimination loses only what the square that it takes covers: a is the pivot,
/// r are its entries with the later columns, m is the form of these.
pub fn step_law()
    ensures { (a : ℕ) (r : List ℤ) (m : List Column) (x : ℤ) (v : List ℤ) → 0 < a → len r ≡ len m →
        Shaped m → len m ≡ len v →
        ((kept a *ℤ (((pos (2 ^ 30) *ℤ x) +ℤ dot (factors a r) v) *ℤ ((pos (2 ^ 30) *ℤ x)
        +ℤ dot (factors a r) v))) +ℤ (pos (2 ^ 60) *ℤ quad (next a (len r) r m) v))
        ≤ℤ (pos (2 ^ 60) *ℤ (((pos a *ℤ (x *ℤ x)) +ℤ (pos 2 *ℤ (x *ℤ dot r v))) +ℤ quad m v)) }
{}

/// 64 times the sum of squares is at least 2^h times the value of the form that three steps leave,
/// for all data in the boxes, over d, all whole numbers z and all baselines, over e.
pub fn bound_law()
    ensures { (d e : ℤ) (h : ℕ) (z : List ℤ) (b : WholeBaseline) (gs : List SignalGroup)
        (ts : List (List WholeData)) (p : List Factor × List Column) → GroupsOf (len z) gs →
        WholeFitsAll d gs ts → steps 0 3 (first_rounding h (length z) gs) ≡ Ok p →
        (((d *ℤ e) *ℤ (d *ℤ e)) *ℤ (pos (2 ^ h) *ℤ value p.1 z))
        ≤ℤ (pos 64 *ℤ whole_sum_of_squares d e z b gs ts) }
{}

/// The bound for all rational data and all rational baselines.
pub fn rational_bound_law()
    ensures { (h : ℕ) (z : List ℤ) (b : Baseline) (gs : List SignalGroup) (qs : List (List RowData))
        (p : List Factor × List Column) → GroupsOf (len z) gs → FitsAll gs qs →
        steps 0 3 (first_rounding h (length z) gs) ≡ Ok p →
        of_whole (pos (2 ^ h) *ℤ value p.1 z) ≤ʳ of_whole (pos 64) *ʳ sum_of_squares z b gs qs }
{}

/// The sum of squares at the integers z and the move m is at most the upper sum, for all rational data in the boxes.
pub fn upper_law()
    ensures { (z : List ℤ) (m : WholeBaseline) (gs : List SignalGroup) (qs : List (List RowData)) →
        GroupsOf (len z) gs → FitsAll gs qs →
        sum_of_squares z (moved m) gs qs ≤ʳ of_whole (upper_sum z m gs) }
{}

/// Where the second least value is large enough against the upper sum, the first is best for all data in the boxes.
pub fn decision_law()
    ensures { (h : ℕ) (ratio : ℤ) (z1 z2 : List ℤ) (m : WholeBaseline) (gs : List SignalGroup)
        (p : List Factor × List Column) → GroupsOf (len z1) gs →
        steps 0 3 (first_rounding h (length z1) gs) ≡ Ok p → TwoLeast p.1 (len z1) z1 z2 →
        pos 1000 ≤ℤ ratio → (pos 64 *ℤ (ratio *ℤ top h z1 m gs)) <ℤ (pos 1000 *ℤ value p.1 z2) →
        IsBest gs z1 m }
{}
