//! The elimination of several columns.
ghost use Rattle.std.specs.Prelude.{◌≡◌, ◌⊎◌, ℕ, ◌-◌, ◌^◌, ◌<◌, ◌≤◌, pos, slice_index_or, unsigned_abs, OnOk, IfErr, Ok, Err};
ghost use Rattle.quadratic_form.specs.Elimination.{steps};
ghost use Rattle.quadratic_form.specs.Places.{form_from};
ghost use Rattle.quadratic_form.specs.Tables.{entry};
ghost use Rattle.elimination.specs.Stops.{refusal_of};
ghost use Rattle.integer_form.specs.Factors.{stored};
ghost use Rattle.integer_form.specs.ReportedRefusals.{fault_of};

use crate::step::{StepFault, step};
use integer_form::{LowerFault, Place};
use quadratic_form::{FactorTable, MOST_COLUMNS, MOST_FACTORS, NormalTable};

/// Where the elimination stopped: the column, its own entry, and why.
#[derive(Clone, Copy)]
pub struct Stopped {
    pub column: usize,
    pub pivot: i128,
    pub stop: StepFault,
}

impl Stopped {
    /// The fault that reports it.
    pub fn fault(self) -> LowerFault
        requires column_in { self.column ≤ MOST_COLUMNS }
        requires pivot_size { unsigned_abs self.pivot ≤ 2 ^ 52 }
        ensures { result ≡ fault_of (refusal_of self.column self.pivot self.stop) }
    {
        match self.stop {
            StepFault::Weak => LowerFault::Weak {
                column: self.column as u32,
                pivot: self.pivot as i64,
            },
            StepFault::WideFactor => LowerFault::Overwidth {
                place: Place::Factor,
            },
            StepFault::WideEntry => LowerFault::Overwidth {
                place: Place::Entry,
            },
        }
    }
}

/// The steps of the columns from `from` to before `end`.
pub fn take_steps(
    table: &mut NormalTable,
    factors: &mut FactorTable,
    kept: &mut [i64; MOST_FACTORS],
    from: usize,
    end: usize,
    columns: usize,
) -> Result<(), Stopped>
    requires order { from ≤ end }
    requires end_in { end < columns }
    requires columns_in { columns ≤ MOST_COLUMNS }
    requires entries { (r c : ℕ) → from ≤ r → r ≤ c → c < columns →
        unsigned_abs (entry table.old r c) ≤ 2 ^ 52 }
    ensures taken { OnOk result
        (steps from (end - from) (form_from (entry table.old) from (columns - from)) ≡ Ok (
          stored kept.new factors.new columns from (end - from),
          form_from (entry table.new) end (columns - end),
        )) }
    ensures factors_outside { (r i : ℕ) → ((i < from) ⊎ (end ≤ i)) ⊎ ((r ≤ i) ⊎ (columns ≤ r)) →
        entry factors.new r i ≡ entry factors.old r i }
    ensures kept_outside { (i : ℕ) → (i < from) ⊎ (end ≤ i) →
        slice_index_or kept.new i (pos 0) ≡ slice_index_or kept.old i (pos 0) }
    ensures column { IfErr result (λ e. e.column < columns) }
    ensures pivot { IfErr result (λ e. unsigned_abs e.pivot ≤ 2 ^ 52) }
    ensures refused { IfErr result (λ e.
        steps from (end - from) (form_from (entry table.old) from (columns - from))
        ≡ Err (refusal_of e.column e.pivot e.stop)) }
{
    for j in from..end {
        let pivot = table.at(j, j);
        match step(table, factors, j, columns) {
            Ok(d) => kept[j] = d as i64,
            Err(stop) => {
                return Err(Stopped {
                    column: j,
                    pivot,
                    stop,
                });
            }
        }
    }
    Ok(())
}
