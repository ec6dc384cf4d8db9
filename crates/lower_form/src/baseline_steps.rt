//! The front of the elimination, the form without the baseline: the first rounding of a normal matrix and the steps of the baseline's
//! columns.
ghost use Rattle.std.specs.Prelude.{◌≡◌, ◌⊎◌, ℕ, ◌-◌, ◌^◌, ◌<◌, ◌≤◌, List, unsigned_abs, OnOk, IfOk, IfErr, Ok, Err};
ghost use Rattle.quadratic_form.specs.Places.{form_from};
ghost use Rattle.quadratic_form.specs.Lowering.{IsExponent};
ghost use Rattle.obs_rows.specs.declared.arcs.Arc.{Arc};
ghost use Rattle.obs_rows.specs.declared.pair_rows.PairRows.{PairRows};
ghost use Rattle.quadratic_form.specs.Tables.{entry};
ghost use Rattle.normal_sum.specs.Normals.{IsNormalOf};
ghost use Rattle.normal_sum.specs.Values.{form_of};
ghost use Rattle.elimination.specs.Stops.{refusal_of};
ghost use Rattle.integer_form.specs.Factors.{stored};
ghost use Rattle.integer_form.specs.ReportedRefusals.{IsReportedAs};
ghost use Rattle.integer_form.specs.Kept.{form_of_table};
ghost use Rattle.lower_form.specs.Fronts.{front_of, BoundsAllData};
ghost use Rattle.lower_form.specs.Forms.{IsFrontOf};
ghost use Rattle.lower_form.specs.CleanSteps.{IsClean};

use crate::baseline_rows::front_by_rows;
use crate::rounding::{exponent, round};
use elimination::{
    StepFault, Stopped, fill_form_table, first_kept, form_table, front_factors, take_steps,
};
use integer_form::{FrontForm, LowerFault};
use normal_sum::Normal;
use quadratic_form::{BASELINE_COLUMNS, FactorTable, MOST_COLUMNS, MOST_FACTORS, NormalTable};

/// The first rounding over 2^h and the steps of the baseline's columns. What they leave stands in the table, on the
/// diagonal and after it.
pub(crate) fn take_front(
    normal: &Normal,
    h: u32,
    table: &mut NormalTable,
    factors: &mut FactorTable,
    kept: &mut [i64; MOST_FACTORS],
) -> Result<(), Stopped>
    requires few { h ≤ 76 }
    ensures taken { OnOk result
        (front_of h normal.now ≡ Ok (
          stored kept.new factors.new normal.now.columns 0 3,
          form_from (entry table.new) 3 (normal.now.columns - 3),
        )) }
    ensures outside { (r i : ℕ) → (3 ≤ i) ⊎ ((r ≤ i) ⊎ (normal.now.columns ≤ r)) →
        entry factors.new r i ≡ entry factors.old r i }
    ensures column { IfErr result (λ e. e.column < MOST_COLUMNS) }
    ensures pivot { IfErr result (λ e. unsigned_abs e.pivot ≤ 2 ^ 52) }
    ensures refused { IfErr result (λ e.
        front_of h normal.now ≡ Err (refusal_of e.column e.pivot e.stop)) }
    ensures bound { OnOk result ((arcs : List Arc) (ss : List ℕ) (pairs : List PairRows) →
        IsNormalOf arcs ss pairs normal.now →
        BoundsAllData arcs ss pairs h (form_from (entry table.new) 3 (normal.now.columns - 3))) }
{
    if !round(normal, table, h) {
        return Err(Stopped {
            column: 0,
            pivot: 0,
            stop: StepFault::WideEntry,
        });
    }
    take_steps(table, factors, kept, 0, BASELINE_COLUMNS, normal.columns)
}

/// The front of a normal matrix, over the least power of two that serves. Gives its exponent h.
pub(crate) fn lower_front(
    normal: &Normal,
    table: &mut NormalTable,
    factors: &mut FactorTable,
    kept: &mut [i64; MOST_FACTORS],
) -> Result<u32, LowerFault>
    ensures exponent { IfOk result (λ h. IsExponent h (form_of normal.now)) }
    ensures few { IfOk result (λ h. h ≤ 77) }
    ensures taken { IfOk result (λ h.
        front_of h normal.now ≡ Ok (
          stored kept.new factors.new normal.now.columns 0 3,
          form_from (entry table.new) 3 (normal.now.columns - 3),
        )) }
    ensures outside { (r i : ℕ) → (3 ≤ i) ⊎ ((r ≤ i) ⊎ (normal.now.columns ≤ r)) →
        entry factors.new r i ≡ entry factors.old r i }
    ensures refused { IfErr result (λ e. (h : ℕ) → IsExponent h (form_of normal.now) →
        IsReportedAs e (front_of h normal.now)) }
    ensures bound { IfOk result (λ h. (arcs : List Arc) (ss : List ℕ) (pairs : List PairRows) →
        IsNormalOf arcs ss pairs normal.now →
        BoundsAllData arcs ss pairs h (form_from (entry table.new) 3 (normal.now.columns - 3))) }
{
    let h = exponent(normal);
    match take_front(normal, h, table, factors, kept) {
        Ok(()) => Ok(h),
        Err(stopped) => Err(stopped.fault()),
    }
}

/// The first half of the elimination of a normal matrix: the first rounding, over the least power of two that serves,
/// and the steps of the baseline's columns.
///
/// 64 times the sum of squares of the rows, at any data in their boxes, any integers and any baseline, is at least 2^h
/// times the value of the form at the integers.
pub fn front(normal: &Normal) -> Result<FrontForm, LowerFault>
    ensures front { IfOk result (λ r. IsFrontOf normal.now r) }
    ensures few { IfOk result (λ r. r.h ≤ 77) }
    ensures refused { IfErr result (λ e. (h : ℕ) → IsExponent h (form_of normal.now) →
        IsReportedAs e (front_of h normal.now)) }
    ensures bound { IfOk result (λ r. (arcs : List Arc) (ss : List ℕ) (pairs : List PairRows) →
        IsNormalOf arcs ss pairs normal.now →
        BoundsAllData arcs ss pairs r.h (form_of_table r.p (r.columns - 3))) }
{
    let mut table = NormalTable::zeros();
    let mut factors = FactorTable::zeros();
    let mut kept = [0; MOST_FACTORS];
    let h = lower_front(normal, &mut table, &mut factors, &mut kept)?;
    let d = first_kept(&kept);
    let l = front_factors(&factors);
    let p = form_table(&table, normal.columns - BASELINE_COLUMNS);
    Ok(FrontForm {
        columns: normal.columns,
        h,
        d,
        l,
        p,
    })
}

/// The tables of the baseline's steps, kept from one front to the next: to make them anew for each would cost as much as the steps.
#[derive(Clone, Copy, Debug)]
pub struct BaselineSteps {
    table: NormalTable,
    factors: FactorTable,
    kept: [i64; MOST_FACTORS],
}

impl BaselineSteps {
    /// Tables in which no front was made.
    pub fn empty() -> BaselineSteps
        ensures { (columns : ℕ) → IsClean columns result }
    {
        BaselineSteps {
            table: NormalTable::zeros(),
            factors: FactorTable::zeros(),
            kept: [0; MOST_FACTORS],
        }
    }
}

/// Writes the front of a normal matrix over another of as many columns, by the steps column by column in these tables.
fn refill_by_columns(
    normal: &Normal,
    steps: &mut BaselineSteps,
    front: &mut FrontForm,
) -> Result<(), LowerFault>
    requires clean { IsClean normal.now.columns steps.old }
    requires columns { front.old.columns ≡ normal.now.columns }
    ensures front { OnOk result (IsFrontOf normal.now front.new) }
    ensures few { OnOk result (front.new.h ≤ 77) }
    ensures refused { IfErr result (λ e. (h : ℕ) → IsExponent h (form_of normal.now) →
        IsReportedAs e (front_of h normal.now)) }
    ensures clean { IsClean normal.now.columns steps.new }
    ensures columns { front.new.columns ≡ normal.now.columns }
{
    let h = lower_front(
        normal,
        &mut steps.table,
        &mut steps.factors,
        &mut steps.kept,
    )?;
    let d = first_kept(&steps.kept);
    let l = front_factors(&steps.factors);
    fill_form_table(
        &steps.table,
        &mut front.p,
        normal.columns - BASELINE_COLUMNS,
    );
    front.h = h;
    front.d = d;
    front.l = l;
    Ok(())
}

/// Writes the front of a normal matrix over another of as many columns, with the steps in these tables. It is that of `front`,
/// and is refused as that is.
pub fn refill_front(
    normal: &Normal,
    steps: &mut BaselineSteps,
    front: &mut FrontForm,
) -> Result<(), LowerFault>
    requires clean { IsClean normal.now.columns steps.old }
    requires columns { front.old.columns ≡ normal.now.columns }
    ensures front { OnOk result (IsFrontOf normal.now front.new) }
    ensures few { OnOk result (front.new.h ≤ 77) }
    ensures refused { IfErr result (λ e. (h : ℕ) → IsExponent h (form_of normal.now) →
        IsReportedAs e (front_of h normal.now)) }
    ensures clean { IsClean normal.now.columns steps.new }
    ensures columns { front.new.columns ≡ normal.now.columns }
{
    let h = exponent(normal);
    if front_by_rows(normal, h, front) {
        front.h = h;
        return Ok(());
    }
    refill_by_columns(normal, steps, front)
}
