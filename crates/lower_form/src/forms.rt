//! The whole of the elimination.
ghost use Rattle.std.specs.Prelude.{ℕ, ◌≤◌, List, IfOk, IfErr};
ghost use Rattle.quadratic_form.specs.Lowering.{IsExponent};
ghost use Rattle.obs_rows.specs.declared.arcs.Arc.{Arc};
ghost use Rattle.obs_rows.specs.declared.pair_rows.PairRows.{PairRows};
ghost use Rattle.normal_sum.specs.Normals.{IsNormalOf};
ghost use Rattle.normal_sum.specs.Values.{form_of};
ghost use Rattle.integer_form.specs.declared.front_form.FrontForm.{FrontForm};
ghost use Rattle.integer_form.specs.Forms.{columns_of};
ghost use Rattle.integer_form.specs.ReportedRefusals.{IsReportedAs};
ghost use Rattle.elimination.specs.Finish.{IsFinishOf};
ghost use Rattle.lower_form.specs.Fronts.{BoundsAllData};
ghost use Rattle.lower_form.specs.Forms.{IsFrontOf, IsLowerOf, elimination_of};

use crate::baseline_steps::front;
use elimination::finish;
use integer_form::{Form, LowerFault};
use normal_sum::Normal;

/// The integer form of a normal matrix: the finish of its front.
///
/// 64 times the sum of squares of the rows, at any data in their boxes, any integers and any baseline, is at least 2^h
/// times the value of the form at the integers.
pub fn lower(normal: &Normal) -> Result<Form, LowerFault>
    ensures lower { IfOk result (λ f. IsLowerOf normal.now f) }
    ensures halves { IfOk result (λ f. (r : FrontForm)
        × (IsFrontOf normal.now r × IsFinishOf r f)) }
    ensures few { IfOk result (λ f. f.h ≤ 77) }
    ensures refused { IfErr result (λ e. (h : ℕ) → IsExponent h (form_of normal.now) →
        IsReportedAs e (elimination_of h normal.now)) }
    ensures bound { IfOk result (λ f. (arcs : List Arc) (ss : List ℕ) (pairs : List PairRows) →
        IsNormalOf arcs ss pairs normal.now → BoundsAllData arcs ss pairs f.h (columns_of f)) }
{
    let first = front(normal)?;
    finish(&first)
}
