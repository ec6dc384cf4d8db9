//! The second half of an elimination: the steps of the integer columns.
ghost use Rattle.std.specs.Prelude.{◌-◌, IfOk, IfErr};
ghost use Rattle.integer_form.specs.ReportedRefusals.{IsReportedAs};
ghost use Rattle.elimination.specs.Finish.{IsFinishOf, finish_of};

use crate::steps::take_steps;
use crate::tables::{kept_list, put_form};
use integer_form::{Form, FrontForm, LowerFault, put_factors};
use quadratic_form::{BASELINE_COLUMNS, FactorTable, NormalTable};

/// The steps of the integer columns, from the form that the front left.
// Never inlined: these tables would then lie on the stack for as long as its caller runs.
#[inline(never)]
pub fn finish(front: &FrontForm) -> Result<Form, LowerFault>
    ensures finished { IfOk result (λ f. IsFinishOf front.now f) }
    ensures refused { IfErr result (λ e. IsReportedAs e (finish_of front.now)) }
{
    let columns = front.columns;
    let end = columns - 1;
    // Filled where they stand: a table that a call gives is copied.
    let mut table = NormalTable::zeros();
    put_form(&front.p, &mut table, columns - BASELINE_COLUMNS);
    let mut l = FactorTable::zeros();
    put_factors(&front.l, &mut l);
    let mut d = kept_list(&front.d);
    match take_steps(&mut table, &mut l, &mut d, BASELINE_COLUMNS, end, columns) {
        Ok(()) => Ok(Form {
            columns,
            h: front.h,
            d,
            l,
            g: table.at(end, end) as i64,
            p: front.p,
        }),
        Err(stopped) => Err(stopped.fault()),
    }
}
