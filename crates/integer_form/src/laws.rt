//! Laws of every integer form, for the crates above. The bodies are empty.
ghost use Rattle.integer_form.specs.Forms.{LowerSumsBelow, LastEntryBelow};

use crate::Form;

/// The lower sum of any integers, 2^60 g + Σ d C² over the integer columns, is at most 2^60 times the value there, and
/// no value is below g.
pub fn lower_sum_law(form: &Form)
    ensures sums { LowerSumsBelow form.now }
    ensures last { LastEntryBelow form.now }
{}
