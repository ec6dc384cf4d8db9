//! What the sizes are. Definitions cite them by their names, so a slip in one would change a body and its meaning
//! together, and no other contract would see it.
ghost use Rattle.std.specs.Prelude.{◌≡◌, ◌+◌};
ghost use Rattle.quadratic_form.specs.declared.sizes.TheConstants.{BASELINE_COLUMNS, MOST_INTEGERS, MOST_FORM_COLUMNS, MOST_FACTORS, MOST_COLUMNS};

/// The sizes of this project's forms.
pub fn sizes_law()
    ensures baseline { BASELINE_COLUMNS ≡ 3 }
    ensures integers { MOST_INTEGERS ≡ 60 }
    ensures form_columns { MOST_FORM_COLUMNS ≡ MOST_INTEGERS + 1 }
    ensures factors { MOST_FACTORS ≡ BASELINE_COLUMNS + MOST_INTEGERS }
    ensures columns { MOST_COLUMNS ≡ BASELINE_COLUMNS + MOST_INTEGERS + 1 }
{}
