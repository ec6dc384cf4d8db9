//! The laws of the search.
ghost use Rattle.std.specs.Prelude.{◌≡◌, ℕ, ◌+◌, ◌≤◌, List, length, ℤ, Result};
ghost use Rattle.quadratic_form.specs.Rows.{value};
ghost use Rattle.quadratic_form.specs.Maps.{apply};
ghost use Rattle.quadratic_form.specs.Matrices.{IsSymmetric};
ghost use Rattle.integer_form.specs.Kept.{form_of_table};
ghost use Rattle.decorrelate.specs.Inverses.{block};
ghost use Rattle.integer_form.specs.declared.form.Form.{Form};
ghost use Rattle.int_search.specs.Transformed.{transformed_form};
ghost use Rattle.int_search.specs.ReducedCounts.{HasAnswer, IsSearchEnd};
ghost use Rattle.int_search.specs.SameEnds.{IsSameEnd};
ghost use Rattle.int_search.specs.declared.answer.TwoBest.{TwoBest};
ghost use Rattle.int_search.specs.declared.answer.SearchFault.{SearchFault};

/// The form in the coordinates of a map has at each vector the value that the form has at the vector's image.
pub fn value_law()
    ensures { (n : ℕ) (map p : List (List ℤ)) (z : List ℤ) → IsSymmetric p → length z ≡ n →
        value (transformed_form n map p) z
        ≡ value (form_of_table p (n + 1)) (apply (block n map) z) }
{}

/// A greater budget never loses an answer.
pub fn more_visits_law()
    ensures { (f : Form) (n m : ℕ) → n ≤ m → HasAnswer f n → HasAnswer f m }
{}

/// A form has one end with each budget: an answer, or one fault.
pub fn one_end_law()
    ensures { (f : Form) (n : ℕ) (r s : Result TwoBest SearchFault) → IsSearchEnd f n r →
        IsSearchEnd f n s → IsSameEnd r s }
{}
