use integer_form::{FrontForm, is_form_table};
use quadratic_form::FormTable;

// A form that is given has no factors of the baseline's columns, so its baselines are 0.
#[test]
fn takes_a_given_form(rt: HostRuntime) {
    let mut p = FormTable::zeros();
    p.set(0, 1, 5);
    assert!(rt; !is_form_table(&p, 2));
    p.set(1, 0, 5);
    assert!(rt; !is_form_table(&p, 1));
    assert!(rt; is_form_table(&p, 2));
    let form = FrontForm::of(5, 3, &p);
    assert!(rt; form.columns == 5 && form.h == 3 && form.p.at(0, 1) == 5);
    assert!(rt; form.baseline_of(&[7]) == Ok([0, 0, 0]));
}
