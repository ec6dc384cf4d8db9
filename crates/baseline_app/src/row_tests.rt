//! Runs on texts that are written out, each with what it ends with. The expected texts are worked out by hand or come from an
//! independent model.
use crate::file_rows::{OBSERVATION_ROWS, ORBIT_ROWS, REFUSED_ROWS};
use crate::rows::{Row, first_fault};
use crate::text_rows::{CERTIFICATE_ROWS, OLD_ROWS, SIMULATED_ROWS, USAGE_ROWS, ZERO_ROWS};
use std::alloc::Global;

// The first row whose run ends otherwise, by its table and its place there.
fn first_fault_of(alloc: Global, tables: &[&[Row]]) -> Option<(usize, usize)> {
    for (table, rows) in tables.iter().enumerate() {
        if let Some(row) = first_fault(alloc, *rows) {
            return Some((table, row));
        }
    }
    None
}

#[test]
fn rows_end_as_they_say(rt: HostRuntime) {
    let tables = [
        OBSERVATION_ROWS.as_slice(),
        &REFUSED_ROWS,
        &ORBIT_ROWS,
        &ZERO_ROWS,
        &CERTIFICATE_ROWS,
        &OLD_ROWS,
        &USAGE_ROWS,
        &SIMULATED_ROWS,
    ];
    assert_eq!(rt; first_fault_of(rt.alloc(), &tables), None);
}
