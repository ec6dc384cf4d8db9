//! The residuals of a certificate's rows.
ghost use Rattle.std.specs.Prelude.{◌≡◌, ◌≤◌, ◌<◌, ◌^◌, ◌*◌, ◌++◌, ◌+◌, pos, ◌+ℤ◌, ◌-ℤ◌, ◌*ℤ◌, map, length, All, unsigned_abs, codes, true, false, OnOk, IfOk};
ghost use Rattle.whole_math.specs.Vectors.{sum};
ghost use Rattle.obs_rows.specs.Ranges.{IsBelow};
ghost use Rattle.obs_rows.specs.Signals.{fine_signals};
ghost use Rattle.obs_rows.specs.Integers.{integer_count};
ghost use Rattle.obs_rows.specs.Pairs.{HasItsArcs};
ghost use Rattle.int_search.specs.Vectors.{IsSmall};
ghost use Rattle.fix_decide.specs.UpperSums.{centre};
ghost use Rattle.fix_decide.specs.Decisions.{first_of};
ghost use Rattle.cert_words.specs.Spelling.{behind_blanks};
ghost use Rattle.report_text.specs.Residuals.{CanShow, micrometres, residual, residuals, row_line, rows_text, session_text, has_vectors, residuals_text};

use arrayvec::ArrayVec;
use cert_data::{Cert, Tail, TwoBest};
use cert_words::push_number;
use fix_decide::centre_of;
use obs_rows::{
    Arc, LIGHT_SPEED, PairRows, ROW_EXPONENT, Row, SIGNALS, Session, UNIT_FREQUENCY, fine_signals,
};
use std::alloc::{AllocError, Global};
use whole_math::{nearest, product};

/// This number of micrometres ..
const MICROMETRES: i128 = (10 * LIGHT_SPEED) as i128;

/// .. is this number of units of a row.
const ROW_UNITS: i128 = (UNIT_FREQUENCY / 100_000 * (1 << ROW_EXPONENT)) as i128;

// A length in the unit of the rows, times a number, over a count, in micrometres.
fn micrometres(times: i128, count: usize) -> i128
    requires times { unsigned_abs times ≤ 2 ^ 62 }
    requires some { 1 ≤ count }
    requires few { count ≤ 15 }
    ensures { result ≡ micrometres times count }
{
    nearest(times * MICROMETRES, count as i128 * ROW_UNITS)
}

fn with_centre(sum: i128, more: i64) -> i128
    requires sum { unsigned_abs sum ≤ 14 * 2 ^ 57 }
    requires more { unsigned_abs more ≤ 2 ^ 57 }
    ensures value { result ≡ sum +ℤ more }
    ensures size { unsigned_abs result ≤ unsigned_abs sum + 2 ^ 57 }
{
    sum + more as i128
}

// How far a row's own number lies from the mean of its pair, times the count: n · own - all.
fn scaled_deviation(count: usize, own: i64, all: i128) -> i128
    requires count { count ≤ 15 }
    requires own { unsigned_abs own ≤ 2 ^ 57 }
    requires all { unsigned_abs all ≤ 15 * 2 ^ 57 }
    ensures value { result ≡ (pos count *ℤ own) -ℤ all }
    ensures size { unsigned_abs result ≤ 2 ^ 62 }
{
    product::<4, 57>(count as i64, own) - all
}

// The sum over the rows of a pair, as a signal sees them.
fn sum_of(
    arcs: &[Arc],
    signals: &[usize],
    z: &[i64],
    moved: &[i64; 3],
    rows: &[Row],
    signal: usize,
) -> i128
    requires shown { CanShow arcs.now signals.now z.now moved.now }
    requires arcs { All (λ r. r.arc < length arcs.now) rows.now }
    requires few { length rows.now ≤ 15 }
    requires signal { signal < SIGNALS }
    ensures value { result
        ≡ sum (map (centre arcs.now signals.now z.now moved.now signal) rows.now) }
    ensures size { unsigned_abs result ≤ 15 * 2 ^ 57 }
{
    let mut sum: i128 = 0;
    for row in rows {
        sum = with_centre(sum, centre_of(arcs, signals, z, moved, row, signal));
    }
    sum
}

// How far a row's observation lies from the mean of its pair.
fn residual_of(
    arcs: &[Arc],
    signals: &[usize],
    z: &[i64],
    moved: &[i64; 3],
    rows: &[Row],
    row: &Row,
    signal: usize,
) -> i128
    requires shown { CanShow arcs.now signals.now z.now moved.now }
    requires arcs { All (λ r. r.arc < length arcs.now) rows.now }
    requires arc { row.now.arc < length arcs.now }
    requires some { 1 ≤ length rows.now }
    requires few { length rows.now ≤ 15 }
    requires signal { signal < SIGNALS }
    ensures { result ≡ residual arcs.now signals.now z.now moved.now rows.now row.now signal }
{
    let all = sum_of(arcs, signals, z, moved, rows, signal);
    let own = centre_of(arcs, signals, z, moved, row, signal);
    micrometres(scaled_deviation(rows.len(), own, all), rows.len())
}

// Each number after one blank.
fn push_each(out: &mut Vec<u8>, numbers: &[i128]) -> Result<(), AllocError>
    ensures { OnOk result (out.new.items ≡ out.old.items ++ behind_blanks numbers.now) }
{
    for number in numbers {
        push_number(out, *number)?;
    }
    Ok(())
}

// The line of a row.
fn write_row(
    alloc: Global,
    out: &mut Vec<u8>,
    number: u32,
    arc: u16,
    all: &[i128],
) -> Result<(), AllocError>
    ensures { OnOk result (out.new.items ≡ out.old.items ++ row_line number arc all.now) }
{
    let head = format!(in alloc; "{number} {arc}")?;
    out.extend_from_slice(head.as_bytes())?;
    push_each(out, all)?;
    out.push(b'\n')?;
    Ok(())
}

// The residuals of a row.
fn residuals_of(
    arcs: &[Arc],
    signals: &[usize],
    z: &[i64],
    moved: &[i64; 3],
    rows: &[Row],
    row: &Row,
) -> ArrayVec<i128, SIGNALS>
    requires shown { CanShow arcs.now signals.now z.now moved.now }
    requires arcs { All (λ r. r.arc < length arcs.now) rows.now }
    requires arc { row.now.arc < length arcs.now }
    requires some { 1 ≤ length rows.now }
    requires few { length rows.now ≤ 15 }
    ensures { result.items ≡ residuals arcs.now signals.now z.now moved.now rows.now row.now }
{
    let mut all = ArrayVec::new();
    for signal in signals {
        all.push(residual_of(arcs, signals, z, moved, rows, row, *signal));
    }
    all
}

// The rows of a pair.
fn write_rows(
    alloc: Global,
    out: &mut Vec<u8>,
    arcs: &[Arc],
    signals: &[usize],
    z: &[i64],
    moved: &[i64; 3],
    pair: &PairRows,
) -> Result<(), AllocError>
    requires shown { CanShow arcs.now signals.now z.now moved.now }
    requires arcs { HasItsArcs arcs.now pair.now }
    ensures { OnOk result (out.new.items ≡ out.old.items ++ rows_text arcs.now signals.now z.now
        moved.now pair.now.number pair.now.rows pair.now.rows) }
{
    let rows = pair.rows.as_slice();
    for row in rows {
        let all = residuals_of(arcs, signals, z, moved, rows, row);
        write_row(alloc, out, pair.number, row.arc, all.as_slice())?;
    }
    Ok(())
}

// The rows of all pairs.
fn write_session(
    alloc: Global,
    out: &mut Vec<u8>,
    session: &Session,
    z: &[i64],
    moved: &[i64; 3],
) -> Result<(), AllocError>
    requires { CanShow session.now.arcs (fine_signals session.now.signals) z.now moved.now }
    ensures { OnOk result
        (out.new.items ≡ out.old.items ++ session_text session.now z.now moved.now) }
{
    let arcs = session.arcs.as_slice();
    let signals = fine_signals(session.signals);
    for pair in session.pairs.as_slice() {
        write_rows(alloc, out, arcs, signals, z, moved, pair)?;
    }
    Ok(())
}

// Shows the rows at the first integers with this move.
fn write_shown(
    alloc: Global,
    out: &mut Vec<u8>,
    session: &Session,
    best: &TwoBest,
    moved: &[i64; 3],
) -> Result<bool, AllocError>
    requires size { best.now.size
        ≡ integer_count session.now.arcs (fine_signals session.now.signals) }
    requires small { IsSmall best.now.first }
    requires moved { All (IsBelow (2 ^ 46)) moved.now }
    ensures text { OnOk result
        (out.new.items ≡ out.old.items ++ session_text session.now (first_of best.now) moved.now) }
    ensures shown { IfOk result (λ shown. shown ≡ true) }
{
    write_session(alloc, out, session, &best.first[..best.size], moved)?;
    Ok(true)
}

fn write_nothing(out: &mut Vec<u8>) -> Result<bool, AllocError>
    ensures text { OnOk result (out.new.items ≡ out.old.items ++ codes "nothing to show\n") }
    ensures shown { IfOk result (λ shown. shown ≡ false) }
{
    out.extend_from_slice(b"nothing to show\n")?;
    Ok(false)
}

/// Appends a line for each row of a certificate: its pair's number, its arc, and how far each of its observations lies
/// from the mean of its pair, at the tail's first integers with its move, in micrometres. Where the tail has no
/// vectors, it appends that there is nothing to show, and answers that.
pub fn write_residuals(alloc: Global, out: &mut Vec<u8>, cert: &Cert) -> Result<bool, AllocError>
    ensures text { OnOk result (out.new.items ≡ out.old.items ++ residuals_text cert.now) }
    ensures shown { IfOk result (λ shown. shown ≡ has_vectors cert.now.tail) }
{
    match &cert.tail {
        Tail::Fixed { moved, best, .. } => write_shown(alloc, out, &cert.session, best, moved),
        Tail::Unseparated { moved, best, .. } => {
            write_shown(alloc, out, &cert.session, best, moved)
        }
        Tail::Weak { .. } => write_nothing(out),
        Tail::Overwidth { .. } => write_nothing(out),
        Tail::Unsettled { .. } => write_nothing(out),
        Tail::Spent { .. } => write_nothing(out),
    }
}
