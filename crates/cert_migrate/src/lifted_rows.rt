//! Rows and pairs in the present unit.
ghost use Rattle.std.specs.Prelude.{◌≡◌, ◌^◌, IfOk};
ghost use Rattle.std.specs.List.{AllZip};
ghost use Rattle.obs_rows.specs.Ranges.{IsWithin, IsRadius};
ghost use Rattle.cert_migrate.specs.OldRanges.{IsOldRadius};
ghost use Rattle.cert_migrate.specs.Lifted.{lifted_y, lifted_radius, IsLiftedRow, IsLiftedPair};

use crate::{OldPair, OldRow};
use obs_rows::{PairRows, Row, RowList};
use std::alloc::{AllocError, Global};
use whole_math::{ceil, nearest};

/// 2^-18 κ, the old unit of rows, is 23/32 of the present one, 2^-13 ι.
const RATIO: i128 = 23;

const OF: i128 = 32;

fn lifted_y(y: i64) -> i64
    requires { IsWithin (2 ^ 34) y }
    ensures value { result ≡ lifted_y y }
    ensures in_range { IsWithin (2 ^ 34) result }
{
    nearest(RATIO * y as i128, OF) as i64
}

// The box holds 23/32 of all that the old one held; the nearest to the centre may miss it by half a unit.
fn lifted_radius(radius: i64) -> i64
    requires { IsOldRadius radius }
    ensures value { result ≡ lifted_radius radius }
    ensures in_range { IsRadius result }
{
    ceil(RATIO * radius as i128, OF) as i64 + 1
}

fn lifted_row(row: &OldRow) -> Row
    ensures { IsLiftedRow row.now result }
{
    let [y1, y2, c1, c2] = row.y;
    Row {
        arc: row.arc,
        y: [lifted_y(y1), lifted_y(y2), lifted_y(c1), lifted_y(c2), 0, 0],
        ry: lifted_radius(row.ry),
        u: row.u,
        ru: row.ru,
    }
}

fn lifted_rows(alloc: Global, rows: &[OldRow]) -> Result<Vec<Row>, AllocError>
    ensures { IfOk result (λ lifted. AllZip IsLiftedRow rows.now lifted.items) }
{
    let mut lifted = Vec::with_capacity(alloc, rows.len())?;
    for row in rows {
        lifted.push(lifted_row(row))?;
    }
    Ok(lifted)
}

/// A pair with its rows in the present unit.
fn lifted_pair(alloc: Global, pair: &OldPair) -> Result<PairRows, AllocError>
    ensures { IfOk result (IsLiftedPair pair.now) }
{
    let rows = lifted_rows(alloc, pair.rows.as_slice())?;
    Ok(PairRows {
        number: pair.number,
        tag: pair.tag,
        group: 23 * pair.group,
        rows: RowList::new(rows),
    })
}

/// The pairs with their rows in the present unit.
pub(crate) fn lifted_pairs(alloc: Global, pairs: &[OldPair]) -> Result<Vec<PairRows>, AllocError>
    ensures { IfOk result (λ lifted. AllZip IsLiftedPair pairs.now lifted.items) }
{
    let mut lifted = Vec::with_capacity(alloc, pairs.len())?;
    for pair in pairs {
        lifted.push(lifted_pair(alloc, pair)?)?;
    }
    Ok(lifted)
}
