//! Arcs, rows and pairs that were read, moved into the types of the first version.
ghost use Rattle.std.specs.Prelude.{◌≡◌, ◌^◌, ◌<◌, All, map, unsigned_abs, IfOk};
ghost use Rattle.std.specs.List.{AllZip};
ghost use Rattle.cert_migrate.specs.Carriers.{old_arc, IsRowOf, IsPairOf};

use crate::{OldArc, OldPair, OldRow};
use obs_rows::{Arc, Items, PairRows, Row};
use std::alloc::{AllocError, Global};

fn old_arc(arc: &Arc) -> OldArc
    ensures { result ≡ old_arc arc.now }
{
    OldArc {
        sat: arc.sat,
        first: arc.first,
        last: arc.last,
        datum: arc.datum,
        shift: [arc.shift[0], arc.shift[1]],
    }
}

/// The arcs without their shifts on L5, which they haven't got.
pub(crate) fn old_arcs(alloc: Global, arcs: &[Arc]) -> Result<Vec<OldArc>, AllocError>
    ensures { IfOk result (λ old. old.items ≡ map old_arc arcs.now) }
{
    arcs.iter().map(|arc| old_arc(arc)).collect(alloc)
}

fn old_row(row: &Row) -> OldRow
    ensures { IsRowOf row.now result }
{
    OldRow {
        arc: row.arc,
        y: [row.y[0], row.y[1], row.y[2], row.y[3]],
        ry: row.ry,
        u: row.u,
        ru: row.ru,
    }
}

fn old_rows(alloc: Global, rows: &[Row]) -> Result<Vec<OldRow>, AllocError>
    ensures { IfOk result (λ old. AllZip IsRowOf rows.now old.items) }
{
    let mut old = Vec::with_capacity(alloc, rows.len())?;
    for row in rows {
        old.push(old_row(row))?;
    }
    Ok(old)
}

fn old_pair(alloc: Global, pair: &PairRows) -> Result<OldPair, AllocError>
    requires { unsigned_abs pair.now.group < 2 ^ 50 }
    ensures { IfOk result (IsPairOf pair.now) }
{
    let rows = old_rows(alloc, pair.rows.as_slice())?;
    Ok(OldPair {
        number: pair.number,
        tag: pair.tag,
        group: pair.group,
        rows: Items::new(rows),
    })
}

/// The pairs with their rows, without the observations on L5.
pub(crate) fn old_pairs(alloc: Global, pairs: &[PairRows]) -> Result<Vec<OldPair>, AllocError>
    requires { All (λ p. unsigned_abs p.group < 2 ^ 50) pairs.now }
    ensures { IfOk result (λ old. AllZip IsPairOf pairs.now old.items) }
{
    let mut old = Vec::with_capacity(alloc, pairs.len())?;
    for pair in pairs {
        old.push(old_pair(alloc, pair)?)?;
    }
    Ok(old)
}
