// The walk lent by reference and moved on in place, for a caller with loose slices: the Rust's `PendingArchive::next(&mut self)`; and the walk by value.
// Thin functions over `Walk::next`.
#![tactic(auto)]

ghost use Rattle.std.specs.Prelude.{◌≡◌};
ghost use Rattle.archive_index.specs.Archives.{archives_in, archives_lent};
ghost use Rattle.archive_index.specs.Contract.{same_rows};
ghost use Rattle.archive_walk.specs.Contract.{next_exit, NextMeets};
ghost use Rattle.archive_walk.specs.Lent.{as_table};
ghost use Rattle.archive_walk.specs.Look.{table_in};
ghost use Rattle.archive_walk.specs.Walk.{step_of, next_of};

use archive_index::{Archives, Rows};
use archive_walk::{Offer, Table, Walk};
use link::{Link, Refusal};

// By a refusal the walk stays as it was.
// Kept: slices one by one, as the exported call (hidvorn) has them.
pub fn next(
    walk: &mut Walk,
    index: &[u8],
    ends: &[u64],
    cells: &mut [u64],
    link: Link,
    bytes: &[u8],
    names: &[u64],
    symbols: &[u64],
) -> Result<Offer, Refusal>
    ensures { NextMeets (archives_lent index ends) cells.old walk.old (table_in link bytes names symbols) (next_exit cells (record { walk = walk.new; offer = result })) }
{
    let archives = Archives { bytes: index, ends };
    let mut rows = Rows { archives, cells };
    let table = Table {
        link,
        bytes,
        names,
        symbols,
    };
    walk.next(&mut rows, table)
}

// The same with the walk by value.
pub fn next_by_value(
    walk: Walk,
    rows: &mut Rows<'_>,
    table: Table<'_>,
) -> (Walk, Result<Offer, Refusal>)
    ensures same { same_rows rows.old rows.new }
    ensures step { step_of rows.new.cells.now result.0 result.1 ≡ next_of (archives_in rows.old.archives) rows.old.cells.now walk (as_table table.entry) }
{
    let mut moved = walk;
    let offer = moved.next(rows, table);
    (moved, offer)
}
