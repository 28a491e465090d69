// A whole row written at once, and cells cleared from a place on.
ghost use Rattle.std.specs.Prelude.{◌≡◌, ◌≤◌, ◌+◌, ◌++◌, ◌*◌, ◌-◌, length, replicate, take};
ghost use Rattle.cells.specs.Rows.{row_width, put_row};

// All eight cells of a row that is there.
fn store_whole(cells: &mut [u64], i: usize, row: [u64; crate::ROW_CELLS])
    requires { i * row_width + row_width ≤ length cells.old }
    ensures { cells.new ≡ put_row cells.old i row }
{
    for (f, &v) in row.iter().enumerate() {
        cells[i * crate::ROW_CELLS + f] = v;
    }
}

// Those of a row's eight cells that are there.
fn store_cut(cells: &mut [u64], i: usize, row: [u64; crate::ROW_CELLS])
    ensures { cells.new ≡ put_row cells.old i row }
{
    for (f, &v) in row.iter().enumerate() {
        crate::row_put(cells, i, f, v);
    }
}

// All eight cells of row i: one test for a row that is there.
#[inline(always)]
pub fn row_store(cells: &mut [u64], i: usize, row: [u64; crate::ROW_CELLS])
    ensures { cells.new ≡ put_row cells.old i row }
{
    if i < cells.len() / crate::ROW_CELLS {
        store_whole(cells, i, row);
    } else {
        store_cut(cells, i, row);
    }
}

// Zero in every cell from the place on.
pub fn clear_from(cells: &mut [u64], from: usize)
    ensures { cells.new ≡ take from cells.old ++ replicate (length cells.old - from) 0 }
{
    if from < cells.len() {
        cells[from..].fill(0);
    }
}
