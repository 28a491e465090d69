// How much of each store calls are lent: rows, bytes or cells. `lend SYMBOLS SECTIONS INPUTS NAMES BYTES LISTS WORK IDS` tells it; a word that is
// no number lends all.
ghost use Rattle.std.specs.Prelude.{◌≡◌, ◌≤◌, ◌<◌};
ghost use Rattle.replay_words.specs.Part.{told_of, all_lent, lent_of, cells_of, rows_of, wide_rows_of};

#[derive(Clone, Copy, Debug, PartialEq, Eq)]
pub struct Lend {
    pub symbols: usize,
    pub sections: usize,
    pub inputs: usize,
    pub names: usize,
    pub bytes: usize,
    pub lists: usize,
    pub work: usize,
    pub ids: usize,
}

impl Lend {
    #[tactic(auto, unfolding(crate::specs::Part::told_of))]
    pub fn told(line: &[u8]) -> Lend
        ensures { result ≡ told_of line.now }
    {
        Lend {
            symbols: crate::number(line, 1) as usize,
            sections: crate::number(line, 2) as usize,
            inputs: crate::number(line, 3) as usize,
            names: crate::number(line, 4) as usize,
            bytes: crate::number(line, 5) as usize,
            lists: crate::number(line, 6) as usize,
            work: crate::number(line, 7) as usize,
            ids: crate::number(line, 8) as usize,
        }
    }

    // More than any store has.
    pub fn all() -> Lend
        ensures { result ≡ all_lent }
    {
        let all = usize::MAX;
        Lend {
            symbols: all,
            sections: all,
            inputs: all,
            names: all,
            bytes: all,
            lists: all,
            work: all,
            ids: all,
        }
    }
}

// Of a slice of that length, the cells of so many rows of WIDTH cells.
// Kept: no `min`: where all rows are lent, the cells behind the last whole row are too.
#[tactic(auto, unfolding(crate::specs::Part::lent_of))]
fn lent<const WIDTH: usize>(count: usize, len: usize) -> usize
    requires { 0 < WIDTH }
    ensures upper_bound { result ≤ len }
    ensures exact { result ≡ lent_of WIDTH count len }
{
    if count < len / WIDTH {
        return count * WIDTH;
    }
    len
}

// Of a slice of that length, the cells that are lent.
// Kept: three functions over `lent`: they are public, and a name says more than a width at each call.
#[tactic(auto, unfolding(crate::specs::Part::lent_of, crate::specs::Part::cells_of))]
pub fn cells(count: usize, len: usize) -> usize
    ensures upper_bound { result ≤ len }
    ensures exact { result ≡ cells_of count len }
{
    lent::<1>(count, len)
}

// The same for rows of 8 cells.
#[tactic(auto, unfolding(crate::specs::Part::lent_of, crate::specs::Part::rows_of))]
pub fn rows(count: usize, len: usize) -> usize
    ensures upper_bound { result ≤ len }
    ensures exact { result ≡ rows_of count len }
{
    lent::<8>(count, len)
}

// The same for rows of 8 cells with a cell more for each behind them.
#[tactic(auto, unfolding(crate::specs::Part::lent_of, crate::specs::Part::wide_rows_of))]
pub fn wide_rows(count: usize, len: usize) -> usize
    ensures upper_bound { result ≤ len }
    ensures exact { result ≡ wide_rows_of count len }
{
    lent::<9>(count, len)
}
