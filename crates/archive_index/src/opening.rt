// Some archives' indexes opened: their entries judged, and a row made for each.
ghost use Rattle.std.specs.Prelude.{◌≡◌, ◌<◌, ◌≤◌, ◌+◌, length};
ghost use Rattle.link.specs.Judge.{judged};
ghost use Rattle.archive_index.specs.Index.{count_of, names_at, cut_of};
ghost use Rattle.archive_index.specs.Archives.{archives_in, entries_in};
ghost use Rattle.archive_index.specs.Rows.{descend, spot_of, entered, enter_of, enter_all, rows_of};
ghost use Rattle.archive_index.specs.Open.{end_fits, is_filled, judge_each, judge_cut, judge_index, judge_from, judge_archives, open_of};
ghost use Rattle.archive_index.specs.Contract.{Answers};

use crate::Archives;
use link::{Cause, Refusal};

// Where the search for an entry's member ends in the tree of members: at the member's representative, or at the empty cell of a child.
// Kept: the tree is places in lent cells and no Box, since the library has no heap and C lends the memory.
#[derive(Clone, Copy)]
pub enum Spot {
    Known { entry: usize },
    Free { parent: usize, field: usize },
}

// ---- what is refused

// The names, of which the first starts at the place: 1 at the first entry whose name is cut short; the index's first is entry `base` of all.
#[tactic(auto, unfolding(crate::specs::Index::cut_of, link::specs::Judge::judged))]
fn judge_names(index: &[u8], entries: usize, start: usize, base: usize) -> Result<(), Refusal>
    requires { base + entries < 0x10000 }
    ensures { result ≡ judged (judge_cut (cut_of index.now start entries 0) entries base) }
{
    let mut at = start;
    for k in 0..entries {
        match crate::after_name(index, at) {
            Some(after) => at = after,
            None => return Err(Refusal::new(Cause::OutOfRange, base + k)),
        }
    }
    Ok(())
}

// An index of which the first entry is entry `base` of all.
#[tactic(auto, unfolding(crate::specs::Open::judge_index, link::specs::Judge::judged))]
fn judge_index(index: &[u8], base: usize) -> Result<(), Refusal>
    requires { base < 0x10000000000 }
    ensures { result ≡ judged (judge_index index.now base) }
{
    let n = index.len();
    if n < crate::WORD_BYTES {
        return Err(Refusal::new(Cause::OutOfRange, base));
    }
    let entries = crate::count(index);
    let whole = (n - crate::WORD_BYTES) / crate::WORD_BYTES;
    if whole < entries {
        return Err(Refusal::new(Cause::OutOfRange, crate::ENTRY_BOUND.min(base + whole)));
    }
    if crate::ENTRY_BOUND < base + entries {
        return Err(Refusal::new(Cause::OutOfRange, crate::ENTRY_BOUND));
    }
    let start = crate::WORD_BYTES + crate::WORD_BYTES * entries;
    judge_names(index, entries, start, base)
}

impl Archives<'_> {
    // Is the end of index j no lower than the one before, and in the slice?
    #[tactic(auto, unfolding(crate::specs::Open::end_fits))]
    fn end_fits(self, j: usize) -> bool
        ensures { result ≡ end_fits (archives_in self.entry) j }
    {
        let end = cells::get(self.ends, j);
        self.start(j) as u64 <= end && end <= self.bytes.len() as u64
    }

    #[tactic(auto, unfolding(crate::specs::Open::is_filled))]
    fn is_filled(self, j: usize) -> bool
        ensures { result ≡ is_filled (archives_in self.entry) j }
    {
        0 < self.index(j).len()
    }

    fn judge_ends(self) -> Result<(), Refusal>
        ensures { result ≡ judged (judge_each (end_fits (archives_in self.entry)) (length self.entry.ends.now) 1) }
    {
        for j in 0..self.ends.len() {
            if !self.end_fits(j) {
                return Err(Refusal::new(Cause::OutOfRange, j));
            }
        }
        Ok(())
    }

    fn judge_filled(self) -> Result<(), Refusal>
        ensures { result ≡ judged (judge_each (is_filled (archives_in self.entry)) (length self.entry.ends.now) 20) }
    {
        for j in 0..self.ends.len() {
            if !self.is_filled(j) {
                return Err(Refusal::new(Cause::NoIndex, j));
            }
        }
        Ok(())
    }

    // Index by index.
    fn judge_contents(self) -> Result<(), Refusal>
        requires { length self.ends.now ≤ 16 }
        ensures { result ≡ judged (judge_from (archives_in self.entry) (length self.entry.ends.now) 0 0) }
    {
        let mut base = 0;
        for j in 0..self.ends.len() {
            let index = self.index(j);
            judge_index(index, base)?;
            base += crate::count(index);
        }
        Ok(())
    }

    // How many entries they have.
    pub fn entries(self) -> usize
        requires { length self.ends.now ≤ 16 }
        ensures { result ≡ entries_in (archives_in self.entry) }
    {
        let mut entries = 0;
        for j in 0..self.ends.len() {
            entries += crate::count(self.index(j));
        }
        entries
    }

    // 1 of the ends; 20; 1 of the contents; 2.
    #[tactic(auto, unfolding(link::specs::Judge::judged))]
    fn judge(self, rows: usize) -> Result<(), Refusal>
        requires { length self.ends.now ≤ 16 }
        ensures { result ≡ judged (judge_archives (archives_in self.entry) rows) }
    {
        self.judge_ends()?;
        self.judge_filled()?;
        self.judge_contents()?;
        if rows < self.entries() {
            return Err(Refusal::new(Cause::NoRoom, 0));
        }
        Ok(())
    }
}

// ---- the rows

// From the first entry down the tree of members: the representative of the member with this key, else the empty cell of a child.
#[tactic(auto, unfolding(crate::specs::Rows::descend))]
fn search(cells: &[u64], key: u64, k: usize) -> Spot
    ensures { result ≡ descend cells.now key k 0 key k }
{
    let mut at = 0;
    let mut rest = key;
    for _step in 0..k {
        if cells::row_get(cells, at, crate::KEY) == key {
            return Spot::Known { entry: at };
        }
        let field = crate::EVEN + rest as usize % 2;
        let child = cells::row_get(cells, at, field) as usize;
        if child == 0 {
            return Spot::Free { parent: at, field };
        }
        at = child - 1;
        rest /= 2;
    }
    Spot::Known { entry: k }
}

// Entry k's: that of the entry before it, where both are of one member.
#[tactic(auto, unfolding(crate::specs::Rows::spot_of))]
fn spot_in(cells: &[u64], k: usize, key: u64) -> Spot
    ensures { result ≡ spot_of cells.now k key }
{
    if k == 0 {
        return Spot::Known { entry: k };
    }
    if cells::row_get(cells, k - 1, crate::KEY) == key {
        let entry = cells::row_get(cells, k - 1, crate::MEMBER) as usize;
        return Spot::Known { entry };
    }
    search(cells, key, k)
}

fn enter_as(cells: &mut [u64], k: usize, spot: Spot, at: usize, len: usize, key: u64)
    requires { k < 0xffffffffffffffff }
    ensures { cells.new ≡ entered cells.old k spot at len key }
{
    let member = match spot {
        Spot::Known { entry } => entry,
        Spot::Free { parent, field } => {
            cells::row_put(cells, parent, field, (k + 1) as u64);
            k
        }
    };
    cells::row_store(
        cells,
        k,
        [0, member as u64, 0, 0, at as u64, len as u64, 0, key],
    );
}

// Entry k, of the member with this key; its name lies at the place.
#[tactic(auto, unfolding(crate::specs::Rows::enter_of))]
fn enter(cells: &mut [u64], k: usize, key: u64, at: usize, len: usize)
    requires { k < 0xffffffffffffffff }
    ensures { cells.new ≡ enter_of cells.old k key at len }
{
    let spot = spot_in(cells, k, key);
    enter_as(cells, k, spot, at, len, key);
}

// The entries of one archive's index, of which the first is entry `base` of all; it begins at the place.
#[tactic(auto, unfolding(crate::specs::Rows::enter_all))]
fn enter_all(cells: &mut [u64], archive: usize, index: &[u8], start: usize, base: usize)
    requires few { archive ≤ 16 }
    requires place { start < 0x8000000000000000 }
    requires count { base < 0x10000000000 }
    ensures { cells.new ≡ enter_all archive index.now start (count_of index.now) base 0 (names_at (count_of index.now)) cells.old }
{
    let entries = crate::count(index);
    let mut at = crate::WORD_BYTES + crate::WORD_BYTES * entries;
    for i in 0..entries {
        let after = crate::after_name(index, at).unwrap_or(0);
        let key = archive as u64 * 0x1_0000_0000 + crate::offset(index, i);
        let len = after.saturating_sub(at).saturating_sub(1);
        enter(cells, base + i, key, start + at, len);
        at = after;
    }
}

fn enter_archives(cells: &mut [u64], archives: Archives<'_>)
    requires { length archives.ends.now ≤ 16 }
    ensures { cells.new ≡ rows_of (archives_in archives.entry) cells.old }
{
    let mut base = 0;
    for j in 0..archives.ends.len() {
        let index = archives.index(j);
        let start = archives.start(j).min(archives.bytes.len());
        enter_all(cells, j, index, start, base);
        base += crate::count(index);
    }
}

// Judges the indexes, and makes a row for each of their entries: 1 of the ends; 20; 1; 2. Nothing is written by a refusal.
pub fn open(archives: Archives<'_>, cells: &mut [u64]) -> Result<usize, Refusal>
    ensures { Answers (open_of (archives_in archives.entry) cells.old) cells.new result }
{
    if crate::ARCHIVE_BOUND < archives.ends.len() {
        return Err(Refusal::new(Cause::OutOfRange, crate::ARCHIVE_BOUND));
    }
    archives.judge(cells.len() / crate::ROW_WIDTH)?;
    enter_archives(cells, archives);
    Ok(archives.entries())
}
