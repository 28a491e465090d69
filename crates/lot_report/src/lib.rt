// The figures of a title, over its link and its walk, and the sums over the titles of a lot.
#![tactic(auto)]

ghost use Rattle.std.specs.Prelude.{◌≡◌, ◌≤◌, ◌+◌, replicate};
ghost use Rattle.link.specs.Judge.{judged, judge_of};
ghost use Rattle.lot_report.specs.Count.{checked, count_below, sum_below};
ghost use Rattle.lot_report.specs.Figures.{column_of, is_listed, is_in_state, size_in, figures_of, plus_of};
ghost use Rattle.lot_report.specs.Report.{title_read, line_of, lent_in, report_of, added, add_title_of};

use archive_walk::Walk;
use link::{Cause, Lent, Link, Refusal};

// ---- a figure's place on the sheet

pub const NULL: usize = 0;

pub const ABSOLUTE: usize = 1;

pub const SECTION: usize = 2;

pub const RELATIVE: usize = 3;

pub const UNDEFINED: usize = 4;

pub const COMMON: usize = 5;

pub const OTHER: usize = 6;

pub const OFFERED: usize = 7;

pub const PASSES: usize = 8;

pub const KEPT: usize = 9;

pub const DROPPED: usize = 10;

pub const KEPT_BYTES: usize = 11;

pub const DROPPED_BYTES: usize = 12;

pub const FIGURES: usize = 13;

pub const MOST_TITLES: u64 = 1000;

/// A line of the sheet, or the sums of lines.
// Kept: an array with a place for each figure and no struct of thirteen fields, since they are added alike and are cells to a caller in C.
#[derive(Clone, Copy)]
pub struct Figures(pub [u64; FIGURES]);

/// A link as it stands, and its walk.
#[derive(Clone, Copy)]
pub struct Title<'a> {
    pub link: Link,
    pub symbols: &'a [u64],
    pub sections: &'a [u64],
    pub walk: Walk,
}

// ---- counts

// The column of a value's kind, as it is read: any other number is null.
#[tactic(auto, unfolding(crate::specs::Figures::column_of))]
fn column(kind: u64) -> usize
    ensures { result ≡ column_of kind }
{
    match kind {
        symbol::KIND_ABSOLUTE => ABSOLUTE,
        symbol::KIND_SECTION => SECTION,
        symbol::KIND_RELATIVE => RELATIVE,
        symbol::KIND_ADDRESS | symbol::KIND_NOT_LOADED | symbol::KIND_EXTERNAL => OTHER,
        symbol::KIND_UNDEFINED => UNDEFINED,
        symbol::KIND_COMMON => COMMON,
        _ => NULL,
    }
}

#[tactic(auto, unfolding(crate::specs::Count::checked))]
fn sum(a: u64, b: u64) -> Option<u64>
    ensures { result ≡ checked (a + b) }
{
    a.checked_add(b)
}

// Is row `id` not removed, and its value of that column?
#[tactic(auto, unfolding(crate::specs::Figures::is_listed))]
fn is_listed(symbols: &[u64], listed: usize, id: usize) -> bool
    ensures { result ≡ is_listed symbols.now listed id }
{
    cells::row_get(symbols, id, symbol::CELL_STATE) != symbol::REMOVED
        && column(cells::row_get(symbols, id, symbol::CELL_KIND)) == listed
}

fn count_listed(symbols: &[u64], rows: usize, listed: usize) -> u64
    ensures value { result ≡ count_below (is_listed symbols.now listed) rows }
    ensures small { result ≤ rows }
{
    let mut count = 0;
    for id in 0..rows {
        if is_listed(symbols, listed, id) {
            count += 1;
        }
    }
    count
}

#[tactic(auto, unfolding(crate::specs::Figures::is_in_state))]
fn is_in_state(sections: &[u64], state: u64, id: usize) -> bool
    ensures { result ≡ is_in_state sections.now state id }
{
    cells::row_get(sections, id, sections::STATE) == state
}

fn count_state(sections: &[u64], rows: usize, state: u64) -> u64
    ensures value { result ≡ count_below (is_in_state sections.now state) rows }
    ensures small { result ≤ rows }
{
    let mut count = 0;
    for id in 0..rows {
        if is_in_state(sections, state, id) {
            count += 1;
        }
    }
    count
}

// None: 2^64 or more.
fn bytes_in_state(sections: &[u64], rows: usize, state: u64) -> Option<u64>
    ensures { result ≡ checked (sum_below (is_in_state sections.now state) (size_in sections.now) rows) }
{
    let mut bytes: u64 = 0;
    for id in 0..rows {
        if is_in_state(sections, state, id) {
            bytes = sum(bytes, cells::row_get(sections, id, sections::SIZE))?;
        }
    }
    Some(bytes)
}

// ---- a line

impl Figures {
    // Figure by figure. None: a sum of 2^64 or more.
    fn plus(self, other: Figures) -> Option<Figures>
        ensures { result ≡ line_of (plus_of self.0 other.0) }
    {
        let mut sums = [0; FIGURES];
        for i in 0..FIGURES {
            sums[i] = sum(self.0[i], other.0[i])?;
        }
        Some(Figures(sums))
    }
}

impl Title<'_> {
    fn judge(self) -> Result<(), Refusal>
        ensures { result ≡ judged (judge_of self.entry.link (lent_in (title_read self.entry))) }
    {
        self.link.judge(Lent {
            names: self.link.chains,
            bytes: link::NOT_LENT,
            symbols: self.symbols.len(),
            sections: link::section_slots(self.sections.len()),
            inputs: link::NOT_LENT,
            lists: link::NOT_LENT,
        })
    }

    fn listed(self, column: usize) -> u64
        ensures { result ≡ count_below (is_listed self.entry.symbols.now column) self.entry.link.symbols }
    {
        count_listed(self.symbols, self.link.symbols, column)
    }

    // None: its sections have 2^64 bytes or more.
    fn figures(self) -> Option<Figures>
        ensures { result ≡ line_of (figures_of (title_read self.entry)) }
    {
        let kept_bytes = bytes_in_state(self.sections, self.link.sections, sections::BUILT)?;
        let dropped_bytes = bytes_in_state(self.sections, self.link.sections, sections::DROPPED)?;
        Some(Figures([
            self.listed(NULL),
            self.listed(ABSOLUTE),
            self.listed(SECTION),
            self.listed(RELATIVE),
            self.listed(UNDEFINED),
            self.listed(COMMON),
            self.listed(OTHER),
            self.walk.offered as u64,
            self.walk.passes as u64,
            count_state(self.sections, self.link.sections, sections::BUILT),
            count_state(self.sections, self.link.sections, sections::DROPPED),
            kept_bytes,
            dropped_bytes,
        ]))
    }
}

// ---- the lot

/// How many titles were added, and the sums of their figures.
#[derive(Clone, Copy)]
pub struct Report {
    pub titles: u64,
    pub totals: Figures,
}

impl Report {
    /// No title yet.
    pub fn new() -> Report
        ensures { result ≡ report_of 0 (record { 0 = replicate 13 0 }) }
    {
        Report {
            titles: 0,
            totals: Figures([0; FIGURES]),
        }
    }

    /// The title's line. 1 where its link has a count above what is lent, 1 at 1,000 for a title more than that, 31 at the titles before it where a
    /// sum is 2^64 or more. A refused title leaves the report as it was.
    pub fn add_title(&mut self, title: Title<'_>) -> Result<Figures, Refusal>
        ensures { added self.new result ≡ add_title_of self.old (title_read title.entry) }
    {
        title.judge()?;
        if self.titles >= MOST_TITLES {
            return Err(Refusal::new(Cause::OutOfRange, MOST_TITLES as usize));
        }
        let too_large = Refusal::new(Cause::SumTooLarge, self.titles as usize);
        let Some(figures) = title.figures() else {
            return Err(too_large);
        };
        let Some(totals) = self.totals.plus(figures) else {
            return Err(too_large);
        };
        self.titles += 1;
        self.totals = totals;
        Ok(figures)
    }
}
