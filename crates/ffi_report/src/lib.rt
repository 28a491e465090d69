// A title that is added to a report, for another language: the title's link and the answer lie in a header (ffi_cells). A header of fewer than 24 cells gives
// 1, and nothing is read or written.
#![tactic(auto)]

ghost use Rattle.std.specs.Prelude.{◌≡◌, ◌<◌};
ghost use Rattle.ffi_report.specs.Calls.{put_from, figures_in, report_in, reported, title_in, title_call};
ghost use Rattle.ffi_report.specs.Contract.{title_exit, TitleMeets};

use lot_report::{Figures, Report, Title};

const WALK_CELLS: usize = 7;

// The titles so far and their totals; zeros are a new report.
pub const REPORT_CELLS: usize = 14;

pub const FIGURE_CELLS: usize = lot_report::FIGURES;

#[tactic(auto, unfolding(crate::specs::Calls::figures_in))]
fn figures_in(cells: &[u64]) -> Figures
    ensures { result ≡ figures_in cells.now }
{
    Figures([
        cells::get(cells, 1),
        cells::get(cells, 2),
        cells::get(cells, 3),
        cells::get(cells, 4),
        cells::get(cells, 5),
        cells::get(cells, 6),
        cells::get(cells, 7),
        cells::get(cells, 8),
        cells::get(cells, 9),
        cells::get(cells, 10),
        cells::get(cells, 11),
        cells::get(cells, 12),
        cells::get(cells, 13),
    ])
}

#[tactic(auto, unfolding(crate::specs::Calls::report_in))]
fn report_in(cells: &[u64]) -> Report
    ensures { result ≡ report_in cells.now }
{
    Report {
        titles: cells::get(cells, 0),
        totals: figures_in(cells),
    }
}

fn put_all(cells: &mut [u64], at: usize, figures: Figures)
    requires { at < 0x100 }
    ensures { cells.new ≡ put_from cells.old at figures.0 }
{
    for i in 0..FIGURE_CELLS {
        cells::put(cells, at + i, figures.0[i]);
    }
}

// The report and the title's line, or the refusal; a refused title leaves both.
#[tactic(auto, unfolding(crate::specs::Calls::reported))]
fn put_title(
    header: &mut [u64],
    report: &mut [u64],
    figures: &mut [u64],
    moved: Report,
    line: Figures,
) -> u64
    ensures { title_exit result header report figures ≡ reported header.old report.old figures.old moved line }
{
    cells::put(report, 0, moved.titles);
    put_all(report, 1, moved.totals);
    put_all(figures, 0, line);
    ffi_cells::answer(header, ffi_cells::result(0, 0, 0, 0))
}

// 1 at 0 for a walk of fewer cells than seven, fewer cells of a report than 14 or of figures than 13; then as `Report::add_title`.
// Kept: slices one by one, as C lends them.
#[tactic(auto, unfolding(crate::specs::Calls::title_call, ffi_cells::specs::Header::is_short))]
pub fn report_title(
    header: &mut [u64],
    walk: &[u64],
    symbols: &[u64],
    sections: &[u64],
    report: &mut [u64],
    figures: &mut [u64],
) -> u64
    ensures { TitleMeets header.old walk.now symbols.now sections.now report.old figures.old (title_exit result header report figures) }
{
    if header.len() < ffi_cells::HEADER_CELLS {
        return ffi_cells::SHORT;
    }
    if walk.len() < WALK_CELLS || report.len() < REPORT_CELLS || figures.len() < FIGURE_CELLS {
        return ffi_cells::answer(header, ffi_cells::refusal(1, 0));
    }
    let title = Title {
        link: ffi_cells::link_in(header),
        symbols,
        sections,
        walk: ffi_archive::walk_in(walk),
    };
    let mut moved = report_in(report);
    match moved.add_title(title) {
        Ok(line) => put_title(header, report, figures, moved, line),
        Err(refusal) => ffi_cells::answer(header, ffi_cells::refused(refusal)),
    }
}
