// The lot report: a line of figures for each title of a lot, and the totals.
//
// The lot is a file, named by the only argument, or standard input. A line of it is a title: the paths of its object files and of its archives, in their
// order, divided by blanks or tabs. `entry=NAME` among them names the entry symbol, else `_start`; `profile=gabi` or `profile=old` the profile, else the
// old one. Its objects are merged, then the members that one walk over all its archives offers and admission lets in; then what isn't reached from the
// entry symbol and the other roots is dropped. Blank lines have no number.
// What can't be read or is refused is told on standard error, and the status is 1; the title's figures are those of its link as it stands then.
#![tactic(auto)]

mod line;
mod title;
mod words;

use link::Refusal;
use lot_report::{Figures, Report};
use std::io::{self, BufWriter, Read, Write};
use std::process::ExitCode;
use std::rt::Env;
use std::{fmt, fs};
use title::TitleLink;

// The values of a line, a blank before each.
#[derive(Drop)]
struct Values(Figures);

impl fmt::Display for Values {
    fn fmt<W: fmt::Write>(&self, f: &mut fmt::Formatter<W>) -> fmt::Result {
        for value in self.0.0 {
            write!(f, " {value}")?;
        }
        Ok(())
    }
}

fn read_lot(rt: &HostRuntime) -> io::Result<String> {
    let mut argument = [0u8; 4096];
    let length = rt.arg(1, &mut argument).unwrap_or(0);
    if length > 0 {
        let path = str::from_utf8(&argument[..length.min(4096)]).unwrap_or("");
        return fs::read_to_string(rt, path);
    }
    let mut lot = String::new(rt.alloc());
    rt.stdin().read_to_string(&mut lot)?;
    Ok(lot)
}

// A title that the report refuses is told too, and has no line of figures; the next one gets its number.
fn print_title(
    rt: &HostRuntime,
    out: &mut impl Write,
    report: &Report,
    added: Result<Figures, Refusal>,
) -> io::Result<()> {
    match added {
        Ok(figures) => writeln!(out, "{}{}", report.titles, Values(figures)),
        Err(refusal) => {
            let Refusal { number, place } = refusal;
            let title = report.titles.saturating_add(1);
            let words = words::report_cause(number);
            let _ = eprintln!(rt;
                "lot_sheet: title {title}: report: {words} (refusal {number}, place {place})"
            );
            writeln!(out, "refused {title} {number}")
        }
    }
}

fn main(rt: HostRuntime) -> io::Result<ExitCode> {
    let lot = read_lot(&rt)?;
    let mut out = BufWriter::new(rt.alloc(), io::writer(&rt))?;
    let mut report = Report::new();
    let mut linked = TitleLink::new(rt.alloc())?;
    let mut whole = true;
    writeln!(
        out,
        "title null abs sec rel undef com other offered passes kept dropped keptbytes droppedbytes"
    )?;
    for line in lot.lines() {
        if line.trim().is_empty() {
            continue;
        }
        if let Err(fault) = linked.link_title(&rt, line) {
            let _ = eprintln!(rt;
                "lot_sheet: title {}: {fault}",
                report.titles.saturating_add(1)
            );
            whole = false;
        }
        let added = report.add_title(linked.title());
        whole = whole && added.is_ok();
        print_title(&rt, &mut out, &report, added)?;
    }
    writeln!(out, "total{}", Values(report.totals))?;
    out.flush()?;
    Ok(if whole {
        ExitCode::SUCCESS
    } else {
        ExitCode::FAILURE
    })
}
