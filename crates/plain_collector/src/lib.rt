// A second collector, to compare with: it visits sections by recursion. Its end, 21 or the sweep, is the first's (gc_sections).
#![tactic(auto)]

ghost use Rattle.std.specs.Prelude.{◌≡◌, IfOk};
ghost use Rattle.link.specs.Judge.{judged};
ghost use Rattle.gc_sections.specs.Run.{lists_in};
ghost use Rattle.gc_sections.specs.Contract.{run_exit};
ghost use Rattle.gc_sections.specs.Tables.{Keeps, Shows, head_of, left_in};
ghost use Rattle.plain_collector.specs.Run.{count_built};
ghost use Rattle.plain_collector.specs.Contract.{PlainMeets};
ghost use Rattle.plain_collector.specs.Graph.{first_in, judged_in, plain_in};

mod visit;

use gc_sections::{Dropped, Graph, Outcome, Read, Tables};
use link::{Cause, Link, Refusal, SectionId, SymbolId};

// The most built sections that it takes.
pub const MOST_BUILT: usize = 256;

#[tactic(auto, unfolding(crate::specs::Run::count_built))]
fn count_built(sections: &[u64], n: usize) -> usize
    ensures { result ≡ count_built sections.now n }
{
    let mut count = 0;
    for i in 0..n {
        if sections::is_built(sections, n, SectionId(i)) {
            count += 1;
        }
    }
    count
}

// Of the first collector's refusals 22 and 1 come before 30, 2 after it.
fn comes_first(head: Result<(), Refusal>) -> bool
    ensures { result ≡ first_in head }
{
    head.is_err_and(|refusal| refusal.is(Cause::BrokenLink) || refusal.is(Cause::OutOfRange))
}

// Nothing is counted before the counts are known to be lent. Of the two looks at the head the second gives the rows.
fn judge<'a>(tables: &'a Tables<'_>, read: Read<'a>, work: usize) -> Result<Graph<'a>, Refusal>
    ensures head { head_of result ≡ judged (judged_in tables.now read.entry work) }
    ensures graph { IfOk result (Shows tables.now read.entry) }
{
    let head = tables.check(read, work);
    if !comes_first(head) && MOST_BUILT < count_built(tables.sections, tables.link.sections) {
        return Err(Refusal::new(Cause::TooManySections, 0));
    }
    tables.judge(read, work)
}

// As `gc_sections::Tables::collect`, and refused with 30 where more than 256 sections are built and not dropped. Of the work cells one for each
// section is used; as many are asked as the first collector asks.
pub fn collect(
    tables: &mut Tables<'_>,
    read: Read<'_>,
    entry: Option<SymbolId>,
    work: &mut [u64],
) -> Result<Dropped, Refusal>
    ensures keeps { Keeps tables.old tables.new }
    ensures left { left_in tables.new work.new result ≡ plain_in tables.old read.entry entry work.old }
{
    let graph = judge(tables, read, work.len())?;
    let unbuilt = visit::reach(&graph, entry, work);
    tables.finish(work, unbuilt)
}

// As `collect`.
// Kept: slices one by one, as the exported call (hidvorn) has them; beside gc_sections', since each collector's own promise stands at its own
// call.
pub fn run(
    l: Link,
    bytes: &[u8],
    names: &[u64],
    symbols: &mut [u64],
    sections: &mut [u64],
    lists: &[u64],
    marks: &[u8],
    entry: Option<SymbolId>,
    work: &mut [u64],
) -> Outcome
    ensures { PlainMeets l (lists_in bytes names lists marks) symbols.old sections.old entry work.old (run_exit symbols sections work result) }
{
    let read = Read {
        bytes,
        names,
        lists,
        marks,
    };
    let mut tables = Tables {
        link: l,
        symbols,
        sections,
    };
    let answer = collect(&mut tables, read, entry, work);
    Outcome { link: l, answer }
}
