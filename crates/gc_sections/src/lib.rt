// Section collection: what no relocation reaches from the roots is dropped, and its symbols are removed.
#![tactic(auto)]

ghost use Rattle.std.specs.Prelude.{◌≡◌, IfOk};
ghost use Rattle.link.specs.Judge.{judged};
ghost use Rattle.gc_sections.specs.Run.{judge_cells, judge_of, lent_of, lists_in, outcome_after};
ghost use Rattle.gc_sections.specs.Contract.{run_exit, RunMeets};

mod graph;
mod reach;
mod sweep;

pub use graph::{Graph, is_root, lead_of};
use link::{Cause, Lent, Link, Refusal, SectionId, SymbolId};
pub use reach::{REACHED, UNREACHED, clear, end_of, lower};

// How many sections were dropped, and how many symbols removed with them.
#[derive(Clone, Copy)]
pub struct Dropped {
    pub sections: usize,
    pub symbols: usize,
}

// Kept: a collection leaves the link as it was, yet gives it back beside the answer, as the other calls do, and the promise reads it; a type for
// each call, as the laws read its own.
#[derive(Clone, Copy)]
pub struct Outcome {
    pub link: Link,
    pub answer: Result<Dropped, Refusal>,
}

// What a collection is lent to read alone. Marks: a byte for each symbol, nonzero a root.
#[derive(Clone, Copy)]
pub struct Read<'a> {
    pub bytes: &'a [u8],
    pub names: &'a [u64],
    pub lists: &'a [u64],
    pub marks: &'a [u8],
}

// The tables of a link that it writes.
// Kept: that the loans stay is said by each call, since no field's type says which memory it lends.
#[derive(Drop)]
pub struct Tables<'a> {
    pub link: Link,
    pub symbols: &'a mut [u64],
    pub sections: &'a mut [u64],
}

// The work cells of a section: its mark, and one of the queue's.
const WORK_WIDTH: usize = 2;

#[tactic(auto, unfolding(crate::specs::Run::judge_cells, link::specs::Judge::judged))]
fn judge_cells(link: Link, marks: usize, work: usize) -> Result<(), Refusal>
    ensures { result ≡ judged (judge_cells link marks work) }
{
    if marks < link.symbols {
        return Err(Refusal::new(Cause::OutOfRange, marks));
    }
    if work / WORK_WIDTH < link.sections {
        return Err(Refusal::new(Cause::NoRoom, 0));
    }
    Ok(())
}

// The head of a collection of a link, of which so much is lent: 22, 1, 2.
pub fn judge(link: Link, lent: Lent, marks: usize, work: usize) -> Result<(), Refusal>
    ensures { result ≡ judged (judge_of link lent marks work) }
{
    link.judge_change(lent)?;
    judge_cells(link, marks, work)
}

// What is lent of a link, in slices of that many bytes and cells.
// Kept: lengths one by one, since the slices are of two structs.
pub fn lent_of(bytes: usize, names: usize, symbols: usize, sections: usize, lists: usize) -> Lent
    ensures { result ≡ lent_of bytes names symbols sections lists }
{
    Lent {
        names: link::name_rows(names),
        bytes,
        symbols,
        sections: link::section_slots(sections),
        inputs: link::NOT_LENT,
        lists,
    }
}

impl Tables<'_> {
    ghost use Rattle.gc_sections.specs.Tables.{Keeps, Shows, head_of, left_in, judged_in, run_in};

    // The head with that many work cells: 22, 1, 2.
    pub fn check(&self, read: Read<'_>, work: usize) -> Result<(), Refusal>
        ensures { result ≡ judged (judged_in self.now read.entry work) }
    {
        let lent = lent_of(
            read.bytes.len(),
            read.names.len(),
            self.symbols.len(),
            self.sections.len(),
            read.lists.len(),
        );
        judge(self.link, lent, read.marks.len(), work)
    }

    // The rows as a collection reads them, if it passes its head.
    pub fn judge<'b>(&'b self, read: Read<'b>, work: usize) -> Result<Graph<'b>, Refusal>
        ensures head { head_of result ≡ judged (judged_in self.now read.entry work) }
        ensures graph { IfOk result (Shows self.now read.entry) }
    {
        self.check(read, work)?;
        Ok(Graph {
            link: self.link,
            bytes: read.bytes,
            names: read.names,
            symbols: self.symbols,
            sections: self.sections,
            lists: read.lists,
            marks: read.marks,
        })
    }

    // Refused with 21 at the lowest section that is reached but not built. After a call that isn't refused the work cell of a section is 2 if this
    // call dropped it, 1 if it is kept, 0 if it wasn't built.
    pub fn collect(
        &mut self,
        read: Read<'_>,
        entry: Option<SymbolId>,
        work: &mut [u64],
    ) -> Result<Dropped, Refusal>
        ensures keeps { Keeps self.old self.new }
        ensures left { left_in self.new work.new result ≡ run_in self.old read.entry entry work.old }
    {
        let graph = self.judge(read, work.len())?;
        let unbuilt = reach::walk(&graph, entry, work);
        self.finish(work, unbuilt)
    }
}

// As `Tables::collect`.
// Kept: slices one by one, as the exported call (hidvorn) has them; beside plain_collector's, since each collector's own promise stands at its
// own call.
pub fn run(
    l: Link,
    bytes: &[u8],
    names: &[u64],
    symbols: &mut [u64],
    sections: &mut [u64],
    lists: &[u64],
    marks: &[u8],
    entry: Option<SymbolId>,
    work: &mut [u64],
) -> Outcome
    ensures { RunMeets l (lists_in bytes names lists marks) symbols.old sections.old entry work.old (run_exit symbols sections work result) }
{
    let read = Read {
        bytes,
        names,
        lists,
        marks,
    };
    let mut tables = Tables {
        link: l,
        symbols,
        sections,
    };
    let answer = tables.collect(read, entry, work);
    Outcome { link: l, answer }
}
