// A collection that a list asks for, and what it answers.
use crate::memory::Memory;
use link::{Interned, Link, SymbolId};
use replay_text::Names;
use replay_words::Lend;
use text::Writer;

// What a collection leaves in the work cell of a section that it dropped.
// Kept: a number of its own, since what a list writes is held against the cells and not against the code that fills them.
const DROPPED: u64 = 2;

fn entry_point(line: &[u8]) -> Option<SymbolId> {
    replay_words::is(line, 1, b"1").then_some(SymbolId(replay_words::number(line, 2) as usize))
}

// The names of the sections that were dropped.
// Kept: five parameters: a struct of them would be made for this call alone.
fn put_dropped(
    out: &mut Writer<'_>,
    names: Names<'_>,
    sections: &[u64],
    work: &[u64],
    count: usize,
) {
    for i in 0..count {
        if cells::get(work, i) == DROPPED {
            out.put(b" ");
            let name = Interned(cells::row_get(sections, i, sections::NAME) as usize);
            replay_text::put_name(out, names, name);
        }
    }
}

impl Memory {
    // `collect HASENTRY ENTRY MARKS`, with what is lent of each store; answers the link afterwards.
    pub(crate) fn collect(
        &mut self,
        link: Link,
        lend: Lend,
        line: &[u8],
        out: &mut Writer<'_>,
    ) -> Link {
        let marks = replay_words::put_bytes(&mut self.marks, 0, text::field(line, 3));
        let names = self.names.lent(lend);
        let lists = replay_words::cells(lend.lists, self.lists.len());
        let symbols = replay_words::rows(lend.symbols, self.symbols.len());
        let sections = replay_words::wide_rows(lend.sections, self.sections.len());
        let work = replay_words::rows(lend.work, self.work.len());
        let outcome = gc_sections::run(
            link,
            names.bytes,
            names.cells,
            &mut self.symbols[..symbols],
            &mut self.sections[..sections],
            &self.lists[..lists],
            cells::part_of(&self.marks, 0, marks),
            entry_point(line),
            &mut self.work[..work],
        );
        match outcome.answer {
            Ok(dropped) => {
                replay_text::put_numbered(out, b"dropped ", dropped.sections as u64);
                let count = outcome.link.sections;
                put_dropped(out, names, &self.sections, &self.work, count);
            }
            Err(refusal) => replay_text::put_refusal(out, refusal),
        }
        outcome.link
    }
}
