// A link as a list makes it: what the list told, the calls that it asks for, and their answers.
use crate::dump::Dump;
use crate::line::{Input, Operation, Step};
use crate::memory::Memory;
use crate::told::{self, Told};
use archive_index::{Archives, Rows};
use archive_walk::{Offer, Table, Walk};
use link::{Link, Refusal};
use replay_archive::Entries;
use replay_stores::Stores;
use replay_text::{Reply, View};
use std::alloc::{AllocError, Global};
use symbols::Symbols;
use text::Writer;

#[derive(Drop)]
pub(crate) struct State {
    pub(crate) alloc: Global,
    pub(crate) table: Symbols,
    pub(crate) memory: Memory,
    pub(crate) told: Told,
}

impl State {
    // Before the first link there is an empty one, which has no room.
    pub(crate) fn new(alloc: Global) -> Result<Self, AllocError> {
        Ok(State {
            alloc,
            table: Symbols {
                link: Link::no_names(0, 0),
            },
            memory: Memory::new(alloc)?,
            told: Told::new(alloc)?,
        })
    }

    // An operation that is replayed; its answers are put behind the text.
    pub(crate) fn run(
        &mut self,
        operation: Operation,
        line: &[u8],
        out: &mut Writer<'_>,
    ) -> Result<(), AllocError> {
        match operation {
            Operation::Tell(subject) => self.told.tell(subject, line),
            Operation::Change(change) => replay_text::put_reply(out, self.change(change, line)),
            Operation::Take(input) => replay_text::put_reply(out, self.take(input)),
            Operation::Collect => {
                let lend = self.told.lend;
                let link = self.memory.collect(self.table.link, lend, line, out);
                self.table = Symbols { link };
            }
            Operation::Walk(Step::Start) => self.start(out),
            Operation::Walk(Step::Next) => self.next(out),
            Operation::Walk(Step::Admit) => self.admit(out),
            Operation::Look => self.view().look(line, out),
            Operation::Dump => self.dump().put(self.alloc, out)?,
            Operation::Member | Operation::Unknown => {}
        }
        Ok(())
    }

    // A merge or a load.
    fn take(&mut self, input: Input) -> Result<Reply, Refusal> {
        let told = &self.told;
        let mut stores = Stores {
            bytes: &mut self.memory.names.bytes,
            names: &mut self.memory.names.cells,
            symbols: &mut self.memory.symbols,
            sections: &mut self.memory.sections,
            inputs: &mut self.memory.inputs,
            lists: &mut self.memory.lists,
            work: &mut self.memory.work,
            ids: &mut self.memory.ids,
        };
        let changed = match input {
            Input::Object => replay_merge::merge(
                self.table.link,
                told.lend,
                told.object,
                &mut stores,
                &told.cells,
                &told.bytes,
            ),
            Input::Library => replay_load::load(
                self.table.link,
                told.lend,
                told.library,
                &mut stores,
                told.library_cells(),
                told.library_bytes(),
            ),
        };
        self.table = changed.table;
        changed.reply
    }

    // ---- a walk

    fn start(&mut self, out: &mut Writer<'_>) {
        let ends = [self.told.index().len() as u64];
        self.start_over(out, &ends);
    }

    // The index told last, which ends there.
    fn start_over(&mut self, out: &mut Writer<'_>, ends: &[u64]) {
        let length = self.told.archive.length;
        let archives = Archives {
            bytes: cells::part_of(&self.told.bytes, told::INDEX_BYTES, length),
            ends,
        };
        let cells = told::part(&mut self.told.cells, told::WALK_CELLS, told::CELLS);
        let started = Walk::start(0, archives, cells);
        self.told.walk = started.unwrap_or(Walk::none());
        match started {
            Ok(_) => out.put(b"started"),
            Err(refusal) => replay_text::put_refusal(out, refusal),
        }
    }

    fn next(&mut self, out: &mut Writer<'_>) {
        let told = &mut self.told;
        let lend = told.lend;
        let index = cells::part_of(&told.bytes, told::INDEX_BYTES, told.archive.length);
        let names = self.memory.names.lent(lend);
        let symbols = replay_words::rows(lend.symbols, self.memory.symbols.len());
        let ends = [index.len() as u64];
        let archives = Archives {
            bytes: index,
            ends: &ends,
        };
        let mut rows = Rows {
            archives,
            cells: told::part(&mut told.cells, told::WALK_CELLS, told::CELLS),
        };
        let table = Table {
            link: self.table.link,
            bytes: names.bytes,
            names: names.cells,
            symbols: &self.memory.symbols[..symbols],
        };
        let offer = told.walk.next(&mut rows, table);
        let entries = Entries {
            index,
            rows: rows.cells,
            count: told.walk.entries,
        };
        replay_archive::put_offer(out, entries, offer);
        match offer {
            Ok(Offer::Member { entry, .. }) => told.archive.offered = Some(entry),
            Ok(Offer::Done { passes: _ }) => {}
            Err(_) => told.archive.offered = None,
        }
    }

    // Whether the object told last is let in, by the names required of the member offered last.
    fn admit(&self, out: &mut Writer<'_>) {
        let told = &self.told;
        let object = told.object;
        let admission = object_requirement::matches(
            self.table.link,
            object.headers_of(&told.cells),
            object.entries_of(&told.cells),
            object.contents_of(&told.cells),
            cells::part_of(&told.bytes, 0, object.bytes),
            told.walk,
            told.index(),
            told.walk_cells(),
            told.archive.offered.unwrap_or(0),
        );
        match admission {
            Ok(true) => out.put(b"yes"),
            Ok(false) => out.put(b"no"),
            Err(refusal) => replay_text::put_refusal(out, refusal),
        }
    }

    // ---- lookups and dumps

    fn view(&self) -> View<'_> {
        let symbols = replay_words::rows(self.told.lend.symbols, self.memory.symbols.len());
        let sections = replay_words::wide_rows(self.told.lend.sections, self.memory.sections.len());
        View {
            table: self.table,
            names: self.memory.names.lent(self.told.lend),
            symbols: &self.memory.symbols[..symbols],
            sections: &self.memory.sections[..sections],
        }
    }

    fn dump(&self) -> Dump<'_> {
        let lists = replay_words::cells(self.told.lend.lists, self.memory.lists.len());
        Dump {
            view: self.view(),
            inputs: &self.memory.inputs,
            lists: &self.memory.lists[..lists],
        }
    }
}
