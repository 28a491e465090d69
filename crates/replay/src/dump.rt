// A dump: every row of a link, as the oracle's lists write it.
use link::{Interned, SectionId, SymbolId};
use replay_text::View;
use sections::{COUNT, DROPPED, FIRST, KIND, NAME, READ, RESERVED, RETAIN, STATE};
use std::alloc::{AllocError, Global};
use symbol::{CELL_NAME, NAME_SYMBOL};
use text::Writer;

// Kept: this and the numbers below are of its own, since a dump is held against the cells and not against the code that fills them.
// A name's cell that says whether it is a group's signature.
const NAME_SIGNATURE: usize = 4;

// The cells of an input's row: its kind, its name, and where its dependencies and the names that it records as undefined lie in the lists:
// the first and, in the cell behind it, how many.
const INPUT_KIND: usize = 0;

const INPUT_NAME: usize = 1;

const DEPENDENCIES: usize = 2;

const UNDEFINED: usize = 4;

// The kind of an object; a library's is another.
const OBJECT: u64 = 1;

#[derive(Clone, Copy)]
pub(crate) struct Dump<'a> {
    pub(crate) view: View<'a>,
    pub(crate) inputs: &'a [u64],
    pub(crate) lists: &'a [u64],
}

impl<'a> Dump<'a> {
    pub(crate) fn put(&self, alloc: Global, out: &mut Writer<'_>) -> Result<(), AllocError> {
        self.put_symbols(out);
        self.put_section_symbols(out);
        self.put_globals(out);
        self.put_sections(out);
        self.put_groups(alloc, out)?;
        self.put_inputs(out);
        Ok(())
    }

    // ---- symbols

    fn put_symbols(&self, out: &mut Writer<'_>) {
        let count = self.view.table.link.symbols;
        replay_text::put_numbered(out, b"symbols ", count as u64);
        for i in 0..count {
            out.put(b"\n");
            self.put_symbol(out, i);
        }
    }

    fn put_symbol(&self, out: &mut Writer<'_>, i: usize) {
        match symbols::get(self.view.table, self.view.symbols, SymbolId(i)) {
            Ok(symbol) => replay_text::put_symbol(out, self.view.names, symbol),
            Err(_) => {
                replay_text::put_numbered(out, b"symbol ", i as u64);
                out.put(b" removed");
            }
        }
    }

    // ---- sections' symbols

    fn section_symbol(&self, section: usize) -> Option<SymbolId> {
        symbols::section_symbol_id(self.view.table, self.view.sections, SectionId(section))
    }

    fn put_section_symbols(&self, out: &mut Writer<'_>) {
        let slots = self.view.table.link.slots;
        let found = (0..slots)
            .filter(|&section| self.section_symbol(section).is_some())
            .count();
        replay_text::put_numbered(out, b"\nsectionsymbols ", found as u64);
        for section in 0..slots {
            if let Some(id) = self.section_symbol(section) {
                replay_text::put_numbered(out, b"\nsectionsymbol ", section as u64);
                replay_text::put_numbered(out, b" ", id.0 as u64);
            }
        }
    }

    // ---- global names

    // Is the row, present or removed, its name's global symbol?
    fn is_global(&self, id: usize) -> bool {
        let name = cells::row_get(self.view.symbols, id, CELL_NAME) as usize;
        cells::row_get(self.view.names.cells, name, NAME_SYMBOL) == id as u64
    }

    fn put_globals(&self, out: &mut Writer<'_>) {
        let count = self.view.table.link.symbols;
        let found = (1..count).filter(|&id| self.is_global(id)).count();
        replay_text::put_numbered(out, b"\nglobals ", found as u64);
        for id in 1..count {
            if self.is_global(id) {
                out.put(b"\nglobal ");
                self.put_name_of(out, self.view.symbols, id, CELL_NAME);
                replay_text::put_numbered(out, b" ", id as u64);
            }
        }
    }

    // The name in that cell of a symbol's, a section's or an input's row.
    fn put_name_of(&self, out: &mut Writer<'_>, rows: &[u64], i: usize, cell: usize) {
        let name = Interned(cells::row_get(rows, i, cell) as usize);
        replay_text::put_name(out, self.view.names, name);
    }

    // ---- sections

    fn put_sections(&self, out: &mut Writer<'_>) {
        let count = self.view.table.link.sections;
        replay_text::put_numbered(out, b"\nsections ", count as u64);
        for i in 0..count {
            replay_text::put_numbered(out, b"\nsection ", i as u64);
            self.put_section(out, i);
        }
    }

    fn put_section(&self, out: &mut Writer<'_>, i: usize) {
        match cells::row_get(self.view.sections, i, STATE) {
            RESERVED => out.put(b" reserved"),
            DROPPED => {
                out.put(b" dropped");
                self.put_section_name(out, i);
            }
            _ => {
                out.put(b" built");
                self.put_section_name(out, i);
                self.put_built(out, i);
            }
        }
    }

    // Pieces of their own, since a piece is put whole or not at all where the text ends.
    fn put_section_name(&self, out: &mut Writer<'_>, i: usize) {
        out.put(b" ");
        self.put_name_of(out, self.view.sections, i, NAME);
    }

    // Kind, retain, read and relocations' symbols.
    fn put_built(&self, out: &mut Writer<'_>, i: usize) {
        for cell in [KIND, RETAIN, READ] {
            replay_text::put_numbered(out, b" ", cells::row_get(self.view.sections, i, cell));
        }
        let first = cells::row_get(self.view.sections, i, FIRST) as usize;
        let count = cells::row_get(self.view.sections, i, COUNT) as usize;
        replay_text::put_numbered(out, b" ", count as u64);
        for k in 0..count {
            let id = cells::get(self.lists, first.wrapping_add(k));
            replay_text::put_numbered(out, b" ", id);
        }
    }

    // ---- groups

    // By bytes. Where few bytes of names are lent several may be the same bytes: such a name is put once, and behind the last name `-` and the names
    // again, as long as there are groups.
    fn put_groups(&self, alloc: Global, out: &mut Writer<'_>) -> Result<(), AllocError> {
        let mut signatures: Vec<&'a [u8]> = Vec::new(alloc);
        for id in 0..self.view.table.link.names {
            if cells::row_get(self.view.names.cells, id, NAME_SIGNATURE) == 1 {
                signatures.push(interner::name_of(
                    self.view.names.bytes,
                    self.view.names.cells,
                    Interned(id),
                ))?;
            }
        }
        let groups = signatures.len();
        replay_text::put_numbered(out, b"\ngroups ", groups as u64);
        signatures.sort()?;
        signatures.dedup();
        for k in 0..groups {
            let signature = signatures.get(k % (signatures.len() + 1));
            out.put(b"\ngroup ");
            replay_text::put_shown(out, signature.copied().unwrap_or(b""));
        }
        Ok(())
    }

    // ---- inputs

    fn put_inputs(&self, out: &mut Writer<'_>) {
        let count = self.view.table.link.inputs;
        replay_text::put_numbered(out, b"\ninputs ", count as u64);
        for i in 0..count {
            match cells::row_get(self.inputs, i, INPUT_KIND) {
                OBJECT => out.put(b"\ninput object"),
                _ => self.put_library(out, i),
            }
        }
    }

    // Its name, its dependencies, the names that it records as undefined.
    fn put_library(&self, out: &mut Writer<'_>, i: usize) {
        out.put(b"\ninput library ");
        self.put_name_of(out, self.inputs, i, INPUT_NAME);
        for cell in [DEPENDENCIES, UNDEFINED] {
            let first = cells::row_get(self.inputs, i, cell) as usize;
            let count = cells::row_get(self.inputs, i, cell + 1) as usize;
            self.put_names(out, first, count);
        }
    }

    // A count and the names of that many cells of the lists.
    fn put_names(&self, out: &mut Writer<'_>, first: usize, count: usize) {
        replay_text::put_numbered(out, b" ", count as u64);
        for k in 0..count {
            let name = Interned(cells::get(self.lists, first.wrapping_add(k)) as usize);
            out.put(b" ");
            replay_text::put_name(out, self.view.names, name);
        }
    }
}
