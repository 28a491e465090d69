// Changes that a list makes directly on a symbol table.
use crate::line::Change;
use crate::state::State;
use interner::NamesMut;
use link::{Interned, Link, Refusal, SectionId, SymbolId};
use replay_text::Reply;
use symbol::SymbolValue;
use symbol_resolution::Table;
use symbols::Symbols;
use text::field;
use upcoming_symbol::{ElfSymbol, UpcomingSymbol};

// ---- the symbol that an add adds

// A sign and a number: the fifth and sixth words.
fn signed(line: &[u8]) -> i64 {
    let n = replay_words::number(line, 6);
    match field(line, 5) {
        b"-" => symbol::offset_of(n.wrapping_neg()),
        _ => symbol::offset_of(n),
    }
}

// The value that words from the third on tell.
fn value(line: &[u8]) -> SymbolValue {
    let number = replay_words::number(line, 4);
    let section = SectionId(number as usize);
    match field(line, 3) {
        b"null" => SymbolValue::Null,
        b"abs" => SymbolValue::Absolute { value: number },
        b"notloaded" => SymbolValue::SectionNotLoaded,
        b"external" => SymbolValue::ExternallyDefined,
        b"undef" => SymbolValue::Undefined { zero: number == 1 },
        b"com" => SymbolValue::Common { alignment: number },
        b"sec" => SymbolValue::Section { section },
        b"rel" => SymbolValue::SectionRelative {
            section,
            offset: signed(line),
        },
        _ => SymbolValue::SectionVirtualAddress {
            section,
            address: replay_words::number(line, 5),
        },
    }
}

fn elf(line: &[u8]) -> ElfSymbol {
    ElfSymbol {
        binding: replay_words::number(line, 3),
        visibility: replay_words::number(line, 5),
        kind: replay_words::number(line, 4),
        section: replay_words::number(line, 6),
        value: replay_words::number(line, 7),
        size: replay_words::optional(line, 10),
    }
}

// The symbol that an add adds, under a name that was issued, in a file whose name was.
fn upcoming(line: &[u8], name: Interned, file: Interned) -> UpcomingSymbol {
    match field(line, 1) {
        b"null" => UpcomingSymbol::Null,
        b"section" => UpcomingSymbol::Section {
            section: SectionId(replay_words::number(line, 2) as usize),
        },
        b"unknown" => UpcomingSymbol::GlobalUnknown { name },
        b"hidden" => UpcomingSymbol::GlobalHidden {
            name,
            value: value(line),
        },
        b"external" => UpcomingSymbol::ExternallyDefined {
            name,
            visibility: replay_words::number(line, 4),
            binding: replay_words::number(line, 3),
        },
        _ => UpcomingSymbol::Elf {
            elf: elf(line),
            name,
            file: has_file(line).then_some(file),
        },
    }
}

// The name that an add is under; the empty one where it has none.
fn added_name(line: &[u8]) -> &[u8] {
    match field(line, 1) {
        b"null" | b"section" => &[],
        _ => replay_words::name_at(line, 2),
    }
}

fn has_file(line: &[u8]) -> bool {
    replay_words::is(line, 1, b"elf") && replay_words::is(line, 8, b"1")
}

fn file_name(line: &[u8]) -> &[u8] {
    if has_file(line) {
        replay_words::name_at(line, 9)
    } else {
        &[]
    }
}

// ---- changes

impl State {
    pub(crate) fn change(&mut self, change: Change, line: &[u8]) -> Result<Reply, Refusal> {
        match change {
            Change::Link => self.link(line),
            Change::Add => self.add(line),
            Change::Remove => self.remove(line),
        }
    }

    fn intern(&mut self, name: &[u8]) -> Result<Interned, Refusal> {
        let bytes = replay_words::cells(self.told.lend.bytes, self.memory.names.bytes.len());
        let names = replay_words::wide_rows(self.told.lend.names, self.memory.names.cells.len());
        let mut names = NamesMut {
            link: self.table.link,
            bytes: &mut self.memory.names.bytes[..bytes],
            cells: &mut self.memory.names.cells[..names],
        };
        let answer = names.intern(name);
        self.table.link = names.link;
        answer
    }

    // `link`, or `link gabi` for the gABI's profile; the archive and its walk are gone with the old link.
    fn link(&mut self, line: &[u8]) -> Result<Reply, Refusal> {
        self.told.forget_archive();
        let bytes = replay_words::cells(self.told.lend.bytes, self.memory.names.bytes.len());
        let names = replay_words::wide_rows(self.told.lend.names, self.memory.names.cells.len());
        let symbols = replay_words::rows(self.told.lend.symbols, self.memory.symbols.len());
        let sections = replay_words::wide_rows(self.told.lend.sections, self.memory.sections.len());
        let made = Symbols::new(
            0,
            replay_words::is(line, 1, b"gabi"),
            &mut self.memory.names.bytes[..bytes],
            &mut self.memory.names.cells[..names],
            &mut self.memory.symbols[..symbols],
            &mut self.memory.sections[..sections],
        );
        self.table = made.unwrap_or(Symbols {
            link: Link::no_names(0, 0),
        });
        made.map(|_| Reply::Silent)
    }

    // `add ..`; the name of its file is issued too, the empty one where it has none.
    fn add(&mut self, line: &[u8]) -> Result<Reply, Refusal> {
        let name = self.intern(added_name(line))?;
        let file = self.intern(file_name(line))?;
        let names = replay_words::wide_rows(self.told.lend.names, self.memory.names.cells.len());
        let symbols = replay_words::rows(self.told.lend.symbols, self.memory.symbols.len());
        let sections = replay_words::wide_rows(self.told.lend.sections, self.memory.sections.len());
        let mut table = Table {
            link: self.table.link,
            names: &mut self.memory.names.cells[..names],
            symbols: &mut self.memory.symbols[..symbols],
            sections: &mut self.memory.sections[..sections],
        };
        let conversion = replay_object::conversion(&self.told.cells);
        let answer = symbols::add(&mut table, conversion, upcoming(line, name, file));
        self.table.link = table.link;
        answer.map(Reply::Id)
    }

    // `remove ID`
    fn remove(&mut self, line: &[u8]) -> Result<Reply, Refusal> {
        let symbols = replay_words::rows(self.told.lend.symbols, self.memory.symbols.len());
        let sections = replay_words::wide_rows(self.told.lend.sections, self.memory.sections.len());
        let answer = symbols::remove(
            self.table,
            &mut self.memory.symbols[..symbols],
            &mut self.memory.sections[..sections],
            SymbolId(replay_words::number(line, 1) as usize),
        );
        answer.map(|_| Reply::Done)
    }
}
