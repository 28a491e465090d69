// An object as a list tells it, row by row, in lent cells: headers, entries of symbol tables and contents, each from a fixed place on, and
// behind them the conversion that direct adds are lent; the bytes of string tables in lent bytes.
#![tactic(auto)]

ghost use Rattle.std.specs.Prelude.{◌≡◌, ◌≤◌};
ghost use Rattle.replay_object.specs.Told.{announced_as, announce_of, part_cells, headers_in, entries_in, contents_in, conversion_in, flag_of, flags_of, listed_of, put_list_of, kind_of, contents_start_of, count_of, header_of, cells_as, symbol_of, section_of, told_as};
ghost use Rattle.replay_object.specs.Conversion.{cell_of, convert_of};

// Rows and the section-name string section that were announced; rows, contents and bytes that were told so far.
#[derive(Clone, Copy, Debug, PartialEq, Eq)]
pub struct Object {
    pub sections: usize,
    pub symbols: usize,
    pub strings: usize,
    pub headers: usize,
    pub entries: usize,
    pub contents: usize,
    pub bytes: usize,
}

// What the contents of a section are, by its KIND: symbols, bytes in the file, or words.
#[derive(Clone, Copy, Debug, PartialEq, Eq)]
enum Kind {
    Symbols,
    Strings,
    Words,
}

// First cells, and how many cells each part has.
// Kept: the cells are lent, and calls lend parts of them further as they lie there; the definitions (specs/Told.antt) fix the places.
const ENTRIES: usize = 2048;

const CONTENTS: usize = 4096;

const CONVERSION: usize = 6144;

const PART: usize = 2048;

const CONVERTED: usize = 64;

// The cells of all parts together.
pub const CELLS: usize = 6208;

// A list's KINDs, by the cells' numbers of an object's rows.
// Kept: numbers of its own, since a list is told by them, and the crate doesn't stand on elf_object.
const SYMBOL_TABLE: u64 = 3;

const DYNAMIC_SYMBOLS: u64 = 10;

const STRING_TABLE: u64 = 4;

impl From<u64> for Kind {
    ghost from_gives = { λ number kind. kind ≡ kind_of number };

    #[tactic(auto, unfolding(crate::specs::Told::kind_of))]
    fn from(number: u64) -> Kind {
        match number {
            SYMBOL_TABLE | DYNAMIC_SYMBOLS => Kind::Symbols,
            STRING_TABLE => Kind::Strings,
            _ => Kind::Words,
        }
    }
}

// Cells of that many rows, as far as a part holds them.
#[tactic(auto, unfolding(crate::specs::Told::part_cells))]
fn cells_of(rows: usize) -> usize
    ensures { result ≡ part_cells rows }
{
    rows.min(PART / 8) * 8
}

pub fn conversion(cells: &[u64]) -> &[u64]
    ensures { result.now ≡ conversion_in cells.now }
{
    cells::part_of(cells, CONVERSION, CONVERTED)
}

// ---- rows

#[tactic(auto, unfolding(crate::specs::Told::flag_of))]
fn flag(line: &[u8], k: usize, value: u64) -> u64
    ensures value { result ≡ flag_of line.now k value }
    ensures small { result ≤ value }
{
    if replay_words::is(line, k, b"1") {
        value
    } else {
        0
    }
}

// Exclude, retain, read, COMDAT.
#[tactic(auto, unfolding(crate::specs::Told::flags_of))]
fn flags(line: &[u8]) -> u64
    ensures { result ≡ flags_of line.now }
{
    flag(line, 3, 1) + flag(line, 4, 2) + flag(line, 5, 4) + flag(line, 8, 8)
}

#[tactic(auto, unfolding(crate::specs::Told::listed_of))]
fn put_listed(cells: &mut [u64], at: usize, line: &[u8], j: usize)
    ensures { cells.new ≡ listed_of cells.old at line.now j }
{
    let word = replay_words::number(line, j.wrapping_add(11));
    cells::put(cells, at.wrapping_add(j), word);
}

// The words of a section's LIST, at the contents' end; nothing where there is no room.
fn put_list(cells: &mut [u64], at: usize, line: &[u8], count: usize)
    ensures { cells.new ≡ put_list_of cells.old at line.now count }
{
    if PART < count {
        return;
    }
    for j in 0..count {
        put_listed(cells, at, line, j);
    }
}

// How many a section's contents are: symbols and words by the LIST's words.
#[tactic(auto, unfolding(crate::specs::Told::count_of, crate::specs::Told::kind_of))]
fn count(line: &[u8], kind: u64, bytes: usize) -> u64
    ensures { result ≡ count_of line.now kind bytes }
{
    match Kind::from(kind) {
        Kind::Symbols => replay_words::number(line, 12),
        Kind::Strings => bytes as u64,
        Kind::Words => replay_words::number(line, 10),
    }
}

impl Object {
    fn of(sections: usize, symbols: usize, strings: usize) -> Object
        ensures { result ≡ announced_as sections symbols strings }
    {
        Object {
            sections,
            symbols,
            strings,
            headers: 0,
            entries: 0,
            contents: 0,
            bytes: 0,
        }
    }

    pub fn empty() -> Object
        ensures { result ≡ announced_as 0 0 0 }
    {
        Object::of(0, 0, 0)
    }

    // `object SECTIONS SYMBOLS NAMES`
    #[tactic(auto, unfolding(crate::specs::Told::announce_of))]
    pub fn announced(line: &[u8]) -> Object
        ensures { result ≡ announce_of line.now }
    {
        Object::of(
            replay_words::number(line, 1) as usize,
            replay_words::number(line, 2) as usize,
            replay_words::number(line, 3) as usize,
        )
    }

    // ---- what is lent to a merge

    #[tactic(auto, unfolding(crate::specs::Told::headers_in))]
    pub fn headers_of(self, cells: &[u64]) -> &[u64]
        ensures { result.now ≡ headers_in cells.now self }
    {
        cells::part_of(cells, 0, cells_of(self.sections))
    }

    #[tactic(auto, unfolding(crate::specs::Told::entries_in))]
    pub fn entries_of(self, cells: &[u64]) -> &[u64]
        ensures { result.now ≡ entries_in cells.now self }
    {
        cells::part_of(cells, ENTRIES, cells_of(self.symbols))
    }

    pub fn contents_of(self, cells: &[u64]) -> &[u64]
        ensures { result.now ≡ contents_in cells.now self }
    {
        cells::part_of(cells, CONTENTS, self.contents)
    }

    // ---- rows

    // Where a section's contents begin: symbols by the LIST's words, bytes in the file, else among the contents.
    #[tactic(auto, unfolding(crate::specs::Told::contents_start_of, crate::specs::Told::kind_of))]
    fn first(self, line: &[u8], kind: u64) -> u64
        ensures { result ≡ contents_start_of self line.now kind }
    {
        match Kind::from(kind) {
            Kind::Symbols => replay_words::number(line, 11),
            Kind::Strings => self.bytes as u64,
            Kind::Words => self.contents as u64,
        }
    }

    #[tactic(auto, unfolding(crate::specs::Told::header_of))]
    fn put_header(self, cells: &mut [u64], line: &[u8], bytes: usize)
        ensures { cells.new ≡ header_of cells.old self line.now bytes }
    {
        let kind = replay_words::number(line, 1);
        cells::row_store(
            cells,
            self.headers,
            [
                kind,
                replay_words::number(line, 2),
                flags(line),
                replay_words::number(line, 6),
                replay_words::number(line, 7),
                self.first(line, kind),
                count(line, kind, bytes),
                0,
            ],
        );
    }

    // `section KIND NAMEOFFSET EXCLUDE RETAIN READ LINK INFO COMDAT BYTES LIST`
    #[tactic(auto, unfolding(crate::specs::Told::section_of, crate::specs::Told::section_after))]
    pub fn section(&mut self, cells: &mut [u64], file: &mut [u8], line: &[u8])
        ensures { told_as cells.new file.new self.new ≡ section_of cells.old file.old self.old line.now }
    {
        let bytes = replay_words::put_bytes(file, self.bytes, text::field(line, 9));
        let listed = replay_words::number(line, 10) as usize;
        put_list(cells, self.contents.wrapping_add(CONTENTS), line, listed);
        self.put_header(cells, line, bytes);
        self.headers = symbol::next(self.headers);
        self.contents = self.contents.wrapping_add(listed);
        self.bytes = self.bytes.wrapping_add(bytes);
    }

    // `symbol NAMEOFFSET BINDING TYPE VISIBILITY SECTION VALUE`, and a size behind it where it isn't 0
    #[tactic(auto, unfolding(crate::specs::Told::symbol_of))]
    pub fn symbol(&mut self, cells: &mut [u64], line: &[u8])
        ensures { cells_as cells.new self.new ≡ symbol_of cells.old self.old line.now }
    {
        cells::row_store(
            cells,
            self.entries.wrapping_add(ENTRIES / 8),
            [
                replay_words::number(line, 1),
                replay_words::number(line, 2),
                replay_words::number(line, 3),
                replay_words::number(line, 4),
                replay_words::number(line, 5),
                replay_words::number(line, 6),
                replay_words::optional(line, 7),
                0,
            ],
        );
        self.entries = symbol::next(self.entries);
    }
}

// ---- the conversion of direct adds

// A cell: 0 nothing, 1 not loaded, else the id and 2.
#[tactic(auto, unfolding(crate::specs::Conversion::cell_of))]
fn cell_of(word: &[u8]) -> u64
    ensures { result ≡ cell_of word.now }
{
    if word.is_empty() || byte_slices::same_bytes(word, b"none") {
        return 0;
    }
    if byte_slices::same_bytes(word, b"unloaded") {
        return 1;
    }
    replay_words::number_in(word).wrapping_add(2)
}

// `conversion WORD ...`
pub fn convert(cells: &mut [u64], line: &[u8])
    ensures { cells.new ≡ convert_of cells.old line.now }
{
    for i in 0..CONVERTED {
        cells::put(cells, CONVERSION + i, cell_of(text::field(line, i + 1)));
    }
}
