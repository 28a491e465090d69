// An object's rows from its file, into one lent slice: headers, entries, contents.
ghost use Rattle.std.specs.Prelude.{◌≡◌, ◌+◌, ◌*◌, ◌≤◌, length};
ghost use Rattle.cells.specs.Rows.{row_width};
ghost use Rattle.cells.specs.Rows.{put_row};
ghost use Rattle.elf_file.specs.Rows.{entry_count, content_count, header_row_of};
ghost use Rattle.elf_file.specs.Read.{headers_into, symbol_row, symbols_into, all_symbols_into, element_at, elements_into, all_elements_into, written_of};
ghost use Rattle.elf_file.specs.Table.{type_of};
ghost use Rattle.elf_file.specs.Contract.{ReadMeets};

use crate::{Header, Table};
use link::{Cause, Refusal};

// How many rows and cells of each sort were written, and the section of the sections' names.
#[derive(Clone, Copy, Debug, PartialEq, Eq)]
pub struct Written {
    pub sections: u64,
    pub entries: u64,
    pub contents: u64,
    pub strings: u64,
}

// A file that is an object: its bytes, its section headers, as far as they are there, and how many it has.
#[derive(Clone, Copy)]
struct ObjectFile<'a> {
    bytes: &'a [u8],
    table: &'a [u8],
    sections: usize,
}

// The sums of what the headers need are below 2^60, as all of it fits into the lent cells.
// Kept: asked by each function and no invariant: the sums are bounded only once all has room (`room_for`), and the other bounds are of the lent
// cells.
impl<'a> ObjectFile<'a> {
    // ---- headers

    // Entries and contents that the headers before it need: e, c.
    // Kept: loose, since they are counted on while the headers are read.
    #[tactic(auto, unfolding(crate::specs::Rows::header_row_of))]
    fn header_row(self, names: &[u8], rows: &mut [u64], i: usize, h: Header, e: u64, c: u64)
        ensures { rows.new ≡ put_row rows.old i (header_row_of self.entry.bytes.now names.now h e c) }
    {
        let kind = h.named_kind(names);
        let flags = h.row_flags(self.bytes);
        let first = h.first_row(e, c);
        let count = h.row_count();
        cells::row_store(
            rows,
            i,
            [kind, h.name, flags, h.link, h.info, first, count, h.size],
        );
    }

    fn write_headers(self, names: &[u8], rows: &mut [u64])
        requires { let f = self in
            entry_count f.table.now 0 f.sections + content_count f.table.now 0 f.sections ≤ 0x1000000000000000 }
        ensures { let f = self.entry in rows.new ≡ headers_into f.bytes.now names.now f.table.now rows.old 0 0 0 f.sections }
    {
        let mut e = 0;
        let mut c = 0;
        for i in 0..self.sections {
            let h = Header::at(self.table, i);
            self.header_row(names, rows, i, h, e, c);
            e += h.entries();
            c += h.contents();
        }
    }

    // ---- symbols

    fn write_symbols(self, rows: &mut [u64], start: usize)
        requires n_in_bounds { let f = self in start + entry_count f.table.now 0 f.sections ≤ length rows.old }
        requires n_bound { let f = self in start + entry_count f.table.now 0 f.sections ≤ 0x1000000000000000 }
        ensures { let f = self.entry in rows.new ≡ all_symbols_into f.bytes.now f.table.now rows.old start 0 f.sections }
    {
        let mut at = start;
        for i in 0..self.sections {
            let h = Header::at(self.table, i);
            let count = h.entries() as usize;
            symbols(h.bytes(self.bytes), rows, at, count);
            at += count;
        }
    }

    // ---- symbols of relocations, sections of groups

    fn write_contents(self, rows: &mut [u64], start: usize)
        requires n_in_bounds { let f = self in start + content_count f.table.now 0 f.sections ≤ length rows.old }
        requires n_bound { let f = self in start + content_count f.table.now 0 f.sections ≤ 0x1000000000000000 }
        ensures { let f = self.entry in rows.new ≡ all_elements_into f.bytes.now f.table.now rows.old start 0 f.sections }
    {
        let mut at = start;
        for i in 0..self.sections {
            let h = Header::at(self.table, i);
            let count = h.contents() as usize;
            elements(h.kind, h.bytes(self.bytes), rows, at, count);
            at += count;
        }
    }

    // ---- all of it, with that many entries

    #[tactic(auto, unfolding(crate::specs::Read::written_of))]
    fn write(self, names: &[u8], rows: &mut [u64], entries: usize)
        requires n_in_bounds { let f = self in
            f.sections * row_width + entries * row_width + content_count f.table.now 0 f.sections ≤ length rows.old }
        requires entries_value { let f = self in entries ≡ entry_count f.table.now 0 f.sections }
        ensures { let f = self.entry in rows.new ≡ written_of f.bytes.now names.now f.table.now rows.old f.sections entries }
    {
        self.write_headers(names, rows);
        self.write_symbols(rows, self.sections);
        self.write_contents(rows, (self.sections + entries) * elf_object::ROW_WIDTH);
    }
}

// A symbol's bytes that are all there.
#[inline(always)]
#[tactic(auto, unfolding(crate::specs::Read::symbol_row))]
fn whole_symbol(entry: &[u8]) -> [u64; elf_object::ROW_WIDTH]
    requires { 24 ≤ length entry.now }
    ensures { result ≡ symbol_row entry.now }
{
    let info = entry[crate::ST_INFO] as u64;
    let other = entry[crate::ST_OTHER] as u64;
    [
        crate::whole_word(entry, crate::ST_NAME),
        info / 16,
        info % 16,
        other % 4,
        crate::whole_half(entry, crate::ST_SHNDX),
        crate::whole_xword(entry, crate::ST_VALUE),
        crate::whole_xword(entry, crate::ST_SIZE),
        0,
    ]
}

#[tactic(auto, unfolding(crate::specs::Read::symbol_row))]
fn cut_symbol(entry: &[u8]) -> [u64; elf_object::ROW_WIDTH]
    ensures { result ≡ symbol_row entry.now }
{
    let info = crate::byte(entry, crate::ST_INFO);
    [
        crate::word(entry, crate::ST_NAME),
        info / 16,
        info % 16,
        crate::byte(entry, crate::ST_OTHER) % 4,
        crate::half(entry, crate::ST_SHNDX),
        crate::xword(entry, crate::ST_VALUE),
        crate::xword(entry, crate::ST_SIZE),
        0,
    ]
}

#[inline(always)]
fn symbol_row(entry: &[u8], rows: &mut [u64], i: usize)
    ensures { rows.new ≡ put_row rows.old i (symbol_row entry.now) }
{
    let row = if entry.len() < crate::SYM_SIZE {
        cut_symbol(entry)
    } else {
        whole_symbol(entry)
    };
    cells::row_store(rows, i, row);
}

fn symbols(bytes: &[u8], rows: &mut [u64], at: usize, count: usize)
    requires { at + count ≤ length rows.old }
    ensures { rows.new ≡ symbols_into bytes.now rows.old at 0 count }
{
    for j in 0..count {
        symbol_row(crate::entry::<{ crate::SYM_SIZE }>(bytes, j), rows, at + j);
    }
}

// Kept: the sh_type itself and no Table, so that a section with no contents needs no case.
#[tactic(auto, unfolding(crate::specs::Read::element_at))]
fn element(kind: u64, bytes: &[u8], j: usize) -> u64
    ensures { result ≡ element_at kind bytes.now j }
{
    match kind {
        crate::SHT_GROUP => crate::member(bytes, j),
        crate::SHT_REL => crate::r_sym(crate::entry::<{ crate::REL_SIZE }>(bytes, j)),
        _ => crate::r_sym(crate::entry::<{ crate::RELA_SIZE }>(bytes, j)),
    }
}

// Kept: loose parameters; a struct of them would be made for this one call.
fn elements(kind: u64, bytes: &[u8], rows: &mut [u64], at: usize, count: usize)
    requires { at + count ≤ length rows.old }
    ensures { rows.new ≡ elements_into kind bytes.now rows.old at 0 count }
{
    for j in 0..count {
        rows[at + j] = element(kind, bytes, j);
    }
}

// ---- the file

// The file's rows; 26, 27, 2 leave all lent cells.
#[tactic(auto, unfolding(crate::specs::Read::read_of, crate::specs::Read::roomed_of, crate::specs::Rows::room_of, link::specs::Judge::judged))]
pub fn read(file: &[u8], rows: &mut [u64]) -> Result<Written, Refusal>
    ensures { ReadMeets file.now rows.old rows.new result }
{
    crate::checks::judge(file)?;
    let object = ObjectFile {
        bytes: file,
        table: crate::header_table(file),
        sections: crate::section_count(file) as usize,
    };
    let strings = crate::name_section(file);
    let Some(room) = crate::rows::room_for(rows.len(), object.table, object.sections) else {
        return Err(Refusal::new(Cause::NoRoom, 0));
    };
    let names = crate::rows::names_of(file, object.table, strings, object.sections);
    object.write(names, rows, room.entries as usize);
    Ok(Written {
        sections: object.sections as u64,
        entries: room.entries,
        contents: room.contents,
        strings: crate::rows::strings_number(strings, object.sections as u64),
    })
}
