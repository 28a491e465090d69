// What of a section header stands in its row, how many rows and cells its contents need, and whether all have room.
ghost use Rattle.std.specs.Prelude.{◌≡◌, ◌<◌};
ghost use Rattle.gabi.specs.StringTable.{name_at};
ghost use Rattle.byte_slices.specs.Bytes.{part, same};
ghost use Rattle.elf_object.specs.Kind.{number_of};
ghost use Rattle.elf_file.specs.Rows.{entries_in, contents_in, left_after, room_of, kind_of, eh_frame_hdr, named_kind, strings_of, names_of, strings_number, comdat_of, flags_of, first_row_of, count_of};

use crate::{Header, Table};
use elf_object::Kind;

// ---- the row of a header

impl Header {
    // How many rows of entries it needs.
    #[tactic(auto, unfolding(crate::specs::Rows::entries_in, crate::specs::Table::table_of, crate::specs::Table::typed))]
    pub fn entries(self) -> u64
        ensures { result ≡ entries_in self }
    {
        match self.table() {
            Some(Table::Symbols) => self.size / crate::SYM_BYTES,
            _ => 0,
        }
    }

    // How many cells of contents. A group's first word is its flags.
    #[tactic(auto, unfolding(crate::specs::Rows::contents_in, crate::specs::Table::table_of, crate::specs::Table::typed))]
    pub fn contents(self) -> u64
        ensures { result ≡ contents_in self }
    {
        match self.table() {
            Some(Table::Rel) => self.size / crate::REL_BYTES,
            Some(Table::Rela) => self.size / crate::RELA_BYTES,
            Some(Table::Group) => (self.size / crate::WORD_BYTES).saturating_sub(1),
            _ => 0,
        }
    }

    // The section's bytes, as far as they are there.
    pub fn bytes(self, file: &[u8]) -> &[u8]
        ensures { result.now ≡ part file.now self.offset self.size }
    {
        cells::part_of(file, self.offset as usize, self.size as usize)
    }

    // Those of a string table.
    #[tactic(auto, unfolding(crate::specs::Rows::strings_of, crate::specs::Table::table_of, crate::specs::Table::typed))]
    fn strings(self, file: &[u8]) -> &[u8]
        ensures { result.now ≡ strings_of file.now self }
    {
        match self.table() {
            Some(Table::Strings) => self.bytes(file),
            _ => &file[..0],
        }
    }

    // Document 01's kind of a section of that sh_type.
    #[tactic(auto, unfolding(crate::specs::Rows::kind_of))]
    fn typed_kind(self) -> Kind
        ensures { number_of result ≡ kind_of self.kind }
    {
        match self.kind {
            crate::SHT_NULL => Kind::Null,
            crate::SHT_PROGBITS => Kind::Program,
            crate::SHT_SYMTAB => Kind::SymbolTable,
            crate::SHT_STRTAB => Kind::StringTable,
            crate::SHT_RELA => Kind::Rela,
            crate::SHT_HASH => Kind::Hash,
            crate::SHT_DYNAMIC => Kind::Dynamic,
            crate::SHT_NOTE => Kind::Note,
            crate::SHT_NOBITS => Kind::Uninitialized,
            crate::SHT_REL => Kind::Rel,
            crate::SHT_DYNSYM => Kind::DynamicSymbols,
            crate::SHT_INIT_ARRAY | crate::SHT_FINI_ARRAY | crate::SHT_PREINIT_ARRAY =>
                Kind::Program,
            crate::SHT_GROUP => Kind::Group,
            crate::SHT_GNU_HASH => Kind::GnuHash,
            _ => Kind::Unknown,
        }
    }

    #[tactic(auto, unfolding(crate::specs::Rows::named_kind, crate::specs::Rows::kind_of))]
    fn section_kind(self, names: &[u8]) -> Kind
        ensures { number_of result ≡ named_kind names.now self }
    {
        if self.kind == crate::SHT_PROGBITS && is_frame_header(names, self.name as usize) {
            Kind::FrameHeader
        } else {
            self.typed_kind()
        }
    }

    pub fn named_kind(self, names: &[u8]) -> u64
        ensures { result ≡ named_kind names.now self }
    {
        u64::from(self.section_kind(names))
    }

    // Is it a COMDAT group?
    #[tactic(auto, unfolding(crate::specs::Rows::comdat_of, crate::specs::Table::table_of, crate::specs::Table::typed))]
    fn comdat(self, file: &[u8]) -> u64
        ensures value { result ≡ comdat_of file.now self }
        ensures small { result < 2 }
    {
        match self.table() {
            Some(Table::Group) => crate::word(self.bytes(file), 0) % 2,
            _ => 0,
        }
    }

    #[tactic(auto, unfolding(crate::specs::Rows::flags_of))]
    pub fn row_flags(self, file: &[u8]) -> u64
        ensures { result ≡ flags_of file.now self }
    {
        self.flags / crate::SHF_EXCLUDE % 2
            + self.flags / crate::SHF_GNU_RETAIN % 2 * elf_object::RETAIN_FLAG
            + self.flags / crate::SHF_ALLOC % 2 * elf_object::READ_FLAG
            + self.comdat(file) * elf_object::COMDAT_FLAG
    }

    // Where its contents lie: behind e entries, or c cells of contents, or in the file.
    #[tactic(auto, unfolding(crate::specs::Rows::first_row_of, crate::specs::Table::table_of, crate::specs::Table::typed))]
    pub fn first_row(self, e: u64, c: u64) -> u64
        ensures { result ≡ first_row_of self e c }
    {
        match self.table() {
            Some(Table::Symbols) => e,
            Some(Table::Strings) => self.offset,
            Some(Table::Rel | Table::Rela | Table::Group) => c,
            None => 0,
        }
    }

    // How many rows, bytes or cells they are.
    #[tactic(auto, unfolding(crate::specs::Rows::count_of, crate::specs::Rows::contents_in, crate::specs::Table::table_of, crate::specs::Table::typed))]
    pub fn row_count(self) -> u64
        ensures { result ≡ count_of self }
    {
        match self.table() {
            Some(Table::Symbols) => self.entries(),
            Some(Table::Strings) => self.size,
            Some(Table::Rel | Table::Rela | Table::Group) => self.contents(),
            None => 0,
        }
    }
}

// Kept: a match, since the proof does not close over `is_some_and` (tried).
fn is_frame_header(names: &[u8], offset: usize) -> bool
    ensures { result ≡ same (name_at names.now offset) eh_frame_hdr }
{
    match strings::get(names, offset) {
        Some(name) => byte_slices::same_bytes(name, b".eh_frame_hdr"),
        None => false,
    }
}

// ---- the section names

// Those of n sections, in section s.
// Kept: 0 for none, as the gABI says it: section 0 is none.
#[tactic(auto, unfolding(crate::specs::Rows::names_of))]
pub fn names_of<'a>(file: &'a [u8], table: &[u8], s: u64, n: usize) -> &'a [u8]
    ensures { result.now ≡ names_of file.now table.now s n }
{
    if s != 0 && (s as usize) < n {
        Header::at(table, s as usize).strings(file)
    } else {
        &file[..0]
    }
}

// Their section's number for the rows' readers: past the sections where there is none.
// Kept: 0 for none, as the gABI says it: section 0 is none.
#[tactic(auto, unfolding(crate::specs::Rows::strings_number))]
pub fn strings_number(s: u64, n: u64) -> u64
    ensures { result ≡ strings_number s n }
{
    if s == 0 { n } else { s.min(n) }
}

// ---- whether all have room

// What the headers need: rows of entries, cells of contents.
#[derive(Clone, Copy)]
pub struct Room {
    pub entries: u64,
    pub contents: u64,
}

// What is left of so many cells after so many rows and further cells.
#[tactic(auto, unfolding(crate::specs::Rows::left_after))]
fn left_after(left: usize, rows: usize, cells: usize) -> Option<usize>
    ensures { result ≡ left_after left rows cells }
{
    left.checked_sub(rows.checked_mul(elf_object::ROW_WIDTH)?)?
        .checked_sub(cells)
}

// If n headers and all that they need fit into that many cells. Table by table against what is left: the sum may pass 2^64.
pub fn room_for(cells: usize, table: &[u8], n: usize) -> Option<Room>
    ensures { result ≡ room_of cells table.now n }
{
    let mut left = left_after(cells, n, 0)?;
    let mut room = Room {
        entries: 0,
        contents: 0,
    };
    for i in 0..n {
        let h = Header::at(table, i);
        let entries = h.entries();
        let contents = h.contents();
        left = left_after(left, entries as usize, contents as usize)?;
        room.entries += entries;
        room.contents += contents;
    }
    Some(room)
}
