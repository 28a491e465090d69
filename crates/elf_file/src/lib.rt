// The fields of an ELF file of the 64-bit class, little-endian: numbers, a section header, the parts of a table that are its entries. Total:
// a byte that isn't there is 0.
#![tactic(auto)]

ghost use Rattle.std.specs.Prelude.{◌≡◌, ◌*◌, ◌+◌, ◌<◌, ◌≤◌, length};
ghost use Rattle.gabi.specs.File.{byte_at, half_at, word_at, xword_at, first_header, section_count, header_table, name_section, r_sym, member_at};
ghost use Rattle.byte_slices.specs.Bytes.{part};
ghost use Rattle.elf_file.specs.File.{header_of, header_at};

mod checks;
mod counts;
mod reading;
mod rows;
mod table;

pub use counts::{Counts, count};
pub use reading::{Written, read};
pub use table::Table;

// A section header: sh_name, sh_type, and so on.
#[derive(Clone, Copy)]
pub struct Header {
    pub name: u64,
    pub kind: u64,
    pub flags: u64,
    pub offset: u64,
    pub size: u64,
    pub link: u64,
    pub info: u64,
}

// ---- where the gABI's fields lie, and how many bytes each thing has

pub const EHDR_SIZE: usize = 64;

pub const E_CLASS: usize = 4;

pub const E_DATA: usize = 5;

pub const E_TYPE: usize = 16;

pub const E_SHOFF: usize = 40;

const E_SHNUM: usize = 60;

const E_SHSTRNDX: usize = 62;

const SHDR_SIZE: usize = 64;

const SH_NAME: usize = 0;

const SH_TYPE: usize = 4;

const SH_FLAGS: usize = 8;

const SH_OFFSET: usize = 24;

const SH_SIZE: usize = 32;

const SH_LINK: usize = 40;

const SH_INFO: usize = 44;

pub const SYM_SIZE: usize = 24;

pub const ST_NAME: usize = 0;

pub const ST_INFO: usize = 4;

pub const ST_OTHER: usize = 5;

pub const ST_SHNDX: usize = 6;

pub const ST_VALUE: usize = 8;

pub const ST_SIZE: usize = 16;

pub const REL_SIZE: usize = 16;

pub const RELA_SIZE: usize = 24;

const R_INFO: usize = 8;

const WORD_SIZE: usize = 4;

const XWORD_SIZE: usize = 8;

// The same sizes, to divide the number in a field by.
pub const SHDR_BYTES: u64 = SHDR_SIZE as u64;

pub const SYM_BYTES: u64 = SYM_SIZE as u64;

pub const REL_BYTES: u64 = REL_SIZE as u64;

pub const RELA_BYTES: u64 = RELA_SIZE as u64;

pub const WORD_BYTES: u64 = WORD_SIZE as u64;

// Its numbers.
// Kept: the file's own; a Table or a Kind is made of them in one place each (table.rt, rows.rt).
const SHN_XINDEX: u64 = 0xffff;

pub const SHT_NULL: u64 = 0;

pub const SHT_PROGBITS: u64 = 1;

pub const SHT_SYMTAB: u64 = 2;

pub const SHT_STRTAB: u64 = 3;

pub const SHT_RELA: u64 = 4;

pub const SHT_HASH: u64 = 5;

pub const SHT_DYNAMIC: u64 = 6;

pub const SHT_NOTE: u64 = 7;

pub const SHT_NOBITS: u64 = 8;

pub const SHT_REL: u64 = 9;

pub const SHT_DYNSYM: u64 = 11;

pub const SHT_INIT_ARRAY: u64 = 14;

pub const SHT_FINI_ARRAY: u64 = 15;

pub const SHT_PREINIT_ARRAY: u64 = 16;

pub const SHT_GROUP: u64 = 17;

// How many types there are below those of a system.
pub const SHT_COUNT: u64 = 18;

pub const SHT_GNU_HASH: u64 = 0x6fff_fff6;

pub const SHF_ALLOC: u64 = 2;

pub const SHF_GNU_RETAIN: u64 = 0x20_0000;

pub const SHF_EXCLUDE: u64 = 0x8000_0000;

// ---- numbers
#[tactic(auto, unfolding(byte_slices::specs::Bytes::word_at))]
pub fn byte(x: &[u8], i: usize) -> u64
    ensures { result ≡ byte_at x.now i }
{
    (byte_slices::word_at(x, i) % 0x100) as u64
}

#[tactic(auto, unfolding(byte_slices::specs::Bytes::word_at, gabi::specs::File::half_at))]
pub fn half(x: &[u8], i: usize) -> u64
    ensures { result ≡ half_at x.now i }
{
    (byte_slices::word_at(x, i) % 0x1_0000) as u64
}

#[tactic(auto, unfolding(byte_slices::specs::Bytes::word_at, gabi::specs::File::word_at))]
pub fn word(x: &[u8], i: usize) -> u64
    ensures value { result ≡ word_at x.now i }
    ensures small { result < 0x100000000 }
{
    byte_slices::word_at(x, i) as u64
}

// Those that are all there: one load each.
#[inline(always)]
#[tactic(auto, unfolding(gabi::specs::File::half_at))]
fn whole_half(x: &[u8], i: usize) -> u64
    requires { i + 1 < length x.now }
    ensures { result ≡ half_at x.now i }
{
    u16::from_le_bytes([x[i], x[i + 1]]) as u64
}

#[inline(always)]
#[tactic(auto, unfolding(gabi::specs::File::word_at))]
fn whole_word(x: &[u8], i: usize) -> u64
    requires { i + 3 < length x.now }
    ensures { result ≡ word_at x.now i }
{
    u32::from_le_bytes([x[i], x[i + 1], x[i + 2], x[i + 3]]) as u64
}

#[inline(always)]
#[tactic(auto, unfolding(gabi::specs::File::xword_at, gabi::specs::File::word_at))]
fn whole_xword(x: &[u8], i: usize) -> u64
    requires { i + 7 < length x.now }
    ensures { result ≡ xword_at x.now i }
{
    u64::from_le_bytes([
        x[i],
        x[i + 1],
        x[i + 2],
        x[i + 3],
        x[i + 4],
        x[i + 5],
        x[i + 6],
        x[i + 7],
    ])
}

#[tactic(auto, unfolding(gabi::specs::File::xword_at, gabi::specs::File::word_at))]
fn cut_xword(x: &[u8], i: usize) -> u64
    ensures { result ≡ xword_at x.now i }
{
    if x.len() <= i {
        return 0;
    }
    word(x, i) + word(x, i + WORD_SIZE) * 0x1_0000_0000
}

#[inline(always)]
pub fn xword(x: &[u8], i: usize) -> u64
    ensures { result ≡ xword_at x.now i }
{
    if i < x.len() && x.len() - i >= XWORD_SIZE {
        whole_xword(x, i)
    } else {
        cut_xword(x, i)
    }
}

// ---- entries of a table

// Entry i of a table whose entries have SIZE bytes each.
#[inline(always)]
pub fn entry<const SIZE: usize>(table: &[u8], i: usize) -> &[u8]
    ensures { result.now ≡ part table.now (i * SIZE) SIZE }
{
    match i.checked_mul(SIZE) {
        Some(start) => cells::part_of(table, start, SIZE),
        None => &table[..0],
    }
}

#[tactic(auto, unfolding(gabi::specs::File::member_at, gabi::specs::File::word_at))]
pub fn member(table: &[u8], i: usize) -> u64
    ensures { result ≡ member_at table.now i }
{
    if i < 0x2000_0000_0000_0000 {
        return word(table, i * WORD_SIZE + WORD_SIZE);
    }
    0
}

#[tactic(auto, unfolding(gabi::specs::File::r_sym))]
pub fn r_sym(e: &[u8]) -> u64
    ensures { result ≡ r_sym e.now }
{
    xword(e, R_INFO) / 0x1_0000_0000
}

// ---- section headers

impl Header {
    // From the header's bytes.
    #[inline(always)]
    pub fn of(bytes: &[u8]) -> Header
        ensures { result ≡ header_of bytes.now }
    {
        if bytes.len() < SHDR_SIZE {
            Header::of_cut(bytes)
        } else {
            Header::of_whole(bytes)
        }
    }

    // All there.
    #[inline(always)]
    #[tactic(auto, unfolding(crate::specs::File::header_of))]
    fn of_whole(bytes: &[u8]) -> Header
        requires { 64 ≤ length bytes.now }
        ensures { result ≡ header_of bytes.now }
    {
        Header {
            name: whole_word(bytes, SH_NAME),
            kind: whole_word(bytes, SH_TYPE),
            flags: whole_xword(bytes, SH_FLAGS),
            offset: whole_xword(bytes, SH_OFFSET),
            size: whole_xword(bytes, SH_SIZE),
            link: whole_word(bytes, SH_LINK),
            info: whole_word(bytes, SH_INFO),
        }
    }

    #[tactic(auto, unfolding(crate::specs::File::header_of))]
    fn of_cut(bytes: &[u8]) -> Header
        ensures { result ≡ header_of bytes.now }
    {
        Header {
            name: word(bytes, SH_NAME),
            kind: word(bytes, SH_TYPE),
            flags: xword(bytes, SH_FLAGS),
            offset: xword(bytes, SH_OFFSET),
            size: xword(bytes, SH_SIZE),
            link: word(bytes, SH_LINK),
            info: word(bytes, SH_INFO),
        }
    }

    // Header i of the section header table.
    #[inline(always)]
    #[tactic(auto, unfolding(crate::specs::File::header_at))]
    pub fn at(table: &[u8], i: usize) -> Header
        ensures { result ≡ header_at table.now i }
    {
        Header::of(entry::<SHDR_SIZE>(table, i))
    }

    fn first(file: &[u8]) -> Header
        ensures { result ≡ header_of (first_header file.now) }
    {
        let shoff = xword(file, E_SHOFF);
        Header::of(cells::part_of(file, shoff as usize, SHDR_SIZE))
    }
}

// How many sections the file says it has.
#[tactic(auto, unfolding(gabi::specs::File::section_count, crate::specs::File::header_of))]
pub fn section_count(file: &[u8]) -> u64
    ensures { result ≡ section_count file.now }
{
    let shoff = xword(file, E_SHOFF);
    if shoff == 0 {
        return 0;
    }
    let shnum = half(file, E_SHNUM);
    if shnum == 0 {
        return Header::first(file).size;
    }
    shnum
}

// The section with the sections' names.
// Kept: 0 for none, as the gABI says it: section 0 is none.
#[tactic(auto, unfolding(gabi::specs::File::name_section, crate::specs::File::header_of))]
pub fn name_section(file: &[u8]) -> u64
    ensures { result ≡ name_section file.now }
{
    let shstrndx = half(file, E_SHSTRNDX);
    if shstrndx == SHN_XINDEX {
        return Header::first(file).link;
    }
    shstrndx
}

// The section headers, as far as they are there.
#[tactic(auto, unfolding(gabi::specs::File::header_table))]
pub fn header_table(file: &[u8]) -> &[u8]
    ensures { result.now ≡ header_table file.now }
{
    let shoff = xword(file, E_SHOFF);
    let n = section_count(file);
    if file.len() / SHDR_SIZE < n as usize {
        return cells::part_of(file, shoff as usize, file.len());
    }
    cells::part_of(file, shoff as usize, n as usize * SHDR_SIZE)
}
