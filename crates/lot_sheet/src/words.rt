// Refusals in words, and the symbol or section of an object that one is about.
use elf_file::Written;
use elf_object::{Kind, Object};

// The words of a number.
pub fn cause(number: u64) -> &'static str {
    match number {
        1 => "field out of range, list over its bound, index or mark list cut short",
        2 => "no free row, mark or name byte",
        3 => "section of an unsupported kind",
        4 => "section group that is not COMDAT",
        5 => "section group that lists no section",
        6 => "section group whose signature symbol is missing",
        7 => "section group whose signature string is missing",
        8 => "local symbol in a removed section",
        9 => "symbol name missing",
        10 => "internal or protected visibility",
        11 => "hidden local symbol",
        12 => "unsupported symbol binding",
        13 => "local common symbol",
        14 => "symbol in a section without id",
        16 => "unsupported symbol type",
        17 => "duplicate strong definition",
        18 => "section name missing",
        19 => "relocation by a symbol without id",
        20 => "archive without index",
        21 => "absent or removed id, or section never built",
        22 => "changing call on a broken link",
        24 => "second symbol table",
        26 => "no relocatable ELF file of 64 bits, little-endian",
        27 => "section headers or table past the file's end, cut entry or empty group",
        28 => "common symbol whose alignment is zero or no power of two",
        29 => "section listed by two groups",
        31 => "sum of 2^64 or more",
        _ => "refused",
    }
}

// The words of a number of the report's.
pub fn report_cause(number: u64) -> &'static str {
    match number {
        1 => "more titles than a report takes",
        _ => cause(number),
    }
}

// What a refusal's place counts, in an object.
pub enum About<'a> {
    Nothing,
    Section(&'a [u8]),
    Symbol(&'a [u8]),
}

// The object whose rows a read wrote.
pub fn object_in<'a>(rows: &'a [u64], image: &'a [u8], written: Written) -> Object<'a> {
    let headers = (written.sections as usize).saturating_mul(elf_object::ROW_WIDTH);
    let entries = (written.entries as usize).saturating_mul(elf_object::ROW_WIDTH);
    Object {
        headers: cells::part_of(rows, 0, headers),
        entries: cells::part_of(rows, headers, entries),
        contents: cells::part_of(
            rows,
            headers.saturating_add(entries),
            written.contents as usize,
        ),
        image,
        section_names: written.strings as usize,
        table: 0,
    }
}

fn section_name(object: Object<'_>, n: usize) -> Option<&[u8]> {
    let offset = cells::row_get(object.headers, n, elf_object::HEADER_NAME) as usize;
    object.name_in(object.section_names, offset)
}

fn symbol_name(object: Object<'_>, i: usize) -> Option<&[u8]> {
    let table = (0..object.section_count()).find(|&n| object.is_loaded(n, Kind::SymbolTable))?;
    let offset = cells::row_get(object.entries_of(table), i, elf_object::ENTRY_NAME) as usize;
    let strings = cells::row_get(object.headers, table, elf_object::HEADER_LINK) as usize;
    object.name_in(strings, offset)
}

pub fn about_place(object: Object<'_>, number: u64, place: usize) -> About<'_> {
    match number {
        3..=7 | 18 | 19 | 24 | 29 => match section_name(object, place) {
            Some(name) => About::Section(name),
            None => About::Nothing,
        },
        8..=17 | 28 => match symbol_name(object, place) {
            Some(name) => About::Symbol(name),
            None => About::Nothing,
        },
        _ => About::Nothing,
    }
}
