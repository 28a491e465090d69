// The first stage of a merge: a row is reserved for each program and uninitialized section, and what later stages ask of a section number
// is noted in its work row: its conversion, its mark, the last relocation table that applies to it.
#![tactic(auto)]

ghost use Rattle.std.specs.Prelude.{◌≡◌, ◌≢◌, ◌<◌, IfErr};
ghost use Rattle.link.specs.Judge.{judged, refused};
ghost use Rattle.elf_object.specs.Rows.{rows_in};
ghost use Rattle.merge_sections.specs.Reserve.{code_of, kind_class, class_of, reserve_number, conversion_of, table_cell, note_of, reserve_one_of, reserve_all_of, same_loans, TableWithin, state_after, state_before};
ghost use Rattle.merge_sections.specs.Notes.{is_table, note_table_of, note_tables_of, clear_one_of, clear_all_of};

use elf_object::{Kind, Object};
use link::{Cause, Link, Refusal};

// What the stage does with a section.
// Kept: five cases of which one refuses, since the cause and its place are told where the others are told apart too.
#[derive(Clone, Copy)]
enum Class {
    // Nothing.
    Excluded,
    // It is not loaded.
    Other,
    // It gets a row.
    Row,
    // It is the symbol table, not loaded either.
    Table,
    Refused,
}

impl From<u64> for Class {
    ghost from_gives = { λ kind class. code_of class ≡ kind_class kind };

    #[tactic(auto, unfolding(crate::specs::Reserve::kind_class))]
    fn from(kind: u64) -> Class {
        match kind {
            elf_object::PROGRAM | elf_object::UNINITIALIZED => Class::Row,
            elf_object::SYMBOL_TABLE => Class::Table,
            elf_object::DYNAMIC_SYMBOLS
            | elf_object::FRAME_HEADER
            | elf_object::DYNAMIC
            | elf_object::UNKNOWN => Class::Refused,
            _ => Class::Other,
        }
    }
}

impl Class {
    // That of its kind, if section n isn't excluded.
    #[tactic(auto, unfolding(crate::specs::Reserve::class_of))]
    fn of(object: Object<'_>, n: usize) -> Class
        ensures { code_of result ≡ class_of object.entry.headers.now n }
    {
        if object.is_excluded(n) {
            return Class::Excluded;
        }
        Class::from(cells::row_get(object.headers, n, elf_object::HEADER_KIND))
    }

    // What is noted of a section that would get that id.
    #[tactic(auto, unfolding(crate::specs::Reserve::conversion_of))]
    fn conversion(self, id: usize) -> u64
        ensures { result ≡ conversion_of (code_of self) id }
    {
        match self {
            Class::Excluded => elf_object::NOTHING,
            Class::Row => symbol::next(symbol::next(id)) as u64,
            _ => elf_object::NOT_LOADED,
        }
    }
}

// What the stage writes, and the section of the loaded symbol table, once it is met.
// Kept: that the loans stay is said by each call, since no field's type says which memory it lends.
#[derive(Drop)]
pub struct Reserving<'a> {
    pub link: Link,
    pub table: Option<usize>,
    pub sections: &'a mut [u64],
    pub work: &'a mut [u64],
}

impl Reserving<'_> {
    // 3; a second symbol table 24; no free row 2.
    #[tactic(auto, unfolding(crate::specs::Reserve::reserve_number, link::specs::Judge::judged, symbol::specs::Codes::successor))]
    fn judge(&self, class: Class, n: usize) -> Result<(), Refusal>
        ensures { result ≡ judged (refused (reserve_number self.now.link self.now.sections.now (code_of class) (table_cell self.now.table)) n) }
    {
        match class {
            Class::Refused => Err(Refusal::new(Cause::UnsupportedKind, n)),
            Class::Table if self.table.is_some() => Err(Refusal::new(Cause::SecondSymbolTable, n)),
            Class::Row if !sections::room(self.link, self.sections) => Err(Refusal::new(
                Cause::NoRoom,
                n,
            )),
            _ => Ok(()),
        }
    }

    // One section: its row and its note.
    #[tactic(auto, unfolding(crate::specs::Reserve::reserve_one_of, crate::specs::Reserve::reserve_class_of, crate::specs::Reserve::take_row_of, crate::specs::Reserve::table_after, crate::specs::Reserve::reserve_number, link::specs::Judge::judged))]
    fn reserve_one(&mut self, object: Object<'_>, n: usize) -> Result<(), Refusal>
        requires { n < rows_in object.headers.now }
        ensures loans { same_loans self.old self.new }
        ensures within { TableWithin object.entry.headers.now self.old → TableWithin object.entry.headers.now self.new }
        ensures value { state_after self.new result ≡ reserve_one_of object.entry.headers.now (state_before self.old) n }
        ensures numbered { IfErr result (λ r. r.number ≢ 0) }
    {
        let class = Class::of(object, n);
        self.judge(class, n)?;
        note(self.work, n, class.conversion(self.link.sections));
        match class {
            Class::Row => self.link = sections::reserve(self.link, self.sections),
            Class::Table => self.table = Some(n),
            _ => {}
        }
        Ok(())
    }

    // All sections, ascending, up to the first refusal.
    pub fn reserve_all(&mut self, object: Object<'_>) -> Result<(), Refusal>
        ensures loans { same_loans self.old self.new }
        ensures within { TableWithin object.entry.headers.now self.old → TableWithin object.entry.headers.now self.new }
        ensures value { state_after self.new result ≡ reserve_all_of object.entry.headers.now (state_before self.old) }
        ensures numbered { IfErr result (λ r. r.number ≢ 0) }
    {
        for n in 0..object.section_count() {
            self.reserve_one(object, n)?;
        }
        Ok(())
    }
}

#[tactic(auto, unfolding(crate::specs::Reserve::note_of))]
fn note(work: &mut [u64], n: usize, conversion: u64)
    ensures { work.new ≡ note_of work.old n conversion }
{
    cells::row_store(work, n, [conversion, 0, 0, 0, 0, 0, 0, 0]);
}

// A relocation table, and loaded?
#[tactic(auto, unfolding(crate::specs::Notes::is_table))]
fn is_table(object: Object<'_>, t: usize) -> bool
    ensures { result ≡ is_table object.entry.headers.now t }
{
    object.is_loaded(t, Kind::Rel) || object.is_loaded(t, Kind::Rela)
}

// It is noted at the section that it applies to.
#[tactic(auto, unfolding(crate::specs::Notes::note_table_of))]
fn note_table(work: &mut [u64], object: Object<'_>, t: usize)
    ensures { work.new ≡ note_table_of object.entry.headers.now work.old t }
{
    let info = cells::row_get(object.headers, t, elf_object::HEADER_INFO) as usize;
    if info < object.section_count() && is_table(object, t) {
        cells::row_put(
            work,
            info,
            elf_object::WORK_RELOCATIONS,
            symbol::next(t) as u64,
        );
    }
}

// Ascending, so that the last table for a section is the one that stays.
pub fn note_tables(work: &mut [u64], object: Object<'_>)
    ensures { work.new ≡ note_tables_of object.entry.headers.now work.old }
{
    for t in 0..object.section_count() {
        note_table(work, object, t);
    }
}

// A symbol may name a section that isn't there: nothing is known of that one.
#[tactic(auto, unfolding(crate::specs::Notes::clear_one_of))]
fn clear_one(work: &mut [u64], rows: usize, entries: &[u64], i: usize)
    ensures { work.new ≡ clear_one_of rows entries.now work.old i }
{
    let s = cells::row_get(entries, i, elf_object::ENTRY_SECTION) as usize;
    if rows <= s {
        note(work, s, elf_object::NOTHING);
    }
}

// In an object of that many sections.
pub fn clear_absent(work: &mut [u64], rows: usize, entries: &[u64])
    ensures { work.new ≡ clear_all_of rows entries.now work.old }
{
    for i in 0..entries.len() / elf_object::ROW_WIDTH {
        clear_one(work, rows, entries, i);
    }
}
