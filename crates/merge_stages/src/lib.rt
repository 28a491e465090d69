// The stages of a merge, in document 01's order, up to the first refusal.
#![tactic(auto)]

ghost use Rattle.std.specs.Prelude.{◌≡◌, ◌≢◌, ◌<◌, IfErr, IfOk, IfSome};
ghost use Rattle.std.specs.Option.{ForSome};
ghost use Rattle.elf_object.specs.Rows.{rows_in};
ghost use Rattle.merge_sections.specs.Reserve.{table_cell};
ghost use Rattle.merge_stages.specs.Stages.{merge_groups_of, stages_of, merge_table_of, object_read, tabled_read, same_loans, merge_before, merge_after, links_before, links_after, symbol_stage, after_symbols, section_stage, answered, after_sections, grouped_in, built_in, tabled};

use elf_object::Object;
use link::{Cause, Link, Refusal};
use merge_build::Builder;
use merge_sections::Reserving;
use merge_symbols::Symbols;
use section_groups::Grouping;

// What a merge writes: the tables of a link, a work row for each section of the object, and for each of its symbols a cell for its id and 1.
// Kept: that the loans stay is said by each call, since no field's type says which memory it lends.
#[derive(Drop)]
pub struct Merge<'a> {
    pub link: Link,
    pub bytes: &'a mut [u8],
    pub names: &'a mut [u64],
    pub symbols: &'a mut [u64],
    pub sections: &'a mut [u64],
    pub inputs: &'a mut [u64],
    pub lists: &'a mut [u64],
    pub work: &'a mut [u64],
    pub ids: &'a mut [u64],
}

// The object with the own entries of its loaded symbol table; without one there are none.
fn loaded(object: Object<'_>, table: Option<usize>) -> Object<'_>
    requires { ForSome table (λ t. t < rows_in object.headers.now) }
    ensures { tabled_read result ≡ tabled (object_read object.entry) (table_cell table) }
{
    match table {
        Some(t) => Object {
            entries: object.entries_of(t),
            table: t,
            ..object
        },
        None => Object {
            entries: &object.entries[..0],
            table: 0,
            ..object
        },
    }
}

impl Merge<'_> {
    // The rows of sections; the loaded symbol table, if there is one.
    fn reserve(&mut self, object: Object<'_>) -> Result<Option<usize>, Refusal>
        ensures loans { same_loans self.old self.new }
        ensures value { merge_after self.new (answered result) ≡ after_sections (merge_before self.old) (section_stage (object_read object.entry) (merge_before self.old)) }
        ensures table { IfOk result (λ t. table_cell t ≡ (section_stage (object_read object.entry) (merge_before self.old)).reserved.table) }
        ensures within { IfOk result (λ t. IfSome t (λ n. n < rows_in object.entry.headers.now)) }
        ensures numbered { IfErr result (λ r. r.number ≢ 0) }
    {
        let mut reserving = Reserving {
            link: self.link,
            table: None,
            sections: self.sections,
            work: self.work,
        };
        let answer = reserving.reserve_all(object);
        let table = reserving.table;
        self.link = reserving.link;
        answer?;
        Ok(table)
    }

    // The groups of the object.
    fn add_groups(&mut self, object: Object<'_>) -> Result<(), Refusal>
        ensures loans { same_loans self.old self.new }
        ensures value { merge_after self.new result ≡ grouped_in (tabled_read object.entry) (merge_before self.old) }
        ensures numbered { IfErr result (λ r. r.number ≢ 0) }
    {
        let mut groups = Grouping {
            link: self.link,
            bytes: self.bytes,
            names: self.names,
            work: self.work,
        };
        let answer = groups.add_groups(object);
        self.link = groups.link;
        answer
    }

    // The symbols of the loaded table.
    fn add_symbols(&mut self, object: Object<'_>) -> Result<(), Refusal>
        ensures loans { same_loans self.old self.new }
        ensures value { links_after self.new result ≡ after_symbols (links_before self.old) (symbol_stage (tabled_read object.entry) self.old.work.now (links_before self.old)) }
        ensures work { self.new.work.now ≡ self.old.work.now }
        ensures numbered { IfErr result (λ r. r.number ≢ 0) }
    {
        let work = &mut *self.work;
        let mut symbols = Symbols {
            link: self.link,
            bytes: self.bytes,
            names: self.names,
            symbols: self.symbols,
            sections: self.sections,
            ids: self.ids,
            file: None,
        };
        let answer = symbols.merge_symbols(object, work);
        self.link = symbols.link;
        answer
    }

    // What is built, and the object's own row.
    fn build(&mut self, object: Object<'_>) -> Result<(), Refusal>
        ensures loans { same_loans self.old self.new }
        ensures value { links_after self.new result ≡ built_in (tabled_read object.entry) self.old.work.now (links_before self.old) }
        ensures work { self.new.work.now ≡ self.old.work.now }
        ensures numbered { IfErr result (λ r. r.number ≢ 0) }
    {
        let work = &mut *self.work;
        let ids = &mut *self.ids;
        let mut builder = Builder {
            link: self.link,
            bytes: self.bytes,
            names: self.names,
            sections: self.sections,
            inputs: self.inputs,
            lists: self.lists,
        };
        let answer = builder.finish(object, work, ids, object.symbol_count());
        self.link = builder.link;
        answer
    }

    // The symbols, and then what is built.
    fn merge_table(&mut self, object: Object<'_>) -> Result<(), Refusal>
        ensures loans { same_loans self.old self.new }
        ensures value { links_after self.new result ≡ merge_table_of (tabled_read object.entry) self.old.work.now (links_before self.old) }
        ensures work { self.new.work.now ≡ self.old.work.now }
        ensures numbered { IfErr result (λ r. r.number ≢ 0) }
    {
        self.add_symbols(object)?;
        self.build(object)
    }

    // The groups, and then all that asks which sections they removed. The whole filter comes before the first symbol: 8.
    fn merge_groups(&mut self, object: Object<'_>) -> Result<(), Refusal>
        ensures loans { same_loans self.old self.new }
        ensures value { merge_after self.new result ≡ merge_groups_of (tabled_read object.entry) (merge_before self.old) }
        ensures numbered { IfErr result (λ r. r.number ≢ 0) }
    {
        self.add_groups(object)?;
        let work = &mut *self.work;
        if let Some(i) = section_groups::filter_symbol_table(self.link.gabi, work, object.entries) {
            return Err(Refusal::new(Cause::LocalInRemovedSection, i));
        }
        self.merge_table(object)
    }

    // All stages, in document 01's order, up to the first refusal. What later stages ask of a section number is noted between them.
    pub fn merge_stages(&mut self, object: Object<'_>) -> Result<(), Refusal>
        ensures loans { same_loans self.old self.new }
        ensures value { merge_after self.new result ≡ stages_of (object_read object.entry) (merge_before self.old) }
        ensures numbered { IfErr result (λ r. r.number ≢ 0) }
    {
        let table = self.reserve(object)?;
        merge_sections::note_tables(self.work, object);
        merge_sections::clear_absent(self.work, object.section_count(), object.entries);
        self.merge_groups(loaded(object, table))
    }
}
