// The last stages of a merge: uninitialized sections are built, then program sections with their relocations' symbols.
#![tactic(auto)]

ghost use Rattle.std.specs.Prelude.{◌≡◌, ◌≢◌, ◌+◌, ◌≤◌, true, length, IfErr, List, ℕ};
ghost use Rattle.merge_build.specs.Relocations.{table_for, table_in, symbol_ok, symbols_ok, id_in, append_from};
ghost use Rattle.merge_build.specs.Build.{lists_fit, section_id_of, section_row, built_from, section_of, build_of, object_in, relocations_in, limit_in, row_in, named_in, same_loans, linked_before, row_before, row_built, state_after, state_before};

mod last_stages;

use elf_object::Object;
use interner::NamesMut;
use link::{Cause, Interned, Link, Refusal, SectionId};
use sections::Section;

// What is read: the object, its sections' work rows, its symbols' ids and 1, 0 for none, and how many symbols its loaded table has.
#[derive(Clone, Copy)]
pub struct Source<'a> {
    pub object: Object<'a>,
    pub work: &'a [u64],
    pub ids: &'a [u64],
    pub symbols: usize,
}

// What is written: the tables of a link.
// Kept: that the loans stay is said by each call, since no field's type says which memory it lends.
#[derive(Drop)]
pub struct Builder<'a> {
    pub link: Link,
    pub bytes: &'a mut [u8],
    pub names: &'a mut [u64],
    pub sections: &'a mut [u64],
    pub inputs: &'a mut [u64],
    pub lists: &'a mut [u64],
}

// ---- the relocations of a section

// Their symbols, and how many symbols they can name.
#[derive(Clone, Copy)]
struct Relocations<'a> {
    symbols: &'a [u64],
    limit: usize,
}

impl<'a> Source<'a> {
    // The last table that applies to section n of that kind; none for an uninitialized one.
    #[tactic(auto, unfolding(crate::specs::Relocations::table_for))]
    fn table_for(self, n: usize, kind: u64) -> Option<u64>
        ensures { result ≡ table_in (table_for self.entry.work.now n kind) }
    {
        if kind != elf_object::PROGRAM {
            return None;
        }
        cells::row_get(self.work, n, elf_object::WORK_RELOCATIONS).checked_sub(1)
    }

    // Those of section n, among the object's contents; none for no table. They name symbols of the loaded symbol table, if their table links to it.
    #[tactic(auto, unfolding(crate::specs::Relocations::limit_of, crate::specs::Relocations::relocations_of, crate::specs::Relocations::symbols_ok, elf_object::specs::Rows::section_of))]
    fn relocations(self, n: usize, kind: u64) -> Relocations<'a>
        ensures symbols { result.symbols.now ≡ relocations_in self.entry n kind }
        ensures known { (ids : List ℕ) → symbols_ok ids result.limit result.symbols.now
            ≡ symbols_ok ids (limit_in self.entry n kind) (relocations_in self.entry n kind) }
    {
        match self.table_for(n, kind) {
            None => Relocations {
                symbols: &self.object.contents[..0],
                limit: 0,
            },
            Some(t) => {
                let first = cells::row_get(
                    self.object.headers,
                    t as usize,
                    elf_object::HEADER_FIRST,
                );
                let count = cells::row_get(
                    self.object.headers,
                    t as usize,
                    elf_object::HEADER_COUNT,
                );
                let linked = cells::row_get(
                    self.object.headers,
                    t as usize,
                    elf_object::HEADER_LINK,
                );
                Relocations {
                    symbols: cells::part_of(self.object.contents, first as usize, count as usize),
                    limit: if linked == self.object.table as u64 {
                        self.symbols
                    } else {
                        0
                    },
                }
            }
        }
    }

    // Is section n of that kind, not excluded and not removed?
    #[tactic(auto, unfolding(crate::specs::Build::built_from))]
    fn builds(self, n: usize, kind: u64) -> bool
        ensures { result ≡ built_from self.entry.object.headers.now self.entry.work.now n kind }
    {
        self.object.is_loaded_as(n, kind)
            && cells::row_get(self.work, n, elf_object::WORK_MARK) != elf_object::REMOVED_MARK
    }
}

#[tactic(auto, unfolding(crate::specs::Relocations::symbol_ok))]
fn symbol_ok(ids: &[u64], limit: usize, k: u64) -> bool
    ensures { result ≡ symbol_ok ids.now limit k }
{
    k < limit as u64 && cells::get(ids, k as usize) != 0
}

// Does each of the symbols have an id?
fn symbols_ok(ids: &[u64], limit: usize, symbols: &[u64]) -> bool
    ensures { result ≡ symbols_ok ids.now limit symbols.now }
{
    symbols.iter().all(|&k| symbol_ok(ids, limit, k))
}

#[tactic(auto, unfolding(crate::specs::Relocations::id_in))]
fn id_of(ids: &[u64], k: u64) -> u64
    ensures { result ≡ id_in ids.now k }
{
    cells::get(ids, k as usize).saturating_sub(1)
}

// Their ids, written into the lists from a place on.
fn append_ids(lists: &mut [u64], at: usize, ids: &[u64], symbols: &[u64])
    requires { at + length symbols.now ≤ length lists.old }
    ensures { lists.new ≡ append_from ids.now lists.old at symbols.now }
{
    for (j, &k) in symbols.iter().enumerate() {
        cells::put(lists, at + j, id_of(ids, k));
    }
}

// ---- one section

// Kept: of counts in memory; elf_object's, of numbers of a file, is its own, and public it would be no plainer here for its casts.
#[tactic(auto, unfolding(elf_object::specs::Judge::range_ok))]
fn lists_fit(used: usize, all: usize, more: usize) -> bool
    ensures { result ≡ lists_fit used all more }
{
    used <= all && more <= all - used
}

// The id of the row that was reserved, from the conversion's cell.
#[tactic(auto, unfolding(crate::specs::Build::section_id_of))]
fn section_id(cell: u64) -> SectionId
    ensures { result ≡ section_id_of cell }
{
    SectionId(cell.saturating_sub(elf_object::ID_BASE) as usize)
}

// The row of section n of an object, under that name, its relocations' symbols at the lists' end.
// Kept: loose parameters; a struct of them would be the row itself, but for its flags.
fn section_row(
    object: Object<'_>,
    n: usize,
    kind: u64,
    name: Interned,
    first: usize,
    count: usize,
) -> Section
    ensures { result ≡ section_row object.entry.headers.now n kind name first count }
{
    let flags = cells::row_get(object.headers, n, elf_object::HEADER_FLAGS);
    Section {
        name,
        kind,
        retain: flags / elf_object::RETAIN_FLAG % 2,
        read: flags / elf_object::READ_FLAG % 2,
        first: first as u64,
        count: count as u64,
        size: cells::row_get(object.headers, n, elf_object::HEADER_SIZE),
    }
}

impl Builder<'_> {
    // The relocations' symbols at the lists' end, and the row that was reserved for section n.
    // Kept: loose parameters; a struct of them would be made for this one call.
    #[tactic(auto, unfolding(crate::specs::Build::build_row_of))]
    fn build_row(
        &mut self,
        source: Source<'_>,
        symbols: &[u64],
        name: Interned,
        n: usize,
        kind: u64,
    )
        requires { lists_fit self.old.link.lists (length self.old.lists.now) (length symbols.now) ≡ true }
        ensures loans { same_loans self.old self.new }
        ensures value { state_before self.new ≡ row_built self.old.bytes.now self.old.names.now
            (row_in source.entry (row_before self.old) symbols.now name n kind) }
        ensures inputs { self.new.inputs.now ≡ self.old.inputs.now }
    {
        let first = self.link.lists;
        let count = symbols.len();
        append_ids(self.lists, first, source.ids, symbols);
        self.link.lists = first + count;
        let row = section_row(source.object, n, kind, name, first, count);
        let cell = cells::row_get(source.work, n, elf_object::WORK_CONVERSION);
        sections::build(self.sections, section_id(cell), row);
    }

    // A section whose name is found: 2 of the name; 19, and the name is issued; 2 of the lists; else its row is built.
    #[tactic(auto, unfolding(crate::specs::Build::section_named, crate::specs::Build::tabled_of, crate::specs::Build::commit_of, crate::specs::Build::kept_of, crate::specs::Build::plan_of, crate::specs::Build::plan_with, interner::specs::Names::find_of, interner::specs::Names::keep_of, interner::specs::Names::keep_at))]
    fn build_named(
        &mut self,
        source: Source<'_>,
        x: &[u8],
        n: usize,
        kind: u64,
    ) -> Result<(), Refusal>
        ensures loans { same_loans self.old self.new }
        ensures value { state_after self.new result ≡ named_in source.entry (linked_before self.old) x.now n kind }
        ensures inputs { self.new.inputs.now ≡ self.old.inputs.now }
        ensures numbered { IfErr result (λ r. r.number ≢ 0) }
    {
        let relocations = source.relocations(n, kind);
        // Kept: the link is a field of the struct, which the other tables' calls need too, so it goes to the names and comes back.
        let mut names = NamesMut {
            link: self.link,
            bytes: self.bytes,
            cells: self.names,
        };
        // The name is hashed once.
        let head = names.read().head(x);
        let id = names.read().find_from(head, x);
        if !names.read().fits(id, x.len()) {
            return Err(Refusal::new(Cause::NoRoom, n));
        }
        let known = symbols_ok(source.ids, relocations.limit, relocations.symbols);
        if known && !lists_fit(self.link.lists, self.lists.len(), relocations.symbols.len()) {
            return Err(Refusal::new(Cause::NoRoom, n));
        }
        names.keep_at(id, head, x);
        self.link = names.link;
        if !known {
            return Err(Refusal::new(Cause::RelocationSymbolWithoutId, n));
        }
        self.build_row(source, relocations.symbols, id, n, kind);
        Ok(())
    }

    // Section n, if it is of that kind, not excluded and not removed: its name missing is 18.
    #[tactic(auto, unfolding(crate::specs::Build::section_of, crate::specs::Build::looked_of))]
    fn build_section(&mut self, source: Source<'_>, n: usize, kind: u64) -> Result<(), Refusal>
        ensures loans { same_loans self.old self.new }
        ensures value { state_after self.new result ≡ section_of (object_in source.entry) (state_before self.old) n kind }
        ensures inputs { self.new.inputs.now ≡ self.old.inputs.now }
        ensures numbered { IfErr result (λ r. r.number ≢ 0) }
    {
        if !source.builds(n, kind) {
            return Ok(());
        }
        let offset = cells::row_get(source.object.headers, n, elf_object::HEADER_NAME) as usize;
        match source.object.name_in(source.object.section_names, offset) {
            Some(x) => self.build_named(source, x, n, kind),
            None => Err(Refusal::new(Cause::SectionNameMissing, n)),
        }
    }

    // All sections of that kind, ascending, up to the first refusal.
    // Kept: a number: the call is public and takes any; a `Kind` would ask more of callers.
    pub fn build_sections(&mut self, source: Source<'_>, kind: u64) -> Result<(), Refusal>
        ensures loans { same_loans self.old self.new }
        ensures value { state_after self.new result ≡ build_of (object_in source.entry) (state_before self.old) kind }
        ensures inputs { self.new.inputs.now ≡ self.old.inputs.now }
        ensures numbered { IfErr result (λ r. r.number ≢ 0) }
    {
        for n in 0..source.object.section_count() {
            self.build_section(source, n, kind)?;
        }
        Ok(())
    }
}
