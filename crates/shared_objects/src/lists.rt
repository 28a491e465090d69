// Names among the lists: those that a shared object lacks, and those of its dependencies. Each is judged in full before its first cell is written.
ghost use Rattle.std.specs.Prelude.{◌≡◌, ◌≢◌, IfErr, length};
ghost use Rattle.interner.specs.Hash.{head_cell};
ghost use Rattle.interner.specs.Names.{keep_of};
ghost use Rattle.shared_objects.specs.Lent.{same_loans, same_rows, same_lists};
ghost use Rattle.shared_objects.specs.Record.{record_fits, keep_name, record_of, dependency_of, dependencies_of, recorded_after, recorded_before, store_in};

use crate::{Library, Loading};
use interner::{Names, NamesMut};
use link::{Cause, Interned, Refusal};

impl Loading<'_> {
    // The names, to be read.
    // Kept: as in merge_symbols; a trait of structs that hold names would be longer than both.
    pub(super) fn name_table(&self) -> Names<'_, '_>
        ensures link { result.link ≡ self.now.link }
        ensures bytes { result.bytes.now ≡ self.now.bytes.now }
        ensures cells { result.cells.now ≡ self.now.names.now }
    {
        Names {
            link: self.link,
            bytes: self.bytes,
            cells: self.names,
        }
    }

    // Issues the id for x, where the head of its chain is told; nothing changes for a known name.
    // Inlined, as those that call it: else the link goes through memory.
    #[inline(always)]
    #[tactic(auto, unfolding(interner::specs::Names::keep_of, interner::specs::Names::keep_at))]
    pub(super) fn keep(&mut self, id: Interned, head: usize, x: &[u8])
        requires { head ≡ head_cell self.old.link (length self.old.names.now) x.now }
        ensures loans { same_loans self.old self.new }
        ensures rows { same_rows self.old self.new }
        ensures lists { same_lists self.old self.new }
        ensures value { store_in self.new ≡ keep_of (store_in self.old) id x.now }
    {
        // Kept: the link is a field of the struct, which the other tables' calls need too, so it goes to the names and comes back.
        let mut names = NamesMut {
            link: self.link,
            bytes: self.bytes,
            cells: self.names,
        };
        names.keep_at(id, head, x);
        self.link = names.link;
    }

    // Is there room for the name, unless it is known, and for its cell?
    #[tactic(auto, unfolding(crate::specs::Record::record_fits))]
    fn record_fits(&self, id: Interned, len: usize) -> bool
        ensures { let s = self.now in result ≡ record_fits s.link s.bytes.now s.names.now (length s.lists.now) id len }
    {
        self.name_table().fits(id, len) && self.link.lists < self.lists.len()
    }

    // The name is issued, and its id written behind the lists' last.
    #[inline(always)]
    #[tactic(auto, unfolding(crate::specs::Record::keep_name))]
    fn keep_name(&mut self, id: Interned, head: usize, x: &[u8])
        requires { head ≡ head_cell self.old.link (length self.old.names.now) x.now }
        ensures loans { same_loans self.old self.new }
        ensures rows { same_rows self.old self.new }
        ensures inputs { self.new.inputs.now ≡ self.old.inputs.now }
        ensures value { recorded_before self.new ≡ keep_name (recorded_before self.old) x.now id }
    {
        let at = self.link.lists;
        self.keep(id, head, x);
        cells::put(self.lists, at, id.0 as u64);
        self.link.lists = symbol::next(at);
    }

    // The name is issued and recorded; without room for both 2, and nothing changes.
    #[inline(always)]
    #[tactic(auto, unfolding(crate::specs::Record::record_of, crate::specs::Record::record_as, interner::specs::Names::find_of))]
    pub(super) fn record_name(&mut self, x: &[u8], place: usize) -> Result<(), Refusal>
        ensures loans { same_loans self.old self.new }
        ensures rows { same_rows self.old self.new }
        ensures inputs { self.new.inputs.now ≡ self.old.inputs.now }
        ensures value { recorded_after self.new result ≡ record_of (recorded_before self.old) x.now place }
        ensures numbered { IfErr result (λ r. r.number ≢ 0) }
    {
        let head = self.name_table().head(x);
        let id = self.name_table().find_from(head, x);
        if !self.record_fits(id, x.len()) {
            return Err(Refusal::new(Cause::NoRoom, place));
        }
        self.keep_name(id, head, x);
        Ok(())
    }

    #[tactic(auto, unfolding(crate::specs::Record::dependency_of))]
    fn record_dependency(&mut self, library: &Library<'_>, j: usize) -> Result<(), Refusal>
        ensures loans { same_loans self.old self.new }
        ensures rows { same_rows self.old self.new }
        ensures inputs { self.new.inputs.now ≡ self.old.inputs.now }
        ensures value { recorded_after self.new result ≡ dependency_of library.now.file.now library.now.needs.now (recorded_before self.old) j }
        ensures numbered { IfErr result (λ r. r.number ≢ 0) }
    {
        let offset = cells::get(library.needs, j) as usize;
        self.record_name(library.name_at(offset), j)
    }

    // The names of all dependencies, in order, up to the first refusal.
    pub(super) fn record_dependencies(&mut self, library: &Library<'_>) -> Result<(), Refusal>
        ensures loans { same_loans self.old self.new }
        ensures rows { same_rows self.old self.new }
        ensures inputs { self.new.inputs.now ≡ self.old.inputs.now }
        ensures value { recorded_after self.new result ≡ dependencies_of library.now.file.now library.now.needs.now (recorded_before self.old) }
        ensures numbered { IfErr result (λ r. r.number ≢ 0) }
    {
        for j in 0..library.needs.len() {
            self.record_dependency(library, j)?;
        }
        Ok(())
    }
}
