// The symbols of a shared object: one is added for each that it defines, and the names that it lacks are recorded. Each element is judged in full
// before its first cell is written.
ghost use Rattle.std.specs.Prelude.{◌≡◌, ◌≢◌, IfErr, Ok, length};
ghost use Rattle.interner.specs.Hash.{head_cell};
ghost use Rattle.symbol_resolution.specs.Decide.{decision_of};
ghost use Rattle.merge_symbols.specs.Plan.{Numbered};
ghost use Rattle.shared_objects.specs.Lent.{same_loans, same_lists};
ghost use Rattle.shared_objects.specs.Define.{judged_of, plan_of, accept_of, commit_of, define_of, added_after, added_before, definition_as, rowed_in, table_in, view_in};
ghost use Rattle.shared_objects.specs.SymbolsLoad.{library_symbol_named, symbol_of, symbols_of, state_after, state_before};

use crate::{Library, Loading};
use link::{Cause, Interned, Refusal};
use symbol::Row;
use symbol_resolution::{Resolution, Table};

// What is to be done with a symbol that the library defines, under a name that has or would get this id; or the number that refuses it, as
// symbol_resolution tells it.
#[derive(Clone, Copy)]
pub struct Definition {
    pub id: Interned,
    pub row: Row,
    // Kept: a number, as symbol_resolution::resolve tells it.
    pub resolution: Result<Resolution, u64>,
}

// ---- a symbol that the library defines

impl Loading<'_> {
    // A name that is neither known nor has room is 2; then add's rules.
    // Kept: refused with a number, as symbol_resolution::resolve tells it.
    #[tactic(auto, unfolding(crate::specs::Define::judged_of))]
    fn resolve(&self, len: usize, row: Row) -> Result<Resolution, u64>
        ensures value { decision_of result ≡ judged_of (view_in self.now) len row }
        ensures numbered { Numbered result }
    {
        if !self.name_table().fits(row.name, len) {
            return Err(Cause::NoRoom.into());
        }
        let symbols = &*self.symbols;
        let holder = symbol_resolution::holder_of(self.link, self.names, symbols, row.name);
        symbol_resolution::resolve(self.link, symbols, self.sections, row, holder)
    }

    // The symbol named x, where the head of the name's chain is told, as an externally defined one: read only.
    #[tactic(auto, unfolding(crate::specs::Define::plan_of, crate::specs::Define::external_of, crate::specs::Define::rowed_of, interner::specs::Names::find_of))]
    fn plan(&self, head: usize, x: &[u8], binding: u64, visibility: u64) -> Definition
        requires { head ≡ head_cell self.now.link (length self.now.names.now) x.now }
        ensures value { definition_as result ≡ plan_of (view_in self.now) x.now binding visibility }
        ensures numbered { Numbered result.resolution }
    {
        let id = self.name_table().find_from(head, x);
        let row = upcoming_symbol::external_row(self.link.gabi, id, binding, visibility);
        Definition {
            id,
            row,
            resolution: self.resolve(x.len(), row),
        }
    }

    // The row of an accepted symbol.
    #[tactic(auto, unfolding(crate::specs::Define::accept_of, symbol_resolution::specs::Apply::apply_of))]
    fn accept(&mut self, row: Row, resolution: Resolution)
        ensures loans { same_loans self.old self.new }
        ensures lists { same_lists self.old self.new }
        ensures bytes { self.new.bytes.now ≡ self.old.bytes.now }
        ensures value { rowed_in self.new ≡ accept_of (table_in self.old) row (decision_of (Ok resolution)) }
    {
        let mut table = Table {
            link: self.link,
            names: self.names,
            symbols: self.symbols,
            sections: self.sections,
        };
        table.apply(row, resolution);
        self.link = table.link;
    }

    // Writes what was decided: nothing on 2; else the name is issued; then, unless refused, the row.
    #[tactic(auto, unfolding(crate::specs::Define::commit_of, crate::specs::Define::kept_of))]
    fn commit(&mut self, head: usize, x: &[u8], plan: Definition, i: usize) -> Result<(), Refusal>
        requires numbered_plan { Numbered plan.resolution }
        requires head_told { head ≡ head_cell self.old.link (length self.old.names.now) x.now }
        ensures loans { same_loans self.old self.new }
        ensures lists { same_lists self.old self.new }
        ensures value { added_after self.new result ≡ commit_of (added_before self.old) x.now (definition_as plan) i }
        ensures numbered { IfErr result (λ r. r.number ≢ 0) }
    {
        match plan.resolution {
            Err(number) if number == u64::from(Cause::NoRoom) => {
                return Err(Refusal::new(Cause::NoRoom, i));
            }
            _ => {}
        }
        self.keep(plan.id, head, x);
        match plan.resolution {
            Ok(resolution) => {
                self.accept(plan.row, resolution);
                Ok(())
            }
            Err(number) => Err(Refusal {
                number,
                place: merge_symbols::place_of(number, plan.id, i),
            }),
        }
    }

    #[tactic(auto, unfolding(crate::specs::Define::define_of))]
    fn define(&mut self, x: &[u8], binding: u64, visibility: u64, i: usize) -> Result<(), Refusal>
        ensures loans { same_loans self.old self.new }
        ensures lists { same_lists self.old self.new }
        ensures value { added_after self.new result ≡ define_of (added_before self.old) x.now binding visibility i }
        ensures numbered { IfErr result (λ r. r.number ≢ 0) }
    {
        // The name is hashed once.
        let head = self.name_table().head(x);
        let plan = self.plan(head, x, binding, visibility);
        self.commit(head, x, plan, i)
    }

    // ---- all symbols

    // A symbol named x: defined, it is added, a local one too; undefined of binding 1, its name is recorded; else nothing is done.
    #[tactic(auto, unfolding(crate::specs::SymbolsLoad::library_symbol_named))]
    fn load_symbol_named(
        &mut self,
        library: &Library<'_>,
        x: &[u8],
        i: usize,
    ) -> Result<(), Refusal>
        ensures loans { same_loans self.old self.new }
        ensures inputs { self.new.inputs.now ≡ self.old.inputs.now }
        ensures value { state_after self.new result ≡ library_symbol_named library.now.entries.now (state_before self.old) x.now i }
        ensures numbered { IfErr result (λ r. r.number ≢ 0) }
    {
        let binding = cells::row_get(library.entries, i, elf_object::ENTRY_BINDING);
        if cells::row_get(library.entries, i, elf_object::ENTRY_SECTION)
            != upcoming_symbol::SHN_UNDEF
        {
            let visibility = cells::row_get(library.entries, i, elf_object::ENTRY_VISIBILITY);
            return self.define(x, binding, visibility, i);
        }
        if binding == upcoming_symbol::STB_GLOBAL {
            return self.record_name(x, i);
        }
        Ok(())
    }

    // One symbol: its name missing is 9.
    #[tactic(auto, unfolding(crate::specs::SymbolsLoad::symbol_of, crate::specs::SymbolsLoad::looked_of))]
    fn load_symbol(&mut self, library: &Library<'_>, i: usize) -> Result<(), Refusal>
        ensures loans { same_loans self.old self.new }
        ensures inputs { self.new.inputs.now ≡ self.old.inputs.now }
        ensures value { state_after self.new result ≡ symbol_of library.now.entries.now library.now.file.now (state_before self.old) i }
        ensures numbered { IfErr result (λ r. r.number ≢ 0) }
    {
        match library.symbol_name(i) {
            Some(x) => self.load_symbol_named(library, x, i),
            None => Err(Refusal::new(Cause::SymbolNameMissing, i)),
        }
    }

    // All symbols, ascending, up to the first refusal.
    pub(super) fn load_symbols(&mut self, library: &Library<'_>) -> Result<(), Refusal>
        ensures loans { same_loans self.old self.new }
        ensures inputs { self.new.inputs.now ≡ self.old.inputs.now }
        ensures value { state_after self.new result ≡ symbols_of library.now.entries.now library.now.file.now (state_before self.old) }
        ensures numbered { IfErr result (λ r. r.number ≢ 0) }
    {
        for i in 0..library.symbol_count() {
            self.load_symbol(library, i)?;
        }
        Ok(())
    }
}
