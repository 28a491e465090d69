// The symbol stage of a merge: each symbol's name, the decision, and then what it writes.
#![tactic(auto)]

ghost use Rattle.std.specs.Prelude.{◌≡◌, ◌≢◌, IfErr, Ok, length};
ghost use Rattle.interner.specs.Hash.{head_cell};
ghost use Rattle.link.specs.Judge.{refused};
ghost use Rattle.symbol.specs.Codes.{file_cell};
ghost use Rattle.symbol_resolution.specs.Decide.{decision_of};
ghost use Rattle.merge_symbols.specs.Plan.{Numbered, place_of, planned_as};
ghost use Rattle.merge_symbols.specs.Stage.{accepted_in, accept_row, cell_of, commit_of, input_in, object_in, same_loans, state_after, state_before, symbol_named, symbol_of, symbols_of, table_in};

mod plan;

use crate::plan::Plan;
use elf_object::Object;
use interner::NamesMut;
use link::{Cause, Interned, Link, Refusal};
pub use plan::place_of;
use symbol_resolution::{Resolution, Table};

// What the stage writes, and the name of the last file symbol.
// Kept: that the loans stay is said by each call, since no field's type says which memory it lends.
#[derive(Drop)]
pub struct Symbols<'a> {
    pub link: Link,
    pub bytes: &'a mut [u8],
    pub names: &'a mut [u64],
    pub symbols: &'a mut [u64],
    pub sections: &'a mut [u64],
    pub ids: &'a mut [u64],
    pub file: Option<Interned>,
}

// The symbol's id and 1, in a table of that many rows; 0 for none.
fn cell_of(resolution: Resolution, count: usize) -> u64
    ensures { result ≡ cell_of (decision_of (Ok resolution)) count }
{
    match resolution {
        Resolution::Nothing => 0,
        _ => symbol::next(resolution.id(count).0) as u64,
    }
}

fn refusal(number: u64, id: Interned, i: usize) -> Refusal
    ensures { result ≡ refused number (place_of number id i) }
{
    Refusal {
        number,
        place: place_of(number, id, i),
    }
}

impl Symbols<'_> {
    // An accepted symbol: its row, and its id in its cell.
    #[tactic(auto, unfolding(crate::specs::Stage::accept_row, symbol_resolution::specs::Apply::apply_of))]
    fn accept(&mut self, plan: Plan, resolution: Resolution, i: usize)
        requires { plan.resolution ≡ Ok resolution }
        ensures loans { same_loans self.old self.new }
        ensures bytes { self.new.bytes.now ≡ self.old.bytes.now }
        ensures value { accepted_in self.new ≡ accept_row (table_in self.old) self.old.ids.now (planned_as plan) i (file_cell self.old.file) }
    {
        cells::put(self.ids, i, cell_of(resolution, self.link.symbols));
        let mut table = Table {
            link: self.link,
            names: self.names,
            symbols: self.symbols,
            sections: self.sections,
        };
        table.apply(plan.row, resolution);
        self.link = table.link;
        self.file = plan.file_after(self.file);
    }

    // Writes what was decided: nothing on 2; else the name is issued; then, unless refused, the row, and the symbol's id into its cell.
    #[tactic(auto, unfolding(crate::specs::Stage::commit_of, crate::specs::Stage::kept_of, interner::specs::Names::keep_of, interner::specs::Names::keep_at))]
    fn commit(&mut self, head: usize, x: &[u8], plan: Plan, i: usize) -> Result<(), Refusal>
        requires numbered_plan { Numbered plan.resolution }
        requires head_told { head ≡ head_cell self.old.link (length self.old.names.now) x.now }
        ensures loans { same_loans self.old self.new }
        ensures value { state_after self.new result ≡ commit_of (state_before self.old) x.now (planned_as plan) i }
        ensures numbered { IfErr result (λ r. r.number ≢ 0) }
    {
        match plan.resolution {
            Err(number) if number == u64::from(Cause::NoRoom) => {
                return Err(Refusal::new(Cause::NoRoom, i));
            }
            _ => {}
        }
        // Kept: the link is a field of the struct, which the other tables' calls need too, so it goes to the names and comes back.
        let mut names = NamesMut {
            link: self.link,
            bytes: self.bytes,
            cells: self.names,
        };
        names.keep_at(plan.id, head, x);
        self.link = names.link;
        match plan.resolution {
            Ok(resolution) => {
                self.accept(plan, resolution, i);
                Ok(())
            }
            Err(number) => Err(refusal(number, plan.id, i)),
        }
    }

    // One symbol: in the gABI's profile a local one of a removed section is dropped; its name missing is 9; else it is judged on the link as it stands,
    // then written.
    #[tactic(auto, unfolding(crate::specs::Stage::symbol_of, crate::specs::Stage::looked_of, crate::specs::Stage::symbol_named))]
    fn merge_symbol(
        &mut self,
        object: Object<'_>,
        work: &[u64],
        strings: usize,
        i: usize,
    ) -> Result<(), Refusal>
        ensures loans { same_loans self.old self.new }
        ensures value { state_after self.new result ≡ symbol_of (object_in object.entry work.now strings) (state_before self.old) i }
        ensures numbered { IfErr result (λ r. r.number ≢ 0) }
    {
        if self.link.gabi && section_groups::is_discarded(work, object.entries, i) {
            cells::put(self.ids, i, 0);
            return Ok(());
        }
        let offset = cells::row_get(object.entries, i, elf_object::ENTRY_NAME) as usize;
        let Some(x) = object.name_in(strings, offset) else {
            return Err(Refusal::new(Cause::SymbolNameMissing, i));
        };
        // The name is hashed once.
        let head = self.name_table().head(x);
        let plan = self.plan(object.entries, work, head, x, i);
        self.commit(head, x, plan, i)
    }

    // All symbols of the loaded table, ascending, up to the first refusal. Their names lie in the section of that number.
    pub fn merge_named(
        &mut self,
        object: Object<'_>,
        work: &[u64],
        strings: usize,
    ) -> Result<(), Refusal>
        ensures loans { same_loans self.old self.new }
        ensures value { state_after self.new result ≡ symbols_of (object_in object.entry work.now strings) (state_before self.old) }
        ensures numbered { IfErr result (λ r. r.number ≢ 0) }
    {
        for i in 0..object.symbol_count() {
            self.merge_symbol(object, work, strings, i)?;
        }
        Ok(())
    }

    // The same, of the string section that the table links to.
    pub fn merge_symbols(&mut self, object: Object<'_>, work: &[u64]) -> Result<(), Refusal>
        ensures loans { same_loans self.old self.new }
        ensures value { state_after self.new result ≡ symbols_of (input_in object.entry work.now) (state_before self.old) }
        ensures numbered { IfErr result (λ r. r.number ≢ 0) }
    {
        let strings = cells::row_get(
            object.headers,
            object.table,
            elf_object::HEADER_LINK,
        ) as usize;
        self.merge_named(object, work, strings)
    }
}
