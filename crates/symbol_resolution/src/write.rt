// What an accepted add writes.
ghost use Rattle.std.specs.Prelude.{◌≡◌, Ok};
ghost use Rattle.symbol_resolution.specs.Apply.{note_name, note_section, append_of, replaced_in, joined, amended_in, applied};
ghost use Rattle.symbol_resolution.specs.Decide.{decision_of};
ghost use Rattle.symbol_resolution.specs.Lent.{same_loans, table_in};

use crate::rows::Resolution;
use link::{Link, SectionId, SymbolId};
use symbol::{Row, Words};

// The lent cells that an add may write, and the counts.
// Kept: that the loans stay is said by each call (`same_loans`), since no field's type says which memory it lends.
#[derive(Drop)]
pub struct Table<'a> {
    pub link: Link,
    pub names: &'a mut [u64],
    pub symbols: &'a mut [u64],
    pub sections: &'a mut [u64],
}

#[tactic(auto, unfolding(crate::specs::Apply::note_name))]
fn note_name(names: &mut [u64], row: Row, id: usize)
    ensures { names.new ≡ note_name names.old row id }
{
    if row.scope != symbol::LOCAL {
        cells::row_put(names, row.name.0, symbol::NAME_SYMBOL, id as u64);
    }
}

// A local section symbol becomes its section's symbol.
#[tactic(auto, unfolding(crate::specs::Apply::note_section))]
fn note_section(l: Link, sections: &mut [u64], row: Row, id: usize)
    ensures { sections.new ≡ note_section l sections.old row id }
{
    if row.scope == symbol::LOCAL && row.value.kind == symbol::KIND_SECTION {
        let section = SectionId(row.value.a as usize);
        crate::rows::set_section_symbol(l, sections, section, SymbolId(id));
    }
}

// The add takes the row.
#[tactic(auto, unfolding(crate::specs::Apply::replaced_in))]
fn replace(gabi: bool, symbols: &mut [u64], row: Row, id: SymbolId)
    ensures { symbols.new ≡ replaced_in gabi symbols.old row id }
{
    let old = symbol::scope_at(symbols, id);
    row.pass_hidden(gabi, old).store(symbols, id);
}

// Of two commons the first, with the larger size and the larger alignment.
#[tactic(auto, unfolding(crate::specs::Apply::joined))]
fn join(row: Row, add: Row) -> Row
    ensures { result ≡ joined row add }
{
    if !row.is_common() || !add.is_common() {
        return row;
    }
    Row {
        value: Words::new(row.value.kind, row.value.a.max(add.value.a), row.value.b),
        size: row.size.max(add.size),
        ..row
    }
}

// The row stays, joined with the add if both are common, and takes hidden from the add.
#[tactic(auto, unfolding(crate::specs::Apply::amended_in))]
fn amend(gabi: bool, symbols: &mut [u64], row: Row, id: SymbolId)
    ensures { symbols.new ≡ amended_in gabi symbols.old row id }
{
    let joined = join(Row::at(symbols, id), row);
    joined.pass_hidden(gabi, row.scope).store(symbols, id);
}

impl Table<'_> {
    #[inline(always)]
    #[tactic(auto, unfolding(crate::specs::Apply::append_of))]
    fn append(&mut self, row: Row)
        ensures same { same_loans self.old self.new }
        ensures appended { table_in self.new ≡ append_of (table_in self.old) row }
    {
        let id = self.link.symbols;
        row.store(self.symbols, SymbolId(id));
        note_name(self.names, row, id);
        note_section(self.link, self.sections, row, id);
        self.link.symbols = symbol::next(id);
    }

    // What the add of the row does.
    // Inlined, as what it calls: else the link and the row go through memory.
    #[inline(always)]
    pub fn apply(&mut self, row: Row, resolution: Resolution)
        ensures same { same_loans self.old self.new }
        ensures done { table_in self.new ≡ applied (table_in self.old) row (decision_of (Ok resolution)) }
    {
        match resolution {
            Resolution::Nothing | Resolution::Keep { .. } => {}
            Resolution::Append => self.append(row),
            Resolution::Replace { id } => replace(self.link.gabi, self.symbols, row, id),
            Resolution::Amend { id } => amend(self.link.gabi, self.symbols, row, id),
        }
    }

    // The same of what was decided: where the add is refused, nothing.
    pub fn apply_decision(&mut self, row: Row, decision: Result<Resolution, u64>)
        ensures same { same_loans self.old self.new }
        ensures done { table_in self.new ≡ applied (table_in self.old) row (decision_of decision) }
    {
        if let Ok(resolution) = decision {
            self.apply(row, resolution);
        }
    }
}
