// Who holds a name, what can be decided on an add, and the cells with the symbols of sections.
ghost use Rattle.std.specs.Prelude.{◌≡◌};
ghost use Rattle.symbol_resolution.specs.Holder.{holder_of};
ghost use Rattle.symbol_resolution.specs.RowsUndefined.{strong_undefined};
ghost use Rattle.symbol_resolution.specs.Decide.{section_cell, id_of, decision_of};
ghost use Rattle.symbol_resolution.specs.Apply.{set_section_symbol};

use link::{Interned, Link, SectionId, SymbolId};

#[derive(Clone, Copy)]
pub enum Holder {
    Unissued,
    Nobody,
    Removed,
    Known { id: SymbolId },
}

// What an accepted add does to the table. Nothing: the symbol gets no id, and nothing is written. Keep writes nothing; Amend passes hidden to the
// row that stays, and joins two commons.
#[derive(Clone, Copy)]
pub enum Resolution {
    Nothing,
    Keep { id: SymbolId },
    Append,
    Replace { id: SymbolId },
    Amend { id: SymbolId },
}

impl Resolution {
    // The id of the symbol, in a table of that many rows.
    pub fn id(self, count: usize) -> SymbolId
        ensures { result ≡ id_of (decision_of (Ok self)) count }
    {
        match self {
            Resolution::Nothing => SymbolId(0),
            Resolution::Append => SymbolId(count),
            Resolution::Keep { id } | Resolution::Replace { id } | Resolution::Amend { id } => id,
        }
    }
}

// ---- who holds a name

// Who holds the name: nobody a name that is to be issued. A row past the count isn't the link's, whatever the name's row says.
#[tactic(auto, unfolding(crate::specs::Holder::holder_of, crate::specs::Holder::held_by))]
pub fn holder_of(l: Link, names: &[u64], symbols: &[u64], name: Interned) -> Holder
    ensures { result ≡ holder_of l names.now symbols.now name }
{
    if l.names <= name.0 {
        return Holder::Nobody;
    }
    let id = cells::row_get(names, name.0, symbol::NAME_SYMBOL) as usize;
    if id == 0 || l.symbols <= id {
        return Holder::Nobody;
    }
    if cells::row_get(symbols, id, symbol::CELL_STATE) == symbol::REMOVED {
        return Holder::Removed;
    }
    Holder::Known { id: SymbolId(id) }
}

// Is the row undefined, global and not weak?
#[tactic(auto, unfolding(crate::specs::RowsUndefined::strong_undefined))]
pub fn is_strong_undefined(symbols: &[u64], id: SymbolId) -> bool
    ensures { result ≡ strong_undefined symbols.now id }
{
    let kind = cells::row_get(symbols, id.0, symbol::CELL_KIND);
    let scope = symbol::scope_at(symbols, id);
    kind == symbol::KIND_UNDEFINED && matches!(scope, symbol::GLOBAL | symbol::GLOBAL_HIDDEN)
}

// ---- the symbols of sections

// The cell for the symbol of a section, behind all rows of a slice of that length; the length where the section has none.
// Kept: a number and no Option, since a cell past the end is what `cells` takes for one that isn't there.
#[tactic(auto, unfolding(crate::specs::Decide::section_cell))]
pub fn section_cell(l: Link, len: usize, s: SectionId) -> usize
    ensures { result ≡ section_cell l len s.0 }
{
    if link::section_slots(len) < l.slots {
        return len;
    }
    if s.0 < l.slots {
        return l.slots * cells::ROW_CELLS + s.0;
    }
    len
}

// The cell's content, 0 for none; nothing is written where the section has no cell.
#[tactic(auto, unfolding(crate::specs::Apply::set_section_symbol))]
fn put_section_symbol(l: Link, sections: &mut [u64], s: SectionId, symbol: u64)
    ensures { sections.new ≡ set_section_symbol l sections.old s.0 symbol }
{
    let cell = section_cell(l, sections.len(), s);
    cells::put(sections, cell, symbol);
}

pub fn set_section_symbol(l: Link, sections: &mut [u64], s: SectionId, id: SymbolId)
    ensures { sections.new ≡ set_section_symbol l sections.old s.0 id.0 }
{
    put_section_symbol(l, sections, s, id.0 as u64);
}

// The section is left without a symbol.
pub fn clear_section_symbol(l: Link, sections: &mut [u64], s: SectionId)
    ensures { sections.new ≡ set_section_symbol l sections.old s.0 0 }
{
    put_section_symbol(l, sections, s, 0);
}
