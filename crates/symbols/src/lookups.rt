// Lookups in a symbol table: by id, by global name, by section.
// Kept: of the table the slices alone that a lookup reads, so that a caller needs no more.
ghost use Rattle.std.specs.Prelude.{◌≡◌};
ghost use Rattle.symbols.specs.Lookup.{found_at, held_of};
ghost use Rattle.symbols.specs.Contract.{GetMeets, GetGlobalMeets, SectionSymbolMeets};

use crate::Symbols;
use link::{Cause, Interned, Refusal, SectionId, SymbolId};
use symbol::Symbol;
use symbol_resolution::Holder;

#[tactic(auto, unfolding(crate::specs::Lookup::found_at))]
fn found_at(symbols: &[u64], id: SymbolId) -> Result<Symbol, Refusal>
    ensures { result ≡ found_at symbols.now id }
{
    if cells::row_get(symbols, id.0, symbol::CELL_STATE) == symbol::REMOVED {
        return Err(Refusal::new(Cause::AbsentId, id.0));
    }
    Ok(symbol::symbol_at(symbols, id))
}

fn held_at(symbols: &[u64], name: Interned, holder: Holder) -> Result<Symbol, Refusal>
    ensures { result ≡ held_of symbols.now name holder }
{
    match holder {
        Holder::Unissued | Holder::Nobody => Err(Refusal::new(Cause::UnknownGlobalName, 0)),
        Holder::Removed => Err(Refusal::new(Cause::AbsentId, name.0)),
        Holder::Known { id } => Ok(symbol::symbol_at(symbols, id)),
    }
}

#[tactic(auto, unfolding(crate::specs::Lookup::get_of, link::specs::Judge::judged))]
pub fn get(table: Symbols, symbols: &[u64], id: SymbolId) -> Result<Symbol, Refusal>
    ensures { GetMeets table.link symbols.now id result }
{
    let l = table.link;
    let lent = crate::lent_rows(l.chains, symbols.len(), l.slots);
    l.judge(lent)?;
    if l.symbols <= id.0 {
        return Err(Refusal::new(Cause::AbsentId, id.0));
    }
    found_at(symbols, id)
}

#[tactic(auto, unfolding(crate::specs::Lookup::get_global_of, link::specs::Judge::judged))]
pub fn get_global(
    table: Symbols,
    names: &[u64],
    symbols: &[u64],
    name: Interned,
) -> Result<Symbol, Refusal>
    ensures { GetGlobalMeets table.link names.now symbols.now name result }
{
    let l = table.link;
    let lent = crate::lent_rows(names.len() / link::NAME_CELLS, symbols.len(), l.slots);
    l.judge(lent)?;
    let holder = symbol_resolution::holder_of(l, names, symbols, name);
    held_at(symbols, name, holder)
}

// Any section may be asked, whether it is built or not. A row past the count isn't the link's, whatever the section's cell says.
#[tactic(auto, unfolding(crate::specs::Lookup::section_symbol_of))]
pub fn section_symbol_id(table: Symbols, sections: &[u64], section: SectionId) -> Option<SymbolId>
    ensures { SectionSymbolMeets table.link sections.now section result }
{
    let cell = symbol_resolution::section_cell(table.link, sections.len(), section);
    let id = cells::get(sections, cell) as usize;
    if id == 0 || table.link.symbols <= id {
        return None;
    }
    Some(SymbolId(id))
}
