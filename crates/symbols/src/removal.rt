// Removal of a symbol from a symbol table; what else its row holds stays.
ghost use Rattle.std.specs.Prelude.{◌≡◌};
ghost use Rattle.symbols.specs.Remove.{drop_section, remove_row_of, rows_after, rows_before};
ghost use Rattle.symbols.specs.Contract.{remove_exit, RemoveMeets};

use crate::Symbols;
use link::{Cause, Link, Refusal, SectionId, SymbolId};

// A removed section symbol leaves its section without one.
#[tactic(auto, unfolding(crate::specs::Remove::drop_section))]
fn drop_section(l: Link, sections: &mut [u64], kind: u64, section: u64)
    ensures { sections.new ≡ drop_section l sections.old kind section }
{
    if kind == symbol::KIND_SECTION {
        symbol_resolution::clear_section_symbol(l, sections, SectionId(section as usize));
    }
}

// The row's state becomes removed, and every other cell of it stays.
#[tactic(auto, unfolding(crate::specs::Remove::remove_row_of))]
pub fn remove_row(l: Link, symbols: &mut [u64], sections: &mut [u64], id: SymbolId)
    ensures { rows_after symbols sections ≡ remove_row_of l (rows_before symbols sections) id }
{
    if cells::row_get(symbols, id.0, symbol::CELL_STATE) == symbol::REMOVED {
        return;
    }
    let kind = cells::row_get(symbols, id.0, symbol::CELL_KIND);
    let section = cells::row_get(symbols, id.0, symbol::CELL_FIRST);
    cells::row_put(symbols, id.0, symbol::CELL_STATE, symbol::REMOVED);
    drop_section(l, sections, kind, section);
}

// A global name is never forgotten; a removed id is accepted and changes nothing.
#[tactic(auto, unfolding(crate::specs::Remove::remove_of, link::specs::Judge::judged))]
pub fn remove(
    table: Symbols,
    symbols: &mut [u64],
    sections: &mut [u64],
    id: SymbolId,
) -> Result<SymbolId, Refusal>
    ensures { RemoveMeets table.link (rows_before symbols sections) id (remove_exit symbols sections table.link result) }
{
    let l = table.link;
    let slots = sections.len() / link::SECTION_CELLS;
    l.judge_change(crate::lent_rows(l.chains, symbols.len(), slots))?;
    if l.symbols <= id.0 {
        return Err(Refusal::new(Cause::AbsentId, id.0));
    }
    remove_row(l, symbols, sections, id);
    Ok(id)
}
