// Lookups of symbols, for another language: the link and the answer lie in a header (ffi_cells), a symbol that was found in cells of its own
// (ffi_cells). A header of fewer than 24 cells gives 1, and nothing is read or written; fewer than 10 cells for a symbol give 1 at place 0 and are
// left.
// Kept: slices one by one, as C lends them.
ghost use Rattle.std.specs.Prelude.{◌≡◌};
ghost use Rattle.ffi_cells.specs.Contract.{told_exit};
ghost use Rattle.ffi_symbols.specs.LookupCalls.{found_of, section_symbol_reply, found_after};
ghost use Rattle.ffi_symbols.specs.LookupContract.{found_exit, GetMeets, GetGlobalMeets, SectionSymbolMeets};

use ffi_cells::Reply;
use link::{Cause, Interned, Refusal, SectionId, SymbolId};
use symbol::Symbol;
use symbols::Symbols;

// A symbol's id and the cells of its row.
const SYMBOL_CELLS: usize = 10;

// A symbol that was found goes out; there are no values.
fn found(header: &mut [u64], out: &mut [u64], a: Result<Symbol, Refusal>) -> u64
    ensures { found_after result header out ≡ found_of header.old out.old a }
{
    match a {
        Ok(symbol) => {
            ffi_cells::put_symbol(out, symbol);
            ffi_cells::answer(header, ffi_cells::result(0, 0, 0, 0))
        }
        Err(refusal) => ffi_cells::answer(header, ffi_cells::refused(refusal)),
    }
}

#[tactic(auto, unfolding(crate::specs::LookupCalls::look_call, crate::specs::LookupCalls::no_room, ffi_cells::specs::Header::is_short))]
pub fn get(header: &mut [u64], symbols: &[u64], id: usize, out: &mut [u64]) -> u64
    ensures { GetMeets header.old symbols.now id out.old (found_exit result header out) }
{
    if header.len() < ffi_cells::HEADER_CELLS {
        return ffi_cells::SHORT;
    }
    if out.len() < SYMBOL_CELLS {
        return ffi_cells::answer(
            header,
            ffi_cells::refused(Refusal::new(Cause::OutOfRange, 0)),
        );
    }
    let table = Symbols {
        link: ffi_cells::link_in(header),
    };
    found(header, out, symbols::get(table, symbols, SymbolId(id)))
}

#[tactic(auto, unfolding(crate::specs::LookupCalls::look_call, crate::specs::LookupCalls::no_room, ffi_cells::specs::Header::is_short))]
pub fn get_global(
    header: &mut [u64],
    names: &[u64],
    symbols: &[u64],
    name: usize,
    out: &mut [u64],
) -> u64
    ensures { GetGlobalMeets header.old names.now symbols.now name out.old (found_exit result header out) }
{
    if header.len() < ffi_cells::HEADER_CELLS {
        return ffi_cells::SHORT;
    }
    if out.len() < SYMBOL_CELLS {
        return ffi_cells::answer(
            header,
            ffi_cells::refused(Refusal::new(Cause::OutOfRange, 0)),
        );
    }
    let table = Symbols {
        link: ffi_cells::link_in(header),
    };
    let answer = symbols::get_global(table, names, symbols, Interned(name));
    found(header, out, answer)
}

fn section_symbol(a: Option<SymbolId>) -> Reply
    ensures { result ≡ section_symbol_reply a }
{
    match a {
        None => ffi_cells::result(0, 0, 0, 0),
        Some(id) => ffi_cells::result(1, id.0 as u64, 0, 0),
    }
}

// The values are 1 where the section has a symbol, and its id.
#[tactic(auto, unfolding(crate::specs::LookupCalls::section_symbol_call, ffi_cells::specs::Header::is_short))]
pub fn section_symbol_id(header: &mut [u64], sections: &[u64], section: usize) -> u64
    ensures { SectionSymbolMeets header.old sections.now section (told_exit result header) }
{
    if header.len() < ffi_cells::HEADER_CELLS {
        return ffi_cells::SHORT;
    }
    let table = Symbols {
        link: ffi_cells::link_in(header),
    };
    let symbol = symbols::section_symbol_id(table, sections, SectionId(section));
    ffi_cells::answer(header, section_symbol(symbol))
}
