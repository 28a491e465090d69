// A new table, symbols added and removed, for another language: the link and the answer lie in a header (ffi_cells), a symbol that is to be added
// in cells of its own (ffi_cells). A header of fewer than 24 cells gives 1, and nothing is read or written; other cells that are too few give 1 at
// place 0 and are left.
// Kept: slices one by one, as C lends them.
#![tactic(auto)]

ghost use Rattle.std.specs.Prelude.{◌≡◌};
ghost use Rattle.symbols.specs.Calls.{said};
ghost use Rattle.symbols.specs.New as New;
ghost use Rattle.ffi_cells.specs.Header.{saying};
ghost use Rattle.ffi_symbols.specs.Calls.{new_told, add_known, add_after, new_after};
ghost use Rattle.ffi_symbols.specs.Contract.{new_exit, NewMeets, add_exit, AddMeets, remove_exit, RemoveMeets};

mod lookup;

use ffi_cells::Reply;
use link::{Cause, Link, Refusal, SymbolId};
pub use lookup::{get, get_global, section_symbol_id};
use symbol_resolution::Table;
use symbols::Symbols;
use upcoming_symbol::UpcomingSymbol;

// Kept: as ffi_names' `interned`: one function for both would take a Result of a number, with a `map` at each call and a clause over it; no plainer.
fn added(a: Result<SymbolId, Refusal>) -> Reply
    ensures { result ≡ saying (said a) }
{
    match a {
        Ok(id) => ffi_cells::result(id.0 as u64, 0, 0, 0),
        Err(refusal) => ffi_cells::refused(refusal),
    }
}

// The profiles' numbers.
// Kept: numbers, as C hands them in.
const OLD: u64 = 0;

const GABI: u64 = 1;

fn new_in(
    header: &mut [u64],
    key: usize,
    gabi: bool,
    bytes: &mut [u8],
    names: &mut [u64],
    symbols: &mut [u64],
    sections: &mut [u64],
) -> u64
    ensures { new_after result header bytes names symbols sections
        ≡ new_told header.old (New.new_of key gabi bytes.old names.old symbols.old sections.old) }
{
    match Symbols::new(key, gabi, bytes, names, symbols, sections) {
        Ok(table) => ffi_cells::tell(header, table.link, added(Ok(Symbols::NULL_SYMBOL_ID))),
        Err(refusal) => ffi_cells::tell(header, Link::no_names(0, 0), added(Err(refusal))),
    }
}

// The value is the null symbol's id. What the lent cells held before doesn't matter. Any number is a key of the names' hash; a profile is 0, the old one,
// or 1, the gABI's: another number gives 1 at place 0.
#[tactic(auto, unfolding(crate::specs::Calls::new_call, ffi_cells::specs::Header::is_short))]
pub fn new(
    header: &mut [u64],
    key: usize,
    profile: u64,
    bytes: &mut [u8],
    names: &mut [u64],
    symbols: &mut [u64],
    sections: &mut [u64],
) -> u64
    ensures { NewMeets header.old key profile bytes.old names.old symbols.old sections.old (new_exit result header bytes names symbols sections) }
{
    if header.len() < ffi_cells::HEADER_CELLS {
        return ffi_cells::SHORT;
    }
    match profile {
        OLD => new_in(header, key, false, bytes, names, symbols, sections),
        GABI => new_in(header, key, true, bytes, names, symbols, sections),
        _ => ffi_cells::answer(
            header,
            ffi_cells::refused(Refusal::new(Cause::OutOfRange, 0)),
        ),
    }
}

#[tactic(auto, using(crate::specs::Proof::Told::add_told), unfolding(crate::specs::Calls::add_known))]
fn add_known(
    header: &mut [u64],
    names: &mut [u64],
    symbols: &mut [u64],
    sections: &mut [u64],
    conversion: &[u64],
    u: UpcomingSymbol,
) -> u64
    ensures { add_after result header names symbols sections
        ≡ add_known header.old names.old symbols.old sections.old conversion.now u }
{
    let mut table = Table {
        link: ffi_cells::link_in(header),
        names,
        symbols,
        sections,
    };
    let answer = symbols::add(&mut table, conversion, u);
    ffi_cells::tell_symbols(header, table.link.symbols, added(answer))
}

// The value is the symbol's id.
#[tactic(auto, unfolding(crate::specs::Calls::add_call, ffi_cells::specs::Header::is_short))]
pub fn add(
    header: &mut [u64],
    names: &mut [u64],
    symbols: &mut [u64],
    sections: &mut [u64],
    conversion: &[u64],
    item: &[u64],
) -> u64
    ensures { AddMeets header.old names.old symbols.old sections.old conversion.now item.now (add_exit result header names symbols sections) }
{
    if header.len() < ffi_cells::HEADER_CELLS {
        return ffi_cells::SHORT;
    }
    if ffi_cells::is_item(item) {
        let u = ffi_cells::item_in(item);
        return add_known(header, names, symbols, sections, conversion, u);
    }
    ffi_cells::answer(
        header,
        ffi_cells::refused(Refusal::new(Cause::OutOfRange, 0)),
    )
}

// The value is the id.
#[tactic(auto, unfolding(crate::specs::Calls::remove_call, ffi_cells::specs::Header::is_short))]
pub fn remove(header: &mut [u64], symbols: &mut [u64], sections: &mut [u64], id: usize) -> u64
    ensures { RemoveMeets header.old symbols.old sections.old id (remove_exit result header symbols sections) }
{
    if header.len() < ffi_cells::HEADER_CELLS {
        return ffi_cells::SHORT;
    }
    let table = Symbols {
        link: ffi_cells::link_in(header),
    };
    let answer = symbols::remove(table, symbols, sections, SymbolId(id));
    ffi_cells::tell(header, table.link, added(answer))
}
