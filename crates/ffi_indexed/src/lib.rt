// The calls of a table with an index, for another language: as ffi_symbols', with the names' bytes and the index's places lent besides; how many
// places are in use lies in cell 17 of the header.
#![tactic(auto)]

ghost use Rattle.std.specs.Prelude.{◌≡◌, length, drop};
ghost use Rattle.symbols.specs.Calls.{said};
ghost use Rattle.ffi_cells.specs.Header.{saying};
ghost use Rattle.indexed_table.specs.Indexed.{bounded};
ghost use Rattle.ffi_indexed.specs.Calls.{AddLeft, add_known, add_after, added_after, AddMeets, count_of, found_of, found_after, GetGlobalMeets};

use ffi_cells::Reply;
use indexed_table::LookedUp;
use link::{Cause, Interned, Refusal, SymbolId};
use name_index::{Index, IndexMut, NamedRows};
use symbol_resolution::Table;
use upcoming_symbol::UpcomingSymbol;

// The header's cell with the count of the index.
const COUNT: usize = 17;

// A symbol's id and the cells of its row.
const SYMBOL_CELLS: usize = 10;

fn added(a: Result<SymbolId, Refusal>) -> Reply
    ensures { result ≡ saying (said a) }
{
    match a {
        Ok(id) => ffi_cells::result(id.0 as u64, 0, 0, 0),
        Err(refusal) => ffi_cells::refused(refusal),
    }
}

#[tactic(auto, unfolding(crate::specs::Calls::add_known))]
fn add_known(
    header: &mut [u64],
    bytes: &[u8],
    names: &mut [u64],
    symbols: &mut [u64],
    sections: &mut [u64],
    places: &mut [u16],
    conversion: &[u64],
    u: UpcomingSymbol,
) -> u64
    ensures { added_after result header names symbols sections places
        ≡ add_known header.old bytes.now names.old symbols.old sections.old places.old conversion.now u }
{
    let mut table = Table {
        link: ffi_cells::link_in(header),
        names,
        symbols,
        sections,
    };
    let mut index = IndexMut {
        places,
        count: cells::get(header, COUNT) as usize,
    };
    let answer = indexed_table::add(&mut table, bytes, &mut index, conversion, u);
    cells::put(header, COUNT, index.count as u64);
    ffi_cells::tell(header, table.link, added(answer))
}

// The value is the symbol's id.
#[tactic(auto, unfolding(crate::specs::Calls::add_call, ffi_cells::specs::Header::is_short))]
pub fn add(
    header: &mut [u64],
    bytes: &[u8],
    names: &mut [u64],
    symbols: &mut [u64],
    sections: &mut [u64],
    places: &mut [u16],
    conversion: &[u64],
    item: &[u64],
) -> u64
    ensures told { AddMeets header.old bytes.now names.old symbols.old sections.old places.old conversion.now item.now
        (add_after result header names symbols sections places) }
    ensures rest { let end = bounded (length symbols.old) (length places.old) in drop end symbols.new ≡ drop end symbols.old }
{
    if header.len() < ffi_cells::HEADER_CELLS {
        return ffi_cells::SHORT;
    }
    if ffi_cells::is_item(item) {
        let u = ffi_cells::item_in(item);
        let end = indexed_table::bounded(symbols.len(), places.len());
        let cut = &mut symbols[..end];
        return add_known(header, bytes, names, cut, sections, places, conversion, u);
    }
    ffi_cells::answer(
        header,
        ffi_cells::refused(Refusal::new(Cause::OutOfRange, 0)),
    )
}

// A symbol that was found goes out; the value is the number of places read, of a refusal too.
fn found(header: &mut [u64], out: &mut [u64], a: LookedUp) -> u64
    ensures { found_after result header out ≡ found_of header.old out.old a }
{
    let reads = a.reads as u64;
    match a.answer {
        Ok(symbol) => {
            ffi_cells::put_symbol(out, symbol);
            ffi_cells::answer(header, ffi_cells::result(reads, 0, 0, 0))
        }
        Err(refusal) => ffi_cells::answer(
            header,
            Reply {
                first: reads,
                ..ffi_cells::refused(refusal)
            },
        ),
    }
}

#[tactic(auto, unfolding(crate::specs::Calls::get_global_call, ffi_cells::specs::Header::is_short))]
pub fn get_global(
    header: &mut [u64],
    bytes: &[u8],
    names: &[u64],
    symbols: &[u64],
    places: &[u16],
    name: usize,
    out: &mut [u64],
) -> u64
    ensures { GetGlobalMeets header.old bytes.now names.now symbols.now places.now name out.old (found_after result header out) }
{
    if header.len() < ffi_cells::HEADER_CELLS {
        return ffi_cells::SHORT;
    }
    if out.len() < SYMBOL_CELLS {
        return ffi_cells::answer(
            header,
            ffi_cells::refused(Refusal::new(Cause::OutOfRange, 0)),
        );
    }
    let rows = NamedRows {
        bytes,
        names,
        symbols,
    };
    let index = Index {
        places,
        count: cells::get(header, COUNT) as usize,
    };
    let answer = indexed_table::get_global(ffi_cells::link_in(header), rows, index, Interned(name));
    found(header, out, answer)
}
