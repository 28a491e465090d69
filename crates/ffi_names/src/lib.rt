// Names, for another language: the link and the answer lie in a header (ffi_cells). A header of fewer than 24 cells gives 1, and nothing is
// read or written.
// Kept: slices one by one, as C lends them.
#![tactic(auto)]

ghost use Rattle.std.specs.Prelude.{◌≡◌};
ghost use Rattle.interner.specs.Calls.{said, resolve_of};
ghost use Rattle.interner.specs.Lent.{store_read};
ghost use Rattle.ffi_cells.specs.Header.{saying};
ghost use Rattle.ffi_cells.specs.Contract.{told_exit};
ghost use Rattle.ffi_names.specs.Calls.{first_byte, resolve_reply, found_reply, find_reply};
ghost use Rattle.ffi_names.specs.Contract.{intern_exit, InternMeets, ResolveMeets, FindMeets};

use ffi_cells::Reply;
use interner::{Names, NamesMut};
use link::{Interned, Refusal};

// Kept: as ffi_symbols' `added`: one function for both would take a Result of a number, with a `map` at each call and a clause over it; no plainer.
fn interned(a: Result<Interned, Refusal>) -> Reply
    ensures { result ≡ saying (said a) }
{
    match a {
        Ok(id) => ffi_cells::result(id.0 as u64, 0, 0, 0),
        Err(refusal) => ffi_cells::refused(refusal),
    }
}

// The value is the name's id.
#[tactic(auto, using(crate::specs::Proof::Told::intern_told), unfolding(crate::specs::Calls::intern_call, ffi_cells::specs::Header::is_short))]
pub fn intern(header: &mut [u64], bytes: &mut [u8], names: &mut [u64], name: &[u8]) -> u64
    ensures { InternMeets header.old bytes.old names.old name.now (intern_exit result header bytes names) }
{
    if header.len() < ffi_cells::HEADER_CELLS {
        return ffi_cells::SHORT;
    }
    let mut lent = NamesMut {
        link: ffi_cells::link_in(header),
        bytes,
        cells: names,
    };
    let answer = lent.intern(name);
    ffi_cells::tell_names(header, lent.link.names, lent.link.bytes, interned(answer))
}

// Where a name starts in so many bytes, whatever its row holds.
#[tactic(auto, unfolding(crate::specs::Calls::first_byte, link::specs::Bounds::lesser))]
fn first_of(names: &[u64], id: usize, bytes: usize) -> u64
    ensures { result ≡ first_byte names.now id bytes }
{
    let start = cells::row_get(names, id, interner::START);
    start.min(bytes as u64)
}

#[tactic(auto, unfolding(crate::specs::Calls::part_reply))]
fn part_reply(names: Names<'_, '_>, id: Interned) -> Reply
    ensures { let n = names.entry in result ≡ resolve_reply n.bytes.now n.cells.now id.0 (resolve_of (store_read n) id) }
{
    match names.resolve(id) {
        Ok(name) => {
            let first = first_of(names.cells, id.0, names.bytes.len());
            ffi_cells::result(first, name.len() as u64, 0, 0)
        }
        Err(refusal) => ffi_cells::refused(refusal),
    }
}

// The values are where the name starts in the bytes, and its length.
#[tactic(auto, unfolding(crate::specs::Calls::resolve_call, ffi_cells::specs::Header::is_short))]
pub fn resolve(header: &mut [u64], bytes: &[u8], names: &[u64], id: usize) -> u64
    ensures { ResolveMeets header.old bytes.now names.now id (told_exit result header) }
{
    if header.len() < ffi_cells::HEADER_CELLS {
        return ffi_cells::SHORT;
    }
    let lent = Names {
        link: ffi_cells::link_in(header),
        bytes,
        cells: names,
    };
    ffi_cells::answer(header, part_reply(lent, Interned(id)))
}

#[tactic(auto, unfolding(crate::specs::Calls::found_reply))]
fn found_reply(id: usize, count: usize) -> Reply
    ensures { result ≡ found_reply id count }
{
    if id < count {
        ffi_cells::result(1, id as u64, 0, 0)
    } else {
        ffi_cells::result(0, 0, 0, 0)
    }
}

// A lookup: a broken link is accepted.
#[tactic(auto, unfolding(crate::specs::Calls::find_reply, link::specs::Judge::judged))]
fn find_reply(names: Names<'_, '_>, name: &[u8]) -> Reply
    ensures { result ≡ find_reply (store_read names.entry) name.now }
{
    if let Err(refusal) = names.judge() {
        return ffi_cells::refused(refusal);
    }
    found_reply(names.find(name).0, names.link.names)
}

// The values are 1 and the name's id where it was issued, else 0 and 0. No name is issued.
#[tactic(auto, unfolding(crate::specs::Calls::find_call, ffi_cells::specs::Header::is_short))]
pub fn find(header: &mut [u64], bytes: &[u8], names: &[u64], name: &[u8]) -> u64
    ensures { FindMeets header.old bytes.now names.now name.now (told_exit result header) }
{
    if header.len() < ffi_cells::HEADER_CELLS {
        return ffi_cells::SHORT;
    }
    let lent = Names {
        link: ffi_cells::link_in(header),
        bytes,
        cells: names,
    };
    ffi_cells::answer(header, find_reply(lent, name))
}
