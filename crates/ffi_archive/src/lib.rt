// The walk over an archive's members, and admission, for another language: the answer lies in a header (ffi_cells), the walk in seven cells. A
// header of fewer than 24 cells gives 1, and nothing is read or written; a walk of fewer than seven gives 1 at place 0 and is left.
// Kept: slices one by one, as C lends them.
#![tactic(auto)]

ghost use Rattle.std.specs.Prelude.{◌≡◌};
ghost use Rattle.archive_index.specs.Archives.{archives_lent};
ghost use Rattle.archive_walk.specs.Walk.{started_of};
ghost use Rattle.ffi_cells.specs.Contract.{told_exit};
ghost use Rattle.ffi_archive.specs.Cells.{walk_in, walk_out};
ghost use Rattle.ffi_archive.specs.Calls.{begun_reply, offered_reply, admitted_reply};
ghost use Rattle.ffi_archive.specs.Contract.{walk_exit, StartMeets, NextMeets, shadowed_exit, ShadowedMeets, MatchesMeets, would_exit, WouldMeets};

use archive_index::{Archives, Entries};
use archive_walk::{Offer, Table, Walk};
use elf_object::Object;
use ffi_cells::Reply;
use link::{Cause, Refusal};

// ---- a walk

// The cells of a walk: its fields, in their order.
const WALK_CELLS: usize = 7;

#[tactic(auto, unfolding(crate::specs::Cells::walk_in))]
pub fn walk_in(walk: &[u64]) -> Walk
    ensures { result ≡ walk_in walk.now }
{
    Walk {
        key: cells::get(walk, 0) as usize,
        entries: cells::get(walk, 1) as usize,
        length: cells::get(walk, 2) as usize,
        passes: cells::get(walk, 3) as usize,
        queued: cells::get(walk, 4) as usize,
        offered: cells::get(walk, 5) as usize,
        done: ffi_cells::is_set(cells::get(walk, 6)),
    }
}

#[tactic(auto, unfolding(crate::specs::Cells::walk_out, crate::specs::Cells::index_out, crate::specs::Cells::counts_out))]
pub fn put_walk(walk: &mut [u64], w: Walk)
    ensures { walk.new ≡ walk_out walk.old w }
{
    cells::put(walk, 0, w.key as u64);
    cells::put(walk, 1, w.entries as u64);
    cells::put(walk, 2, w.length as u64);
    cells::put(walk, 3, w.passes as u64);
    cells::put(walk, 4, w.queued as u64);
    cells::put(walk, 5, w.offered as u64);
    cells::put(walk, 6, ffi_cells::flag(w.done));
}

// ---- answers

// Kept: begun, offered, counted and admitted are four functions, as each answer's values are its own.
fn begun(a: Result<Walk, Refusal>) -> Reply
    ensures { result ≡ begun_reply (started_of a).begun }
{
    match a {
        Ok(walk) => ffi_cells::result(walk.entries as u64, 0, 0, 0),
        Err(refusal) => ffi_cells::refused(refusal),
    }
}

fn offered(a: Result<Offer, Refusal>) -> Reply
    ensures { result ≡ offered_reply a }
{
    match a {
        Ok(
            Offer::Member {
                archive,
                offset,
                entry,
                passes,
            },
        ) => ffi_cells::result(
            archive.saturating_add(1) as u64,
            offset,
            entry as u64,
            passes as u64,
        ),
        Ok(Offer::Done { passes }) => ffi_cells::result(0, 0, 0, passes as u64),
        Err(refusal) => ffi_cells::refused(refusal),
    }
}

fn counted(a: Result<usize, Refusal>) -> Reply
    ensures { result ≡ begun_reply a }
{
    match a {
        Ok(n) => ffi_cells::result(n as u64, 0, 0, 0),
        Err(refusal) => ffi_cells::refused(refusal),
    }
}

fn admitted(a: Result<bool, Refusal>) -> Reply
    ensures { result ≡ admitted_reply a }
{
    match a {
        Ok(true) => ffi_cells::result(1, 0, 0, 0),
        Ok(false) => ffi_cells::result(0, 0, 0, 0),
        Err(refusal) => ffi_cells::refused(refusal),
    }
}

// ---- the calls

// The value is the number of entries; the link isn't looked at. The key may be any number.
#[tactic(auto, unfolding(crate::specs::Calls::start_call, crate::specs::Calls::start_fit, ffi_cells::specs::Header::is_short, crate::specs::Calls::no_walk))]
pub fn archive_start(
    header: &mut [u64],
    walk: &mut [u64],
    key: usize,
    index: &[u8],
    ends: &[u64],
    rows: &mut [u64],
) -> u64
    ensures { StartMeets header.old walk.old key (archives_lent index ends) rows.old (walk_exit result header walk rows) }
{
    if header.len() < ffi_cells::HEADER_CELLS {
        return ffi_cells::SHORT;
    }
    if walk.len() < WALK_CELLS {
        return ffi_cells::answer(
            header,
            ffi_cells::refused(Refusal::new(Cause::OutOfRange, 0)),
        );
    }
    let archives = Archives { bytes: index, ends };
    let started = Walk::start(key, archives, rows);
    put_walk(walk, started.unwrap_or(Walk::none()));
    ffi_cells::answer(header, begun(started))
}

// The values are the number of a member's archive and 1, its offset, the entry that queued it and the passes made; 0, 0, 0 and the passes where the walk
// is done.
#[tactic(auto, unfolding(crate::specs::Calls::next_call, crate::specs::Calls::next_fit, ffi_cells::specs::Header::is_short, crate::specs::Calls::no_walk))]
pub fn archive_next(
    header: &mut [u64],
    walk: &mut [u64],
    index: &[u8],
    ends: &[u64],
    rows: &mut [u64],
    bytes: &[u8],
    names: &[u64],
    symbols: &[u64],
) -> u64
    ensures { NextMeets header.old walk.old (archives_lent index ends) rows.old bytes.now names.now symbols.now (walk_exit result header walk rows) }
{
    if header.len() < ffi_cells::HEADER_CELLS {
        return ffi_cells::SHORT;
    }
    if walk.len() < WALK_CELLS {
        return ffi_cells::answer(
            header,
            ffi_cells::refused(Refusal::new(Cause::OutOfRange, 0)),
        );
    }
    let link = ffi_cells::link_in(header);
    let mut moved = walk_in(walk);
    let offer = pending_archive::next(&mut moved, index, ends, rows, link, bytes, names, symbols);
    put_walk(walk, moved);
    ffi_cells::answer(header, offered(offer))
}

// The value is how many entries are told; their positions are in the first cells lent for them.
#[tactic(auto, unfolding(crate::specs::Calls::shadowed_call, crate::specs::Calls::shadowed_fit, ffi_cells::specs::Header::is_short, crate::specs::Calls::no_walk))]
pub fn shadowed(
    header: &mut [u64],
    walk: &[u64],
    index: &[u8],
    rows: &[u64],
    bytes: &[u8],
    names: &[u64],
    symbols: &[u64],
    told: &mut [u64],
) -> u64
    ensures { ShadowedMeets header.old walk.now index.now rows.now bytes.now names.now symbols.now told.old (shadowed_exit result header told) }
{
    if header.len() < ffi_cells::HEADER_CELLS {
        return ffi_cells::SHORT;
    }
    if walk.len() < WALK_CELLS {
        return ffi_cells::answer(
            header,
            ffi_cells::refused(Refusal::new(Cause::OutOfRange, 0)),
        );
    }
    let table = Table {
        link: ffi_cells::link_in(header),
        bytes,
        names,
        symbols,
    };
    let entries = Entries { index, cells: rows };
    let answer = shadowed_members::shadowed(walk_in(walk), entries, table, told);
    ffi_cells::answer(header, counted(answer))
}

// The value is 1 where the object is admitted, else 0; of the link its profile alone is looked at.
#[tactic(auto, unfolding(crate::specs::Calls::matches_call, ffi_cells::specs::Header::is_short, crate::specs::Calls::no_walk))]
pub fn matches(
    header: &mut [u64],
    walk: &[u64],
    index: &[u8],
    rows: &[u64],
    entry: usize,
    headers: &[u64],
    entries: &[u64],
    contents: &[u64],
    image: &[u8],
) -> u64
    ensures { MatchesMeets header.old walk.now index.now rows.now entry headers.now entries.now contents.now image.now (told_exit result header) }
{
    if header.len() < ffi_cells::HEADER_CELLS {
        return ffi_cells::SHORT;
    }
    if walk.len() < WALK_CELLS {
        return ffi_cells::answer(
            header,
            ffi_cells::refused(Refusal::new(Cause::OutOfRange, 0)),
        );
    }
    let link = ffi_cells::link_in(header);
    let walk = walk_in(walk);
    let answer = object_requirement::matches(
        link, headers, entries, contents, image, walk, index, rows, entry,
    );
    ffi_cells::answer(header, admitted(answer))
}

// The value is how many symbols of the object are told; in the first cells lent for them stand pairs, a symbol's number and the id of the row.
#[tactic(auto, unfolding(crate::specs::Calls::would_call, ffi_cells::specs::Header::is_short))]
pub fn would_define(
    header: &mut [u64],
    bytes: &[u8],
    names: &[u64],
    symbols: &[u64],
    headers: &[u64],
    entries: &[u64],
    contents: &[u64],
    image: &[u8],
    told: &mut [u64],
) -> u64
    ensures { WouldMeets header.old bytes.now names.now symbols.now headers.now entries.now contents.now image.now told.old (would_exit result header told) }
{
    if header.len() < ffi_cells::HEADER_CELLS {
        return ffi_cells::SHORT;
    }
    let table = Table {
        link: ffi_cells::link_in(header),
        bytes,
        names,
        symbols,
    };
    let object = Object {
        headers,
        entries,
        contents,
        image,
        section_names: 0,
        table: 0,
    };
    let answer = untaken_member::would_define(object, table, told);
    ffi_cells::answer(header, counted(answer))
}
