// Both collections, for another language: the link and the answer lie in a header (ffi_cells). A header of fewer than 24 cells gives 1, and nothing is
// read or written.
// Kept: slices one by one, as C lends them, and flags with their values.
#![tactic(auto)]

ghost use Rattle.std.specs.Prelude.{◌≡◌};
ghost use Rattle.gc_sections.specs.Run.{said_of, lists_in};
ghost use Rattle.ffi_collect.specs.Calls.{collected_reply, entry_of};
ghost use Rattle.ffi_collect.specs.Contract.{run_exit, RunMeets, PlainMeets};

use ffi_cells::Reply;
use gc_sections::Dropped;
use link::{Refusal, SymbolId};

// Kept: a match of its own, as each answer's values are its own.
fn collected(a: Result<Dropped, Refusal>) -> Reply
    ensures { result ≡ collected_reply (said_of a) }
{
    match a {
        Ok(Dropped { sections, symbols }) => {
            ffi_cells::result(sections as u64, symbols as u64, 0, 0)
        }
        Err(refusal) => ffi_cells::refused(refusal),
    }
}

#[tactic(auto, unfolding(crate::specs::Calls::entry_of))]
fn entry_of(entered: bool, entry: usize) -> Option<SymbolId>
    ensures { result ≡ entry_of entered entry }
{
    entered.then_some(SymbolId(entry))
}

// The entry symbol is `entry`, if one is given (`entered`). The values are how many sections were dropped, and how many symbols removed with them.
#[tactic(auto, unfolding(crate::specs::Calls::run_call, ffi_cells::specs::Header::is_short))]
pub fn gc_run(
    header: &mut [u64],
    bytes: &[u8],
    names: &[u64],
    symbols: &mut [u64],
    sections: &mut [u64],
    lists: &[u64],
    marks: &[u8],
    entered: bool,
    entry: usize,
    work: &mut [u64],
) -> u64
    ensures { RunMeets header.old (lists_in bytes names lists marks) symbols.old sections.old (entry_of entered entry) work.old (run_exit result header symbols sections work) }
{
    if header.len() < ffi_cells::HEADER_CELLS {
        return ffi_cells::SHORT;
    }
    let link = ffi_cells::link_in(header);
    let entry = entry_of(entered, entry);
    let o = gc_sections::run(
        link, bytes, names, symbols, sections, lists, marks, entry, work,
    );
    ffi_cells::tell(header, o.link, collected(o.answer))
}

// The same, by the plain collector.
// Kept: two bodies. A function of both that takes the collector as a closure was tried, over the lent slices (for a short header it isn't called, and
// nothing says then that they stay) and with them as its arguments: the proof didn't close.
#[tactic(auto, unfolding(crate::specs::Calls::plain_call, ffi_cells::specs::Header::is_short))]
pub fn plain_run(
    header: &mut [u64],
    bytes: &[u8],
    names: &[u64],
    symbols: &mut [u64],
    sections: &mut [u64],
    lists: &[u64],
    marks: &[u8],
    entered: bool,
    entry: usize,
    work: &mut [u64],
) -> u64
    ensures { PlainMeets header.old (lists_in bytes names lists marks) symbols.old sections.old (entry_of entered entry) work.old (run_exit result header symbols sections work) }
{
    if header.len() < ffi_cells::HEADER_CELLS {
        return ffi_cells::SHORT;
    }
    let link = ffi_cells::link_in(header);
    let entry = entry_of(entered, entry);
    let o = plain_collector::run(
        link, bytes, names, symbols, sections, lists, marks, entry, work,
    );
    ffi_cells::tell(header, o.link, collected(o.answer))
}
