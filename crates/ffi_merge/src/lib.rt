// The merge of an object, and a group added by itself, for another language: the link and the answer lie in a header (ffi_cells). A header of fewer
// than 24 cells gives 1, and nothing is read or written. There are no values.
// Kept: slices one by one, as C lends them.
#![tactic(auto)]

ghost use Rattle.std.specs.Prelude.{◌≡◌};
ghost use Rattle.link.specs.Judge.{refusal_in};
ghost use Rattle.ffi_cells.specs.Header.{refused_of};
ghost use Rattle.ffi_cells.specs.Contract.{told_exit};
ghost use Rattle.ffi_merge.specs.Contract.{group_exit, group_object, GroupMeets, link_rows, merge_object, MergeMeets};

mod file;

use ffi_cells::Reply;
pub use file::{count_file, merge_file, read_file};
use link::Refusal;

// Kept: a match of its own, as each answer's values are its own.
pub fn replied(a: Result<(), Refusal>) -> Reply
    ensures { result ≡ refused_of (refusal_in a) }
{
    match a {
        Ok(()) => ffi_cells::result(0, 0, 0, 0),
        Err(refusal) => ffi_cells::refused(refusal),
    }
}

// The group of section n; t is the section of the object's symbol table, whose entries are lent.
#[tactic(auto, unfolding(crate::specs::Calls::group_call, ffi_cells::specs::Header::is_short))]
pub fn add_group(
    header: &mut [u64],
    bytes: &mut [u8],
    names: &mut [u64],
    work: &mut [u64],
    headers: &[u64],
    entries: &[u64],
    contents: &[u64],
    image: &[u8],
    t: usize,
    n: usize,
) -> u64
    ensures { GroupMeets header.old (group_object headers entries contents image t) bytes.old names.old work.old n (group_exit result header bytes names work) }
{
    if header.len() < ffi_cells::HEADER_CELLS {
        return ffi_cells::SHORT;
    }
    let link = ffi_cells::link_in(header);
    let group = section_groups::add_group(
        link, bytes, names, work, headers, entries, contents, image, t, n,
    );
    ffi_cells::tell(header, group.link, replied(group.answer))
}

#[tactic(auto, unfolding(crate::specs::Calls::merge_call, ffi_cells::specs::Header::is_short))]
pub fn merge_elf(
    header: &mut [u64],
    bytes: &mut [u8],
    names: &mut [u64],
    symbols: &mut [u64],
    sections: &mut [u64],
    inputs: &mut [u64],
    lists: &mut [u64],
    work: &mut [u64],
    ids: &mut [u64],
    headers: &[u64],
    entries: &[u64],
    contents: &[u64],
    image: &[u8],
    shstrndx: usize,
) -> u64
    ensures { MergeMeets header.old (merge_object headers entries contents image shstrndx) (link_rows bytes names symbols sections inputs lists work ids) (told_exit result header) }
{
    if header.len() < ffi_cells::HEADER_CELLS {
        return ffi_cells::SHORT;
    }
    let link = ffi_cells::link_in(header);
    let merge = merge_elf::merge_elf(
        link, bytes, names, symbols, sections, inputs, lists, work, ids, headers, entries,
        contents, image, shstrndx,
    );
    ffi_cells::tell(header, merge.link, replied(merge.answer))
}
