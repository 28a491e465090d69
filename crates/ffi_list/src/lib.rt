// A list of adds, for another language: the link and the answer lie in a header (ffi_cells), the list's rows and the cells for ids in cells of their
// own (add_list). A header of fewer than 24 cells gives 1, and nothing is read or written.
// Kept: slices one by one, as C lends them.
#![tactic(auto)]

ghost use Rattle.std.specs.Prelude.{◌≡◌};
ghost use Rattle.link.specs.Judge.{refusal_in};
ghost use Rattle.ffi_list.specs.Calls.{reply_of};
ghost use Rattle.ffi_list.specs.Contract.{list_exit, ListMeets};

use add_list::Listed;
use ffi_cells::Reply;
use symbol_resolution::Table;

fn reply(listed: Listed) -> Reply
    ensures { result ≡ reply_of (refusal_in listed.answer) listed.position }
{
    let reply = match listed.answer {
        Ok(()) => ffi_cells::result(0, 0, 0, 0),
        Err(refusal) => ffi_cells::refused(refusal),
    };
    Reply {
        first: listed.position as u64,
        ..reply
    }
}

// The value, of a refusal too, is the position: of the refused add, else how many were added.
#[tactic(auto, unfolding(crate::specs::Calls::list_call, ffi_cells::specs::Header::is_short))]
pub fn add_list(
    header: &mut [u64],
    names: &mut [u64],
    symbols: &mut [u64],
    sections: &mut [u64],
    conversion: &[u64],
    adds: &[u64],
    ids: &mut [u64],
) -> u64
    ensures { ListMeets header.old names.old symbols.old sections.old conversion.now adds.now ids.old (list_exit result header names symbols sections ids) }
{
    if header.len() < ffi_cells::HEADER_CELLS {
        return ffi_cells::SHORT;
    }
    let mut table = Table {
        link: ffi_cells::link_in(header),
        names,
        symbols,
        sections,
    };
    let listed = add_list::add_list(&mut table, conversion, adds, ids);
    ffi_cells::tell(header, table.link, reply(listed))
}
