// The load of a shared object, for another language: the link and the answer lie in a header (ffi_cells). A header of fewer than 24 cells gives 1,
// and nothing is read or written.
#![tactic(auto)]

ghost use Rattle.std.specs.Prelude.{◌≡◌};
ghost use Rattle.shared_objects.specs.Load.{said_of, library_in};
ghost use Rattle.ffi_cells.specs.Header.{saying};
ghost use Rattle.ffi_cells.specs.Contract.{told_exit};
ghost use Rattle.ffi_load.specs.Contract.{link_rows, LoadMeets};

use ffi_cells::Reply;
use link::Refusal;
use shared_objects::Load;

fn loaded(answer: Result<Load, Refusal>) -> Reply
    ensures { result ≡ saying (said_of answer) }
{
    match answer {
        Ok(Load::Loaded) => ffi_cells::result(1, 0, 0, 0),
        Ok(Load::NotNeeded) => ffi_cells::result(0, 0, 0, 0),
        Err(refusal) => ffi_cells::refused(refusal),
    }
}

// The value is 1 where the library is loaded, 0 where it isn't needed.
// Kept: slices one by one, as the exported call (hidvorn) has them, and flags with their values.
#[tactic(auto, unfolding(crate::specs::Calls::load_call, ffi_cells::specs::Header::is_short))]
pub fn load_shared_object<'a>(
    header: &mut [u64],
    bytes: &mut [u8],
    names: &mut [u64],
    symbols: &mut [u64],
    sections: &mut [u64],
    inputs: &mut [u64],
    lists: &mut [u64],
    marks: &mut [u64],
    entries: &[u64],
    file: &'a [u8],
    needs: &[u64],
    path: &'a [u8],
    archived: bool,
    sonamed: bool,
    soname: usize,
    asneeded: bool,
) -> u64
    ensures { LoadMeets header.old (library_in entries file needs path archived sonamed soname asneeded) (link_rows bytes names symbols sections inputs lists marks) (told_exit result header) }
{
    if header.len() < ffi_cells::HEADER_CELLS {
        return ffi_cells::SHORT;
    }
    let link = ffi_cells::link_in(header);
    let o = shared_objects::load_shared_object(
        link, bytes, names, symbols, sections, inputs, lists, marks, entries, file, needs, path,
        archived, sonamed, soname, asneeded,
    );
    ffi_cells::tell(header, o.link, loaded(o.answer))
}
