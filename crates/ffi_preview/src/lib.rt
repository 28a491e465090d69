// The preview of an object, for another language: the link lies in a header and so does its copy (ffi_cells). The answer is told in both, and the
// link's cells stay. A header of fewer than 24 cells, of the two, gives 1, and nothing is read or written. There are no values.
// Kept: slices one by one, as C lends them.
#![tactic(auto)]

ghost use Rattle.std.specs.Prelude.{◌≡◌};
ghost use Rattle.ffi_preview.specs.Contract.{tables_in, copy_rows, preview_object, preview_exit, PreviewMeets};

use elf_object::Object;
use merge_stages::Merge;
use preview::Tables;

#[tactic(auto, unfolding(crate::specs::Calls::preview_call, ffi_cells::specs::Header::is_short))]
pub fn preview_elf(
    header: &mut [u64],
    bytes: &[u8],
    names: &[u64],
    symbols: &[u64],
    sections: &[u64],
    inputs: &[u64],
    lists: &[u64],
    copy: &mut [u64],
    copy_bytes: &mut [u8],
    copy_names: &mut [u64],
    copy_symbols: &mut [u64],
    copy_sections: &mut [u64],
    copy_inputs: &mut [u64],
    copy_lists: &mut [u64],
    work: &mut [u64],
    ids: &mut [u64],
    headers: &[u64],
    entries: &[u64],
    contents: &[u64],
    image: &[u8],
    shstrndx: usize,
) -> u64
    ensures { PreviewMeets header.old copy.old (preview_object headers entries contents image shstrndx) (tables_in bytes names symbols sections inputs lists)
        (copy_rows copy_bytes copy_names copy_symbols copy_sections copy_inputs copy_lists work ids) (preview_exit result header copy) }
{
    if header.len() < ffi_cells::HEADER_CELLS || copy.len() < ffi_cells::HEADER_CELLS {
        return ffi_cells::SHORT;
    }
    let tables = Tables {
        link: ffi_cells::link_in(header),
        bytes,
        names,
        symbols,
        sections,
        inputs,
        lists,
    };
    let mut place = Merge {
        link: ffi_cells::link_in(copy),
        bytes: copy_bytes,
        names: copy_names,
        symbols: copy_symbols,
        sections: copy_sections,
        inputs: copy_inputs,
        lists: copy_lists,
        work,
        ids,
    };
    let answer = preview::preview_object(
        tables,
        &mut place,
        Object {
            headers,
            entries,
            contents,
            image,
            section_names: shstrndx,
            table: 0,
        },
    );
    let reply = ffi_merge::replied(answer);
    ffi_cells::tell(copy, place.link, reply);
    ffi_cells::answer(header, reply)
}
