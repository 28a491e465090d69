// The merge of an object file, and its rows alone, and how many they are, for another language. A merge has the link and the answer in a header (ffi_cells); a header of
// fewer than 24 cells gives 1, and nothing is read or written. A count and a read have no link: its answer is a row of 8 cells, of which fewer give 1.
// Kept: slices one by one, as C lends them.
ghost use Rattle.std.specs.Prelude.{◌≡◌};
ghost use Rattle.ffi_cells.specs.Contract.{told_exit};
ghost use Rattle.ffi_merge.specs.FileContract.{count_exit, CountMeets, read_exit, ReadMeets, lent_rows, FileMeets};

// The answer's cells: the place; how many sections, symbols and relocations the file has, section numbers that its groups list, and work rows that
// its merge takes; 0.
#[tactic(auto, unfolding(crate::specs::FileCalls::count_call, crate::specs::FileCalls::count_told))]
pub fn count_file(answer: &mut [u64], file: &[u8]) -> u64
    ensures { CountMeets answer.old file.now (count_exit result answer) }
{
    if answer.len() < 8 {
        return ffi_cells::SHORT;
    }
    match elf_file::count(file) {
        Ok(c) => {
            let row = [
                0,
                c.sections,
                c.symbols,
                c.relocations,
                c.listed,
                c.work_rows,
                0,
                0,
            ];
            cells::row_store(answer, 0, row);
            0
        }
        Err(refusal) => {
            let place = refusal.place;
            cells::row_store(answer, 0, [place, 0, 0, 0, 0, 0, 0, 0]);
            refusal.number
        }
    }
}

// The answer's cells: the place; how many sections, symbols and cells of contents were written; the section of the sections' names; 0.
#[tactic(auto, unfolding(crate::specs::FileCalls::read_call, elf_file::specs::Read::read_of, elf_file::specs::Read::roomed_of))]
pub fn read_file(answer: &mut [u64], rows: &mut [u64], file: &[u8]) -> u64
    ensures { ReadMeets answer.old file.now rows.old (read_exit result answer rows) }
{
    if answer.len() < 8 {
        return ffi_cells::SHORT;
    }
    match elf_file::read(file, rows) {
        Ok(w) => {
            let row = [0, w.sections, w.entries, w.contents, w.strings, 0, 0, 0];
            cells::row_store(answer, 0, row);
            0
        }
        Err(refusal) => {
            cells::row_store(answer, 0, [refusal.place, 0, 0, 0, 0, 0, 0, 0]);
            refusal.number
        }
    }
}

#[tactic(auto, unfolding(crate::specs::FileCalls::file_call, ffi_cells::specs::Header::is_short))]
pub fn merge_file(
    header: &mut [u64],
    bytes: &mut [u8],
    names: &mut [u64],
    symbols: &mut [u64],
    sections: &mut [u64],
    inputs: &mut [u64],
    lists: &mut [u64],
    work: &mut [u64],
    ids: &mut [u64],
    rows: &mut [u64],
    file: &[u8],
) -> u64
    ensures { FileMeets header.old file.now (lent_rows bytes names symbols sections inputs lists work ids rows) (told_exit result header) }
{
    if header.len() < ffi_cells::HEADER_CELLS {
        return ffi_cells::SHORT;
    }
    let link = ffi_cells::link_in(header);
    let merge = merge_file::merge_file(
        link, bytes, names, symbols, sections, inputs, lists, work, ids, rows, file,
    );
    ffi_cells::tell(header, merge.link, crate::replied(merge.answer))
}
