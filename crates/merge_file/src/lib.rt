// The merge of an object file into a link: 22, its rows read into lent cells (26, 27, 2 at 0), then the merge of those rows.
#![tactic(auto)]

ghost use Rattle.std.specs.Prelude.{◌≡◌, ◌+◌, ◌*◌, ◌≤◌, length};
ghost use Rattle.cells.specs.Rows.{row_width};
ghost use Rattle.merge_stages.specs.Stages.{cells_in, object_read, same_loans, merge_before};
ghost use Rattle.merge_elf.specs.Merge.{left_after};
ghost use Rattle.merge_file.specs.MergeFile.{file_left, merge_file_of, cut_of, reading_of};
ghost use Rattle.merge_file.specs.Contract.{MergeFileMeets};

use elf_file::Written;
use elf_object::Object;
use link::{Cause, Link, Refusal};
use merge_elf::Outcome;
use merge_stages::Merge;

// The object whose rows a read wrote.
fn object_in<'a>(rows: &'a [u64], image: &'a [u8], written: Written) -> Object<'a>
    requires { written.sections * row_width + written.entries * row_width + written.contents ≤ length rows.now }
    ensures { object_read result ≡ cut_of image.now rows.now (reading_of written) }
{
    let sections = written.sections as usize;
    let entries = written.entries as usize;
    let start = sections * elf_object::ROW_WIDTH;
    let end = (sections + entries) * elf_object::ROW_WIDTH;
    Object {
        headers: cells::part_of(rows, 0, start),
        entries: cells::part_of(rows, start, entries * elf_object::ROW_WIDTH),
        contents: cells::part_of(rows, end, written.contents as usize),
        image,
        section_names: written.strings as usize,
        table: 0,
    }
}

// Merges an object image. Its rows are written into `rows`: 8 cells for each of its sections and for each symbol of its symbol tables, a cell for
// each relocation and each member of a group.
pub fn merge_image(merge: &mut Merge<'_>, rows: &mut [u64], image: &[u8]) -> Result<(), Refusal>
    ensures loans { same_loans merge.old merge.new }
    ensures value { file_left rows.new (left_after merge.new result) ≡ merge_file_of image.now rows.old (merge_before merge.old) }
{
    if merge.link.broken {
        return Err(Refusal::new(Cause::BrokenLink, 0));
    }
    let written = elf_file::read(image, rows)?;
    merge_elf::merge_object(merge, object_in(rows, image, written))
}

// The same of loose cells.
// Kept: loose parameters, as the C interface lends them.
pub fn merge_file(
    link: Link,
    bytes: &mut [u8],
    names: &mut [u64],
    symbols: &mut [u64],
    sections: &mut [u64],
    inputs: &mut [u64],
    lists: &mut [u64],
    work: &mut [u64],
    ids: &mut [u64],
    rows: &mut [u64],
    image: &[u8],
) -> Outcome
    ensures { MergeFileMeets image.now rows.old rows.new (cells_in bytes names symbols sections inputs lists work ids) link result }
{
    let mut merge = Merge {
        link,
        bytes,
        names,
        symbols,
        sections,
        inputs,
        lists,
        work,
        ids,
    };
    let answer = merge_image(&mut merge, rows, image);
    Outcome {
        link: merge.link,
        answer,
    }
}
