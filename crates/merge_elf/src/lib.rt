// The merge of an object into a link: its head, its stages, and what it answers.
#![tactic(auto)]

ghost use Rattle.std.specs.Prelude.{◌≡◌, length};
ghost use Rattle.link.specs.Judge.{judged};
ghost use Rattle.merge_stages.specs.Stages.{cells_in, object_in, object_read, same_loans, merge_before};
ghost use Rattle.merge_elf.specs.Merge.{work_refusal, check_of, merge_of, left_after};
ghost use Rattle.merge_elf.specs.Contract.{MergeMeets};

use elf_object::Object;
use link::{Cause, Lent, Link, Refusal};
use merge_stages::Merge;

// Kept: the link comes and goes by value, as the cells of C's header hold it, beside an answer that is a Result; a type for each call, as the laws
// read its own.
#[derive(Clone, Copy)]
pub struct Outcome {
    pub link: Link,
    pub answer: Result<(), Refusal>,
}

// Too few work cells 2 at place 0.
#[tactic(auto, unfolding(crate::specs::Merge::work_refusal, link::specs::Judge::judged))]
fn check_work(object: Object<'_>, work: usize, ids: usize) -> Result<(), Refusal>
    ensures { result ≡ judged (work_refusal object.entry.headers.now object.entry.entries.now work ids) }
{
    if work / elf_object::ROW_WIDTH < object.section_count() || ids < object.symbol_count() {
        return Err(Refusal::new(Cause::NoRoom, 0));
    }
    Ok(())
}

// 22; 1 of the link's counts, of the object's sections, then of its symbols; too few work cells 2 at place 0.
// Kept: of what is lent the lengths alone, since the head reads nothing in it.
fn check(link: Link, lent: Lent, object: Object<'_>, work: usize, ids: usize) -> Result<(), Refusal>
    ensures { result ≡ judged (check_of link lent object.entry.headers.now object.entry.entries.now (length object.entry.contents.now) (length object.entry.image.now) work ids) }
{
    link.judge_change(lent)?;
    object.judge()?;
    check_work(object, work, ids)
}

// Merges an object. The work cells are a row of 8 for each of its sections and a cell for each of its symbols. A repeated group that lists a
// section number at or past the work rows lent gives 2, so lend 65,280 of them where objects may list sections that they don't have. A refusal
// of its stages breaks the link.
pub fn merge_object(merge: &mut Merge<'_>, object: Object<'_>) -> Result<(), Refusal>
    ensures loans { same_loans merge.old merge.new }
    ensures value { left_after merge.new result ≡ merge_of (object_read object.entry) (merge_before merge.old) }
{
    let lent = Lent {
        names: merge.names.len() / link::NAME_CELLS,
        bytes: merge.bytes.len(),
        symbols: merge.symbols.len(),
        sections: merge.sections.len() / link::SECTION_CELLS,
        inputs: merge.inputs.len(),
        lists: merge.lists.len(),
    };
    check(merge.link, lent, object, merge.work.len(), merge.ids.len())?;
    if let Err(refusal) = merge.merge_stages(object) {
        merge.link.broken = true;
        return Err(refusal);
    }
    Ok(())
}

// The same of loose cells: section names lie in the object's section `shstrndx`.
// Kept: loose parameters, as the C interface lends them.
pub fn merge_elf(
    link: Link,
    bytes: &mut [u8],
    names: &mut [u64],
    symbols: &mut [u64],
    sections: &mut [u64],
    inputs: &mut [u64],
    lists: &mut [u64],
    work: &mut [u64],
    ids: &mut [u64],
    headers: &[u64],
    entries: &[u64],
    contents: &[u64],
    image: &[u8],
    shstrndx: usize,
) -> Outcome
    ensures { MergeMeets (object_in headers entries contents image shstrndx) (cells_in bytes names symbols sections inputs lists work ids) link result }
{
    let mut merge = Merge {
        link,
        bytes,
        names,
        symbols,
        sections,
        inputs,
        lists,
        work,
        ids,
    };
    let answer = merge_object(
        &mut merge,
        Object {
            headers,
            entries,
            contents,
            image,
            section_names: shstrndx,
            table: 0,
        },
    );
    Outcome {
        link: merge.link,
        answer,
    }
}
