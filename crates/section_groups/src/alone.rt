// A COMDAT group added by itself, outside a merge. Marks of the object's earlier groups lie in the work rows; a new object begins with
// cleared ones.
ghost use Rattle.std.specs.Prelude.{◌≡◌, length};
ghost use Rattle.link.specs.Judge.{judged};
ghost use Rattle.section_groups.specs.Group.{object_lent, state_lent};
ghost use Rattle.section_groups.specs.AddGroup.{marks_refusal, check_of, table_in};
ghost use Rattle.section_groups.specs.AloneContract.{group_exit, GroupMeets};

use crate::Grouping;
use elf_object::{Kind, Object};
use link::{Cause, Lent, Link, Refusal};

// Kept: the link comes and goes by value, as the cells of C's header hold it, beside an answer that is a Result; a type for each call, as the laws
// read its own.
#[derive(Clone, Copy)]
pub struct Outcome {
    pub link: Link,
    pub answer: Result<(), Refusal>,
}

// 1 of a section that is no group; too few marks 2 at place 0.
#[tactic(auto, unfolding(crate::specs::AddGroup::marks_refusal, link::specs::Judge::judged))]
fn check_marks(object: Object<'_>, work: usize, n: usize) -> Result<(), Refusal>
    ensures { result ≡ judged (marks_refusal object.entry.headers.now work n) }
{
    if !object.is_loaded(n, Kind::Group) {
        return Err(Refusal::new(Cause::OutOfRange, n));
    }
    if work / elf_object::ROW_WIDTH < object.section_count() {
        return Err(Refusal::new(Cause::NoRoom, 0));
    }
    Ok(())
}

// 22; 1 of the link's counts, of the object's sections, of its symbols, of a section that is no group; too few marks 2 at place 0.
// Kept: of what is lent the lengths alone, since the head reads nothing in it.
fn check(link: Link, lent: Lent, object: Object<'_>, work: usize, n: usize) -> Result<(), Refusal>
    ensures { result ≡ judged (check_of link lent object.entry.headers.now object.entry.entries.now (length object.entry.contents.now) (length object.entry.image.now) work n) }
{
    link.judge_change(lent)?;
    object.judge()?;
    check_marks(object, work, n)
}

// The entries of the object's table, none unless it is a symbol table and not excluded.
#[tactic(auto, unfolding(crate::specs::AddGroup::table_in))]
fn symbols_of(object: Object<'_>) -> &[u64]
    ensures { result.now ≡ table_in object.entry.headers.now object.entry.entries.now object.entry.table }
{
    if object.is_loaded(object.table, Kind::SymbolTable) {
        return object.entries;
    }
    &object.entries[..0]
}

// The group of section n. The entries are those of the object's symbol table, which is of section t.
// Kept: loose parameters, as the C interface lends them.
pub fn add_group(
    link: Link,
    bytes: &mut [u8],
    names: &mut [u64],
    work: &mut [u64],
    headers: &[u64],
    entries: &[u64],
    contents: &[u64],
    image: &[u8],
    t: usize,
    n: usize,
) -> Outcome
    ensures { GroupMeets (object_lent headers entries contents image t) (state_lent bytes names work link) n (group_exit bytes names work result) }
{
    let lent = Lent {
        names: names.len() / link::NAME_CELLS,
        bytes: bytes.len(),
        symbols: link::NOT_LENT,
        sections: link.slots,
        inputs: link::NOT_LENT,
        lists: link::NOT_LENT,
    };
    let object = Object {
        headers,
        entries,
        contents,
        image,
        section_names: 0,
        table: t,
    };
    if let Err(refusal) = check(link, lent, object, work.len(), n) {
        return Outcome {
            link,
            answer: Err(refusal),
        };
    }
    let mut groups = Grouping {
        link,
        bytes,
        names,
        work,
    };
    let answer = groups.take_group(
        Object {
            entries: symbols_of(object),
            ..object
        },
        n,
    );
    Outcome {
        link: groups.link,
        answer,
    }
}
