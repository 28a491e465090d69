// What a merge of an object would do: the merge of a copy of the link, in cells that are lent for it. The link itself is only read.
#![tactic(auto)]

ghost use Rattle.std.specs.Prelude.{◌≡◌, ◌≤◌, ◌++◌, length, drop};
ghost use Rattle.link.specs.Judge.{judged};
ghost use Rattle.merge_stages.specs.Stages.{object_read, same_loans, merge_before};
ghost use Rattle.merge_elf.specs.Merge.{left_after};
ghost use Rattle.preview.specs.Preview.{tables_read, head_of, room_refusal, preview_of};

use elf_object::Object;
use link::{Cause, Lent, Link, Refusal};
use merge_stages::Merge;

// The tables of a link, as they are read.
#[derive(Clone, Copy)]
pub struct Tables<'a> {
    pub link: Link,
    pub bytes: &'a [u8],
    pub names: &'a [u64],
    pub symbols: &'a [u64],
    pub sections: &'a [u64],
    pub inputs: &'a [u64],
    pub lists: &'a [u64],
}

// Fewer preview cells of any sort than the link was lent: 2 at place 0.
#[tactic(auto, unfolding(crate::specs::Preview::room_refusal, crate::specs::Preview::is_short, link::specs::Judge::judged))]
fn check_room(tables: Tables<'_>, place: &Merge<'_>) -> Result<(), Refusal>
    ensures value { result ≡ judged (room_refusal (tables_read tables.entry) (merge_before place.now)) }
{
    if place.bytes.len() < tables.bytes.len()
        || place.names.len() < tables.names.len()
        || place.symbols.len() < tables.symbols.len()
        || place.sections.len() < tables.sections.len()
        || place.inputs.len() < tables.inputs.len()
        || place.lists.len() < tables.lists.len()
    {
        return Err(Refusal::new(Cause::NoRoom, 0));
    }
    Ok(())
}

// 22; 1 of the link's counts and of the object; then the room for the copy.
fn check(tables: Tables<'_>, place: &Merge<'_>, object: Object<'_>) -> Result<(), Refusal>
    ensures { result ≡ judged (head_of (object_read object.entry) (tables_read tables.entry) (merge_before place.now)) }
{
    let lent = Lent {
        names: tables.names.len() / link::NAME_CELLS,
        bytes: tables.bytes.len(),
        symbols: tables.symbols.len(),
        sections: tables.sections.len() / link::SECTION_CELLS,
        inputs: tables.inputs.len(),
        lists: tables.lists.len(),
    };
    tables.link.judge_change(lent)?;
    object.judge()?;
    check_room(tables, place)
}

// The source over the first of the cells; what lies behind stays.
fn copy<T: Copy>(lent: &mut [T], source: &[T])
    requires { length source.now ≤ length lent.old }
    ensures { lent.new ≡ source.now ++ drop (length source.now) lent.old }
{
    lent[..source.len()].copy_from_slice(source);
}

// The merge of an object into a copy of the link. As much as the link was lent is copied, and no more is lent to the merge; what lies behind stays.
// The counts of the copy and its flags are left in `place.link`.
pub fn preview_object(
    tables: Tables<'_>,
    place: &mut Merge<'_>,
    object: Object<'_>,
) -> Result<(), Refusal>
    ensures loans { same_loans place.old place.new }
    ensures value { left_after place.new result ≡ preview_of (object_read object.entry) (tables_read tables.entry) (merge_before place.old) }
{
    check(tables, place, object)?;
    copy(place.bytes, tables.bytes);
    copy(place.names, tables.names);
    copy(place.symbols, tables.symbols);
    copy(place.sections, tables.sections);
    copy(place.inputs, tables.inputs);
    copy(place.lists, tables.lists);
    let bytes = &mut *place.bytes;
    let names = &mut *place.names;
    let symbols = &mut *place.symbols;
    let sections = &mut *place.sections;
    let inputs = &mut *place.inputs;
    let lists = &mut *place.lists;
    let work = &mut *place.work;
    let ids = &mut *place.ids;
    let outcome = merge_elf::merge_elf(
        tables.link,
        &mut bytes[..tables.bytes.len()],
        &mut names[..tables.names.len()],
        &mut symbols[..tables.symbols.len()],
        &mut sections[..tables.sections.len()],
        &mut inputs[..tables.inputs.len()],
        &mut lists[..tables.lists.len()],
        work,
        ids,
        object.headers,
        object.entries,
        object.contents,
        object.image,
        object.section_names,
    );
    place.link = outcome.link;
    outcome.answer
}
