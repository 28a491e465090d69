// COMDAT groups of an object: which sections define a group, which are listed and removed with a repeated one, and what that makes of symbols.
// Marks lie in the work rows of merge_sections, loaded signatures in the names' rows. The object's symbols are the loaded table's entries.
#![tactic(auto)]

ghost use Rattle.std.specs.Prelude.{◌≡◌, ◌≢◌, IfErr};
ghost use Rattle.strings.specs.Contract.{string_exit};
ghost use Rattle.link.specs.Judge.{judged, refused};
ghost use Rattle.section_groups.specs.Group.{listed_in, is_fresh, all_fresh, all_marked, shape_of, SignatureMeets, repeated_of, mark_group_of, mark_one, mark_all, group_named, group_of, object_in, same_loans, state_before, step_after};

mod alone;
mod filter;
mod groups;

pub use alone::{Outcome, add_group};
use elf_object::Object;
pub use filter::{filter_symbol_table, is_discarded, section_after};
use interner::NamesMut;
use link::{Cause, Link, Refusal};

// The field of a name's row that has 1 where a group of that signature is loaded.
const NAME_SIGNATURE: usize = 4;

// What a group writes: the names, and its sections' work rows.
// Kept: that the loans stay is said by each call, since no field's type says which memory it lends.
#[derive(Drop)]
pub struct Grouping<'a> {
    pub link: Link,
    pub bytes: &'a mut [u8],
    pub names: &'a mut [u64],
    pub work: &'a mut [u64],
}

// The sections that group n lists.
fn listed(object: Object<'_>, n: usize) -> &[u64]
    ensures { result.now ≡ listed_in (object_in object.entry) n }
{
    let first = cells::row_get(object.headers, n, elf_object::HEADER_FIRST) as usize;
    let count = cells::row_get(object.headers, n, elf_object::HEADER_COUNT) as usize;
    cells::part_of(object.contents, first, count)
}

// Is the number no section of the object, or one that no earlier group of it lists?
#[tactic(auto, unfolding(crate::specs::Group::is_fresh))]
fn is_fresh(work: &[u64], sections: usize, x: u64) -> bool
    ensures { result ≡ is_fresh work.now sections x }
{
    sections as u64 <= x || cells::row_get(work, x as usize, elf_object::WORK_LISTED) != 1
}

#[tactic(auto, unfolding(crate::specs::Group::all_fresh))]
fn all_fresh(work: &[u64], sections: usize, listed: &[u64]) -> bool
    ensures { result ≡ all_fresh work.now sections listed.now }
{
    for i in 0..listed.len() {
        if !is_fresh(work, sections, cells::get(listed, i)) {
            return false;
        }
    }
    true
}

// A mark for each of these sections.
#[tactic(auto, unfolding(crate::specs::Group::all_marked))]
fn all_marked(marks: usize, listed: &[u64]) -> bool
    ensures { result ≡ all_marked marks listed.now }
{
    for i in 0..listed.len() {
        if marks as u64 <= cells::get(listed, i) {
            return false;
        }
    }
    true
}

// The name of the signature's symbol, in the string section that the table links to.
#[tactic(auto, unfolding(crate::specs::Group::signature_of))]
fn signature<'a>(object: Object<'a>, n: usize) -> Option<&'a [u8]>
    ensures { SignatureMeets (object_in object.entry) n (string_exit result) }
{
    let symbol = cells::row_get(object.headers, n, elf_object::HEADER_INFO) as usize;
    let strings = cells::row_get(object.headers, object.table, elf_object::HEADER_LINK) as usize;
    let offset = cells::row_get(object.entries, symbol, elf_object::ENTRY_NAME) as usize;
    object.name_in(strings, offset)
}

// Was the signature met before, in this or an earlier object?
#[tactic(auto, unfolding(crate::specs::Group::repeated_of))]
fn is_repeated(names: &[u64], count: usize, id: usize) -> bool
    ensures { result ≡ repeated_of names.now count id }
{
    id < count && cells::row_get(names, id, NAME_SIGNATURE) == 1
}

// The section defines a group; one that is removed stays so.
#[tactic(auto, unfolding(crate::specs::Group::mark_group_of))]
fn mark_group(work: &mut [u64], n: usize)
    ensures { work.new ≡ mark_group_of work.old n }
{
    if cells::row_get(work, n, elf_object::WORK_MARK) != elf_object::REMOVED_MARK {
        cells::row_put(work, n, elf_object::WORK_MARK, elf_object::GROUP_MARK);
    }
}

// A listed section, removed with a repeated group.
#[tactic(auto, unfolding(crate::specs::Group::mark_one))]
fn mark_one(work: &mut [u64], repeated: bool, x: u64)
    ensures { work.new ≡ mark_one work.old repeated x }
{
    if repeated {
        cells::row_put(
            work,
            x as usize,
            elf_object::WORK_MARK,
            elf_object::REMOVED_MARK,
        );
    }
    cells::row_put(work, x as usize, elf_object::WORK_LISTED, 1);
}

fn mark_all(work: &mut [u64], repeated: bool, listed: &[u64])
    ensures { work.new ≡ mark_all work.old repeated listed.now }
{
    for i in 0..listed.len() {
        mark_one(work, repeated, cells::get(listed, i));
    }
}

impl Grouping<'_> {
    // Not COMDAT 4, no section 5, one that an earlier group lists 29, the signature's symbol not in the loaded table 6.
    #[tactic(auto, unfolding(crate::specs::Group::shape_of, link::specs::Judge::judged))]
    fn judge_shape(&self, object: Object<'_>, n: usize) -> Result<(), Refusal>
        ensures { result ≡ judged (refused (shape_of (object_in object.entry) self.now.work.now n) n) }
    {
        if cells::row_get(object.headers, n, elf_object::HEADER_FLAGS) / elf_object::COMDAT_FLAG % 2
            == 0
        {
            return Err(Refusal::new(Cause::NotComdat, n));
        }
        if cells::row_get(object.headers, n, elf_object::HEADER_COUNT) == 0 {
            return Err(Refusal::new(Cause::EmptyGroup, n));
        }
        if !all_fresh(self.work, object.section_count(), listed(object, n)) {
            return Err(Refusal::new(Cause::SectionInTwoGroups, n));
        }
        let symbols = object.symbol_count();
        if cells::row_get(object.headers, n, elf_object::HEADER_LINK) != object.table as u64
            || symbols as u64 <= cells::row_get(object.headers, n, elf_object::HEADER_INFO)
        {
            return Err(Refusal::new(Cause::SignatureSymbolMissing, n));
        }
        Ok(())
    }

    // A group whose signature is found: 2 of the name, and of a mark for each section that it lists, which a repeated one removes; else the
    // signature is issued, and it is noted that it is loaded and what it lists.
    #[tactic(auto, unfolding(crate::specs::Group::group_named, crate::specs::Group::decided_of, crate::specs::Group::plan_of, crate::specs::Group::plan_with, crate::specs::Group::mark_refusal, crate::specs::Group::commit_group_of, interner::specs::Names::find_of, interner::specs::Names::keep_of, interner::specs::Names::keep_at))]
    fn take_named(&mut self, x: &[u8], n: usize, listed: &[u64]) -> Result<(), Refusal>
        ensures loans { same_loans self.old self.new }
        ensures value { step_after self.new result ≡ group_named (state_before self.old) x.now n listed.now }
        ensures numbered { IfErr result (λ r. r.number ≢ 0) }
    {
        // Kept: the link is a field of the struct, which the other tables' calls need too, so it goes to the names and comes back.
        let mut names = NamesMut {
            link: self.link,
            bytes: self.bytes,
            cells: self.names,
        };
        let known = names.read();
        // The name is hashed once.
        let head = known.head(x);
        let id = known.find_from(head, x);
        let repeated = is_repeated(known.cells, known.link.names, id.0);
        if !known.fits(id, x.len()) {
            return Err(Refusal::new(Cause::NoRoom, n));
        }
        if repeated && !all_marked(self.work.len() / elf_object::ROW_WIDTH, listed) {
            return Err(Refusal::new(Cause::NoRoom, n));
        }
        names.keep_at(id, head, x);
        self.link = names.link;
        cells::row_put(self.names, id.0, NAME_SIGNATURE, 1);
        mark_group(self.work, n);
        mark_all(self.work, repeated, listed);
        Ok(())
    }

    // One group, of section n: 4, 5, 29, 6, 7, 2; else it is marked.
    #[tactic(auto, unfolding(crate::specs::Group::group_of, crate::specs::Group::shaped_of, crate::specs::Group::signed_of, link::specs::Judge::judged))]
    pub fn take_group(&mut self, object: Object<'_>, n: usize) -> Result<(), Refusal>
        ensures loans { same_loans self.old self.new }
        ensures value { step_after self.new result ≡ group_of (object_in object.entry) (state_before self.old) n }
        ensures numbered { IfErr result (λ r. r.number ≢ 0) }
    {
        self.judge_shape(object, n)?;
        let Some(x) = signature(object, n) else {
            return Err(Refusal::new(Cause::SignatureStringMissing, n));
        };
        self.take_named(x, n, listed(object, n))
    }
}
