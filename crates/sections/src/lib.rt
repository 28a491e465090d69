// Section rows: reserved, built, dropped. A row is 8 lent cells: state, name, kind, retain, read, and where its relocations' symbols lie in
// the lists: the first and how many; its size in bytes, which stays when it is dropped.
#![tactic(auto)]

ghost use Rattle.std.specs.Prelude.{◌≡◌};
ghost use Rattle.sections.specs.Rows.{room_of, reserve_of, built_of, dropped_of, is_built, sections_of};

use link::{Interned, Link, SectionId};

// The fields of a row.
pub const STATE: usize = 0;

pub const NAME: usize = 1;

pub const KIND: usize = 2;

pub const RETAIN: usize = 3;

pub const READ: usize = 4;

pub const FIRST: usize = 5;

pub const COUNT: usize = 6;

pub const SIZE: usize = 7;

// Its states; 0 is free.
pub const RESERVED: u64 = 1;

pub const BUILT: u64 = 2;

pub const DROPPED: u64 = 3;

// Its kinds, by document 01's numbers.
pub const PROGRAM: u64 = 1;

pub const UNINITIALIZED: u64 = 2;

// What a built section's row holds. Retain and read: 0 no, else yes.
// Kept: kind and flags are numbers, as the row's cells hold them: `build` is public and takes any.
#[derive(Clone, Copy)]
pub struct Section {
    pub name: Interned,
    pub kind: u64,
    pub retain: u64,
    pub read: u64,
    pub first: u64,
    pub count: u64,
    pub size: u64,
}

// Is there a free row?
#[tactic(auto, unfolding(crate::specs::Rows::room_of, link::specs::Bounds::lesser))]
pub fn room(l: Link, sections: &[u64]) -> bool
    ensures { result ≡ room_of l sections.now }
{
    let slots = l.slots.min(link::section_slots(sections.len()));
    l.sections < link::section_rows(slots)
}

// One row more, reserved: its id is the count before. Nothing where there is no room.
#[tactic(auto, unfolding(crate::specs::Rows::reserve_of))]
pub fn reserve(l: Link, sections: &mut [u64]) -> Link
    ensures { sections_of sections.new result ≡ reserve_of (sections_of sections.old l) }
{
    if !room(l, sections) {
        return l;
    }
    let id = l.sections;
    cells::row_store(sections, id, [RESERVED, 0, 0, 0, 0, 0, 0, 0]);
    l.with_sections(id + 1)
}

#[tactic(auto, unfolding(crate::specs::Rows::built_of))]
pub fn build(sections: &mut [u64], id: SectionId, s: Section)
    ensures { sections.new ≡ built_of sections.old id s }
{
    cells::row_store(
        sections,
        id.0,
        [
            BUILT,
            s.name.0 as u64,
            s.kind,
            s.retain,
            s.read,
            s.first,
            s.count,
            s.size,
        ],
    );
}

// The state alone changes.
pub fn drop_section(sections: &mut [u64], id: SectionId)
    ensures { sections.new ≡ dropped_of sections.old id }
{
    cells::row_put(sections, id.0, STATE, DROPPED);
}

// Built and not dropped, in a table of that many rows.
#[tactic(auto, unfolding(crate::specs::Rows::is_built))]
pub fn is_built(sections: &[u64], count: usize, id: SectionId) -> bool
    ensures { result ≡ is_built sections.now count id.0 }
{
    id.0 < count && cells::row_get(sections, id.0, STATE) == BUILT
}
