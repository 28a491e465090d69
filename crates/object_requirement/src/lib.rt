// Admission of an archive's member: does some symbol bear a name that was required of it? The Rust's `ObjectRequirement::matches`: a symbol of
// binding 1; in the gABI's profile a definition, weak or global. Every symbol table of the object is looked at, excluded or not, and so is its
// string section; of the link nothing is but its profile.
#![tactic(auto)]

ghost use Rattle.std.specs.Prelude.{◌≡◌};
ghost use Rattle.elf_object.specs.Kind.{number_of};
ghost use Rattle.elf_object.specs.Rows.{binding_at, section_at};
ghost use Rattle.strings.specs.Contract.{string_exit};
ghost use Rattle.object_requirement.specs.Matches.{is_section, defines_name, admits, bears_required, in_table, is_table, in_section, has_global_symbol, offered_in};
ghost use Rattle.object_requirement.specs.Required.{required_by};
ghost use Rattle.object_requirement.specs.Contract.{AnywhereMeets, MatchesMeets, ObjectMeets};

use archive_index::Entries;
use archive_walk::Walk;
use elf_object::{Kind, Object};
use link::{Cause, Link, Refusal};

// ---- names

// Is there a section of that number and kind, excluded or not?
#[tactic(auto, unfolding(crate::specs::Matches::is_section))]
fn is_section(object: Object<'_>, n: usize, kind: Kind) -> bool
    ensures { result ≡ is_section object.entry.headers.now n (number_of kind) }
{
    n < object.section_count()
        && cells::row_get(object.headers, n, elf_object::HEADER_KIND) == u64::from(kind)
}

// A symbol table, dynamic or not.
#[tactic(auto, unfolding(crate::specs::Matches::is_table))]
fn is_table(object: Object<'_>, n: usize) -> bool
    ensures { result ≡ is_table object.entry.headers.now n }
{
    is_section(object, n, Kind::SymbolTable) || is_section(object, n, Kind::DynamicSymbols)
}

// The name at an offset of string section n, excluded or not.
#[tactic(auto, unfolding(crate::specs::Matches::name_anywhere))]
fn name_anywhere<'a>(object: Object<'a>, n: usize, offset: usize) -> Option<&'a [u8]>
    ensures { AnywhereMeets object.entry.headers.now object.entry.image.now n offset (string_exit result) }
{
    if !is_section(object, n, Kind::StringTable) {
        return None;
    }
    strings::get(object.strings_at(n), offset)
}

// ---- symbols

// A weak or global definition.
#[tactic(auto, unfolding(crate::specs::Matches::defines_name))]
fn defines_name(binding: u64, section: u64) -> bool
    ensures { result ≡ defines_name binding section }
{
    section != upcoming_symbol::SHN_UNDEF
        && (binding == upcoming_symbol::STB_GLOBAL || binding == upcoming_symbol::STB_WEAK)
}

// May symbol i of an object's loaded table admit its member?
#[tactic(auto, unfolding(crate::specs::Matches::admits))]
fn may_admit(gabi: bool, object: Object<'_>, i: usize) -> bool
    ensures { let symbols = object.entry.entries.now in result ≡ admits gabi (binding_at symbols i) (section_at symbols i) }
{
    let binding = cells::row_get(object.entries, i, elf_object::ENTRY_BINDING);
    if gabi {
        let section = cells::row_get(object.entries, i, elf_object::ENTRY_SECTION);
        return defines_name(binding, section);
    }
    binding == upcoming_symbol::STB_GLOBAL
}

// What the member has to bear that was offered by an entry: one of the names that were required of it. After "done" too: they stay in the rows.
#[derive(Clone, Copy)]
pub struct ObjectRequirement<'i, 'c> {
    pub walk: Walk,
    pub entries: Entries<'i, 'c>,
    pub entry: usize,
}

impl ObjectRequirement<'_, '_> {
    // Are the walk's index and its rows lent, and has it that entry?
    #[tactic(auto, unfolding(crate::specs::Matches::offered_in))]
    fn is_offered(self) -> bool
        ensures { result ≡ offered_in self.entry.entries.index.now self.entry.entries.cells.now self.entry.walk self.entry.entry }
    {
        self.walk.length <= self.entries.index.len()
            && self.walk.entries <= self.entries.rows()
            && self.entry < self.walk.entries
    }

    // Is the name one of them?
    fn asks(self, name: &[u8]) -> bool
        ensures { result ≡ required_by self.entry name.now }
    {
        self.walk.is_required(self.entries, self.entry, name)
    }

    // Does symbol i of an object's loaded table, whose names are in string section `names`, bear a required name?
    // Kept: a match, since the proof does not close over `is_some_and` (tried).
    #[tactic(auto, unfolding(crate::specs::Matches::bears_required, crate::specs::Matches::is_required))]
    fn is_borne(self, gabi: bool, object: Object<'_>, names: usize, i: usize) -> bool
        ensures { let o = object.entry in
            result ≡ bears_required gabi o.headers.now o.image.now names o.entries.now (required_by self.entry) i }
    {
        if !may_admit(gabi, object, i) {
            return false;
        }
        let offset = cells::row_get(object.entries, i, elf_object::ENTRY_NAME) as usize;
        match name_anywhere(object, names, offset) {
            Some(name) => self.asks(name),
            None => false,
        }
    }

    fn is_in_table(self, gabi: bool, object: Object<'_>, names: usize) -> bool
        ensures { let o = object.entry in
            result ≡ in_table gabi o.headers.now o.image.now names o.entries.now (required_by self.entry) }
    {
        (0..object.symbol_count()).any(|i| self.is_borne(gabi, object, names, i))
    }

    // Section n, if it is a symbol table.
    // Inlined: else the requirement and the object go through memory for each section, table or not.
    #[inline(always)]
    #[tactic(auto, unfolding(crate::specs::Matches::in_section))]
    fn is_in_section(self, gabi: bool, object: Object<'_>, n: usize) -> bool
        ensures { let o = object.entry in
            result ≡ in_section gabi o.headers.now o.entries.now o.image.now (required_by self.entry) n }
    {
        is_table(object, n)
            && {
                let names = cells::row_get(object.headers, n, elf_object::HEADER_LINK) as usize;
                let loaded = Object {
                    entries: object.entries_of(n),
                    table: n,
                    ..object
                };
                self.is_in_table(gabi, loaded, names)
            }
    }

    fn is_in_object(self, gabi: bool, object: Object<'_>) -> bool
        ensures { let o = object.entry in
            result ≡ has_global_symbol gabi o.headers.now o.entries.now o.image.now (required_by self.entry) }
    {
        (0..object.section_count()).any(|n| self.is_in_section(gabi, object, n))
    }

    // Of the link the profile counts. 1 of the object's rows at the first, of the walk's at 0.
    pub fn matches(self, link: Link, object: Object<'_>) -> Result<bool, Refusal>
        ensures { ObjectMeets link object.entry self.entry result }
    {
        object.judge()?;
        if !self.is_offered() {
            return Err(Refusal::new(Cause::OutOfRange, 0));
        }
        Ok(self.is_in_object(link.gabi, object))
    }
}

// Kept: slices one by one, as the exported call (hidvorn) has them.
pub fn matches(
    l: Link,
    headers: &[u64],
    entries: &[u64],
    contents: &[u64],
    image: &[u8],
    w: Walk,
    index: &[u8],
    cells: &[u64],
    entry: usize,
) -> Result<bool, Refusal>
    ensures { MatchesMeets l headers.now entries.now contents.now image.now index.now cells.now w entry result }
{
    let object = Object {
        headers,
        entries,
        contents,
        image,
        section_names: 0,
        table: 0,
    };
    let requirement = ObjectRequirement {
        walk: w,
        entries: Entries { index, cells },
        entry,
    };
    requirement.matches(l, object)
}
