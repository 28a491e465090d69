// A link that owns its cells, for a program: made once, and begun anew for each link. It has room for the most symbols, sections, inputs and bytes of names
// that a link can have; for 65,536 names, for 4,194,304 symbols of relocations, and for objects of at most 4,194,304 cells of rows. What needs more is refused.
// The calls have the contracts of the calls below them, over what it holds, and leave the rest as it is.
#![tactic(auto)]

ghost use Rattle.std.specs.Prelude.{◌≡◌, ◌+◌, ◌*◌, ◌≤◌, ◌<◌, IfOk, length};
ghost use Rattle.cells.specs.Rows.{row_width};
ghost use Rattle.merge_stages.specs.Stages.{object_read};
ghost use Rattle.merge_file.specs.MergeFile.{cut_of, reading_of};
ghost use Rattle.owned_link.specs.Owned.{Roomy, Begins, MergesFile, RunsAll, part_at, Finds, Collects, Admits, admitted_by};
ghost use Rattle.elf_file.specs.Read.{read_of};

use archive_index::Entries;
use archive_walk::Walk;
use elf_file::Written;
use elf_object::Object;
use gc_sections::Dropped;
use interner::Names;
use link::{Link, Refusal, SymbolId};
use object_requirement::ObjectRequirement;
use std::alloc::{AllocError, Global};
use symbol::Symbol;
use symbols::Symbols;

const NAMES: usize = 65_536;

const NAME_BYTES: usize = 1_048_576;

const SYMBOLS: usize = 65_535;

const SECTIONS: usize = 65_535;

const INPUTS: usize = 4_095;

// Symbols of relocations, over all objects.
const LISTS: usize = 4_194_304;

// An object's rows.
const ROWS: usize = 4_194_304;

const ROW_CELLS: usize = 8;

#[derive(Drop)]
pub struct OwnedLink {
    pub link: Link,
    pub bytes: Vec<u8>,
    pub names: Vec<u64>,
    pub symbols: Vec<u64>,
    pub sections: Vec<u64>,
    pub inputs: Vec<u64>,
    pub lists: Vec<u64>,
    pub work: Vec<u64>,
    pub ids: Vec<u64>,
    pub rows: Vec<u64>,
    // No symbol is marked.
    pub marks: Vec<u8>,
}

fn zeros(alloc: Global, cells: usize) -> Result<Vec<u64>, AllocError>
    ensures { IfOk result (λ v. length v.items ≡ cells) }
{
    vec![in alloc; 0; cells]
}

// The object whose rows a read wrote.
fn object_in<'a>(rows: &'a [u64], image: &'a [u8], written: Written) -> Object<'a>
    requires { written.sections * row_width + written.entries * row_width + written.contents ≤ length rows.now }
    ensures { object_read result ≡ cut_of image.now rows.now (reading_of written) }
{
    let sections = written.sections as usize;
    let entries = written.entries as usize;
    let start = sections * elf_object::ROW_WIDTH;
    let end = (sections + entries) * elf_object::ROW_WIDTH;
    Object {
        headers: cells::part_of(rows, 0, start),
        entries: cells::part_of(rows, start, entries * elf_object::ROW_WIDTH),
        contents: cells::part_of(rows, end, written.contents as usize),
        image,
        section_names: written.strings as usize,
        table: 0,
    }
}

// Kept: slices one by one, since the proof doesn't see what is written into a Vec where it is lent again (tried).
fn admission(
    link: Link,
    rows: &mut [u64],
    image: &[u8],
    walk: Walk,
    index: &[u8],
    cells: &[u64],
    entry: usize,
) -> Result<bool, Refusal>
    ensures answers { result ≡ admitted_by link image.now walk index.now cells.now entry (read_of image.now rows.old) }
    ensures rows { rows.new ≡ (read_of image.now rows.old).cells }
{
    let written = elf_file::read(image, rows)?;
    let object = object_in(rows, image, written);
    let requirement = ObjectRequirement {
        walk,
        entries: Entries { index, cells },
        entry,
    };
    requirement.matches(link, object)
}

impl OwnedLink {
    /// No link yet: every call but `begin` is refused or answers that there is nothing.
    pub fn new(alloc: Global) -> Result<OwnedLink, AllocError>
        ensures { IfOk result Roomy }
    {
        Ok(OwnedLink {
            link: Link::no_names(0, 0),
            bytes: vec![in alloc; 0; NAME_BYTES]?,
            names: zeros(alloc, NAMES * link::NAME_CELLS)?,
            symbols: zeros(alloc, SYMBOLS * ROW_CELLS)?,
            sections: zeros(alloc, SECTIONS * link::SECTION_CELLS)?,
            inputs: zeros(alloc, INPUTS * ROW_CELLS)?,
            lists: zeros(alloc, LISTS)?,
            work: zeros(alloc, SECTIONS * ROW_CELLS)?,
            ids: zeros(alloc, SYMBOLS)?,
            rows: zeros(alloc, ROWS)?,
            marks: vec![in alloc; 0; SYMBOLS]?,
        })
    }

    /// A new link, whatever the cells hold.
    pub fn begin(&mut self, key: usize, gabi: bool) -> Result<(), Refusal>
        ensures { Begins key gabi self.old self.new result }
    {
        let made = Symbols::new(
            key,
            gabi,
            &mut self.bytes,
            &mut self.names,
            &mut self.symbols,
            &mut self.sections,
        );
        match made {
            Ok(table) => {
                self.link = table.link;
                Ok(())
            }
            Err(refusal) => Err(refusal),
        }
    }

    /// Merges an object's file.
    pub fn merge_file(&mut self, image: &[u8]) -> Result<(), Refusal>
        ensures { MergesFile self.old image.now self.new result }
    {
        let outcome = merge_file::merge_file(
            self.link,
            &mut self.bytes,
            &mut self.names,
            &mut self.symbols,
            &mut self.sections,
            &mut self.inputs,
            &mut self.lists,
            &mut self.work,
            &mut self.ids,
            &mut self.rows,
            image,
        );
        self.link = outcome.link;
        outcome.answer
    }

    fn merge_part(&mut self, file: &[u8], places: &[u64], k: usize) -> Result<(), Refusal>
        requires { k < 0x4000000000000000 }
        ensures { MergesFile self.old (part_at file.now places.now k) self.new result }
    {
        let start = cells::get(places, k * 2) as usize;
        let size = cells::get(places, k * 2 + 1) as usize;
        self.merge_file(cells::part_of(file, start, size))
    }

    /// Merges the parts of a file, as the members of an archive, in order up to the first refusal: where each starts, and how many bytes it has.
    pub fn merge_parts(&mut self, file: &[u8], places: &[u64]) -> Result<(), Refusal>
        ensures { RunsAll file.now places.now self.old self.new result }
    {
        for k in 0..places.len() / 2 {
            self.merge_part(file, places, k)?;
        }
        Ok(())
    }

    /// The symbol that a name's bytes have.
    pub fn find(&self, name: &[u8]) -> Result<Symbol, Refusal>
        ensures { Finds self.now name.now result }
    {
        let names = Names {
            link: self.link,
            bytes: &self.bytes,
            cells: &self.names,
        };
        let id = names.find(name);
        symbols::get_global(Symbols { link: self.link }, &self.names, &self.symbols, id)
    }

    /// Does an object bear a name that the walk requires of the member behind an entry? The object's rows are written.
    pub fn admits(
        &mut self,
        image: &[u8],
        walk: Walk,
        index: &[u8],
        cells: &[u64],
        entry: usize,
    ) -> Result<bool, Refusal>
        ensures { Admits self.old image.now walk index.now cells.now entry self.new result }
    {
        admission(self.link, &mut self.rows, image, walk, index, cells, entry)
    }

    /// Drops what relocations don't reach from the roots: with an entry symbol, and no symbol marked.
    pub fn collect(&mut self, entry: Option<SymbolId>) -> Result<Dropped, Refusal>
        ensures { Collects self.old entry self.new result }
    {
        let outcome = gc_sections::run(
            self.link,
            &self.bytes,
            &self.names,
            &mut self.symbols,
            &mut self.sections,
            &self.lists,
            &self.marks,
            entry,
            &mut self.work,
        );
        self.link = outcome.link;
        outcome.answer
    }
}
