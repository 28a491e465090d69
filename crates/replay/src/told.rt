// What lines tell: inputs, in the parts of one store of cells and one of bytes, and how much of each store calls are lent.
use crate::line::{Input, Subject};
use archive_walk::Walk;
use replay_archive::Archive;
use replay_load::Library;
use replay_object::Object;
use replay_words::Lend;
use std::alloc::{AllocError, Global};

// Where a library's cells begin, behind those of an object, and where a walk's do, behind both.
const LIBRARY_CELLS: usize = replay_object::CELLS;

pub(crate) const WALK_CELLS: usize = LIBRARY_CELLS + replay_load::CELLS;

pub(crate) const CELLS: usize = WALK_CELLS + 2048;

// Where a library's bytes begin, behind those of an object, and where an archive's index does, behind both.
const LIBRARY_BYTES: usize = 16384;

pub(crate) const INDEX_BYTES: usize = LIBRARY_BYTES + 8192;

const BYTES: usize = INDEX_BYTES + 16384;

// Announced: the input that was announced last, whose symbols are told. Cells, bytes: an object that has more than its part goes on over those
// behind it.
#[derive(Drop)]
pub(crate) struct Told {
    pub(crate) lend: Lend,
    announced: Input,
    pub(crate) object: Object,
    pub(crate) library: Library,
    pub(crate) archive: Archive,
    pub(crate) walk: Walk,
    pub(crate) cells: Vec<u64>,
    pub(crate) bytes: Vec<u8>,
}

// The items from one place to another, as far as they are there.
pub(crate) fn part<T>(items: &mut [T], from: usize, to: usize) -> &mut [T] {
    let to = to.min(items.len());
    &mut items[from.min(to)..to]
}

// Nobody started it.
fn no_walk() -> Walk {
    Walk {
        length: 0,
        done: true,
        ..Walk::none()
    }
}

impl Told {
    pub(crate) fn new(alloc: Global) -> Result<Self, AllocError> {
        Ok(Told {
            lend: Lend::all(),
            announced: Input::Object,
            object: Object::empty(),
            library: Library::empty(),
            archive: Archive::default(),
            walk: no_walk(),
            cells: vec![in alloc; 0; CELLS]?,
            bytes: vec![in alloc; 0; BYTES]?,
        })
    }

    pub(crate) fn library_cells(&self) -> &[u64] {
        cells::part_of(&self.cells, LIBRARY_CELLS, replay_load::CELLS)
    }

    pub(crate) fn library_bytes(&self) -> &[u8] {
        cells::part_of(&self.bytes, LIBRARY_BYTES, INDEX_BYTES - LIBRARY_BYTES)
    }

    // The index told last, which ends there.
    pub(crate) fn index(&self) -> &[u8] {
        cells::part_of(&self.bytes, INDEX_BYTES, self.archive.length)
    }

    pub(crate) fn walk_cells(&self) -> &[u64] {
        cells::part_of(&self.cells, WALK_CELLS, CELLS - WALK_CELLS)
    }

    // A new link: the archive and its walk are gone with the old one.
    pub(crate) fn forget_archive(&mut self) {
        self.archive = Archive::default();
        self.walk = no_walk();
    }

    pub(crate) fn tell(&mut self, subject: Subject, line: &[u8]) {
        match subject {
            Subject::Object => {
                self.announced = Input::Object;
                self.object = Object::announced(line);
            }
            Subject::Section => {
                self.announced = Input::Object;
                self.object.section(&mut self.cells, &mut self.bytes, line);
            }
            Subject::Library => {
                self.announced = Input::Library;
                let bytes = part(&mut self.bytes, LIBRARY_BYTES, INDEX_BYTES);
                self.library = Library::announced(bytes, line);
            }
            Subject::Strings => {
                self.announced = Input::Library;
                let bytes = part(&mut self.bytes, LIBRARY_BYTES, INDEX_BYTES);
                self.library.strings(bytes, line);
            }
            Subject::Needs => {
                self.announced = Input::Library;
                let cells = part(&mut self.cells, LIBRARY_CELLS, WALK_CELLS);
                let bytes = part(&mut self.bytes, LIBRARY_BYTES, INDEX_BYTES);
                self.library.need(cells, bytes, line);
            }
            Subject::Symbol => match self.announced {
                Input::Object => self.object.symbol(&mut self.cells, line),
                Input::Library => {
                    let cells = part(&mut self.cells, LIBRARY_CELLS, WALK_CELLS);
                    self.library.symbol(cells, line);
                }
            },
            Subject::Archive => {
                self.archive = Archive::announced(&mut self.bytes, INDEX_BYTES, line);
            }
            Subject::Entry => self.archive.entry(&mut self.bytes, INDEX_BYTES, line),
            Subject::Index => self.archive.index(&mut self.bytes, INDEX_BYTES, line),
            // Names are set by hand, which no walk does: nothing is offered then.
            Subject::Require => self.archive.offered = None,
            Subject::Conversion => replay_object::convert(&mut self.cells, line),
            Subject::Lend => self.lend = Lend::told(line),
        }
    }
}
