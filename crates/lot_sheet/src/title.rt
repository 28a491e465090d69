// A title that is linked: its files read, its objects merged, its archives walked, and what isn't reached dropped.
use crate::line;
use crate::words::{self, About};
use archive_file::Front;
use archive_index::Archives;
use archive_walk::{Offer, Walk};
use link::Refusal;
use lot_report::Title;
use owned_link::OwnedLink;
use std::alloc::{AllocError, Global};
use std::{fmt, fs};

// The cells of an index' entry, and the most entries of all indexes.
const ENTRY_CELLS: usize = archive_index::ROW_WIDTH;

const MOST_ENTRIES: usize = archive_index::ENTRY_BOUND;

// The key of the names' hash: no answer depends on it.
const KEY: usize = 0;

// What went wrong.
#[derive(Drop)]
pub enum Cause {
    NoFile,
    Thin,
    CutMember,
    NoProfile,
    NoEntry,
    Refused(Refusal, String),
}

impl fmt::Display for Cause {
    fn fmt<W: fmt::Write>(&self, f: &mut fmt::Formatter<W>) -> fmt::Result {
        match self {
            Cause::NoFile => f.write_str("can't be read"),
            Cause::Thin => f.write_str("thin archive: its members are not in it"),
            Cause::CutMember => f.write_str("no member where the index has one"),
            Cause::NoProfile => f.write_str("no such profile: gabi or old"),
            Cause::NoEntry => f.write_str("the link has no such symbol"),
            Cause::Refused(refusal, about) => {
                let words = words::cause(refusal.number);
                write!(
                    f,
                    "{words} (refusal {}, place {}){about}",
                    refusal.number, refusal.place
                )
            }
        }
    }
}

// With what of the title, a file or a member of an archive.
#[derive(Drop)]
pub enum Fault {
    Memory,
    Of(String, Cause),
}

impl fmt::Display for Fault {
    fn fmt<W: fmt::Write>(&self, f: &mut fmt::Formatter<W>) -> fmt::Result {
        match self {
            Fault::Memory => f.write_str("out of memory"),
            Fault::Of(file, cause) => write!(f, "{file}: {cause}"),
        }
    }
}

impl From<AllocError> for Fault {
    fn from(_refused: AllocError) -> Fault {
        Fault::Memory
    }
}

fn fault_of(alloc: Global, file: &str, cause: Cause) -> Fault {
    match String::from_str(alloc, file) {
        Ok(name) => Fault::Of(name, cause),
        Err(_) => Fault::Memory,
    }
}

fn refused(alloc: Global, file: &str, refusal: Refusal) -> Fault {
    fault_of(alloc, file, Cause::Refused(refusal, String::new(alloc)))
}

fn text_of(name: &[u8]) -> &str {
    str::from_utf8(name).unwrap_or("?")
}

#[derive(Drop)]
struct ArchiveFile {
    path: String,
    file: Vec<u8>,
}

impl ArchiveFile {
    fn index(&self) -> &[u8] {
        match Front::of(&self.file).index {
            Some(member) => member.bytes(&self.file),
            None => &[],
        }
    }

    // libsound.a(sound.o)
    fn label(&self, alloc: Global, at: usize) -> Result<String, AllocError> {
        let long_names = match Front::of(&self.file).long_names {
            Some(member) => member.bytes(&self.file),
            None => &[],
        };
        let name = text_of(archive_file::name(&self.file, long_names, at));
        format!(in alloc; "{}({name})", self.path)
    }
}

// The archive of an entry, by how many each index says that it has; one without room for its count ends the search.
fn archive_of(archives: &[ArchiveFile], entry: usize) -> Option<&ArchiveFile> {
    let mut before: usize = 0;
    for archive in archives {
        let index = archive.index();
        before = before.saturating_add(archive_index::count(index));
        if index.len() < archive_index::WORD_BYTES || entry < before {
            return Some(archive);
        }
    }
    None
}

// The archive that a refused start is about: its place is that of an archive or of an entry.
fn refused_archive(archives: &[ArchiveFile], refusal: Refusal) -> Option<&ArchiveFile> {
    let place = refusal.place as usize;
    if refusal.number == 20 || archives.len() > archive_index::ARCHIVE_BOUND {
        return archives.get(place);
    }
    archive_of(archives, place)
}

fn refused_start(alloc: Global, archives: &[ArchiveFile], refusal: Refusal) -> Fault {
    let Some(archive) = refused_archive(archives, refusal) else {
        return refused(alloc, "archives", refusal);
    };
    if refusal.number != 20 || !Front::of(&archive.file).other_index {
        return refused(alloc, &archive.path, refusal);
    }
    match String::from_str(alloc, ": its index is of 64-bit offsets or of BSD") {
        Ok(about) => fault_of(alloc, &archive.path, Cause::Refused(refusal, about)),
        Err(_) => Fault::Memory,
    }
}

// A pass is refused at an entry, with its name.
fn refused_pass(alloc: Global, archives: &[ArchiveFile], name: &[u8], refusal: Refusal) -> Fault {
    let Some(archive) = archive_of(archives, refusal.place as usize) else {
        return refused(alloc, "archives", refusal);
    };
    match format!(in alloc; ": symbol {}", text_of(name)) {
        Ok(about) => fault_of(alloc, &archive.path, Cause::Refused(refusal, about)),
        Err(_) => Fault::Memory,
    }
}

// The indexes of a title's archives, one behind the other, and the rows of their entries.
#[derive(Drop)]
struct Indexes {
    bytes: Vec<u8>,
    ends: Vec<u64>,
    cells: Vec<u64>,
}

fn joined(alloc: Global, archives: &[ArchiveFile]) -> Result<Indexes, AllocError> {
    let mut bytes = Vec::new(alloc);
    let mut ends = Vec::new(alloc);
    let mut entries: usize = 0;
    for archive in archives {
        let index = archive.index();
        entries = entries
            .saturating_add(archive_index::count(index))
            .min(MOST_ENTRIES);
        bytes.extend_from_slice(index)?;
        ends.push(bytes.len() as u64)?;
    }
    let cells = vec![in alloc; 0; entries.min(MOST_ENTRIES) * ENTRY_CELLS]?;
    Ok(Indexes { bytes, ends, cells })
}

fn start(bytes: &[u8], ends: &[u64], cells: &mut [u64]) -> Result<Walk, Refusal> {
    Walk::start(KEY, Archives { bytes, ends }, cells)
}

// A link and its walk, which each title begins anew.
#[derive(Drop)]
pub struct TitleLink {
    alloc: Global,
    owned: OwnedLink,
    walk: Walk,
}

impl TitleLink {
    pub fn new(alloc: Global) -> Result<TitleLink, AllocError> {
        Ok(TitleLink {
            alloc,
            owned: OwnedLink::new(alloc)?,
            walk: Walk::none(),
        })
    }

    pub fn title(&self) -> Title<'_> {
        Title {
            link: self.owned.link,
            symbols: &self.owned.symbols,
            sections: &self.owned.sections,
            walk: self.walk,
        }
    }

    // In words, with the symbol or the section of the object that it is about.
    fn told(&mut self, file: &str, image: &[u8], refusal: Refusal) -> Fault {
        let alloc = self.alloc;
        let Ok(written) = elf_file::read(image, &mut self.owned.rows) else {
            return refused(alloc, file, refusal);
        };
        let object = words::object_in(&self.owned.rows, image, written);
        let about = match words::about_place(object, refusal.number, refusal.place as usize) {
            About::Nothing => Ok(String::new(alloc)),
            About::Section(name) => format!(in alloc; ": section {}", text_of(name)),
            About::Symbol(name) => format!(in alloc; ": symbol {}", text_of(name)),
        };
        match about {
            Ok(about) => fault_of(alloc, file, Cause::Refused(refusal, about)),
            Err(_) => Fault::Memory,
        }
    }

    fn merge(&mut self, file: &str, image: &[u8]) -> Result<(), Fault> {
        match self.owned.merge_file(image) {
            Ok(()) => Ok(()),
            Err(refusal) => Err(self.told(file, image, refusal)),
        }
    }

    // An object is merged, an archive kept for the walk. One without members has nothing to walk over, nor an index.
    fn take(
        &mut self,
        rt: &HostRuntime,
        path: &str,
        archives: &mut Vec<ArchiveFile>,
    ) -> Result<(), Fault> {
        let Ok(file) = fs::read(rt, path) else {
            return Err(fault_of(self.alloc, path, Cause::NoFile));
        };
        if archive_file::is_thin(&file) {
            return Err(fault_of(self.alloc, path, Cause::Thin));
        }
        if !archive_file::is_archive(&file) {
            return self.merge(path, &file);
        }
        if file.len() == archive_file::FIRST {
            return Ok(());
        }
        let path = String::from_str(self.alloc, path)?;
        match archives.push(ArchiveFile { path, file }) {
            Ok(()) => Ok(()),
            Err(_) => Err(Fault::Memory),
        }
    }

    // The member of an archive, if a name is required of it.
    fn take_member(
        &mut self,
        archive: &ArchiveFile,
        at: usize,
        entry: usize,
        index: &[u8],
        cells: &[u64],
    ) -> Result<(), Fault> {
        let label = archive.label(self.alloc, at)?;
        let Some(member) = archive_file::member_at(&archive.file, at) else {
            return Err(fault_of(self.alloc, &label, Cause::CutMember));
        };
        let image = member.bytes(&archive.file);
        match self.owned.admits(image, self.walk, index, cells, entry) {
            Ok(true) => self.merge(&label, image),
            Ok(false) => Ok(()),
            Err(refusal) => Err(self.told(&label, image, refusal)),
        }
    }

    // One call of the walk; false once it is done.
    fn step(
        &mut self,
        archives: &[ArchiveFile],
        index: &[u8],
        ends: &[u64],
        cells: &mut [u64],
    ) -> Result<bool, Fault> {
        let offer = pending_archive::next(
            &mut self.walk,
            index,
            ends,
            cells,
            self.owned.link,
            &self.owned.bytes,
            &self.owned.names,
            &self.owned.symbols,
        );
        match offer {
            Ok(Offer::Done { .. }) => Ok(false),
            Ok(
                Offer::Member {
                    archive,
                    offset,
                    entry,
                    ..
                },
            ) => {
                let Some(archive) = archives.get(archive) else {
                    return Err(fault_of(self.alloc, "archives", Cause::CutMember));
                };
                self.take_member(archive, offset as usize, entry, index, cells)?;
                Ok(true)
            }
            Err(refusal) => {
                let name = archive_index::name(index, cells, refusal.place as usize);
                Err(refused_pass(self.alloc, archives, name, refusal))
            }
        }
    }

    // One walk over all archives, of none too.
    fn walk_archives(&mut self, archives: &[ArchiveFile]) -> Result<(), Fault> {
        let Indexes {
            bytes,
            ends,
            mut cells,
        } = joined(self.alloc, archives)?;
        match start(&bytes, &ends, &mut cells) {
            Ok(walk) => self.walk = walk,
            Err(refusal) => return Err(refused_start(self.alloc, archives, refusal)),
        }
        for _ in 0..=self.walk.entries {
            if !self.step(archives, &bytes, &ends, &mut cells)? {
                break;
            }
        }
        Ok(())
    }

    // A named entry that the link doesn't have is told, and the rest collected without it.
    fn collect(&mut self, entry: Option<&str>) -> Result<(), Fault> {
        let held = self.owned.find(entry.unwrap_or("_start").as_bytes());
        let found = held.is_ok();
        if let Err(refusal) = self.owned.collect(held.ok().map(|symbol| symbol.id)) {
            return Err(refused(self.alloc, "collection", refusal));
        }
        match entry {
            Some(name) if !found => {
                let label = format!(in self.alloc; "entry={name}")?;
                Err(Fault::Of(label, Cause::NoEntry))
            }
            _ => Ok(()),
        }
    }

    pub fn link_title(&mut self, rt: &HostRuntime, line: &str) -> Result<(), Fault> {
        self.walk = Walk {
            offered: 0,
            passes: 0,
            ..Walk::none()
        };
        let options = line::options_of(line);
        let gabi = match &options {
            Some(options) => options.gabi,
            None => false,
        };
        if let Err(refusal) = self.owned.begin(KEY, gabi) {
            return Err(refused(self.alloc, "link", refusal));
        }
        let Some(options) = options else {
            return Err(fault_of(self.alloc, line, Cause::NoProfile));
        };
        let mut archives = Vec::new(self.alloc);
        for path in line.split_whitespace() {
            if line::is_path(path) {
                self.take(rt, path, &mut archives)?;
            }
        }
        self.walk_archives(&archives)?;
        self.collect(options.entry)
    }
}
