// A shared object as a list tells it, in lent cells and bytes, and its load with what it is lent of each store. Its bytes are the library name,
// the soname with a zero byte, the string table, the dependencies' names, each with a zero byte; what is lent to the load as its string table
// begins with the soname.
#![tactic(auto)]

ghost use Rattle.std.specs.Prelude.{◌≡◌};
ghost use Rattle.text.specs.Writing.{written};
ghost use Rattle.shared_objects.specs.Load.{link_before};
ghost use Rattle.replay_stores.specs.Lent.{SameStores};
ghost use Rattle.replay_load.specs.Told.{nothing_told, put_ended, soname_in, bytes_of, cells_of, announce_of, strings_of, symbol_of, need_of, told_after};
ghost use Rattle.replay_load.specs.Load.{changed_as, entry_cells, cells_of_stores, load_lent, done_after};

use link::Link;
use replay_stores::Stores;
use replay_text::{Changed, Reply};
use replay_words::Lend;
use shared_objects::Load;
use symbols::Symbols;
use text::Writer;

// Path: bytes of the library name. Soname: of the soname and its zero byte. Entries, needs, bytes: told so far.
// Kept: a flag and a length, as the definitions (announced_as) have them: the length, 0 without a soname, counts in every offset.
#[derive(Clone, Copy, Debug, PartialEq, Eq)]
pub struct Library {
    pub asneeded: bool,
    pub archived: bool,
    pub sonamed: bool,
    pub path: usize,
    pub soname: usize,
    pub entries: usize,
    pub needs: usize,
    pub bytes: usize,
}

// Rows that symbols have room for; the dependencies' offsets come behind them.
// Kept: both in one list of cells, as they are lent; the definitions (need_of) fix the places.
const ROWS: usize = 256;

// The cells of both together.
pub const CELLS: usize = 2304;

// ---- what is told

// Bytes, and a zero byte behind them.
#[tactic(auto, unfolding(crate::specs::Told::put_ended, crate::specs::Told::ended_of, text::specs::Writing::put_all))]
fn put_ended(out: &mut Writer<'_>, x: &[u8])
    ensures same { out.new.bytes.ghost_name ≡ out.old.bytes.ghost_name }
    ensures text { written out.new ≡ put_ended out.old.bytes.now out.old.len x.now }
{
    out.put(x);
    out.put(b"\0");
}

#[tactic(auto, unfolding(crate::specs::Told::soname_in))]
fn put_soname(out: &mut Writer<'_>, line: &[u8])
    ensures same { out.new.bytes.ghost_name ≡ out.old.bytes.ghost_name }
    ensures text { written out.new ≡ soname_in out.old.bytes.now out.old.len line.now }
{
    if replay_words::is(line, 2, b"1") {
        put_ended(out, replay_words::name_at(line, 3));
    }
}

impl Library {
    pub fn empty() -> Library
        ensures { result ≡ nothing_told }
    {
        Library {
            asneeded: false,
            archived: true,
            sonamed: false,
            path: 0,
            soname: 0,
            entries: 0,
            needs: 0,
            bytes: 0,
        }
    }

    // `library ASNEEDED OPTNAME OPTNAME SYMBOLS NEEDS`: the soname, the library name. A name that isn't there is written as the empty one.
    #[tactic(auto, unfolding(crate::specs::Told::announce_of, crate::specs::Told::path_after, text::specs::Writing::put_all))]
    pub fn announced(bytes: &mut [u8], line: &[u8]) -> Library
        ensures { bytes_of bytes.new result ≡ announce_of bytes.old line.now }
    {
        let mut out = Writer::new(bytes);
        out.put(replay_words::name_at(line, 5));
        let path = out.len;
        put_soname(&mut out, line);
        Library {
            asneeded: replay_words::is(line, 1, b"1"),
            archived: replay_words::is(line, 4, b"0"),
            sonamed: replay_words::is(line, 2, b"1"),
            path,
            soname: out.len.saturating_sub(path),
            entries: 0,
            needs: 0,
            bytes: out.len,
        }
    }

    // `strings BYTES`
    #[tactic(auto, unfolding(crate::specs::Told::strings_of))]
    pub fn strings(&mut self, bytes: &mut [u8], line: &[u8])
        ensures { bytes_of bytes.new self.new ≡ strings_of bytes.old self.old line.now }
    {
        let count = replay_words::put_bytes(bytes, self.bytes, text::field(line, 1));
        self.bytes = self.bytes.wrapping_add(count);
    }

    // `symbol NAMEOFFSET BINDING TYPE VISIBILITY SECTION VALUE`
    #[tactic(auto, unfolding(crate::specs::Told::symbol_of))]
    pub fn symbol(&mut self, cells: &mut [u64], line: &[u8])
        ensures { cells_of cells.new self.new ≡ symbol_of cells.old self.old line.now }
    {
        let offset = replay_words::number(line, 1);
        cells::row_store(
            cells,
            self.entries,
            [
                offset.wrapping_add(self.soname as u64),
                replay_words::number(line, 2),
                replay_words::number(line, 3),
                replay_words::number(line, 4),
                replay_words::number(line, 5),
                replay_words::number(line, 6),
                0,
                0,
            ],
        );
        self.entries = symbol::next(self.entries);
    }

    // `needs NAME`
    #[tactic(auto, unfolding(crate::specs::Told::need_of))]
    pub fn need(&mut self, cells: &mut [u64], bytes: &mut [u8], line: &[u8])
        ensures { told_after cells bytes self.new ≡ need_of cells.old bytes.old self.old line.now }
    {
        let offset = self.bytes.saturating_sub(self.path);
        cells::row_put(cells, ROWS, self.needs, offset as u64);
        let mut out = Writer::after(bytes, self.bytes);
        put_ended(&mut out, replay_words::name_at(line, 1));
        self.bytes = out.len;
        self.needs = symbol::next(self.needs);
    }
}

// ---- the load

#[tactic(auto, unfolding(crate::specs::Load::changed_as))]
fn loaded(outcome: shared_objects::Outcome) -> Changed
    ensures { result ≡ changed_as outcome.link outcome.answer }
{
    Changed {
        table: Symbols { link: outcome.link },
        reply: match outcome.answer {
            Ok(Load::Loaded) => Ok(Reply::Loaded),
            Ok(Load::NotNeeded) => Ok(Reply::NotNeeded),
            Err(refusal) => Err(refusal),
        },
    }
}

// The cells of that many symbol rows, as far as there is room.
#[tactic(auto, unfolding(crate::specs::Load::entry_cells))]
fn entry_cells(n: usize) -> usize
    ensures { result ≡ entry_cells n }
{
    n.min(ROWS) * 8
}

// `load`, with what is lent of each store.
// Kept: each parameter is one of the definition (load_lent); what is lent is a struct already.
#[tactic(auto, unfolding(crate::specs::Load::load_lent, crate::specs::Load::load_lists, crate::specs::Load::load_all))]
pub fn load(
    l: Link,
    lend: Lend,
    library: Library,
    stores: &mut Stores<'_>,
    rows: &[u64],
    file: &[u8],
) -> Changed
    ensures same { SameStores stores.old stores.new }
    ensures work { stores.new.work.now ≡ stores.old.work.now }
    ensures done { let c = cells_of_stores stores.old stores.new in
        done_after c result ≡ load_lent lend library rows.now file.now (link_before c l) }
{
    let bytes = replay_words::cells(lend.bytes, stores.bytes.len());
    let names = replay_words::wide_rows(lend.names, stores.names.len());
    let symbols = replay_words::rows(lend.symbols, stores.symbols.len());
    let sections = replay_words::wide_rows(lend.sections, stores.sections.len());
    let inputs = replay_words::rows(lend.inputs, stores.inputs.len());
    let lists = replay_words::cells(lend.lists, stores.lists.len());
    let ids = replay_words::cells(lend.ids, stores.ids.len());
    let entries = cells::part_of(rows, 0, entry_cells(library.entries));
    let strings = cells::part_of(
        file,
        library.path,
        library.bytes.saturating_sub(library.path),
    );
    let needs = cells::part_of(rows, ROWS * 8, library.needs);
    let path = cells::part_of(file, 0, library.path);
    loaded(shared_objects::load_shared_object(
        l,
        &mut stores.bytes[..bytes],
        &mut stores.names[..names],
        &mut stores.symbols[..symbols],
        &mut stores.sections[..sections],
        &mut stores.inputs[..inputs],
        &mut stores.lists[..lists],
        &mut stores.ids[..ids],
        entries,
        strings,
        needs,
        path,
        library.archived,
        library.sonamed,
        0,
        library.asneeded,
    ))
}
