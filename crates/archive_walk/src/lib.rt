// The walk over archives' members: a call for the next member is lent the indexes, the entries' rows and the table as it stands then.
// The queue lies in the rows, and so do the chains of required names; nothing of the link is written.
#![tactic(auto)]

ghost use Rattle.std.specs.Prelude.{◌≡◌};
ghost use Rattle.archive_index.specs.Archives.{archives_in};
ghost use Rattle.archive_walk.specs.Walk.{no_walk, started_of};
ghost use Rattle.archive_walk.specs.Contract.{start_exit, StartMeets};

mod names;
mod passes;
mod table;

use archive_index::Archives;
use link::Refusal;
pub use table::Table;

// The key of the chains of names; entries of the indexes at the start, and where the last of them ended; passes made; members queued since the start, and how many of them
// were offered. A walk is plain data: one of an earlier call can be used again, or one that nobody started. Every call with it ends, and touches no row
// that isn't lent; with one of the same start the rows keep their members, names and chains (`again`, archive_laws).
#[derive(Clone, Copy)]
pub struct Walk {
    pub key: usize,
    pub entries: usize,
    pub length: usize,
    pub passes: usize,
    pub queued: usize,
    pub offered: usize,
    pub done: bool,
}

// A member by its archive and offset, with the entry that queued it; the passes made so far.
#[derive(Clone, Copy)]
pub enum Offer {
    Member {
        archive: usize,
        offset: u64,
        entry: usize,
        passes: usize,
    },
    Done {
        passes: usize,
    },
}

impl Walk {
    // A row of cells for each entry of the indexes: 1 of the ends; 20; 1; 2. No pass is made. Any number is a key; one that nobody can guess keeps
    // chosen names from sharing a chain.
    pub fn start(key: usize, archives: Archives<'_>, cells: &mut [u64]) -> Result<Walk, Refusal>
        ensures { StartMeets key (archives_in archives.entry) cells.old (start_exit cells (started_of result)) }
    {
        let entries = archive_index::open(archives, cells)?;
        archive_index::clear_heads(cells, entries);
        Ok(Walk {
            key,
            entries,
            length: archives.end(),
            passes: 0,
            queued: 0,
            offered: 0,
            done: false,
        })
    }

    // A walk that fits no index, for a caller who keeps one where no start was made.
    // Kept: a value and no Option, since C's seven cells always hold a walk.
    pub fn none() -> Walk
        ensures { result ≡ no_walk }
    {
        Walk {
            key: 0,
            entries: 0,
            length: link::NOT_LENT,
            passes: 0,
            queued: 0,
            offered: 0,
            done: false,
        }
    }
}
