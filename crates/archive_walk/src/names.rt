// The names required of a member, found by their hash.
ghost use Rattle.std.specs.Prelude.{◌≡◌};
ghost use Rattle.archive_index.specs.Contract.{same_rows};
ghost use Rattle.archive_walk.specs.Names.{name_chain, bears_of, borne_from, headed_of, noted_of, required_of};

use crate::Walk;
use archive_index::{Entries, Rows};

// A name, and the member of which it may be required, by the member's first entry.
#[derive(Clone, Copy)]
struct Asked<'a> {
    member: u64,
    name: &'a [u8],
}

impl Asked<'_> {
    // Its chain, among as many as the walk has entries.
    #[tactic(auto, unfolding(crate::specs::Names::name_chain))]
    fn chain(self, walk: Walk) -> usize
        ensures { result ≡ name_chain walk.key walk.entries self.entry.member self.entry.name.now }
    {
        if walk.entries == 0 {
            return 0;
        }
        let h = keyed_hash::hash(walk.key, self.name);
        let m = self.member as usize % keyed_hash::HASH_BOUND;
        (h + m) % walk.entries
    }

    #[tactic(auto, unfolding(crate::specs::Names::bears_of))]
    fn is_borne_by(self, entries: Entries<'_, '_>, k: usize) -> bool
        ensures { result ≡ bears_of entries.entry.index.now entries.entry.cells.now self.entry.member self.entry.name.now k }
    {
        entries.field(k, archive_index::REQUIRED) == 1
            && entries.field(k, archive_index::MEMBER) == self.member
            && byte_slices::same_bytes(entries.name(k), self.name)
    }

    // By an entry from this head on? Cells that are not a walk's may lead round in a ring: as many steps as rows are lent, at most.
    #[tactic(auto, unfolding(crate::specs::Names::borne_from, crate::specs::Names::along))]
    fn is_borne_from(self, entries: Entries<'_, '_>, head: usize) -> bool
        ensures { result ≡ borne_from entries.entry.index.now entries.entry.cells.now self.entry.member self.entry.name.now head }
    {
        let mut at = head;
        for _step in 0..entries.rows() {
            // The chain's end, or an entry that bears it.
            if at == 0 || self.is_borne_by(entries, at - 1) {
                return at != 0;
            }
            at = entries.field(at - 1, archive_index::LINK) as usize;
        }
        false
    }
}

// Entry k is marked, and goes to the head of chain b; one whose row isn't lent is in no chain.
// Kept: places in lent cells and no Box, since the library has no heap and C lends the memory.
#[tactic(auto, unfolding(crate::specs::Names::headed_of))]
fn put_at_head(cells: &mut [u64], k: usize, b: usize)
    ensures { cells.new ≡ headed_of cells.old k b }
{
    let rows = cells.len() / archive_index::ROW_WIDTH;
    let head = cells::row_get(cells, b, archive_index::HEAD);
    cells::row_put(cells, k, archive_index::REQUIRED, 1);
    if k < rows {
        cells::row_put(cells, k, archive_index::LINK, head);
        cells::row_put(cells, b, archive_index::HEAD, (k + 1) as u64);
    }
}

impl Walk {
    // Entry k's name is required of its member: in the name's chain, unless that has it.
    #[tactic(auto, unfolding(crate::specs::Names::noted_of, crate::specs::Names::chained))]
    pub fn note(self, rows: &mut Rows<'_>, k: usize)
        ensures same { same_rows rows.old rows.new }
        ensures cells { rows.new.cells.now ≡ noted_of self.key self.entries rows.old.archives.bytes.now rows.old.cells.now k }
    {
        let entries = rows.read();
        let asked = Asked {
            member: entries.field(k, archive_index::MEMBER),
            name: entries.name(k),
        };
        let b = asked.chain(self);
        let head = entries.field(b, archive_index::HEAD) as usize;
        if asked.is_borne_from(entries, head) {
            cells::row_put(rows.cells, k, archive_index::REQUIRED, 1);
            return;
        }
        put_at_head(rows.cells, k, b);
    }

    // Is the name required of the member that was offered by this entry: was it undefined in the pass that queued it?
    #[tactic(auto, unfolding(crate::specs::Names::required_of, crate::specs::Names::chained))]
    pub fn is_required(self, entries: Entries<'_, '_>, entry: usize, name: &[u8]) -> bool
        ensures { result ≡ required_of entries.entry.index.now entries.entry.cells.now self entry name.now }
    {
        let member = entries.field(entry, archive_index::MEMBER);
        let asked = Asked { member, name };
        let first = entries.field(asked.chain(self), archive_index::HEAD) as usize;
        asked.is_borne_from(entries, first)
    }
}
