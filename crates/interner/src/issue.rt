// A name issued: whether there is room for it, and its row and bytes.
ghost use Rattle.std.specs.Prelude.{◌≡◌, ◌<◌};
ghost use Rattle.interner.specs.Names.{room_of, fits_of, linked, keep_at, keep_of};
ghost use Rattle.interner.specs.Lent.{same_loans, store_in, store_read};

use crate::{Names, NamesMut};
use link::Interned;

impl Names<'_, '_> {
    // Is there a free row of those that a new table was lent, and are there as many free bytes?
    #[tactic(auto, unfolding(crate::specs::Names::room_of))]
    pub(super) fn has_room(self, len: usize) -> bool
        ensures { result ≡ room_of (store_read self.entry) len }
    {
        let most = link::name_byte_room(self.bytes.len());
        self.link.chains <= link::name_rows(self.cells.len())
            && self.link.names < self.link.chains
            && self.link.bytes <= most
            && len <= most - self.link.bytes
    }

    // A known name fits; a new one if there is room.
    #[tactic(auto, unfolding(crate::specs::Names::fits_of))]
    pub fn fits(self, id: Interned, len: usize) -> bool
        ensures { result ≡ fits_of (store_read self.entry) id len }
    {
        id.0 < self.link.names || self.has_room(len)
    }
}

// A row for the new name, at the head of its chain.
// Kept: loose parameters; a struct of them would be the row itself.
#[tactic(auto, unfolding(crate::specs::Names::linked))]
fn link_row(names: &mut [u64], count: usize, start: usize, len: usize, head: usize)
    requires { count < 18446744073709551615 }
    ensures { names.new ≡ linked names.old count start len head }
{
    let next = cells::get(names, head);
    cells::row_store(
        names,
        count,
        [start as u64, len as u64, next, 0, 0, 0, 0, 0],
    );
    cells::put(names, head, (count + 1) as u64);
}

impl NamesMut<'_> {
    // To be read.
    pub fn read(&self) -> Names<'_, '_>
        ensures link { result.link ≡ self.now.link }
        ensures bytes { result.bytes.now ≡ self.now.bytes.now }
        ensures cells { result.cells.now ≡ self.now.cells.now }
    {
        Names {
            link: self.link,
            bytes: self.bytes,
            cells: self.cells,
        }
    }

    // Issues the id for x, where the head of its chain is told: nothing changes for a known name, nor where there is no room.
    // Inlined: else the link goes through memory in each call that issues a name.
    #[inline(always)]
    #[tactic(auto, unfolding(crate::specs::Names::keep_at))]
    pub fn keep_at(&mut self, id: Interned, head: usize, x: &[u8])
        ensures same { same_loans self.old self.new }
        ensures kept { store_in self.new ≡ keep_at (store_in self.old) id head x.now }
    {
        if id.0 < self.link.names {
            return;
        }
        if self.read().has_room(x.len()) {
            let count = self.link.names;
            let start = self.link.bytes;
            byte_slices::copy_in(self.bytes, start, x);
            link_row(self.cells, count, start, x.len(), head);
            self.link.names = count + 1;
            self.link.bytes = start + x.len();
        }
    }

    // The same where no head is told.
    #[tactic(auto, unfolding(crate::specs::Names::keep_of, crate::specs::Names::keep_at))]
    pub fn keep(&mut self, id: Interned, x: &[u8])
        ensures same { same_loans self.old self.new }
        ensures kept { store_in self.new ≡ keep_of (store_in self.old) id x.now }
    {
        // The room first, since the hash reads all of x.
        if id.0 < self.link.names || !self.read().has_room(x.len()) {
            return;
        }
        let head = crate::head_cell(self.link, self.cells.len(), x);
        self.keep_at(id, head, x);
    }
}
