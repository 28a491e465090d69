// The System V indexes of archives, and a row of lent cells for each of their entries.
#![tactic(auto)]

ghost use Rattle.std.specs.Prelude.{◌≡◌, ◌+◌, ◌*◌, ◌<◌, length};
ghost use Rattle.archive_index.specs.Index.{word_at, count_of, offset_of, after_in};
ghost use Rattle.archive_index.specs.Rows.{stored_name, rows_in, field_at, no_heads};

mod opening;
mod several;

pub use opening::{Spot, open};
pub use several::{Archives, Member};

// The bytes of a number of the index.
pub const WORD_BYTES: usize = 4;

// The bound on the entries of all indexes together.
pub const ENTRY_BOUND: usize = 65535;

// So many indexes are walked as one, and no more.
pub const ARCHIVE_BOUND: usize = 16;

// ---- the cells of an entry's row (specs/Rows.antt says more)

pub const ROW_WIDTH: usize = 8;

// Is its name required of its member?
pub const REQUIRED: usize = 0;

// The member's first entry.
pub const MEMBER: usize = 1;

// While the index is opened: the first of the two children in the tree of members.
pub const EVEN: usize = 2;

// From then on: the link in a chain of required names, and the head of a chain.
// Kept: chains, and the tree, are places in lent cells and no Box, since the library has no heap and C lends the memory.
pub const LINK: usize = 2;

pub const HEAD: usize = 3;

// Where its name starts, and how long it is.
pub const START: usize = 4;

pub const LENGTH: usize = 5;

// The pass that queued its member.
pub const PASS: usize = 6;

// While the indexes are opened: the key of its member.
pub const KEY: usize = 7;

// From then on: the k-th entry of the queue.
pub const QUEUE: usize = 7;

// ---- the index

// A big-endian number; four bytes that lie in the index are read at once.
fn word(index: &[u8], at: usize) -> u64
    requires { at < 0xfffffffffffffffd }
    ensures value { result ≡ word_at index.now at }
    ensures bound { result < 0x100000000 }
{
    if at + 3 < index.len() {
        let whole = [index[at], index[at + 1], index[at + 2], index[at + 3]];
        return u32::from_be_bytes(whole) as u64;
    }
    let cut = [
        byte_slices::byte_at(index, at),
        byte_slices::byte_at(index, at + 1),
        byte_slices::byte_at(index, at + 2),
        byte_slices::byte_at(index, at + 3),
    ];
    u32::from_be_bytes(cut) as u64
}

// The number of entries that the index says.
#[tactic(auto, unfolding(crate::specs::Index::count_of))]
pub fn count(index: &[u8]) -> usize
    ensures value { result ≡ count_of index.now }
    ensures bound { result < 0x100000000 }
{
    word(index, 0) as usize
}

// Entry k's member offset.
#[tactic(auto, unfolding(crate::specs::Index::offset_of))]
pub fn offset(index: &[u8], k: usize) -> u64
    ensures value { result ≡ offset_of index.now k }
    ensures bound { result < 0x100000000 }
{
    if k < index.len() / WORD_BYTES {
        return word(index, WORD_BYTES + WORD_BYTES * k);
    }
    0
}

// The place after the name at this one and its zero byte, unless it is cut short.
pub fn after_name(index: &[u8], at: usize) -> Option<usize>
    ensures { result ≡ after_in index.now at }
{
    let name = strings::ended(index, at)?;
    Some(at + name.len() + 1)
}

// ---- the entries

// Indexes as they are read: their bytes, and the row of each entry.
#[derive(Clone, Copy)]
pub struct Entries<'i, 'c> {
    pub index: &'i [u8],
    pub cells: &'c [u64],
}

impl<'i> Entries<'i, '_> {
    // How many rows are lent.
    pub fn rows(self) -> usize
        ensures value { result ≡ rows_in self.entry.cells.now }
        ensures bound { result < 0x2000000000000000 }
    {
        self.cells.len() / ROW_WIDTH
    }

    // A cell of entry k's row.
    pub fn field(self, k: usize, f: usize) -> u64
        ensures { result ≡ field_at self.entry.cells.now k f }
    {
        cells::row_get(self.cells, k, f)
    }

    // Entry k's name, as that very part of the index: read by its row, whatever the cells hold.
    pub fn name(self, k: usize) -> &'i [u8]
        ensures result_value { result.now ≡ stored_name self.entry.index.now self.entry.cells.now k }
        ensures place { result.ref_ptr.0 ≡ self.entry.index.ref_ptr.0 }
    {
        let start = self.field(k, START);
        let len = self.field(k, LENGTH);
        cells::part_of(self.index, start as usize, len as usize)
    }
}

// Indexes as they are walked, and the rows, which are written.
#[derive(Drop)]
pub struct Rows<'a> {
    pub archives: Archives<'a>,
    pub cells: &'a mut [u64],
}

impl Rows<'_> {
    pub fn read(&self) -> Entries<'_, '_>
        ensures { (result.index.now ≡ self.now.archives.bytes.now) × (result.cells.now ≡ self.now.cells.now) }
    {
        Entries {
            index: self.archives.bytes,
            cells: self.cells,
        }
    }
}

// Kept: for callers with loose slices (archive_list, replay_archive); at each of them the struct would be made for one call.
pub fn name<'a>(index: &'a [u8], cells: &[u64], k: usize) -> &'a [u8]
    ensures result_value { result.now ≡ stored_name index.now cells.now k }
    ensures place { result.ref_ptr.0 ≡ index.entry.ref_ptr.0 }
{
    Entries { index, cells }.name(k)
}

// No chain of names has an entry, and no place of the queue: a key stood there.
#[tactic(auto, unfolding(crate::specs::Rows::no_heads))]
pub fn clear_heads(cells: &mut [u64], entries: usize)
    ensures { cells.new ≡ no_heads entries cells.old }
{
    for k in 0..entries {
        cells::row_put(cells, k, HEAD, 0);
        cells::row_put(cells, k, QUEUE, 0);
    }
}
