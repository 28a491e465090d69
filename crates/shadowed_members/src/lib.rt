// What a walk over an archive passed by without a word: an entry is told where a weak definition holds its name while its member was not offered,
// or where its name is undefined although its member was. A lookup: nothing of the link, the walk or its rows is written.
#![tactic(auto)]

ghost use Rattle.std.specs.Prelude.{◌≡◌, length, set};
ghost use Rattle.archive_walk.specs.Lent.{as_table};
ghost use Rattle.shadowed_members.specs.Shadowed.{told_row, told_name, told_at, told_in, fits_index, shadowed_of, list_left};
ghost use Rattle.shadowed_members.specs.Marks.{is_marked, Marked};
ghost use Rattle.shadowed_members.specs.Contract.{shadowed_exit, ShadowedMeets};

use archive_index::Entries;
use archive_walk::{Table, Walk};
use link::{Cause, Refusal, SymbolId};
use symbol_resolution::Holder;

// ---- the members that were offered

// A byte for each entry, 1 for the first entry of a member that was offered, so that each entry asks for its member at once.
// Kept: fixed, since a lookup has no heap; bytes of 0 and 1, as the definitions read them.
#[derive(Drop)]
struct Offered([u8; archive_index::ENTRY_BOUND]);

impl Offered {
    #[tactic(auto, unfolding(crate::specs::Marks::is_marked))]
    fn has(&self, member: u64) -> bool
        ensures { result ≡ is_marked self.now.0 member }
    {
        byte_slices::byte_at(&self.0, member as usize) == 1
    }

    fn mark(&mut self, member: u64)
        ensures { self.new.0 ≡ set self.old.0 member 1 }
    {
        let at = member as usize;
        if at < archive_index::ENTRY_BOUND {
            self.0[at] = 1;
        }
    }

    // The members of the first n entries of the queue.
    fn mark_all(&mut self, entries: Entries<'_, '_>, n: usize)
        requires { Marked entries.cells.now 0 self.old.0 }
        ensures { Marked entries.entry.cells.now n self.new.0 }
    {
        for i in 0..n {
            let entry = entries.field(i, archive_index::QUEUE) as usize;
            self.mark(entries.field(entry, archive_index::MEMBER));
        }
    }
}

// ---- the entries that are told

// Of a name whose row this is.
#[tactic(auto, unfolding(crate::specs::Shadowed::told_row, crate::specs::Shadowed::weak_definition, symbol_resolution::specs::Decide::weak_of))]
fn row_told(symbols: &[u64], id: SymbolId, offered: bool) -> bool
    ensures { result ≡ told_row symbols.now offered id }
{
    let kind = cells::row_get(symbols, id.0, symbol::CELL_KIND);
    if kind == symbol::KIND_UNDEFINED {
        return offered;
    }
    let scope = symbol::scope_at(symbols, id);
    !offered && matches!(scope, symbol::WEAK | symbol::WEAK_HIDDEN)
}

// Of a name that nobody holds, or whose row was removed, nothing is told.
#[tactic(auto, unfolding(crate::specs::Shadowed::told_name))]
fn name_told(table: Table<'_>, name: &[u8], offered: bool) -> bool
    ensures { result ≡ told_name (as_table table.entry) offered name.now }
{
    match table.holder(name) {
        Holder::Known { id } => row_told(table.symbols, id, offered),
        _ => false,
    }
}

#[tactic(auto, unfolding(crate::specs::Shadowed::told_at))]
fn entry_told(entries: Entries<'_, '_>, table: Table<'_>, offered: &Offered, k: usize) -> bool
    ensures { result ≡ told_at entries.entry.index.now entries.entry.cells.now (as_table table.entry) (is_marked offered.now.0) k }
{
    let member = entries.field(k, archive_index::MEMBER);
    name_told(table, entries.name(k), offered.has(member))
}

// Their positions, in index order.
fn tell(
    entries: Entries<'_, '_>,
    count: usize,
    table: Table<'_>,
    offered: &Offered,
    told: &mut [u64],
) -> usize
    ensures { list_left told.new result ≡ told_in entries.entry.index.now entries.entry.cells.now count (as_table table.entry) (is_marked offered.now.0) told.old }
{
    let mut n = 0;
    for k in 0..count {
        if entry_told(entries, table, offered, k) {
            cells::put(told, n, k as u64);
            n += 1;
        }
    }
    n
}

// The index and the rows are as long as at the start, and the counts are those of a walk. `Walk::fits` is of a walk that goes on.
#[tactic(auto, unfolding(crate::specs::Shadowed::fits_index))]
fn fits(walk: Walk, entries: Entries<'_, '_>) -> bool
    ensures { result ≡ fits_index entries.entry.index.now entries.entry.cells.now walk }
{
    walk.length <= entries.index.len()
        && walk.entries <= entries.rows()
        && walk.queued <= walk.entries
        && walk.offered <= walk.queued
}

// The entries that are told, by their positions in the index, and how many they are. 1 for a count of the link above what is lent, then 1 at 0 where
// the index or its rows are no longer the walk's, then 2 at 0 where fewer cells are lent than the index has entries; nothing is written by a refusal.
pub fn shadowed(
    walk: Walk,
    entries: Entries<'_, '_>,
    table: Table<'_>,
    told: &mut [u64],
) -> Result<usize, Refusal>
    ensures { ShadowedMeets entries.entry.index.now entries.entry.cells.now walk (as_table table.entry) told.old (shadowed_exit told result) }
{
    table.judge()?;
    if !fits(walk, entries) {
        return Err(Refusal::new(Cause::OutOfRange, 0));
    }
    if told.len() < walk.entries {
        return Err(Refusal::new(Cause::NoRoom, 0));
    }
    let mut offered = Offered([0; archive_index::ENTRY_BOUND]);
    offered.mark_all(entries, walk.offered);
    Ok(tell(entries, walk.entries, table, &offered, told))
}
