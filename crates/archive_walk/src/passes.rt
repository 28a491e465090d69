// The walk's calls for the next member, and its passes.
ghost use Rattle.std.specs.Prelude.{◌≡◌, ◌+◌, ◌<◌, false, length, Ok, OnOk, IsTrue};
ghost use Rattle.archive_index.specs.Archives.{archives_in};
ghost use Rattle.archive_index.specs.Contract.{same_rows};
ghost use Rattle.archive_walk.specs.Look.{ties};
ghost use Rattle.archive_walk.specs.Lent.{as_table, with_queued};
ghost use Rattle.archive_walk.specs.Walk.{step_of, offer_of, queue_of, marked, enqueue, tied_at, tied_all, removed_of, search_judged, make_of, pass_of, walk_fits, next_of};
ghost use Rattle.archive_walk.specs.Notes.{is_noted, note_tie, Noted};

use crate::{Offer, Table, Walk};
use archive_index::{Archives, Entries, Rows};
use link::{Cause, Refusal};
use symbol_resolution::Holder;

// A byte for each entry, which entries so far apart share.
const NOTE_BYTES: usize = 4096;

// ---- notes of which entries may tie

// The entries that may tie, so that no name is looked up twice in a pass.
// Kept: fixed, since a walk has no heap; bytes of 0 and 1, as the definitions read them.
#[derive(Drop)]
struct Notes([u8; NOTE_BYTES]);

impl Notes {
    #[tactic(auto, unfolding(crate::specs::Notes::is_noted))]
    fn has(&self, k: usize) -> bool
        ensures { result ≡ is_noted self.now.0 k }
    {
        self.0[k % NOTE_BYTES] == 1
    }

    // Entry k is noted if its name's holder ties.
    #[tactic(auto, unfolding(crate::specs::Notes::note_tie))]
    fn note(&mut self, table: Table<'_>, holder: Holder, k: usize)
        ensures whole { length self.new.0 ≡ 4096 }
        ensures noted { self.new.0 ≡ note_tie table.entry.link.gabi table.entry.symbols.now holder self.old.0 k }
    {
        if table.ties(holder) {
            self.0[k % NOTE_BYTES] = 1;
        }
    }

    // 21 at the first entry whose name's row was removed; those before it that tie are noted.
    fn survey(
        &mut self,
        entries: Entries<'_, '_>,
        count: usize,
        table: Table<'_>,
    ) -> Result<(), Refusal>
        ensures value { result ≡ search_judged (removed_of entries.entry.index.now entries.entry.cells.now (as_table table.entry) count 0) count }
        ensures noted { OnOk result (Noted entries.entry.index.now entries.entry.cells.now (as_table table.entry) count self.new.0) }
    {
        for k in 0..count {
            match table.holder(entries.name(k)) {
                Holder::Removed => return Err(Refusal::new(Cause::AbsentId, k)),
                holder => self.note(table, holder, k),
            }
        }
        Ok(())
    }
}

// ---- a pass

impl Walk {
    // Entry k goes to the end of the queue, and its name is required of its member, which r represents.
    // Kept: places in lent cells and no Box, since the library has no heap and C lends the memory.
    #[tactic(auto, unfolding(crate::specs::Walk::marked))]
    fn mark(self, rows: &mut Rows<'_>, k: usize, r: usize)
        ensures same { same_rows rows.old rows.new }
        ensures cells { rows.new.cells.now ≡ marked self.key self.entries rows.old.archives.bytes.now self.passes k r rows.old.cells.now self.queued }
    {
        self.note(rows, k);
        cells::row_put(rows.cells, r, archive_index::PASS, self.passes as u64);
        cells::row_put(rows.cells, self.queued, archive_index::QUEUE, k as u64);
    }

    // Entry k, its name tied, its member represented by r.
    // Kept: that one more can be counted is asked here and no invariant, since a Walk is plain data of any numbers until `fits` has looked.
    #[tactic(auto, unfolding(crate::specs::Walk::enqueue))]
    fn put_in_queue(&mut self, rows: &mut Rows<'_>, k: usize, r: usize)
        requires { self.old.queued < 0xffffffffffffffff }
        ensures same { same_rows rows.old rows.new }
        ensures rest { self.new ≡ with_queued self.old self.new.queued }
        ensures queue { queue_of rows.new.cells.now self.new.queued
            ≡ enqueue self.old.key self.old.entries rows.old.archives.bytes.now self.old.passes k r (queue_of rows.old.cells.now self.old.queued) }
    {
        let by = rows.read().field(r, archive_index::PASS) as usize;
        if by == 0 {
            self.mark(rows, k, r);
            self.queued += 1;
        } else if by == self.passes {
            self.note(rows, k);
        }
    }

    // Entry k, whose name is looked up only if it is noted: else it doesn't tie.
    #[tactic(auto, unfolding(crate::specs::Walk::tie_of))]
    fn tie(&mut self, rows: &mut Rows<'_>, k: usize, table: Table<'_>, notes: &Notes)
        requires room { self.old.queued < 0xffffffffffffffff }
        requires within { k < self.old.entries }
        requires noted { Noted rows.old.archives.bytes.now rows.old.cells.now (as_table table) self.old.entries notes.now.0 }
        ensures same { same_rows rows.old rows.new }
        ensures rest { self.new ≡ with_queued self.old self.new.queued }
        ensures queue { queue_of rows.new.cells.now self.new.queued
            ≡ tied_at self.old (as_table table.entry) k rows.old.archives.bytes.now rows.old.cells.now }
    {
        if notes.has(k) && table.is_tied(rows.read().name(k)) {
            let r = rows.read().field(k, archive_index::MEMBER) as usize;
            self.put_in_queue(rows, k, r);
        }
    }

    // The pass over all entries.
    fn tie_all(&mut self, rows: &mut Rows<'_>, table: Table<'_>, notes: &Notes)
        requires room { self.old.queued + self.old.entries < 0xffffffffffffffff }
        requires noted { Noted rows.old.archives.bytes.now rows.old.cells.now (as_table table) self.old.entries notes.now.0 }
        ensures same { same_rows rows.old rows.new }
        ensures rest { self.new ≡ with_queued self.old self.new.queued }
        ensures queue { queue_of rows.new.cells.now self.new.queued
            ≡ tied_all self.old (as_table table.entry) rows.old.archives.bytes.now rows.old.cells.now }
    {
        for k in 0..self.entries {
            self.tie(rows, k, table, notes);
        }
    }

    // The front of the queue; an empty queue ends the walk.
    #[tactic(auto, unfolding(crate::specs::Walk::offer_of))]
    fn hand_out(&mut self, archives: Archives<'_>, entries: Entries<'_, '_>) -> Offer
        requires { self.old.done ≡ false }
        ensures { step_of entries.entry.cells.now self.new (Ok result) ≡ offer_of (archives_in archives.entry) entries.entry.cells.now self.old }
    {
        let passes = self.passes;
        if self.offered < self.queued {
            let entry = entries.field(self.offered, archive_index::QUEUE) as usize;
            self.offered += 1;
            let member = archives.member(entry);
            return Offer::Member {
                archive: member.archive,
                offset: member.offset,
                entry,
                passes,
            };
        }
        self.done = true;
        Offer::Done { passes }
    }

    // The table is judged, then searched for a removed name, before anything is queued: 1; 21. Then the front of what the pass queued.
    fn pass(&mut self, rows: &mut Rows<'_>, table: Table<'_>) -> Result<Offer, Refusal>
        requires entries_bound { self.old.queued + self.old.entries < 0xffffffffffffffff }
        requires passes_bound { self.old.passes < 0xffffffffffffffff }
        requires going { self.old.done ≡ false }
        ensures same { same_rows rows.old rows.new }
        ensures step { step_of rows.new.cells.now self.new result ≡ pass_of (archives_in rows.old.archives) rows.old.cells.now self.old (as_table table.entry) }
    {
        table.judge()?;
        let mut notes = Notes([0; NOTE_BYTES]);
        notes.survey(rows.read(), self.entries, table)?;
        self.passes += 1;
        self.tie_all(rows, table, &notes);
        Ok(self.hand_out(rows.archives, rows.read()))
    }

    // The ends are no more than a start takes, the last lies in the slice and is no lower than the start's; the rows are as many as at the start, and
    // the counts are those of a walk.
    #[tactic(auto, unfolding(crate::specs::Walk::walk_fits))]
    pub fn fits(self, archives: Archives<'_>, entries: Entries<'_, '_>) -> bool
        ensures value { result ≡ walk_fits (archives_in archives.entry) entries.entry.cells.now self }
        ensures bound { IsTrue result → self.entries < 0x2000000000000000 }
    {
        archives.ends.len() <= archive_index::ARCHIVE_BOUND
            && archives.end() <= archives.bytes.len()
            && self.length <= archives.end()
            && self.entries <= entries.rows()
            && self.queued <= self.entries
            && self.offered <= self.queued
            && self.passes <= self.queued
    }

    // The next member: the front of the queue, though its name may be defined since; where none is queued, a pass is made over the table lent to
    // this call. After "done" it stays done. The link is judged at a pass only: nothing else looks at it. 1; then 21 at an entry's position. By a
    // refusal the walk and the rows stay as they were.
    #[tactic(auto, unfolding(crate::specs::Walk::next_of, crate::specs::Walk::go_of))]
    pub fn next(&mut self, rows: &mut Rows<'_>, table: Table<'_>) -> Result<Offer, Refusal>
        ensures same { same_rows rows.old rows.new }
        ensures step { step_of rows.new.cells.now self.new result ≡ next_of (archives_in rows.old.archives) rows.old.cells.now self.old (as_table table.entry) }
    {
        if self.done {
            return Ok(Offer::Done {
                passes: self.passes,
            });
        }
        if !self.fits(rows.archives, rows.read()) {
            return Err(Refusal::new(Cause::OutOfRange, 0));
        }
        if self.offered < self.queued {
            return Ok(self.hand_out(rows.archives, rows.read()));
        }
        self.pass(rows, table)
    }
}
