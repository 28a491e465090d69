// The names required of a member, by bytes.
ghost use Rattle.std.specs.Prelude.{◌≡◌, None};
ghost use Rattle.text.specs.Writing.{Puts};
ghost use Rattle.archive_index.specs.Rows.{stored_name};
ghost use Rattle.replay_archive.specs.Offer.{entry_name, tied_to, nearer_of, nearest_of, next_required, required_count, names_from, required_text, member_text};
ghost use Rattle.replay_archive.specs.OfferWays.{spaced_name};

use archive_index::{MEMBER, REQUIRED};
use text::Writer;

// The bytes of an index, the rows of its entries, and how many they are.
// Kept: not archive_index::Entries: the count is the walk's, where that one has as many rows as are lent.
#[derive(Clone, Copy)]
pub struct Entries<'a> {
    pub index: &'a [u8],
    pub rows: &'a [u64],
    pub count: usize,
}

impl<'a> Entries<'a> {
    fn name_at(self, entry: usize) -> &'a [u8]
        ensures { result.now ≡ stored_name self.entry.index.now self.entry.rows.now entry }
    {
        archive_index::name(self.index, self.rows, entry)
    }

    // The empty one where there is no entry.
    #[tactic(auto, unfolding(crate::specs::Offer::entry_name))]
    fn name_of(self, entry: Option<usize>) -> &'a [u8]
        ensures { result.now ≡ entry_name self.entry.index.now self.entry.rows.now entry }
    {
        match entry {
            None => &[],
            Some(entry) => self.name_at(entry),
        }
    }

    // Is entry k's name required of the member whose first entry is r?
    #[tactic(auto, unfolding(crate::specs::Offer::tied_to))]
    fn is_tied(self, r: u64, k: usize) -> bool
        ensures { result ≡ tied_to self.entry.rows.now r k }
    {
        cells::row_get(self.rows, k, REQUIRED) == 1 && cells::row_get(self.rows, k, MEMBER) == r
    }

    // Does entry k's name stand behind the last one, and before the best so far?
    // Kept: matches, since the proof does not close over `is_none_or` (tried).
    #[tactic(auto, unfolding(crate::specs::Offer::nearer_of, crate::specs::Offer::before_best))]
    fn is_nearer(self, last: Option<usize>, best: Option<usize>, k: usize) -> bool
        ensures { result ≡ nearer_of self.entry.index.now self.entry.rows.now last best k }
    {
        let name = self.name_at(k);
        let behind = match last {
            None => true,
            Some(last) => replay_words::before(self.name_at(last), name),
        };
        behind
            && match best {
                None => true,
                Some(best) => replay_words::before(name, self.name_at(best)),
            }
    }

    #[tactic(auto, unfolding(crate::specs::Offer::nearest_of))]
    fn nearest(self, r: u64, last: Option<usize>, best: Option<usize>, k: usize) -> Option<usize>
        ensures { result ≡ nearest_of self.entry.index.now self.entry.rows.now r last best k }
    {
        if self.is_tied(r, k) && self.is_nearer(last, best, k) {
            return Some(k);
        }
        best
    }

    // The required name that comes behind the last one, by bytes.
    // Kept: the least is looked for anew each time, since the crate has no heap to sort names in.
    fn next_required(self, r: u64, last: Option<usize>) -> Option<usize>
        ensures { result ≡ next_required self.entry.index.now self.entry.rows.now self.entry.count r last }
    {
        let mut best = None;
        for k in 0..self.count {
            best = self.nearest(r, last, best, k);
        }
        best
    }

    // How many names are required of a member.
    fn required(self, r: u64) -> usize
        ensures { result ≡ required_count self.entry.index.now self.entry.rows.now self.entry.count r }
    {
        let mut n = 0;
        let mut last = self.next_required(r, None);
        for _ in 0..self.count {
            let Some(entry) = last else {
                return n;
            };
            n = symbol::next(n);
            last = self.next_required(r, Some(entry));
        }
        n
    }

    fn put_name(self, out: &mut Writer<'_>, entry: Option<usize>)
        ensures { Puts out.old out.new (spaced_name (entry_name self.entry.index.now self.entry.rows.now entry)) }
    {
        out.put(b" ");
        replay_text::put_shown(out, self.name_of(entry));
    }

    // The first so many of the required names.
    fn put_names(self, out: &mut Writer<'_>, r: u64, count: usize)
        ensures { Puts out.old out.new (names_from self.entry.index.now self.entry.rows.now self.entry.count r count None) }
    {
        let mut last = None;
        for _ in 0..count {
            last = self.next_required(r, last);
            self.put_name(out, last);
        }
    }

    // How many names are required of a member, and they.
    fn put_required(self, out: &mut Writer<'_>, r: u64)
        ensures { Puts out.old out.new (required_text self.entry.index.now self.entry.rows.now self.entry.count r) }
    {
        let count = self.required(r);
        replay_text::put_numbered(out, b" ", count as u64);
        self.put_names(out, r, count);
    }

    pub(crate) fn put_member(self, out: &mut Writer<'_>, offset: u64, entry: usize, passes: usize)
        ensures { Puts out.old out.new (member_text self.entry.index.now self.entry.rows.now self.entry.count offset entry passes) }
    {
        replay_text::put_numbered(out, b"member ", offset);
        replay_text::put_numbered(out, b" ", passes as u64);
        self.put_required(out, cells::row_get(self.rows, entry, MEMBER));
    }
}
