// The lent places, of which so many are in use.
ghost use Rattle.std.specs.Prelude.{◌≡◌, ◌≤◌, ◌<◌, ◌-◌, ◌+◌, true, take, length, get_or, IfOk, IfErr};
ghost use Rattle.link.specs.Judge.{judged};
ghost use Rattle.name_index.specs.Named.{rows_in};
ghost use Rattle.name_index.specs.Seek.{seek_of};
ghost use Rattle.name_index.specs.Arrivals.{put_together};
ghost use Rattle.name_index.specs.Proof.OneByOne.{Orderly};
ghost use Rattle.name_index.specs.Proof.Moves.{Rising};
ghost use Rattle.name_index.specs.Proof.Same.{Found};
ghost use Rattle.name_index.specs.Index.{same_places, index_of, index_in, index_read, judge_index, used, inserted, row_put, rows_put};

use crate::arrivals::{self, MOST_TOGETHER};
use crate::{Met, NamedRows};
use link::{Cause, Refusal, SymbolId};

// As many as a link has symbols.
const MOST_COUNT: usize = 65_535;

// Fewer rows than these are put in one by one, and fewer than one for so many places in use: to make room for the keys of a batch, and to see that
// the places are in order, then takes longer.
const FEW: usize = 512;

const SHARE: usize = 64;

// A place has room for no greater id; a link has fewer symbols.
const MOST_ID: usize = 0xffff;

// The places, lent to be read.
#[derive(Clone, Copy)]
pub struct Index<'a> {
    pub places: &'a [u16],
    pub count: usize,
}

// The same, lent to be changed.
// Kept: that the loan stays is said by each call (`same_places`), since no field's type says which memory it lends.
#[derive(Drop)]
pub struct IndexMut<'a> {
    pub places: &'a mut [u16],
    pub count: usize,
}

// 1 for a count above what is lent, or above the bound of a link's symbols.
#[tactic(auto, unfolding(link::specs::Judge::judged, link::specs::Bounds::lesser))]
fn judge(places: &[u16], count: usize) -> Result<(), Refusal>
    ensures judged { result ≡ judged (judge_index (index_of places.now count)) }
    ensures within { IfOk result (λ _. count ≤ length places.now) }
{
    let most = places.len().min(MOST_COUNT);
    if most < count {
        return Err(Refusal::new(Cause::OutOfRange, most));
    }
    Ok(())
}

// All that are lent, where the count is above them.
fn in_use(places: &[u16], count: usize) -> &[u16]
    ensures { result.now ≡ take count places.now }
{
    if places.len() < count {
        return places;
    }
    &places[..count]
}

impl Index<'_> {
    // 1 for a count above what is lent.
    pub fn judge(self) -> Result<(), Refusal>
        ensures judged { result ≡ judged (judge_index (index_read self.entry)) }
        ensures within { IfOk result (λ _. self.entry.count ≤ length self.entry.places.now) }
    {
        judge(self.places, self.count)
    }

    // The id at a place, 0 past the end.
    pub fn id_at(self, place: usize) -> SymbolId
        ensures { result.0 ≡ get_or self.entry.places.now place 0 }
    {
        SymbolId(self.places.get(place).copied().unwrap_or(0) as usize)
    }

    // The places in use are halved at their lower middle till the name is met; all that are lent, where the count is above them.
    pub fn seek(self, rows: NamedRows<'_>, name: &[u8]) -> Met
        ensures { result ≡ seek_of (rows_in rows.entry) (used (index_read self.entry)) name.now }
    {
        crate::seek(rows, in_use(self.places, self.count), name)
    }
}

impl IndexMut<'_> {
    // 1 for a count above what is lent.
    pub fn judge(&self) -> Result<(), Refusal>
        ensures { result ≡ judged (judge_index (index_in self.now)) }
    {
        judge(self.places, self.count)
    }

    // Kept: a method of its own, since of a part of a field that is lent in a function the check forgets what it holds.
    fn seek(&self, rows: NamedRows<'_>, name: &[u8]) -> Met
        requires { self.now.count ≤ length self.now.places.now }
        ensures met { result ≡ seek_of (rows_in rows.entry) (used (index_in self.now)) name.now }
        ensures within { IfErr result.place (λ place. place ≤ self.now.count) }
    {
        crate::seek(rows, &self.places[..self.count], name)
    }

    // One more id at the place, and those from there on one place up.
    fn insert(&mut self, place: usize, id: u16)
        requires room { self.old.count < length self.old.places.now }
        requires place { place ≤ self.old.count }
        ensures same { same_places self.old self.new }
        ensures inserted { index_in self.new ≡ inserted (index_in self.old) place id }
    {
        let count = self.count;
        self.places.copy_within(place..count, place + 1);
        self.places[place] = id;
        self.count = count + 1;
    }

    // A global row gets its name's place, unless its name has one already, or no place is left.
    #[tactic(auto, unfolding(crate::specs::Index::row_put))]
    fn put_row(&mut self, rows: NamedRows<'_>, id: usize)
        ensures same { same_places self.old self.new }
        ensures put { index_in self.new ≡ row_put (rows_in rows.entry) (index_in self.old) id }
    {
        let count = self.count;
        if symbol::scope_at(rows.symbols, SymbolId(id)) == symbol::LOCAL
            || self.places.len() <= count
            || MOST_ID < id
        {
            return;
        }
        if let Err(place) = self.seek(rows, rows.name(SymbolId(id))).place {
            self.insert(place, id as u16);
        }
    }

    // The rows from one id up to another, one after the other.
    fn put_each(&mut self, rows: NamedRows<'_>, from: usize, to: usize)
        ensures same { same_places self.old self.new }
        ensures put { index_in self.new ≡ rows_put (rows_in rows.entry) (index_in self.old) from (to - from) }
    {
        for id in from..to {
            self.put_row(rows, id);
        }
    }

    // Whether so many rows come that sorting them pays, also for seeing first that the places in use are in order.
    fn takes_sorted(&self, rows: NamedRows<'_>, from: usize, to: usize) -> bool
        ensures small { result ≡ true → to ≤ 65536 }
        ensures orderly { result ≡ true → Orderly (rows_in rows.entry) (index_in self.now) }
    {
        let new = to.saturating_sub(from);
        if new < FEW
            || new < self.count / SHARE
            || MOST_COUNT < to
            || self.places.len() < self.count
        {
            return false;
        }
        rows.in_order(&self.places[..self.count])
    }

    // The places for ids in order, none if a name has one already or they don't fit.
    fn find_places(&self, rows: NamedRows<'_>, ids: &[u16], found: &mut [u16]) -> bool
        requires orderly { Orderly (rows_in rows) (index_in self.now) }
        requires lent { length ids.now ≤ length found.old }
        ensures lent { length found.new ≡ length found.old }
        ensures found { result ≡ true → Found (rows_in rows.entry) (index_in self.now) ids.now found.new }
    {
        if MOST_COUNT < self.count
            || self.places.len() - self.count < ids.len()
            || !rows.in_order(ids)
        {
            return false;
        }
        arrivals::find_places(rows, &self.places[..self.count], ids, found)
    }

    // Each id at the place found for it: from the last on the ids from there on move up.
    fn put_together(&mut self, ids: &[u16], found: &[u16])
        requires room { self.old.count + length ids.now ≤ length self.old.places.now }
        requires rising { Rising self.old.count ids.now found.now }
        ensures same { same_places self.old self.new }
        ensures put { index_in self.new ≡ put_together (index_in self.old) ids.now found.now }
    {
        let mut high = self.count;
        let mut left = ids.len();
        while 0 < left {
            let place = found[left - 1] as usize;
            self.places.copy_within(place..high, place + left);
            left -= 1;
            self.places[place + left] = ids[left];
            high = place;
        }
        self.count += ids.len();
    }

    // So many rows at most: sorted, and put in from behind.
    fn put_batch(&mut self, rows: NamedRows<'_>, from: usize, to: usize)
        requires forward { from ≤ to }
        requires few { to - from ≤ 4096 }
        requires small { to ≤ 65536 }
        requires orderly { Orderly (rows_in rows) (index_in self.old) }
        ensures same { same_places self.old self.new }
        ensures put { index_in self.new ≡ rows_put (rows_in rows.entry) (index_in self.old) from (to - from) }
    {
        let mut ids = [0; MOST_TOGETHER];
        let count = arrivals::gather(rows, from, to, &mut ids);
        let ids = &mut ids[..count];
        arrivals::sort(rows, ids);
        let mut found = [0; MOST_TOGETHER];
        if self.find_places(rows, ids, &mut found) {
            self.put_together(ids, &found);
        } else {
            self.put_each(rows, from, to);
        }
    }

    // The rows from one id up to another: as if put in one after the other.
    pub fn put_rows(&mut self, rows: NamedRows<'_>, from: usize, to: usize)
        ensures same { same_places self.old self.new }
        ensures put { index_in self.new ≡ rows_put (rows_in rows.entry) (index_in self.old) from (to - from) }
    {
        if !self.takes_sorted(rows, from, to) {
            self.put_each(rows, from, to);
            return;
        }
        let mut next = from;
        while next < to {
            let end = to.min(next + MOST_TOGETHER);
            self.put_batch(rows, next, end);
            next = end;
        }
    }
}
