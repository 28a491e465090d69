// The rows of one call, before they are put into the index together.
ghost use Rattle.std.specs.Prelude.{◌≡◌, ◌≤◌, ◌<◌, ◌-◌, ℕ, true, Some, get_or, length, take, map, IsPermutation};
ghost use Rattle.std.specs.Int.{w64, from_be_bytes};
ghost use Rattle.std.specs.Ordering.{nat_cmp};
ghost use Rattle.std.specs.Cmp.Lexicographic.{slice_cmp};
ghost use Rattle.name_index.specs.declared.arrivals.Keyed.{Keyed};
ghost use Rattle.name_index.specs.Named.{rows_in, name_of_row};
ghost use Rattle.name_index.specs.Keys.{eight, by_keys, AllBegin};
ghost use Rattle.name_index.specs.InOrder.{InOrder};
ghost use Rattle.name_index.specs.Arrivals.{global_rows};
ghost use Rattle.name_index.specs.Proof.Together.{Goes, EachGoes};
ghost use Rattle.name_index.specs.Proof.Finding.{Between};

use crate::NamedRows;
use link::SymbolId;
use std::cmp::Ordering;

// Rows that are sorted at once: their keys, ids and places take 80 KB of the stack.
pub(crate) const MOST_TOGETHER: usize = 4_096;

impl<'a> NamedRows<'a> {
    // The name of an id as places hold it.
    fn name_at(self, id: u16) -> &'a [u8]
        ensures { result.now ≡ name_of_row (rows_in self.entry) id }
    {
        self.name(SymbolId(id as usize))
    }

    // Whether the ids' names stand in byte order, each once.
    pub(crate) fn in_order(self, ids: &[u16]) -> bool
        ensures { result ≡ true → InOrder (rows_in self.entry) ids.now }
    {
        let mut next = 1;
        while next < ids.len() {
            match self.name_at(ids[next - 1]).cmp(&self.name_at(ids[next])) {
                Ordering::Less => next += 1,
                _ => return false,
            }
        }
        true
    }
}

// The ids of the rows that aren't local, and how many.
pub(crate) fn gather(rows: NamedRows<'_>, from: usize, to: usize, ids: &mut [u16]) -> usize
    requires lent { to - from ≤ length ids.old }
    requires small { to ≤ 65536 }
    ensures lent { length ids.new ≡ length ids.old }
    ensures within { result ≤ length ids.new }
    ensures gathered { take result ids.new ≡ global_rows (rows_in rows.entry) from (to - from) }
{
    let mut count = 0;
    for id in from..to {
        if symbol::scope_at(rows.symbols, SymbolId(id)) != symbol::LOCAL {
            ids[count] = id as u16;
            count += 1;
        }
    }
    count
}

// An id, and the eight bytes of its name that follow what all names begin with.
#[derive(Clone, Copy)]
struct Keyed {
    key: u64,
    id: u16,
}

// As many bytes as both begin with.
fn shared_start(a: &[u8], b: &[u8]) -> usize
    ensures within { result ≤ length a.now }
    ensures shared { take result a.now ≡ take result b.now }
{
    let most = a.len().min(b.len());
    let mut len = 0;
    while len < most && a[len] == b[len] {
        len += 1;
    }
    len
}

// As many bytes as all the ids' names begin with.
fn shared_by_all(rows: NamedRows<'_>, ids: &[u16]) -> usize
    ensures { AllBegin (rows_in rows.entry) ids.now result }
{
    let first = rows.name_at(ids.first().copied().unwrap_or(0));
    let mut shared = first.len();
    for k in 0..ids.len() {
        shared = shared_start(&first[..shared], rows.name_at(ids[k]));
    }
    shared
}

// Eight bytes, the first the greatest; a byte that isn't there is 0.
fn key(rest: &[u8]) -> u64
    ensures { result ≡ from_be_bytes w64 (eight rest.now) }
{
    u64::from_be_bytes([
        byte_slices::byte_at(rest, 0),
        byte_slices::byte_at(rest, 1),
        byte_slices::byte_at(rest, 2),
        byte_slices::byte_at(rest, 3),
        byte_slices::byte_at(rest, 4),
        byte_slices::byte_at(rest, 5),
        byte_slices::byte_at(rest, 6),
        byte_slices::byte_at(rest, 7),
    ])
}

fn compare(rows: NamedRows<'_>, a: Keyed, b: Keyed) -> Ordering
    ensures { result ≡ by_keys (rows_in rows.entry) a b }
{
    match a.key.cmp(&b.key) {
        Ordering::Less => Ordering::Less,
        Ordering::Equal => rows.name_at(a.id).cmp(&rows.name_at(b.id)),
        Ordering::Greater => Ordering::Greater,
    }
}

fn add_keys(rows: NamedRows<'_>, ids: &[u16], keyed: &mut [Keyed])
    requires { length ids.now ≤ length keyed.old }
    ensures same_length { length keyed.new ≡ length keyed.old }
    ensures ids { take (length ids.now) (map (λ (k : Keyed). k.id) keyed.new) ≡ ids.now }
{
    let start = shared_by_all(rows, ids);
    for k in 0..ids.len() {
        let name = rows.name_at(ids[k]);
        keyed[k] = Keyed {
            key: key(&name[start.min(name.len())..]),
            id: ids[k],
        };
    }
}

fn take_ids(keyed: &[Keyed], ids: &mut [u16])
    requires { length ids.old ≡ length keyed.now }
    ensures { ids.new ≡ map (λ (k : Keyed). k.id) keyed.now }
{
    for k in 0..ids.len() {
        ids[k] = keyed[k].id;
    }
}

// By their names. Only speed hangs on the keys, and that the ids are in order then is looked at where it is needed.
pub(crate) fn sort(rows: NamedRows<'_>, ids: &mut [u16])
    requires { length ids.old ≤ 4096 }
    ensures { IsPermutation ids.old ids.new }
{
    let mut keyed = [Keyed { key: 0, id: 0 }; MOST_TOGETHER];
    add_keys(rows, ids, &mut keyed);
    let keyed = &mut keyed[..ids.len()];
    keyed.sort_unstable_by(|a, b| compare(rows, *a, *b));
    take_ids(keyed, ids);
}

// The places from one up to another are halved: those before are less, those behind greater. None where the name stands at one.
fn seek_from(
    rows: NamedRows<'_>,
    places: &[u16],
    low: usize,
    high: usize,
    name: &[u8],
) -> Option<usize>
    requires sorted { InOrder (rows_in rows) places.now }
    requires part { Between (rows_in rows) places.now name.now low high }
    ensures { (place : ℕ) → result ≡ Some place → Goes (rows_in rows.entry) places.now name.now place }
{
    match crate::seek(rows, &places[low..high], name).place {
        Ok(_) => None,
        Err(place) => Some(low + place),
    }
}

// The place of a name that isn't far from the end, none where it stands at one: steps back, each twice the last, to a name that is less, and then halving.
fn seek_back(rows: NamedRows<'_>, places: &[u16], name: &[u8]) -> Option<usize>
    requires sorted { InOrder (rows_in rows) places.now }
    ensures { (place : ℕ) → result ≡ Some place → Goes (rows_in rows.entry) places.now name.now place }
{
    let mut high = places.len();
    let mut step = 1;
    while step <= high {
        match rows.name_at(places[high - step]).cmp(&name) {
            Ordering::Greater => {
                high -= step;
                step *= 2;
            }
            Ordering::Equal => return None,
            Ordering::Less => return seek_from(rows, places, high - step + 1, high, name),
        }
    }
    seek_from(rows, places, 0, high, name)
}

// For each id the place of its name, from the last on; none if a name stands at one.
pub(crate) fn find_places(
    rows: NamedRows<'_>,
    places: &[u16],
    ids: &[u16],
    found: &mut [u16],
) -> bool
    requires sorted { InOrder (rows_in rows) places.now }
    requires ranks { InOrder (rows_in rows) ids.now }
    requires few { length places.now ≤ 65535 }
    requires lent { length ids.now ≤ length found.old }
    ensures lent { length found.new ≡ length found.old }
    ensures goes { result ≡ true → EachGoes (rows_in rows.entry) places.now ids.now found.new }
{
    let mut high = places.len();
    let mut left = ids.len();
    while 0 < left {
        left -= 1;
        match seek_back(rows, &places[..high], rows.name_at(ids[left])) {
            None => return false,
            Some(place) => {
                found[left] = place as u16;
                high = place;
            }
        }
    }
    true
}
