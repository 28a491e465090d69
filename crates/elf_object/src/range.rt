// Whether the rows of an object are in range: refusal 1.
ghost use Rattle.std.specs.Prelude.{◌≡◌, length};
ghost use Rattle.link.specs.Judge.{judged};
ghost use Rattle.elf_object.specs.Kind.{number_of};
ghost use Rattle.elf_object.specs.Rows.{rows_in};
ghost use Rattle.elf_object.specs.Judge.{range_ok, contents_ok, header_ok, entry_ok, found_below, bad_header, bad_entry, judge_of};

use crate::{Kind, Object};
use link::{Cause, Refusal};

// "sections of an object to 65,280", "symbol rows [..] to 65,535".
const SECTION_BOUND: usize = 65280;

const SYMBOL_BOUND: usize = 65535;

// How many entries, contents and bytes of the file there are, for the headers to point into.
#[derive(Clone, Copy)]
struct Lists {
    entries: usize,
    contents: usize,
    image: usize,
}

#[tactic(auto, unfolding(crate::specs::Judge::range_ok))]
fn range_ok(first: u64, count: u64, all: usize) -> bool
    ensures { result ≡ range_ok first count all }
{
    first <= all as u64 && count <= all as u64 - first
}

impl Lists {
    // The contents of a section of that kind lie in the list that it points into.
    #[tactic(auto, unfolding(crate::specs::Judge::contents_ok))]
    fn hold(self, kind: Kind, first: u64, count: u64) -> bool
        ensures { result ≡ contents_ok (number_of kind) first count self.entries self.contents self.image }
    {
        match kind {
            Kind::SymbolTable | Kind::DynamicSymbols => range_ok(first, count, self.entries),
            Kind::StringTable => range_ok(first, count, self.image),
            Kind::Rel | Kind::Rela | Kind::Group => range_ok(first, count, self.contents),
            _ => true,
        }
    }

    #[tactic(auto, unfolding(crate::specs::Judge::header_ok))]
    fn header_ok(self, headers: &[u64], n: usize) -> bool
        ensures { result ≡ header_ok headers.now self.entries self.contents self.image n }
    {
        let flags = cells::row_get(headers, n, crate::HEADER_FLAGS);
        let first = cells::row_get(headers, n, crate::HEADER_FIRST);
        let count = cells::row_get(headers, n, crate::HEADER_COUNT);
        match Kind::try_from(cells::row_get(headers, n, crate::HEADER_KIND)) {
            Ok(kind) => {
                n < SECTION_BOUND && flags < crate::FLAG_BOUND && self.hold(kind, first, count)
            }
            Err(_) => false,
        }
    }

    // The first header out of range.
    fn bad_header(self, headers: &[u64]) -> Option<usize>
        ensures { let rows = rows_in headers.now in result ≡ found_below rows (bad_header headers.now self.entries self.contents self.image) }
    {
        for n in 0..headers.len() / crate::ROW_WIDTH {
            if !self.header_ok(headers, n) {
                return Some(n);
            }
        }
        None
    }
}

#[tactic(auto, unfolding(crate::specs::Judge::entry_ok))]
fn entry_ok(entries: &[u64], i: usize) -> bool
    ensures { result ≡ entry_ok entries.now i }
{
    i < SYMBOL_BOUND && crate::elf_at(entries, i).in_range()
}

// The first symbol row out of range.
pub fn first_bad_entry(entries: &[u64]) -> Option<usize>
    ensures { result ≡ found_below (rows_in entries.now) (bad_entry entries.now) }
{
    for i in 0..entries.len() / crate::ROW_WIDTH {
        if !entry_ok(entries, i) {
            return Some(i);
        }
    }
    None
}

// Sections, then symbols: 1 at the first row that is out of range.
// Kept: counts and no slices: the call is public, and a caller may ask of more than a slice can have.
#[tactic(auto, unfolding(crate::specs::Judge::judge_of, link::specs::Judge::judged))]
pub fn judge(headers: &[u64], entries: &[u64], contents: usize, image: usize) -> Result<(), Refusal>
    ensures { result ≡ judged (judge_of headers.now entries.now contents image) }
{
    let lists = Lists {
        entries: entries.len() / crate::ROW_WIDTH,
        contents,
        image,
    };
    match lists
        .bad_header(headers)
        .or_else(|| first_bad_entry(entries))
    {
        Some(n) => Err(Refusal::new(Cause::OutOfRange, n)),
        None => Ok(()),
    }
}

impl Object<'_> {
    // Whether all its rows are in range: else 1.
    pub fn judge(self) -> Result<(), Refusal>
        ensures { let o = self.entry in result ≡ judged (judge_of o.headers.now o.entries.now (length o.contents.now) (length o.image.now)) }
    {
        judge(
            self.headers,
            self.entries,
            self.contents.len(),
            self.image.len(),
        )
    }
}
