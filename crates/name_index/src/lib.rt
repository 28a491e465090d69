// The global names of a link in byte order, kept in lent places beside its rows: a place holds the id of a name's symbol. Names are found by
// halving.
#![tactic(auto)]

ghost use Rattle.std.specs.Prelude.{◌≡◌, ◌≤◌, ◌<◌, ◌-◌, length, take, IfErr};
ghost use Rattle.std.specs.Ordering.{nat_cmp};
ghost use Rattle.std.specs.Cmp.Lexicographic.{slice_cmp};
ghost use Rattle.name_index.specs.Named.{rows_in, name_of_row};
ghost use Rattle.name_index.specs.Seek.{seek_of};

mod arrivals;
mod index;

pub use index::{Index, IndexMut};
use link::{Interned, SymbolId};
use std::cmp::Ordering;

// What tells the name of a symbol: the names' bytes, their rows, and the symbols' rows.
#[derive(Clone, Copy)]
pub struct NamedRows<'a> {
    pub bytes: &'a [u8],
    pub names: &'a [u64],
    pub symbols: &'a [u64],
}

// The place where a name is met, else the one where it would stand; and how many places were read.
#[derive(Clone, Copy)]
pub struct Met {
    pub place: Result<usize, usize>,
    pub reads: usize,
}

impl<'a> NamedRows<'a> {
    // The name of the symbol in a row, whatever the cells hold.
    pub fn name(self, id: SymbolId) -> &'a [u8]
        ensures { result.now ≡ name_of_row (rows_in self.entry) id.0 }
    {
        let name = cells::row_get(self.symbols, id.0, symbol::CELL_NAME) as usize;
        interner::name_of(self.bytes, self.names, Interned(name))
    }
}

// The places are halved at their lower middle till the name is met.
pub fn seek(rows: NamedRows<'_>, places: &[u16], name: &[u8]) -> Met
    ensures met { result ≡ seek_of (rows_in rows.entry) places.now name.now }
    ensures within { IfErr result.place (λ place. place ≤ length places.now) }
{
    let mut low = 0;
    let mut high = places.len();
    let mut reads = 0;
    while low < high {
        let middle = low + (high - low - 1) / 2;
        reads += 1;
        match rows.name(SymbolId(places[middle] as usize)).cmp(&name) {
            Ordering::Less => low = middle + 1,
            Ordering::Equal => {
                return Met {
                    place: Ok(middle),
                    reads,
                };
            }
            Ordering::Greater => high = middle,
        }
    }
    Met {
        place: Err(low),
        reads,
    }
}
