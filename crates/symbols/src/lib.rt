// The symbol table of a link, and a new one. The rows are lent; the counts come and go by value.
#![tactic(auto)]

ghost use Rattle.std.specs.Prelude.{◌≡◌, ◌≢◌, List, Ok, ℕ};
ghost use Rattle.interner.specs.Names.{store_of};
ghost use Rattle.symbols.specs.Calls.{made_of, lent_of};
ghost use Rattle.symbols.specs.New.{new_outcome, null_of, null_row, one_symbol, clear_symbols};
ghost use Rattle.symbols.specs.Contract.{NewMeets, new_exit};

mod adds;
mod lookups;
mod removal;

pub use adds::add;
use link::{Cause, Lent, Link, Refusal, SymbolId};
pub use lookups::{get, get_global, section_symbol_id};
pub use removal::{remove, remove_row};
use symbol::Row;
use upcoming_symbol::UpcomingSymbol;

#[derive(Clone, Copy)]
pub struct Symbols {
    pub link: Link,
}

// The rows of names and sections, the length of the symbols.
pub fn lent_rows(names: usize, symbols: usize, sections: usize) -> Lent
    ensures { result ≡ lent_of names symbols sections }
{
    Lent {
        names,
        bytes: link::NOT_LENT,
        symbols,
        sections,
        inputs: link::NOT_LENT,
        lists: link::NOT_LENT,
    }
}

// ---- new

fn null_row() -> Row
    ensures { result ≡ null_row }
{
    UpcomingSymbol::Null.row(false, &[], true)
}

// No section has a symbol.
// Kept: as interner's, of another table; the sentence that is true of its cells is another.
#[tactic(auto, unfolding(crate::specs::New::clear_symbols))]
fn clear_section_symbols(sections: &mut [u64])
    ensures { sections.new ≡ clear_symbols sections.old }
{
    let rows = link::section_slots(sections.len());
    cells::clear_from(sections, rows * cells::ROW_CELLS);
}

// One symbol, and cells for that many sections' symbols.
// Kept: one field set after the other, since a literal of all of a link's fields, for which struct update stands, takes more (docs/DECISIONS.md
// y: adds_bench 599 million instructions by stores, 649 by literals).
fn one_symbol(gabi: bool, l: Link, slots: usize) -> Link
    ensures { result ≡ one_symbol gabi l slots }
{
    let mut m = l;
    m.symbols = 1;
    m.slots = slots;
    m.gabi = gabi;
    m
}

// The null symbol over the names' counts l, where the empty name was issued; whatever the names' bytes and rows are.
#[tactic(auto, unfolding(crate::specs::New::null_of))]
fn null_table(gabi: bool, l: Link, symbols: &mut [u64], sections: &mut [u64]) -> Symbols
    requires { l.names ≢ 0 }
    ensures { (bytes names : List ℕ) → new_outcome bytes names symbols.new sections.new (made_of (Ok result)) ≡ null_of gabi symbols.old sections.old (store_of bytes names l) }
{
    let slots = link::section_slots(sections.len());
    clear_section_symbols(sections);
    null_row().store(symbols, Symbols::NULL_SYMBOL_ID);
    Symbols {
        link: one_symbol(gabi, l, slots),
    }
}

// ---- the table's type: its null id, and a new table

impl Symbols {
    pub const NULL_SYMBOL_ID: SymbolId = SymbolId(0);

    // A table with the null symbol alone, and the empty name, in the old or the gABI profile. What the lent cells held before doesn't matter. Any number is a key of the names' hash.
    // Kept: slices one by one, as C lends them.
    #[tactic(auto, unfolding(crate::specs::New::new_of))]
    pub fn new(
        key: usize,
        gabi: bool,
        bytes: &mut [u8],
        names: &mut [u64],
        symbols: &mut [u64],
        sections: &mut [u64],
    ) -> Result<Symbols, Refusal>
        ensures { NewMeets key gabi bytes.old names.old symbols.old sections.old (new_exit bytes names symbols sections result) }
    {
        if link::symbol_rows(symbols.len()) == 0 {
            return Err(Refusal::new(Cause::NoRoom, 0));
        }
        let named = interner::reset(key, bytes, names)?;
        Ok(null_table(gabi, named, symbols, sections))
    }
}
