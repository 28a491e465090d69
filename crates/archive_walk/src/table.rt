// What a pass asks of the table lent to it: names of the index are looked up, never interned.
ghost use Rattle.std.specs.Prelude.{◌≡◌};
ghost use Rattle.link.specs.Judge.{judged};
ghost use Rattle.archive_walk.specs.Look.{judge_table, name_holder, ties_row, ties, tied_name};
ghost use Rattle.archive_walk.specs.Lent.{as_table};

use interner::Names;
use link::{Lent, Link, Refusal, SymbolId};
use symbol_resolution::Holder;

// The link, and what of it a call for the next member is lent.
#[derive(Clone, Copy)]
pub struct Table<'a> {
    pub link: Link,
    pub bytes: &'a [u8],
    pub names: &'a [u64],
    pub symbols: &'a [u64],
}

// A row that is undefined, weak or not; in the gABI's profile strong too.
#[tactic(auto, unfolding(crate::specs::Look::ties_row))]
fn row_ties(gabi: bool, symbols: &[u64], id: SymbolId) -> bool
    ensures { result ≡ ties_row gabi symbols.now id }
{
    if gabi {
        return symbol_resolution::is_strong_undefined(symbols, id);
    }
    cells::row_get(symbols, id.0, symbol::CELL_KIND) == symbol::KIND_UNDEFINED
}

impl Table<'_> {
    // 1 for a count above what is lent.
    #[tactic(auto, unfolding(crate::specs::Look::judge_table))]
    pub fn judge(self) -> Result<(), Refusal>
        ensures { result ≡ judged (judge_table (as_table self.entry)) }
    {
        self.link.judge(Lent {
            names: self.names.len() / link::NAME_CELLS,
            bytes: self.bytes.len(),
            symbols: self.symbols.len(),
            sections: self.link.slots,
            inputs: link::NOT_LENT,
            lists: link::NOT_LENT,
        })
    }

    // Who holds a name of the index.
    #[tactic(auto, unfolding(crate::specs::Look::name_holder))]
    pub fn holder(self, name: &[u8]) -> Holder
        ensures { result ≡ name_holder (as_table self.entry) name.now }
    {
        let names = Names {
            link: self.link,
            bytes: self.bytes,
            cells: self.names,
        };
        let id = names.find(name);
        symbol_resolution::holder_of(self.link, self.names, self.symbols, id)
    }

    // Kept: a match, since a Holder is no Option; `matches!` with the test as its guard says no more.
    pub fn ties(self, holder: Holder) -> bool
        ensures { result ≡ ties self.entry.link.gabi self.entry.symbols.now holder }
    {
        match holder {
            Holder::Known { id } => row_ties(self.link.gabi, self.symbols, id),
            _ => false,
        }
    }

    // Does the name tie its member?
    #[tactic(auto, unfolding(crate::specs::Look::tied_name))]
    pub fn is_tied(self, name: &[u8]) -> bool
        ensures { result ≡ tied_name (as_table self.entry) name.now }
    {
        self.ties(self.holder(name))
    }
}
