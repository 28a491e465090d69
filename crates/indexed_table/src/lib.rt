// A symbol table with an index of its global names beside the rows: the calls of the table, which also keep the index, and the lookup by name that
// halves it.
#![tactic(auto)]

ghost use Rattle.std.specs.Prelude.{◌≡◌, ◌≤◌, length, take, drop};
ghost use Rattle.link.specs.Judge.{judged};
ghost use Rattle.symbol_resolution.specs.Lent.{same_loans, table_in};
ghost use Rattle.symbols.specs.Calls.{made_of};
ghost use Rattle.symbols.specs.New.{new_outcome, new_of};
ghost use Rattle.name_index.specs.Named.{rows_in, rows_of};
ghost use Rattle.name_index.specs.Index.{same_places, index_in};
ghost use Rattle.indexed_table.specs.Indexed.{bounded, change_index, caught_up, indexed_in, AddMeets, list_in, ListMeets};

mod lookup;

use add_list::Listed;
use link::{Link, Refusal, SymbolId};
pub use lookup::{LookedUp, get_global};
use name_index::{IndexMut, NamedRows};
use symbol_resolution::Table;
use symbols::Symbols;
use upcoming_symbol::UpcomingSymbol;

// Symbols' cells of a row.
const ROW_CELLS: usize = 8;

// Of so many symbols' cells those that a link with an index of so many places may use: a place for each row.
#[tactic(auto, unfolding(link::specs::Bounds::lesser))]
pub fn bounded(len: usize, places: usize) -> usize
    ensures cells { result ≡ bounded len places }
    ensures lent { result ≤ len }
{
    if len / ROW_CELLS <= places {
        return len;
    }
    places * ROW_CELLS
}

// A new table over the rows that the index has places for; a new index has a count of 0.
// Kept: slices one by one, as `Symbols::new`.
pub fn new(
    key: usize,
    gabi: bool,
    bytes: &mut [u8],
    names: &mut [u64],
    symbols: &mut [u64],
    sections: &mut [u64],
    places: usize,
) -> Result<Symbols, Refusal>
    ensures made { new_outcome bytes.new names.new (take (bounded (length symbols.old) places) symbols.new) sections.new (made_of result)
        ≡ new_of key gabi bytes.old names.old (take (bounded (length symbols.old) places) symbols.old) sections.old }
    ensures rest { drop (bounded (length symbols.old) places) symbols.new ≡ drop (bounded (length symbols.old) places) symbols.old }
{
    let end = bounded(symbols.len(), places);
    Symbols::new(key, gabi, bytes, names, &mut symbols[..end], sections)
}

// Of a broken link nothing is said here: 22 comes first.
#[tactic(auto, unfolding(link::specs::Judge::judged, crate::specs::Indexed::change_index))]
pub fn judge_change(l: Link, index: &IndexMut<'_>) -> Result<(), Refusal>
    ensures { result ≡ judged (change_index l (index_in index.now)) }
{
    if l.broken {
        return Ok(());
    }
    index.judge()
}

// The rows that a call appended, from that id on, get their names' places.
fn catch_up(table: &Table<'_>, bytes: &[u8], index: &mut IndexMut<'_>, from: usize)
    ensures same { same_places index.old index.new }
    ensures put { index_in index.new ≡ caught_up (rows_of bytes.now table.now.names.now table.now.symbols.now) (index_in index.old)
        from table.now.link.symbols }
{
    let rows = NamedRows {
        bytes,
        names: &*table.names,
        symbols: &*table.symbols,
    };
    index.put_rows(rows, from, table.link.symbols);
}

// The add to the table, and the index.
#[tactic(auto, unfolding(link::specs::Judge::judged, crate::specs::Indexed::indexed_add_of))]
pub fn add(
    table: &mut Table<'_>,
    bytes: &[u8],
    index: &mut IndexMut<'_>,
    conversion: &[u64],
    upcoming: UpcomingSymbol,
) -> Result<SymbolId, Refusal>
    ensures same { same_loans table.old table.new }
    ensures places { same_places index.old index.new }
    ensures added { AddMeets (table_in table.old) bytes.now (index_in index.old) conversion.now upcoming (indexed_in table.new index.new result) }
{
    judge_change(table.link, index)?;
    let from = table.link.symbols;
    let answer = symbols::add(table, conversion, upcoming);
    catch_up(table, bytes, index, from);
    answer
}

// The list of adds to the table, and the index.
#[tactic(auto, unfolding(link::specs::Judge::judged, crate::specs::Indexed::indexed_list_of))]
pub fn add_all(
    table: &mut Table<'_>,
    bytes: &[u8],
    index: &mut IndexMut<'_>,
    conversion: &[u64],
    adds: &[u64],
    ids: &mut [u64],
) -> Listed
    ensures same { same_loans table.old table.new }
    ensures places { same_places index.old index.new }
    ensures added { ListMeets (table_in table.old) bytes.now (index_in index.old) conversion.now adds.now ids.old (list_in table.new index.new ids result) }
{
    if let Err(refusal) = judge_change(table.link, index) {
        return Listed {
            answer: Err(refusal),
            position: 0,
        };
    }
    let from = table.link.symbols;
    let listed = add_list::add_list(table, conversion, adds, ids);
    catch_up(table, bytes, index, from);
    listed
}
