// The direct add to a symbol table: the first checks, the row, what is decided and what is written.
ghost use Rattle.std.specs.Prelude.{◌≡◌, ◌≢◌, IfErr};
ghost use Rattle.link.specs.Judge.{judged};
ghost use Rattle.upcoming_symbol.specs.Upcoming.{name_of, row_of};
ghost use Rattle.symbol_resolution.specs.Decide.{decision_of};
ghost use Rattle.symbol_resolution.specs.Lent.{same_loans, table_in};
ghost use Rattle.symbols.specs.Calls.{left, said};
ghost use Rattle.symbols.specs.Add.{judge_add_of, file_of, is_issued, place_in, issued_of, place_of, refused_place, direct_holder_of, decided_of, committed_of, empty_at, add_row_of, lent};
ghost use Rattle.symbols.specs.Contract.{add_exit, AddMeets};

use link::{Cause, Interned, Link, Refusal, SymbolId};
use symbol::Row;
use symbol_resolution::{Holder, Resolution, Table};
use upcoming_symbol::UpcomingSymbol;

// 22, then 1 of the link's counts, then 1 of the symbol's own fields; all at place 0.
#[inline(always)]
#[tactic(auto, unfolding(crate::specs::Add::judge_add_of, link::specs::Judge::judged))]
fn judge_add(table: &Table<'_>, upcoming: UpcomingSymbol) -> Result<(), Refusal>
    ensures { let t = table_in table.now in result ≡ judged (judge_add_of t.link (lent t) upcoming) }
{
    let lent = crate::lent_rows(
        table.names.len() / link::NAME_CELLS,
        table.symbols.len(),
        table.sections.len() / link::SECTION_CELLS,
    );
    if let Err(refusal) = table.link.judge_change(lent) {
        return Err(Refusal {
            place: 0,
            ..refusal
        });
    }
    if !upcoming.in_range() {
        return Err(Refusal::new(Cause::OutOfRange, 0));
    }
    Ok(())
}

// The first id that isn't issued, of the name's and the file's name's.
#[tactic(auto, unfolding(crate::specs::Add::issued_of, crate::specs::Add::place_of))]
fn unissued(l: Link, name: Interned, file: Option<Interned>) -> Option<Interned>
    ensures issued { is_issued result ≡ issued_of l name file }
    ensures place { place_in result name ≡ place_of l name file }
{
    if l.names <= name.0 {
        return Some(name);
    }
    match file {
        Some(id) if l.names <= id.0 => Some(id),
        _ => None,
    }
}

fn file_of(u: UpcomingSymbol) -> Option<Interned>
    ensures { result ≡ file_of u }
{
    match u {
        UpcomingSymbol::Elf { file, .. } => file,
        _ => None,
    }
}

// The row that the symbol would become: a name is empty where its length is 0.
#[inline(always)]
fn upcoming_row(table: &Table<'_>, conversion: &[u64], upcoming: UpcomingSymbol) -> Row
    ensures { let t = table_in table.now in result ≡ row_of t.link.gabi conversion.now upcoming (empty_at t.names (name_of upcoming)) }
{
    let empty = cells::row_get(table.names, upcoming.name().0, symbol::NAME_LENGTH) == 0;
    upcoming.row(table.link.gabi, conversion, empty)
}

// Kept: the slices that it reads, one by one, as `holder_of` of symbol_resolution takes them.
#[tactic(auto, unfolding(crate::specs::Add::direct_holder_of))]
fn direct_holder(
    l: Link,
    names: &[u64],
    symbols: &[u64],
    name: Interned,
    file: Option<Interned>,
) -> Holder
    ensures { result ≡ direct_holder_of l names.now symbols.now name file }
{
    match unissued(l, name, file) {
        None => symbol_resolution::holder_of(l, names, symbols, name),
        Some(_) => Holder::Unissued,
    }
}

// The row that is to be added, under its name's holder: what is decided.
// Kept: a number, as symbol_resolution::resolve tells it.
#[inline(always)]
#[tactic(auto, unfolding(crate::specs::Add::decided_of))]
fn decide(table: &Table<'_>, row: Row, file: Option<Interned>) -> Result<Resolution, u64>
    ensures decision { decision_of result ≡ decided_of (table_in table.now) row file }
    ensures number { IfErr result (λ n. n ≢ 0) }
{
    let symbols = &*table.symbols;
    let holder = direct_holder(table.link, table.names, symbols, row.name, file);
    symbol_resolution::resolve(table.link, symbols, table.sections, row, holder)
}

// Of a refusal the place is 0, but for 21 the id of a name.
fn place_of(l: Link, row: Row, file: Option<Interned>, number: u64) -> usize
    ensures { result ≡ refused_place l row file number }
{
    if number == u64::from(Cause::AbsentId) {
        unissued(l, row.name, file).unwrap_or(row.name).0
    } else {
        0
    }
}

// Writes what was decided.
// Kept: a number, as symbol_resolution::resolve tells it.
#[inline(always)]
#[tactic(auto, unfolding(crate::specs::Add::committed_of, symbol_resolution::specs::Apply::apply_of))]
fn commit(
    table: &mut Table<'_>,
    row: Row,
    file: Option<Interned>,
    resolved: Result<Resolution, u64>,
) -> Result<SymbolId, Refusal>
    requires { IfErr resolved (λ n. n ≢ 0) }
    ensures same { same_loans table.old table.new }
    ensures answer { left (table_in table.new) (said result) ≡ committed_of (table_in table.old) row file (decision_of resolved) }
{
    match resolved {
        Err(number) => Err(Refusal {
            number,
            place: place_of(table.link, row, file, number) as u64,
        }),
        Ok(resolution) => {
            let id = resolution.id(table.link.symbols);
            table.apply(row, resolution);
            Ok(id)
        }
    }
}

#[inline(always)]
#[tactic(auto, unfolding(crate::specs::Add::add_row_of))]
fn add_row(table: &mut Table<'_>, row: Row, file: Option<Interned>) -> Result<SymbolId, Refusal>
    ensures same { same_loans table.old table.new }
    ensures answer { left (table_in table.new) (said result) ≡ add_row_of (table_in table.old) row file }
{
    let resolved = decide(table, row, file);
    commit(table, row, file, resolved)
}

// The id of the symbol, which has its own row or its name's.
// Inlined, as what it calls: else the link and the row go through memory.
#[inline(always)]
#[tactic(auto, unfolding(crate::specs::Add::add_of, link::specs::Judge::judged))]
pub fn add(
    table: &mut Table<'_>,
    conversion: &[u64],
    upcoming: UpcomingSymbol,
) -> Result<SymbolId, Refusal>
    ensures same { same_loans table.old table.new }
    ensures added { AddMeets (table_in table.old) conversion.now upcoming (add_exit table.new result) }
{
    judge_add(table, upcoming)?;
    let row = upcoming_row(table, conversion, upcoming);
    add_row(table, row, file_of(upcoming))
}
