// What a member that was not taken would have defined: a definition of its symbol table whose name is held by a row that gives way to it. A lookup:
// nothing of the link is written, and of the object its rows are read, as at admission.
#![tactic(auto)]

ghost use Rattle.std.specs.Prelude.{◌≡◌, Bool};
ghost use Rattle.elf_object.specs.Rows.{rows_in};
ghost use Rattle.link.specs.Judge.{judged};
ghost use Rattle.archive_walk.specs.Lent.{as_table};
ghost use Rattle.untaken_member.specs.Untaken.{table_below, cell_of, loaded_of, defines, is_common, is_strong, gives_way, told_holder, told_at, left, head_of, told_of};
ghost use Rattle.untaken_member.specs.Contract.{symbols_in, would_exit, WouldMeets};

use archive_walk::Table;
use elf_object::{Kind, Object};
use link::{Cause, Refusal, SymbolId};
use symbol_resolution::Holder;
use upcoming_symbol::ElfSymbol;

// ---- the symbol table that a merge loads

// The last that isn't excluded: of two a merge refuses the second.
fn loaded_table(object: Object<'_>) -> Option<usize>
    ensures { let headers = object.entry.headers.now in cell_of result ≡ table_below headers (rows_in headers) }
{
    let mut table = None;
    for n in 0..object.section_count() {
        if object.is_loaded(n, Kind::SymbolTable) {
            table = Some(n);
        }
    }
    table
}

// The object with that table's own entries; without one there are none.
#[tactic(auto, unfolding(crate::specs::Untaken::loaded_of))]
fn loaded(object: Object<'_>) -> Object<'_>
    ensures { let o = object.entry in symbols_in result ≡ loaded_of o.headers.now o.entries.now o.image.now }
{
    match loaded_table(object) {
        Some(n) => Object {
            entries: object.entries_of(n),
            table: n,
            ..object
        },
        None => Object {
            entries: &object.entries[..0],
            table: 0,
            ..object
        },
    }
}

// ---- a symbol, and the row that holds its name

// A definition, global or weak, and no file symbol.
#[tactic(auto, unfolding(crate::specs::Untaken::defines))]
fn defines(symbol: ElfSymbol) -> bool
    ensures { result ≡ defines symbol }
{
    symbol.section != upcoming_symbol::SHN_UNDEF
        && symbol.kind != symbol::STT_FILE
        && (symbol.binding == upcoming_symbol::STB_GLOBAL
            || symbol.binding == upcoming_symbol::STB_WEAK)
}

#[tactic(auto, unfolding(crate::specs::Untaken::is_common))]
fn is_common(symbol: ElfSymbol) -> bool
    ensures { result ≡ is_common symbol }
{
    symbol.section == upcoming_symbol::SHN_COMMON
}

#[tactic(auto, unfolding(crate::specs::Untaken::is_strong))]
fn is_strong(symbol: ElfSymbol) -> bool
    ensures { result ≡ is_strong symbol }
{
    symbol.binding == upcoming_symbol::STB_GLOBAL && !is_common(symbol)
}

// Does the row give way to this definition?
#[tactic(auto, unfolding(crate::specs::Untaken::gives_way, symbol_resolution::specs::Decide::weak_of))]
fn gives_way(symbols: &[u64], id: SymbolId, symbol: ElfSymbol) -> bool
    ensures { result ≡ gives_way symbols.now id symbol }
{
    let scope = symbol::scope_at(symbols, id);
    match cells::row_get(symbols, id.0, symbol::CELL_KIND) {
        symbol::KIND_UNDEFINED => true,
        symbol::KIND_COMMON => is_strong(symbol),
        _ => {
            matches!(scope, symbol::WEAK | symbol::WEAK_HIDDEN)
                && (is_common(symbol) || is_strong(symbol))
        }
    }
}

// The row of a name, if it gives way to the symbol.
fn told_holder(symbols: &[u64], symbol: ElfSymbol, holder: Holder) -> Option<SymbolId>
    ensures { result ≡ told_holder symbols.now symbol holder }
{
    match holder {
        Holder::Known { id } if gives_way(symbols, id, symbol) => Some(id),
        _ => None,
    }
}

// The row that symbol i would have taken over.
#[tactic(auto, unfolding(crate::specs::Untaken::told_at, crate::specs::Untaken::told_name))]
fn told_at(object: Object<'_>, table: Table<'_>, i: usize) -> Option<SymbolId>
    ensures { result ≡ told_at (symbols_in object.entry) (as_table table.entry) i }
{
    let names = cells::row_get(object.headers, object.table, elf_object::HEADER_LINK) as usize;
    let offset = cells::row_get(object.entries, i, elf_object::ENTRY_NAME) as usize;
    let symbol = elf_object::elf_at(object.entries, i);
    match object.name_in(names, offset) {
        Some(name) if defines(symbol) => told_holder(table.symbols, symbol, table.holder(name)),
        _ => None,
    }
}

// ---- the call

// Of each that is told its number and the row's id, in pairs, in the table's order.
fn tell(object: Object<'_>, table: Table<'_>, told: &mut [u64]) -> usize
    ensures { left told.new (Ok result) ≡ told_of (symbols_in object.entry) (as_table table.entry) told.old }
{
    let mut at = 0;
    for i in 0..object.symbol_count() {
        if let Some(id) = told_at(object, table, i) {
            cells::put(told, at, i as u64);
            cells::put(told, at + 1, id.0 as u64);
            at += 2;
        }
    }
    at / 2
}

// 1 for a count of the link above what is lent, then at the first row of the object that is out of range.
#[tactic(auto, unfolding(crate::specs::Untaken::head_of))]
fn judge(object: Object<'_>, table: Table<'_>) -> Result<(), Refusal>
    ensures { let o = object.entry in result ≡ judged (head_of o.headers.now o.entries.now o.contents.now o.image.now (as_table table.entry)) }
{
    table.judge()?;
    object.judge()
}

// The symbols that are told, each by its number in the symbol table and the id of the row, and how many they are. 1 for a count of the link above
// what is lent, then at the first row of the object that is out of range; then 2 at 0 where fewer than two cells are lent for each symbol of the
// table. Nothing is written by a refusal.
pub fn would_define(
    object: Object<'_>,
    table: Table<'_>,
    told: &mut [u64],
) -> Result<usize, Refusal>
    ensures { let o = object.entry in
        WouldMeets o.headers.now o.entries.now o.contents.now o.image.now (as_table table.entry) told.old (would_exit told result) }
{
    judge(object, table)?;
    let member = loaded(object);
    if told.len() / 2 < member.symbol_count() {
        return Err(Refusal::new(Cause::NoRoom, 0));
    }
    Ok(tell(member, table, told))
}
