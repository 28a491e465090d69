// The lookup of a global name, which tells how many places it read.
ghost use Rattle.std.specs.Prelude.{◌≡◌, ◌≤◌, length, Err, IfOk};
ghost use Rattle.link.specs.Judge.{judged};
ghost use Rattle.name_index.specs.Named.{rows_in};
ghost use Rattle.name_index.specs.Index.{index_read};
ghost use Rattle.indexed_table.specs.Lookup.{judge_lookup, held_at, get_global_of};

use link::{Cause, Interned, Lent, Link, Refusal, SymbolId};
use name_index::{Index, NamedRows};
use symbol::Symbol;

#[derive(Clone, Copy)]
pub struct LookedUp {
    pub answer: Result<Symbol, Refusal>,
    pub reads: usize,
}

#[tactic(auto, unfolding(link::specs::Judge::judged, crate::specs::Lookup::judge_lookup))]
fn judge(l: Link, rows: NamedRows<'_>, index: Index<'_>) -> Result<(), Refusal>
    ensures judged { result ≡ judged (judge_lookup l (rows_in rows.entry) (index_read index.entry)) }
    ensures within { IfOk result (λ _. index.entry.count ≤ length index.entry.places.now) }
{
    l.judge(Lent {
        names: rows.names.len() / link::NAME_CELLS,
        bytes: rows.bytes.len(),
        symbols: rows.symbols.len(),
        sections: l.slots,
        inputs: link::NOT_LENT,
        lists: link::NOT_LENT,
    })?;
    index.judge()
}

#[tactic(auto, unfolding(crate::specs::Lookup::held_at))]
fn held_at(symbols: &[u64], name: Interned, id: SymbolId) -> Result<Symbol, Refusal>
    ensures { result ≡ held_at symbols.now name id }
{
    if cells::row_get(symbols, id.0, symbol::CELL_STATE) == symbol::REMOVED {
        return Err(Refusal::new(Cause::AbsentId, name.0));
    }
    Ok(symbol::symbol_at(symbols, id))
}

fn refused(refusal: Refusal) -> LookedUp
    ensures { result ≡ record { answer = Err refusal; reads = 0 } }
{
    LookedUp {
        answer: Err(refusal),
        reads: 0,
    }
}

// 1; 23; 21. An id that was never issued has no name to look for.
#[tactic(auto, unfolding(link::specs::Judge::judged, crate::specs::Lookup::get_global_of))]
pub fn get_global(l: Link, rows: NamedRows<'_>, index: Index<'_>, name: Interned) -> LookedUp
    ensures { result ≡ get_global_of l (rows_in rows.entry) (index_read index.entry) name }
{
    if let Err(refusal) = judge(l, rows, index) {
        return refused(refusal);
    }
    if l.names <= name.0 {
        return refused(Refusal::new(Cause::UnknownGlobalName, 0));
    }
    let met = index.seek(rows, interner::name_of(rows.bytes, rows.names, name));
    let answer = match met.place {
        Ok(place) => held_at(rows.symbols, name, index.id_at(place)),
        Err(_) => Err(Refusal::new(Cause::UnknownGlobalName, 0)),
    };
    LookedUp {
        answer,
        reads: met.reads,
    }
}
