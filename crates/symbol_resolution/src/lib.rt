// What an add decides on a row under its name's holder; nothing is written.
#![tactic(auto)]

ghost use Rattle.std.specs.Prelude.{◌≡◌, ◌≢◌, IfErr};
ghost use Rattle.symbol_resolution.specs.Decide.{cause_number, rank_number, decision_of, weak_of, rank_of, type_refusal, room_of, new_of, kept_of, stays_of, known_of, global_of, local_of, decide_of};

mod rows;
mod write;

use link::{Cause, Link, SectionId, SymbolId};
pub use rows::{
    Holder, Resolution, clear_section_symbol, holder_of, is_strong_undefined, section_cell,
};
use symbol::{Row, SymbolVisibility};
pub use write::Table;

#[tactic(auto, using(crate::specs::Proof::DecideWays::weak_same))]
fn is_weak(scope: u64) -> bool
    ensures { result ≡ weak_of scope }
{
    SymbolVisibility::from(scope).is_weak()
}

// A row yields to an add of a greater rank. In the gABI profile a strong reference stands above a weak one. A common's binding doesn't count.
#[derive(Clone, Copy, Debug, PartialEq, Eq, PartialOrd, Ord)]
enum Rank {
    Reference,
    StrongReference,
    WeakDefinition,
    Common,
    StrongDefinition,
}

impl Rank {
    #[tactic(auto, unfolding(crate::specs::Decide::rank_of, crate::specs::Decide::reference_rank))]
    fn of(gabi: bool, scope: u64, value: u64) -> Rank
        ensures { rank_number result ≡ rank_of gabi scope value }
    {
        match (value, is_weak(scope)) {
            (symbol::KIND_UNDEFINED, false) if gabi => Rank::StrongReference,
            (symbol::KIND_UNDEFINED, _) => Rank::Reference,
            (symbol::KIND_COMMON, _) => Rank::Common,
            (_, true) => Rank::WeakDefinition,
            (_, false) => Rank::StrongDefinition,
        }
    }
}

#[tactic(auto, unfolding(crate::specs::Decide::type_refusal))]
fn check_type(kind: u64) -> Result<(), Cause>
    ensures { cause_number result ≡ type_refusal kind }
{
    if kind < symbol::STT_FILE {
        Ok(())
    } else if kind == symbol::STT_FILE {
        Err(Cause::FileSymbol)
    } else {
        Err(Cause::UnsupportedType)
    }
}

// A free row, and for a local section symbol the cell of its section.
#[tactic(auto, unfolding(crate::specs::Decide::room_of, crate::specs::Decide::section_room))]
fn room(l: Link, symbols: &[u64], sections: &[u64], row: Row) -> bool
    ensures { result ≡ room_of l symbols.now sections.now row }
{
    let section = SectionId(row.value.a as usize);
    l.symbols < link::symbol_rows(symbols.len())
        && (row.scope != symbol::LOCAL
            || row.value.kind != symbol::KIND_SECTION
            || section_cell(l, sections.len(), section) < sections.len())
}

// A local or a new name: value, type, a free row.
// Kept: a number, as `resolve` tells it.
#[inline(always)]
#[tactic(auto, unfolding(crate::specs::Decide::new_of))]
fn decide_new(l: Link, symbols: &[u64], sections: &[u64], row: Row) -> Result<Resolution, u64>
    ensures decision { decision_of result ≡ new_of l symbols.now sections.now row }
    ensures number { IfErr result (λ n. n ≢ 0) }
{
    if !symbol::is_kind(row.value.kind) {
        return Err(row.value.kind);
    }
    check_type(row.kind)?;
    if room(l, symbols, sections, row) {
        Ok(Resolution::Append)
    } else {
        Err(Cause::NoRoom.into())
    }
}

// A row that stays, by its and the add's scope.
#[tactic(auto, using(symbol::specs::Proof::Ways::hidden_same), unfolding(crate::specs::Decide::kept_of))]
fn keep(gabi: bool, old: u64, new: u64, id: SymbolId) -> Resolution
    ensures { decision_of (Ok result) ≡ kept_of gabi old new id }
{
    if symbol::passes_hidden(gabi, new) && !SymbolVisibility::from(old).is_hidden() {
        Resolution::Amend { id }
    } else {
        Resolution::Keep { id }
    }
}

// A row that stays under an add of that rank: two commons are joined.
#[tactic(auto, unfolding(crate::specs::Decide::stays_of))]
fn stay(gabi: bool, scope: u64, old: Rank, new: Rank, row: Row, id: SymbolId) -> Resolution
    ensures { decision_of (Ok result) ≡ stays_of gabi scope (rank_number old) (rank_number new) row id }
{
    if old == Rank::Common && new == Rank::Common {
        Resolution::Amend { id }
    } else {
        keep(gabi, scope, row.scope, id)
    }
}

// A known name: value, then by rank.
// Kept: a number, as `resolve` tells it.
#[tactic(auto, unfolding(crate::specs::Decide::known_of, crate::specs::Decide::ranked_of, crate::specs::Decide::replace_of))]
fn decide_known(gabi: bool, symbols: &[u64], row: Row, id: SymbolId) -> Result<Resolution, u64>
    ensures decision { decision_of result ≡ known_of gabi symbols.now row id }
    ensures number { IfErr result (λ n. n ≢ 0) }
{
    if !symbol::is_kind(row.value.kind) {
        return Err(row.value.kind);
    }
    let new = Rank::of(gabi, row.scope, row.value.kind);
    let scope = symbol::scope_at(symbols, id);
    let old = Rank::of(
        gabi,
        scope,
        cells::row_get(symbols, id.0, symbol::CELL_KIND),
    );
    if old < new {
        check_type(row.kind)?;
        return Ok(Resolution::Replace { id });
    }
    if new == Rank::StrongDefinition {
        return Err(Cause::DuplicateStrong.into());
    }
    Ok(stay(gabi, scope, old, new, row, id))
}

// Kept: a number and these parameters, as `resolve`, which hands them on.
#[inline(always)]
fn decide_named(
    l: Link,
    symbols: &[u64],
    sections: &[u64],
    row: Row,
    holder: Holder,
) -> Result<Resolution, u64>
    ensures decision { decision_of result ≡ global_of l symbols.now sections.now row holder }
    ensures number { IfErr result (λ n. n ≢ 0) }
{
    match holder {
        Holder::Unissued | Holder::Removed => Err(Cause::AbsentId.into()),
        Holder::Nobody => decide_new(l, symbols, sections, row),
        Holder::Known { id } => decide_known(l.gabi, symbols, row, id),
    }
}

// Kept: a number and these parameters, as `resolve`, which hands them on.
fn decide_local(
    l: Link,
    symbols: &[u64],
    sections: &[u64],
    row: Row,
    holder: Holder,
) -> Result<Resolution, u64>
    ensures decision { decision_of result ≡ local_of l symbols.now sections.now row holder }
    ensures number { IfErr result (λ n. n ≢ 0) }
{
    match holder {
        Holder::Unissued => Err(Cause::AbsentId.into()),
        Holder::Nobody | Holder::Removed | Holder::Known { .. } => {
            decide_new(l, symbols, sections, row)
        }
    }
}

// On a row under a name of which it is told who holds it: what the add does to the table, or the number that refuses it.
// Kept: a number and no Cause, since it may stand in the row itself, which may hold any. Five parameters: callers hold the slices in structs of
// their own.
// Inlined, as what it calls: else the link and the row go through memory.
#[inline(always)]
#[tactic(auto, unfolding(crate::specs::Decide::decide_of))]
pub fn resolve(
    l: Link,
    symbols: &[u64],
    sections: &[u64],
    row: Row,
    holder: Holder,
) -> Result<Resolution, u64>
    ensures decision { decision_of result ≡ decide_of l symbols.now sections.now row holder }
    ensures number { IfErr result (λ n. n ≢ 0) }
{
    if !symbol::is_scope(row.scope) {
        Err(row.scope)
    } else if row.scope == symbol::LOCAL {
        decide_local(l, symbols, sections, row, holder)
    } else {
        decide_named(l, symbols, sections, row, holder)
    }
}
