// A list of adds in a single call, under one conversion: the direct adds one by one, up to the first that is refused. A row of the list has 8 cells:
// the name's id, binding, type, visibility, section, value, size, and the file: 0, or its name's id and 1. But for the name and the
// file these are the cells of an object's symbol row (elf_object).
#![tactic(auto)]

ghost use Rattle.std.specs.Prelude.{◌≡◌, ◌≢◌, IfErr, Err};
ghost use Rattle.link.specs.Cause.{number_of};
ghost use Rattle.link.specs.Judge.{refused};
ghost use Rattle.symbol_resolution.specs.Lent.{same_loans, table_in};
ghost use Rattle.add_list.specs.AddList.{item_at, items_of, turn_of, adds_of};
ghost use Rattle.add_list.specs.Contract.{list_exit, ListMeets, listed_in, turn_before, turn_after};

use link::{Cause, Interned, Refusal};
use symbol_resolution::Table;
use upcoming_symbol::UpcomingSymbol;

pub const ROW_CELLS: usize = 8;

const NAME: usize = 0;

const FILE: usize = 7;

// The first refusal, if there is one, and how many adds before it were accepted.
// Kept: the position beside a Result, since it is told of an accepted list too.
#[derive(Clone, Copy)]
pub struct Listed {
    pub answer: Result<(), Refusal>,
    pub position: usize,
}

fn item_at(adds: &[u64], k: usize) -> UpcomingSymbol
    ensures { result ≡ item_at adds.now k }
{
    UpcomingSymbol::Elf {
        elf: elf_object::elf_at(adds, k),
        name: Interned(cells::row_get(adds, k, NAME) as usize),
        file: symbol::file_at(cells::row_get(adds, k, FILE)),
    }
}

// The add at position k, to the table that the adds before it left. An accepted add's id goes to its cell; a refused one leaves all cells.
// Kept: loose parameters, as the public call has them, and the position.
#[tactic(auto, unfolding(crate::specs::AddList::turn_of))]
fn turn(
    table: &mut Table<'_>,
    conversion: &[u64],
    adds: &[u64],
    ids: &mut [u64],
    k: usize,
) -> Result<(), Refusal>
    ensures same { same_loans table.old table.new }
    ensures left { turn_after table.new ids result k ≡ turn_of conversion.now (item_at adds.now k) (turn_before table.old ids) k }
    ensures number { IfErr result (λ r. r.number ≢ 0) }
{
    let id = symbols::add(table, conversion, item_at(adds, k))?;
    cells::put(ids, k, id.0 as u64);
    Ok(())
}

fn add_rows(table: &mut Table<'_>, conversion: &[u64], adds: &[u64], ids: &mut [u64]) -> Listed
    ensures same { same_loans table.old table.new }
    ensures left { listed_in table.new ids result ≡ adds_of conversion.now (items_of adds.now) (turn_before table.old ids) 0 }
    ensures numbered { IfErr result.answer (λ r. r.number ≢ 0) }
{
    let rows = adds.len() / ROW_CELLS;
    for k in 0..rows {
        if let Err(refusal) = turn(table, conversion, adds, ids, k) {
            return Listed {
                answer: Err(refusal),
                position: k,
            };
        }
    }
    Listed {
        answer: Ok(()),
        position: rows,
    }
}

// A refusal before the first add.
fn refused(cause: Cause) -> Listed
    ensures { result ≡ record { answer = Err (refused (number_of cause) 0); position = 0 } }
{
    Listed {
        answer: Err(Refusal::new(cause, 0)),
        position: 0,
    }
}

pub fn add_list(table: &mut Table<'_>, conversion: &[u64], adds: &[u64], ids: &mut [u64]) -> Listed
    ensures same { same_loans table.old table.new }
    ensures left { ListMeets (table_in table.old) conversion.now adds.now ids.old (list_exit table.new ids result) }
    ensures numbered { IfErr result.answer (λ r. r.number ≢ 0) }
{
    if table.link.broken {
        return refused(Cause::BrokenLink);
    }
    if ids.len() < adds.len() / ROW_CELLS {
        return refused(Cause::NoRoom);
    }
    add_rows(table, conversion, adds, ids)
}
