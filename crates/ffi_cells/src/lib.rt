// A symbol that was found, and one that is to be added, in lent cells, for the calls from another language.
#![tactic(auto)]

ghost use Rattle.std.specs.Prelude.{◌≡◌, ◌≢◌};
ghost use Rattle.ffi_cells.specs.Cells.{elf_variant, variant_of, symbol_row, row_out, symbol_out, is_item, name_in, words_in, elf_in, item_in};

mod header;

pub use header::{
    HEADER_CELLS, Reply, SHORT, answer, flag, is_set, link_in, refusal, refused, result, tell,
    tell_names, tell_symbols,
};
use link::{Interned, SectionId, SymbolId};
use symbol::{Row, Symbol, Words};
use upcoming_symbol::{ElfSymbol, UpcomingSymbol};

// ---- a symbol that was found: its id and the cells of its row

// A present row of these fields, behind the id.
#[tactic(auto, unfolding(crate::specs::Cells::row_out))]
fn put_row(out: &mut [u64], id: SymbolId, row: Row)
    ensures { out.new ≡ row_out out.old id row }
{
    cells::row_store(
        out,
        0,
        [
            id.0 as u64,
            1,
            row.name.0 as u64,
            row.kind,
            row.file,
            row.scope,
            row.value.kind,
            row.value.a,
        ],
    );
    cells::put(out, 8, row.value.b);
    cells::put(out, 9, row.size);
}

#[tactic(auto, unfolding(crate::specs::Cells::symbol_row, crate::specs::Cells::global_code))]
fn row_of(s: Symbol) -> Row
    ensures { result ≡ symbol_row s }
{
    Row {
        name: s.name,
        kind: s.kind.into(),
        file: symbol::file_cell(s.file),
        scope: s.visibility.into(),
        value: s.value.into(),
        size: s.size,
    }
}

#[tactic(auto, unfolding(crate::specs::Cells::symbol_out))]
pub fn put_symbol(out: &mut [u64], s: Symbol)
    ensures { out.new ≡ symbol_out out.old s }
{
    put_row(out, s.id, row_of(s));
}

// ---- a symbol that is to be added

// The variants' numbers; 0 is the null symbol.
// Kept: numbers, as C hands them in.
const GLOBAL_UNKNOWN: u64 = 1;

const GLOBAL_HIDDEN: u64 = 2;

const SECTION: u64 = 3;

const EXTERNALLY_DEFINED: u64 = 4;

const ELF: u64 = 5;

// Nine cells: the variant, then its fields. An unknown variant, or an unknown kind of value, is no symbol.
#[tactic(auto, unfolding(crate::specs::Cells::is_item))]
pub fn is_item(item: &[u64]) -> bool
    ensures { result ≡ is_item item.now }
{
    item.len() >= 9
        && match cells::get(item, 0) {
            // First, since nearly all are objects' symbols.
            ELF => true,
            GLOBAL_HIDDEN => cells::get(item, 2) <= symbol::KIND_COMMON,
            variant => variant < ELF,
        }
}

fn elf_in(item: &[u64]) -> ElfSymbol
    ensures { result ≡ elf_in item.now }
{
    ElfSymbol {
        binding: cells::get(item, 1),
        visibility: cells::get(item, 2),
        kind: cells::get(item, 3),
        section: cells::get(item, 4),
        value: cells::get(item, 5),
        size: cells::get(item, 8),
    }
}

fn words_in(item: &[u64]) -> Words
    ensures { result ≡ words_in item.now }
{
    Words {
        kind: cells::get(item, 2),
        a: cells::get(item, 3),
        b: cells::get(item, 4),
    }
}

#[tactic(auto, unfolding(crate::specs::Cells::name_in))]
fn name_in(item: &[u64], i: usize) -> Interned
    ensures { result ≡ name_in item.now i }
{
    Interned(cells::get(item, i) as usize)
}

// A symbol of another variant than an object's.
// Never inlined: nearly all are objects' symbols, and this one's cases would push their values to the stack.
#[inline(never)]
#[tactic(auto, unfolding(crate::specs::Cells::item_in))]
fn other_item(item: &[u64]) -> UpcomingSymbol
    requires { variant_of item.now ≢ elf_variant }
    ensures { result ≡ item_in item.now }
{
    match cells::get(item, 0) {
        GLOBAL_UNKNOWN => UpcomingSymbol::GlobalUnknown {
            name: name_in(item, 1),
        },
        GLOBAL_HIDDEN => UpcomingSymbol::GlobalHidden {
            name: name_in(item, 1),
            value: words_in(item).into(),
        },
        SECTION => UpcomingSymbol::Section {
            section: SectionId(cells::get(item, 1) as usize),
        },
        EXTERNALLY_DEFINED => UpcomingSymbol::ExternallyDefined {
            name: name_in(item, 1),
            visibility: cells::get(item, 2),
            binding: cells::get(item, 3),
        },
        _ => UpcomingSymbol::Null,
    }
}

#[tactic(auto, unfolding(crate::specs::Cells::item_in))]
pub fn item_in(item: &[u64]) -> UpcomingSymbol
    ensures { result ≡ item_in item.now }
{
    if cells::get(item, 0) != ELF {
        return other_item(item);
    }
    UpcomingSymbol::Elf {
        elf: elf_in(item),
        name: name_in(item, 6),
        file: symbol::file_at(cells::get(item, 7)),
    }
}
