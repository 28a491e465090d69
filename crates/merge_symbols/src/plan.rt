// What the symbol stage of a merge decides on one symbol of an object: read only.
ghost use Rattle.std.specs.Prelude.{◌≡◌, length};
ghost use Rattle.interner.specs.Hash.{head_cell};
ghost use Rattle.symbol.specs.Codes.{file_cell};
ghost use Rattle.symbol_resolution.specs.Decide.{decision_of};
ghost use Rattle.merge_symbols.specs.Plan.{Numbered, filtered_at, is_first, defines_of, rule_of, judged_of, planned_as, planned_of, place_of, file_after, input_of, view_now};

use crate::Symbols;
use interner::Names;
use link::{Cause, Interned, SymbolId};
use symbol::Row;
use symbol_resolution::Resolution;
use upcoming_symbol::{Conversion, ElfSymbol};

// What is to be done with a symbol, under a name that has or would get this id; or the number that refuses it, as symbol_resolution tells it.
#[derive(Clone, Copy)]
pub struct Plan {
    pub id: Interned,
    pub kind: u64,
    pub row: Row,
    // Kept: a number, as symbol_resolution::resolve tells it.
    pub resolution: Result<Resolution, u64>,
}

impl Plan {
    // A file symbol sets the file name of the symbols after it.
    #[tactic(auto, unfolding(crate::specs::Plan::file_after))]
    pub fn file_after(self, file: Option<Interned>) -> Option<Interned>
        ensures { file_cell result ≡ file_after (file_cell file) self.kind self.id }
    {
        if self.kind == symbol::STT_FILE {
            Some(self.id)
        } else {
            file
        }
    }
}

// The symbol after the groups' filter: undefined where its section is removed.
fn filtered_at(entries: &[u64], work: &[u64], i: usize) -> ElfSymbol
    ensures { result ≡ filtered_at entries.now work.now i }
{
    let e = elf_object::elf_at(entries, i);
    ElfSymbol {
        section: section_groups::section_after(work, e.section),
        ..e
    }
}

// The first symbol, if named empty, undefined and of type 0.
#[tactic(auto, unfolding(crate::specs::Plan::is_first))]
fn is_first(i: usize, empty: bool, e: ElfSymbol) -> bool
    ensures { result ≡ is_first i empty e }
{
    i == 0 && e.section == upcoming_symbol::SHN_UNDEF && e.kind == symbol::STT_NOTYPE && empty
}

// Does the section define a group?
#[tactic(auto, unfolding(crate::specs::Plan::defines_of))]
fn defines(work: &[u64], section: u64) -> bool
    ensures { result ≡ defines_of work.now section }
{
    section != upcoming_symbol::SHN_UNDEF
        && section < upcoming_symbol::SHN_LORESERVE
        && cells::row_get(work, section as usize, elf_object::WORK_MARK) == elf_object::GROUP_MARK
}

impl Symbols<'_> {
    // The names, to be read.
    // Kept: as in shared_objects; a trait of structs that hold names would be longer than both.
    #[inline(always)]
    pub(super) fn name_table(&self) -> Names<'_, '_>
        ensures link { result.link ≡ self.now.link }
        ensures bytes { result.bytes.now ≡ self.now.bytes.now }
        ensures cells { result.cells.now ≡ self.now.names.now }
    {
        Names {
            link: self.link,
            bytes: self.bytes,
            cells: self.names,
        }
    }

    // The first symbol maps to the null symbol; a file symbol and one of a group-defining section get no id; else add's rules.
    // Kept: refused with a number, as symbol_resolution::resolve tells it.
    #[tactic(auto, unfolding(crate::specs::Plan::rule_of))]
    fn resolve(
        &self,
        work: &[u64],
        i: usize,
        empty: bool,
        e: ElfSymbol,
        row: Row,
    ) -> Result<Resolution, u64>
        ensures value { let v = view_now self.now in decision_of result ≡ rule_of v.link v.names v.symbols v.sections work.now i empty e row }
        ensures numbered { Numbered result }
    {
        if is_first(i, empty, e) {
            return Ok(Resolution::Keep { id: SymbolId(0) });
        }
        if e.kind == symbol::STT_FILE || defines(work, e.section) {
            return Ok(Resolution::Nothing);
        }
        let symbols = &*self.symbols;
        let holder = symbol_resolution::holder_of(self.link, self.names, symbols, row.name);
        symbol_resolution::resolve(self.link, symbols, self.sections, row, holder)
    }

    // A name of that length that is neither known nor has room is 2.
    // Kept: refused with a number, as symbol_resolution::resolve tells it.
    #[tactic(auto, unfolding(crate::specs::Plan::judged_of))]
    fn judge(
        &self,
        work: &[u64],
        i: usize,
        len: usize,
        e: ElfSymbol,
        row: Row,
    ) -> Result<Resolution, u64>
        ensures value { decision_of result ≡ judged_of (view_now self.now) work.now i len e row }
        ensures numbered { Numbered result }
    {
        if !self.name_table().fits(row.name, len) {
            return Err(Cause::NoRoom.into());
        }
        self.resolve(work, i, len == 0, e, row)
    }

    // Symbol i of the table, named x, where the head of the name's chain is told.
    #[tactic(auto, unfolding(crate::specs::Plan::planned_of, crate::specs::Plan::read_of, crate::specs::Plan::rowed_of, interner::specs::Names::find_of))]
    pub(super) fn plan(
        &self,
        entries: &[u64],
        work: &[u64],
        head: usize,
        x: &[u8],
        i: usize,
    ) -> Plan
        requires { head ≡ head_cell self.now.link (length self.now.names.now) x.now }
        ensures value { planned_as result ≡ planned_of (view_now self.now) (input_of entries.now work.now) x.now i (file_cell self.now.file) }
        ensures numbered { Numbered result.resolution }
    {
        let id = self.name_table().find_from(head, x);
        let e = filtered_at(entries, work, i);
        let cell = cells::row_get(work, e.section as usize, elf_object::WORK_CONVERSION);
        let file = symbol::file_cell(self.file);
        let row = upcoming_symbol::elf_row(Conversion::from(cell), e, id, x.is_empty(), file);
        let resolution = self.judge(work, i, x.len(), e, row);
        Plan {
            id,
            kind: e.kind,
            row,
            resolution,
        }
    }
}

// The place of a refusal: the symbol's number, but for 21 the name's id.
#[tactic(auto, unfolding(crate::specs::Plan::place_of))]
pub fn place_of(number: u64, id: Interned, i: usize) -> u64
    ensures { result ≡ place_of number id i }
{
    if number == u64::from(Cause::AbsentId) {
        id.0 as u64
    } else {
        i as u64
    }
}
