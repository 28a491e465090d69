// What was not reached goes: sections, and with them the symbols that lie in them.
ghost use Rattle.std.specs.Prelude.{◌≡◌, Ok};
ghost use Rattle.gc_sections.specs.Sweep.{dropped_now, sweep_sections, purge_symbols};

use crate::graph::lead_of;
use crate::reach::UNREACHED;
use crate::{Dropped, Tables};
use link::{Cause, Refusal, SectionId, SymbolId};

// What a section's work cell holds where this call dropped it.
// Kept: a number, since the cells are lent by C, and the laws read them.
const DROPPED: u64 = 2;

#[tactic(auto, unfolding(crate::specs::Sweep::dropped_now))]
fn dropped_now(work: &[u64], n: usize, x: usize) -> bool
    ensures { result ≡ dropped_now work.now n x }
{
    x < n && cells::get(work, x) == DROPPED
}

impl Tables<'_> {
    ghost use Rattle.gc_sections.specs.Tables.{Keeps, unreached_in, falls_in, swept_in, rows_in, purged_in, sweep_in, finish_in, left_in};

    // Is the section built, and was it not reached?
    fn is_unreached(&self, work: &[u64], i: usize) -> bool
        ensures { result ≡ unreached_in self.now work.now i }
    {
        sections::is_built(self.sections, self.link.sections, SectionId(i))
            && cells::get(work, i) == UNREACHED
    }

    #[tactic(auto, unfolding(crate::specs::Sweep::sweep_sections))]
    fn sweep_sections(&mut self, work: &mut [u64]) -> usize
        ensures keeps { Keeps self.old self.new }
        ensures symbols { self.new.symbols.now ≡ self.old.symbols.now }
        ensures swept { swept_in self.new work.new result ≡ sweep_sections self.old.link.sections self.old.sections.now work.old }
    {
        let mut count = 0;
        for i in 0..self.link.sections {
            if self.is_unreached(work, i) {
                sections::drop_section(self.sections, SectionId(i));
                cells::put(work, i, DROPPED);
                count += 1;
            }
        }
        count
    }

    // Does the symbol lie in a section that this call dropped?
    // Kept: a match, since the proof does not close over `is_some_and` (tried).
    fn falls(&self, work: &[u64], id: SymbolId) -> bool
        ensures { result ≡ falls_in self.now work.now id }
    {
        match lead_of(self.symbols, self.link.symbols, id) {
            None => false,
            Some(section) => dropped_now(work, self.link.sections, section.0),
        }
    }

    #[tactic(auto, unfolding(crate::specs::Sweep::purge_symbols))]
    fn purge_symbols(&mut self, work: &[u64]) -> usize
        ensures keeps { Keeps self.old self.new }
        ensures purged { purged_in self.new result ≡ purge_symbols self.old.link work.now (rows_in self.old) }
    {
        let link = self.link;
        let mut count = 0;
        for i in 0..link.symbols {
            let id = SymbolId(i);
            if self.falls(work, id) {
                symbols::remove_row(link, self.symbols, self.sections, id);
                count += 1;
            }
        }
        count
    }

    #[tactic(auto, unfolding(crate::specs::Run::sweep_of, crate::specs::Run::purge_of))]
    fn sweep(&mut self, work: &mut [u64]) -> Dropped
        ensures keeps { Keeps self.old self.new }
        ensures swept { left_in self.new work.new (Ok result) ≡ sweep_in self.old work.old }
    {
        let sections = self.sweep_sections(work);
        let symbols = self.purge_symbols(work);
        Dropped { sections, symbols }
    }

    // The end of a collection: of sections that are reached but not built the lowest is refused with 21.
    pub fn finish(
        &mut self,
        work: &mut [u64],
        unbuilt: Option<SectionId>,
    ) -> Result<Dropped, Refusal>
        ensures keeps { Keeps self.old self.new }
        ensures left { left_in self.new work.new result ≡ finish_in self.old work.old unbuilt }
    {
        match unbuilt {
            None => Ok(self.sweep(work)),
            Some(id) => Err(Refusal::new(Cause::AbsentId, id.0)),
        }
    }
}
