// The filter of an object's symbols by the groups' marks.
ghost use Rattle.std.specs.Prelude.{◌≡◌, ◌<◌, IfSome};
ghost use Rattle.elf_object.specs.Rows.{rows_in};
ghost use Rattle.section_groups.specs.Filter.{symbol_ok, place_in};
ghost use Rattle.section_groups.specs.Contract.{SectionAfterMeets, DiscardedMeets, FilterMeets};

// The section of a symbol after the filter: undefined where it is removed.
#[tactic(auto, unfolding(crate::specs::Filter::section_after))]
pub fn section_after(work: &[u64], section: u64) -> u64
    ensures { SectionAfterMeets work.now section result }
{
    if section < upcoming_symbol::SHN_LORESERVE
        && cells::row_get(work, section as usize, elf_object::WORK_MARK)
            == elf_object::REMOVED_MARK
    {
        return upcoming_symbol::SHN_UNDEF;
    }
    section
}

// A local symbol of a removed section?
#[tactic(auto, unfolding(crate::specs::Filter::discarded_at))]
pub fn is_discarded(work: &[u64], entries: &[u64], i: usize) -> bool
    ensures { DiscardedMeets work.now entries.now i result }
{
    let section = cells::row_get(entries, i, elf_object::ENTRY_SECTION);
    cells::row_get(entries, i, elf_object::ENTRY_BINDING) == upcoming_symbol::STB_LOCAL
        && section_after(work, section) != section
}

#[tactic(auto, unfolding(crate::specs::Filter::symbol_ok))]
fn symbol_ok(gabi: bool, work: &[u64], entries: &[u64], i: usize) -> bool
    ensures { result ≡ symbol_ok gabi work.now entries.now i }
{
    gabi || !is_discarded(work, entries, i)
}

// The first one; none in the gABI profile, where they are dropped.
pub fn filter_symbol_table(gabi: bool, work: &[u64], entries: &[u64]) -> Option<usize>
    ensures first { FilterMeets gabi work.now entries.now (place_in entries.now result) }
    ensures within { IfSome result (λ i. i < rows_in entries.now) }
{
    for i in 0..entries.len() / elf_object::ROW_WIDTH {
        if !symbol_ok(gabi, work, entries, i) {
            return Some(i);
        }
    }
    None
}
