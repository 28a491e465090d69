// What relocations reach from the roots: a queue that each section enters once.
ghost use Rattle.std.specs.Prelude.{◌≡◌, ◌≤◌, get_or};
ghost use Rattle.gc_sections.specs.Each.{each};
ghost use Rattle.gc_sections.specs.Tables.{walked_in};
ghost use Rattle.gc_sections.specs.Reach.{lower_of, end_of, start_of, clear_cell};

use crate::graph::Graph;
use link::{SectionId, SymbolId};

// What a section's work cell holds: not reached, or reached.
// Kept: numbers, since the cells are lent by C, and the laws read them.
pub const UNREACHED: u64 = 0;

pub const REACHED: u64 = 1;

// Of n sections, work cell i tells whether section i was reached, and cells n and up hold the queue: each that was reached, once. Of sections
// that are reached but not built the lowest is kept.
// Kept: places in lent cells and no Box, since the library has no heap and C lends the memory.
// Kept: that the loans stay is said by each call, since no field's type says which memory it lends.
#[derive(Drop)]
pub struct Walker<'a> {
    pub work: &'a mut [u64],
    pub queued: usize,
    pub unbuilt: Option<SectionId>,
}

// The lower of both.
pub fn lower(unbuilt: Option<SectionId>, id: SectionId) -> Option<SectionId>
    ensures { result ≡ lower_of unbuilt id }
{
    Some(unbuilt.map_or(id, |lowest| SectionId(lowest.0.min(id.0))))
}

// Where the list of a section's relocations ends: never past the lists in use.
#[tactic(auto, unfolding(crate::specs::Reach::end_of))]
pub fn end_of(lists: usize, first: usize, count: usize) -> usize
    ensures { result ≡ end_of lists first count }
{
    first + count.min(lists.saturating_sub(first))
}

// No section was reached yet.
pub fn clear(work: &mut [u64], n: usize)
    ensures { work.new ≡ each clear_cell n 0 work.old }
{
    for i in 0..n {
        cells::put(work, i, UNREACHED);
    }
}

impl<'a> Walker<'a> {
    ghost use Rattle.gc_sections.specs.Graph.{KeepsLoans, walk_in, saved_in, reached_in, added_in, symbol_rooted_in, section_rooted_in, relocated_in, relocated_all_in, visited_in, rooted_all_in, processed_in};

    #[tactic(auto, unfolding(crate::specs::Reach::start_of))]
    pub fn new(work: &'a mut [u64], n: usize) -> Walker<'a>
        ensures loans { result.work.ghost_name ≡ work.entry.ghost_name }
        ensures walk { walk_in result ≡ start_of n work.old }
    {
        clear(work, n);
        Walker {
            work,
            queued: 0,
            unbuilt: None,
        }
    }

    fn cell(&self, i: usize) -> u64
        ensures { result ≡ get_or self.now.work.now i 0 }
    {
        cells::get(self.work, i)
    }

    // A section that was not reached before enters the queue.
    #[tactic(auto, unfolding(crate::specs::Reach::save_of))]
    fn save(&mut self, graph: &Graph<'_>, id: SectionId)
        ensures loans { KeepsLoans self.old self.new }
        ensures walk { walk_in self.new ≡ saved_in graph.now id (walk_in self.old) }
    {
        let n = graph.link.sections;
        if self.cell(id.0) == UNREACHED && self.queued < n {
            cells::put(self.work, id.0, REACHED);
            cells::put(self.work, n + self.queued, id.0 as u64);
            self.queued += 1;
        }
    }

    #[tactic(auto, unfolding(crate::specs::Reach::reach_of))]
    fn reach(&mut self, graph: &Graph<'_>, id: SectionId)
        ensures loans { KeepsLoans self.old self.new }
        ensures walk { walk_in self.new ≡ reached_in graph.now id (walk_in self.old) }
    {
        if sections::is_built(graph.sections, graph.link.sections, id) {
            self.save(graph, id);
        } else {
            self.unbuilt = lower(self.unbuilt, id);
        }
    }

    // The section that a symbol leads to is reached.
    #[tactic(auto, unfolding(crate::specs::Reach::add_of))]
    fn add(&mut self, graph: &Graph<'_>, id: SymbolId)
        ensures loans { KeepsLoans self.old self.new }
        ensures walk { walk_in self.new ≡ added_in graph.now id (walk_in self.old) }
    {
        if let Some(section) = graph.lead(id) {
            self.reach(graph, section);
        }
    }

    #[tactic(auto, unfolding(crate::specs::Reach::root_symbol))]
    fn root_symbol(&mut self, graph: &Graph<'_>, i: usize)
        ensures loans { KeepsLoans self.old self.new }
        ensures walk { walk_in self.new ≡ symbol_rooted_in graph.now i (walk_in self.old) }
    {
        if graph.is_marked(i) {
            self.add(graph, SymbolId(i));
        }
    }

    #[tactic(auto, unfolding(crate::specs::Reach::root_section))]
    fn root_section(&mut self, graph: &Graph<'_>, i: usize)
        ensures loans { KeepsLoans self.old self.new }
        ensures walk { walk_in self.new ≡ section_rooted_in graph.now i (walk_in self.old) }
    {
        if graph.is_root(i) {
            self.save(graph, SectionId(i));
        }
    }

    fn root_symbols(&mut self, graph: &Graph<'_>)
        ensures loans { KeepsLoans self.old self.new }
        ensures walk { walk_in self.new ≡ each (symbol_rooted_in graph.now) graph.now.link.symbols 0 (walk_in self.old) }
    {
        for i in 0..graph.link.symbols {
            self.root_symbol(graph, i);
        }
    }

    fn root_sections(&mut self, graph: &Graph<'_>)
        ensures loans { KeepsLoans self.old self.new }
        ensures walk { walk_in self.new ≡ each (section_rooted_in graph.now) graph.now.link.sections 0 (walk_in self.old) }
    {
        for i in 0..graph.link.sections {
            self.root_section(graph, i);
        }
    }

    #[tactic(auto, unfolding(crate::specs::Reach::roots_of))]
    pub fn roots(&mut self, graph: &Graph<'_>, entry: Option<SymbolId>)
        ensures loans { KeepsLoans self.old self.new }
        ensures walk { walk_in self.new ≡ rooted_all_in graph.now entry (walk_in self.old) }
    {
        self.root_symbols(graph);
        self.root_sections(graph);
        if let Some(id) = entry {
            self.add(graph, id);
        }
    }

    #[tactic(auto, unfolding(crate::specs::Reach::relocation))]
    fn relocation(&mut self, graph: &Graph<'_>, j: usize)
        ensures loans { KeepsLoans self.old self.new }
        ensures walk { walk_in self.new ≡ relocated_in graph.now j (walk_in self.old) }
    {
        self.add(graph, SymbolId(cells::get(graph.lists, j) as usize));
    }

    fn relocations(&mut self, graph: &Graph<'_>, first: usize, count: usize)
        ensures loans { KeepsLoans self.old self.new }
        ensures walk { walk_in self.new ≡ relocated_all_in graph.now first count (walk_in self.old) }
    {
        for j in first..end_of(graph.link.lists, first, count) {
            self.relocation(graph, j);
        }
    }

    // What the section at that place of the queue leads to.
    #[tactic(auto, unfolding(crate::specs::Reach::visit, crate::specs::Reach::follow))]
    fn visit(&mut self, graph: &Graph<'_>, place: usize)
        requires { place ≤ graph.now.link.sections }
        ensures loans { KeepsLoans self.old self.new }
        ensures walk { walk_in self.new ≡ visited_in graph.now place (walk_in self.old) }
    {
        if place < self.queued {
            let section = self.cell(graph.link.sections + place) as usize;
            let first = cells::row_get(graph.sections, section, sections::FIRST) as usize;
            let count = cells::row_get(graph.sections, section, sections::COUNT) as usize;
            self.relocations(graph, first, count);
        }
    }

    pub fn process(&mut self, graph: &Graph<'_>)
        ensures loans { KeepsLoans self.old self.new }
        ensures walk { walk_in self.new ≡ processed_in graph.now (walk_in self.old) }
    {
        for place in 0..graph.link.sections {
            self.visit(graph, place);
        }
    }
}

// Of the sections that are reached but not built, the lowest.
#[tactic(auto, unfolding(crate::specs::Reach::walked))]
pub fn walk(graph: &Graph<'_>, entry: Option<SymbolId>, work: &mut [u64]) -> Option<SectionId>
    ensures work { work.new ≡ (walked_in graph.now entry work.old).work }
    ensures unbuilt { result ≡ (walked_in graph.now entry work.old).visitor.unbuilt }
{
    let mut walker = Walker::new(work, graph.link.sections);
    walker.roots(graph, entry);
    walker.process(graph);
    walker.unbuilt
}
