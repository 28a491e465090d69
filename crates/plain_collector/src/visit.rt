// Sections visited by recursion: of n sections, work cell i tells whether section i was visited.
ghost use Rattle.std.specs.Prelude.{◌≡◌, ◌≤◌, None, get_or, length};
ghost use Rattle.gc_sections.specs.Each.{each};
ghost use Rattle.gc_sections.specs.Reach.{clear_cell};
ghost use Rattle.plain_collector.specs.Visit.{visited_of};
ghost use Rattle.plain_collector.specs.Graph.{marked_lead_in, root_lead_in, entry_lead_in, reached_in};

use gc_sections::{Graph, REACHED, UNREACHED};
use link::{SectionId, SymbolId};

#[tactic(auto, unfolding(crate::specs::Visit::marked_lead))]
fn marked_lead(graph: &Graph<'_>, i: usize) -> Option<SectionId>
    ensures { result ≡ marked_lead_in graph.now i }
{
    if graph.is_marked(i) {
        graph.lead(SymbolId(i))
    } else {
        None
    }
}

#[tactic(auto, unfolding(crate::specs::Visit::root_lead))]
fn root_lead(graph: &Graph<'_>, i: usize) -> Option<SectionId>
    ensures { result ≡ root_lead_in graph.now i }
{
    graph.is_root(i).then_some(SectionId(i))
}

fn entry_lead(graph: &Graph<'_>, entry: Option<SymbolId>) -> Option<SectionId>
    ensures { result ≡ entry_lead_in graph.now entry }
{
    graph.lead(entry?)
}

// The work cells; of the sections that are reached but not built, the lowest.
// Kept: that the loans stay is said by each call, since no field's type says which memory it lends.
#[derive(Drop)]
struct Visitor<'a> {
    work: &'a mut [u64],
    unbuilt: Option<SectionId>,
}

impl<'a> Visitor<'a> {
    ghost use Rattle.plain_collector.specs.Visitor.{KeepsCells, seen_in, visited_in, rooted_in};

    fn new(work: &'a mut [u64], n: usize) -> Visitor<'a>
        ensures name { result.work.ghost_name ≡ work.entry.ghost_name }
        ensures long { length result.work.now ≡ length work.old }
        ensures seen { seen_in result ≡ visited_of (each clear_cell n 0 work.old) None }
    {
        gc_sections::clear(work, n);
        Visitor {
            work,
            unbuilt: None,
        }
    }

    // Kept: as a gc_sections Walker's, of another struct; a trait for the one line would be longer.
    fn cell(&self, i: usize) -> u64
        ensures { result ≡ get_or self.now.work.now i 0 }
    {
        cells::get(self.work, i)
    }

    // A section that isn't built only lowers `unbuilt`; one that was visited is left. Any other is marked, so that fewer are unvisited, and the
    // sections that its relocations lead to are visited.
    // Kept: that a cell is lent for each section is asked by each call and no invariant, since the graph and the cells are of two structs.
    fn visit(&mut self, graph: &Graph<'_>, lead: Option<SectionId>)
        requires { graph.now.link.sections ≤ length self.old.work.now }
        ensures keeps { KeepsCells self.old self.new }
        ensures seen { seen_in self.new ≡ visited_in graph.now lead (seen_in self.old) }
    {
        if let Some(id) = lead {
            if sections::is_built(graph.sections, graph.link.sections, id) {
                if self.cell(id.0) == UNREACHED {
                    cells::put(self.work, id.0, REACHED);
                    let first = cells::row_get(graph.sections, id.0, sections::FIRST) as usize;
                    let count = cells::row_get(graph.sections, id.0, sections::COUNT) as usize;
                    for j in first..gc_sections::end_of(graph.link.lists, first, count) {
                        let symbol = SymbolId(cells::get(graph.lists, j) as usize);
                        self.visit(graph, graph.lead(symbol));
                    }
                }
            } else {
                self.unbuilt = gc_sections::lower(self.unbuilt, id);
            }
        }
    }

    // Those that are roots, by their symbols or by themselves, and the entry's.
    fn visit_roots(&mut self, graph: &Graph<'_>, entry: Option<SymbolId>)
        requires { graph.now.link.sections ≤ length self.old.work.now }
        ensures keeps { KeepsCells self.old self.new }
        ensures seen { seen_in self.new ≡ rooted_in graph.now entry (seen_in self.old) }
    {
        for symbol in 0..graph.link.symbols {
            self.visit(graph, marked_lead(graph, symbol));
        }
        for section in 0..graph.link.sections {
            self.visit(graph, root_lead(graph, section));
        }
        self.visit(graph, entry_lead(graph, entry));
    }
}

// Of the sections that are reached but not built, the lowest.
#[tactic(auto, unfolding(crate::specs::Visit::reached_of))]
pub(crate) fn reach(
    graph: &Graph<'_>,
    entry: Option<SymbolId>,
    work: &mut [u64],
) -> Option<SectionId>
    requires { graph.now.link.sections ≤ length work.old }
    ensures work { work.new ≡ (reached_in graph.now entry work.old).work }
    ensures unbuilt { result ≡ (reached_in graph.now entry work.old).unbuilt }
{
    let mut visitor = Visitor::new(work, graph.link.sections);
    visitor.visit_roots(graph, entry);
    visitor.unbuilt
}
