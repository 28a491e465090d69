// What a collection reads: where symbols lead, and which sections are roots.
ghost use Rattle.std.specs.Prelude.{◌≡◌, ◌≤◌};
ghost use Rattle.gc_sections.specs.Roots.{value_lead, lead_of, readable, rooted, is_root, name_is};
ghost use Rattle.gc_sections.specs.Reach.{end_of};

use link::{Interned, Link, SectionId, SymbolId};

// The rows of a link and the caller's marks: a byte for each symbol, nonzero a root.
#[derive(Clone, Copy)]
pub struct Graph<'a> {
    pub link: Link,
    pub bytes: &'a [u8],
    pub names: &'a [u64],
    pub symbols: &'a [u64],
    pub sections: &'a [u64],
    pub lists: &'a [u64],
    pub marks: &'a [u8],
    ghost few: { link.sections ≤ 65535 },
}

// The section that a symbol's value lies in.
#[tactic(auto, unfolding(crate::specs::Roots::value_lead))]
fn value_lead(kind: u64, a: u64) -> Option<SectionId>
    ensures { result ≡ value_lead kind a }
{
    match kind {
        symbol::KIND_SECTION | symbol::KIND_RELATIVE | symbol::KIND_ADDRESS => {
            Some(SectionId(a as usize))
        }
        _ => None,
    }
}

// The section that a symbol of a table of that many rows leads to: removed or absent ones lead nowhere.
#[tactic(auto, unfolding(crate::specs::Roots::lead_of))]
pub fn lead_of(symbols: &[u64], count: usize, id: SymbolId) -> Option<SectionId>
    ensures { result ≡ lead_of symbols.now count id }
{
    if count <= id.0 || cells::row_get(symbols, id.0, symbol::CELL_STATE) == symbol::REMOVED {
        return None;
    }
    value_lead(
        cells::row_get(symbols, id.0, symbol::CELL_KIND),
        cells::row_get(symbols, id.0, symbol::CELL_FIRST),
    )
}

// Is it a readable program or uninitialized section?
#[tactic(auto, unfolding(crate::specs::Roots::readable))]
fn readable(sections: &[u64], i: usize) -> bool
    ensures { result ≡ readable sections.now i }
{
    cells::row_get(sections, i, sections::READ) != 0
        && matches!(
            cells::row_get(sections, i, sections::KIND),
            sections::PROGRAM | sections::UNINITIALIZED
        )
}

// Has the section that name?
// Kept: slices one by one, as the public `is_root` below has them.
#[tactic(auto, unfolding(crate::specs::Roots::name_is))]
fn name_is(bytes: &[u8], names: &[u64], sections: &[u64], i: usize, name: &[u8]) -> bool
    ensures { result ≡ name_is bytes.now names.now sections.now i name.now }
{
    let id = Interned(cells::row_get(sections, i, sections::NAME) as usize);
    byte_slices::same_bytes(interner::name_of(bytes, names, id), name)
}

#[tactic(auto, unfolding(crate::specs::Roots::rooted))]
fn is_rooted(bytes: &[u8], names: &[u64], sections: &[u64], i: usize) -> bool
    ensures { result ≡ rooted bytes.now names.now sections.now i }
{
    !readable(sections, i)
        || cells::row_get(sections, i, sections::RETAIN) != 0
        || name_is(bytes, names, sections, i, b".eh_frame")
}

// Of the first n sections: is it built, and a root by itself?
// Kept: slices one by one, since a Graph has a link of at most 65,535 sections, and this asks nothing of n.
#[tactic(auto, unfolding(crate::specs::Roots::is_root))]
pub fn is_root(bytes: &[u8], names: &[u64], sections: &[u64], n: usize, i: usize) -> bool
    ensures { result ≡ is_root bytes.now names.now sections.now n i }
{
    sections::is_built(sections, n, SectionId(i)) && is_rooted(bytes, names, sections, i)
}

impl Graph<'_> {
    ghost use Rattle.gc_sections.specs.Graph.{root_in, lead_in, marked_in};

    pub fn is_root(&self, i: usize) -> bool
        ensures { result ≡ root_in self.now i }
    {
        is_root(self.bytes, self.names, self.sections, self.link.sections, i)
    }

    pub fn lead(&self, id: SymbolId) -> Option<SectionId>
        ensures { result ≡ lead_in self.now id }
    {
        lead_of(self.symbols, self.link.symbols, id)
    }

    // Did the caller mark the symbol as a root?
    pub fn is_marked(&self, i: usize) -> bool
        ensures { result ≡ marked_in self.now i }
    {
        i < self.marks.len() && self.marks[i] != 0
    }
}
