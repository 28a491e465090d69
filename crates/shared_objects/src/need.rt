// Whether a shared object is needed. The link is only read; lent cells, one for each name, take a mark for every name that an earlier library
// without this one among its dependencies has recorded, so that each symbol is judged by one lookup.
ghost use Rattle.std.specs.Prelude.{◌≡◌};
ghost use Rattle.symbol_resolution.specs.Holder.{holder_of};
ghost use Rattle.shared_objects.specs.Need.{depends_on, mark_names, lacked_by, judged_as};
ghost use Rattle.shared_objects.specs.Lists.{has_id};

use crate::{Library, Loading};
use link::Interned;
use symbol_resolution::Holder;

// The cells of an input's row, and the kind of a library.
const INPUT_KIND: usize = 0;

// Kept: the kind of an input's row, one number of the C interface's cells in each of the two crates that write it.
pub const LIBRARY: u64 = 2;

const DEPENDENCIES: usize = 2;

const DEPENDENCY_COUNT: usize = 3;

const UNDEFINED: usize = 4;

const UNDEFINED_COUNT: usize = 5;

// ---- the names that earlier libraries lack

fn has_id(part: &[u64], id: usize) -> bool
    ensures { result ≡ has_id part.now id }
{
    part.iter().any(|&name| name == id as u64)
}

// Do the dependencies hold the name, of which count are issued? None holds a name that isn't.
#[tactic(auto, unfolding(crate::specs::Need::depends_on))]
fn depends(dependencies: &[u64], id: usize, count: usize) -> bool
    ensures { result ≡ depends_on dependencies.now id count }
{
    id < count && has_id(dependencies, id)
}

fn mark_names(marks: &mut [u64], part: &[u64])
    ensures { marks.new ≡ mark_names marks.old part.now }
{
    for &name in part {
        cells::put(marks, name as usize, 1);
    }
}

impl Loading<'_> {
    ghost use Rattle.std.specs.Prelude.{◌<◌};
    ghost use Rattle.shared_objects.specs.Library.{mark_library_in, mark_all_in, wanted_name_in, symbol_wanted_in, some_wanted_in, clear_mark_in, clear_all_in, need_of_in};

    // Input k, if it is a library that doesn't depend on the one named id: the names that it records as undefined.
    #[tactic(auto, unfolding(crate::specs::Need::mark_library))]
    fn mark_library(&self, marks: &mut [u64], id: usize, k: usize)
        ensures { marks.new ≡ mark_library_in self.now id k marks.old }
    {
        if cells::row_get(self.inputs, k, INPUT_KIND) != LIBRARY {
            return;
        }
        let first = cells::row_get(self.inputs, k, DEPENDENCIES);
        let more = cells::row_get(self.inputs, k, DEPENDENCY_COUNT);
        let dependencies = cells::part_of(self.lists, first as usize, more as usize);
        if depends(dependencies, id, self.link.names) {
            return;
        }
        let from = cells::row_get(self.inputs, k, UNDEFINED);
        let len = cells::row_get(self.inputs, k, UNDEFINED_COUNT);
        mark_names(
            marks,
            cells::part_of(self.lists, from as usize, len as usize),
        );
    }

    fn mark_libraries(&self, marks: &mut [u64], id: usize)
        ensures { marks.new ≡ mark_all_in self.now id marks.old }
    {
        for k in 0..self.link.inputs {
            self.mark_library(marks, id, k);
        }
    }

    // ---- the symbols of the library

    // Does the table hold the name by a strong undefined symbol?
    fn is_lacked(&self, name: Interned) -> bool
        ensures { let s = self.now in result ≡ lacked_by s.symbols.now (holder_of s.link s.names.now s.symbols.now name) }
    {
        let symbols = &*self.symbols;
        match symbol_resolution::holder_of(self.link, self.names, symbols, name) {
            Holder::Known { id } => symbol_resolution::is_strong_undefined(symbols, id),
            Holder::Unissued | Holder::Nobody | Holder::Removed => false,
        }
    }

    // Does the table lack the name, or is it marked? Not where it isn't issued.
    #[tactic(auto, unfolding(crate::specs::Need::wanted_in))]
    fn is_wanted(&self, marks: &[u64], id: Interned) -> bool
        ensures { result ≡ wanted_name_in self.now marks.now id.0 }
    {
        id.0 < self.link.names && (cells::get(marks, id.0) == 1 || self.is_lacked(id))
    }

    // A symbol whose name is missing provides nothing.
    // Kept: a match, since the proof does not close over `is_some_and` (tried).
    #[tactic(auto, unfolding(crate::specs::Need::symbol_wanted, crate::specs::Need::name_wanted))]
    fn symbol_wanted(&self, marks: &[u64], library: &Library<'_>, i: usize) -> bool
        ensures { result ≡ symbol_wanted_in self.now marks.now library.now i }
    {
        library.provides(i)
            && match library.symbol_name(i) {
                Some(x) => self.is_wanted(marks, self.name_table().find(x)),
                None => false,
            }
    }

    fn some_wanted(&self, marks: &[u64], library: &Library<'_>) -> bool
        ensures { result ≡ some_wanted_in self.now marks.now library.now }
    {
        (0..library.symbol_count()).any(|i| self.symbol_wanted(marks, library, i))
    }

    #[tactic(auto, unfolding(crate::specs::Need::clear_mark, crate::specs::Need::clear_named))]
    fn clear_mark(&self, marks: &mut [u64], library: &Library<'_>, i: usize)
        ensures { marks.new ≡ clear_mark_in self.now library.now i marks.old }
    {
        if !library.provides(i) {
            return;
        }
        if let Some(x) = library.symbol_name(i) {
            cells::put(marks, self.name_table().find(x).0, 0);
        }
    }

    // The marks of the names that the symbols provide: no others are read, so no others have to be cleared.
    fn clear_marks(&self, marks: &mut [u64], library: &Library<'_>)
        ensures { marks.new ≡ clear_all_in self.now library.now marks.old }
    {
        for i in 0..library.symbol_count() {
            self.clear_mark(marks, library, i);
        }
    }

    // Is the library named x needed? Of the names that it provides the marks then hold which ones earlier libraries lack; other marks may be stale,
    // and are not read.
    #[tactic(auto, unfolding(crate::specs::Need::need_of, crate::specs::Need::marked_of))]
    pub(super) fn needs(&self, marks: &mut [u64], library: &Library<'_>, x: &[u8]) -> bool
        ensures { judged_as marks.new result ≡ need_of_in self.now marks.old library.now x.now }
    {
        let id = self.name_table().find(x);
        self.clear_marks(marks, library);
        self.mark_libraries(marks, id.0);
        self.some_wanted(marks, library)
    }
}
