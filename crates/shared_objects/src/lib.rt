// The load of a shared object into a link: 22, 1, 25; under as-needed whether it is needed; then its name, symbols, dependencies and its row.
// A library is given by the entries of its symbol table (rows of 8 cells, as an object's), its string table `file`, the offsets `needs` of its
// dependencies' names, its soname's offset, if it has one, and the library name `path`, unless it lies in an archive.
#![tactic(auto)]

ghost use Rattle.std.specs.Prelude.{◌≡◌, ◌≢◌, ◌-◌, IfErr, Option};
ghost use Rattle.shared_objects.specs.Need.{judged_as};
ghost use Rattle.shared_objects.specs.Lent.{same_loans, same_rows, same_names};
ghost use Rattle.shared_objects.specs.Stages.{input_after, library_row_of, lists_of, contents_in, links_after, links_before, lists_after, lists_before, loaded_in};
ghost use Rattle.shared_objects.specs.Load.{cells_in, left, library_in, load_of};
ghost use Rattle.shared_objects.specs.LoadIn.{all_in, input_in, lent_in, named_of_in, want_of_in};
ghost use Rattle.shared_objects.specs.Contract.{LoadMeets};

mod checks;
mod lists;
mod names;
mod need;
mod symbols;

use link::{Cause, Interned, Lent, Link, Refusal};

// A library as it is lent: the entries of its symbol table (rows of 8 cells, as an object's), its string table, the offsets of its dependencies'
// names, the library name, unless it lies in an archive, and its soname's offset, if it has one.
#[derive(Clone, Copy)]
pub struct Library<'a> {
    pub entries: &'a [u64],
    pub file: &'a [u8],
    pub needs: &'a [u64],
    pub path: &'a [u8],
    // Kept: flag and path, as C lends them and the definitions read both.
    pub archived: bool,
    pub soname: Option<usize>,
    pub as_needed: bool,
}

// What a load writes: the tables of a link.
// Kept: that the loans stay is said by each call, since no field's type says which memory it lends.
#[derive(Drop)]
pub struct Loading<'a> {
    pub link: Link,
    pub bytes: &'a mut [u8],
    pub names: &'a mut [u64],
    pub symbols: &'a mut [u64],
    pub sections: &'a mut [u64],
    pub inputs: &'a mut [u64],
    pub lists: &'a mut [u64],
}

#[derive(Clone, Copy)]
pub enum Load {
    Loaded,
    NotNeeded,
}

// Kept: the link comes and goes by value, as the cells of C's header hold it, beside an answer that is a Result; a type for each call, as the laws
// read its own.
#[derive(Clone, Copy)]
pub struct Outcome {
    pub link: Link,
    pub answer: Result<Load, Refusal>,
}

// ---- what is loaded

impl Loading<'_> {
    // The library's own row, taken last: its name, and where its dependencies and its undefined names lie in the lists. These start at `first`,
    // those at `middle`.
    #[tactic(auto, unfolding(crate::specs::Stages::library_row_of))]
    fn take_input(&mut self, id: Interned, first: usize, middle: usize) -> Result<(), Refusal>
        ensures loans { same_loans self.old self.new }
        ensures rows { same_rows self.old self.new }
        ensures names { same_names self.old self.new }
        ensures lists { self.new.lists.now ≡ self.old.lists.now }
        ensures value { input_after self.new result ≡ library_row_of self.old.inputs.now self.old.link id first middle }
        ensures numbered { IfErr result (λ r. r.number ≢ 0) }
    {
        let n = self.link.inputs;
        if link::input_rows(self.inputs.len()) <= n {
            return Err(Refusal::new(Cause::NoRoom, 0));
        }
        let dependencies = self.link.lists.saturating_sub(middle);
        let undefined = middle.saturating_sub(first);
        cells::row_store(
            self.inputs,
            n,
            [
                need::LIBRARY,
                id.0 as u64,
                middle as u64,
                dependencies as u64,
                first as u64,
                undefined as u64,
                0,
                0,
            ],
        );
        self.link.inputs = n + 1;
        Ok(())
    }

    // After the symbols, whose undefined names start at `first`: the dependencies, then the library's row.
    #[tactic(auto, unfolding(crate::specs::Stages::lists_of, crate::specs::Stages::input_stage))]
    fn load_lists(
        &mut self,
        library: &Library<'_>,
        id: Interned,
        first: usize,
    ) -> Result<(), Refusal>
        ensures loans { same_loans self.old self.new }
        ensures rows { same_rows self.old self.new }
        ensures value { lists_after self.new result ≡ lists_of library.now.file.now library.now.needs.now (lists_before self.old) id first }
        ensures numbered { IfErr result (λ r. r.number ≢ 0) }
    {
        let middle = self.link.lists;
        self.record_dependencies(library)?;
        self.take_input(id, first, middle)
    }

    // The symbols, then the rest, of the library whose name has this id.
    #[tactic(auto, unfolding(crate::specs::Stages::contents_of, crate::specs::Stages::list_stage))]
    fn load_contents(&mut self, library: &Library<'_>, id: Interned) -> Result<(), Refusal>
        ensures loans { same_loans self.old self.new }
        ensures value { links_after self.new result ≡ contents_in library.now (links_before self.old) id }
        ensures numbered { IfErr result (λ r. r.number ≢ 0) }
    {
        let first = self.link.lists;
        self.load_symbols(library)?;
        self.load_lists(library, id, first)
    }

    // The library's name x, then its contents.
    #[tactic(auto, unfolding(crate::specs::Stages::library_of, crate::specs::Stages::issued_of, crate::specs::Stages::kept_of, interner::specs::Names::find_of))]
    fn load_library(&mut self, library: &Library<'_>, x: &[u8]) -> Result<(), Refusal>
        ensures loans { same_loans self.old self.new }
        ensures value { links_after self.new result ≡ loaded_in library.now (links_before self.old) x.now }
        ensures numbered { IfErr result (λ r. r.number ≢ 0) }
    {
        let head = self.name_table().head(x);
        let id = self.name_table().find_from(head, x);
        if !self.name_table().fits(id, x.len()) {
            return Err(Refusal::new(Cause::NoRoom, 0));
        }
        self.keep(id, head, x);
        self.load_contents(library, id)
    }

    // ---- the call

    // Without as-needed every library is wanted, and the marks stay.
    #[tactic(auto, unfolding(crate::specs::Load::want_of))]
    fn wants(&self, marks: &mut [u64], library: &Library<'_>, x: &[u8]) -> bool
        ensures { judged_as marks.new result ≡ want_of_in self.now marks.old library.now x.now }
    {
        !library.as_needed || self.needs(marks, library, x)
    }

    // After the head: the library named x, if it is wanted. A refusal inside it breaks the link.
    #[tactic(auto, unfolding(crate::specs::Load::library_named, crate::specs::Load::wanted_of, crate::specs::Load::ended_as))]
    fn load_named(
        &mut self,
        marks: &mut [u64],
        library: &Library<'_>,
        x: &[u8],
    ) -> Result<Load, Refusal>
        ensures loans { same_loans self.old self.new }
        ensures value { left (all_in self.new marks.new) result ≡ named_of_in library.now (all_in self.old marks.old) x.now }
    {
        if !self.wants(marks, library, x) {
            return Ok(Load::NotNeeded);
        }
        match self.load_library(library, x) {
            Ok(()) => Ok(Load::Loaded),
            Err(refusal) => {
                self.link.broken = true;
                Err(refusal)
            }
        }
    }

    fn lent(&self) -> Lent
        ensures { result ≡ lent_in self.now }
    {
        Lent {
            names: self.names.len() / link::NAME_CELLS,
            bytes: self.bytes.len(),
            symbols: self.symbols.len(),
            sections: self.sections.len() / link::SECTION_CELLS,
            inputs: self.inputs.len(),
            lists: self.lists.len(),
        }
    }

    // Loads the library, or answers that it isn't needed, which changes nothing but the marks.
    #[tactic(auto, unfolding(crate::specs::Load::load_of, link::specs::Judge::judged))]
    pub fn load(&mut self, marks: &mut [u64], library: &Library<'_>) -> Result<Load, Refusal>
        ensures loans { same_loans self.old self.new }
        ensures value { left (all_in self.new marks.new) result ≡ load_of (input_in library.now) (all_in self.old marks.old) }
    {
        library.check(self.link, self.lent(), marks.len())?;
        self.load_named(marks, library, library.name())
    }
}

// The same of loose slices.
// Kept: slices one by one, and flags with their values, as the exported call (hidvorn) has them.
#[tactic(auto, unfolding(crate::specs::Load::load_of, crate::specs::Head::check_of, crate::specs::Head::after_rows, crate::specs::Head::rows_of, crate::specs::Head::soname_missing, crate::specs::Need::library_name))]
pub fn load_shared_object<'a>(
    l: Link,
    bytes: &mut [u8],
    names: &mut [u64],
    symbols: &mut [u64],
    sections: &mut [u64],
    inputs: &mut [u64],
    lists: &mut [u64],
    marks: &mut [u64],
    entries: &[u64],
    file: &'a [u8],
    needs: &[u64],
    path: &'a [u8],
    archived: bool,
    sonamed: bool,
    soname: usize,
    asneeded: bool,
) -> Outcome
    ensures { LoadMeets (library_in entries file needs path archived sonamed soname asneeded) (cells_in bytes names symbols sections inputs lists marks) l result }
{
    let library = Library {
        entries,
        file,
        needs,
        path,
        archived,
        soname: sonamed.then_some(soname),
        as_needed: asneeded,
    };
    let mut loading = Loading {
        link: l,
        bytes,
        names,
        symbols,
        sections,
        inputs,
        lists,
    };
    let answer = loading.load(marks, &library);
    Outcome {
        link: loading.link,
        answer,
    }
}
