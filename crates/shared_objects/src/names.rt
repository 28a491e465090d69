// What is read of a library: its names and its symbols.
ghost use Rattle.std.specs.Prelude.{◌≡◌};
ghost use Rattle.strings.specs.Contract.{string_exit};
ghost use Rattle.elf_object.specs.Rows.{rows_in};

use crate::Library;

impl<'a> Library<'a> {
    ghost use Rattle.shared_objects.specs.Library.{library_name_in, name_at_in, provides_in, NameMeets};

    // The name at an offset, the empty one where there is none.
    pub(super) fn name_at(&self, offset: usize) -> &'a [u8]
        ensures { result.now ≡ name_at_in self.now offset }
    {
        strings::get(self.file, offset).unwrap_or(&self.file[..0])
    }

    // The soname, else the library name.
    #[tactic(auto, unfolding(crate::specs::Need::library_name))]
    pub(super) fn name(&self) -> &'a [u8]
        ensures { result.now ≡ library_name_in self.now }
    {
        match self.soname {
            Some(offset) => self.name_at(offset),
            None => self.path,
        }
    }

    // Kept: as an object's; a library is no object, as it has no headers.
    pub(super) fn symbol_count(&self) -> usize
        ensures { result ≡ rows_in self.now.entries.now }
    {
        self.entries.len() / elf_object::ROW_WIDTH
    }

    // The name of symbol i, if there is one.
    pub(super) fn symbol_name(&self, i: usize) -> Option<&'a [u8]>
        ensures { NameMeets self.now i (string_exit result) }
    {
        let offset = cells::row_get(self.entries, i, elf_object::ENTRY_NAME) as usize;
        strings::get(self.file, offset)
    }

    // Is symbol i defined, global or weak?
    #[tactic(auto, unfolding(crate::specs::Need::provides))]
    pub(super) fn provides(&self, i: usize) -> bool
        ensures { result ≡ provides_in self.now i }
    {
        cells::row_get(self.entries, i, elf_object::ENTRY_SECTION) != upcoming_symbol::SHN_UNDEF
            && matches!(
                cells::row_get(self.entries, i, elf_object::ENTRY_BINDING),
                upcoming_symbol::STB_GLOBAL | upcoming_symbol::STB_WEAK
            )
    }
}
