// The tables that are read of a file.
ghost use Rattle.std.specs.Prelude.{◌≡◌, ◌<◌};
ghost use Rattle.elf_file.specs.Table.{typed, type_of};
ghost use Rattle.elf_file.specs.Check.{entry_size, entries_ok};

// A section with entries, by its sh_type: symbols, bytes of strings, relocations with and without an addend, words of a group.
#[derive(Clone, Copy, Debug, PartialEq, Eq)]
pub enum Table {
    Symbols,
    Strings,
    Rela,
    Rel,
    Group,
}

impl Table {
    #[tactic(auto, unfolding(crate::specs::Table::typed))]
    pub fn of_type(kind: u64) -> Option<Table>
        ensures { result ≡ typed kind }
    {
        match kind {
            crate::SHT_SYMTAB => Some(Table::Symbols),
            crate::SHT_STRTAB => Some(Table::Strings),
            crate::SHT_RELA => Some(Table::Rela),
            crate::SHT_REL => Some(Table::Rel),
            crate::SHT_GROUP => Some(Table::Group),
            _ => None,
        }
    }

    #[tactic(auto, unfolding(crate::specs::Check::entry_size))]
    fn entry_size(self) -> u64
        ensures value { result ≡ entry_size (type_of self) }
        ensures some { 0 < result }
    {
        match self {
            Table::Symbols => crate::SYM_BYTES,
            Table::Strings => 1,
            Table::Rela => crate::RELA_BYTES,
            Table::Rel => crate::REL_BYTES,
            Table::Group => crate::WORD_BYTES,
        }
    }

    // Are that many bytes whole entries, of a group at least its flags?
    #[tactic(auto, unfolding(crate::specs::Check::entries_ok))]
    pub fn has_whole_entries(self, size: u64) -> bool
        ensures { result ≡ entries_ok (type_of self) size (entry_size (type_of self)) }
    {
        size % self.entry_size() == 0 && (size > 0 || self != Table::Group)
    }
}
