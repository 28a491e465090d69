// A symbol table that owns the cells which the link's calls are lent, for the programs.
#![tactic(auto)]

ghost use Rattle.std.specs.Prelude.{◌≡◌, ◌*◌, ◌<◌, IfOk, replicate};
ghost use Rattle.interner.specs.Names.{store_of};
ghost use Rattle.interner.specs.Calls as Names;
ghost use Rattle.symbol_resolution.specs.Apply.{table_of};
ghost use Rattle.symbols.specs.Add.{add_of};
ghost use Rattle.symbols.specs.Calls as Calls;

use interner::NamesMut;
use link::{Interned, Link, Refusal, SymbolId};
use std::alloc::{AllocError, Global};
use symbol_resolution::Table;
use symbols::Symbols;
use upcoming_symbol::{ElfSymbol, UpcomingSymbol};

// Cells of a symbol's row.
const SYMBOL_CELLS: usize = 8;

// How many rows of names and of symbols a table has, how many bytes of names, and how many sections.
#[derive(Clone, Copy)]
pub struct Room {
    pub names: u32,
    pub bytes: usize,
    pub symbols: u32,
    pub sections: u32,
}

#[derive(Drop)]
pub struct OwnedTable {
    pub table: Symbols,
    pub bytes: Vec<u8>,
    pub names: Vec<u64>,
    pub symbols: Vec<u64>,
    pub sections: Vec<u64>,
}

fn zeros(alloc: Global, rows: u32, width: usize) -> Result<Vec<u64>, AllocError>
    requires { width < 16 }
    ensures { IfOk result (λ v. v.items ≡ replicate (rows * width) 0) }
{
    vec![in alloc; 0; rows as usize * width]
}

// The calls over parts of several Vecs.
// Kept: the structs that they take are made here, of slices: made where the Vecs lend them, the proof of the clause doesn't see what is written
// back into the Vecs (tried).
fn intern(
    link: &mut Link,
    bytes: &mut [u8],
    cells: &mut [u64],
    name: &[u8],
) -> Result<Interned, Refusal>
    ensures { Names.left (store_of bytes.new cells.new link.new) (Names.said result) ≡ Names.intern_of (store_of bytes.old cells.old link.old) name.now }
{
    let mut names = NamesMut {
        link: *link,
        bytes,
        cells,
    };
    let answer = names.intern(name);
    *link = names.link;
    answer
}

fn add(
    link: &mut Link,
    names: &mut [u64],
    symbols: &mut [u64],
    sections: &mut [u64],
    conversion: &[u64],
    upcoming: UpcomingSymbol,
) -> Result<SymbolId, Refusal>
    ensures { Calls.left (table_of names.new symbols.new sections.new link.new) (Calls.said result)
        ≡ add_of (table_of names.old symbols.old sections.old link.old) conversion.now upcoming }
{
    let mut table = Table {
        link: *link,
        names,
        symbols,
        sections,
    };
    let answer = symbols::add(&mut table, conversion, upcoming);
    *link = table.link;
    answer
}

impl OwnedTable {
    ghost use Rattle.owned_table.specs.Owned.{names_of, cells_of, rows_of, IsNew, Restarts, Interns, Adds, AddsElf, Removes};

    // A new table in the old profile, under the fair key 0, over cells that hold 0.
    pub fn new(alloc: Global, room: Room) -> Result<OwnedTable, AllocError>
        ensures { IfOk result (IsNew room) }
    {
        // Kept: no table yet is a link without rows and no Option: a call on it is judged as on any link.
        let mut owned = OwnedTable {
            table: Symbols {
                link: Link::no_names(0, 0),
            },
            bytes: vec![in alloc; 0; room.bytes]?,
            names: zeros(alloc, room.names, link::NAME_CELLS)?,
            symbols: zeros(alloc, room.symbols, SYMBOL_CELLS)?,
            sections: zeros(alloc, room.sections, link::SECTION_CELLS)?,
        };
        // Nothing is lost: it is refused only without a row of names or of symbols; the table stays empty then, and add_elf has no room.
        let _ = owned.restart();
        Ok(owned)
    }

    // A new table over the same cells, whatever they hold.
    pub fn restart(&mut self) -> Result<SymbolId, Refusal>
        ensures { Restarts self.old self.new result }
    {
        let made = Symbols::new(
            0,
            false,
            &mut self.bytes,
            &mut self.names,
            &mut self.symbols,
            &mut self.sections,
        );
        self.table = made.unwrap_or(Symbols {
            link: Link::no_names(0, 0),
        });
        made.map(|_| Symbols::NULL_SYMBOL_ID)
    }

    pub fn intern(&mut self, name: &[u8]) -> Result<Interned, Refusal>
        ensures { Interns self.old name.now self.new result }
    {
        let link = &mut self.table.link;
        intern(link, &mut self.bytes, &mut self.names, name)
    }

    // Lent the conversion of its section numbers.
    pub fn add(&mut self, conversion: &[u64], upcoming: UpcomingSymbol) -> Result<SymbolId, Refusal>
        ensures { Adds self.old conversion.now upcoming self.new result }
    {
        add(
            &mut self.table.link,
            &mut self.names,
            &mut self.symbols,
            &mut self.sections,
            conversion,
            upcoming,
        )
    }

    // A symbol of an object, by its name's bytes: a name that is refused isn't added.
    pub fn add_elf(
        &mut self,
        conversion: &[u64],
        name: &[u8],
        elf: ElfSymbol,
    ) -> Result<SymbolId, Refusal>
        ensures { AddsElf self.old conversion.now name.now elf self.new result }
    {
        let upcoming = UpcomingSymbol::Elf {
            elf,
            name: self.intern(name)?,
            file: None,
        };
        self.add(conversion, upcoming)
    }

    pub fn remove(&mut self, id: SymbolId) -> Result<SymbolId, Refusal>
        ensures { Removes self.old id self.new result }
    {
        symbols::remove(self.table, &mut self.symbols, &mut self.sections, id)
    }
}

#[cfg(test)]
mod tests {
    use super::*;
    use link::Cause;
    use std::test::Fail;
    use symbol::STT_NOTYPE;
    use upcoming_symbol::{SHN_UNDEF, STB_GLOBAL, STV_DEFAULT};

    #[test]
    fn adds_and_removes(rt: HostRuntime) -> Result<(), Fail> {
        let room = Room {
            names: 2,
            bytes: 4,
            symbols: 2,
            sections: 1,
        };
        let mut owned = OwnedTable::new(rt.alloc(), room)?;
        let reference = ElfSymbol {
            binding: STB_GLOBAL,
            visibility: STV_DEFAULT,
            kind: STT_NOTYPE,
            section: SHN_UNDEF,
            value: 0,
            size: 0,
        };
        let added = owned.add_elf(&[0], b"mute", reference);
        assert!(rt; added.is_ok_and(|id| id.0 == 1));
        assert_eq!(rt; owned.table.link.symbols, 2);
        let refused = owned.add_elf(&[0], b"clear", reference);
        assert!(rt; refused.is_err_and(|refusal| refusal.is(Cause::NoRoom)));
        assert!(rt; owned.remove(SymbolId(1)).is_ok());
        assert!(rt; owned.restart().is_ok());
        assert_eq!(rt; owned.table.link.symbols, 1);
        Ok(())
    }
}
