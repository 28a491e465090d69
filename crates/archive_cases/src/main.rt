// Small cases of archives with their answers: the start over odd indexes, the order of offers, a pass that meets a removed name, and admission.
#![tactic(auto)]

use archive_index::{Archives, Rows};
use archive_walk::{Offer, Table, Walk};
use elf_object::{DYNAMIC_SYMBOLS, NULL, PROGRAM, STRING_TABLE, SYMBOL_TABLE};
use link::{Link, Refusal, SymbolId};
use owned_table::{OwnedTable, Room};
use std::io;
use symbol::STT_NOTYPE;
use upcoming_symbol::{ElfSymbol, SHN_UNDEF, STB_GLOBAL, STB_LOCAL, STB_WEAK, STV_DEFAULT};

// Cells for five entries.
const CELLS: usize = 40;

// No byte; three; a count of 2 with one offset; a count of 2 with a last name that doesn't end.
const CUT_SHORT: [&[u8]; 4] = [
    b"",
    b"\0\0\0",
    b"\0\0\0\x02\0\0\0\x0a",
    b"\0\0\0\x02\0\0\0\x0a\0\0\0\x14a\0b",
];

// b and c, each to a member at 10 of an archive of its own; b twice; b and d, whose row was removed.
const TWO: &[u8] = b"\0\0\0\x01\0\0\0\x0ab\0\0\0\0\x01\0\0\0\x0ac\0";

const TWICE: &[u8] = b"\0\0\0\x01\0\0\0\x0ab\0\0\0\0\x01\0\0\0\x0ab\0";

const REMOVED: &[u8] = b"\0\0\0\x01\0\0\0\x0ab\0\0\0\0\x01\0\0\0\x0ad\0";

// Ends of TWO that a start refuses: seventeen; below the one before; past the slice, before an empty index; an empty index, before one that is cut
// short; a count, offsets and a name of the second that are cut short.
const WRONG_ENDS: [&[u64]; 7] = [
    &[5, 4, 3, 2, 1, 0, 90, 90, 90, 90, 90, 90, 90, 90, 90, 90, 90],
    &[10, 4],
    &[0, 10, 21],
    &[3, 3],
    &[10, 13],
    &[10, 17],
    &[10, 19],
];

// a to 10, b to 20, c to 10.
const TIED: &[u8] = b"\0\0\0\x03\0\0\0\x0a\0\0\0\x14\0\0\0\x0aa\0b\0c\0";

// Kept: archive_list's goes to another sink; they are two programs, and a library of one line would be longer.
fn print_refusal(rt: &impl Print, refusal: Refusal) -> io::Result<()> {
    println!(rt; "refused {refusal}")
}

// ---- the table

// The empty name and three others, the null symbol and three others.
const ROOM: Room = Room {
    names: 4,
    bytes: 16,
    symbols: 4,
    sections: 1,
};

// A strong reference.
const REFERENCE: ElfSymbol = ElfSymbol {
    binding: STB_GLOBAL,
    visibility: STV_DEFAULT,
    kind: STT_NOTYPE,
    section: SHN_UNDEF,
    value: 0,
    size: 0,
};

// ---- walks

// The last index that was opened, the cells that the walks are lent, whatever they held before, and the last walk.
#[derive(Drop)]
struct Archive {
    index: &'static [u8],
    cells: [u64; CELLS],
    walk: Walk,
}

impl Archive {
    fn new() -> Archive {
        Archive {
            index: b"",
            cells: [7; CELLS],
            walk: Walk::none(),
        }
    }

    fn start(&mut self, rt: &impl Print, index: &'static [u8]) -> io::Result<()> {
        let ends = [index.len() as u64];
        let archives = Archives {
            bytes: index,
            ends: &ends,
        };
        let started = Walk::start(0, archives, &mut self.cells);
        self.index = index;
        self.walk = started.unwrap_or(Walk::none());
        match started {
            Ok(walk) => println!(rt; "ready, entries {}", walk.entries),
            Err(refusal) => print_refusal(rt, refusal),
        }
    }

    fn next(&mut self, rt: &impl Print, table: &OwnedTable) -> io::Result<()> {
        let ends = [self.index.len() as u64];
        let archives = Archives {
            bytes: self.index,
            ends: &ends,
        };
        let mut rows = Rows {
            archives,
            cells: &mut self.cells,
        };
        match self.walk.next(&mut rows, lent(table)) {
            Ok(
                Offer::Member {
                    archive: _,
                    offset,
                    entry: _,
                    passes,
                },
            ) => println!(rt; "member {offset} pass {passes}"),
            Ok(Offer::Done { passes }) => println!(rt; "done {passes}"),
            Err(refusal) => print_refusal(rt, refusal),
        }
    }

    // Where there is no entry, the first pass is the last.
    fn no_entries(&mut self, rt: &impl Print, table: &OwnedTable) -> io::Result<()> {
        self.start(rt, b"\0\0\0\0")?;
        self.next(rt, table)
    }

    // Entry 1's name is undefined, entry 3's was removed: the pass isn't made.
    fn removed_name(&mut self, rt: &impl Print, table: &OwnedTable) -> io::Result<()> {
        self.start(
            rt,
            b"\0\0\0\x04\0\0\0\x0a\0\0\0\x14\0\0\0\x1e\0\0\0\x28a\0b\0e\0d\0",
        )?;
        let before = self.cells;
        self.next(rt, table)?;
        println!(rt; "passes {}", self.walk.passes)?;
        if self.cells == before {
            println!(rt; "cells as they were")?;
        }
        Ok(())
    }

    // b and c are undefined: 20 goes first.
    fn tied(&mut self, rt: &impl Print, table: &OwnedTable) -> io::Result<()> {
        self.start(rt, TIED)?;
        for _ in 0..3 {
            self.next(rt, table)?;
        }
        Ok(())
    }
}

// ---- several archives

fn lent(table: &OwnedTable) -> Table<'_> {
    Table {
        link: table.table.link,
        bytes: &table.bytes,
        names: &table.names,
        symbols: &table.symbols,
    }
}

// A start over some archives' indexes; then so many calls for the next member, which are lent the same bytes and these ends.
fn walk_several(
    rt: &impl Print,
    table: &OwnedTable,
    archives: Archives<'_>,
    ends: &[u64],
    calls: usize,
) -> io::Result<()> {
    let mut cells = [7; CELLS];
    let mut walk = match Walk::start(0, archives, &mut cells) {
        Ok(walk) => walk,
        Err(refusal) => return print_refusal(rt, refusal),
    };
    println!(rt; "ready, entries {}", walk.entries)?;
    for _ in 0..calls {
        let mut rows = Rows {
            archives: Archives {
                bytes: archives.bytes,
                ends,
            },
            cells: &mut cells,
        };
        match walk.next(&mut rows, lent(table)) {
            Ok(
                Offer::Member {
                    archive,
                    offset,
                    entry: _,
                    passes,
                },
            ) => println!(rt; "archive {archive} member {offset} pass {passes}")?,
            Ok(Offer::Done { passes }) => println!(rt; "done {passes}")?,
            Err(refusal) => print_refusal(rt, refusal)?,
        }
    }
    Ok(())
}

fn several(rt: &impl Print, table: &OwnedTable) -> io::Result<()> {
    for ends in WRONG_ENDS {
        let bytes = TWO;
        walk_several(rt, table, Archives { bytes, ends }, ends, 1)?;
    }
    let ends = &[10, 20];
    for bytes in [TWO, TWICE, REMOVED] {
        walk_several(rt, table, Archives { bytes, ends }, ends, 3)?;
    }
    // Fewer ends than the start's, then none.
    let bytes = TWICE;
    walk_several(rt, table, Archives { bytes, ends }, &[10], 1)?;
    walk_several(rt, table, Archives { bytes, ends }, &[], 1)?;
    // No archive.
    walk_several(rt, table, Archives { bytes, ends: &[] }, &[], 2)
}

// An index of 65,534 entries without names, and one of `more` behind it: the rows are too few for 65,535 entries, and 65,536 are too many.
fn many(rt: &(impl Print + AllocGlobal), table: &OwnedTable, more: u8) -> io::Result<()> {
    let first = 4 + 5 * 65534;
    let mut bytes = vec![in rt.alloc(); 0; 327_700]?;
    bytes[2] = 0xff;
    bytes[3] = 0xfe;
    bytes[first + 3] = more;
    let ends = [first as u64, (first + 4 + 5 * more as usize) as u64];
    walk_several(
        rt,
        table,
        Archives {
            bytes: &bytes,
            ends: &ends,
        },
        &ends,
        0,
    )
}

// ---- admission

// An object of a symbol table of that kind and its string table, both with these flags, with one symbol, for the member that an entry offered. Entry 1
// asks for b, by which the member at 20 was offered.
#[derive(Clone, Copy)]
struct Asked {
    what: &'static str,
    gabi: bool,
    table: u64,
    strings: u64,
    flags: u64,
    name: u64,
    binding: u64,
    section: u64,
    entry: usize,
    cells: usize,
}

const STRONG: Asked = Asked {
    what: "strong definition",
    gabi: false,
    table: SYMBOL_TABLE,
    strings: STRING_TABLE,
    flags: 0,
    name: 1,
    binding: STB_GLOBAL,
    section: 1,
    entry: 1,
    cells: CELLS,
};

const GABI: Asked = Asked {
    what: "gABI, strong definition",
    gabi: true,
    ..STRONG
};

// In the gABI's profile "a weak or global definition, and nothing else, admits one."
const ADMISSIONS: [Asked; 19] = [
    STRONG,
    Asked {
        what: "weak definition",
        binding: STB_WEAK,
        ..STRONG
    },
    Asked {
        what: "local definition",
        binding: STB_LOCAL,
        ..STRONG
    },
    Asked {
        what: "strong reference",
        section: SHN_UNDEF,
        ..STRONG
    },
    Asked {
        what: "another name",
        name: 3,
        ..STRONG
    },
    Asked {
        what: "missing name",
        name: 9,
        ..STRONG
    },
    Asked {
        what: "excluded sections",
        flags: 1,
        ..STRONG
    },
    Asked {
        what: "dynamic symbol table",
        table: DYNAMIC_SYMBOLS,
        ..STRONG
    },
    Asked {
        what: "names in no string table",
        strings: PROGRAM,
        ..STRONG
    },
    Asked {
        what: "binding 3",
        binding: 3,
        ..STRONG
    },
    Asked {
        what: "binding 16",
        binding: 16,
        ..STRONG
    },
    Asked {
        what: "an entry that isn't there",
        entry: 3,
        ..STRONG
    },
    Asked {
        what: "cells cut short",
        cells: 16,
        ..STRONG
    },
    GABI,
    Asked {
        what: "gABI, weak definition",
        binding: STB_WEAK,
        ..GABI
    },
    Asked {
        what: "gABI, local definition",
        binding: STB_LOCAL,
        ..GABI
    },
    Asked {
        what: "gABI, strong reference",
        section: SHN_UNDEF,
        ..GABI
    },
    Asked {
        what: "gABI, weak reference",
        binding: STB_WEAK,
        section: SHN_UNDEF,
        ..GABI
    },
    Asked {
        what: "gABI, another name",
        name: 3,
        ..GABI
    },
];

impl Asked {
    fn admit(&self, link: Link, cells: &[u64]) -> Result<bool, Refusal> {
        // Of each section: kind, name, flags, link, info, and of its contents the first and how many.
        let headers = [
            [NULL, 0, 0, 0, 0, 0, 0, 0],
            [self.table, 0, self.flags, 2, 0, 0, 1, 0],
            [self.strings, 0, self.flags, 0, 0, 0, 5, 0],
        ];
        let entries = [self.name, self.binding, 0, 0, self.section, 0, 0, 0];
        let walk = Walk {
            key: 0,
            entries: 3,
            length: TIED.len(),
            passes: 1,
            queued: 2,
            offered: 1,
            done: false,
        };
        object_requirement::matches(
            Link {
                gabi: self.gabi,
                ..link
            },
            headers.as_flattened(),
            &entries,
            &[0],
            b"\0b\0z\0",
            walk,
            TIED,
            cells::part_of(cells, 0, self.cells),
            self.entry,
        )
    }
}

fn admissions(rt: &impl Print, link: Link, cells: &[u64]) -> io::Result<()> {
    for asked in &ADMISSIONS {
        print!(rt; "{}: ", asked.what)?;
        match asked.admit(link, cells) {
            Ok(true) => println!(rt; "yes")?,
            Ok(false) => println!(rt; "no")?,
            Err(refusal) => print_refusal(rt, refusal)?,
        }
    }
    Ok(())
}

// b and c are undefined, d was removed.
fn referred<R: Print + AllocGlobal>(rt: &R) -> io::Result<OwnedTable> {
    let mut table = OwnedTable::new(rt.alloc(), ROOM)?;
    for name in [b"b", b"c", b"d"] {
        if let Err(refusal) = table.add_elf(&[0], name, REFERENCE) {
            print_refusal(rt, refusal)?;
        }
    }
    let _ = table.remove(SymbolId(3));
    Ok(table)
}

fn main(rt: HostRuntime) -> io::Result<()> {
    let table = referred(&rt)?;
    let mut archive = Archive::new();
    for index in CUT_SHORT {
        archive.start(&rt, index)?;
    }
    archive.no_entries(&rt, &table)?;
    archive.removed_name(&rt, &table)?;
    archive.tied(&rt, &table)?;
    several(&rt, &table)?;
    many(&rt, &table, 1)?;
    many(&rt, &table, 2)?;
    admissions(&rt, table.table.link, &archive.cells)
}
