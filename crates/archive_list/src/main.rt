// The entries of an archive's index, then the members that a walk over it offers where one name is undefined and nothing is defined since.
//
// It reads the bytes of the index member from standard input, and takes the name as its argument. It lends rows for 8,192 entries; of an index over
// 65,536 bytes the rest isn't read. Its status is 1 where the index is refused.
#![tactic(auto)]

use archive_index::Archives;
use archive_walk::{Offer, Walk};
use link::Refusal;
use owned_table::{OwnedTable, Room};
use std::alloc::Global;
use std::io::{self, Read, Write};
use std::process::ExitCode;
use std::rt::Env;
use symbol::STT_NOTYPE;
use upcoming_symbol::{ElfSymbol, SHN_UNDEF, STB_GLOBAL, STV_DEFAULT};

const MOST_BYTES: u64 = 65_536;

// The most bytes of the argument, and of names.
const NAME_BYTES: usize = 4096;

const CELLS: usize = 65_536;

// One name, the empty one, and their symbols.
const ROOM: Room = Room {
    names: 2,
    bytes: NAME_BYTES,
    symbols: 2,
    sections: 1,
};

// A strong reference.
// Kept: as archive_cases'; they are two programs.
const REFERENCE: ElfSymbol = ElfSymbol {
    binding: STB_GLOBAL,
    visibility: STV_DEFAULT,
    kind: STT_NOTYPE,
    section: SHN_UNDEF,
    value: 0,
    size: 0,
};

// Kept: archive_cases' goes to another sink; they are two programs, and a library of one line would be longer.
fn print_refusal(out: &mut impl Write, refusal: Refusal) -> io::Result<()> {
    writeln!(out, "refused {refusal}")
}

// ---- the entries and the walk

// An index, the cells that its walk is lent, and the walk.
#[derive(Drop)]
struct Archive {
    index: Vec<u8>,
    cells: Vec<u64>,
    walk: Walk,
}

impl Archive {
    fn print_entries(&self, out: &mut impl Write) -> io::Result<()> {
        writeln!(out, "entry offset name")?;
        for k in 0..self.walk.entries {
            write!(out, "{k} {} ", archive_index::offset(&self.index, k))?;
            out.write_all(archive_index::name(&self.index, &self.cells, k))?;
            writeln!(out, "")?;
        }
        Ok(())
    }

    // The next offer, which is printed.
    fn step(&mut self, out: &mut impl Write, table: &OwnedTable) -> io::Result<()> {
        let entries = self.walk.entries;
        let offer = pending_archive::next(
            &mut self.walk,
            &self.index,
            &[self.index.len() as u64],
            &mut self.cells,
            table.table.link,
            &table.bytes,
            &table.names,
            &table.symbols,
        );
        match offer {
            Ok(
                Offer::Member {
                    archive: _,
                    offset,
                    entry,
                    passes,
                },
            ) => {
                write!(out, "{passes} {entry} {offset} ")?;
                out.write_all(archive_reader::entry_name(&self.index, entries, entry))?;
                writeln!(out, "")
            }
            Ok(Offer::Done { passes }) => writeln!(out, "done {passes}"),
            Err(refusal) => print_refusal(out, refusal),
        }
    }

    // Each entry offers a member at most, and one call says "done".
    fn print_walk(&mut self, out: &mut impl Write, table: &OwnedTable) -> io::Result<()> {
        writeln!(out, "pass entry offset name")?;
        for _ in 0..=self.walk.entries {
            if self.walk.done {
                break;
            }
            self.step(out, table)?;
        }
        Ok(())
    }
}

fn list(
    alloc: Global,
    out: &mut impl Write,
    index: Vec<u8>,
    table: &OwnedTable,
) -> io::Result<ExitCode> {
    let mut cells = vec![in alloc; 0; CELLS]?;
    let ends = [index.len() as u64];
    let archives = Archives {
        bytes: &index,
        ends: &ends,
    };
    match Walk::start(0, archives, &mut cells) {
        Ok(walk) => {
            let mut archive = Archive { index, cells, walk };
            archive.print_entries(out)?;
            archive.print_walk(out, table)?;
            Ok(ExitCode::SUCCESS)
        }
        Err(refusal) => {
            print_refusal(out, refusal)?;
            Ok(ExitCode::FAILURE)
        }
    }
}

fn main(rt: HostRuntime) -> io::Result<ExitCode> {
    let mut index = Vec::new(rt.alloc());
    // What comes before a failed read is listed.
    let _ = rt.stdin().take(MOST_BYTES).read_to_end(&mut index);
    // Kept: `arg` writes into a lent slice and answers a length.
    let mut argument = [0u8; NAME_BYTES];
    let length = rt.arg(1, &mut argument).unwrap_or(0);
    let mut out = io::writer(&rt);
    let mut table = OwnedTable::new(rt.alloc(), ROOM)?;
    if let Err(refusal) = table.add_elf(&[0], &argument[..length], REFERENCE) {
        print_refusal(&mut out, refusal)?;
    }
    list(rt.alloc(), &mut out, index, &table)
}
