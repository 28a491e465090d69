// What an add costs as the table grows: tables of 100, 10,000 and 65,000 adds, of each as many as make 650,000 adds. Half of them are weak
// definitions of new names, half strong ones of the same names. The table that each makes is printed, and on standard error the processor
// time of one add.
#![tactic(auto)]

use link::Refusal;
use owned_table::{OwnedTable, Room};
use std::alloc::{AllocError, Global};
use std::io;
use std::time::{CpuClock, Duration};
use symbol::STT_FUNC;
use upcoming_symbol::{ElfSymbol, SHN_ABS, STB_GLOBAL, STB_WEAK, STV_DEFAULT};

const ADDS: u32 = 650_000;

const NAME_BYTES: usize = 393_216;

// The bytes of a name.
const NAME_LENGTH: usize = 11;

// Anew with an absolute symbol for each name: weak ones, then strong ones.
fn fill(table: &mut OwnedTable, names: &[u8]) -> Result<(), Refusal> {
    table.restart()?;
    for binding in [STB_WEAK, STB_GLOBAL] {
        for (n, name) in names.chunks(NAME_LENGTH).enumerate() {
            let elf = ElfSymbol {
                binding,
                visibility: STV_DEFAULT,
                kind: STT_FUNC,
                section: SHN_ABS,
                value: n as u64,
                size: 0,
            };
            table.add_elf(&[0], name, elf)?;
        }
    }
    Ok(())
}

// The names one behind the other: an allocation for each would take more than all their bytes.
fn spelled(alloc: Global, names: u16) -> Result<Vec<u8>, AllocError> {
    let mut spelled = Vec::new(alloc);
    for n in 0..names {
        let name = format!(in alloc; "symbol{n:05}")?;
        spelled.extend_from_slice(name.as_bytes())?;
    }
    Ok(spelled)
}

// The processor time that the process has used; all ones where it can't be read.
fn clock(rt: &impl CpuClock) -> Duration {
    rt.process_cpu_time()
        .unwrap_or(Duration::from_micros(u64::MAX))
}

fn measure<R: Print + Eprint + AllocGlobal + CpuClock>(
    rt: &R,
    names: u16,
    times: u16,
) -> io::Result<()> {
    let spelled = spelled(rt.alloc(), names)?;
    // One more row for the empty name and the null symbol.
    let room = Room {
        names: u32::from(names) + 1,
        bytes: NAME_BYTES,
        symbols: u32::from(names) + 1,
        sections: 1,
    };
    let mut table = OwnedTable::new(rt.alloc(), room)?;
    let start = clock(rt);
    for _ in 0..times {
        let _ = fill(&mut table, &spelled);
    }
    let spent = clock(rt).saturating_sub(start);
    let adds = u32::from(names) * 2;
    println!(rt; "{adds} adds, rows: {}", table.table.link.symbols)?;
    // Where standard error can't be written, the tables are printed all the same.
    let _ = eprintln!(rt;
        "{adds} adds, nanoseconds each: {}",
        (spent / ADDS).as_nanos()
    );
    Ok(())
}

fn main(rt: HostRuntime) -> io::Result<()> {
    measure(&rt, 50, 6500)?;
    measure(&rt, 5000, 65)?;
    measure(&rt, 32500, 10)
}
