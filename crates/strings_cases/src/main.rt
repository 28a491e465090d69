// Names looked up at the edges of string tables: a line for each, the table's length, the offset, found or missing, the name.
#![tactic(auto)]

use std::io::{self, Write};

// A string table, and the offsets that are looked up in it.
struct Case {
    table: &'static [u8],
    offsets: &'static [usize],
}

const CASES: [Case; 7] = [
    // the first name, its middle, its zero byte, the last name, its zero byte, at the end, past it
    Case {
        table: b"\0mute\0clear\0",
        offsets: &[0, 1, 3, 5, 6, 11, 12, usize::MAX],
    },
    // no byte at all, which has an empty name at 0 alone
    Case {
        table: b"",
        offsets: &[0, 1, usize::MAX],
    },
    // no zero byte
    Case {
        table: b"a",
        offsets: &[0],
    },
    // zero bytes alone
    Case {
        table: b"\0",
        offsets: &[0, 1],
    },
    Case {
        table: b"\0\0",
        offsets: &[1],
    },
    // a last name without a zero byte
    Case {
        table: b"mute",
        offsets: &[0, 4],
    },
    Case {
        table: b"mute\0cle",
        offsets: &[2, 5],
    },
];

fn show(out: &mut impl Write, table: &[u8], offset: usize) -> io::Result<()> {
    let found = strings::get(table, offset);
    let answer = if found.is_some() { "found" } else { "missing" };
    write!(out, "{} {offset} {answer} [", table.len())?;
    out.write_all(found.unwrap_or(b""))?;
    writeln!(out, "]")
}

fn main(rt: HostRuntime) -> io::Result<()> {
    let mut out = io::writer(&rt);
    for case in &CASES {
        for offset in case.offsets {
            show(&mut out, case.table, *offset)?;
        }
    }
    Ok(())
}
