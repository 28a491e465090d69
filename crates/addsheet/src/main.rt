// Document 01's add sheet: adds the symbols of standard input to a new table, then prints the table's rows and the refused lines.
//
// It lends 40,960 symbol rows, 40,961 name rows (one for the empty name), 524,288 bytes of names and ten sections, and keeps 65,536
// refused lines; a line may have 589,824 bytes, or more if they are a name, which has no room then. Its status is 1 where the sheet stopped before
// its end, else 0: refused lines are answers.
#![tactic(auto)]

mod printing;

use link::{Cause, Refusal, SymbolId};
use owned_table::{OwnedTable, Room};
use std::alloc::{AllocError, Global};
use std::fmt;
use std::io::{self, BufWriter, Stdin, Write};
use std::process::ExitCode;
use text::{Lines, Taken};
use upcoming_symbol::ElfSymbol;

const NAME_BYTES: usize = 524_288;

const ROOM: Room = Room {
    names: 40_961,
    bytes: NAME_BYTES,
    symbols: 40_960,
    sections: 10,
};

const KEPT: usize = 65_536;

const LINE_BYTES: usize = 589_824;

// Sections 1 to 9 have ids 1 to 9.
const CONVERSION: [u64; 10] = [0, 3, 4, 5, 6, 7, 8, 9, 10, 11];

// ---- what is told of a sheet

// What the first line should not look like: it is skipped, so a data line there would be lost without a word.
#[derive(Clone, Copy)]
enum Doubt {
    NotSix,
    Numbers,
}

impl fmt::Display for Doubt {
    fn fmt<W: fmt::Write>(&self, f: &mut fmt::Formatter<W>) -> fmt::Result {
        f.write_str("the first line, which is skipped, should name the six columns; ")?;
        f.write_str(match self {
            Doubt::NotSix => "it hasn't six fields",
            Doubt::Numbers => "it has numbers",
        })
    }
}

#[derive(Clone, Copy)]
enum Fault {
    NotSix,
    NotNumber { field: &'static str },
    TooLong,
    TooManyRefused,
}

#[derive(Clone, Copy)]
enum Stop {
    NoNames,
    At { line: u64, fault: Fault },
}

impl fmt::Display for Fault {
    fn fmt<W: fmt::Write>(&self, f: &mut fmt::Formatter<W>) -> fmt::Result {
        match self {
            Fault::NotSix => {
                f.write_str("not six fields (name, binding, visibility, type, section, value)")
            }
            Fault::NotNumber { field } => { write!(f, "the {field} isn't a decimal number") }
            Fault::TooLong => f.write_str("the line is too long"),
            Fault::TooManyRefused => {
                f.write_str("refused, and no more refused lines can be kept")
            }
        }
    }
}

impl fmt::Display for Stop {
    fn fmt<W: fmt::Write>(&self, f: &mut fmt::Formatter<W>) -> fmt::Result {
        match self {
            Stop::NoNames => f.write_str("no line of names"),
            Stop::At { line, fault } => {
                write!(f, "data line {line}: {fault}; the sheet stops here")
            }
        }
    }
}

// ---- a line

fn has_six_fields(line: &[u8]) -> bool {
    !text::field(line, 5).is_empty() && text::field(line, 6).is_empty()
}

fn is_number(field: &[u8]) -> bool {
    !field.is_empty() && field.iter().all(|byte| byte.is_ascii_digit())
}

fn doubt_of(names: &[u8]) -> Option<Doubt> {
    if !has_six_fields(names) {
        return Some(Doubt::NotSix);
    }
    (0..6)
        .any(|k| is_number(text::field(names, k)))
        .then_some(Doubt::Numbers)
}

// None: a number that 64 bits don't hold.
fn number_in(line: &[u8], k: usize, field: &'static str) -> Result<Option<u64>, Fault> {
    let digits = text::field(line, k);
    if is_number(digits) {
        Ok(text::decimal(digits))
    } else {
        Err(Fault::NotNumber { field })
    }
}

// None: one of its numbers is one that 64 bits don't hold.
fn symbol_in(line: &[u8]) -> Result<Option<ElfSymbol>, Fault> {
    if !has_six_fields(line) {
        return Err(Fault::NotSix);
    }
    let binding = number_in(line, 1, "binding")?;
    let visibility = number_in(line, 2, "visibility")?;
    let kind = number_in(line, 3, "type")?;
    let section = number_in(line, 4, "section")?;
    let value = number_in(line, 5, "value")?;
    let (Some(binding), Some(visibility), Some(kind), Some(section), Some(value)) = (
        binding, visibility, kind, section, value,
    ) else {
        return Ok(None);
    };
    Ok(Some(ElfSymbol {
        binding,
        visibility,
        kind,
        section,
        value,
        size: 0,
    }))
}

// `-` is the empty name.
fn name_in(line: &[u8]) -> &[u8] {
    match text::field(line, 0) {
        b"-" => b"",
        name => name,
    }
}

// ---- the sheet

#[derive(Clone, Copy)]
struct Refused {
    line: u64,
    refusal: Refusal,
}

// Doubt: of the line of names. Blank: the first of the lines without fields just before.
#[derive(Drop)]
struct Sheet {
    table: OwnedTable,
    refused: Vec<Refused>,
    doubt: Option<Doubt>,
    blank: Option<u64>,
}

impl Sheet {
    fn new(alloc: Global) -> Result<Sheet, AllocError> {
        Ok(Sheet {
            table: OwnedTable::new(alloc, ROOM)?,
            refused: Vec::new(alloc),
            doubt: None,
            blank: None,
        })
    }

    fn refuse(&mut self, line: u64, refusal: Refusal) -> Result<(), Fault> {
        if self.refused.len() == KEPT {
            return Err(Fault::TooManyRefused);
        }
        let kept = self.refused.push(Refused { line, refusal });
        kept.map_err(|_| Fault::TooManyRefused)
    }

    // The name is issued first, so that one without room is refused as such; a field out of range is refused behind it.
    fn out_of_range(&mut self, name: &[u8]) -> Result<SymbolId, Refusal> {
        self.table.intern(name)?;
        Err(Refusal::new(Cause::OutOfRange, 0))
    }

    fn data_line(&mut self, line: u64, text: &[u8]) -> Result<(), Fault> {
        let added = match symbol_in(text)? {
            Some(elf) => self.table.add_elf(&CONVERSION, name_in(text), elf),
            None => self.out_of_range(name_in(text)),
        };
        match added {
            Ok(_) => Ok(()),
            Err(refusal) => self.refuse(line, refusal),
        }
    }

    // Of a long line, its first bytes. A name longer than all bytes of names has no room, whatever follows it.
    fn long_line(&mut self, line: u64, start: &[u8]) -> Result<(), Fault> {
        if text::field(start, 0).len() <= NAME_BYTES {
            return Err(Fault::TooLong);
        }
        self.refuse(line, Refusal::new(Cause::NoRoom, 0))
    }

    // Lines without fields say nothing at the end of the sheet, and aren't six fields anywhere else.
    fn line(&mut self, line: u64, text: Line<'_>) -> Result<(), Stop> {
        let is_blank = match text {
            Line::Whole(text) => text::field(text, 0).is_empty(),
            Line::Start(_) => false,
        };
        if is_blank {
            self.blank = self.blank.or(Some(line));
            return Ok(());
        }
        if let Some(line) = self.blank {
            let fault = Fault::NotSix;
            return Err(Stop::At { line, fault });
        }
        let taken = match text {
            Line::Whole(text) => self.data_line(line, text),
            Line::Start(text) => self.long_line(line, text),
        };
        taken.map_err(|fault| Stop::At { line, fault })
    }

    // The line of names before the data lines is skipped, but has to be there.
    fn read(&mut self, input: &mut Input) -> Result<(), Stop> {
        let names = input.next().ok_or(Stop::NoNames)?;
        self.doubt = match names {
            Line::Whole(names) | Line::Start(names) => doubt_of(names),
        };
        for line in 1..=u64::MAX {
            match input.next() {
                None => break,
                Some(text) => self.line(line, text)?,
            }
        }
        Ok(())
    }
}

// ---- the input

#[derive(Clone, Copy)]
enum Line<'a> {
    Whole(&'a [u8]),
    // what the buffer holds of a line that doesn't fit it
    Start(&'a [u8]),
}

// Standard input, and what of it is read. Long: the last line is read in part only.
#[derive(Drop)]
struct Input {
    stdin: Stdin,
    buffer: Vec<u8>,
    lines: Lines,
    long: bool,
}

impl Input {
    fn next(&mut self) -> Option<Line<'_>> {
        if self.long {
            self.lines.skip_line(&mut self.stdin, &mut self.buffer);
        }
        let taken = self.lines.next_line(&mut self.stdin, &mut self.buffer);
        self.long = matches!(taken, Taken::Long);
        match taken {
            Taken::End => None,
            Taken::Long => Some(Line::Start(&self.buffer)),
            Taken::Line { from, len } => {
                let line = cells::part_of(&self.buffer, from, len);
                Some(Line::Whole(text::without_cr(line)))
            }
        }
    }
}

// What was read is printed, wherever the sheet stopped.
fn main(rt: HostRuntime) -> io::Result<ExitCode> {
    let mut sheet = Sheet::new(rt.alloc())?;
    let mut input = Input {
        stdin: rt.stdin(),
        buffer: vec![in rt.alloc(); 0; LINE_BYTES]?,
        lines: Lines::new(),
        long: false,
    };
    let read = sheet.read(&mut input);
    if let Some(doubt) = sheet.doubt {
        let _ = eprintln!(rt; "addsheet: warning: {doubt}");
    }
    if let Err(stop) = read {
        let _ = eprintln!(rt; "addsheet: {stop}");
    }
    if input.lines.failed {
        let _ = eprintln!(rt; "addsheet: standard input can't be read");
    }
    let mut out = BufWriter::new(rt.alloc(), io::writer(&rt))?;
    sheet.print(&mut out)?;
    out.flush()?;
    Ok(if read.is_err() || input.lines.failed {
        ExitCode::FAILURE
    } else {
        ExitCode::SUCCESS
    })
}

#[cfg(test)]
mod tests {
    use super::*;
    use std::test::Fail;

    #[test]
    fn first_lines(rt: HostRuntime) {
        let names = doubt_of(b"name bind vis type shndx value");
        assert!(rt; names.is_none());
        let five = doubt_of(b"name bind vis type shndx");
        assert!(rt; matches!(five, Some(Doubt::NotSix)));
        let data = doubt_of(b"mute 1 0 2 2 0");
        assert!(rt; matches!(data, Some(Doubt::Numbers)));
    }

    #[test]
    fn numbers_above_64_bits(rt: HostRuntime) -> Result<(), Fail> {
        let mut sheet = Sheet::new(rt.alloc())?;
        let whole = sheet.line(1, Line::Whole(b"mute 1 0 2 2 18446744073709551616"));
        assert!(rt; whole.is_ok());
        assert_eq!(rt; sheet.refused.len(), 1);
        let refused = sheet.refused.first();
        assert!(rt; refused.is_some_and(|at| at.line == 1 && at.refusal.is(Cause::OutOfRange)));
        Ok(())
    }

    #[test]
    fn a_blank_line_before_a_long_one(rt: HostRuntime) -> Result<(), Fail> {
        let mut sheet = Sheet::new(rt.alloc())?;
        let blank = sheet.line(1, Line::Whole(b" "));
        assert!(rt; blank.is_ok());
        let name = vec![in rt.alloc(); b'a'; LINE_BYTES]?;
        let stopped = sheet.line(2, Line::Start(&name));
        assert!(rt;
            matches!(
                stopped,
                Err(Stop::At {
                    line: 1,
                    fault: Fault::NotSix
                })
            )
        );
        Ok(())
    }
}
