// What is printed of a sheet: the rows of its table, then its refused lines.
use crate::{Refused, Sheet};
use link::SymbolId;
use std::fmt;
use std::io::{self, Write};
use symbol::{Symbol, SymbolValue, SymbolVisibility};

#[derive(Drop)]
struct Weak(SymbolVisibility);

impl fmt::Display for Weak {
    fn fmt<W: fmt::Write>(&self, f: &mut fmt::Formatter<W>) -> fmt::Result {
        f.write_str(match self.0 {
            SymbolVisibility::Local => "-",
            SymbolVisibility::Global { weak: true, .. } => "yes",
            SymbolVisibility::Global { weak: false, .. } => "no",
        })
    }
}

#[derive(Drop)]
struct Value(SymbolValue);

// An address, a section that isn't loaded and an external symbol don't occur on a sheet.
impl fmt::Display for Value {
    fn fmt<W: fmt::Write>(&self, f: &mut fmt::Formatter<W>) -> fmt::Result {
        match self.0 {
            SymbolValue::Null => f.write_str("null 0"),
            SymbolValue::Absolute { value } => write!(f, "abs {value}"),
            SymbolValue::Section { section } => write!(f, "sec {}", section.0),
            SymbolValue::SectionRelative { section, offset } => {
                write!(f, "rel {}:{offset}", section.0)
            }
            SymbolValue::SectionVirtualAddress { section, address } => {
                write!(f, "addr {}:{address}", section.0)
            }
            SymbolValue::SectionNotLoaded => f.write_str("notloaded 0"),
            SymbolValue::ExternallyDefined => f.write_str("external 0"),
            SymbolValue::Undefined { zero } => write!(f, "undef {}", u8::from(zero)),
            SymbolValue::Common { alignment } => write!(f, "com {alignment}"),
        }
    }
}

impl Sheet {
    // A name is bytes of any kind.
    fn print_row(&self, out: &mut impl Write, symbol: Symbol) -> io::Result<()> {
        write!(out, "{} ", symbol.id.0)?;
        match interner::name_of(&self.table.bytes, &self.table.names, symbol.name) {
            b"" => out.write_all(b"-")?,
            name => out.write_all(name)?,
        }
        writeln!(out, " {} {}", Weak(symbol.visibility), Value(symbol.value))
    }

    fn print_rows(&self, out: &mut impl Write) -> io::Result<()> {
        for id in 0..self.table.table.link.symbols {
            if let Ok(symbol) = symbols::get(self.table.table, &self.table.symbols, SymbolId(id)) {
                self.print_row(out, symbol)?;
            }
        }
        Ok(())
    }

    pub(crate) fn print(&self, out: &mut impl Write) -> io::Result<()> {
        writeln!(out, "id name weak kind value")?;
        self.print_rows(out)?;
        for Refused { line, refusal } in &self.refused {
            writeln!(out, "refused {line} {}", refusal.number)?;
        }
        Ok(())
    }
}
