// A section's kind, where one of the fifteen is meant; a header's row holds a number, which may be none of theirs.
ghost use Rattle.std.specs.Prelude.{◌≡◌};
ghost use Rattle.elf_object.specs.Kind.{number_of, numbered};

#[derive(Clone, Copy, Debug, PartialEq, Eq)]
pub enum Kind {
    Null,
    Program,
    Uninitialized,
    SymbolTable,
    StringTable,
    Rel,
    Rela,
    Group,
    Hash,
    GnuHash,
    DynamicSymbols,
    FrameHeader,
    Dynamic,
    Unknown,
    Note,
}

impl From<Kind> for u64 {
    ghost from_gives = { λ kind number. number ≡ number_of kind };

    fn from(kind: Kind) -> u64 {
        kind as u64
    }
}

// A number that is no kind's.
#[derive(Clone, Copy, Debug, PartialEq, Eq)]
pub struct NoKind(pub u64);

impl TryFrom<u64> for Kind {
    type Error = NoKind;

    ghost try_from_gives = { λ number result. result ≡ numbered number };

    fn try_from(number: u64) -> Result<Kind, NoKind> {
        match number {
            0 => Ok(Kind::Null),
            1 => Ok(Kind::Program),
            2 => Ok(Kind::Uninitialized),
            3 => Ok(Kind::SymbolTable),
            4 => Ok(Kind::StringTable),
            5 => Ok(Kind::Rel),
            6 => Ok(Kind::Rela),
            7 => Ok(Kind::Group),
            8 => Ok(Kind::Hash),
            9 => Ok(Kind::GnuHash),
            10 => Ok(Kind::DynamicSymbols),
            11 => Ok(Kind::FrameHeader),
            12 => Ok(Kind::Dynamic),
            13 => Ok(Kind::Unknown),
            14 => Ok(Kind::Note),
            _ => Err(NoKind(number)),
        }
    }
}
