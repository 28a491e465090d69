// Why a call is refused, and where: the table of refusals.
ghost use Rattle.std.specs.Prelude.{◌≡◌, eqb};
ghost use Rattle.link.specs.Cause.{number_of};
ghost use Rattle.link.specs.Judge.{refused};

use std::fmt;

// The causes of the table, by its numbers.
#[derive(Clone, Copy, Debug, PartialEq, Eq, PartialOrd, Ord)]
pub enum Cause {
    OutOfRange = 1,
    NoRoom = 2,
    UnsupportedKind = 3,
    NotComdat = 4,
    EmptyGroup = 5,
    SignatureSymbolMissing = 6,
    SignatureStringMissing = 7,
    LocalInRemovedSection = 8,
    SymbolNameMissing = 9,
    UnsupportedVisibility = 10,
    LocalHidden = 11,
    UnsupportedBinding = 12,
    Common = 13,
    SectionWithoutId = 14,
    FileSymbol = 15,
    UnsupportedType = 16,
    DuplicateStrong = 17,
    SectionNameMissing = 18,
    RelocationSymbolWithoutId = 19,
    NoIndex = 20,
    AbsentId = 21,
    BrokenLink = 22,
    UnknownGlobalName = 23,
    SecondSymbolTable = 24,
    ArchivedLibraryWithoutSoname = 25,
    NotAnObject = 26,
    BadTable = 27,
    CommonAlignment = 28,
    SectionInTwoGroups = 29,
    TooManySections = 30,
    SumTooLarge = 31,
}

impl From<Cause> for u64 {
    ghost from_gives = { λ cause number. number ≡ number_of cause };

    fn from(cause: Cause) -> u64 {
        cause as u64
    }
}

// A refusal of the table and its place; number 0 is none.
// Kept: a number and no `Cause`, since C and the lists read it, and the cells of a symbol's row, which hold any number, tell it too.
// Kept: that a refusal isn't 0 stands in each call's contract, since a public Refusal may hold any number, 0 too; a type that can't would ask
// more of callers.
#[derive(Clone, Copy, Debug, PartialEq, Eq)]
pub struct Refusal {
    pub number: u64,
    pub place: u64,
}

impl Refusal {
    pub fn new(cause: Cause, place: usize) -> Refusal
        ensures { result ≡ refused (number_of cause) place }
    {
        Refusal {
            number: cause.into(),
            place: place as u64,
        }
    }

    // Is that its cause?
    pub fn is(self, cause: Cause) -> bool
        ensures { result ≡ eqb self.number (number_of cause) }
    {
        self.number == u64::from(cause)
    }
}

impl fmt::Display for Refusal {
    fn fmt<W: fmt::Write>(&self, f: &mut fmt::Formatter<W>) -> fmt::Result {
        write!(f, "{} {}", self.number, self.place)
    }
}
