// What a line of a list is.

#[derive(Clone, Copy, Debug, PartialEq, Eq)]
pub(crate) enum Input {
    Object,
    Library,
}

// What a line tells of; it makes no call.
#[derive(Clone, Copy, Debug, PartialEq, Eq)]
pub(crate) enum Subject {
    Object,
    Section,
    // Of the object or the shared object that was announced last.
    Symbol,
    Library,
    Strings,
    Needs,
    Archive,
    Entry,
    Index,
    Require,
    Conversion,
    Lend,
}

#[derive(Clone, Copy, Debug, PartialEq, Eq)]
pub(crate) enum Change {
    Link,
    Add,
    Remove,
}

#[derive(Clone, Copy, Debug, PartialEq, Eq)]
pub(crate) enum Step {
    Start,
    Next,
    Admit,
}

#[derive(Clone, Copy, Debug, PartialEq, Eq)]
pub(crate) enum Operation {
    Tell(Subject),
    Change(Change),
    // A merge or a load.
    Take(Input),
    Collect,
    Walk(Step),
    Look,
    Dump,
    // A member of a walk that isn't replayed.
    Member,
    Unknown,
}

// By its first word.
impl From<&[u8]> for Operation {
    fn from(word: &[u8]) -> Self {
        match word {
            b"object" => Operation::Tell(Subject::Object),
            b"section" => Operation::Tell(Subject::Section),
            b"symbol" => Operation::Tell(Subject::Symbol),
            b"library" => Operation::Tell(Subject::Library),
            b"strings" => Operation::Tell(Subject::Strings),
            b"needs" => Operation::Tell(Subject::Needs),
            b"archive" => Operation::Tell(Subject::Archive),
            b"entry" => Operation::Tell(Subject::Entry),
            b"index" => Operation::Tell(Subject::Index),
            b"require" => Operation::Tell(Subject::Require),
            b"conversion" => Operation::Tell(Subject::Conversion),
            b"lend" => Operation::Tell(Subject::Lend),
            b"link" => Operation::Change(Change::Link),
            b"add" => Operation::Change(Change::Add),
            b"remove" => Operation::Change(Change::Remove),
            b"merge" => Operation::Take(Input::Object),
            b"load" => Operation::Take(Input::Library),
            b"collect" => Operation::Collect,
            b"start" => Operation::Walk(Step::Start),
            b"next" => Operation::Walk(Step::Next),
            b"admit" => Operation::Walk(Step::Admit),
            b"counts" | b"get" | b"global" | b"sectionsymbol" => Operation::Look,
            b"dump" => Operation::Dump,
            b"member" => Operation::Member,
            _ => Operation::Unknown,
        }
    }
}

#[derive(Clone, Copy)]
pub(crate) enum Line<'a> {
    // An empty one, or a remark.
    Silent,
    // Behind `> `.
    Expected(&'a [u8]),
    Operation(Operation),
}

impl<'a> From<&'a [u8]> for Line<'a> {
    fn from(line: &'a [u8]) -> Self {
        match line {
            [] | [b'#', ..] => Line::Silent,
            [b'>', _, answer @ ..] => Line::Expected(answer),
            [b'>'] => Line::Expected(&[]),
            _ => Line::Operation(Operation::from(text::field(line, 0))),
        }
    }
}
