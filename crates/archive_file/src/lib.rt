// The members of an archive file: a member's header and bytes, the member behind it, its name, the index. Total over any bytes.
#![tactic(auto)]

ghost use Rattle.std.specs.Prelude.{◌≡◌, ◌≤◌, ◌+◌, IfSome, length};
ghost use Rattle.gabi.specs.File.{bytes_at};
ghost use Rattle.archive_file.specs.Members.{is_archive, is_thin, until, without_slash, name_field, size_field, has_end, sized, member_of, after_of, next_of, short_name, long_name, long_place, name_of, label_of, passed, front_of};

const MAGIC_SIZE: usize = 8;

/// Where the first member's header is.
pub const FIRST: usize = MAGIC_SIZE;

const HEADER_SIZE: usize = 60;

const NAME_SIZE: usize = 16;

const SIZE_AT: usize = 48;

const SIZE_SIZE: usize = 10;

const END_AT: usize = 58;

/// Where a member's bytes lie in the file.
#[derive(Clone, Copy, Debug, PartialEq, Eq)]
pub struct Member {
    pub start: usize,
    pub size: usize,
}

/// What a member is to its archive.
#[derive(Clone, Copy, Debug, PartialEq, Eq)]
pub enum Label {
    Index,
    LongNames,
    /// An index of 64-bit offsets, or of BSD.
    OtherIndex,
    Own,
}

/// What comes before an archive's own members.
#[derive(Clone, Copy)]
pub struct Front {
    pub index: Option<Member>,
    pub long_names: Option<Member>,
    /// There is an index that isn't read.
    pub other_index: bool,
    /// Where the header of the first member is that is the archive's own.
    pub first: usize,
}

// ---- the file

#[tactic(auto, unfolding(crate::specs::Members::is_archive))]
pub fn is_archive(file: &[u8]) -> bool
    ensures { result ≡ is_archive file.now }
{
    byte_slices::same_bytes(cells::part_of(file, 0, MAGIC_SIZE), b"!<arch>\n")
}

/// Of GNU ar: only headers, the members' bytes are in files of their own.
#[tactic(auto, unfolding(crate::specs::Members::is_thin))]
pub fn is_thin(file: &[u8]) -> bool
    ensures { result ≡ is_thin file.now }
{
    byte_slices::same_bytes(cells::part_of(file, 0, MAGIC_SIZE), b"!<thin>\n")
}

// ---- fields

// What stands before the first byte of that value; all of it where there is none.
fn until(x: &[u8], end: u8) -> &[u8]
    ensures { result.now ≡ until end x.now }
{
    for k in 0..x.len() {
        if x[k] == end {
            return &x[..k];
        }
    }
    x
}

#[tactic(auto, unfolding(crate::specs::Members::without_slash))]
fn without_slash(x: &[u8]) -> &[u8]
    ensures { result.now ≡ without_slash x.now }
{
    let last = x.len().saturating_sub(1);
    if byte_slices::byte_at(x, last) == b'/' {
        return cells::part_of(x, 0, last);
    }
    x
}

#[tactic(auto, unfolding(crate::specs::Members::name_field))]
fn name_field(file: &[u8], at: usize) -> &[u8]
    ensures { result.now ≡ name_field file.now at }
{
    cells::part_of(file, at, NAME_SIZE)
}

#[tactic(auto, unfolding(crate::specs::Members::size_field))]
fn size_field(file: &[u8], at: usize) -> Option<u64>
    requires { at ≤ length file.now }
    ensures { result ≡ size_field file.now at }
{
    text::decimal(until(cells::part_of(file, at + SIZE_AT, SIZE_SIZE), b' '))
}

#[tactic(auto, unfolding(crate::specs::Members::has_end))]
fn has_end(file: &[u8], at: usize) -> bool
    requires { at ≤ length file.now }
    ensures { result ≡ has_end file.now at }
{
    byte_slices::same_bytes(cells::part_of(file, at + END_AT, 2), b"`\n")
}

// ---- a member

#[tactic(auto, unfolding(crate::specs::Members::sized))]
fn sized(file: &[u8], start: usize, size: Option<u64>) -> Option<Member>
    ensures value { result ≡ sized file.now start size }
    ensures inside { IfSome result (λ m. m.start + m.size ≤ length file.now) }
{
    let size = size? as usize;
    if start <= file.len() && size <= file.len() - start {
        return Some(Member { start, size });
    }
    None
}

/// The member whose header is at the place; none where there is no header, or it or the member's bytes are cut.
#[tactic(auto, unfolding(crate::specs::Members::member_of))]
pub fn member_at(file: &[u8], at: usize) -> Option<Member>
    ensures value { result ≡ member_of file.now at }
    ensures inside { IfSome result (λ m. m.start + m.size ≤ length file.now) }
{
    if at > file.len() {
        return None;
    }
    if !has_end(file, at) {
        return None;
    }
    sized(file, at + HEADER_SIZE, size_field(file, at))
}

// The next even place behind a member that lies in a file.
#[tactic(auto, unfolding(crate::specs::Members::after_of))]
fn after(file: &[u8], member: Member) -> usize
    requires { member.start + member.size ≤ length file.now }
    ensures { result ≡ after_of member }
{
    let end = member.start + member.size;
    end + end % 2
}

/// Where the header of the member behind it is, or would be.
#[tactic(auto, unfolding(crate::specs::Members::next_of))]
pub fn next_at(file: &[u8], at: usize) -> Option<usize>
    ensures { result ≡ next_of file.now at }
{
    match member_at(file, at) {
        Some(member) => Some(after(file, member)),
        None => None,
    }
}

impl Member {
    pub fn bytes(self, file: &[u8]) -> &[u8]
        ensures { result.now ≡ bytes_at file.now self.start self.size }
    {
        cells::part_of(file, self.start, self.size)
    }
}

// ---- names

#[tactic(auto, unfolding(crate::specs::Members::short_name))]
fn short_name(field: &[u8]) -> &[u8]
    ensures { result.now ≡ short_name field.now }
{
    let name = until(field, b'/');
    if name.len() < field.len() {
        return name;
    }
    until(field, b' ')
}

#[tactic(auto, unfolding(crate::specs::Members::long_name))]
fn long_name(names: &[u8], k: u64) -> &[u8]
    ensures { result.now ≡ long_name names.now k }
{
    let start = (k as usize).min(names.len());
    without_slash(until(&names[start..], b'\n'))
}

#[tactic(auto, unfolding(crate::specs::Members::long_place))]
fn long_place(field: &[u8]) -> Option<u64>
    ensures { result ≡ long_place field.now }
{
    if byte_slices::byte_at(field, 0) != b'/' {
        return None;
    }
    text::decimal(until(cells::part_of(field, 1, NAME_SIZE - 1), b' '))
}

/// The name of the member whose header is at the place, with the bytes of the archive's long names.
#[tactic(auto, unfolding(crate::specs::Members::name_of))]
pub fn name<'a>(file: &'a [u8], long_names: &'a [u8], at: usize) -> &'a [u8]
    ensures { result.now ≡ name_of file.now long_names.now at }
{
    let field = name_field(file, at);
    match long_place(field) {
        Some(k) => long_name(long_names, k),
        None => short_name(field),
    }
}

// ---- the members that are the archive's own

impl Label {
    #[tactic(auto, unfolding(crate::specs::Members::label_of))]
    fn of(field: &[u8]) -> Label
        ensures { result ≡ label_of field.now }
    {
        if byte_slices::same_bytes(field, b"/               ") {
            return Label::Index;
        }
        if byte_slices::same_bytes(field, b"//              ") {
            return Label::LongNames;
        }
        if byte_slices::same_bytes(field, b"/SYM64/         ")
            || byte_slices::same_bytes(field, b"__.SYMDEF       ")
        {
            return Label::OtherIndex;
        }
        Label::Own
    }
}

impl Front {
    // The member at `first`, where it is one of the archive's own.
    #[tactic(auto, unfolding(crate::specs::Members::passed))]
    fn pass(self, file: &[u8]) -> Front
        ensures { result ≡ passed file.now self }
    {
        let Some(member) = member_at(file, self.first) else {
            return self;
        };
        let first = after(file, member);
        match Label::of(name_field(file, self.first)) {
            Label::Index => Front {
                index: Some(member),
                first,
                ..self
            },
            Label::LongNames => Front {
                long_names: Some(member),
                first,
                ..self
            },
            Label::OtherIndex => Front {
                other_index: true,
                first,
                ..self
            },
            Label::Own => self,
        }
    }

    /// The index and the long names of an archive.
    #[tactic(auto, unfolding(crate::specs::Members::front_of))]
    pub fn of(file: &[u8]) -> Front
        ensures { result ≡ front_of file.now }
    {
        let nothing = Front {
            index: None,
            long_names: None,
            other_index: false,
            first: FIRST,
        };
        nothing.pass(file).pass(file).pass(file)
    }
}

#[cfg(test)]
mod tests {
    use super::*;

    // As ar of GNU binutils writes it: an index of no entries, long names, a member of three bytes and one of four.
    const FILE: &[u8] =
        b"!<arch>\n/               0           0     0     0       4         `\n\x00\x00\x00\x00//                                              22        `\na_name_of_many_bytes/\nmute.o/         0           0     0     644     3         `\nabc\n/0              0           0     0     644     4         `\nwxyz";

    #[test]
    fn members(rt: HostRuntime) {
        assert!(rt; is_archive(FILE));
        let front = Front::of(FILE);
        assert!(rt; front.index.is_some_and(|m| m.start == 68 && m.size == 4));
        let long_names = match front.long_names {
            Some(m) => m.bytes(FILE),
            None => b"",
        };
        assert_eq!(rt; long_names, b"a_name_of_many_bytes/\n".as_slice());
        let first = member_at(FILE, 154);
        assert!(rt; first.is_some_and(|m| m.bytes(FILE) == b"abc".as_slice()));
        assert_eq!(rt; name(FILE, long_names, 154), b"mute.o".as_slice());
        assert!(rt; next_at(FILE, 154).is_some_and(|at| at == 218));
        assert_eq!(rt; front.first, 154);
        assert!(rt; member_at(FILE, 218).is_some_and(|m| m.bytes(FILE) == b"wxyz".as_slice()));
        assert_eq!(rt;
            name(FILE, long_names, 218),
            b"a_name_of_many_bytes".as_slice()
        );
        assert!(rt; member_at(FILE, 155).is_none());
        assert!(rt; member_at(&FILE[..281], 218).is_none());
    }
}
