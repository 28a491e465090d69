// What chosen indexes cost, in steps: down the tree of members while an index is opened, and along a chain of names when admission asks for one. Every
// entry's name is required. For each index: the steps to find each entry's member, and the most that one takes; the names that are chained, the steps
// when each of them is asked for, and the most that a question takes.
#![tactic(auto)]

use archive_index::{Archives, Rows};
use archive_walk::Walk;
use std::alloc::{AllocError, Global};
use std::iter::successors;
use std::{fmt, io};

const ENTRIES: u16 = 4096;

// ---- steps

#[derive(Clone, Copy, Default)]
struct Tally {
    steps: usize,
    most: usize,
}

impl Tally {
    fn add(&mut self, steps: usize, most: usize) {
        self.steps = self.steps.wrapping_add(steps);
        self.most = self.most.max(most);
    }
}

impl fmt::Display for Tally {
    fn fmt<W: fmt::Write>(&self, f: &mut fmt::Formatter<W>) -> fmt::Result {
        write!(f, "{} steps, at most {}", self.steps, self.most)
    }
}

// ---- an index

#[derive(Clone, Copy)]
enum Kind {
    // offsets that leave the same remainder by the count of entries
    Multiples,
    // offsets that differ in their highest bits only
    HighBits,
    // one member, one name, but for its first entry
    OneName,
    // members of 16 entries each, with the same names
    EqualMembers,
}

impl Kind {
    // The offset of entry k, of so many.
    fn offset(self, k: u16, entries: u16) -> u32 {
        let k = u32::from(k);
        let entries = u32::from(entries);
        match self {
            Kind::Multiples => k * entries,
            Kind::HighBits => k.wrapping_shl(entries.wrapping_sub(1).leading_zeros()),
            Kind::OneName => 68,
            Kind::EqualMembers => 68 + k / 16 * 1000,
        }
    }

    // Entries with the same number bear the same name.
    fn name_number(self, k: u16) -> u16 {
        match self {
            Kind::Multiples | Kind::HighBits => k,
            Kind::OneName => k.min(1),
            Kind::EqualMembers => k % 16,
        }
    }

    // The count of entries, their offsets, their names.
    fn put_index(self, bytes: &mut Vec<u8>, entries: u16) -> Result<(), AllocError> {
        bytes.extend_from_slice(&u32::from(entries).to_be_bytes())?;
        for k in 0..entries {
            bytes.extend_from_slice(&self.offset(k, entries).to_be_bytes())?;
        }
        for k in 0..entries {
            bytes.extend_from_slice(&name(self.name_number(k)))?;
        }
        Ok(())
    }
}

// Four letters and the zero byte.
fn name(n: u16) -> [u8; 5] {
    let letter = |digit: u16| b'a' + (digit % 16) as u8;
    [
        letter(n / 4096),
        letter(n / 256),
        letter(n / 16),
        letter(n),
        0,
    ]
}

// ---- archives

// Their indexes, where each ends, and the rows of cells.
#[derive(Drop)]
struct Indexes {
    bytes: Vec<u8>,
    ends: Vec<u64>,
    cells: Vec<u64>,
}

impl Indexes {
    // As many entries in each of so many archives' indexes, and the rest in the last.
    fn new(alloc: Global, kind: Kind, archives: u16) -> Result<Indexes, AllocError> {
        let mut bytes = Vec::new(alloc);
        let mut ends = Vec::new(alloc);
        let mut rest = ENTRIES;
        let each = (ENTRIES - 1) / archives.max(1) + 1;
        for _ in 0..archives {
            let entries = rest.min(each);
            kind.put_index(&mut bytes, entries)?;
            ends.push(bytes.len() as u64)?;
            rest -= entries;
        }
        Ok(Indexes {
            bytes,
            ends,
            cells: vec![in alloc; 0; usize::from(ENTRIES) * archive_index::ROW_WIDTH]?,
        })
    }

    fn archives(&self) -> Archives<'_> {
        Archives {
            bytes: &self.bytes,
            ends: &self.ends,
        }
    }

    // The entry that a cell names: 0 stands for none.
    fn entry_in(&self, entry: usize, cell: usize) -> Option<usize> {
        (cells::row_get(&self.cells, entry, cell) as usize).checked_sub(1)
    }

    fn key(&self, entry: usize) -> u64 {
        let member = self.archives().member(entry);
        (member.archive as u64)
            .wrapping_mul(0x1_0000_0000)
            .wrapping_add(member.offset)
    }

    // How many entries are met on the way down the tree to the member with that key.
    fn depth(&self, key: u64) -> usize {
        let next = |(entry, rest): &(usize, u64)| {
            if cells::row_get(&self.cells, *entry, archive_index::KEY) == key {
                return None;
            }
            let child = archive_index::EVEN + (*rest % 2) as usize;
            Some((self.entry_in(*entry, child)?, *rest / 2))
        };
        successors(Some((0, key)), next).take(65_536).count()
    }

    fn open(&mut self) {
        let archives = Archives {
            bytes: &self.bytes,
            ends: &self.ends,
        };
        let _ = archive_index::open(archives, &mut self.cells);
    }

    fn members(&mut self) -> Tally {
        self.open();
        let mut tally = Tally::default();
        for k in 0..usize::from(ENTRIES) {
            let depth = self.depth(self.key(k));
            tally.add(depth, depth);
        }
        tally
    }

    // How many names stand in the chain with that head.
    fn chain_length(&self, head: usize) -> usize {
        let first = self.entry_in(head, archive_index::HEAD);
        let next = |entry: &usize| self.entry_in(*entry, archive_index::LINK);
        successors(first, next).take(65_536).count()
    }

    // The first name of a chain takes a step, the second two, and so on.
    fn names(&mut self, key: usize) -> Tally {
        let archives = Archives {
            bytes: &self.bytes,
            ends: &self.ends,
        };
        let started = Walk::start(key, archives, &mut self.cells);
        let walk = started.unwrap_or(Walk::none());
        let mut rows = Rows {
            archives,
            cells: &mut self.cells,
        };
        for k in 0..usize::from(ENTRIES) {
            walk.note(&mut rows, k);
        }
        let mut tally = Tally::default();
        for head in 0..usize::from(ENTRIES) {
            let length = self.chain_length(head);
            tally.add((1..=length).fold(0, usize::wrapping_add), length);
        }
        tally
    }
}

// ---- what is printed

struct Case {
    what: &'static str,
    kind: Kind,
    key: usize,
    archives: u16,
}

const CASES: [Case; 9] = [
    Case {
        what: "multiples of the count",
        kind: Kind::Multiples,
        key: 0,
        archives: 1,
    },
    Case {
        what: "high bits",
        kind: Kind::HighBits,
        key: 0,
        archives: 1,
    },
    Case {
        what: "one name",
        kind: Kind::OneName,
        key: 0,
        archives: 1,
    },
    Case {
        what: "equal members",
        kind: Kind::EqualMembers,
        key: 0,
        archives: 1,
    },
    Case {
        what: "equal members, another key",
        kind: Kind::EqualMembers,
        key: 12345,
        archives: 1,
    },
    Case {
        what: "16 archives, multiples of the count",
        kind: Kind::Multiples,
        key: 0,
        archives: 16,
    },
    Case {
        what: "16 archives, high bits",
        kind: Kind::HighBits,
        key: 0,
        archives: 16,
    },
    Case {
        what: "16 archives, one name",
        kind: Kind::OneName,
        key: 0,
        archives: 16,
    },
    Case {
        what: "16 archives, equal members",
        kind: Kind::EqualMembers,
        key: 0,
        archives: 16,
    },
];

fn main(rt: HostRuntime) -> io::Result<()> {
    for case in &CASES {
        let mut indexes = Indexes::new(rt.alloc(), case.kind, case.archives)?;
        print!(rt; "{}: members {}", case.what, indexes.members())?;
        println!(rt; "; names {}", indexes.names(case.key))?;
    }
    Ok(())
}
