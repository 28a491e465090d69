// How the search for a name grows with the count of names: the names compared when every name is searched for once, and the most that one search
// compares. First of counted names; then of names that somebody chose who knew the key 0 of the hash, so that about half of them share a chain:
// under that key, and under others.
#![tactic(auto)]

use interner::NamesMut;
use link::Link;
use std::alloc::{AllocError, Global};
use std::io;
use std::iter::successors;

const NAME_BYTES: usize = 12;

// The prime and the point of the hash under the key 0.
const PRIME: usize = 0x1_ffff_fff7;

const POINT: usize = 0x9e3_779b;

// ---- names

#[derive(Clone, Copy)]
enum Names {
    Counted,
    Chosen,
}

impl Names {
    fn name(self, n: u16) -> [u8; NAME_BYTES] {
        match self {
            Names::Counted => counted(n),
            Names::Chosen => chosen(n),
        }
    }
}

// Twelve bytes that differ for each number.
fn counted(n: u16) -> [u8; NAME_BYTES] {
    let mut name = *b"symbol000000";
    let mut left = n;
    for digit in name[6..].iter_mut().rev() {
        *digit = b'0' + (left % 10) as u8;
        left /= 10;
    }
    name
}

// Twelve bytes whose last word makes the hash's polynomial 0 at the point of the key 0, where that word is below 2^32: for about half of the
// numbers.
fn chosen(n: u16) -> [u8; NAME_BYTES] {
    let before = ((0x626d_797f * POINT) % PRIME + usize::from(n)) * POINT % PRIME;
    let [n0, n1] = n.to_le_bytes();
    let [w0, w1, w2, w3, ..] = (PRIME - before).to_le_bytes();
    [b's', b'y', b'm', b'b', n0, n1, 0, 0, w0, w1, w2, w3]
}

// ---- the interner

#[derive(Clone, Copy, Default)]
struct Tally {
    compared: usize,
    longest: usize,
}

// A link, and the cells that its names are lent.
#[derive(Drop)]
struct Interner {
    link: Link,
    bytes: Vec<u8>,
    names: Vec<u64>,
}

impl Interner {
    // With as many rows as names: one for each, and one for the empty name.
    fn filled(alloc: Global, key: usize, names: Names, count: u16) -> Result<Interner, AllocError> {
        let rows = usize::from(count) + 1;
        let mut interner = Interner {
            link: Link::no_names(key, rows),
            bytes: vec![in alloc; 0; rows * NAME_BYTES]?,
            names: vec![in alloc; 0; rows * link::NAME_CELLS]?,
        };
        if let Ok(link) = interner::reset(key, &mut interner.bytes, &mut interner.names) {
            interner.link = link;
        }
        for n in 0..count {
            interner.intern(&names.name(n));
        }
        Ok(interner)
    }

    fn intern(&mut self, name: &[u8]) {
        let mut names = NamesMut {
            link: self.link,
            bytes: &mut self.bytes,
            cells: &mut self.names,
        };
        let _ = names.intern(name);
        self.link = names.link;
    }

    // How many names stand in the chain of the head.
    // Kept: archive_bench counts and adds up its chains alike; a library of these lines would be longer than they are.
    fn chain_length(&self, head: u64) -> usize {
        let next = |row: &usize| {
            let next = cells::row_get(&self.names, *row, interner::NEXT) as usize;
            next.checked_sub(1)
        };
        let first = (head as usize).checked_sub(1);
        successors(first, next).take(65_536).count()
    }

    // The first name of a chain takes one comparison, the second two, and so on.
    fn tally(&self) -> Tally {
        let rows = link::name_rows(self.names.len());
        let mut tally = Tally::default();
        for head in self.names.iter().skip(rows * interner::ROW_WIDTH) {
            let length = self.chain_length(*head);
            tally.compared = (1..=length).fold(tally.compared, usize::wrapping_add);
            tally.longest = tally.longest.max(length);
        }
        tally
    }
}

// ---- what is printed

fn measure<R: Print + AllocGlobal>(rt: &R, key: usize, names: Names, count: u16) -> io::Result<()> {
    let interner = Interner::filled(rt.alloc(), key, names, count)?;
    let Tally { compared, longest } = interner.tally();
    println!(rt;
        "{} names: {compared} compared, at most {longest} in a search",
        interner.link.names
    )
}

fn main(rt: HostRuntime) -> io::Result<()> {
    for count in [4096, 16384, 65535] {
        measure(&rt, 0, Names::Counted, count)?;
    }
    println!(rt; "chosen for the key 0, under it and under two others:")?;
    for key in [0, 1, 0x5bd_1e99] {
        measure(&rt, key, Names::Chosen, 4096)?;
    }
    Ok(())
}
