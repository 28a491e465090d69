// How many rows a file has, and how many work rows its merge takes: what has to be lent for it.
ghost use Rattle.std.specs.Prelude.{◌≡◌, ◌≤◌};
ghost use Rattle.elf_file.specs.Rows.{entry_count, content_count};
ghost use Rattle.elf_file.specs.Counts.{listed_in, rows_to, rows_to_members, listed_count, rows_to_listed, counts_in, counts_of, within, counted_of};

use crate::rows::Room;
use crate::{Header, Table};
use link::{Cause, Refusal};

// Rows of sections and of symbols; cells for relocations and for the section numbers that groups list; the work rows that a merge takes.
#[derive(Clone, Copy, Debug, PartialEq, Eq)]
pub struct Counts {
    pub sections: u64,
    pub symbols: u64,
    pub relocations: u64,
    pub listed: u64,
    pub work_rows: u64,
}

// Sections that groups list: how many, and how many work rows they take.
#[derive(Clone, Copy)]
struct Members {
    count: u64,
    rows: u64,
}

// Sections of an object.
const SECTION_BOUND: u64 = 0xff00;

// More cells than bytes are counted up to this bound alone, so that no short file asks for much memory.
const MOST_CELLS: usize = 0x100_0000;

impl Header {
    // How many sections it lists, if it is a group.
    #[tactic(auto, unfolding(crate::specs::Counts::listed_in, crate::specs::Rows::contents_in, crate::specs::Table::table_of, crate::specs::Table::typed))]
    fn listed(self) -> u64
        ensures { result ≡ listed_in self }
    {
        match self.table() {
            Some(Table::Group) => self.contents(),
            _ => 0,
        }
    }
}

#[tactic(auto, unfolding(crate::specs::Counts::rows_to))]
fn rows_to(section: u64) -> u64
    ensures { result ≡ rows_to section }
{
    if section < SECTION_BOUND {
        section + 1
    } else {
        0
    }
}

fn rows_to_members(group: &[u8], count: u64) -> u64
    ensures { result ≡ rows_to_members group.now 0 count }
{
    let mut rows = 0;
    for j in 0..count as usize {
        rows = rows.max(rows_to(crate::member(group, j)));
    }
    rows
}

// Of n sections.
fn members_of(file: &[u8], table: &[u8], n: usize) -> Members
    requires { content_count table.now 0 n ≤ 0xffffffffffffffff }
    ensures count { result.count ≡ listed_count table.now 0 n }
    ensures rows { result.rows ≡ rows_to_listed file.now table.now 0 n }
    ensures few { result.count ≤ content_count table.now 0 n }
{
    let mut listed = Members { count: 0, rows: 0 };
    for i in 0..n {
        let h = Header::at(table, i);
        let count = h.listed();
        listed.count += count;
        listed.rows = listed.rows.max(rows_to_members(h.bytes(file), count));
    }
    listed
}

// Of n sections with that room.
fn counts_in(file: &[u8], table: &[u8], n: usize, room: Room) -> Counts
    requires few { content_count table.now 0 n ≤ 0xffffffffffffffff }
    requires entries { room.entries ≡ entry_count table.now 0 n }
    requires contents { room.contents ≡ content_count table.now 0 n }
    ensures { result ≡ counts_in file.now table.now n }
{
    let listed = members_of(file, table, n);
    Counts {
        sections: n as u64,
        symbols: room.entries,
        relocations: room.contents - listed.count,
        listed: listed.count,
        work_rows: (n as u64).min(SECTION_BOUND).max(listed.rows),
    }
}

// Those of a file that may be read, if its rows take no more cells than that.
#[tactic(auto, unfolding(crate::specs::Rows::room_of))]
fn within(file: &[u8], most: usize) -> Result<Counts, Refusal>
    ensures { result ≡ within most (counts_of file.now) }
{
    let table = crate::header_table(file);
    let n = crate::section_count(file) as usize;
    match crate::rows::room_for(most, table, n) {
        Some(room) => Ok(counts_in(file, table, n, room)),
        None => Err(Refusal::new(Cause::NoRoom, 0)),
    }
}

// 26 and 27 as a read of the file; 2 at 0 where the rows take more cells than the file has bytes, and than 2^24.
#[tactic(auto, unfolding(crate::specs::Counts::counted_of, link::specs::Judge::judged))]
pub fn count(file: &[u8]) -> Result<Counts, Refusal>
    ensures { result ≡ counted_of file.now }
{
    crate::checks::judge(file)?;
    within(file, file.len().max(MOST_CELLS))
}
