// What a file is refused with before anything of it is read into rows: 26, then 27.
ghost use Rattle.std.specs.Prelude.{◌≡◌};
ghost use Rattle.link.specs.Judge.{judged};
ghost use Rattle.elf_file.specs.Check.{is_object, headers_fit, excluded, section_ok, table_ok, bad_table, file_refusal};
ghost use Rattle.elf_object.specs.Judge.{found_below};
ghost use Rattle.elf_file.specs.Table.{table_of};

use crate::{Header, Table};
use link::{Cause, Refusal};

// The gABI's numbers of a file that can be merged: 0x7f, E, L, F; the 64-bit class, the least byte first, an object.
// Kept: the file's own numbers, which are only compared.
const ELF_MAGIC: u64 = 0x464c_457f;

const ELF_CLASS_64: u64 = 2;

const ELF_DATA_2_LSB: u64 = 1;

const ET_REL: u64 = 1;

#[tactic(auto, unfolding(crate::specs::Check::is_object))]
fn is_object(file: &[u8]) -> bool
    ensures { result ≡ is_object file.now }
{
    file.len() >= crate::EHDR_SIZE
        && crate::word(file, 0) == ELF_MAGIC
        && crate::byte(file, crate::E_CLASS) == ELF_CLASS_64
        && crate::byte(file, crate::E_DATA) == ELF_DATA_2_LSB
        && crate::half(file, crate::E_TYPE) == ET_REL
}

// Do n headers lie in so many bytes, from there on?
#[tactic(auto, unfolding(crate::specs::Check::headers_fit))]
fn headers_fit(len: usize, shoff: u64, n: u64) -> bool
    ensures { result ≡ headers_fit len shoff n }
{
    // Kept: a guard; without section headers there is nothing to fit.
    if shoff == 0 {
        return true;
    }
    (len as u64).checked_sub(shoff).is_some_and(|left| left >= crate::SHDR_BYTES
        && left / crate::SHDR_BYTES >= n)
}

impl Header {
    #[tactic(auto, unfolding(crate::specs::Check::excluded))]
    pub fn is_excluded(self) -> bool
        ensures { result ≡ excluded self }
    {
        self.flags / crate::SHF_EXCLUDE % 2 == 1
    }

    // The table that is read of the section, if it is one and isn't excluded.
    #[tactic(auto, unfolding(crate::specs::Table::table_of))]
    pub fn table(self) -> Option<Table>
        ensures { result ≡ table_of self }
    {
        if self.is_excluded() {
            None
        } else {
            Table::of_type(self.kind)
        }
    }

    // Does the table, if it is one, lie in a file of that many bytes, with whole entries?
    #[tactic(auto, unfolding(crate::specs::Check::section_ok, crate::specs::Table::table_of, crate::specs::Table::typed, crate::specs::Check::entry_size))]
    fn fits(self, len: usize) -> bool
        ensures { result ≡ section_ok len self }
    {
        // Kept: a guard; what is no table has nothing to fit, and the test reads on without it.
        let Some(table) = self.table() else {
            return true;
        };
        (len as u64).checked_sub(self.offset).is_some_and(|left| self.size <= left
            && table.has_whole_entries(self.size))
    }
}

#[tactic(auto, unfolding(crate::specs::Check::table_ok))]
fn table_ok(len: usize, table: &[u8], i: usize) -> bool
    ensures { result ≡ table_ok len table.now i }
{
    Header::at(table, i).fits(len)
}

// The first table that isn't right.
fn bad_table(len: usize, table: &[u8], n: usize) -> Option<usize>
    ensures { result ≡ found_below n (bad_table len table.now n) }
{
    for i in 0..n {
        if !table_ok(len, table, i) {
            return Some(i);
        }
    }
    None
}

#[tactic(auto, unfolding(crate::specs::Check::file_refusal, link::specs::Judge::judged))]
pub fn judge(file: &[u8]) -> Result<(), Refusal>
    ensures { result ≡ judged (file_refusal file.now) }
{
    if !is_object(file) {
        return Err(Refusal::new(Cause::NotAnObject, 0));
    }
    let n = crate::section_count(file);
    if !headers_fit(file.len(), crate::xword(file, crate::E_SHOFF), n) {
        return Err(Refusal::new(Cause::BadTable, 0));
    }
    match bad_table(file.len(), crate::header_table(file), n as usize) {
        Some(bad) => Err(Refusal::new(Cause::BadTable, bad)),
        None => Ok(()),
    }
}
