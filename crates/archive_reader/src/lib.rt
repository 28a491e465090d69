// The archive index as a struct that holds the caller's slice and the number of entries, and gives an entry's offset and name.
#![tactic(auto)]

ghost use Rattle.std.specs.Prelude.{◌≡◌, ◌+◌, ◌*◌, ◌≤◌, length};
ghost use Rattle.gabi.specs.StringTable.{name_at};
ghost use Rattle.archive_index.specs.Index.{place_of};
ghost use Rattle.archive_reader.specs.Contract.{ReaderMeets, OffsetMeets, NameMeets};

fn name_from(bytes: &[u8], at: usize) -> &[u8]
    ensures { (result.now ≡ name_at bytes.now at) × (result.ref_ptr.0 ≡ bytes.entry.ref_ptr.0) }
{
    strings::ended(bytes, at).unwrap_or(&bytes[..0])
}

#[derive(Clone, Copy)]
pub struct ArchiveIndex<'a> {
    pub bytes: &'a [u8],
    pub entries: usize,
}

impl<'a> ArchiveIndex<'a> {
    // Over the number of entries that `archive_index::open` answered.
    pub fn new(bytes: &'a [u8], entries: usize) -> ArchiveIndex<'a>
        ensures { ReaderMeets bytes.entry entries result.bytes result.entries }
    {
        ArchiveIndex { bytes, entries }
    }

    // Where entry k's name starts: the names before it are passed over.
    fn place(self, k: usize) -> usize
        requires { 4 + 4 * self.entries ≤ length self.bytes.now }
        ensures { result ≡ place_of self.entry.bytes.now self.entry.entries k }
    {
        let mut at = archive_index::WORD_BYTES + archive_index::WORD_BYTES * self.entries;
        for _passed in 0..k {
            at = archive_index::after_name(self.bytes, at).unwrap_or(0);
        }
        at
    }

    // Entry k's member offset.
    #[tactic(auto, unfolding(crate::specs::Entry::entry_offset))]
    pub fn offset(self, k: usize) -> u64
        ensures { OffsetMeets self.entry.bytes.now self.entry.entries k result }
    {
        if k < self.entries {
            return archive_index::offset(self.bytes, k);
        }
        0
    }

    // Entry k's name, as that very part of the slice. It costs a look at the names before it; a walk, which needs every name, reads them by its rows.
    #[tactic(auto, unfolding(crate::specs::Entry::entry_name, archive_index::specs::Index::name_of))]
    pub fn name(self, k: usize) -> &'a [u8]
        ensures { NameMeets self.entry.bytes self.entry.entries k result }
    {
        if self.entries <= k || self.bytes.len() / archive_index::WORD_BYTES <= self.entries {
            return &self.bytes[..0];
        }
        name_from(self.bytes, self.place(k))
    }
}

// ---- a name with plain parameters

// Kept: for a caller with a loose slice (archive_list), which would make the struct for one call.
pub fn entry_name(bytes: &[u8], entries: usize, k: usize) -> &[u8]
    ensures { NameMeets bytes.entry entries k result }
{
    ArchiveIndex::new(bytes, entries).name(k)
}
