// Several indexes, one behind the other in one slice: where each lies, and whose member an entry is.
ghost use Rattle.std.specs.Prelude.{◌≡◌};
ghost use Rattle.archive_index.specs.Archives.{archives_in, start_at, last_end, index_at, member_from, member_of};

// The indexes' bytes, and where each ends: an index begins where the one before it ends.
#[derive(Clone, Copy)]
pub struct Archives<'i> {
    pub bytes: &'i [u8],
    pub ends: &'i [u64],
}

// A member: the number of its archive, and where its header stands there.
#[derive(Clone, Copy)]
pub struct Member {
    pub archive: usize,
    pub offset: u64,
}

impl<'i> Archives<'i> {
    #[tactic(auto, unfolding(crate::specs::Archives::start_at))]
    pub fn start(self, j: usize) -> usize
        ensures { result ≡ start_at (archives_in self.entry) j }
    {
        if j == 0 {
            return 0;
        }
        cells::get(self.ends, j - 1) as usize
    }

    // Where the last index ends.
    pub fn end(self) -> usize
        ensures { result ≡ last_end (archives_in self.entry) }
    {
        self.start(self.ends.len())
    }

    // The bytes of index j.
    #[tactic(auto, unfolding(crate::specs::Archives::index_at))]
    pub fn index(self, j: usize) -> &'i [u8]
        ensures { result.now ≡ index_at (archives_in self.entry) j }
    {
        let start = self.start(j);
        let end = cells::get(self.ends, j) as usize;
        cells::part_of(self.bytes, start, end.saturating_sub(start))
    }

    // The member of entry e, of all indexes' entries one after the other; the last index has those that none before it has.
    #[tactic(auto, unfolding(crate::specs::Archives::member_from))]
    pub fn member(self, e: usize) -> Member
        ensures { result ≡ member_of (archives_in self.entry) e }
    {
        let mut at = e;
        for j in 0..self.ends.len() {
            let index = self.index(j);
            let entries = crate::count(index);
            if j + 1 == self.ends.len() || at < entries {
                return Member {
                    archive: j,
                    offset: crate::offset(index, at),
                };
            }
            at -= entries;
        }
        Member {
            archive: self.ends.len(),
            offset: 0,
        }
    }
}
