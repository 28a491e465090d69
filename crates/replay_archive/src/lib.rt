// An archive as a list tells it: its System V index in lent bytes, put together from entries or told whole; and what a walk over it answers.
#![tactic(auto)]

ghost use Rattle.std.specs.Prelude.{◌≡◌};
ghost use Rattle.text.specs.Writing.{Puts};
ghost use Rattle.replay_archive.specs.Offer.{offer_text};
ghost use Rattle.replay_archive.specs.Index.{told_as, put_byte, put_word, offset_place, announce_of, named, entry_of, index_of};

mod required;

use archive_walk::Offer;
use link::Refusal;
pub use required::Entries;
use text::Writer;

// The length of the index so far, 0 for an archive without one; entries told so far; the entry by which a member was offered last.
// Kept: 0 and no Option: an index of no bytes is refused as no index is (archive_index).
#[derive(Clone, Copy, Debug, Default, PartialEq, Eq)]
pub struct Archive {
    pub length: usize,
    pub entries: usize,
    pub offered: Option<usize>,
}

// ---- the index

// Kept: of bytes, as `cells::put` of cells; of a number its last byte is put.
#[tactic(auto, unfolding(crate::specs::Index::put_byte))]
fn put_byte(file: &mut [u8], i: usize, v: u64)
    ensures { file.new ≡ put_byte file.old i v }
{
    if i < file.len() {
        file[i] = (v % 256) as u8;
    }
}

// 32 bits, big-endian.
// Kept: byte by byte, since a part of the word is put where not all of it has room.
#[tactic(auto, unfolding(crate::specs::Index::put_word))]
fn put_word(file: &mut [u8], i: usize, v: u64)
    ensures { file.new ≡ put_word file.old i v }
{
    put_byte(file, i, v / 0x100_0000);
    put_byte(file, i.wrapping_add(1), v / 0x1_0000);
    put_byte(file, i.wrapping_add(2), v / 0x100);
    put_byte(file, i.wrapping_add(3), v);
}

// The place of offset k in an index; 65,535 entries at most.
#[tactic(auto, unfolding(crate::specs::Index::offset_place))]
fn offset_place(k: usize) -> usize
    ensures { result ≡ offset_place k }
{
    if k < 65535 { 4 + 4 * k } else { 0 }
}

impl Archive {
    // `archive HASINDEX COUNT`
    #[tactic(auto, unfolding(crate::specs::Index::announce_of))]
    pub fn announced(file: &mut [u8], at: usize, line: &[u8]) -> Archive
        ensures { told_as file.new result ≡ announce_of file.old at line.now }
    {
        if !replay_words::is(line, 1, b"1") {
            return Archive::default();
        }
        let count = replay_words::number(line, 2);
        put_word(file, at, count);
        Archive {
            length: offset_place(count as usize),
            entries: 0,
            offered: None,
        }
    }

    // A name and its zero byte behind what is told.
    #[tactic(auto, unfolding(crate::specs::Index::named))]
    fn put_name(&mut self, file: &mut [u8], start: usize, name: &[u8])
        ensures { told_as file.new self.new ≡ named file.old start self.old name.now }
    {
        byte_slices::copy_in(file, start, name);
        put_byte(file, start.wrapping_add(name.len()), 0);
        self.length = self.length.wrapping_add(name.len()).wrapping_add(1);
        self.entries = symbol::next(self.entries);
        self.offered = None;
    }

    // `entry OFFSET NAME`
    #[tactic(auto, unfolding(crate::specs::Index::entry_of))]
    pub fn entry(&mut self, file: &mut [u8], at: usize, line: &[u8])
        ensures { told_as file.new self.new ≡ entry_of file.old at self.old line.now }
    {
        if self.length == 0 {
            return;
        }
        let place = at.wrapping_add(offset_place(self.entries));
        put_word(file, place, replay_words::number(line, 1));
        let start = at.wrapping_add(self.length);
        self.put_name(file, start, replay_words::name_at(line, 2));
    }

    // `index BYTES`
    #[tactic(auto, unfolding(crate::specs::Index::index_of))]
    pub fn index(&mut self, file: &mut [u8], at: usize, line: &[u8])
        ensures { told_as file.new self.new ≡ index_of file.old at self.old line.now }
    {
        self.length = replay_words::put_bytes(file, at, text::field(line, 1));
        self.offered = None;
    }
}

// ---- answers

#[tactic(auto, unfolding(crate::specs::Offer::offer_text))]
pub fn put_offer(out: &mut Writer<'_>, entries: Entries<'_>, offer: Result<Offer, Refusal>)
    ensures { Puts out.old out.new (offer_text entries.entry.index.now entries.entry.rows.now entries.entry.count offer) }
{
    match offer {
        Ok(
            Offer::Member {
                archive: _,
                offset,
                entry,
                passes,
            },
        ) => entries.put_member(out, offset, entry, passes),
        Ok(Offer::Done { passes }) => replay_text::put_numbered(out, b"done ", passes as u64),
        Err(refusal) => replay_text::put_refusal(out, refusal),
    }
}
