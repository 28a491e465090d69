// Words of an operation of a list, and what they tell: numbers, names, bytes.
#![tactic(auto)]

ghost use Rattle.std.specs.Prelude.{◌≡◌, ◌<◌, slice_set};
ghost use Rattle.replay_words.specs.Words.{word_is, number_in, number_at, optional_at, name_at};
ghost use Rattle.replay_words.specs.Order.{before_of};
ghost use Rattle.replay_words.specs.Spelled.{digit_of, spelled_of, spelled, put_bytes};

mod lend;

pub use lend::{Lend, cells, rows, wide_rows};

// ---- words

#[tactic(auto, unfolding(crate::specs::Words::word_is))]
pub fn is(line: &[u8], k: usize, word: &[u8]) -> bool
    ensures { result ≡ word_is line.now k word.now }
{
    byte_slices::same_bytes(text::field(line, k), word)
}

// A word that is no number is one that no list holds.
// Kept: not an Option: each caller hands the number on as an id or a count, and the largest is refused or lends all, as the lists mean it.
#[tactic(auto, unfolding(crate::specs::Words::number_in))]
pub fn number_in(x: &[u8]) -> u64
    ensures { result ≡ number_in x.now }
{
    text::decimal(x).unwrap_or(u64::MAX)
}

#[tactic(auto, unfolding(crate::specs::Words::number_at))]
pub fn number(line: &[u8], k: usize) -> u64
    ensures { result ≡ number_at line.now k }
{
    number_in(text::field(line, k))
}

// A word that a line may lack: 0 then.
#[tactic(auto, unfolding(crate::specs::Words::optional_at))]
pub fn optional(line: &[u8], k: usize) -> u64
    ensures { result ≡ optional_at line.now k }
{
    if text::field(line, k).is_empty() {
        return 0;
    }
    number(line, k)
}

// `-` is the empty name.
#[tactic(auto, unfolding(crate::specs::Words::name_at))]
pub fn name_at(line: &[u8], k: usize) -> &[u8]
    ensures { result.now ≡ name_at line.now k }
{
    let name = text::field(line, k);
    if byte_slices::same_bytes(name, b"-") {
        return b"";
    }
    name
}

// ---- bytes

// The value of a hexadecimal digit; 0 where it is none.
#[tactic(auto, unfolding(crate::specs::Spelled::digit_of, crate::specs::Spelled::letter_of))]
fn digit(b: u8) -> u8
    ensures value { result ≡ digit_of b }
    ensures small { result < 16 }
{
    match b {
        b'0'..=b'9' => b - b'0',
        b'a'..=b'f' => b - b'a' + 10,
        _ => 0,
    }
}

// The byte that two digits of a word spell.
// Kept: by place, as the definition (spelled_of) has it, where chunks of two would have to be taken from the word's start on.
#[tactic(auto, unfolding(crate::specs::Spelled::spelled_of))]
fn spelled(word: &[u8], k: usize) -> u8
    ensures { result ≡ spelled_of word.now k }
{
    if k < word.len() / 2 {
        let high = digit(word[2 * k]);
        let low = digit(word[2 * k + 1]);
        return high * 16 + low;
    }
    0
}

// The bytes that a word spells, put from a place on; answers how many they are. A lone `-` spells none.
pub fn put_bytes(to: &mut [u8], at: usize, word: &[u8]) -> usize
    ensures { spelled to.new result ≡ put_bytes to.old at word.now }
{
    let count = word.len() / 2;
    for k in 0..count {
        let place = at.wrapping_add(k);
        if place < to.len() {
            to[place] = spelled(word, k);
        }
    }
    count
}

// ---- order

// Does a stand before b, by bytes?
// Kept: public; what programs sort names by has its definition (before_of) here.
pub fn before(a: &[u8], b: &[u8]) -> bool
    ensures { result ≡ before_of a.now b.now }
{
    a < b
}
