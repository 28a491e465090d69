// A hash of names that depends on a key: who doesn't know the key can't choose names that share a chain.
#![tactic(auto)]

ghost use Rattle.std.specs.Prelude.{◌≡◌, ◌+◌, ◌<◌, length};
ghost use Rattle.byte_slices.specs.Bytes.{word_at};
ghost use Rattle.keyed_hash.specs.Keyed.{folded, mixed, point_of, hash_of};
ghost use Rattle.keyed_hash.specs.Ways.{last_mixed};

// No hash is as much: 2^32.
pub const HASH_BOUND: usize = 0x1_0000_0000;

// 2^33, and what it is modulo 2^33 - 9.
const FOLD_BOUND: usize = 0x2_0000_0000;

const FOLD_REST: usize = 9;

// No point is as much: 2^28.
const POINT_BOUND: usize = 0x1000_0000;

// The point of key 0.
const BASE_POINT: usize = 0x9e3_779b;

// The bytes of a word.
const WORD_BYTES: usize = 4;

// The same number modulo 2^33 - 9: above 2^33, nines.
fn folded(x: usize) -> usize
    ensures { result ≡ folded x }
{
    x % FOLD_BOUND + x / FOLD_BOUND * FOLD_REST
}

// One more word of 32 bits in the hash of those before it, at the point r.
fn mixed(r: usize, h: usize, w: usize) -> usize
    requires r_bound { r < 0x10000000 }
    requires h_bound { h < 0x400000000 }
    requires w_bound { w < 0x100000000 }
    ensures value { result ≡ mixed r h w }
    ensures small { result < 0x400000000 }
{
    folded((h + w) * r)
}

// Never 0: the one key that would give it has the base.
fn point(key: usize, base: usize) -> usize
    requires { base < 0x10000000 }
    ensures value { result ≡ point_of key base }
    ensures small { result < 0x10000000 }
{
    let r = (key % POINT_BOUND + base) % POINT_BOUND;
    if r == 0 { base } else { r }
}

// A word whose bytes are all there, read at once.
// Kept: as byte_slices' own, which isn't public, since it asks that the bytes are there; `word_at`, which asks nothing, would test it for each word.
#[tactic(auto, unfolding(byte_slices::specs::Bytes::word_at))]
fn whole_word(x: &[u8], i: usize) -> usize
    requires { i + 3 < length x.now }
    ensures value { result ≡ word_at x.now i }
    ensures small { result < 0x100000000 }
{
    u32::from_le_bytes([x[i], x[i + 1], x[i + 2], x[i + 3]]) as usize
}

// The last word, of which some bytes are missing, taken in; nothing where none is left.
fn last_mixed(r: usize, h: usize, x: &[u8], i: usize) -> usize
    requires r_bound { r < 0x10000000 }
    requires h_bound { h < 0x400000000 }
    ensures { result ≡ last_mixed r h x.now i }
{
    if i < x.len() {
        mixed(r, h, byte_slices::word_at(x, i))
    } else {
        h
    }
}

// Any number is a key; its lowest 28 bits count.
pub fn hash(key: usize, x: &[u8]) -> usize
    ensures value { result ≡ hash_of key x.now }
    ensures small { result < 0x100000000 }
{
    let r = point(key, BASE_POINT);
    let mut h = x.len() % HASH_BOUND;
    let words = x.len() / WORD_BYTES;
    // Kept: words by their places and no chunks, since the hash is defined over places, and the last word is read by its place too.
    for k in 0..words {
        h = mixed(r, h, whole_word(x, k * WORD_BYTES));
    }
    folded(last_mixed(r, h, x, words * WORD_BYTES)) % FOLD_BOUND / 2
}
