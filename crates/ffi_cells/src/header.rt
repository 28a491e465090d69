// A link and an answer in the cells of a header, for the calls from another language. Cells 0 to 8 hold the link (names, bytes, symbols, sections,
// inputs, lists, chains, slots, broken), 15 its key and 16 its profile, 9 the number of the refusal, 10 its place, 11 to 14 the values of the answer.
ghost use Rattle.std.specs.Prelude.{◌≡◌};
ghost use Rattle.ffi_cells.specs.Header.{is_set, flag_of, link_in, result_of, refusal_of, refused_of, reply_in, counts_in, profile_in, told, tell_of, answer_of, answer_in, settled};
ghost use Rattle.link.specs.Counts.{with_names, with_symbols};

use link::{Link, Refusal};

// Cells of a header. Those behind the profile are left.
pub const HEADER_CELLS: usize = 24;

// A header of fewer cells: refusal 1, which nothing can be written for.
pub const SHORT: u64 = 1;

const NAMES: usize = 0;

const BYTES: usize = 1;

const SYMBOLS: usize = 2;

const SECTIONS: usize = 3;

const INPUTS: usize = 4;

const LISTS: usize = 5;

const CHAINS: usize = 6;

const SLOTS: usize = 7;

const BROKEN: usize = 8;

// The answer: number, place, four values.
const NUMBER: usize = 9;

const KEY: usize = 15;

// 0 for the old profile, else the gABI's.
const PROFILE: usize = 16;

// Number 0 is a result, with its values; a refusal has none, but a list of adds, whose first value is the position.
// Kept: number and place, 0 for none, and no Result: these are the header's cells as C reads them.
#[derive(Clone, Copy)]
pub struct Reply {
    pub number: u64,
    pub place: u64,
    pub first: u64,
    pub second: u64,
    pub third: u64,
    pub fourth: u64,
}

// ---- the header

// A cell that holds yes or no: 0 is no, any other number yes.
// Kept: `!= 0` by a name: it is public, and the laws cite its definition.
#[tactic(auto, unfolding(crate::specs::Header::is_set))]
pub fn is_set(cell: u64) -> bool
    ensures { result ≡ is_set cell }
{
    cell != 0
}

// Kept: `u64::from` by a name: it is public, and the laws cite its definition.
#[tactic(auto, unfolding(crate::specs::Header::flag_of))]
pub fn flag(b: bool) -> u64
    ensures { result ≡ flag_of b }
{
    u64::from(b)
}

#[tactic(auto, unfolding(crate::specs::Header::link_in, crate::specs::Header::link_with))]
pub fn link_in(header: &[u64]) -> Link
    ensures { result ≡ link_in header.now }
{
    Link {
        names: cells::get(header, NAMES) as usize,
        bytes: cells::get(header, BYTES) as usize,
        symbols: cells::get(header, SYMBOLS) as usize,
        sections: cells::get(header, SECTIONS) as usize,
        inputs: cells::get(header, INPUTS) as usize,
        lists: cells::get(header, LISTS) as usize,
        chains: cells::get(header, CHAINS) as usize,
        slots: cells::get(header, SLOTS) as usize,
        key: cells::get(header, KEY) as usize,
        gabi: is_set(cells::get(header, PROFILE)),
        broken: is_set(cells::get(header, BROKEN)),
    }
}

// The answer: its six cells.
fn put_answer(header: &mut [u64], r: Reply)
    ensures { header.new ≡ answer_in header.old r }
{
    cells::put(header, NUMBER, r.number);
    cells::put(header, NUMBER + 1, r.place);
    cells::put(header, NUMBER + 2, r.first);
    cells::put(header, NUMBER + 3, r.second);
    cells::put(header, NUMBER + 4, r.third);
    cells::put(header, NUMBER + 5, r.fourth);
}

// The answer of a call that doesn't change a link: its cells stay.
pub fn answer(header: &mut [u64], r: Reply) -> u64
    ensures { told result header.new ≡ answer_of header.old r }
{
    put_answer(header, r);
    r.number
}

#[tactic(auto, unfolding(crate::specs::Header::counts_in))]
fn put_counts(header: &mut [u64], l: Link)
    ensures { header.new ≡ counts_in header.old l }
{
    cells::row_store(
        header,
        0,
        [
            l.names as u64,
            l.bytes as u64,
            l.symbols as u64,
            l.sections as u64,
            l.inputs as u64,
            l.lists as u64,
            l.chains as u64,
            l.slots as u64,
        ],
    );
}

// Cells 8 and 15, and the answer.
#[tactic(auto, unfolding(crate::specs::Header::reply_in))]
fn put_reply(header: &mut [u64], broken: u64, key: u64, r: Reply)
    ensures { header.new ≡ reply_in header.old broken key r }
{
    cells::row_store(
        header,
        1,
        [
            broken, r.number, r.place, r.first, r.second, r.third, r.fourth, key,
        ],
    );
}

// Behind the counts: the profile, cells 8 and 15, and the answer.
#[tactic(auto, unfolding(crate::specs::Header::profile_in))]
fn put_rest(header: &mut [u64], l: Link, r: Reply)
    ensures { header.new ≡ reply_in (profile_in header.old l) (flag_of l.broken) l.key r }
{
    cells::put(header, PROFILE, flag(l.gabi));
    put_reply(header, flag(l.broken), l.key as u64, r);
}

// The link that a call hands back, and its answer.
#[tactic(auto, unfolding(crate::specs::Header::tell_of, crate::specs::Header::header_of))]
pub fn tell(header: &mut [u64], l: Link, r: Reply) -> u64
    ensures { told result header.new ≡ tell_of header.old l r }
{
    put_counts(header, l);
    put_rest(header, l, r);
    r.number
}

// The answer; and of the link's cells the two flags, as `tell` writes them of the link in the header: 0 or 1.
fn settle(header: &mut [u64], r: Reply)
    ensures { header.new ≡ settled header.old r }
{
    let profile = is_set(cells::get(header, PROFILE));
    let broken = is_set(cells::get(header, BROKEN));
    cells::put(header, PROFILE, flag(profile));
    cells::put(header, BROKEN, flag(broken));
    put_answer(header, r);
}

// What `tell` writes of the link in the header with these counts of names: what else it holds is in its cells already, but for the flags.
pub fn tell_names(header: &mut [u64], names: usize, bytes: usize, r: Reply) -> u64
    ensures { told result header.new ≡ tell_of header.old (with_names (link_in header.old) names bytes) r }
{
    cells::put(header, NAMES, names as u64);
    cells::put(header, BYTES, bytes as u64);
    settle(header, r);
    r.number
}

// The same of the count of symbols.
pub fn tell_symbols(header: &mut [u64], symbols: usize, r: Reply) -> u64
    ensures { told result header.new ≡ tell_of header.old (with_symbols (link_in header.old) symbols) r }
{
    cells::put(header, SYMBOLS, symbols as u64);
    settle(header, r);
    r.number
}

// ---- answers

pub fn result(first: u64, second: u64, third: u64, fourth: u64) -> Reply
    ensures { result ≡ result_of first second third fourth }
{
    Reply {
        number: 0,
        place: 0,
        first,
        second,
        third,
        fourth,
    }
}

pub fn refusal(number: u64, place: u64) -> Reply
    ensures { result ≡ refusal_of number place }
{
    Reply {
        number,
        place,
        ..result(0, 0, 0, 0)
    }
}

pub fn refused(r: Refusal) -> Reply
    ensures { result ≡ refused_of r }
{
    refusal(r.number, r.place)
}
