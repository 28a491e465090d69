// What changing calls answer, as the lists write it, and lookups that a list asks for.
ghost use Rattle.std.specs.Prelude.{◌≡◌};
ghost use Rattle.text.specs.Writing.{Puts};
ghost use Rattle.replay_text.specs.RepliesAnswers.{reply_text, found_text, section_symbol_text, broken_text, counts_text, look_text};

use crate::Names;
use link::{Link, Refusal, SectionId, SymbolId};
use symbol::Symbol;
use symbols::Symbols;
use text::Writer;

// What a changing call answers where it isn't refused; Silent for an operation without answer.
#[derive(Clone, Copy)]
pub enum Reply {
    Silent,
    Id(SymbolId),
    Done,
    Merged,
    Loaded,
    NotNeeded,
}

#[derive(Clone, Copy)]
pub struct Changed {
    pub table: Symbols,
    pub reply: Result<Reply, Refusal>,
}

#[tactic(auto, using(text::specs::Proof::WritingWays::puts_none), unfolding(crate::specs::RepliesAnswers::reply_text))]
pub fn put_reply(out: &mut Writer<'_>, reply: Result<Reply, Refusal>)
    ensures { Puts out.old out.new (reply_text reply) }
{
    match reply {
        Ok(Reply::Silent) => {}
        Ok(Reply::Id(id)) => crate::put_numbered(out, b"id ", id.0 as u64),
        Ok(Reply::Done) => out.put(b"ok"),
        Ok(Reply::Merged) => out.put(b"merged"),
        Ok(Reply::Loaded) => out.put(b"loaded"),
        Ok(Reply::NotNeeded) => out.put(b"notneeded"),
        Err(refusal) => crate::put_refusal(out, refusal),
    }
}

// ---- lookups

#[tactic(auto, unfolding(crate::specs::RepliesAnswers::found_text))]
fn put_found(out: &mut Writer<'_>, names: Names<'_>, found: Result<Symbol, Refusal>)
    ensures { Puts out.old out.new (found_text names.entry.bytes.now names.entry.cells.now found) }
{
    match found {
        Ok(symbol) => crate::put_symbol(out, names, symbol),
        Err(refusal) => crate::put_refusal(out, refusal),
    }
}

#[tactic(auto, unfolding(crate::specs::RepliesAnswers::section_symbol_text))]
fn put_section_symbol(out: &mut Writer<'_>, id: Option<SymbolId>)
    ensures { Puts out.old out.new (section_symbol_text id) }
{
    match id {
        None => out.put(b"none"),
        Some(id) => crate::put_numbered(out, b"id ", id.0 as u64),
    }
}

// Kept: not `put_flagged`, which puts two pieces: this is one, put whole or not at all, as the definition (broken_text) has it.
#[tactic(auto, unfolding(crate::specs::RepliesAnswers::broken_text))]
fn put_broken(out: &mut Writer<'_>, broken: bool)
    ensures { Puts out.old out.new (broken_text broken) }
{
    if broken {
        out.put(b" 1");
    } else {
        out.put(b" 0");
    }
}

// `counts NAMES BYTES SYMBOLS SECTIONS INPUTS LISTS BROKEN`
fn put_counts(out: &mut Writer<'_>, l: Link)
    ensures { Puts out.old out.new (counts_text l) }
{
    crate::put_numbered(out, b"counts ", l.names as u64);
    crate::put_numbered(out, b" ", l.bytes as u64);
    crate::put_numbered(out, b" ", l.symbols as u64);
    crate::put_numbered(out, b" ", l.sections as u64);
    crate::put_numbered(out, b" ", l.inputs as u64);
    crate::put_numbered(out, b" ", l.lists as u64);
    put_broken(out, l.broken);
}

// A link's tables, lent to be looked at.
#[derive(Clone, Copy)]
pub struct View<'a> {
    pub table: Symbols,
    pub names: Names<'a>,
    pub symbols: &'a [u64],
    pub sections: &'a [u64],
}

impl View<'_> {
    // `counts`, `get ID`, `global NAME`, `sectionsymbol SECTION`
    // Kept: the words are asked one by one; over a match on the first field the proof didn't close (tried).
    #[tactic(auto, unfolding(crate::specs::RepliesAnswers::look_text))]
    pub fn look(self, line: &[u8], out: &mut Writer<'_>)
        ensures { Puts out.old out.new
            (look_text self.entry.table.link self.entry.names.bytes.now self.entry.names.cells.now self.entry.symbols.now self.entry.sections.now line.now) }
    {
        if replay_words::is(line, 0, b"counts") {
            return put_counts(out, self.table.link);
        }
        if replay_words::is(line, 0, b"get") {
            let id = SymbolId(replay_words::number(line, 1) as usize);
            return put_found(out, self.names, symbols::get(self.table, self.symbols, id));
        }
        if replay_words::is(line, 0, b"global") {
            let known = interner::Names {
                link: self.table.link,
                bytes: self.names.bytes,
                cells: self.names.cells,
            };
            let id = known.find(replay_words::name_at(line, 1));
            let found = symbols::get_global(self.table, self.names.cells, self.symbols, id);
            return put_found(out, self.names, found);
        }
        let section = SectionId(replay_words::number(line, 1) as usize);
        put_section_symbol(
            out,
            symbols::section_symbol_id(self.table, self.sections, section),
        );
    }
}
