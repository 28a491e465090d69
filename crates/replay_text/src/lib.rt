// For programs that replay the oracle's lists: answers as the lists write them.
#![tactic(auto)]

ghost use Rattle.std.specs.Prelude.{◌≡◌, [], ◌∷◌};
ghost use Rattle.text.specs.Writing.{Puts};
ghost use Rattle.replay_text.specs.Answers.{numbered, refusal_text, shown, name_text, signed_text, value_text, size_text, flagged, visibility_text, type_text, file_text, symbol_text};

mod replies;

use link::{Interned, Refusal};
pub use replies::{Changed, Reply, View, put_reply};
use symbol::{Symbol, SymbolType, SymbolValue, SymbolVisibility};
use text::Writer;

// A link's names: their bytes, and the cells that say where each begins.
// Kept: not interner::Names, which also holds the link: texts need none.
#[derive(Clone, Copy)]
pub struct Names<'a> {
    pub bytes: &'a [u8],
    pub cells: &'a [u64],
}

pub fn put_numbered(out: &mut Writer<'_>, word: &[u8], v: u64)
    ensures { Puts out.old out.new (numbered word.now v) }
{
    out.put(word);
    out.put_decimal(v);
}

pub fn put_refusal(out: &mut Writer<'_>, r: Refusal)
    ensures { Puts out.old out.new (refusal_text r) }
{
    put_numbered(out, b"refused ", r.number);
    put_numbered(out, b" ", r.place);
}

// The empty name is written as `-`.
#[tactic(auto, unfolding(crate::specs::Answers::shown))]
pub fn put_shown(out: &mut Writer<'_>, name: &[u8])
    ensures { Puts out.old out.new (shown name.now ∷ []) }
{
    if name.is_empty() {
        out.put(b"-");
    } else {
        out.put(name);
    }
}

#[tactic(auto, unfolding(crate::specs::Answers::name_text))]
pub fn put_name(out: &mut Writer<'_>, names: Names<'_>, id: Interned)
    ensures { Puts out.old out.new (name_text names.entry.bytes.now names.entry.cells.now id.0) }
{
    put_shown(out, interner::name_of(names.bytes, names.cells, id));
}

// An offset, by its word.
#[tactic(auto, unfolding(crate::specs::Answers::signed_text))]
fn put_offset(out: &mut Writer<'_>, word: u64)
    ensures { Puts out.old out.new (signed_text word) }
{
    if word < 0x8000_0000_0000_0000 {
        put_numbered(out, b" + ", word);
    } else {
        put_numbered(out, b" - ", 0xffff_ffff_ffff_ffff - word + 1);
    }
}

#[tactic(auto, unfolding(crate::specs::Answers::value_text))]
fn put_value(out: &mut Writer<'_>, v: SymbolValue)
    ensures { Puts out.old out.new (value_text v) }
{
    match v {
        SymbolValue::Null => out.put(b" null"),
        SymbolValue::Absolute { value } => put_numbered(out, b" abs ", value),
        SymbolValue::Section { section } => put_numbered(out, b" sec ", section.0 as u64),
        SymbolValue::SectionRelative { section, offset } => {
            put_numbered(out, b" rel ", section.0 as u64);
            put_offset(out, symbol::word_of(offset));
        }
        SymbolValue::SectionVirtualAddress { section, address } => {
            put_numbered(out, b" addr ", section.0 as u64);
            put_numbered(out, b" ", address);
        }
        SymbolValue::SectionNotLoaded => out.put(b" notloaded"),
        SymbolValue::ExternallyDefined => out.put(b" external"),
        SymbolValue::Undefined { zero: true } => out.put(b" undef 1"),
        SymbolValue::Undefined { zero: false } => out.put(b" undef 0"),
        SymbolValue::Common { alignment } => put_numbered(out, b" com ", alignment),
    }
}

// A size of 0 isn't told.
#[tactic(auto, using(text::specs::Proof::WritingWays::puts_none), unfolding(crate::specs::Answers::size_text))]
fn put_size(out: &mut Writer<'_>, size: u64)
    ensures { Puts out.old out.new (size_text size) }
{
    if size != 0 {
        put_numbered(out, b" size ", size);
    }
}

fn put_flagged(out: &mut Writer<'_>, word: &[u8], flag: bool)
    ensures { Puts out.old out.new (flagged word.now flag) }
{
    out.put(word);
    if flag {
        out.put(b"1");
    } else {
        out.put(b"0");
    }
}

// Class and hidden.
#[tactic(auto, unfolding(crate::specs::Answers::visibility_text))]
fn put_visibility(out: &mut Writer<'_>, v: SymbolVisibility)
    ensures { Puts out.old out.new (visibility_text v) }
{
    match v {
        SymbolVisibility::Local => out.put(b" local 0"),
        SymbolVisibility::Global { weak: true, hidden } => put_flagged(out, b" weak ", hidden),
        SymbolVisibility::Global {
            weak: false,
            hidden,
        } => put_flagged(out, b" global ", hidden),
    }
}

// Kept: not `put_numbered`: each is one piece, put whole or not at all, as the definition (type_text) has it.
#[tactic(auto, unfolding(crate::specs::Answers::type_text))]
fn put_type(out: &mut Writer<'_>, t: SymbolType)
    ensures { Puts out.old out.new (type_text t) }
{
    match t {
        SymbolType::NoType => out.put(b" 0"),
        SymbolType::Object => out.put(b" 1"),
        SymbolType::Function => out.put(b" 2"),
        SymbolType::Section => out.put(b" 3"),
    }
}

#[tactic(auto, unfolding(crate::specs::Answers::file_text))]
fn put_file(out: &mut Writer<'_>, names: Names<'_>, f: Option<Interned>)
    ensures { Puts out.old out.new (file_text names.entry.bytes.now names.entry.cells.now f) }
{
    match f {
        None => out.put(b" 0 -"),
        Some(id) => {
            out.put(b" 1 ");
            put_name(out, names, id);
        }
    }
}

// `symbol ID NAME CLASS HIDDEN TYPE OPTNAME VALUE`, and ` size N`
pub fn put_symbol(out: &mut Writer<'_>, names: Names<'_>, s: Symbol)
    ensures { Puts out.old out.new (symbol_text names.entry.bytes.now names.entry.cells.now s) }
{
    put_numbered(out, b"symbol ", s.id.0 as u64);
    out.put(b" ");
    put_name(out, names, s.name);
    put_visibility(out, s.visibility);
    put_type(out, s.kind);
    put_file(out, names, s.file);
    put_value(out, s.value);
    put_size(out, s.size);
}
