// The row that a symbol would become, by its kind: binding and visibility, then value. What is refused stands as its number in the row.
ghost use Rattle.std.specs.Prelude.{◌≡◌, cond};
ghost use Rattle.symbol.specs.Codes.{words_of};
ghost use Rattle.upcoming_symbol.specs.Judge.{scope_of, shown_of, hidden_of, judge_of};
ghost use Rattle.upcoming_symbol.specs.Upcoming.{words_or, in_section, converted_of, common_of, common_by_binding, value_of, elf_row_of, library_code, external_row_of, local_row, global_row, given_words};

use crate::{Conversion, ElfSymbol};
use link::{Cause, Interned};
use symbol::{Row, SymbolValue, SymbolVisibility, Words};

// The scope of the symbol's row, by its binding, under a visibility that hides or doesn't.
#[tactic(auto, unfolding(crate::specs::Judge::shown_of, crate::specs::Judge::hidden_of))]
fn bound(binding: u64, hidden: bool) -> Result<SymbolVisibility, Cause>
    ensures { scope_of result ≡ cond hidden (hidden_of binding) (shown_of binding) }
{
    match binding {
        crate::STB_LOCAL if hidden => Err(Cause::LocalHidden),
        crate::STB_LOCAL => Ok(SymbolVisibility::Local),
        crate::STB_GLOBAL => Ok(SymbolVisibility::Global {
            weak: false,
            hidden,
        }),
        crate::STB_WEAK => Ok(SymbolVisibility::Global { weak: true, hidden }),
        _ => Err(Cause::UnsupportedBinding),
    }
}

// By visibility first, then by binding.
#[tactic(auto, unfolding(crate::specs::Judge::judge_of))]
fn judge(binding: u64, visibility: u64) -> Result<SymbolVisibility, Cause>
    ensures { scope_of result ≡ judge_of binding visibility }
{
    match visibility {
        crate::STV_DEFAULT => bound(binding, false),
        crate::STV_HIDDEN => bound(binding, true),
        _ => Err(Cause::UnsupportedVisibility),
    }
}

// The scope's code, or the number of the refusal.
fn scope(judged: Result<SymbolVisibility, Cause>) -> u64
    ensures { result ≡ scope_of judged }
{
    match judged {
        Ok(visibility) => visibility.into(),
        Err(cause) => cause.into(),
    }
}

#[tactic(auto, unfolding(crate::specs::Upcoming::in_section))]
fn in_section(section: u64, empty: bool, value: u64) -> Words
    ensures { result ≡ in_section section empty value }
{
    if empty && value == 0 {
        Words::new(symbol::KIND_SECTION, section, 0)
    } else {
        Words::new(symbol::KIND_RELATIVE, section, value)
    }
}

#[tactic(auto, unfolding(crate::specs::Upcoming::converted_of))]
fn converted(c: Conversion, empty: bool, value: u64) -> Result<Words, Cause>
    ensures { words_or result ≡ converted_of c empty value }
{
    match c {
        Conversion::Nothing => Err(Cause::SectionWithoutId),
        Conversion::NotLoaded => Ok(Words::from(SymbolValue::SectionNotLoaded)),
        Conversion::Section { id } => Ok(in_section(id.0 as u64, empty, value)),
    }
}

// The alignment of a common is a power of two.
#[tactic(auto, unfolding(crate::specs::Upcoming::common_of))]
fn common(alignment: u64) -> Result<Words, Cause>
    ensures { words_or result ≡ common_of alignment }
{
    if alignment.is_power_of_two() {
        Ok(Words::from(SymbolValue::Common { alignment }))
    } else {
        Err(Cause::CommonAlignment)
    }
}

#[tactic(auto, unfolding(crate::specs::Upcoming::common_by_binding))]
fn common_by_binding(binding: u64, alignment: u64) -> Result<Words, Cause>
    ensures { words_or result ≡ common_by_binding binding alignment }
{
    if binding == crate::STB_LOCAL {
        Err(Cause::Common)
    } else {
        common(alignment)
    }
}

#[tactic(auto, unfolding(crate::specs::Upcoming::value_of, crate::specs::Upcoming::undefined_of))]
fn value_of(c: Conversion, e: ElfSymbol, empty: bool) -> Result<Words, Cause>
    ensures { words_or result ≡ value_of c e empty }
{
    match e.section {
        crate::SHN_UNDEF => Ok(Words::from(SymbolValue::Undefined {
            zero: e.binding == crate::STB_WEAK,
        })),
        crate::SHN_ABS => Ok(Words::from(SymbolValue::Absolute { value: e.value })),
        crate::SHN_COMMON => common_by_binding(e.binding, e.value),
        _ => converted(c, empty, e.value),
    }
}

// The value's words, or the number of the refusal in the place of their kind.
fn words(value: Result<Words, Cause>) -> Words
    ensures { result ≡ words_or value }
{
    match value {
        Ok(words) => words,
        Err(cause) => Words::new(cause.into(), 0, 0),
    }
}

// Of an ELF symbol, by what its section number stands for, under a name that has or would get this id.
// Kept: the file as the row's cell has it (`symbol::file_cell`), since the row holds that number.
#[tactic(auto, unfolding(crate::specs::Upcoming::elf_row_of))]
pub fn elf_row(c: Conversion, e: ElfSymbol, name: Interned, empty: bool, file: u64) -> Row
    ensures { result ≡ elf_row_of c e name empty file }
{
    Row {
        name,
        kind: e.kind,
        file,
        scope: scope(judge(e.binding, e.visibility)),
        value: words(value_of(c, e, empty)),
        size: e.size,
    }
}

// In the gABI profile a shared object hides no row.
#[tactic(auto, using(symbol::specs::Proof::Ways::show_same), unfolding(crate::specs::Upcoming::library_code))]
fn library_code(gabi: bool, code: u64) -> u64
    ensures { result ≡ library_code gabi code }
{
    if symbol::passes_hidden(gabi, code) {
        SymbolVisibility::from(code).show().into()
    } else {
        code
    }
}

// Of a symbol that a shared object defines.
#[tactic(auto, unfolding(crate::specs::Upcoming::external_row_of))]
pub fn external_row(gabi: bool, name: Interned, binding: u64, visibility: u64) -> Row
    ensures { result ≡ external_row_of gabi name binding visibility }
{
    Row {
        name,
        kind: symbol::STT_NOTYPE,
        file: 0,
        scope: library_code(gabi, scope(judge(binding, visibility))),
        value: SymbolValue::ExternallyDefined.into(),
        size: 0,
    }
}

// Of a symbol without a name.
pub(super) fn local(kind: u64, value: SymbolValue) -> Row
    ensures { result ≡ local_row kind (words_of value) }
{
    Row {
        name: Interned(0),
        kind,
        file: 0,
        scope: symbol::LOCAL,
        value: value.into(),
        size: 0,
    }
}

// A value that a caller hands in.
#[tactic(auto, unfolding(crate::specs::Upcoming::given_words))]
pub(super) fn given_words(value: SymbolValue) -> Words
    ensures { result ≡ given_words value }
{
    match value {
        SymbolValue::Common { alignment } => words(common(alignment)),
        _ => value.into(),
    }
}

// Of a strong global without a type.
pub(super) fn global(name: Interned, hidden: bool, value: Words) -> Row
    ensures { result ≡ global_row name hidden value }
{
    Row {
        name,
        kind: symbol::STT_NOTYPE,
        file: 0,
        scope: SymbolVisibility::Global {
            weak: false,
            hidden,
        }
        .into(),
        value,
        size: 0,
    }
}
