// The calls for another language, as numbers and slices: `rt lib` writes out/libhidvorn.a. A slice is a pointer and a length. A
// header of at least 24 cells holds the link and the answer (ffi_cells); the result is the number of the refusal, 0 for a result. The library that
// a call stands for says which values it answers.
// Kept: slices one by one, as C lends them.
#![tactic(auto)]

ghost use Rattle.ffi_cells.specs.Contract.{told_exit};
ghost use Rattle.ffi_names.specs.Contract as Names;
ghost use Rattle.ffi_symbols.specs.Contract as Symbols;
ghost use Rattle.ffi_list.specs.Contract as Adds;
ghost use Rattle.ffi_symbols.specs.LookupContract as Lookup;
ghost use Rattle.ffi_merge.specs.Contract as Merge;
ghost use Rattle.ffi_merge.specs.FileContract as File;
ghost use Rattle.ffi_preview.specs.Contract as Preview;
ghost use Rattle.ffi_load.specs.Contract as Load;
ghost use Rattle.ffi_load.specs.Contract.{LoadMeets};
ghost use Rattle.archive_index.specs.Archives.{archives_lent};
ghost use Rattle.ffi_archive.specs.Contract as Archive;
ghost use Rattle.ffi_collect.specs.Calls.{entry_of};
ghost use Rattle.ffi_collect.specs.Contract.{run_exit, RunMeets, PlainMeets};
ghost use Rattle.ffi_report.specs.Contract.{title_exit, TitleMeets};
ghost use Rattle.gc_sections.specs.Run.{lists_in};
ghost use Rattle.shared_objects.specs.Load.{library_in};

#[unsafe(no_mangle)]
pub extern "C" fn hidvorn_new(
    header: &mut [u64],
    key: usize,
    profile: u64,
    bytes: &mut [u8],
    names: &mut [u64],
    symbols: &mut [u64],
    sections: &mut [u64],
) -> u64
    ensures { Symbols.NewMeets header.old key profile bytes.old names.old symbols.old sections.old (Symbols.new_exit result header bytes names symbols sections) }
{
    ffi_symbols::new(header, key, profile, bytes, names, symbols, sections)
}

#[unsafe(no_mangle)]
pub extern "C" fn hidvorn_intern(
    header: &mut [u64],
    bytes: &mut [u8],
    names: &mut [u64],
    name: &[u8],
) -> u64
    ensures { Names.InternMeets header.old bytes.old names.old name.now (Names.intern_exit result header bytes names) }
{
    ffi_names::intern(header, bytes, names, name)
}

#[unsafe(no_mangle)]
pub extern "C" fn hidvorn_resolve(header: &mut [u64], bytes: &[u8], names: &[u64], id: usize) -> u64
    ensures { Names.ResolveMeets header.old bytes.now names.now id (told_exit result header) }
{
    ffi_names::resolve(header, bytes, names, id)
}

#[unsafe(no_mangle)]
pub extern "C" fn hidvorn_find(header: &mut [u64], bytes: &[u8], names: &[u64], name: &[u8]) -> u64
    ensures { Names.FindMeets header.old bytes.now names.now name.now (told_exit result header) }
{
    ffi_names::find(header, bytes, names, name)
}

#[unsafe(no_mangle)]
pub extern "C" fn hidvorn_add(
    header: &mut [u64],
    names: &mut [u64],
    symbols: &mut [u64],
    sections: &mut [u64],
    conversion: &[u64],
    item: &[u64],
) -> u64
    ensures { Symbols.AddMeets header.old names.old symbols.old sections.old conversion.now item.now (Symbols.add_exit result header names symbols sections) }
{
    ffi_symbols::add(header, names, symbols, sections, conversion, item)
}

#[unsafe(no_mangle)]
pub extern "C" fn hidvorn_add_list(
    header: &mut [u64],
    names: &mut [u64],
    symbols: &mut [u64],
    sections: &mut [u64],
    conversion: &[u64],
    adds: &[u64],
    ids: &mut [u64],
) -> u64
    ensures { Adds.ListMeets header.old names.old symbols.old sections.old conversion.now adds.now ids.old (Adds.list_exit result header names symbols sections ids) }
{
    ffi_list::add_list(header, names, symbols, sections, conversion, adds, ids)
}

#[unsafe(no_mangle)]
pub extern "C" fn hidvorn_remove(
    header: &mut [u64],
    symbols: &mut [u64],
    sections: &mut [u64],
    id: usize,
) -> u64
    ensures { Symbols.RemoveMeets header.old symbols.old sections.old id (Symbols.remove_exit result header symbols sections) }
{
    ffi_symbols::remove(header, symbols, sections, id)
}

#[unsafe(no_mangle)]
pub extern "C" fn hidvorn_get(
    header: &mut [u64],
    symbols: &[u64],
    id: usize,
    out: &mut [u64],
) -> u64
    ensures { Lookup.GetMeets header.old symbols.now id out.old (Lookup.found_exit result header out) }
{
    ffi_symbols::get(header, symbols, id, out)
}

#[unsafe(no_mangle)]
pub extern "C" fn hidvorn_get_global(
    header: &mut [u64],
    names: &[u64],
    symbols: &[u64],
    name: usize,
    out: &mut [u64],
) -> u64
    ensures { Lookup.GetGlobalMeets header.old names.now symbols.now name out.old (Lookup.found_exit result header out) }
{
    ffi_symbols::get_global(header, names, symbols, name, out)
}

#[unsafe(no_mangle)]
pub extern "C" fn hidvorn_section_symbol_id(
    header: &mut [u64],
    sections: &[u64],
    section: usize,
) -> u64
    ensures { Lookup.SectionSymbolMeets header.old sections.now section (told_exit result header) }
{
    ffi_symbols::section_symbol_id(header, sections, section)
}

#[unsafe(no_mangle)]
pub extern "C" fn hidvorn_add_group(
    header: &mut [u64],
    bytes: &mut [u8],
    names: &mut [u64],
    work: &mut [u64],
    headers: &[u64],
    entries: &[u64],
    contents: &[u64],
    image: &[u8],
    t: usize,
    n: usize,
) -> u64
    ensures { Merge.GroupMeets header.old (Merge.group_object headers entries contents image t) bytes.old names.old work.old n (Merge.group_exit result header bytes names work) }
{
    ffi_merge::add_group(
        header, bytes, names, work, headers, entries, contents, image, t, n,
    )
}

#[unsafe(no_mangle)]
pub extern "C" fn hidvorn_merge_elf(
    header: &mut [u64],
    bytes: &mut [u8],
    names: &mut [u64],
    symbols: &mut [u64],
    sections: &mut [u64],
    inputs: &mut [u64],
    lists: &mut [u64],
    work: &mut [u64],
    ids: &mut [u64],
    headers: &[u64],
    entries: &[u64],
    contents: &[u64],
    image: &[u8],
    shstrndx: usize,
) -> u64
    ensures { Merge.MergeMeets header.old (Merge.merge_object headers entries contents image shstrndx) (Merge.link_rows bytes names symbols sections inputs lists work ids) (told_exit result header) }
{
    ffi_merge::merge_elf(
        header, bytes, names, symbols, sections, inputs, lists, work, ids, headers, entries,
        contents, image, shstrndx,
    )
}

#[unsafe(no_mangle)]
pub extern "C" fn hidvorn_count_file(answer: &mut [u64], file: &[u8]) -> u64
    ensures { File.CountMeets answer.old file.now (File.count_exit result answer) }
{
    ffi_merge::count_file(answer, file)
}

#[unsafe(no_mangle)]
pub extern "C" fn hidvorn_preview_elf(
    header: &mut [u64],
    bytes: &[u8],
    names: &[u64],
    symbols: &[u64],
    sections: &[u64],
    inputs: &[u64],
    lists: &[u64],
    copy: &mut [u64],
    copy_bytes: &mut [u8],
    copy_names: &mut [u64],
    copy_symbols: &mut [u64],
    copy_sections: &mut [u64],
    copy_inputs: &mut [u64],
    copy_lists: &mut [u64],
    work: &mut [u64],
    ids: &mut [u64],
    headers: &[u64],
    entries: &[u64],
    contents: &[u64],
    image: &[u8],
    shstrndx: usize,
) -> u64
    ensures { Preview.PreviewMeets header.old copy.old (Preview.preview_object headers entries contents image shstrndx) (Preview.tables_in bytes names symbols sections inputs lists)
        (Preview.copy_rows copy_bytes copy_names copy_symbols copy_sections copy_inputs copy_lists work ids) (Preview.preview_exit result header copy) }
{
    ffi_preview::preview_elf(
        header,
        bytes,
        names,
        symbols,
        sections,
        inputs,
        lists,
        copy,
        copy_bytes,
        copy_names,
        copy_symbols,
        copy_sections,
        copy_inputs,
        copy_lists,
        work,
        ids,
        headers,
        entries,
        contents,
        image,
        shstrndx,
    )
}

#[unsafe(no_mangle)]
pub extern "C" fn hidvorn_read_file(answer: &mut [u64], rows: &mut [u64], file: &[u8]) -> u64
    ensures { File.ReadMeets answer.old file.now rows.old (File.read_exit result answer rows) }
{
    ffi_merge::read_file(answer, rows, file)
}

#[unsafe(no_mangle)]
pub extern "C" fn hidvorn_merge_file(
    header: &mut [u64],
    bytes: &mut [u8],
    names: &mut [u64],
    symbols: &mut [u64],
    sections: &mut [u64],
    inputs: &mut [u64],
    lists: &mut [u64],
    work: &mut [u64],
    ids: &mut [u64],
    rows: &mut [u64],
    file: &[u8],
) -> u64
    ensures { File.FileMeets header.old file.now (File.lent_rows bytes names symbols sections inputs lists work ids rows) (told_exit result header) }
{
    ffi_merge::merge_file(
        header, bytes, names, symbols, sections, inputs, lists, work, ids, rows, file,
    )
}

#[unsafe(no_mangle)]
pub extern "C" fn hidvorn_load_shared_object<'a>(
    header: &mut [u64],
    bytes: &mut [u8],
    names: &mut [u64],
    symbols: &mut [u64],
    sections: &mut [u64],
    inputs: &mut [u64],
    lists: &mut [u64],
    marks: &mut [u64],
    entries: &[u64],
    file: &'a [u8],
    needs: &[u64],
    path: &'a [u8],
    archived: bool,
    sonamed: bool,
    soname: usize,
    asneeded: bool,
) -> u64
    ensures { LoadMeets header.old (library_in entries file needs path archived sonamed soname asneeded) (Load.link_rows bytes names symbols sections inputs lists marks) (told_exit result header) }
{
    ffi_load::load_shared_object(
        header, bytes, names, symbols, sections, inputs, lists, marks, entries, file, needs, path,
        archived, sonamed, soname, asneeded,
    )
}

#[unsafe(no_mangle)]
pub extern "C" fn hidvorn_archive_start(
    header: &mut [u64],
    walk: &mut [u64],
    key: usize,
    index: &[u8],
    ends: &[u64],
    rows: &mut [u64],
) -> u64
    ensures { Archive.StartMeets header.old walk.old key (archives_lent index ends) rows.old (Archive.walk_exit result header walk rows) }
{
    ffi_archive::archive_start(header, walk, key, index, ends, rows)
}

#[unsafe(no_mangle)]
pub extern "C" fn hidvorn_archive_next(
    header: &mut [u64],
    walk: &mut [u64],
    index: &[u8],
    ends: &[u64],
    rows: &mut [u64],
    bytes: &[u8],
    names: &[u64],
    symbols: &[u64],
) -> u64
    ensures { Archive.NextMeets header.old walk.old (archives_lent index ends) rows.old bytes.now names.now symbols.now (Archive.walk_exit result header walk rows) }
{
    ffi_archive::archive_next(header, walk, index, ends, rows, bytes, names, symbols)
}

#[unsafe(no_mangle)]
pub extern "C" fn hidvorn_shadowed(
    header: &mut [u64],
    walk: &[u64],
    index: &[u8],
    rows: &[u64],
    bytes: &[u8],
    names: &[u64],
    symbols: &[u64],
    told: &mut [u64],
) -> u64
    ensures { Archive.ShadowedMeets header.old walk.now index.now rows.now bytes.now names.now symbols.now told.old (Archive.shadowed_exit result header told) }
{
    ffi_archive::shadowed(header, walk, index, rows, bytes, names, symbols, told)
}

#[unsafe(no_mangle)]
pub extern "C" fn hidvorn_matches(
    header: &mut [u64],
    walk: &[u64],
    index: &[u8],
    rows: &[u64],
    entry: usize,
    headers: &[u64],
    entries: &[u64],
    contents: &[u64],
    image: &[u8],
) -> u64
    ensures { Archive.MatchesMeets header.old walk.now index.now rows.now entry headers.now entries.now contents.now image.now (told_exit result header) }
{
    ffi_archive::matches(
        header, walk, index, rows, entry, headers, entries, contents, image,
    )
}

#[unsafe(no_mangle)]
pub extern "C" fn hidvorn_would_define(
    header: &mut [u64],
    bytes: &[u8],
    names: &[u64],
    symbols: &[u64],
    headers: &[u64],
    entries: &[u64],
    contents: &[u64],
    image: &[u8],
    told: &mut [u64],
) -> u64
    ensures { Archive.WouldMeets header.old bytes.now names.now symbols.now headers.now entries.now contents.now image.now told.old (Archive.would_exit result header told) }
{
    ffi_archive::would_define(
        header, bytes, names, symbols, headers, entries, contents, image, told,
    )
}

#[unsafe(no_mangle)]
pub extern "C" fn hidvorn_gc_run(
    header: &mut [u64],
    bytes: &[u8],
    names: &[u64],
    symbols: &mut [u64],
    sections: &mut [u64],
    lists: &[u64],
    marks: &[u8],
    entered: bool,
    entry: usize,
    work: &mut [u64],
) -> u64
    ensures { RunMeets header.old (lists_in bytes names lists marks) symbols.old sections.old (entry_of entered entry) work.old (run_exit result header symbols sections work) }
{
    ffi_collect::gc_run(
        header, bytes, names, symbols, sections, lists, marks, entered, entry, work,
    )
}

#[unsafe(no_mangle)]
pub extern "C" fn hidvorn_plain_run(
    header: &mut [u64],
    bytes: &[u8],
    names: &[u64],
    symbols: &mut [u64],
    sections: &mut [u64],
    lists: &[u64],
    marks: &[u8],
    entered: bool,
    entry: usize,
    work: &mut [u64],
) -> u64
    ensures { PlainMeets header.old (lists_in bytes names lists marks) symbols.old sections.old (entry_of entered entry) work.old (run_exit result header symbols sections work) }
{
    ffi_collect::plain_run(
        header, bytes, names, symbols, sections, lists, marks, entered, entry, work,
    )
}

#[unsafe(no_mangle)]
pub extern "C" fn hidvorn_report_title(
    header: &mut [u64],
    walk: &[u64],
    symbols: &[u64],
    sections: &[u64],
    report: &mut [u64],
    figures: &mut [u64],
) -> u64
    ensures { TitleMeets header.old walk.now symbols.now sections.now report.old figures.old (title_exit result header report figures) }
{
    ffi_report::report_title(header, walk, symbols, sections, report, figures)
}
