// The calls that merge objects and load shared objects into a link with an index of its names: each is the link's own call, behind which the rows
// that it appended get their names' places, also where it is refused half way.
#![tactic(auto)]

ghost use Rattle.std.specs.Prelude.{◌≡◌};
ghost use Rattle.merge_stages.specs.Stages as Stages;
ghost use Rattle.merge_stages.specs.Stages.{object_read, merge_before};
ghost use Rattle.merge_elf.specs.Merge.{left_after};
ghost use Rattle.merge_file.specs.MergeFile.{file_left};
ghost use Rattle.shared_objects.specs.Lent as Loans;
ghost use Rattle.shared_objects.specs.Load.{left};
ghost use Rattle.shared_objects.specs.LoadIn.{all_in, input_in};
ghost use Rattle.name_index.specs.Named.{rows_of};
ghost use Rattle.name_index.specs.Index.{same_places, index_in};
ghost use Rattle.indexed_table.specs.Indexed.{caught_up};
ghost use Rattle.indexed_link.specs.Indexed.{MergeMeets, MergeFileMeets, LoadMeets, indexed_merge, indexed_file, indexed_load};

use elf_object::Object;
use link::Refusal;
use merge_stages::Merge;
use name_index::{IndexMut, NamedRows};
use shared_objects::{Library, Load, Loading};

fn catch_up_merge(merge: &Merge<'_>, index: &mut IndexMut<'_>, from: usize)
    ensures same { same_places index.old index.new }
    ensures put { index_in index.new ≡ caught_up (rows_of merge.now.bytes.now merge.now.names.now merge.now.symbols.now) (index_in index.old)
        from merge.now.link.symbols }
{
    let rows = NamedRows {
        bytes: &*merge.bytes,
        names: &*merge.names,
        symbols: &*merge.symbols,
    };
    index.put_rows(rows, from, merge.link.symbols);
}

fn catch_up_load(loading: &Loading<'_>, index: &mut IndexMut<'_>, from: usize)
    ensures same { same_places index.old index.new }
    ensures put { index_in index.new ≡ caught_up (rows_of loading.now.bytes.now loading.now.names.now loading.now.symbols.now) (index_in index.old)
        from loading.now.link.symbols }
{
    let rows = NamedRows {
        bytes: &*loading.bytes,
        names: &*loading.names,
        symbols: &*loading.symbols,
    };
    index.put_rows(rows, from, loading.link.symbols);
}

// The merge of an object, and the index.
#[tactic(auto, unfolding(link::specs::Judge::judged, crate::specs::Indexed::indexed_merge_of))]
pub fn merge_object(
    merge: &mut Merge<'_>,
    index: &mut IndexMut<'_>,
    object: Object<'_>,
) -> Result<(), Refusal>
    ensures loans { Stages.same_loans merge.old merge.new }
    ensures places { same_places index.old index.new }
    ensures merged { MergeMeets (object_read object.entry) (merge_before merge.old) (index_in index.old)
        (indexed_merge (left_after merge.new result) (index_in index.new)) }
{
    indexed_table::judge_change(merge.link, index)?;
    let from = merge.link.symbols;
    let answer = merge_elf::merge_object(merge, object);
    catch_up_merge(merge, index, from);
    answer
}

// The merge of an object file, whose rows are written into `rows`, and the index.
#[tactic(auto, unfolding(link::specs::Judge::judged, crate::specs::Indexed::indexed_file_of))]
pub fn merge_image(
    merge: &mut Merge<'_>,
    index: &mut IndexMut<'_>,
    rows: &mut [u64],
    image: &[u8],
) -> Result<(), Refusal>
    ensures loans { Stages.same_loans merge.old merge.new }
    ensures places { same_places index.old index.new }
    ensures merged { MergeFileMeets image.now rows.old (merge_before merge.old) (index_in index.old)
        (indexed_file (file_left rows.new (left_after merge.new result)) (index_in index.new)) }
{
    indexed_table::judge_change(merge.link, index)?;
    let from = merge.link.symbols;
    let answer = merge_file::merge_image(merge, rows, image);
    catch_up_merge(merge, index, from);
    answer
}

// The load of a shared object, and the index.
#[tactic(auto, unfolding(link::specs::Judge::judged, crate::specs::Indexed::indexed_load_of))]
pub fn load(
    loading: &mut Loading<'_>,
    index: &mut IndexMut<'_>,
    marks: &mut [u64],
    library: &Library<'_>,
) -> Result<Load, Refusal>
    ensures loans { Loans.same_loans loading.old loading.new }
    ensures places { same_places index.old index.new }
    ensures loaded { LoadMeets (input_in library.now) (all_in loading.old marks.old) (index_in index.old)
        (indexed_load (left (all_in loading.new marks.new) result) (index_in index.new)) }
{
    indexed_table::judge_change(loading.link, index)?;
    let from = loading.link.symbols;
    let answer = loading.load(marks, library);
    catch_up_load(loading, index, from);
    answer
}
