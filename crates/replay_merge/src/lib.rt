// The merge of an object that a list tells, with what it is lent of each store.
#![tactic(auto)]

ghost use Rattle.std.specs.Prelude.{◌≡◌};
ghost use Rattle.merge_stages.specs.Stages.{link_before};
ghost use Rattle.replay_stores.specs.Lent.{SameStores};
ghost use Rattle.replay_merge.specs.Merge.{changed_as, cells_of_stores, merge_lent, done_after};

use link::Link;
use replay_object::Object;
use replay_stores::Stores;
use replay_text::{Changed, Reply};
use replay_words::Lend;
use symbols::Symbols;

#[tactic(auto, unfolding(crate::specs::Merge::changed_as))]
fn merged(outcome: merge_elf::Outcome) -> Changed
    ensures { result ≡ changed_as outcome.link outcome.answer }
{
    Changed {
        table: Symbols { link: outcome.link },
        reply: outcome.answer.map(|()| Reply::Merged),
    }
}

// Kept: each parameter is one of the definition (merge_lent); what is lent is a struct already.
pub fn merge(
    l: Link,
    lend: Lend,
    object: Object,
    stores: &mut Stores<'_>,
    rows: &[u64],
    file: &[u8],
) -> Changed
    ensures same { SameStores stores.old stores.new }
    ensures done { let c = cells_of_stores stores.old stores.new in
        done_after c result ≡ merge_lent lend object rows.now file.now (link_before c l) }
{
    let bytes = replay_words::cells(lend.bytes, stores.bytes.len());
    let names = replay_words::wide_rows(lend.names, stores.names.len());
    let symbols = replay_words::rows(lend.symbols, stores.symbols.len());
    let sections = replay_words::wide_rows(lend.sections, stores.sections.len());
    let inputs = replay_words::rows(lend.inputs, stores.inputs.len());
    let lists = replay_words::cells(lend.lists, stores.lists.len());
    let work = replay_words::rows(lend.work, stores.work.len());
    let ids = replay_words::cells(lend.ids, stores.ids.len());
    merged(merge_elf::merge_elf(
        l,
        &mut stores.bytes[..bytes],
        &mut stores.names[..names],
        &mut stores.symbols[..symbols],
        &mut stores.sections[..sections],
        &mut stores.inputs[..inputs],
        &mut stores.lists[..lists],
        &mut stores.work[..work],
        &mut stores.ids[..ids],
        object.headers_of(rows),
        object.entries_of(rows),
        object.contents_of(rows),
        cells::part_of(file, 0, object.bytes),
        object.strings,
    ))
}
