// The end of a merge: what is built, and then the object's own row.
ghost use Rattle.std.specs.Prelude.{◌≡◌, ◌≢◌, IfErr};
ghost use Rattle.merge_build.specs.Build.{object_with, same_loans};
ghost use Rattle.merge_build.specs.Finish.{links_after, links_before, input_stage, built_of};

use crate::{Builder, Source};
use elf_object::Object;
use link::{Cause, Refusal};

// What stands first in an input's row: an object.
// Kept: the kind of an input's row, one number of the C interface's cells in each of the two crates that write it.
const OBJECT: u64 = 1;

impl Builder<'_> {
    // The object's own row is taken last.
    #[tactic(auto, unfolding(crate::specs::Finish::input_stage, crate::specs::Finish::input_row_of))]
    fn take_input(&mut self) -> Result<(), Refusal>
        ensures loans { same_loans self.old self.new }
        ensures value { links_after self.new result ≡ input_stage (links_before self.old) }
        ensures numbered { IfErr result (λ r. r.number ≢ 0) }
    {
        let n = self.link.inputs;
        if n < link::input_rows(self.inputs.len()) {
            cells::row_store(self.inputs, n, [OBJECT, 0, 0, 0, 0, 0, 0, 0]);
            self.link.inputs = n + 1;
            return Ok(());
        }
        Err(Refusal::new(Cause::NoRoom, 0))
    }

    // Uninitialized sections, program sections, and then the object's row. What is read: the object, its sections' work rows, its symbols' ids
    // and 1, 0 for none, and how many symbols its loaded table has.
    pub fn finish(
        &mut self,
        object: Object<'_>,
        work: &[u64],
        ids: &[u64],
        symbols: usize,
    ) -> Result<(), Refusal>
        ensures loans { same_loans self.old self.new }
        ensures value { links_after self.new result ≡ built_of (object_with object.entry work.now ids.now symbols) (links_before self.old) }
        ensures numbered { IfErr result (λ r. r.number ≢ 0) }
    {
        let source = Source {
            object,
            work,
            ids,
            symbols,
        };
        self.build_sections(source, elf_object::UNINITIALIZED)?;
        self.build_sections(source, elf_object::PROGRAM)?;
        self.take_input()
    }
}
