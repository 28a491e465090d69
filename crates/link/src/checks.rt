// The first checks of every call: 22 on a broken link, 1 for a count above what is lent.
ghost use Rattle.std.specs.Prelude.{◌≡◌};
ghost use Rattle.link.specs.Judge.{judged, within, judge_sections, judge_names, judge_lists, judge_of, change_of};

use crate::{Cause, Lent, Link, Refusal};

// A count above its bound gives 1 at the first row past it.
#[tactic(auto, unfolding(crate::specs::Judge::judged))]
fn within(count: usize, most: usize) -> Result<(), Refusal>
    ensures { result ≡ judged (within count most) }
{
    if most < count {
        return Err(Refusal::new(Cause::OutOfRange, most));
    }
    Ok(())
}

impl Link {
    fn judge_sections(self, rows: usize) -> Result<(), Refusal>
        ensures { result ≡ judged (judge_sections self rows) }
    {
        within(self.slots, rows)?;
        within(self.sections, crate::section_rows(self.slots))
    }

    fn judge_names(self, rows: usize, bytes: usize) -> Result<(), Refusal>
        ensures { result ≡ judged (judge_names self rows bytes) }
    {
        within(self.chains, rows)?;
        within(self.names, self.chains)?;
        within(self.bytes, crate::name_byte_room(bytes))
    }

    fn judge_lists(self, inputs: usize, lists: usize) -> Result<(), Refusal>
        ensures { result ≡ judged (judge_lists self inputs lists) }
    {
        within(self.inputs, crate::input_rows(inputs))?;
        within(self.lists, lists)
    }

    // A count above what is lent, or above the bound, is a list over its bound, and so is a table's own row that isn't lent any more: 1 at the
    // first row past it. Sections, symbols, then the rest.
    pub fn judge(self, lent: Lent) -> Result<(), Refusal>
        ensures { result ≡ judged (judge_of self lent) }
    {
        self.judge_sections(lent.sections)?;
        within(self.symbols, crate::symbol_rows(lent.symbols))?;
        self.judge_names(lent.names, lent.bytes)?;
        self.judge_lists(lent.inputs, lent.lists)
    }

    // For a changing call: 22 on a broken link comes first.
    #[tactic(auto, unfolding(crate::specs::Judge::judged, crate::specs::Judge::change_of))]
    pub fn judge_change(self, lent: Lent) -> Result<(), Refusal>
        ensures { result ≡ judged (change_of self lent) }
    {
        if self.broken {
            return Err(Refusal::new(Cause::BrokenLink, 0));
        }
        self.judge(lent)
    }
}
