// A merge's group stage: the groups of an object, one section after the other.
ghost use Rattle.std.specs.Prelude.{◌≡◌, ◌≢◌, IfErr};
ghost use Rattle.section_groups.specs.Group.{group_section_of, groups_of, object_in, same_loans, step_after, step_before};

use crate::Grouping;
use elf_object::{Kind, Object};
use link::Refusal;

impl Grouping<'_> {
    #[tactic(auto, unfolding(crate::specs::Group::group_section_of))]
    fn take_section(&mut self, object: Object<'_>, n: usize) -> Result<(), Refusal>
        ensures loans { same_loans self.old self.new }
        ensures value { step_after self.new result ≡ group_section_of (object_in object.entry) (step_before self.old) n }
        ensures numbered { IfErr result (λ r. r.number ≢ 0) }
    {
        if object.is_loaded(n, Kind::Group) {
            return self.take_group(object, n);
        }
        Ok(())
    }

    // All groups, ascending, up to the first refusal.
    pub fn add_groups(&mut self, object: Object<'_>) -> Result<(), Refusal>
        ensures loans { same_loans self.old self.new }
        ensures value { step_after self.new result ≡ groups_of (object_in object.entry) (step_before self.old) }
        ensures numbered { IfErr result (λ r. r.number ≢ 0) }
    {
        for n in 0..object.section_count() {
            self.take_section(object, n)?;
        }
        Ok(())
    }
}
