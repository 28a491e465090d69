// The head of a load of a shared object: 22, 1, 25, and the marks that as-needed takes.
ghost use Rattle.std.specs.Prelude.{◌≡◌};
ghost use Rattle.link.specs.Judge.{judged};

use crate::Library;
use link::{Cause, Lent, Link, Refusal};

impl Library<'_> {
    ghost use Rattle.gabi.specs.StringTable.{has_name};
    ghost use Rattle.shared_objects.specs.Library.{bad_need_in, soname_missing_in, rows_refusal_in, name_refusal_in, check_in};

    fn has_name(&self, offset: usize) -> bool
        ensures { result ≡ has_name self.now.file.now offset }
    {
        strings::get(self.file, offset).is_some()
    }

    // The first dependency whose offset gives no name.
    fn bad_need(&self) -> Option<usize>
        ensures { result ≡ bad_need_in self.now }
    {
        self.needs
            .iter()
            .position(|&offset| !self.has_name(offset as usize))
    }

    // Kept: a match, since the proof does not close over `is_some_and` (tried).
    #[tactic(auto, unfolding(crate::specs::Head::soname_missing))]
    fn soname_missing(&self) -> bool
        ensures { result ≡ soname_missing_in self.now }
    {
        match self.soname {
            Some(offset) => !self.has_name(offset),
            None => false,
        }
    }

    // Refusal 1 of the library's lists: symbols, then the rest.
    #[tactic(auto, unfolding(crate::specs::Head::rows_of, link::specs::Judge::judged))]
    fn judge_rows(&self) -> Result<(), Refusal>
        ensures { result ≡ judged (rows_refusal_in self.now) }
    {
        if let Some(entry) = elf_object::first_bad_entry(self.entries) {
            return Err(Refusal::new(Cause::OutOfRange, entry));
        }
        if self.soname_missing() {
            return Err(Refusal::new(Cause::OutOfRange, 0));
        }
        match self.bad_need() {
            Some(need) => Err(Refusal::new(Cause::OutOfRange, need)),
            None => Ok(()),
        }
    }

    // A library in an archive needs a soname; under as-needed a mark for each name is needed.
    #[tactic(auto, unfolding(crate::specs::Head::name_refusal, crate::specs::Head::unnamed_of, crate::specs::Head::marks_short, link::specs::Judge::judged))]
    fn judge_name(&self, link: Link, marks: usize) -> Result<(), Refusal>
        ensures { result ≡ judged (name_refusal_in self.now link marks) }
    {
        if self.archived && self.soname.is_none() {
            return Err(Refusal::new(Cause::ArchivedLibraryWithoutSoname, 0));
        }
        if self.as_needed && marks < link.names {
            return Err(Refusal::new(Cause::NoRoom, 0));
        }
        Ok(())
    }

    // 22; 1 of the link's counts, then of the library's lists; 25; too few marks 2 at place 0.
    #[tactic(auto, unfolding(crate::specs::Head::check_of, crate::specs::Head::after_rows, link::specs::Judge::judged))]
    pub(super) fn check(&self, link: Link, lent: Lent, marks: usize) -> Result<(), Refusal>
        ensures { result ≡ judged (check_in self.now link lent marks) }
    {
        link.judge_change(lent)?;
        self.judge_rows()?;
        self.judge_name(link, marks)
    }
}
