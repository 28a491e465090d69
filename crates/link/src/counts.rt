// A link without rows, and one with more sections.
ghost use Rattle.std.specs.Prelude.{◌≡◌};
ghost use Rattle.link.specs.Counts.{no_names, with_sections};

use crate::Link;

impl Link {
    // No rows, in the Rust's profile, with that key and chains for that many names.
    pub fn no_names(key: usize, chains: usize) -> Link
        ensures { result ≡ no_names key chains }
    {
        Link {
            names: 0,
            bytes: 0,
            symbols: 0,
            sections: 0,
            inputs: 0,
            lists: 0,
            chains,
            slots: 0,
            key,
            gabi: false,
            broken: false,
        }
    }

    // One field set.
    // Kept: a store, since a literal of all fields, for which struct update stands, takes more instructions (docs/DECISIONS.md, y).
    pub fn with_sections(mut self, sections: usize) -> Link
        ensures { result ≡ with_sections self sections }
    {
        self.sections = sections;
        self
    }
}
