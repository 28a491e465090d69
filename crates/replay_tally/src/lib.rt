// For programs that replay the oracle's lists: how the answers compare with what a list expects, and the counts of it.
#![tactic(auto)]

ghost use Rattle.std.specs.Prelude.{◌≡◌};
ghost use Rattle.replay_tally.specs.Answer.{first_line, meets};
ghost use Rattle.replay_tally.specs.Tally.{started, on_line, on_link, answered_by, differing, pending_of, past_of, compared_of, compare_of, settle_of};

// Counts, the line that was read last, and the answers of the last operation that weren't compared yet: text from `from` to `to`.
// Kept: a tally is copied, and a Range isn't Copy; a slice of the text would keep it from being written.
#[derive(Clone, Copy, Debug, PartialEq, Eq)]
pub struct Tally {
    pub line: u64,
    pub links: u64,
    pub operations: u64,
    pub answers: u64,
    pub differences: u64,
    pub from: usize,
    pub to: usize,
}

// ---- comparing

// The text before the first line end, or all of it.
pub fn first_line(text: &[u8]) -> &[u8]
    ensures result_value { result.now ≡ first_line text.now }
    ensures place { result.ref_ptr.0 ≡ text.entry.ref_ptr.0 }
{
    let end = text.iter().position(|&b| b == b'\n').unwrap_or(text.len());
    &text[..end]
}

// Is the answer what is expected? Where that ends in `?`, what stands there isn't compared.
pub fn same_answer(expected: &[u8], got: &[u8]) -> bool
    ensures { result ≡ meets expected.now got.now }
{
    let Some((&last, start)) = expected.split_last() else {
        return got.is_empty();
    };
    if last == b'?' {
        return got.starts_with(start);
    }
    byte_slices::same_bytes(expected, got)
}

// ---- the tally

#[tactic(auto, unfolding(crate::specs::Tally::pending_of))]
fn pending<'a>(text: &'a [u8], from: usize, to: usize) -> &'a [u8]
    ensures { result.now ≡ pending_of text.now from to }
{
    cells::part_of(text, from, to.saturating_sub(from))
}

#[tactic(auto, unfolding(crate::specs::Tally::past_of))]
fn past(from: usize, len: usize, to: usize) -> usize
    ensures { result ≡ past_of from len to }
{
    if len < to.saturating_sub(from) {
        return from + len + 1;
    }
    to
}

impl Tally {
    // Kept: `new` is public and stays; a derived Default beside it would be a second name for it.
    pub fn new() -> Tally
        ensures { result ≡ started }
    {
        Tally {
            line: 0,
            links: 0,
            operations: 0,
            answers: 0,
            differences: 0,
            from: 0,
            to: 0,
        }
    }

    #[tactic(auto, unfolding(symbol::specs::Codes::successor))]
    pub fn on_line(&mut self)
        ensures { self.new ≡ on_line self.old }
    {
        self.line = self.line.saturating_add(1);
    }

    #[tactic(auto, unfolding(symbol::specs::Codes::successor))]
    pub fn on_link(&mut self)
        ensures { self.new ≡ on_link self.old }
    {
        self.links = self.links.saturating_add(1);
    }

    // After an operation whose answers are the first `to` bytes of the text.
    #[tactic(auto, unfolding(symbol::specs::Codes::successor))]
    pub fn answered(&mut self, to: usize)
        ensures { self.new ≡ answered_by self.old to }
    {
        self.operations = self.operations.saturating_add(1);
        self.from = 0;
        self.to = to;
    }

    // The first ten are shown.
    // Kept: written to descriptor 1 without a handle: counting can't fail, and takes none; println! can, and needs one. Answers needn't be text.
    fn show(self, expected: &[u8], got: &[u8]) {
        if self.differences < 10 {
            io::write_all(1, b"line ");
            io::print_decimal(1, self.line);
            io::write_all(1, b": expected ");
            io::write_all(1, expected);
            io::write_all(1, b", got ");
            io::write_all(1, got);
            io::write_all(1, b"\n");
        }
    }

    #[tactic(auto, unfolding(symbol::specs::Codes::successor))]
    pub fn differs(&mut self, expected: &[u8], got: &[u8])
        ensures { self.new ≡ differing self.old }
    {
        self.show(expected, got);
        self.differences = self.differences.saturating_add(1);
    }

    #[tactic(auto, unfolding(symbol::specs::Codes::successor))]
    fn compared(&mut self, len: usize)
        ensures { self.new ≡ compared_of self.old len }
    {
        self.answers = self.answers.saturating_add(1);
        self.from = past(self.from, len, self.to);
    }

    // An expected answer against the next one of the text.
    #[tactic(auto, unfolding(crate::specs::Tally::compare_of))]
    pub fn compare(&mut self, text: &[u8], expected: &[u8])
        ensures { self.new ≡ compare_of self.old text.now expected.now }
    {
        let got = first_line(pending(text, self.from, self.to));
        self.compared(got.len());
        if !same_answer(expected, got) {
            self.differs(expected, got);
        }
    }

    // Before the next operation: an answer that the list doesn't have is a difference.
    #[tactic(auto, unfolding(crate::specs::Tally::settle_of))]
    pub fn settle(&mut self, text: &[u8])
        ensures { self.new ≡ settle_of self.old }
    {
        if self.from < self.to {
            self.differs(b"no answer", first_line(pending(text, self.from, self.to)));
        }
    }
}
