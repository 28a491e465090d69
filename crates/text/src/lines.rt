// Lines of any input.
ghost use Rattle.std.specs.Prelude.{◌≡◌, length, slice_index, None, Some};
ghost use Rattle.text.specs.Unread.{unread};
ghost use Rattle.text.specs.Line.{end_in, span_of, rest_of, unended_of, left_of, settle_of, step_of};
ghost use Rattle.text.specs.Next.{front_as, front_of, ReadOn, ReadLine, NextLine, longer_of, past_of, Skipped};

use std::io::Read;

// Of the buffer, the bytes from start to end are read and not handed out yet; those before seen hold no line end. Over: nothing more comes,
// because the input ended, a read failed, or the buffer is full.
// Kept: two flags, as the definitions (lines_at) have them: `over` is asked before each line, `failed` once at the end, by the program.
#[derive(Clone, Copy, Debug, PartialEq, Eq)]
pub struct Lines {
    pub start: usize,
    pub seen: usize,
    pub end: usize,
    pub over: bool,
    pub failed: bool,
}

// Long: a line that doesn't fit the buffer, which holds its first bytes.
// Kept: a line is a place in the buffer and a length, as the definitions of these calls (NextLine) have it.
#[derive(Clone, Copy, Debug, PartialEq, Eq)]
pub enum Taken {
    Line { from: usize, len: usize },
    Long,
    End,
}

// Kept: as byte_slices', by the word (slice_index) in which the definitions of lines read a buffer.
fn byte_at(buf: &[u8], i: usize) -> u8
    ensures { result ≡ slice_index buf.now i }
{
    buf.get(i).copied().unwrap_or(0)
}

// The first line end from the place on and before `to`; where there is none, `to`, or the place itself if it lies behind that.
fn line_end(buf: &[u8], from: usize, to: usize) -> usize
    ensures { result ≡ end_in buf.now from to }
{
    // Kept: over `take`, `skip` and `position` the place would have to be added back to what they count from it on.
    for i in from..to {
        if byte_at(buf, i) == b'\n' {
            return i;
        }
    }
    from.max(to)
}

// The bytes from a place to another, where they lie in the buffer.
#[tactic(auto, unfolding(crate::specs::Line::span_of))]
fn span(from: usize, to: usize, len: usize) -> Taken
    ensures { result ≡ span_of from to len }
{
    if to < from || len < to {
        return Taken::End;
    }
    Taken::Line {
        from,
        len: to - from,
    }
}

#[tactic(auto, unfolding(crate::specs::Next::longer_of))]
fn longer(end: usize, more: usize, len: usize) -> usize
    ensures { result ≡ longer_of end more len }
{
    end + more.min(len.saturating_sub(end))
}

impl Lines {
    // Nothing is read yet.
    // Kept: `new` is public and stays; a derived Default beside it would be a second name for it.
    pub fn new() -> Lines
        ensures { result ≡ unread }
    {
        Lines {
            start: 0,
            seen: 0,
            end: 0,
            over: false,
            failed: false,
        }
    }

    // What is left when nothing more comes: a last line without line end, or nothing.
    #[tactic(auto, unfolding(crate::specs::Line::rest_of))]
    fn rest(self, len: usize) -> Taken
        ensures { result ≡ rest_of self len }
    {
        if self.end <= self.start {
            return Taken::End;
        }
        span(self.start, self.end, len)
    }

    // Where no line end is in the buffer: none has to be read first.
    #[tactic(auto, unfolding(crate::specs::Line::unended_of))]
    fn unended(self, len: usize) -> Option<Taken>
        ensures { result ≡ unended_of self len }
    {
        if self.over {
            return Some(self.rest(len));
        }
        if self.start == 0 && len <= self.end {
            return Some(Taken::Long);
        }
        None
    }

    #[tactic(auto, unfolding(crate::specs::Line::left_of))]
    fn left(self) -> usize
        ensures { result ≡ left_of self }
    {
        if self.over { self.end } else { self.start }
    }

    // The next line of what is in the buffer; none where more has to be read first.
    #[tactic(auto, unfolding(crate::specs::Line::settle_of, crate::specs::Line::settled_at))]
    fn settle(&mut self, buf: &[u8]) -> Option<Taken>
        ensures { step_of self.new result ≡ settle_of buf.now self.old }
    {
        let l = *self;
        let at = line_end(buf, l.seen, l.end);
        if at < l.end {
            *self = Lines {
                start: at + 1,
                seen: at + 1,
                ..l
            };
            return Some(span(l.start, at, buf.len()));
        }
        *self = Lines {
            start: l.left(),
            seen: l.end,
            ..l
        };
        l.unended(buf.len())
    }

    // What isn't handed out yet, moved to the front.
    #[tactic(auto, unfolding(crate::specs::Next::front_of))]
    fn to_front(&mut self, buf: &mut [u8])
        ensures { front_as buf.new self.new ≡ front_of buf.old self.old }
    {
        let l = *self;
        if l.end < l.start || buf.len() < l.end {
            *self = Lines {
                over: true,
                failed: l.failed,
                ..Lines::new()
            };
            return;
        }
        let len = l.end - l.start;
        if l.start != 0 {
            buf.copy_within(l.start..l.end, 0);
        }
        *self = Lines {
            start: 0,
            seen: len,
            end: len,
            ..l
        };
    }

    // One read behind the bytes that are there.
    fn read_more<R: Read>(&mut self, input: &mut R, buf: &mut [u8])
        ensures { ReadOn buf.old self.old buf.new self.new }
    {
        let end = self.end;
        if buf.len() <= end {
            self.over = true;
            return;
        }
        match input.read(&mut buf[end..]) {
            Err(_) => {
                self.over = true;
                self.failed = true;
            }
            Ok(more) => {
                self.end = longer(end, more, buf.len());
                self.over = more == 0;
                self.failed = false;
            }
        }
    }

    // Reads until there is a line. What is there lies at the front, and holds no line end.
    fn read_line<R: Read>(&mut self, input: &mut R, buf: &mut [u8]) -> Taken
        ensures { ReadLine buf.old self.old.end buf.new (step_of self.new (Some result)) }
    {
        self.start = 0;
        self.seen = self.end;
        // Kept: a loop that counts nothing; it ends where a line does, where the input does, or where the buffer is full.
        loop {
            if let Some(taken) = self.settle(buf) {
                return taken;
            }
            self.read_more(input, buf);
        }
    }

    // The next line, without its line end; it lies in the buffer.
    pub fn next_line<R: Read>(&mut self, input: &mut R, buf: &mut [u8]) -> Taken
        ensures { NextLine buf.old self.old buf.new (step_of self.new (Some result)) }
    {
        if let Some(taken) = self.settle(buf) {
            return taken;
        }
        self.to_front(buf);
        self.read_line(input, buf)
    }

    // What is left behind the first line end of what was read.
    #[tactic(auto, unfolding(crate::specs::Next::past_of, crate::specs::Next::past_at))]
    fn past_line(&mut self, buf: &[u8])
        ensures { self.new ≡ past_of buf.now self.old.end self.old.over self.old.failed }
    {
        let at = line_end(buf, 0, self.end);
        if at < self.end {
            self.start = at + 1;
            self.seen = at + 1;
        } else {
            self.start = 0;
            self.seen = 0;
            self.end = 0;
        }
    }

    // What follows a Long: the rest of that line is passed over. Nothing says that the input ends, so turns are counted down.
    pub fn skip_line<R: Read>(&mut self, input: &mut R, buf: &mut [u8])
        ensures { Skipped buf.new self.new }
    {
        self.start = 0;
        self.seen = 0;
        self.end = 0;
        // Kept: the range only bounds the turns; no count of lines or bytes is known that would be nearer.
        for _ in 0..u64::MAX {
            if self.over || 0 < self.start {
                return;
            }
            self.read_more(input, buf);
            self.past_line(buf);
        }
    }
}
