// Replays lists of the oracle: every answer is compared with the Rust's, and every row where a list has a dump. Cases of our own, with answers
// that were worked out by hand, may also lend less of each store and ask for a link's counts. Its status is 1 where an answer differed.
#![tactic(auto)]

mod changes;
mod collection;
mod dump;
mod line;
mod memory;
mod state;
mod told;

use line::{Change, Line, Operation, Step};
use replay_tally::Tally;
use state::State;
use std::alloc::{AllocError, Global};
use std::io;
use std::process::ExitCode;
use text::{Lines, Taken, Writer};

// Operations that were passed over. Link: the rest of the link is. Last: the last operation was, and its answers are.
// Kept: two flags: what is told is replayed while a link's rest is passed over, and a single operation is passed over where the rest isn't.
#[derive(Clone, Copy, Debug, Default, PartialEq, Eq)]
struct Passing {
    count: u64,
    link: bool,
    last: bool,
}

// Out: the text of the last operation's answers.
#[derive(Drop)]
struct Replay {
    state: State,
    tally: Tally,
    passing: Passing,
    out: Vec<u8>,
}

impl Replay {
    fn new(alloc: Global) -> Result<Self, AllocError> {
        Ok(Replay {
            state: State::new(alloc)?,
            tally: Tally::new(),
            passing: Passing::default(),
            out: vec![in alloc; 0; 65536]?,
        })
    }

    fn take(&mut self, line: &[u8]) -> Result<(), AllocError> {
        match Line::from(line) {
            Line::Silent => {}
            Line::Expected(answer) => self.compare(answer),
            Line::Operation(operation) => self.run(operation, line)?,
        }
        Ok(())
    }

    fn compare(&mut self, answer: &[u8]) {
        if !self.passing.last {
            self.tally.compare(&self.out, answer);
        }
    }

    // At a link nothing is passed over any more.
    fn run(&mut self, operation: Operation, line: &[u8]) -> Result<(), AllocError> {
        self.tally.settle(&self.out);
        if operation == Operation::Change(Change::Link) {
            self.tally.on_link();
            self.passing.link = false;
        }
        if !self.is_replayed(operation) {
            self.pass_over(operation);
            return Ok(());
        }
        let mut answers = Writer::new(&mut self.out);
        self.state.run(operation, line, &mut answers)?;
        self.tally.answered(answers.len);
        self.passing.last = false;
        Ok(())
    }

    // Calls on a link after one that wasn't replayed aren't either, nor is admission by names that were set by hand, or without a member.
    fn is_replayed(&self, operation: Operation) -> bool {
        match operation {
            Operation::Tell(_) => true,
            Operation::Member | Operation::Unknown => false,
            Operation::Walk(Step::Admit) => {
                !self.passing.link && self.state.told.archive.offered.is_some()
            }
            _ => !self.passing.link,
        }
    }

    fn pass_over(&mut self, operation: Operation) {
        self.passing.count = self.passing.count.wrapping_add(1);
        self.passing.last = true;
        match operation {
            Operation::Member | Operation::Walk(Step::Admit) => {}
            _ => self.passing.link = true,
        }
    }

    fn print(&self, rt: &impl Print) -> io::Result<()> {
        println!(rt;
            "links {} operations {} answers {} differences {}",
            self.tally.links, self.tally.operations, self.tally.answers, self.tally.differences
        )?;
        println!(rt; "passed over {}", self.passing.count)
    }
}

fn main(rt: HostRuntime) -> io::Result<ExitCode> {
    let alloc = rt.alloc();
    let mut replay = Replay::new(alloc)?;
    let mut buf = vec![in alloc; 0; 65536]?;
    let mut input = rt.stdin();
    let mut lines = Lines::new();
    // Nothing says that the input ends, so lines are counted.
    // Kept: the range only bounds the turns; no count of lines is known that would be nearer.
    for _ in 0..u64::MAX {
        let taken = lines.next_line(&mut input, &mut buf);
        replay.tally.on_line();
        match taken {
            Taken::Line { from, len } => replay.take(cells::part_of(&buf, from, len))?,
            Taken::Long => {
                replay
                    .tally
                    .differs(b"a line of at most 65,536 bytes", b"a longer one");
                break;
            }
            Taken::End => break,
        }
    }
    replay.tally.settle(&replay.out);
    replay.print(&rt)?;
    Ok(if replay.tally.differences == 0 {
        ExitCode::SUCCESS
    } else {
        ExitCode::FAILURE
    })
}
