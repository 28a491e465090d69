// Text for the programs: fields and decimal numbers of a line, lines of any input, text put together in lent bytes.
#![tactic(auto)]

mod fields;
mod lines;
mod out;

pub use fields::{decimal, field, without_cr};
pub use lines::{Lines, Taken};
pub use out::Writer;
