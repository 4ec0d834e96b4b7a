//! Worked rows as data: each line of the input has a word, its parameters and the expected output. Prints the rows with
//! another output, then how many rows held, and a hash of all rows. The hash shows when a row was changed by mistake
//! into another one that holds. What no row can say stands in the tests of `pkcs1_tool`.
#![tactic(auto)]

mod algorithms;
mod asked;
mod carried;
mod containers;
mod damaged;
mod errors;
mod fields;
mod identifiers;
mod into;
mod keys;
mod lengths;
mod named;
mod parameters;
mod parts;
mod read;
mod records;
mod row;
mod shown;
mod spellings;
mod told;
mod values;
mod words;
mod written;

use row::Outcome;
use std::hash::{DefaultHasher, Hasher};
use std::io;

fn main(rt: HostRuntime) -> io::Result<()> {
    let (mut held, mut differ) = (0u64, 0u64);
    let mut rows = DefaultHasher::new();
    for line in rt.lines(rt.alloc()) {
        let line = line?;
        rows.write(line.as_str().as_bytes());
        match row::compared(rt.alloc(), line.as_str())? {
            Outcome::NoRow => {}
            Outcome::Holds => held = held.saturating_add(1),
            Outcome::Differs { answer } => {
                differ = differ.saturating_add(1);
                println!(rt; "{line}\n    is answered: {answer}")?;
            }
        }
    }
    println!(rt;
        "{held} rows held, {differ} differ, hash {:016x}",
        rows.finish()
    )
}
