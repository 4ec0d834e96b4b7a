//! One line of the input.
use crate::parts;
use crate::told::Trouble;
use std::alloc::{AllocError, Global};

/// The outcome of a line.
#[derive(Drop)]
pub enum Outcome {
    /// A heading or an empty line.
    NoRow,
    /// The output is the expected one.
    Holds,
    /// The output is another one, or the line is no row.
    Differs {
        /// The output.
        answer: String,
    },
}

/// Compares the output of the line's word with the one behind ` = `.
pub fn compared(alloc: Global, line: &str) -> Result<Outcome, AllocError> {
    if line.is_empty() || line.starts_with('#') {
        return Ok(Outcome::NoRow);
    }
    let Some((asked, want)) = line.split_once(" = ") else {
        return no_row(alloc);
    };
    match parts::answer(alloc, asked) {
        Ok(answer) if answer.as_str() == want => Ok(Outcome::Holds),
        Ok(answer) => Ok(Outcome::Differs { answer }),
        Err(Trouble::Memory) => Err(AllocError),
        Err(Trouble::Malformed) => no_row(alloc),
    }
}

/// The line is no row.
fn no_row(alloc: Global) -> Result<Outcome, AllocError> {
    let answer = String::from_str(alloc, "not a row")?;
    Ok(Outcome::Differs { answer })
}
