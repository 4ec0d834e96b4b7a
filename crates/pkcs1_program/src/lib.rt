//! What the program `pkcs1_tool` does, over any source, sink and files: a line of output for each line of input, and
//! copies of keys.
//!
//! A line is a word (`pub`, `priv`, `p8`, `pss`, `oaep` and others), a space and an encoding in hexadecimal digits;
//! some words take two encodings. The output for it is a line too: the value that the encoding means; `refused` if it
//! means none; `bad line` if a line has another form.
#![tactic(auto)]

mod answer;
mod copied;
mod copy;
mod copy_error;
mod digits;
mod fault;
mod filter;
mod keys;
mod laws;
mod lines;
mod output_file;
mod parameter_answers;
mod parameter_text;
mod plan;
mod replace;
mod replace_std;
mod request;
mod sequence;
mod verdict;

pub use answer::answer_line;
pub use copy::{copy_priv, copy_pub};
pub use copy_error::{CopyError, FileError, WriteError};
pub use fault::Fault;
pub use filter::{LIMIT, run};
pub use laws::lemma_answers_are_one;
pub use lines::split_line;
pub use plan::{Plan, behind_name, plan_of, status};
pub use replace::{Beside, Mode, ReplaceFiles, Target};
pub use replace_std::Synced;
pub use request::Encodings;
pub use sequence::read_sequence;
