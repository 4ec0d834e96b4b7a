//! The output of a row's call.
use std::alloc::{AllocError, AllocFailed, Global};
use std::fmt::{Debug, Display};

/// Why a row has no output.
#[derive(Clone, Copy, Drop)]
pub enum Trouble {
    /// Memory ran out.
    Memory,
    /// The word isn't known, or the parameters aren't those of the word.
    Malformed,
}

/// The output of a row's call, or why there is none.
pub type Answer = Result<String, Trouble>;

/// The output, written part by part, for one way of calling after another. After a `Trouble` the rest is ignored.
#[derive(Drop)]
pub struct Told {
    alloc: Global,
    /// The output of the first way, once there is another.
    first: String,
    /// The ways with another output, each with its output.
    others: String,
    /// The name of the current way; empty for the first.
    way: String,
    /// The output of the current way so far.
    now: String,
    trouble: Option<Trouble>,
}

impl Told {
    /// Without any output yet.
    pub fn new(alloc: Global) -> Told {
        Told {
            alloc,
            first: String::new(alloc),
            others: String::new(alloc),
            way: String::new(alloc),
            now: String::new(alloc),
            trouble: None,
        }
    }

    /// The allocator for values that are shown.
    pub fn alloc(&self) -> Global {
        self.alloc
    }

    /// Begins another way. Its output is shown only if it differs from the first.
    pub fn way(&mut self, name: &str) {
        self.end_way();
        self.way.clear();
        if self.way.push_str(name).is_err() {
            self.trouble = Some(Trouble::Memory);
        }
    }

    /// Compares the output of the current way with the first.
    fn end_way(&mut self) {
        if self.way.is_empty() {
            std::mem::swap(&mut self.first, &mut self.now);
        } else if self.now != self.first {
            match format!(in self.alloc; "{}; {}: {}", self.others, self.way, self.now) {
                Ok(others) => self.others = others,
                Err(_) => self.trouble = Some(Trouble::Memory),
            }
        }
        self.now.clear();
    }

    /// Ends the ways: what follows is appended to the first output.
    pub fn rest(&mut self) {
        self.end_way();
        self.way.clear();
        std::mem::swap(&mut self.first, &mut self.now);
    }

    /// The whole output.
    pub fn answer(mut self) -> Answer {
        self.end_way();
        match self.trouble {
            Some(trouble) => Err(trouble),
            None => Ok(format!(in self.alloc; "{}{}", self.first, self.others)?),
        }
    }

    /// Writes the words.
    pub fn text(&mut self, words: &str) {
        if self.now.push_str(words).is_err() {
            self.trouble = Some(Trouble::Memory);
        }
    }

    /// Writes a space, unless nothing was written yet.
    pub fn gap(&mut self) {
        if !self.now.is_empty() {
            self.text(" ");
        }
    }

    /// Writes the output of another call.
    pub fn answered(&mut self, answer: Answer) {
        match answer {
            Ok(words) => self.text(words.as_str()),
            Err(trouble) => self.trouble = Some(trouble),
        }
    }

    /// Writes the words and the output, unless it is the expected one.
    pub fn unless(&mut self, expected: Answer, words: &str, answer: Answer) {
        match (expected, answer) {
            (Ok(expected), Ok(answer)) => {
                if answer != expected {
                    self.text(words);
                    self.text(answer.as_str());
                }
            }
            (Err(trouble), _) | (Ok(_), Err(trouble)) => self.trouble = Some(trouble),
        }
    }

    /// Writes the value as it is printed.
    pub fn plain<T: Display + Drop>(&mut self, value: T) {
        self.answered(match format!(in self.alloc; "{value}") {
            Ok(words) => Ok(words),
            Err(_) => Err(Trouble::Memory),
        });
    }

    /// Writes the value as it is printed for debugging.
    pub fn debug<T: Debug>(&mut self, value: &T) {
        self.answered(match format!(in self.alloc; "{value:?}") {
            Ok(words) => Ok(words),
            Err(_) => Err(Trouble::Memory),
        });
    }

    /// Writes a number in decimal digits.
    pub fn number(&mut self, number: usize) {
        self.plain(number);
    }

    /// Writes the bytes in hexadecimal digits.
    pub fn octets(&mut self, bytes: &[u8]) {
        self.answered(match hex::encode(self.alloc, bytes) {
            Ok(words) => Ok(words),
            Err(_) => Err(Trouble::Memory),
        });
    }

    /// Writes the bytes in hexadecimal digits, or `-` if there are none.
    pub fn digits(&mut self, bytes: &[u8]) {
        if bytes.is_empty() {
            self.text("-");
        } else {
            self.octets(bytes);
        }
    }

    /// Writes `yes` or `no`.
    pub fn yes_or_no(&mut self, holds: bool) {
        self.text(if holds { "yes" } else { "no" });
    }

    /// Notes that the parameters aren't those of the word.
    pub fn malformed(&mut self) {
        self.trouble = Some(Trouble::Malformed);
    }

    /// Notes that memory ran out.
    pub fn out_of_memory(&mut self) {
        self.trouble = Some(Trouble::Memory);
    }
}

impl<T: Drop> From<AllocFailed<T>> for Trouble {
    fn from(_: AllocFailed<T>) -> Trouble {
        Trouble::Memory
    }
}

impl From<AllocError> for Trouble {
    fn from(_: AllocError) -> Trouble {
        Trouble::Memory
    }
}

/// An error that rows can show.
pub trait PrintedError: Drop {
    /// Writes the error as it is printed.
    fn told(self, to: &mut Told);
}

impl PrintedError for der_core::Error {
    fn told(self, to: &mut Told) {
        to.text("refused: ");
        to.plain(self);
    }
}

impl PrintedError for pkcs1::Error {
    /// An error of `der_core` is shown as its own, without the words in front.
    fn told(self, to: &mut Told) {
        match self {
            pkcs1::Error::Asn1(error) => error.told(to),
            other => {
                to.text("refused: ");
                to.plain(other);
            }
        }
    }
}
