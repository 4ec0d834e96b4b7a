//! Rows of parts at the front of contents whose rest depends on them.
ghost use Rattle.std.specs.Prelude.{◌≤◌, IfOk, List, [], ℕ, length};
ghost use Rattle.der_core.specs.Words.{AllocatesInParts, FrontReading, Prints, ReadsFrontAlike, ReadsFrontPrinted, Returns, front_alike, front_done, front_end_law, front_parts, front_row_alike, front_row_law, limit, row};

use crate::decode::Decode;
use crate::error::Result;
use crate::grammar::Encoding;
use crate::memory::Memory;
use crate::reader::Octets;

/// A row of parts, each of which is there, at the front of contents that go on behind it.
pub trait FrontRow {
    /// What rows of the type mean.
    ghost Value: { Type 0 };

    /// What a row means.
    ghost value: { Self → Value };

    /// What stands in the bytes: a row, or one of its spellings.
    ghost Spelling: { Type 0 };

    /// What a spelling means.
    ghost means: { Spelling → Value };

    /// Which spellings have octets.
    ghost valid: { Spelling → Type 0 };

    /// Their octets.
    ghost printed: { Spelling → List ℕ };

    /// The spelling of the row at the front, with the bytes behind it, or the kind of error of the first fault.
    ghost read_spelling: { FrontReading Spelling };

    /// The row at the front, with the bytes behind it, or the kind of error of the first fault.
    ghost read_row: { FrontReading Value };

    /// The rows of valid spellings are read, and no others, and faults are about the bytes.
    ghost law: { ReadsFrontPrinted valid printed read_spelling };

    /// The row that is read is what the spelling means.
    ghost reads_alike: { ReadsFrontAlike read_spelling means read_row };
}

/// A row that is read at the front of bytes.
pub trait DecodeFront<B: Octets, M: Memory>: FrontRow + Sized + Drop {
    /// What may be left where reading the row may allocate.
    ghost may_allocate: { List ℕ → Type 0 };

    /// The row at the front, and what follows it. Err: the first fault, or `OutOfMemory` where it may allocate.
    fn read_first(memory: M, bytes: B) -> Result<(Self, B)>
        requires { length (B.octets bytes) ≤ limit }
        ensures read { let b = B.octets bytes in
            Returns (λ split. (Self.value split.0, B.octets split.1)) (Self.read_row b) (may_allocate b) result }
        ensures rest { IfOk result (λ split. length (B.octets split.1) ≤ limit) };
}

impl FrontRow for () {
    ghost Value = { Unit {0} };

    ghost value = { λ _. tt };

    ghost Spelling = { Unit {0} };

    ghost means = { λ s. s };

    ghost valid = { λ _. Unit {0} };

    ghost printed = { λ _. [] };

    ghost read_spelling = { front_done };

    ghost read_row = { front_done };

    ghost law = { front_end_law };

    ghost reads_alike = { front_alike front_done };
}

impl<A: Encoding, B: FrontRow> FrontRow for (A, B) {
    ghost Value = { A.Value × B.Value };

    ghost value = { λ parts. (A.value parts.0, B.value parts.1) };

    ghost Spelling = { A.Spelling × B.Spelling };

    ghost means = { λ s. (A.means s.0, B.means s.1) };

    ghost valid = { λ s. A.valid s.0 × B.valid s.1 };

    ghost printed = { row A.printed B.printed };

    ghost read_spelling = { front_parts A.read_spelling B.read_spelling };

    ghost read_row = { front_parts A.read_front B.read_row };

    ghost law = { front_row_law A.law B.law };

    ghost reads_alike = { front_row_alike A.reads_alike B.reads_alike };
}

impl<'a, M: Memory> DecodeFront<&'a [u8], M> for () {
    ghost may_allocate = { λ _. ⊥ };

    #[inline(always)]
    fn read_first(_memory: M, bytes: &'a [u8]) -> Result<((), &'a [u8])> {
        Ok(((), bytes))
    }
}

impl<'a, M: Memory, A: Decode<&'a [u8], M>, B: DecodeFront<&'a [u8], M>> DecodeFront<&'a [u8], M>
    for (A, B) {
    ghost may_allocate = { let first = Prints A.valid A.printed A.means in
        AllocatesInParts first A.Decode.may_allocate B.DecodeFront.may_allocate };

    #[inline(always)]
    fn read_first(memory: M, bytes: &'a [u8]) -> Result<((A, B), &'a [u8])> {
        let (first, behind) = A::read_one(memory, bytes)?;
        let (rest, left) = B::read_first(memory, behind)?;
        Ok(((first, rest), left))
    }
}
