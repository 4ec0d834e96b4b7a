//! A record with a number in a range, and a list.
ghost use Rattle.std.specs.Prelude.{◌≡◌, ◌⊎◌, IfErr, length};
ghost use Rattle.standard.specs.Statement.{Encodes};
ghost use Rattle.der_core.specs.Words.{DecodesOrMemory, Returns, Unwritten, encode_error, integer_tag, ok_of};
ghost use Rattle.examples.specs.NumberList.{IsNumberList, MayAskMemory, NumberListEncoding, number_list_read, numbers_of};

use der_core::{
    Borrowed, Encode, EncodeInParts, Encoding, InRange, Record, Result, RowOperation, SequenceTag,
    TaggedBy, UintRef, read_owned, write_only,
};
use std::alloc::Global;

/// A version, and numbers.
///
/// ```text
/// NumberList ::= SEQUENCE { version INTEGER { v1(0), v2(1) }, numbers SEQUENCE OF INTEGER }
/// ```
#[derive(Debug, Drop)]
pub struct NumberList<U> {
    /// The version, 0 or 1.
    pub version: InRange<0, 1>,
    /// The numbers.
    pub numbers: Vec<U>,
}

/// One that borrows its numbers.
pub type NumberListRef<'a> = NumberList<UintRef<'a>>;

impl<U> TaggedBy for NumberList<U> {
    type Marker = SequenceTag;
}

impl<U: Encoding> Record for NumberList<U> {
    type Fields = (InRange<0, 1>, (Vec<U>, ()));

    ghost fields = { λ list. (list.version, (list.numbers, tt)) };

    fn from_fields(row: (InRange<0, 1>, (Vec<U>, ()))) -> NumberList<U> {
        let (version, (numbers, ())) = row;
        NumberList { version, numbers }
    }
}

impl<U: Encode> EncodeInParts for NumberList<U> {
    ghost refused = { λ tag. (tag ≡ integer_tag) ⊎ (U.Encode.refused tag ⊎ ⊥) };

    #[inline(always)]
    fn with_row<O: RowOperation>(&self, operation: &mut O) -> O::Output {
        operation.apply(&(Borrowed(&self.version), (Borrowed(&self.numbers), ())))
    }
}

/// What a slice encodes; or the error of the first fault, or `OutOfMemory`.
pub fn read_number_list(memory: Global, bytes: &[u8]) -> Result<NumberListRef<'_>>
    ensures read { DecodesOrMemory numbers_of NumberListEncoding (MayAskMemory bytes.now) bytes.now result }
    ensures exact { Returns numbers_of (number_list_read bytes.now) (MayAskMemory bytes.now) result }
{
    read_owned(memory, bytes)
}

/// Writes the only encoding to the front of a slice and returns its length. Err: exactly why; the slice is as it was.
pub fn write_number_list(list: &NumberListRef<'_>, out: &mut [u8]) -> Result<usize>
    ensures written { Encodes NumberListEncoding (numbers_of list.now) out.old out.new (ok_of (λ n. n) result) }
    ensures err { let v = numbers_of list.now in
        IfErr result (λ e. Unwritten IsNumberList NumberListEncoding v (length out.old) (encode_error e.kind)) }
{
    write_only(list, out)
}
