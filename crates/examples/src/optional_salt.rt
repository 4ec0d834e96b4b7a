//! A SEQUENCE with an OPTIONAL last part.
ghost use Rattle.std.specs.Prelude.{◌⊎◌, IfErr, length};
ghost use Rattle.standard.specs.Statement.{Decodes, Encodes};
ghost use Rattle.der_core.specs.Words.{Answers, Unwritten, encode_error, ok_of};
ghost use Rattle.examples.specs.Salt.{IsSalt, SaltEncoding, salt_of, salt_read};

use der_core::{
    Borrowed, BorrowedLast, Encode, EncodeInParts, Encoding, Last, OctetStringRef, Record, Result,
    RowOperation, SequenceTag, TaggedBy, UintRef, read_borrowed, write_only,
};

/// A number of iterations, and a salt that is there or not.
///
/// ```text
/// OptionalSalt ::= SEQUENCE { iterations INTEGER, salt OCTET STRING OPTIONAL }
/// ```
#[derive(Clone, Copy, Debug, PartialEq, Eq, Drop)]
pub struct OptionalSalt<U, S> {
    /// The number of iterations.
    pub iterations: U,
    /// The salt.
    pub salt: Option<S>,
}

/// One that borrows its parts.
pub type OptionalSaltRef<'a> = OptionalSalt<UintRef<'a>, OctetStringRef<'a>>;

impl<U, S> TaggedBy for OptionalSalt<U, S> {
    type Marker = SequenceTag;
}

impl<U: Encoding, S: Encoding> Record for OptionalSalt<U, S> {
    type Fields = (U, Last<S>);

    ghost fields = { λ it. (it.iterations, record { 0 = it.salt }) };

    fn from_fields(row: (U, Last<S>)) -> OptionalSalt<U, S> {
        let (iterations, Last(salt)) = row;
        OptionalSalt { iterations, salt }
    }
}

impl<U: Encode, S: Encode> EncodeInParts for OptionalSalt<U, S> {
    ghost refused = { λ tag. U.Encode.refused tag ⊎ S.Encode.refused tag };

    #[inline(always)]
    fn with_row<O: RowOperation>(&self, operation: &mut O) -> O::Output {
        operation.apply(&(Borrowed(&self.iterations), BorrowedLast(&self.salt)))
    }
}

/// What a slice encodes, read without memory; or the error of the first fault.
pub fn read_optional_salt(bytes: &[u8]) -> Result<OptionalSaltRef<'_>>
    ensures read { Decodes SaltEncoding bytes.now (ok_of salt_of result) }
    ensures exact { Answers salt_of result (salt_read bytes.now) }
{
    read_borrowed(bytes)
}

/// Writes the only encoding to the front of a slice and returns its length. Err: exactly why; the slice is as it was.
pub fn write_optional_salt(it: &OptionalSaltRef<'_>, out: &mut [u8]) -> Result<usize>
    ensures written { Encodes SaltEncoding (salt_of it.now) out.old out.new (ok_of (λ n. n) result) }
    ensures err { let v = salt_of it.now in
        IfErr result (λ e. Unwritten IsSalt SaltEncoding v (length out.old) (encode_error e.kind)) }
{
    write_only(it, out)
}
