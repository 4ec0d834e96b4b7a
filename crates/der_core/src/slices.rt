//! Reading of slices that hold contents octets alone, or an encoding and what follows it.
ghost use Rattle.standard.specs.Statement as standard;
ghost use Rattle.der_core.specs.Words.{AllocatesAtFront, DecodesOrMemory, InFront, Prints, Returns, Spells, WithinLimit, limited};

use crate::decode::{Decode, DecodeValue};
use crate::error::{Error, ErrorKind, Result};
use crate::grammar::FixedTag;
use crate::length::Length;
use crate::memory::Memory;

/// Reads a whole slice as the contents octets behind a header, whose tag is the caller's to compare. Ok only if they
/// are those of a value, and of no other: then this value. Err: the first fault, `Overflow` if they are more than
/// `Length::MAX`, or `OutOfMemory` where the type may allocate.
#[inline(always)]
pub fn read_contents<'a, T: DecodeValue<&'a [u8], M> + FixedTag, M: Memory>(
    memory: M,
    contents: &'a [u8],
) -> Result<T>
    ensures read { let asked = T.DecodeValue.may_allocate contents.now in
        DecodesOrMemory T.value (Spells T.valid T.printed T.means) asked contents.now result }
    ensures exact { let asked = T.DecodeValue.may_allocate contents.now in
        Returns T.value (limited T.read contents.now) asked result }
{
    if contents.len() > Length::MAX.to_usize() {
        return Err(Error::new(ErrorKind::Overflow));
    }
    T::read_value(memory, contents)
}

/// Reads the encoding at the front of a slice. Ok only if the slice begins with one, and with no other: then its value,
/// and the slice behind it. Err: the first fault, `Overflow` if the slice is longer than `Length::MAX`, or
/// `OutOfMemory` where the type may allocate.
#[inline(always)]
pub fn read_front<'a, T: Decode<&'a [u8], M>, M: Memory>(
    memory: M,
    bytes: &'a [u8],
) -> Result<(T, &'a [u8])>
    ensures read { let asked = AllocatesAtFront T.Decode.may_allocate bytes.now in
        let split = InFront (Prints T.valid T.printed T.means) in
        DecodesOrMemory (λ r. (T.value r.0, r.1.now)) (WithinLimit split) asked bytes.now result }
    ensures exact { let asked = AllocatesAtFront T.Decode.may_allocate bytes.now in
        Returns (λ r. (T.value r.0, r.1.now)) (limited T.read_front bytes.now) asked result }
{
    if bytes.len() > Length::MAX.to_usize() {
        return Err(Error::new(ErrorKind::Overflow));
    }
    T::read_one(memory, bytes)
}
