//! Encoding into a caller's slice.
ghost use Rattle.std.specs.Prelude.{length};
ghost use Rattle.der_core.specs.Words.{Spells};
ghost use Rattle.pkcs1_params.specs.Words.{EncodingOfFields};
ghost use Rattle.pkcs1_c.specs.Words.{IsErrorOf, UnwrittenStatus, WritesOrTells};
ghost use Rattle.standard.specs.Statement.{AlgorithmEncoding};

use crate::status::{NO_ROOM, OK, kind_number};
use der_core::{BackWriter, Encode};
use pkcs1::{EncodeParams, Shortest};
use spki_core::AssociatedOid;

/// Writes the shortest encoding of the value to the front of `out`. Returns 0, with its length in `len`, or `NO_ROOM`,
/// with the needed length in `len`, or another status, with `len` unchanged.
pub(crate) fn write_encoding<T: Encode>(value: &T, out: &mut [u8], len: &mut usize) -> u32
    requires { T.valid (T.written (T.value value.now)) }
    ensures writes { let Encoding = Spells T.valid T.printed T.means in
        WritesOrTells Encoding (T.value value.now) out.old out.new len.old len.new result }
    ensures exact { let Encoding = Spells T.valid T.printed T.means in
        IsErrorOf (UnwrittenStatus Encoding (T.value value.now) (length out.old)) result }
{
    let count = match value.encoded_len() {
        Ok(length) => length.to_usize(),
        Err(error) => return kind_number(&error.kind),
    };
    *len = count;
    if out.len() < count {
        return NO_ROOM;
    }
    let (region, _) = out.split_at_mut(count);
    let mut writer = BackWriter::new(region);
    value.prepend(&mut writer);
    OK
}

/// Writes the shortest encoding of parameters, as `write_encoding` does.
pub(crate) fn write_params<T: EncodeParams>(params: T, out: &mut [u8], len: &mut usize) -> u32
    ensures writes { let Encoding = EncodingOfFields T.Is T.fields_of in
        WritesOrTells Encoding (T.params params) out.old out.new len.old len.new result }
    ensures exact { let Encoding = EncodingOfFields T.Is T.fields_of in
        IsErrorOf (UnwrittenStatus Encoding (T.params params) (length out.old)) result }
{
    params.lemma_is_valid();
    write_encoding(&Shortest::of(params), out, len)
}

/// Writes the shortest encoding of the algorithm identifier of D with parameters, as `write_encoding` does.
pub(crate) fn write_algorithm<D: AssociatedOid, T: EncodeParams>(
    params: T,
    out: &mut [u8],
    len: &mut usize,
) -> u32
    ensures writes { let Encoding = AlgorithmEncoding D.contents (EncodingOfFields T.Is T.fields_of) in
        WritesOrTells Encoding (T.params params) out.old out.new len.old len.new result }
    ensures exact { let Encoding = AlgorithmEncoding D.contents (EncodingOfFields T.Is T.fields_of) in
        IsErrorOf (UnwrittenStatus Encoding (T.params params) (length out.old)) result }
{
    write_encoding(&Shortest::identified::<D>(params), out, len)
}
