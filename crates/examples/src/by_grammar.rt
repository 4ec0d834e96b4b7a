//! Reading and writing of signatures, over their grammar written out.
ghost use Rattle.std.specs.Prelude.{IfErr, length, ⊤};
ghost use Rattle.standard.specs.Statement.{Decodes, Encodes};
ghost use Rattle.der_core.specs.Words.{Answers, Unwritten, encode_error, ok_of};
ghost use Rattle.examples.specs.Signature.{SignatureEncoding, signature_of, signature_read};

use crate::dss_sig::DssSigValueRef;
use der_core::{Result, read_borrowed, write_only};

/// The signature that a slice encodes, without memory; or the error of the first fault.
pub fn read_signature(bytes: &[u8]) -> Result<DssSigValueRef<'_>>
    ensures read { Decodes SignatureEncoding bytes.now (ok_of signature_of result) }
    ensures exact { Answers signature_of result (signature_read bytes.now) }
{
    read_borrowed(bytes)
}

/// Writes a signature's only encoding to the front of a slice and returns its length. Err: the slice is as it was, and
/// the error says exactly why.
pub fn write_signature(signature: &DssSigValueRef<'_>, out: &mut [u8]) -> Result<usize>
    ensures written { let v = signature_of signature.now in
        Encodes SignatureEncoding v out.old out.new (ok_of (λ n. n) result) }
    ensures err { let v = signature_of signature.now in
        IfErr result (λ e. Unwritten (λ _. ⊤) SignatureEncoding v (length out.old) (encode_error e.kind)) }
{
    write_only(signature, out)
}
