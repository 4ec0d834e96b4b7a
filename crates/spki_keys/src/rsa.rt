//! RSA keys in SubjectPublicKeyInfo (RFC 3279 2.3.1), read and written.
ghost use Rattle.std.specs.Prelude.{IfErr, length, ⊤};
ghost use Rattle.standard.specs.Statement.{Decodes, Encodes};
ghost use Rattle.der_core.specs.Words.{Answers, Unwritten, bytes_of, encode_error, ok_of};
ghost use Rattle.pkcs1.specs.Words.{held_public_key};
ghost use Rattle.spki_keys.specs.KeyInfo.{RsaKeyInfoEncoding, rsa_key_info_read};

use crate::info::SubjectPublicKeyInfo;
use der_core::{BitString, Containing, Result, read_borrowed, write_only};
use pkcs1::{RsaPublicKeyRef, algorithm_id, require_rsa_encryption};
use spki_core::{AlgorithmView, AnyRef};

/// One of an RSA key, that borrows its parts.
pub type RsaKeyInfoRef<'a> = SubjectPublicKeyInfo<
    AlgorithmView<'a, AnyRef<'a>>,
    RsaPublicKeyRef<'a>,
>;

/// The RSA key in a SubjectPublicKeyInfo, read without memory. The algorithm has to be rsaEncryption with NULL. Ok
/// exactly if the slice encodes one: then this key. Err: its first fault, with any algorithm, and then that of
/// `require_rsa_encryption`.
pub fn key_from_info(bytes: &[u8]) -> Result<RsaPublicKeyRef<'_>>
    ensures read { Decodes RsaKeyInfoEncoding bytes.now (ok_of (held_public_key bytes_of) result) }
    ensures exact { Answers (held_public_key bytes_of) result (rsa_key_info_read bytes.now) }
{
    let info: RsaKeyInfoRef<'_> = read_borrowed(bytes)?;
    require_rsa_encryption(&info.algorithm)?;
    let BitString(Containing(key)) = info.key;
    Ok(key)
}

/// Writes the only SubjectPublicKeyInfo of an RSA key to the front of a slice and returns its length. Err: the slice
/// is as it was. `Overflow` exactly if there is none within `Length::MAX`, else `NoRoom` exactly if it is too short.
pub fn key_to_info(key: &RsaPublicKeyRef<'_>, out: &mut [u8]) -> Result<usize>
    ensures written { let v = held_public_key bytes_of key.now in
        Encodes RsaKeyInfoEncoding v out.old out.new (ok_of (λ n. n) result) }
    ensures err { let v = held_public_key bytes_of key.now in
        IfErr result (λ e. Unwritten (λ _. ⊤) RsaKeyInfoEncoding v (length out.old) (encode_error e.kind)) }
{
    let info = SubjectPublicKeyInfo {
        algorithm: algorithm_id(),
        key: BitString(Containing(*key)),
    };
    write_only(&info, out)
}
