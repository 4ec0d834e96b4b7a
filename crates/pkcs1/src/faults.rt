//! Why bytes encode no key: the error of reading, as a function of the bytes alone.
ghost use Rattle.std.specs.Prelude.{◌≡◌, ◌↔◌, None};
ghost use Rattle.pkcs1.specs.Words.{IsEncoded, fault_in, rsa_private_key, rsa_public_key};
ghost use Rattle.standard.specs.Statement.{PrivateKeyEncoding, PublicKeyEncoding};

use crate::public_key::RsaPublicKeyRef;
use crate::view::RsaPrivateKeyView;
use der_core::ErrorKind;
use pkcs1_params::Error;

/// The kind of the first fault of bytes that don't encode a public key, or `None` if they do. There is exactly one
/// result for each slice, as reading allocates nothing.
pub fn fault_of_public_key(bytes: &[u8]) -> Option<ErrorKind>
    ensures fault { result ≡ fault_in (rsa_public_key bytes.now) }
    ensures encodes { (result ≡ None) ↔ IsEncoded PublicKeyEncoding bytes.now }
{
    match RsaPublicKeyRef::try_from(bytes) {
        Ok(_) => None,
        Err(Error::Asn1(error)) => Some(error.kind()),
        Err(_) => unreachable!(),
    }
}

/// The kind of the first fault of bytes that don't encode a private key, or `None` if they do. There is exactly one
/// result for each slice, as reading allocates nothing.
pub fn fault_of_private_key(bytes: &[u8]) -> Option<ErrorKind>
    ensures fault { result ≡ fault_in (rsa_private_key bytes.now) }
    ensures encodes { (result ≡ None) ↔ IsEncoded PrivateKeyEncoding bytes.now }
{
    match RsaPrivateKeyView::try_from(bytes) {
        Ok(_) => None,
        Err(Error::Asn1(error)) => Some(error.kind()),
        Err(_) => unreachable!(),
    }
}
