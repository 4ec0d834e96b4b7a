//! Why bytes encode no container: the error of reading, as a function of the bytes alone.
ghost use Rattle.std.specs.Prelude.{◌≡◌, ◌↔◌, None};
ghost use Rattle.pkcs1.specs.Words.{IsEncoded, fault_in};
ghost use Rattle.pkcs8_core.specs.Words.{private_key_info};
ghost use Rattle.standard.specs.Statement.{ContainerEncoding};

use crate::info::PrivateKeyInfoRef;
use pkcs1::der::ErrorKind;

/// The kind of the first fault of bytes that don't encode a container, or `None` if they do. There is exactly one
/// result for each slice, as reading allocates nothing.
pub fn fault_of_private_key_info(bytes: &[u8]) -> Option<ErrorKind>
    ensures fault { result ≡ fault_in (private_key_info bytes.now) }
    ensures encodes { (result ≡ None) ↔ IsEncoded ContainerEncoding bytes.now }
{
    match PrivateKeyInfoRef::try_from(bytes) {
        Ok(_) => None,
        Err(error) => Some(error.kind()),
    }
}
