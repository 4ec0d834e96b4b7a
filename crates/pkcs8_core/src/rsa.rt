//! RSA keys in containers.
ghost use Rattle.std.specs.Prelude.{◌≡◌, IfOk, IfErr, IsOk, None, Some};
ghost use Rattle.der_core.specs.Words.{bytes_of, ok_of};
ghost use Rattle.pkcs1.specs.Words.{MayAllocate, Rejects, held_private_key, held_view, viewed_encoding};
ghost use Rattle.pkcs1_params.specs.Words.{AnswersAsn1, AnswersAsn1OrAsks};
ghost use Rattle.pkcs8_core.specs.Words.{ContainedKey, info_in, rsa_encryption, rsa_held, rsa_private_key_info};
ghost use Rattle.standard.specs.Statement.{ContainedKeyEncoding, Container, ContainerEncoding, Decodes, PrivateKey};

use crate::info::{PrivateKeyInfoOf, PrivateKeyInfoView};
use pkcs1::spki::ReadIdentifier;
use pkcs1::{RsaPrivateKeyRef, RsaPrivateKeyView, require_rsa_encryption};
use std::alloc::Global;

impl<'a, O: ReadIdentifier<'a>> PrivateKeyInfoOf<'a, O> {
    /// A view of the RSA key in the container, and allocates nothing. Ok exactly if the algorithm is rsaEncryption with
    /// NULL, and the octets encode a private key: then a view of that key, which keeps these octets. Err: the first
    /// fault of the RSA key in the container. Of the algorithm it is that of `require_rsa_encryption`.
    pub fn rsa_view(&self) -> pkcs1::Result<RsaPrivateKeyView<'a>>
        ensures read { let c = info_in O.octets self.now in
            Decodes (ContainedKey c) c.private_key (ok_of held_view result) }
        ensures bytes { IfOk result (λ view. viewed_encoding view ≡ (info_in O.octets self.now).private_key) }
        ensures exact { AnswersAsn1 held_view (rsa_held (info_in O.octets self.now)) result }
    {
        require_rsa_encryption(&self.algorithm)?;
        RsaPrivateKeyView::try_from(self.private_key.as_bytes())
    }

    /// The RSA key in the container, as a struct. Ok only if `rsa_view` is Ok: then that key. Err: the error of
    /// `rsa_view`, or `OutOfMemory`, which comes where it may for `RsaPrivateKeyRef::decode_key`, and only of
    /// rsaEncryption with NULL. A key of two primes is always read.
    pub fn rsa_key(&self, alloc: Global) -> pkcs1::Result<RsaPrivateKeyRef<'a>>
        ensures ok { let c = info_in O.octets self.now in let held = held_private_key bytes_of in
            IfOk result (λ key. Decodes (ContainedKey c) c.private_key (Some (held key))) }
        ensures err { let c = info_in O.octets self.now in
            let asked = (c.algorithm ≡ rsa_encryption) × MayAllocate c.private_key in
            IfErr result (Rejects (ContainedKey c) c.private_key asked) }
        ensures exact { let c = info_in O.octets self.now in
            let asked = (c.algorithm ≡ rsa_encryption) × MayAllocate c.private_key in
            AnswersAsn1OrAsks (held_private_key bytes_of) (rsa_held c) asked result }
        ensures two_primes { let c = info_in O.octets self.now in (key : PrivateKey)
            → key.other_primes ≡ None → ContainedKey c key c.private_key → IsOk result }
    {
        require_rsa_encryption(&self.algorithm)?;
        RsaPrivateKeyRef::decode_key(alloc, self.private_key.as_bytes())
    }
}

/// Reads the RSA key in a container, and allocates nothing. Ok exactly if the whole slice encodes a container of an RSA
/// key, of which `rsa_view` is Ok: then a view of that key, which keeps the octets in the container's privateKey. Err:
/// the first fault of a container, then that of the RSA key in it.
pub fn rsa_from_pkcs8_der<'a>(bytes: &'a [u8]) -> pkcs1::Result<RsaPrivateKeyView<'a>>
    ensures read { Decodes ContainedKeyEncoding bytes.now (ok_of held_view result) }
    ensures bytes { IfOk result (λ view. (c : Container) × ContainerEncoding c bytes.now
        × (viewed_encoding view ≡ c.private_key)) }
    ensures exact { AnswersAsn1 held_view (rsa_private_key_info bytes.now) result }
{
    let info = PrivateKeyInfoView::try_from(bytes)?;
    info.rsa_view()
}
