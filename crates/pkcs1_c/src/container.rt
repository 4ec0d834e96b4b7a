//! RSA keys in PKCS #8 containers.
ghost use Rattle.std.specs.Prelude.{◌≡◌, ◌≢◌, length, IfErr, IfOk, OnErr, OnOk, Some, None};
ghost use Rattle.pkcs1.specs.Words.{held_view, rsa_private_key};
ghost use Rattle.pkcs1_params.specs.Words.{AnswersAsn1, IsAsn1};
ghost use Rattle.pkcs8_core.specs.Words.{ContainedKey, IsContainer, info_of, info_viewed, rsa_encryption, rsa_private_key_info};
ghost use Rattle.pkcs1_c.specs.Words.{DecodesPrivateKey, EncodingIfHeld, InfoError, InfoHasKey, InfoIsTidy, IsErrorOf, IsStatusOf, WritesOrTells, private_key_info_seen};
ghost use Rattle.standard.specs.Statement.{ContainedKeyEncoding, ContainerEncoding, Decodes};

use crate::bytes::Bytes;
use crate::private_key::{PrivateKey, to_c_key, to_c_list};
use crate::status::{OK, status};
use crate::written::write_encoding;
use der_core::OctetStringRef;
use pkcs1::{RsaPrivateKeyView, algorithm_id};
use pkcs8_core::{PrivateKeyInfoRef, PrivateKeyInfoView};

/// A container (PrivateKeyInfo of RFC 5208 5) of an RSA key, whose algorithm is rsaEncryption with NULL.
#[repr(C)]
#[derive(Clone, Copy, Drop)]
pub struct PrivateKeyInfo<'a> {
    /// The DER encoding of the private key.
    pub private_key: &'a [u8],
    /// Whether there are attributes.
    pub has_attributes: bool,
    /// Their contents octets, which aren't checked.
    pub attributes: &'a [u8],
}

/// Decodes a container and the RSA key in it.
fn read_container<'a>(
    encoding: &'a [u8],
) -> pkcs1::Result<(PrivateKeyInfoView<'a>, RsaPrivateKeyView<'a>)>
    ensures container { IfOk result (λ read. Decodes ContainerEncoding encoding.now (Some (info_viewed read.0))) }
    ensures key { IfOk result (λ read. let c = info_viewed read.0 in
        Decodes (ContainedKey c) c.private_key (Some (held_view read.1))) }
    ensures err { OnErr result (Decodes ContainedKeyEncoding encoding.now None) }
    ensures exact { AnswersAsn1 (λ read. held_view read.1) (rsa_private_key_info encoding.now) result }
{
    let info = PrivateKeyInfoView::try_from(encoding)?;
    let view = info.rsa_view()?;
    Ok((info, view))
}

/// The C struct of a container of an RSA key.
fn to_c_info<'a>(info: &PrivateKeyInfoView<'a>) -> PrivateKeyInfo<'a>
    ensures seen { (info_viewed info.now).algorithm ≡ rsa_encryption
        → private_key_info_seen result ≡ info_viewed info.now }
    ensures tidy { InfoIsTidy result }
{
    let private_key = info.private_key.as_bytes();
    match info.attributes {
        Some(attributes) => PrivateKeyInfo {
            private_key,
            has_attributes: true,
            attributes,
        },
        None => PrivateKeyInfo {
            private_key,
            has_attributes: false,
            attributes: &[],
        },
    }
}

/// Decodes a container whose algorithm is rsaEncryption with NULL, and the private key in it; allocates nothing. `OK`
/// exactly if the octets encode such a container: then `info` holds it, in parts of `encoding`, and attributes that are
/// absent are empty. `key` and `listed` hold the only key in it, as of `pkcs1_c_private_key_decode`. Else the status of
/// the first fault of a container, then of the RSA key in it, and all three are as they were.
#[unsafe(no_mangle)]
pub extern "C" fn pkcs1_c_private_key_info_decode<'a>(
    encoding: &'a [u8],
    info: &mut PrivateKeyInfo<'a>,
    key: &mut PrivateKey<'a>,
    listed: &mut Bytes<'a>,
) -> u32
    ensures ok { result ≡ OK → Decodes ContainerEncoding encoding.now (Some (private_key_info_seen info.new)) }
    ensures key { result ≡ OK → DecodesPrivateKey info.new.private_key.now key.new listed.new.octets.now }
    ensures rejected { result ≢ OK → Decodes ContainedKeyEncoding encoding.now None }
    ensures exact { IsStatusOf (rsa_private_key_info encoding.now) result }
    ensures tidy { result ≡ OK → InfoIsTidy info.new }
    ensures unchanged { result ≢ OK → (info.new ≡ info.old) × (key.new ≡ key.old) × (listed.new ≡ listed.old) }
{
    match read_container(encoding) {
        Ok((read, view)) => {
            *info = to_c_info(&read);
            *key = to_c_key(&view);
            *listed = to_c_list(&view);
            OK
        }
        Err(error) => status(&error),
    }
}

/// The container of a C struct. Its `private_key` must be the encoding of a private key.
fn from_c_info<'a>(info: &PrivateKeyInfo<'a>) -> pkcs1::Result<PrivateKeyInfoRef<'a>>
    ensures ok { IfOk result (λ made. info_of made ≡ private_key_info_seen info.now) }
    ensures key { OnOk result (InfoHasKey info.now) }
    ensures some { IfOk result (λ made. IsContainer (info_of made)) }
    ensures exact { IfErr result (IsAsn1 (λ e. rsa_private_key info.now.private_key.now ≡ Err e.kind)) }
{
    let _view = RsaPrivateKeyView::try_from(info.private_key)?;
    let private_key = OctetStringRef::new(info.private_key)?;
    let attributes = if info.has_attributes {
        Some(info.attributes)
    } else {
        None
    };
    let made = PrivateKeyInfoRef {
        algorithm: algorithm_id(),
        private_key,
        attributes,
    };
    made.lemma_has_encoding();
    Ok(made)
}

/// Puts the only encoding of a container to the front of `out`. `len` and the rest of `out` are as of
/// `pkcs1_c_public_key_encode`. If `private_key` encodes a private key: `NO_ROOM` exactly if there is an encoding, and
/// `out` is shorter; `OVERFLOW` exactly if none is within the limit. Else the status of the first fault of
/// `private_key` as a private key.
#[unsafe(no_mangle)]
pub extern "C" fn pkcs1_c_private_key_info_encode(
    info: &PrivateKeyInfo<'_>,
    out: &mut [u8],
    len: &mut usize,
) -> u32
    ensures writes { let Encoding = EncodingIfHeld (InfoHasKey info.now) ContainerEncoding in
        WritesOrTells Encoding (private_key_info_seen info.now) out.old out.new len.old len.new result }
    ensures exact { IsErrorOf (InfoError info.now (length out.old)) result }
{
    match from_c_info(info) {
        Ok(made) => write_encoding(&made, out, len),
        Err(failure) => status(&failure),
    }
}
