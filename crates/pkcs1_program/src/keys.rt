//! The output for keys.
ghost use Rattle.std.specs.Prelude.{◌≡◌, ◌++◌, OnOk, IfSome, IfNone, None, flat_map};
ghost use Rattle.der_core.specs.Words.{bytes_of};
ghost use Rattle.pkcs1.specs.Words.{held_other_prime, held_public_key, held_view, number_in, viewed_encoding};
ghost use Rattle.pkcs8_core.specs.Words.{info_of};
ghost use Rattle.standard.specs.Statement.{Decodes, PrivateKeyEncoding, PublicKeyEncoding, octets};
ghost use Rattle.pkcs1_program.specs.Words.{TellsValue, RsaContainerEncoding, TellsContainer, Puts, hex_field, pub_answer, version_field, key_number_fields, other_prime_field, other_prime_fields, key_fields, priv_answer, attributes_field, p8_answer};

use crate::digits::put_field;
use crate::verdict::put_refused;
use pkcs1::{OtherPrimeInfo, RsaPrivateKeyView, RsaPublicKeyRef, UintRef, Version};
use pkcs8_core::PrivateKeyInfoRef;
use std::alloc::AllocError;

/// Appends each label and its number to `out`.
fn put_numbers(numbers: &[(&[u8], UintRef<'_>)], out: &mut Vec<u8>) -> Result<(), AllocError>
    ensures { let told = flat_map (λ n. hex_field n.0.now (octets (number_in bytes_of n.1))) numbers.now in
        OnOk result (out.new.items ≡ out.old.items ++ told) }
{
    for (label, number) in numbers {
        put_field(label, number.as_bytes(), out)?;
    }
    Ok(())
}

/// Appends the output for a public key to `out`; `again` is its encoding.
fn put_pub(key: &RsaPublicKeyRef<'_>, again: &[u8], out: &mut Vec<u8>) -> Result<(), AllocError>
    ensures { OnOk result (out.new.items ≡ out.old.items ++ pub_answer (held_public_key bytes_of key.now) again.now) }
{
    out.extend_from_slice(b"pub")?;
    put_numbers(&[(b" n=", key.modulus), (b" e=", key.public_exponent)], out)?;
    put_field(b" again=", again, out)
}

/// Appends the output for `pub` to `out`. `again=` gets the input, since a key has only one encoding. Only `out`
/// allocates.
pub fn answer_pub(encoding: &[u8], out: &mut Vec<u8>) -> Result<(), AllocError>
    ensures { OnOk result (Puts (TellsValue PublicKeyEncoding pub_answer encoding.now) out.old.items out.new.items) }
{
    match RsaPublicKeyRef::try_from(encoding) {
        Ok(key) => put_pub(&key, encoding, out),
        Err(_) => put_refused(out),
    }
}

/// Appends the version of a private key to `out`.
fn put_version(key: &RsaPrivateKeyView<'_>, out: &mut Vec<u8>) -> Result<(), AllocError>
    ensures { OnOk result (out.new.items ≡ out.old.items ++ version_field (held_view key.now).other_primes) }
{
    match key.version() {
        Version::TwoPrime => out.extend_from_slice(b" version=0"),
        Version::Multi => out.extend_from_slice(b" version=1"),
    }
}

/// Appends the eight numbers of a private key to `out`.
fn put_private_numbers(key: &RsaPrivateKeyView<'_>, out: &mut Vec<u8>) -> Result<(), AllocError>
    ensures { OnOk result (out.new.items ≡ out.old.items ++ key_number_fields (held_view key.now)) }
{
    put_numbers(
        &[
            (b" n=", key.modulus()),
            (b" e=", key.public_exponent()),
            (b" d=", key.private_exponent()),
            (b" p=", key.prime1()),
            (b" q=", key.prime2()),
            (b" dp=", key.exponent1()),
            (b" dq=", key.exponent2()),
            (b" qi=", key.coefficient()),
        ],
        out,
    )
}

/// Appends one of the other primes to `out`.
fn put_other(other: &OtherPrimeInfo<UintRef<'_>>, out: &mut Vec<u8>) -> Result<(), AllocError>
    ensures { OnOk result (out.new.items ≡ out.old.items ++ other_prime_field (held_other_prime bytes_of other.now)) }
{
    put_numbers(
        &[
            (b" other=", other.prime),
            (b",", other.exponent),
            (b",", other.coefficient),
        ],
        out,
    )
}

/// Appends the other primes of a private key to `out`, in order.
fn put_others(key: &RsaPrivateKeyView<'_>, out: &mut Vec<u8>) -> Result<(), AllocError>
    ensures { OnOk result (out.new.items ≡ out.old.items ++ other_prime_fields (held_view key.now).other_primes) }
{
    for other in key.other_primes() {
        put_other(&other, out)?;
    }
    Ok(())
}

/// Appends the version, the numbers and the other primes of a private key to `out`.
fn put_key(key: &RsaPrivateKeyView<'_>, out: &mut Vec<u8>) -> Result<(), AllocError>
    ensures { OnOk result (out.new.items ≡ out.old.items ++ key_fields (held_view key.now)) }
{
    put_version(key, out)?;
    put_private_numbers(key, out)?;
    put_others(key, out)
}

/// Appends the output for a private key to `out`.
fn put_priv(key: &RsaPrivateKeyView<'_>, out: &mut Vec<u8>) -> Result<(), AllocError>
    ensures { OnOk result (out.new.items ≡ out.old.items ++ priv_answer (held_view key.now) (viewed_encoding key.now)) }
{
    out.extend_from_slice(b"priv")?;
    put_key(key, out)?;
    put_field(b" again=", key.as_bytes(), out)
}

/// Appends the output for `priv` to `out`. Only `out` allocates.
pub fn answer_priv(encoding: &[u8], out: &mut Vec<u8>) -> Result<(), AllocError>
    ensures { OnOk result (Puts (TellsValue PrivateKeyEncoding priv_answer encoding.now) out.old.items out.new.items) }
{
    match RsaPrivateKeyView::try_from(encoding) {
        Ok(key) => put_priv(&key, out),
        Err(_) => put_refused(out),
    }
}

/// Decodes a container and the RSA key in it, or returns `None`.
fn read_container<'a>(encoding: &'a [u8]) -> Option<(PrivateKeyInfoRef<'a>, RsaPrivateKeyView<'a>)>
    ensures some { IfSome result (λ p.
        RsaContainerEncoding (record { info = info_of p.0; key = held_view p.1 }) encoding.now) }
    ensures none { IfNone result (Decodes RsaContainerEncoding encoding.now None) }
{
    let Ok(info) = PrivateKeyInfoRef::try_from(encoding) else {
        return None;
    };
    match info.rsa_view() {
        Ok(key) => Some((info, key)),
        Err(_) => None,
    }
}

/// Appends the attributes of a container to `out`.
fn put_attributes(info: &PrivateKeyInfoRef<'_>, out: &mut Vec<u8>) -> Result<(), AllocError>
    ensures { OnOk result (out.new.items ≡ out.old.items ++ attributes_field (info_of info.now).attributes) }
{
    match info.attributes() {
        Some(contents) => put_field(b" attributes=", contents, out),
        None => out.extend_from_slice(b" attributes=-"),
    }
}

/// Appends the output for a private key in a container to `out`; `encoding` is the encoding of the container.
fn put_p8(
    info: &PrivateKeyInfoRef<'_>,
    key: &RsaPrivateKeyView<'_>,
    encoding: &[u8],
    out: &mut Vec<u8>,
) -> Result<(), AllocError>
    ensures { let told = p8_answer (held_view key.now) (info_of info.now).attributes encoding.now in
        OnOk result (out.new.items ≡ out.old.items ++ told) }
{
    out.extend_from_slice(b"p8")?;
    put_key(key, out)?;
    put_attributes(info, out)?;
    put_field(b" again=", encoding, out)
}

/// Appends the output for `p8` to `out`. Only `out` allocates.
pub fn answer_p8(encoding: &[u8], out: &mut Vec<u8>) -> Result<(), AllocError>
    ensures { OnOk result (Puts (TellsContainer encoding.now) out.old.items out.new.items) }
{
    match read_container(encoding) {
        Some((info, key)) => put_p8(&info, &key, encoding, out),
        None => put_refused(out),
    }
}
