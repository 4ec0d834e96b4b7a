//! The words of rows about the algorithms that the library names: each public function with a `Told` writes a row's
//! output to it, or the trouble for which there is none.
use crate::shown::Shown;
use crate::told::{PrintedError, Told};
use pkcs1::hash_functions::{Mgf1, Sha1, Sha224, Sha256, Sha384, Sha512, Sha512_224, Sha512_256};
use pkcs1::{
    ALGORITHM_OID, PSpecified, RsaOaepParamsRef, RsaOaepParamsView, RsaPssParamsRef,
    RsaPssParamsView, RsaesOaep, RsassaPss, rsa_encryption_oid, rsaes_oaep_oid, rsassa_pss_oid,
};
use spki_core::{AssociatedOid, ObjectIdentifier};

/// The name of each hash function, with what the function gives of its type.
macro_rules! of_hash_functions {
    ($($function:tt)*) => {
        [
            ("SHA-1", $($function)*::<Sha1>()),
            ("SHA-224", $($function)*::<Sha224>()),
            ("SHA-256", $($function)*::<Sha256>()),
            ("SHA-384", $($function)*::<Sha384>()),
            ("SHA-512", $($function)*::<Sha512>()),
            ("SHA-512/224", $($function)*::<Sha512_224>()),
            ("SHA-512/256", $($function)*::<Sha512_256>()),
        ]
    };
}

/// The identifier that a type names, and its constant, which no proof compares with it.
fn identifier<D: AssociatedOid>() -> (ObjectIdentifier, &'static [u8]) {
    (ObjectIdentifier::of::<D>(), D::OID)
}

/// The same of the hash function with this name.
fn hash_function(name: &str) -> Option<(ObjectIdentifier, &'static [u8])> {
    for (known, identifier) in of_hash_functions!(identifier).iter() {
        if *known == name {
            return Some(*identifier);
        }
    }
    None
}

/// `oid-named NAME`: the contents octets of a named identifier.
pub fn oid_named(to: &mut Told, name: &str) {
    let named = match name {
        "MGF1" => Some(identifier::<Mgf1>()),
        "pSpecified" => Some(identifier::<PSpecified>()),
        "rsaEncryption" => Some((rsa_encryption_oid(), ALGORITHM_OID)),
        "id-RSAES-OAEP" => Some((rsaes_oaep_oid(), RsaesOaep::OID)),
        "id-RSASSA-PSS" => Some((rsassa_pss_oid(), RsassaPss::OID)),
        _ => hash_function(name),
    };
    let Some((oid, constant)) = named else {
        return to.malformed();
    };
    oid.shown(to);
    to.way("OID");
    to.digits(constant);
}

/// The names of the hash functions that are used, or `-`.
fn names(to: &mut Told, uses: &[(&str, bool)]) {
    let mut used_none = true;
    for (name, used) in uses {
        if *used {
            to.text(name);
            used_none = false;
        }
    }
    if used_none {
        to.text("-");
    }
}

/// The hash function of parameters, or the error of reading them.
macro_rules! told_hash {
    ($to:expr, $read:expr) => {
        match $read {
            Ok(params) => names($to, &of_hash_functions!(params.uses_hash)),
            Err(error) => error.told($to),
        }
    };
}

/// `pss-hash HEX`: the hash function of PSS parameters.
pub fn pss_hash(to: &mut Told, bytes: &[u8]) {
    told_hash!(to, RsaPssParamsRef::try_from(bytes));
    to.way("view");
    told_hash!(to, RsaPssParamsView::try_from(bytes));
}

/// `oaep-hash HEX`: the hash function of OAEP parameters.
pub fn oaep_hash(to: &mut Told, bytes: &[u8]) {
    told_hash!(to, RsaOaepParamsRef::try_from(bytes));
    to.way("view");
    told_hash!(to, RsaOaepParamsView::try_from(bytes));
}
