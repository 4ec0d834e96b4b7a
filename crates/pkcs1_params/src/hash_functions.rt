//! Types that name the hash functions and the mask generation function of PKCS #1 (RFC 8017 B.1, B.2.1).
ghost use Rattle.std.specs.Prelude.{refl};
ghost use Rattle.pkcs1_params.specs.Words.{hash_algorithm, id_mgf1, id_sha1};

use spki_core::AssociatedOid;

/// SHA-1.
pub struct Sha1;

impl AssociatedOid for Sha1 {
    ghost contents = { id_sha1 };

    ghost valid = { refl };

    const OID: &'static [u8] = &[0x2b, 0x0e, 0x03, 0x02, 0x1a];

    fn octets() -> &'static [u8] {
        Self::OID
    }
}

/// SHA-224.
pub struct Sha224;

impl AssociatedOid for Sha224 {
    ghost contents = { hash_algorithm 4 };

    ghost valid = { refl };

    const OID: &'static [u8] = &[0x60, 0x86, 0x48, 0x01, 0x65, 0x03, 0x04, 0x02, 0x04];

    fn octets() -> &'static [u8] {
        Self::OID
    }
}

/// SHA-256.
pub struct Sha256;

impl AssociatedOid for Sha256 {
    ghost contents = { hash_algorithm 1 };

    ghost valid = { refl };

    const OID: &'static [u8] = &[0x60, 0x86, 0x48, 0x01, 0x65, 0x03, 0x04, 0x02, 0x01];

    fn octets() -> &'static [u8] {
        Self::OID
    }
}

/// SHA-384.
pub struct Sha384;

impl AssociatedOid for Sha384 {
    ghost contents = { hash_algorithm 2 };

    ghost valid = { refl };

    const OID: &'static [u8] = &[0x60, 0x86, 0x48, 0x01, 0x65, 0x03, 0x04, 0x02, 0x02];

    fn octets() -> &'static [u8] {
        Self::OID
    }
}

/// SHA-512.
pub struct Sha512;

impl AssociatedOid for Sha512 {
    ghost contents = { hash_algorithm 3 };

    ghost valid = { refl };

    const OID: &'static [u8] = &[0x60, 0x86, 0x48, 0x01, 0x65, 0x03, 0x04, 0x02, 0x03];

    fn octets() -> &'static [u8] {
        Self::OID
    }
}

/// SHA-512/224.
pub struct Sha512_224;

impl AssociatedOid for Sha512_224 {
    ghost contents = { hash_algorithm 5 };

    ghost valid = { refl };

    const OID: &'static [u8] = &[0x60, 0x86, 0x48, 0x01, 0x65, 0x03, 0x04, 0x02, 0x05];

    fn octets() -> &'static [u8] {
        Self::OID
    }
}

/// SHA-512/256.
pub struct Sha512_256;

impl AssociatedOid for Sha512_256 {
    ghost contents = { hash_algorithm 6 };

    ghost valid = { refl };

    const OID: &'static [u8] = &[0x60, 0x86, 0x48, 0x01, 0x65, 0x03, 0x04, 0x02, 0x06];

    fn octets() -> &'static [u8] {
        Self::OID
    }
}

/// MGF1.
pub struct Mgf1;

impl AssociatedOid for Mgf1 {
    ghost contents = { id_mgf1 };

    ghost valid = { refl };

    const OID: &'static [u8] = &[0x2a, 0x86, 0x48, 0x86, 0xf7, 0x0d, 0x01, 0x01, 0x08];

    fn octets() -> &'static [u8] {
        Self::OID
    }
}
