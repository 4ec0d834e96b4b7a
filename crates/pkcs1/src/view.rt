//! RSA private keys over the input, without a list of their other primes.
ghost use Rattle.pkcs1.specs.ViewedKey.{IsViewed, viewed_prop};

use crate::other_primes::OtherPrimes;
use crate::public_key::{RsaPublicKey, RsaPublicKeyRef};
use crate::version::Version;
use crate::viewed_key::ViewedKey;
use der_core::{Decode, NoMemory, UintRef};
use pkcs1_params::Error;
use std::fmt;

/// An RSA private key (RFC 8017 A.1.2) over its encoding. It allocates nothing, however many primes there are. No
/// relation between the numbers is checked.
#[derive(Clone, Copy, Drop)]
pub struct RsaPrivateKeyView<'a> {
    bytes: &'a [u8],
    key: ViewedKey<'a>,
    ghost encodes: { IsViewed key bytes.now } by { viewed_prop key bytes.now },
}

impl<'a> RsaPrivateKeyView<'a> {
    ghost use Rattle.std.specs.Prelude.{◌≡◌, ◌↔◌, IsSome};
    ghost use Rattle.der_core.specs.Words.{bytes_of};
    ghost use Rattle.pkcs1.specs.Words.{held_other_primes, held_public_key, held_view, listed_others, number_in, public_part, viewed_encoding};

    /// The version: `Multi` exactly if there are other primes.
    pub fn version(&self) -> Version
        ensures { (result ≡ Version.Multi) ↔ IsSome (held_view self.now).other_primes }
    {
        self.key.version()
    }

    /// The modulus n.
    pub fn modulus(&self) -> UintRef<'a>
        ensures { number_in bytes_of result ≡ (held_view self.now).modulus }
    {
        self.key.modulus
    }

    /// The public exponent e.
    pub fn public_exponent(&self) -> UintRef<'a>
        ensures { number_in bytes_of result ≡ (held_view self.now).public_exponent }
    {
        self.key.public_exponent
    }

    /// The private exponent d.
    pub fn private_exponent(&self) -> UintRef<'a>
        ensures { number_in bytes_of result ≡ (held_view self.now).private_exponent }
    {
        self.key.private_exponent
    }

    /// The first prime p.
    pub fn prime1(&self) -> UintRef<'a>
        ensures { number_in bytes_of result ≡ (held_view self.now).prime1 }
    {
        self.key.prime1
    }

    /// The second prime q.
    pub fn prime2(&self) -> UintRef<'a>
        ensures { number_in bytes_of result ≡ (held_view self.now).prime2 }
    {
        self.key.prime2
    }

    /// The exponent of the first prime: d modulo p - 1.
    pub fn exponent1(&self) -> UintRef<'a>
        ensures { number_in bytes_of result ≡ (held_view self.now).exponent1 }
    {
        self.key.exponent1
    }

    /// The exponent of the second prime: d modulo q - 1.
    pub fn exponent2(&self) -> UintRef<'a>
        ensures { number_in bytes_of result ≡ (held_view self.now).exponent2 }
    {
        self.key.exponent2
    }

    /// The coefficient: the inverse of q modulo p.
    pub fn coefficient(&self) -> UintRef<'a>
        ensures { number_in bytes_of result ≡ (held_view self.now).coefficient }
    {
        self.key.coefficient
    }

    /// The public key: the modulus and the public exponent.
    pub fn public_key(&self) -> RsaPublicKeyRef<'a>
        ensures { held_public_key bytes_of result ≡ public_part (held_view self.now) }
    {
        RsaPublicKey {
            modulus: self.modulus(),
            public_exponent: self.public_exponent(),
        }
    }

    /// The primes after the first two, in order; none if the version is `TwoPrime`.
    pub fn other_primes(&self) -> OtherPrimes<'a>
        ensures { held_other_primes result ≡ listed_others (held_view self.now).other_primes }
    {
        if let Some(primes) = self.key.other_prime_infos {
            return primes;
        }
        OtherPrimes::none()
    }

    /// The encoding of the key: the slice that was read, or the octets in the container's privateKey.
    pub fn as_bytes(&self) -> &'a [u8]
        ensures { result.now ≡ viewed_encoding self.now }
    {
        self.bytes
    }
}

impl<'a> TryFrom<&'a [u8]> for RsaPrivateKeyView<'a> {
    ghost use Rattle.std.specs.Prelude.{◌≡◌, IfOk};
    ghost use Rattle.der_core.specs.Words.{ok_of};
    ghost use Rattle.pkcs1.specs.Words.{held_view, rsa_private_key, viewed_encoding};
    ghost use Rattle.pkcs1_params.specs.Words.{AnswersAsn1};
    ghost use Rattle.standard.specs.Statement.{Decodes, PrivateKeyEncoding};

    type Error = Error;

    /// Reads a private key, and allocates nothing, however many primes there are. Ok exactly if the whole slice encodes
    /// one: then a view of that key, which keeps the slice. Err: the first fault of a private key.
    #[inline(always)]
    fn try_from(bytes: &'a [u8]) -> crate::Result<RsaPrivateKeyView<'a>>
        ensures read { Decodes PrivateKeyEncoding bytes.now (ok_of held_view result) }
        ensures exact { AnswersAsn1 held_view (rsa_private_key bytes.now) result }
        ensures bytes { IfOk result (λ view. viewed_encoding view ≡ bytes.now) }
    {
        let key = ViewedKey::from_der(NoMemory, bytes)?;
        Ok(RsaPrivateKeyView { bytes, key })
    }
}

impl fmt::Debug for RsaPrivateKeyView<'_> {
    /// Prints the version, the modulus and the public exponent, but nothing secret.
    fn fmt<W: fmt::Write>(&self, f: &mut fmt::Formatter<W>) -> fmt::Result {
        self.key.print("RsaPrivateKeyView", f)
    }
}
