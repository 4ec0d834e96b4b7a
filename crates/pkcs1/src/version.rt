//! Versions of private keys.
ghost use Rattle.std.specs.Prelude.{◌≡◌, ◌<◌, ◌↔◌, ℕ, IsTrue, Some, nat_eq, refl};
ghost use Rattle.std.proofs.Common.{rules};
ghost use Rattle.std.specs.Cmp.{partial_order_from_own_ties};
ghost use Rattle.std.specs.Cmp.Rules.{comparing};
ghost use Rattle.std.specs.Ordering.{on, nat_cmp, as_partial_cmp};
ghost use Rattle.der_core.specs.Words.{begins_with_any, nothing_asked, number_contents, reading_alike};
ghost use Rattle.pkcs1.specs.Words.{IsVersionOf, version_law, version_number, version_read, version_shortest};

use der_core::{
    Contents, DecodeValue, EncodeValue, ErrorKind, IntegerTag, Memory, Prepend, Result, Tag,
    TaggedBy, Writer,
};
use pkcs1_params::Error;
use std::cmp::Ordering;

/// The version of a private key: whether it has other primes (RFC 8017 A.1.2).
///
/// ```text
/// Version ::= INTEGER { two-prime(0), multi(1) }
/// ```
#[derive(Clone, Copy, Debug, Drop)]
pub enum Version {
    /// Two primes.
    TwoPrime = 0,
    /// More than two primes.
    Multi = 1,
}

impl Version {
    /// Whether it is `Multi`: there are more than two primes.
    pub fn is_multi(self) -> bool
        ensures { IsTrue result ↔ (self ≡ Version.Multi) }
    {
        matches!(self, Version::Multi)
    }
}

impl PartialEq for Version {
    ghost eq = { on version_number nat_eq };

    ghost laws = { Prim.search (comparing, rules) };

    fn eq(&self, other: &Version) -> bool {
        u8::from(*self) == u8::from(*other)
    }
}

impl Eq for Version {
    ghost laws = { Prim.search (comparing, rules) };
}

impl PartialOrd for Version {
    ghost partial_cmp = { as_partial_cmp (on version_number nat_cmp) };

    ghost laws = { partial_order_from_own_ties (Prim.search (comparing, rules)) (Prim.search (comparing, rules)) };

    fn partial_cmp(&self, other: &Version) -> Option<Ordering> {
        Some(self.cmp(other))
    }
}

impl Ord for Version {
    ghost cmp = { on version_number nat_cmp };

    ghost total = { Prim.search (comparing, rules) };

    ghost matches_partial_cmp = { λ x y. refl };

    ghost matches_eq = { Prim.search (comparing, rules) };

    /// The order of the version numbers.
    fn cmp(&self, other: &Version) -> Ordering {
        u8::from(*self).cmp(&u8::from(*other))
    }
}

impl From<Version> for u8 {
    ghost from_gives = { λ version n. n ≡ version_number version };

    /// The number of a version: 0 of `TwoPrime`, 1 of `Multi`.
    fn from(version: Version) -> u8
        ensures { result ≡ version_number version }
    {
        version as u8
    }
}

impl TryFrom<u8> for Version {
    type Error = Error;

    ghost try_from_gives = { IsVersionOf };

    /// The version of this number. `Error::Version` exactly if the number is above 1.
    fn try_from(number: u8) -> std::result::Result<Version, Error>
        ensures { IsVersionOf number result }
    {
        match number {
            0 => Ok(Version::TwoPrime),
            1 => Ok(Version::Multi),
            _ => Err(Error::Version),
        }
    }
}

impl Contents for Version {
    ghost Value = { ℕ };

    ghost value = { version_number };

    ghost Spelling = { ℕ };

    ghost means = { λ n. n };

    ghost written = { λ n. n };

    ghost valid = { λ n. n < 2 };

    ghost printed = { number_contents };

    ghost read_spelling = { version_read };

    ghost read = { version_read };

    ghost law = { version_law };

    ghost shortest = { version_shortest };

    ghost reads_alike = { reading_alike version_read };

    ghost begins = { begins_with_any };
}

impl TaggedBy for Version {
    type Marker = IntegerTag;
}

impl<'a, M: Memory> DecodeValue<&'a [u8], M> for Version {
    ghost may_allocate = { λ _. ⊥ };

    ghost asks_memory = { nothing_asked };

    #[inline(always)]
    fn read_value(memory: M, contents: &'a [u8]) -> Result<Version> {
        let number = u8::read_value(memory, contents)?;
        match Version::try_from(number) {
            Ok(version) => Ok(version),
            Err(_) => Err(der_core::Error::new(ErrorKind::Value { tag: Tag::INTEGER })),
        }
    }
}

impl EncodeValue for Version {
    ghost refused = { λ _. ⊥ };

    #[inline(always)]
    fn check_value(&self) -> Result<()> {
        Ok(())
    }

    #[inline(always)]
    fn prepend_value<W: Prepend>(&self, writer: &mut W) {
        u8::from(*self).prepend_value(writer);
    }

    fn append_value<W: Writer>(&self, writer: &mut W) -> Result<()> {
        u8::from(*self).append_value(writer)
    }
}
