//! Private keys that the caller passes.
ghost use Rattle.std.specs.Prelude.{◌≡◌, ℕ, IfErr, IfOk, OnOk};
ghost use Rattle.der_core.specs.Words.{begins_with_any, one_spelling_shortest, reading_alike};
ghost use Rattle.pkcs1.specs.Words.{AnyNumber, PrivateIsValid, PrivateRow, integer_law, number_front as number_at, private_key_read, private_law, private_printed};
ghost use Rattle.pkcs1_c.specs.Words.{NoStatus, NumbersError, given_key, given_numbers, held_given_key, private_key_seen, status_of};
ghost use Rattle.standard.specs.Statement.{integer};

use crate::given_primes::GivenPrimes;
use crate::numbers::number;
use crate::private_key::{OtherPrime, PrivateKey};
use der_core::{Contents, EncodeValue, Prepend, Result, SequenceTag, TaggedBy, UintRef, Writer};
use pkcs1::PrivateKeyOf;

/// A key of the caller's numbers.
#[derive(Drop)]
pub(crate) struct GivenKey<'a>(PrivateKeyOf<UintRef<'a>, GivenPrimes<'a>>);

impl<'a> GivenKey<'a> {
    /// The key with these numbers, of which `others` has the other primes; or why the first number that can't be held
    /// can't be.
    #[inline(always)]
    pub(crate) fn of(
        key: &PrivateKey<'a>,
        others: &'a [OtherPrime<'a>],
    ) -> pkcs1::Result<GivenKey<'a>>
        ensures ok { IfOk result (λ made. held_given_key made.0 ≡ private_key_seen key.now others.now) }
        ensures held { OnOk result (NoStatus (NumbersError (given_numbers key.now others.now))) }
        ensures err { let numbers = given_numbers key.now others.now in
            IfErr result (λ e. NumbersError numbers (status_of e)) }
    {
        Ok(GivenKey(PrivateKeyOf {
            modulus: number(key.modulus)?,
            public_exponent: number(key.public_exponent)?,
            private_exponent: number(key.private_exponent)?,
            prime1: number(key.prime1)?,
            prime2: number(key.prime2)?,
            exponent1: number(key.exponent1)?,
            exponent2: number(key.exponent2)?,
            coefficient: number(key.coefficient)?,
            other_prime_infos: GivenPrimes::of(others)?,
        }))
    }
}

impl Contents for GivenKey<'_> {
    ghost Value = { PrivateRow ℕ };

    ghost value = { λ key. given_key key.0 };

    ghost Spelling = { PrivateRow ℕ };

    ghost means = { λ key. key };

    ghost written = { λ key. key };

    ghost valid = { PrivateIsValid AnyNumber };

    ghost printed = { private_printed integer };

    ghost read_spelling = { private_key_read number_at };

    ghost read = { private_key_read number_at };

    ghost law = { private_law integer_law };

    ghost shortest = { one_spelling_shortest (PrivateIsValid AnyNumber) (private_printed integer) };

    ghost reads_alike = { reading_alike (private_key_read number_at) };

    ghost begins = { begins_with_any };
}

impl TaggedBy for GivenKey<'_> {
    type Marker = SequenceTag;
}

impl EncodeValue for GivenKey<'_> {
    ghost refused = { λ _. ⊥ };

    #[inline(always)]
    fn check_value(&self) -> Result<()> {
        Ok(())
    }

    #[inline(always)]
    fn prepend_value<W: Prepend>(&self, writer: &mut W) {
        self.0.row().prepend_value(writer);
    }

    fn append_value<W: Writer>(&self, writer: &mut W) -> Result<()> {
        self.0.row().append_value(writer)
    }
}
