//! Other primes that the caller passes, written from the caller's array.
ghost use Rattle.std.specs.Prelude.{◌≡◌, ◌≤◌, ◌<◌, length, IfOk, IfErr, OnOk};
ghost use Rattle.der_core.specs.Words.{Appends, begins_with_any, bytes_of, limit};
ghost use Rattle.pkcs1.specs.Words.{held_other_prime};
ghost use Rattle.pkcs1_c.specs.PrimeLists.{given_encoded};
ghost use Rattle.pkcs1_c.specs.Status.{NoStatus, status_of};
ghost use Rattle.pkcs1_c.specs.StructErrors.{NumbersError, numbers_of_primes};
ghost use Rattle.pkcs1_c.specs.Structs.{numbers_of_prime, other_prime_seen, other_primes_seen};

use crate::numbers::number;
use crate::private_key::OtherPrime;
use der_core::{
    Contents, Encode, EncodeValue, Error, ErrorKind, Prepend, Result, SequenceTag, TaggedBy,
    UintRef, Writer,
};
use pkcs1::OtherPrimeInfo;

/// The other primes of the caller's array: at least one, and each number can be held.
#[derive(Clone, Copy, Drop)]
pub struct GivenPrimes<'a> {
    others: &'a [OtherPrime<'a>],
    ghost some: { 0 < length others.now },
    ghost held: { NoStatus (NumbersError (numbers_of_primes others.now)) },
}

/// The prime with these numbers.
#[inline(always)]
fn from_c_other_prime<'a>(other: &OtherPrime<'a>) -> pkcs1::Result<OtherPrimeInfo<UintRef<'a>>>
    ensures ok { IfOk result (λ info. held_other_prime bytes_of info ≡ other_prime_seen other.now) }
    ensures held { OnOk result (NoStatus (NumbersError (numbers_of_prime other.now))) }
    ensures err { IfErr result (λ e. NumbersError (numbers_of_prime other.now) (status_of e)) }
{
    Ok(OtherPrimeInfo {
        prime: number(other.prime)?,
        exponent: number(other.exponent)?,
        coefficient: number(other.coefficient)?,
    })
}

/// Writes a prime in front of what was received, or counts it. It does nothing only if another thread has changed the
/// octets.
fn prepend_given<W: Prepend>(other: &OtherPrime<'_>, writer: &mut W)
    requires held { NoStatus (NumbersError (numbers_of_prime other.now)) }
    requires room { let n = length (given_encoded other.now) in W.has_room writer.old n × W.length_fits n }
    ensures { W.prepended (given_encoded other.now) writer.old writer.new }
{
    match from_c_other_prime(other) {
        Ok(info) => info.prepend(writer),
        Err(_) => {}
    }
}

/// Appends a prime.
fn append_given<W: Writer>(other: &OtherPrime<'_>, writer: &mut W) -> Result<()>
    requires held { NoStatus (NumbersError (numbers_of_prime other.now)) }
    requires fits { length (given_encoded other.now) ≤ limit }
    ensures appends { let octets = given_encoded other.now in
        Appends (Unit {0}) octets W.room W.written writer.old writer.new result }
    ensures kept { W.keeps writer.old writer.new }
{
    match from_c_other_prime(other) {
        Ok(info) => info.append(writer),
        Err(_) => Err(Error::new(ErrorKind::Failed)), // another thread changed the octets
    }
}

impl<'a> GivenPrimes<'a> {
    ghost use Rattle.std.specs.Prelude.{option_map};
    ghost use Rattle.pkcs1_c.specs.GivenPrimesValue.{held_primes};

    /// The primes of the array, or `None` if it is empty; or why the first number that can't be held can't be.
    #[inline(always)]
    pub(crate) fn of(others: &'a [OtherPrime<'a>]) -> pkcs1::Result<Option<GivenPrimes<'a>>>
        ensures ok { IfOk result (λ given. option_map held_primes given ≡ other_primes_seen others.now) }
        ensures held { OnOk result (NoStatus (NumbersError (numbers_of_primes others.now))) }
        ensures err { IfErr result (λ e. NumbersError (numbers_of_primes others.now) (status_of e)) }
    {
        if others.is_empty() {
            return Ok(None);
        }
        for other in others {
            from_c_other_prime(other)?;
        }
        Ok(Some(GivenPrimes { others }))
    }
}

impl Contents for GivenPrimes<'_> {
    ghost use Rattle.std.specs.Prelude.{List, ℕ};
    ghost use Rattle.std.specs.List.{AllByRecursion};
    ghost use Rattle.der_core.specs.Words.{one_spelling_shortest, reading_alike};
    ghost use Rattle.pkcs1.specs.Words.{number_front, primes_read, integer_law, primes_law, AnyNumber, OtherIsValid, primes_printed};
    ghost use Rattle.pkcs1.specs.Keys as keys;
    ghost use Rattle.pkcs1_c.specs.GivenPrimesValue.{given_primes};
    ghost use Rattle.standard.specs.Statement.{integer};

    ghost Value = { List (keys.OtherRow ℕ) };

    ghost value = { given_primes };

    ghost Spelling = { List (keys.OtherRow ℕ) };

    ghost means = { λ primes. primes };

    ghost written = { λ primes. primes };

    ghost valid = { AllByRecursion (OtherIsValid AnyNumber) };

    ghost printed = { primes_printed integer };

    ghost read_spelling = { primes_read number_front };

    ghost read = { primes_read number_front };

    ghost law = { primes_law integer_law };

    ghost shortest = { one_spelling_shortest (AllByRecursion (OtherIsValid AnyNumber)) (primes_printed integer) };

    ghost reads_alike = { reading_alike (primes_read number_front) };

    ghost begins = { begins_with_any };
}

impl TaggedBy for GivenPrimes<'_> {
    type Marker = SequenceTag;
}

impl EncodeValue for GivenPrimes<'_> {
    ghost refused = { λ _. ⊥ };

    #[inline(always)]
    fn check_value(&self) -> Result<()> {
        Ok(())
    }

    fn prepend_value<W: Prepend>(&self, writer: &mut W) {
        let mut left = self.others.len();
        while left > 0 {
            left -= 1;
            prepend_given(&self.others[left], writer);
        }
    }

    fn append_value<W: Writer>(&self, writer: &mut W) -> Result<()> {
        for other in self.others {
            append_given(other, writer)?;
        }
        Ok(())
    }
}
