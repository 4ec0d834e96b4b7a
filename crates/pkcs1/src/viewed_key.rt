//! The numbers of a private key over the input, and where its other primes lie: what `RsaPrivateKeyView` reads.
ghost use Rattle.std.specs.Prelude.{◌≡◌, ◌≤◌, ℕ, length, option_map};
ghost use Rattle.der_core.specs.Words.{Answers, begins_with_any, bytes_of, limit, nothing_asked, one_spelling_shortest, reading_alike};
ghost use Rattle.pkcs1.specs.Words.{AnyNumber, PrivateIsValid, PrivateRow, integer_law, key_with, number_front, number_in, others_left, others_read, private_key_read, private_law, private_printed, version_number};
ghost use Rattle.standard.specs.Statement as standard;

use crate::key_numbers::{KeyFront, key_of};
use crate::other_primes::OtherPrimes;
use crate::private_key::PrivateKeyOf;
use crate::private_key::other_prime_info::require_agreed;
use crate::version::Version;
use der_core::{Contents, DecodeFront, DecodeValue, NoMemory, Result, UintRef, read_optional};

/// A private key that borrows the input, for its other primes too.
pub(crate) type ViewedKey<'a> = PrivateKeyOf<UintRef<'a>, OtherPrimes<'a>>;

/// How many are listed, if there is a list.
fn count_listed(others: &Option<OtherPrimes<'_>>) -> Option<usize>
    ensures { result ≡ option_map (λ primes. length (others_left primes)) others.now }
{
    match others {
        Some(primes) => Some(primes.remaining()),
        None => None,
    }
}

/// Reads the rest of a key: its other primes, which must agree with the version.
#[inline(always)]
fn read_listed<'a>(bytes: &'a [u8], version: Version) -> Result<Option<OtherPrimes<'a>>>
    requires { length bytes.now ≤ limit }
    ensures { let read = others_read number_front (version_number version) in
        Answers (option_map others_left) result (read bytes.now) }
{
    if bytes.is_empty() && !version.is_multi() {
        return Ok(None);
    }
    read_list(bytes, version)
}

/// The same of any bytes.
#[inline(never)]
fn read_list<'a>(bytes: &'a [u8], version: Version) -> Result<Option<OtherPrimes<'a>>>
    requires { length bytes.now ≤ limit }
    ensures { let read = others_read number_front (version_number version) in
        Answers (option_map others_left) result (read bytes.now) }
{
    let (others, rest) = read_optional::<OtherPrimes<'a>, NoMemory>(NoMemory, bytes)?;
    require_agreed(version, count_listed(&others), rest)?;
    Ok(others)
}

impl Contents for ViewedKey<'_> {
    ghost Value = { PrivateRow ℕ };

    ghost value = { key_with (number_in bytes_of) others_left };

    ghost Spelling = { PrivateRow ℕ };

    ghost means = { λ key. key };

    ghost written = { λ key. key };

    ghost valid = { PrivateIsValid AnyNumber };

    ghost printed = { private_printed standard.integer };

    ghost read_spelling = { private_key_read number_front };

    ghost read = { private_key_read number_front };

    ghost law = { private_law integer_law };

    ghost shortest = { one_spelling_shortest (PrivateIsValid AnyNumber) (private_printed standard.integer) };

    ghost reads_alike = { reading_alike (private_key_read number_front) };

    ghost begins = { begins_with_any };
}

impl<'a> DecodeValue<&'a [u8], NoMemory> for ViewedKey<'a> {
    ghost may_allocate = { λ _. ⊥ };

    ghost asks_memory = { nothing_asked };

    #[inline(always)]
    fn read_value(memory: NoMemory, contents: &'a [u8]) -> Result<ViewedKey<'a>> {
        let (front, behind) = KeyFront::<UintRef<'a>>::read_first(memory, contents)?;
        let (version, numbers) = front;
        let others = read_listed(behind, version)?;
        Ok(key_of(numbers, others))
    }
}
