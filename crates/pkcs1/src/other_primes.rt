//! The other primes of a private key, as an iterator over the input.
ghost use Rattle.std.specs.Prelude.{◌≡◌, [], ◌≤◌, List, ℕ, length, Ok, Err, IfOk, IfErr, IfSome};
ghost use Rattle.std.specs.List.{AllByRecursion};
ghost use Rattle.std.specs.Iterator.{UpTo, YieldsFirstBy, item_count};
ghost use Rattle.std.specs.Iterator.SizeHint.{IsWithinCount};
ghost use Rattle.der_core.specs.Words.{AreBytes, begins_with_any, bytes_of, limit, nothing_asked, one_spelling_shortest, reading_alike};
ghost use Rattle.pkcs1.specs.KeyReadings.{number_front, primes_read};
ghost use Rattle.pkcs1.specs.Keys.{OtherRow};
ghost use Rattle.pkcs1.specs.Laws.PrimesHeld.{HoldsPrimes-prop};
ghost use Rattle.pkcs1.specs.Laws.PrintedKeys.{integer_law, primes_law};
ghost use Rattle.pkcs1.specs.OtherPrimesHeld.{HoldsPrimes, next_prime};
ghost use Rattle.pkcs1.specs.Printing.{AnyNumber, OtherIsValid, primes_printed};
ghost use Rattle.standard.specs.Statement as standard;

use crate::private_key::other_prime_info::OtherPrimeInfo;
use der_core::{
    Contents, Decode, DecodeValue, Memory, NoMemory, Result, SequenceTag, TaggedBy, UintRef,
};

/// An iterator over the other primes of a private key, in order. It borrows the input, allocates nothing, and knows how
/// many are left.
#[derive(Clone, Copy, Drop)]
pub struct OtherPrimes<'a> {
    bytes: &'a [u8],
    left: usize,
    ghost bounded: { length bytes.now ≤ limit },
    ghost held: { HoldsPrimes bytes.now left } by { HoldsPrimes-prop bytes.now left },
}

/// Reads the other prime in front, an `OtherPrimeInfo`, and returns it with the bytes after it. Err: the first fault. A
/// list of more than `Length::MAX` bytes isn't read.
#[inline(always)]
pub fn first_other_prime<'a>(bytes: &'a [u8]) -> Result<(OtherPrimeInfo<UintRef<'a>>, &'a [u8])>
    requires { length bytes.now ≤ limit }
    ensures ok { let value = ⟦<OtherPrimeInfo<UintRef<'static>> as Contents>⟧.value in
        IfOk result (λ p. next_prime bytes.now ≡ Ok (value p.0, p.1.now)) }
    ensures err { IfErr result (λ e. next_prime bytes.now ≡ Err e.kind) }
    ensures octets { AreBytes bytes.now }
    ensures rest { IfOk result (λ p. length p.1.now ≤ limit) }
{
    let split = OtherPrimeInfo::read_one(NoMemory, bytes)?;
    Ok(split)
}

/// The same octets, for a contract that says that they are octets.
#[inline(always)]
fn as_octets(bytes: &[u8]) -> &[u8]
    ensures same { result.now ≡ bytes.now }
    ensures octets { AreBytes bytes.now }
{
    bytes
}

/// Counts the other primes whose encodings, in a row, are the bytes.
fn count_others(bytes: &[u8]) -> Result<usize>
    requires { length bytes.now ≤ limit }
    ensures ok { IfOk result (HoldsPrimes bytes.now) }
    ensures exact { IfErr result (λ e. primes_read number_front bytes.now ≡ Err e.kind) }
{
    let mut rest = bytes;
    let mut count = 0;
    while !rest.is_empty() {
        let (_other, behind) = first_other_prime(rest)?;
        rest = behind;
        count += 1;
    }
    Ok(count)
}

impl<'a> OtherPrimes<'a> {
    ghost use Rattle.pkcs1.specs.Held.{held_other_primes, primes_encoded};

    /// An iterator over no primes.
    #[tactic(auto, unfolding(crate::specs::OtherPrimesLeft::others_left))]
    pub(crate) fn none() -> OtherPrimes<'a>
        ensures { held_other_primes result ≡ [] }
    {
        OtherPrimes {
            bytes: &[],
            left: 0,
        }
    }

    /// How many other primes are left.
    #[tactic(auto, using(crate::proofs::OtherPrimesHeld::left_counted))]
    pub fn remaining(&self) -> usize
        ensures { result ≡ length (held_other_primes self.now) }
    {
        self.left
    }

    /// The encodings of the primes that are left, one behind the other: a part of the input.
    pub fn as_bytes(self) -> &'a [u8]
        ensures { result.now ≡ primes_encoded (held_other_primes self.entry) }
    {
        as_octets(self.bytes)
    }
}

impl Contents for OtherPrimes<'_> {
    ghost use Rattle.pkcs1.specs.OtherPrimesLeft.{others_left};

    ghost Value = { List (OtherRow ℕ) };

    ghost value = { others_left };

    ghost Spelling = { List (OtherRow ℕ) };

    ghost means = { λ others. others };

    ghost written = { λ others. others };

    ghost valid = { AllByRecursion (OtherIsValid AnyNumber) };

    ghost printed = { primes_printed standard.integer };

    ghost read_spelling = { primes_read number_front };

    ghost read = { primes_read number_front };

    ghost law = { primes_law integer_law };

    ghost shortest = { one_spelling_shortest (AllByRecursion (OtherIsValid AnyNumber))
        (primes_printed standard.integer) };

    ghost reads_alike = { reading_alike (primes_read number_front) };

    ghost begins = { begins_with_any };
}

impl TaggedBy for OtherPrimes<'_> {
    type Marker = SequenceTag;
}

impl<'a, M: Memory> DecodeValue<&'a [u8], M> for OtherPrimes<'a> {
    ghost may_allocate = { λ _. ⊥ };

    ghost asks_memory = { nothing_asked };

    fn read_value(_memory: M, contents: &'a [u8]) -> Result<OtherPrimes<'a>> {
        let left = count_others(contents)?;
        Ok(OtherPrimes {
            bytes: contents,
            left,
        })
    }
}

impl<'a> Iterator for OtherPrimes<'a> {
    ghost use Rattle.pkcs1.specs.Held.{held_other_prime, held_other_primes};

    type Item = OtherPrimeInfo<UintRef<'a>>;

    ghost next_gives = { YieldsFirstBy (held_other_prime bytes_of) held_other_primes };

    ghost remaining = { item_count held_other_primes };

    /// The first of the primes that are left, which is left no more. `None` exactly if none is left.
    #[tactic(auto, unfolding(crate::specs::OtherPrimesLeft::others_left))]
    fn next(&mut self) -> Option<OtherPrimeInfo<UintRef<'a>>> {
        if self.left == 0 {
            return None;
        }
        match first_other_prime(self.bytes) {
            Ok((other, rest)) => {
                *self = OtherPrimes {
                    bytes: rest,
                    left: self.left - 1,
                };
                Some(other)
            }
            Err(_) => None,
        }
    }

    /// The number of primes left, as both bounds.
    fn size_hint(&self) -> (usize, Option<usize>)
        ensures least { result.0 ≡ length (held_other_primes self.now) }
        ensures most { result.1 ≡ Some (length (held_other_primes self.now)) }
        ensures lower { IsWithinCount result.0 (item_count held_other_primes self.now) }
        ensures upper { IfSome result.1 (λ n. UpTo (item_count held_other_primes self.now) n) }
    {
        (self.left, Some(self.left))
    }
}

impl ExactSizeIterator for OtherPrimes<'_> {
    #[tactic(auto, using(crate::proofs::OtherPrimesHeld::left_counted))]
    fn len(&self) -> usize {
        self.left
    }
}
