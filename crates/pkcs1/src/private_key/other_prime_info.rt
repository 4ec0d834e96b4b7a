//! Other primes of private keys.
ghost use Rattle.std.specs.Prelude.{◌≡◌, ◌≤◌, None, IfOk, IsOk, OnOk, IfErr, length, option_map};
ghost use Rattle.der_core.specs.Words.{Answers, Returns, ended, limit, sequence_tag};
ghost use Rattle.pkcs1.specs.Words.{AllocatesInOthers, ListsNone, other_of, others_agree, others_of, others_read, version_number};

use crate::version::Version;
use der_core::{
    Borrowed, Decode, Encode, EncodeInParts, Encoding, Error, ErrorKind, Record, Result,
    RowOperation, SequenceTag, Tag, TaggedBy, TryClone, read_optional,
};
use std::alloc::{AllocError, Global};

/// A prime of a private key after the first two (RFC 8017 A.1.2).
///
/// ```text
/// OtherPrimeInfos ::= SEQUENCE SIZE(1..MAX) OF OtherPrimeInfo
/// OtherPrimeInfo ::= SEQUENCE {
///     prime        INTEGER,
///     exponent     INTEGER,
///     coefficient  INTEGER
/// }
/// ```
#[derive(Drop)]
pub struct OtherPrimeInfo<U> {
    /// The prime.
    pub prime: U,
    /// Its exponent: the private exponent modulo (prime - 1).
    pub exponent: U,
    /// Its coefficient: the inverse of the product of the primes before it, modulo the prime.
    pub coefficient: U,
}

/// The primes of a private key after the first two.
pub type OtherPrimeInfos<U> = Vec<OtherPrimeInfo<U>>;

impl<U: Clone> Clone for OtherPrimeInfo<U> {
    ghost is_clone = { λ other copy.
        U.is_clone other.prime copy.prime × U.is_clone other.exponent copy.exponent
        × U.is_clone other.coefficient copy.coefficient };

    ghost is_infallible = { λ other.
        U.is_infallible other.prime × U.is_infallible other.exponent × U.is_infallible other.coefficient };

    fn clone(&self) -> std::result::Result<OtherPrimeInfo<U>, AllocError> {
        Ok(OtherPrimeInfo {
            prime: self.prime.clone()?,
            exponent: self.exponent.clone()?,
            coefficient: self.coefficient.clone()?,
        })
    }
}

impl<U> TaggedBy for OtherPrimeInfo<U> {
    type Marker = SequenceTag;
}

impl<U: Encoding> Record for OtherPrimeInfo<U> {
    type Fields = (U, (U, (U, ())));

    ghost fields = { λ other. (other.prime, (other.exponent, (other.coefficient, tt))) };

    fn from_fields(row: (U, (U, (U, ())))) -> OtherPrimeInfo<U> {
        let (prime, (exponent, (coefficient, ()))) = row;
        OtherPrimeInfo {
            prime,
            exponent,
            coefficient,
        }
    }
}

impl<U: TryClone> TryClone for OtherPrimeInfo<U> {
    ghost never_out_of_memory = { λ other. U.never_out_of_memory other.prime × U.never_out_of_memory other.exponent
        × U.never_out_of_memory other.coefficient };

    fn try_clone(&self, alloc: Global) -> Result<OtherPrimeInfo<U>> {
        self.try_clone(alloc)
    }
}

impl<U: TryClone> OtherPrimeInfo<U> {
    /// The same numbers, or `OutOfMemory`, which never comes if each is always copied.
    pub fn try_clone(&self, alloc: Global) -> Result<OtherPrimeInfo<U>>
        ensures ok { IfOk result (λ copy. other_of U.value copy ≡ other_of U.value self.now) }
        ensures err { IfErr result (λ e. e.kind ≡ ErrorKind.OutOfMemory) }
        ensures may_allocate { U.never_out_of_memory self.now.prime → U.never_out_of_memory self.now.exponent
            → U.never_out_of_memory self.now.coefficient → IsOk result }
    {
        Ok(OtherPrimeInfo {
            prime: self.prime.try_clone(alloc)?,
            exponent: self.exponent.try_clone(alloc)?,
            coefficient: self.coefficient.try_clone(alloc)?,
        })
    }
}

impl<U: Encode> EncodeInParts for OtherPrimeInfo<U> {
    ghost use Rattle.std.specs.Prelude.{◌⊎◌};

    ghost refused = { λ tag. U.Encode.refused tag ⊎ (U.Encode.refused tag ⊎ (U.Encode.refused tag ⊎ ⊥)) };

    #[inline(always)]
    fn with_row<O: RowOperation>(&self, operation: &mut O) -> O::Output {
        let coefficient = (Borrowed(&self.coefficient), ());
        operation.apply(&(
            Borrowed(&self.prime),
            (Borrowed(&self.exponent), coefficient),
        ))
    }
}

/// Rejects a list that is there but empty: `Value` of SEQUENCE.
#[inline(always)]
pub(crate) fn require_listed<U>(others: &Option<OtherPrimeInfos<U>>) -> Result<()>
    ensures ok { OnOk result (ListsNone others.now → ⊥) }
    ensures err { IfErr result (λ e. (e.kind ≡ ErrorKind.Value sequence_tag) × ListsNone others.now) }
{
    match others {
        Some(infos) if infos.is_empty() => {
            Err(Error::new(ErrorKind::Value { tag: Tag::SEQUENCE }))
        }
        _ => Ok(()),
    }
}

/// How many are listed, if there is a list.
fn count_listed<U>(others: &Option<OtherPrimeInfos<U>>) -> Option<usize>
    ensures { result ≡ option_map (λ infos. length infos.items) others.now }
{
    match others {
        Some(infos) => Some(infos.len()),
        None => None,
    }
}

/// Rejects other primes that don't agree with the version, of which so many are listed, and bytes behind them: `Value`
/// of INTEGER if there is a list exactly for two primes, `Value` of SEQUENCE if it is empty, else `TrailingData`.
pub(crate) fn require_agreed(version: Version, listed: Option<usize>, rest: &[u8]) -> Result<()>
    ensures { Answers (λ u. u) result (others_agree (version_number version) listed rest.now) }
{
    match listed {
        None => {
            if version.is_multi() {
                return Err(Error::new(ErrorKind::Value { tag: Tag::INTEGER }));
            }
            require_end(rest)
        }
        Some(count) => {
            if !version.is_multi() {
                return Err(Error::new(ErrorKind::Value { tag: Tag::INTEGER }));
            }
            if count == 0 {
                return Err(Error::new(ErrorKind::Value { tag: Tag::SEQUENCE }));
            }
            require_end(rest)
        }
    }
}

/// `TrailingData` if bytes are left.
#[inline(always)]
fn require_end(rest: &[u8]) -> Result<()>
    ensures { Answers (λ u. u) result (ended tt rest.now) }
{
    if !rest.is_empty() {
        return Err(Error::new(ErrorKind::TrailingData));
    }
    Ok(())
}

/// Reads the rest of a key: its other primes, which must agree with the version.
#[inline(always)]
pub(crate) fn read_other_primes<'a, U: Decode<&'a [u8], Global>>(
    memory: Global,
    bytes: &'a [u8],
    version: Version,
) -> Result<Option<OtherPrimeInfos<U>>>
    requires { length bytes.now ≤ limit }
    ensures { let asked = AllocatesInOthers U.valid U.printed U.means U.Decode.may_allocate bytes.now in
        let read = others_read U.read_front (version_number version) in
        Returns (others_of U.value) (read bytes.now) asked result }
{
    if bytes.is_empty() && !version.is_multi() {
        return Ok(None);
    }
    read_list(memory, bytes, version)
}

/// The same of any bytes.
#[inline(never)]
fn read_list<'a, U: Decode<&'a [u8], Global>>(
    memory: Global,
    bytes: &'a [u8],
    version: Version,
) -> Result<Option<OtherPrimeInfos<U>>>
    requires { length bytes.now ≤ limit }
    ensures { let asked = AllocatesInOthers U.valid U.printed U.means U.Decode.may_allocate bytes.now in
        let read = others_read U.read_front (version_number version) in
        Returns (others_of U.value) (read bytes.now) asked result }
{
    let (others, rest) = read_optional::<OtherPrimeInfos<U>, Global>(memory, bytes)?;
    require_agreed(version, count_listed(&others), rest)?;
    Ok(others)
}

/// Copies the other primes.
pub(crate) fn clone_other_primes<U: TryClone>(
    others: &Option<OtherPrimeInfos<U>>,
    alloc: Global,
) -> Result<Option<OtherPrimeInfos<U>>>
    ensures ok { IfOk result (λ copies. others_of U.value copies ≡ others_of U.value others.now) }
    ensures err { IfErr result (λ e. e.kind ≡ ErrorKind.OutOfMemory) }
    ensures may_allocate { others.now ≡ None → IsOk result }
{
    match others {
        Some(others) => Ok(Some(others.try_clone(alloc)?)),
        None => Ok(None),
    }
}
