//! The version and the eight numbers of private keys, as a row of parts; copying private keys.
ghost use Rattle.std.specs.Prelude.{◌≡◌, IfOk, IfErr, IsOk};

use crate::private_key::other_prime_info::clone_other_primes;
use crate::private_key::{PrivateKeyOf, RsaPrivateKey};
use crate::version::Version;
use der_core::{ErrorKind, Result, TryClone};
use std::alloc::Global;

/// The eight numbers, in the order of the encoding.
pub(crate) type KeyNumbers<U> = (U, (U, (U, (U, (U, (U, (U, (U, ()))))))));

/// What is in front of the other primes.
pub(crate) type KeyFront<U> = (Version, KeyNumbers<U>);

/// The private key of these numbers and other primes.
#[inline(always)]
pub(crate) fn key_of<U, O>(numbers: KeyNumbers<U>, others: Option<O>) -> PrivateKeyOf<U, O>
    ensures { result ≡ record {
      modulus = numbers.0;
      public_exponent = numbers.1.0;
      private_exponent = numbers.1.1.0;
      prime1 = numbers.1.1.1.0;
      prime2 = numbers.1.1.1.1.0;
      exponent1 = numbers.1.1.1.1.1.0;
      exponent2 = numbers.1.1.1.1.1.1.0;
      coefficient = numbers.1.1.1.1.1.1.1.0;
      other_prime_infos = others;
    } }
{
    let (modulus, (public_exponent, (private_exponent, (prime1, (prime2, rest))))) = numbers;
    let (exponent1, (exponent2, (coefficient, ()))) = rest;
    PrivateKeyOf {
        modulus,
        public_exponent,
        private_exponent,
        prime1,
        prime2,
        exponent1,
        exponent2,
        coefficient,
        other_prime_infos: others,
    }
}

/// Copies four numbers.
fn clone_four<U: TryClone>(a: &U, b: &U, c: &U, d: &U, alloc: Global) -> Result<(U, U, U, U)>
    ensures ok { IfOk result (λ copies. (U.value copies.0 ≡ U.value a.now) × (U.value copies.1 ≡ U.value b.now)
        × (U.value copies.2 ≡ U.value c.now) × (U.value copies.3 ≡ U.value d.now)) }
    ensures err { IfErr result (λ e. e.kind ≡ ErrorKind.OutOfMemory) }
    ensures may_allocate { U.never_out_of_memory a.now → U.never_out_of_memory b.now
        → U.never_out_of_memory c.now → U.never_out_of_memory d.now → IsOk result }
{
    Ok((
        a.try_clone(alloc)?,
        b.try_clone(alloc)?,
        c.try_clone(alloc)?,
        d.try_clone(alloc)?,
    ))
}

impl<U: TryClone> TryClone for RsaPrivateKey<U> {
    ghost use Rattle.std.specs.Prelude.{None};

    ghost never_out_of_memory = { λ key.
        U.never_out_of_memory key.modulus × U.never_out_of_memory key.public_exponent
        × U.never_out_of_memory key.private_exponent × U.never_out_of_memory key.prime1
        × U.never_out_of_memory key.prime2 × U.never_out_of_memory key.exponent1
        × U.never_out_of_memory key.exponent2 × U.never_out_of_memory key.coefficient
        × (key.other_prime_infos ≡ None) };

    fn try_clone(&self, alloc: Global) -> Result<RsaPrivateKey<U>> {
        self.try_clone(alloc)
    }
}

impl<U: TryClone> RsaPrivateKey<U> {
    ghost use Rattle.std.specs.Prelude.{None};
    ghost use Rattle.pkcs1.specs.Words.{private_key_with};

    /// The same key, or `OutOfMemory`, which never comes if each number is always copied and there are no other primes.
    pub fn try_clone(&self, alloc: Global) -> Result<RsaPrivateKey<U>>
        ensures ok { IfOk result (λ copy. private_key_with U.value copy ≡ private_key_with U.value self.now) }
        ensures err { IfErr result (λ e. e.kind ≡ ErrorKind.OutOfMemory) }
        ensures may_allocate { let key = self.now in
            U.never_out_of_memory key.modulus → U.never_out_of_memory key.public_exponent
            → U.never_out_of_memory key.private_exponent → U.never_out_of_memory key.prime1
            → U.never_out_of_memory key.prime2 → U.never_out_of_memory key.exponent1
            → U.never_out_of_memory key.exponent2 → U.never_out_of_memory key.coefficient
            → key.other_prime_infos ≡ None → IsOk result }
    {
        let key = self;
        let (modulus, public_exponent, private_exponent, prime1) = clone_four(
            &key.modulus,
            &key.public_exponent,
            &key.private_exponent,
            &key.prime1,
            alloc,
        )?;
        let (prime2, exponent1, exponent2, coefficient) = clone_four(
            &key.prime2,
            &key.exponent1,
            &key.exponent2,
            &key.coefficient,
            alloc,
        )?;
        Ok(RsaPrivateKey {
            modulus,
            public_exponent,
            private_exponent,
            prime1,
            prime2,
            exponent1,
            exponent2,
            coefficient,
            other_prime_infos: clone_other_primes(&key.other_prime_infos, alloc)?,
        })
    }
}
