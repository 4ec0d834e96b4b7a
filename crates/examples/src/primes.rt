//! The other primes of a key.
ghost use Rattle.std.specs.Prelude.{◌≡◌, map, IfOk};
ghost use Rattle.der_core.specs.Words.{bytes_of};
ghost use Rattle.pkcs1.specs.Words.{held_view, number_in, listed_others};

use pkcs1::{RsaPrivateKeyView, UintRef};
use std::alloc::{AllocError, Global};

/// The primes of a key past the first two, in order.
pub fn primes_of<'a>(
    alloc: Global,
    view: &RsaPrivateKeyView<'a>,
) -> Result<Vec<UintRef<'a>>, AllocError>
    ensures { IfOk result (λ primes. map (number_in bytes_of) primes.items
        ≡ map (λ other. other.prime) (listed_others (held_view view.now).other_primes)) }
{
    let mut primes = Vec::new(alloc);
    for other in view.other_primes() {
        primes.push(other.prime)?;
    }
    Ok(primes)
}
