//! Copying of values that own memory.
ghost use Rattle.std.specs.Prelude.{◌≡◌, length, IfOk, IsOk, IfErr};
ghost use Rattle.der_core.specs.declared.error.ErrorKind.{ErrorKind};

use crate::error::Result;
use crate::grammar::Encoding;
use std::alloc::Global;

/// A type whose values are copied into allocated memory. One with its own `try_clone` needs no import of the trait.
pub trait TryClone: Encoding + Sized + Drop {
    /// The values whose copying never returns `OutOfMemory`.
    ghost never_out_of_memory: { Self → Type 0 };

    /// A copy that means the same value, or `OutOfMemory`, which never comes of what `never_out_of_memory` names.
    fn try_clone(&self, alloc: Global) -> Result<Self>
        ensures ok { IfOk result (λ copy. Self.value copy ≡ Self.value self.now) }
        ensures err { IfErr result (λ e. e.kind ≡ ErrorKind.OutOfMemory) }
        ensures may_allocate { never_out_of_memory self.now → IsOk result };
}

/// Copies each item, in order.
impl<T: TryClone> TryClone for Vec<T> {
    ghost never_out_of_memory = { λ items. length items.items ≡ 0 };

    fn try_clone(&self, alloc: Global) -> Result<Vec<T>> {
        let mut copies = Vec::new(alloc);
        for item in self {
            copies.push(item.try_clone(alloc)?)?;
        }
        Ok(copies)
    }
}
