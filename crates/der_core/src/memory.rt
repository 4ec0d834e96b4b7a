//! Memory for reading.
ghost use Rattle.std.specs.Prelude.{◌≡◌, IfOk, IfErr};
ghost use Rattle.der_core.specs.declared.error.ErrorKind.{ErrorKind};

use crate::error::Result;
use std::alloc::Global;

/// The memory that a reading call may allocate from, as `NoMemory` or `Global`.
pub trait Memory: Copy + Drop {
    /// Whether there is any.
    ghost gives: { Type 0 };
}

/// Nothing is allocated. Types that borrow from the input need no more.
#[derive(Clone, Copy, Drop)]
pub struct NoMemory;

impl Memory for NoMemory {
    ghost gives = { ⊥ };
}

impl Memory for Global {
    ghost gives = { Unit {0} };
}

/// Copies the bytes.
pub(crate) fn copy_of(alloc: Global, bytes: &[u8]) -> Result<Vec<u8>>
    ensures ok { IfOk result (λ copy. copy.items ≡ bytes.now) }
    ensures err { IfErr result (λ e. e.kind ≡ ErrorKind.OutOfMemory) }
{
    Ok(Vec::from_slice(alloc, bytes)?)
}
