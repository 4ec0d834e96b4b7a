//! The default salt length, as a constant for parameters of every type.
ghost use Rattle.std.specs.Prelude.{ℕ};

use crate::pss::{RsaPssParams, RsaPssParamsRef};

/// Parameters with a default salt length. This is a trait, since a proof can't use the constant of an `impl` that has a
/// type parameter.
pub trait DefaultSalt {
    /// The constant, for contracts.
    ghost SALT_LEN_DEFAULT: { ℕ };

    /// The default salt length in octets.
    const SALT_LEN_DEFAULT: u8;
}

impl<P> DefaultSalt for RsaPssParams<P> {
    ghost SALT_LEN_DEFAULT = { 20 };

    const SALT_LEN_DEFAULT: u8 = RsaPssParamsRef::SALT_LEN_DEFAULT;
}
