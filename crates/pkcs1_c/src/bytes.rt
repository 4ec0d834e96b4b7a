//! Octets that a call gives back.

/// A struct of octets alone, which C passes by pointer: `pkcs1_bytes`.
#[repr(C)]
#[derive(Clone, Copy, Drop)]
pub struct Bytes<'a> {
    /// The octets.
    pub octets: &'a [u8],
}
