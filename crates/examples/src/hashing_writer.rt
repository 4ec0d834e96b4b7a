//! A writer of one's own that forgets its octets: a hash of an encoding, made while it is written.
ghost use Rattle.std.specs.Prelude.{◌≡◌, List, None, [], ℕ, ⊤, IfErr, IfOk};
ghost use Rattle.standard.specs.Statement.{IsShortest};
ghost use Rattle.der_core.specs.Words.{Prints, Spells, WhyNotCounted, encode_error};
ghost use Rattle.examples.specs.Fnv.{fnv};

use der_core::{Encode, Result, Writer};

/// Hashes what is written, by FNV-1a of 32 bits. It takes any number of octets.
#[derive(Drop)]
pub struct HashingWriter {
    /// The hash of what was written so far.
    pub hash: u32,
}

impl HashingWriter {
    /// A writer to which nothing was written.
    pub fn new() -> HashingWriter
        ensures { result.hash ≡ fnv [] }
    {
        HashingWriter { hash: 2166136261 }
    }
}

impl Writer for HashingWriter {
    ghost room = { λ w. None };

    ghost written = { λ w octets. w.hash ≡ fnv octets };

    ghost keeps = { λ v w. ⊤ };

    fn write(&mut self, bytes: &[u8]) -> Result<()> {
        for octet in bytes {
            self.hash = (self.hash ^ u32::from(*octet)).wrapping_mul(16777619);
        }
        Ok(())
    }

    ghost keeps_itself = { λ w. tt };

    ghost keeps_through = { λ u v w p q. tt };
}

/// The hash of a value's shortest encoding, which never stands in memory. Err: as of `encoded_len`.
pub fn hash_of<T: Encode>(value: &T) -> Result<u32>
    ensures ok { let encodings = Spells T.valid T.printed T.means in
        IfOk result (λ hash. (encoding : List ℕ) × IsShortest encodings (T.value value.now) encoding
        × (hash ≡ fnv encoding)) }
    ensures err { let v = T.value value.now in let encodings = Prints T.valid T.printed T.means in
        IfErr result (λ e. WhyNotCounted (T.valid (T.written v)) encodings v (encode_error e.kind)) }
{
    let mut writer = HashingWriter::new();
    value.encode(&mut writer)?;
    Ok(writer.hash)
}
