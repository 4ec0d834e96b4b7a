//! A number of one's own.
ghost use Rattle.std.specs.Prelude.{ℕ};
ghost use Rattle.std.specs.Int.Digits.{number_from_digits};
ghost use Rattle.standard.specs.Statement.{Encodes, PublicKeyEncoding};
ghost use Rattle.der_core.specs.Words.{begins_with_any, bytes_of, nothing_asked, number_contents, number_law, number_of, numbers_encode, ok_of, one_spelling_shortest, reading_alike};
ghost use Rattle.pkcs1.specs.Words.{held_public_key};

use der_core::{
    AsUintRef, Contents, DecodeValue, EncodeValue, IntegerTag, Memory, Prepend, Result, TaggedBy,
    UintEncoding, UintRef, Writer,
};
use pkcs1::RsaPublicKey;

/// A number of a key.
#[derive(Clone, Copy, Debug, Drop)]
pub struct KeyNumber<'a> {
    /// The number.
    pub number: UintRef<'a>,
}

impl AsUintRef for KeyNumber<'_> {
    ghost number = { λ n. bytes_of n.number };

    fn as_uint_ref(&self) -> UintRef<'_> {
        self.number
    }
}

impl Contents for KeyNumber<'_> {
    ghost Value = { ℕ };

    ghost value = { λ n. number_from_digits 256 (bytes_of n.number) };

    ghost Spelling = { ℕ };

    ghost means = { λ n. n };

    ghost written = { λ n. n };

    ghost valid = { λ _. Unit {0} };

    ghost printed = { number_contents };

    ghost read_spelling = { number_of };

    ghost read = { number_of };

    ghost law = { number_law };

    ghost shortest = { one_spelling_shortest (λ _. Unit {0}) number_contents };

    ghost reads_alike = { reading_alike number_of };

    ghost begins = { begins_with_any };
}

impl TaggedBy for KeyNumber<'_> {
    type Marker = IntegerTag;
}

impl UintEncoding for KeyNumber<'_> {
    ghost encodes_number = { numbers_encode (λ n. bytes_of n.number) };
}

impl<'a, M: Memory> DecodeValue<&'a [u8], M> for KeyNumber<'a> {
    ghost may_allocate = { λ _. ⊥ };

    ghost asks_memory = { nothing_asked };

    fn read_value(memory: M, contents: &'a [u8]) -> Result<KeyNumber<'a>> {
        let number = UintRef::read_value(memory, contents)?;
        Ok(KeyNumber { number })
    }
}

impl EncodeValue for KeyNumber<'_> {
    ghost refused = { λ _. ⊥ };

    fn check_value(&self) -> Result<()> {
        self.number.check_value()
    }

    fn prepend_value<W: Prepend>(&self, writer: &mut W) {
        self.number.prepend_value(writer);
    }

    fn append_value<W: Writer>(&self, writer: &mut W) -> Result<()> {
        self.number.append_value(writer)
    }
}

/// Writes a public key of such numbers to the front of a slice and returns its length. Err: the slice is as it was.
pub fn write_public_key(key: &RsaPublicKey<KeyNumber<'_>>, out: &mut [u8]) -> pkcs1::Result<usize>
    ensures { let numbers = held_public_key (λ n. bytes_of n.number) key.now in
        Encodes PublicKeyEncoding numbers out.old out.new (ok_of (λ n. n) result) }
{
    key.encode_key(out)
}
