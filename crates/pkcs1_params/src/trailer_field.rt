//! The trailer field of RSASSA-PSS.
ghost use Rattle.std.specs.Prelude.{◌≡◌, ℕ, refl};
ghost use Rattle.der_core.specs.Words.{begins_with_any, nothing_asked, number_contents, one_spelling_shortest, reading_alike};
ghost use Rattle.pkcs1_params.specs.Words.{trailer_law, trailer_read};

use der_core::{
    Contents, DecodeValue, EncodeValue, EqualByValue, Error, ErrorKind, IntegerTag, Memory,
    Prepend, Result, Tag, TaggedBy, Writer,
};

/// The trailer field, of which one is known (RFC 8017 A.2.3).
///
/// ```text
/// TrailerField ::= INTEGER { trailerFieldBC(1) }
/// ```
#[derive(Clone, Copy, Debug, PartialEq, Eq, Drop)]
pub enum TrailerField {
    /// The octet `bc`.
    BC = 1,
}

impl Default for TrailerField {
    fn default() -> TrailerField {
        TrailerField::BC
    }
}

impl Contents for TrailerField {
    ghost Value = { ℕ };

    ghost value = { λ _. 1 };

    ghost Spelling = { ℕ };

    ghost means = { λ n. n };

    ghost written = { λ n. n };

    ghost valid = { λ n. n ≡ 1 };

    ghost printed = { number_contents };

    ghost read_spelling = { trailer_read };

    ghost read = { trailer_read };

    ghost law = { trailer_law };

    ghost shortest = { one_spelling_shortest (λ n. n ≡ 1) number_contents };

    ghost reads_alike = { reading_alike trailer_read };

    ghost begins = { begins_with_any };
}

impl TaggedBy for TrailerField {
    type Marker = IntegerTag;
}

impl EqualByValue for TrailerField {
    ghost decides = { λ a b. (λ h. refl, λ h. refl) };
}

impl<'a, M: Memory> DecodeValue<&'a [u8], M> for TrailerField {
    ghost may_allocate = { λ _. ⊥ };

    ghost asks_memory = { nothing_asked };

    #[inline(always)]
    fn read_value(memory: M, contents: &'a [u8]) -> Result<TrailerField> {
        match u8::read_value(memory, contents)? {
            1 => Ok(TrailerField::BC),
            _ => Err(Error::new(ErrorKind::Value { tag: Tag::INTEGER })),
        }
    }
}

impl EncodeValue for TrailerField {
    ghost refused = { λ _. ⊥ };

    #[inline(always)]
    fn check_value(&self) -> Result<()> {
        (*self as u8).check_value()
    }

    #[inline(always)]
    fn prepend_value<W: Prepend>(&self, writer: &mut W) {
        (*self as u8).prepend_value(writer);
    }

    fn append_value<W: Writer>(&self, writer: &mut W) -> Result<()> {
        (*self as u8).append_value(writer)
    }
}
