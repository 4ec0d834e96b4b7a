//! A private key as it is written: a row of its parts. The compiler takes rows of seven parts at most, so the end of
//! the row is a type of its own.
ghost use Rattle.std.specs.Prelude.{◌≡◌, ◌⊎◌, Option, option_map};
ghost use Rattle.der_core.specs.Words.{begins_with_any, last, last_alike, last_law, last_shortest, parts, row_alike, row_law, row_shortest};
ghost use Rattle.pkcs1.specs.Words.{ThreeNumbersAreValid, ThreeNumbersThen, crt_with, key_row, parts_row, three_numbers_as, three_numbers_printed};
ghost use Rattle.standard.specs.Statement.{IfPresent, optional};

use super::PrivateKeyOf;
use der_core::{
    Borrowed, BorrowedLast, Contents, Encode, EncodeValue, Encoding, Prepend, Result, Writer,
};

/// What follows the two primes of a private key: their exponents, the coefficient, and the other primes.
#[derive(Drop)]
pub struct CrtParts<'b, U, O>(&'b PrivateKeyOf<U, O>);

impl<'b, U: Encoding, O: Encoding> Contents for CrtParts<'b, U, O> {
    ghost Value = { ThreeNumbersThen U.Value (Option O.Value) };

    ghost value = { λ parts. crt_with U.value O.value parts.0.now };

    ghost Spelling = { ThreeNumbersThen U.Spelling (Option O.Spelling) };

    ghost means = { three_numbers_as U.means (option_map O.means) };

    ghost written = { three_numbers_as U.written (option_map O.written) };

    ghost valid = { ThreeNumbersAreValid U.valid (IfPresent O.valid) };

    ghost printed = { three_numbers_printed U.printed (optional O.printed) };

    ghost read_spelling = { let at = U.read_spelling in parts at (parts at (parts at (last O.read_spelling))) };

    ghost read = { let at = U.read_front in parts at (parts at (parts at (last O.read_front))) };

    ghost law = { row_law U.law (row_law U.law (row_law U.law (last_law O.law O.some))) };

    ghost shortest = { let law = U.shortest in
        row_shortest law (row_shortest law (row_shortest law (last_shortest O.shortest))) };

    ghost reads_alike = { let law = U.reads_alike in
        row_alike law (row_alike law (row_alike law (last_alike O.reads_alike))) };

    ghost begins = { begins_with_any };
}

/// They in a row, borrowed.
type CrtRow<'b, U, O> = (
    Borrowed<'b, U>,
    (Borrowed<'b, U>, (Borrowed<'b, U>, BorrowedLast<'b, O>)),
);

impl<'b, U: Encoding, O: Encoding> CrtParts<'b, U, O> {
    #[inline(always)]
    fn row(&self) -> CrtRow<'b, U, O>
        ensures { let key = self.now.0.now in
            (result.0.0.now ≡ key.exponent1) × (result.1.0.0.now ≡ key.exponent2)
            × (result.1.1.0.0.now ≡ key.coefficient) × (result.1.1.1.0.now ≡ key.other_prime_infos) }
    {
        let key = self.0;
        let last = (
            Borrowed(&key.coefficient),
            BorrowedLast(&key.other_prime_infos),
        );
        (Borrowed(&key.exponent1), (Borrowed(&key.exponent2), last))
    }
}

impl<'b, U: Encode, O: Encode> EncodeValue for CrtParts<'b, U, O> {
    ghost refused = { λ tag. U.Encode.refused tag ⊎ (U.Encode.refused tag ⊎ (U.Encode.refused tag
        ⊎ O.Encode.refused tag)) };

    #[inline(always)]
    fn check_value(&self) -> Result<()> {
        self.row().check_value()
    }

    #[inline(always)]
    fn prepend_value<W: Prepend>(&self, writer: &mut W) {
        self.row().prepend_value(writer);
    }

    #[inline(always)]
    fn append_value<W: Writer>(&self, writer: &mut W) -> Result<()> {
        self.row().append_value(writer)
    }
}

/// The parts of a private key in a row.
pub type KeyRow<'b, U, O> = (
    u8,
    (
        Borrowed<'b, U>,
        (
            Borrowed<'b, U>,
            (
                Borrowed<'b, U>,
                (Borrowed<'b, U>, (Borrowed<'b, U>, CrtParts<'b, U, O>)),
            ),
        ),
    ),
);

impl<U: Encoding, O: Encoding> PrivateKeyOf<U, O> {
    /// The key's parts in a row, whatever holds the other primes: for types of these of one's own. It is written as the
    /// key's contents. An empty list of other primes is written as one.
    #[inline(always)]
    pub fn row(&self) -> KeyRow<'_, U, O>
        ensures { parts_row U.value O.value result ≡ key_row U.value O.value self.now }
    {
        let prime1 = (
            Borrowed(&self.prime1),
            (Borrowed(&self.prime2), CrtParts(self)),
        );
        let public_exponent = (
            Borrowed(&self.public_exponent),
            (Borrowed(&self.private_exponent), prime1),
        );
        (
            self.version().into(),
            (Borrowed(&self.modulus), public_exponent),
        )
    }
}
