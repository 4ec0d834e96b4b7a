//! Parameters as their shortest encoding.
ghost use Rattle.std.specs.Prelude.{◌≡◌};
ghost use Rattle.der_core.specs.Words.{begins_with_any};
ghost use Rattle.spki_core.specs.Words.{AreSpelled, are_defaults, record_alike, record_fields, record_law, record_means, record_read, record_shortest, record_under, spelling_printed, spelling_read, viewed_with};
ghost use Rattle.spki_core.specs.FieldSpellings as spellings;
ghost use Rattle.pkcs1_params.specs.DefaultBits.{bits_of};
ghost use Rattle.pkcs1_params.specs.Parameters.{with_parameters};

use crate::contents::{append_contents, check_contents, prepend_contents};
use crate::spelling::{EncodeParams, non_defaults_in};
use der_core::{Contents, EncodeValue, Prepend, Result, SequenceTag, TaggedBy, Writer};
use spki_core::{AlgorithmView, AssociatedOid, IdentifierValue, IdentifierView};

/// Borrowed parameters, which are written as their shortest encoding. Which fields differ from their defaults is found
/// out once, so that octets which change meanwhile don't change how many are written.
#[derive(Drop)]
pub struct Shortest<T: EncodeParams> {
    /// The parameters.
    pub params: T,
    pub(crate) non_defaults: u8,
    ghost known: { non_defaults ≡ bits_of (are_defaults (record_fields T.form (T.params params))) },
}

impl<T: EncodeParams> Shortest<T> {
    /// The wrapper of these parameters.
    #[inline(always)]
    pub fn of(params: T) -> Shortest<T>
        ensures { result.params ≡ params }
    {
        Shortest {
            params,
            non_defaults: non_defaults_in(params),
        }
    }

    /// The algorithm identifier of D with these parameters, which may always be encoded.
    #[inline(always)]
    pub fn identified<D: AssociatedOid>(params: T) -> AlgorithmView<'static, Shortest<T>>
        ensures means { viewed_with (λ s. T.params s.params) result ≡ with_parameters D.contents (T.params params) }
        ensures valid { T.Is (T.params params) }
    {
        params.lemma_is_valid();
        AlgorithmView {
            oid: IdentifierView::named::<D>(),
            parameters: Some(Shortest::of(params)),
        }
    }
}

impl<T: EncodeParams> Contents for Shortest<T> {
    ghost Value = { T.Params };

    ghost value = { λ s. T.params s.params };

    ghost Spelling = { spellings.Spelling T.form.kinds };

    ghost means = { record_means T.form };

    ghost written = { record_under T.form 0 };

    ghost valid = { AreSpelled T.form.kinds };

    ghost printed = { spelling_printed T.form.kinds };

    ghost read_spelling = { spelling_read T.form.kinds };

    ghost read = { record_read T.form };

    ghost law = { record_law T.form };

    ghost shortest = { record_shortest T.form };

    ghost reads_alike = { record_alike T.form };

    ghost begins = { begins_with_any };
}

impl<T: EncodeParams> TaggedBy for Shortest<T> {
    type Marker = SequenceTag;
}

impl<T: EncodeParams> EncodeValue for Shortest<T> {
    ghost refused = { λ _. ⊥ };

    #[inline(always)]
    fn check_value(&self) -> Result<()> {
        check_contents(self.params, 0)
    }

    #[inline(always)]
    fn prepend_value<W: Prepend>(&self, writer: &mut W) {
        prepend_contents(self.params, self.non_defaults, 0, writer);
    }

    fn append_value<W: Writer>(&self, writer: &mut W) -> Result<()> {
        append_contents(self.params, self.non_defaults, 0, writer)
    }
}
