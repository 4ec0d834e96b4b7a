//! The fields and the spellings of RSASSA-PSS parameters.
ghost use Rattle.std.specs.Prelude.{◌≡◌, ◌≤◌, [], ⊤, length, slice_index_or, IfErr, IfOk, OnOk, Some};
ghost use Rattle.der_core.specs.Words.{limit};
ghost use Rattle.pkcs1_params.specs.Words.{IsListingError, IsMask, PssParameters, Refuses, encodings_in, pss_in, pss_record};
ghost use Rattle.standard.specs.Statement.{Defaults, FieldsUnder, IsPss, IsShortest, Lists, PssEncoding, SequenceOf, longest, pss_fields};

use crate::error::Result;
use crate::fields::{FieldRef, FieldThen, NoField};
use crate::hash_fields::{MaskGenOf, is_same_mask, uses_hash};
use crate::holders::{MaskHolder, PlainHolder};
use crate::listing::all_spellings;
use crate::pss::{PssParamsOf, RsaPssParamsRef};
use crate::spelling::{EncodeParams, count_defaults};
use crate::trailer_field::TrailerField;
use spki_core::{AlgorithmIdentifierOf, AnyValue, AssociatedOid, IdentifierValue};
use std::alloc::Global;

/// A field and the later ones.
type Then<'b, O, P, L> = FieldThen<'b, AlgorithmIdentifierOf<O, P>, MaskGenOf<O, P>, L>;

type PssFields<'b, O, P> = Then<'b, O, P, Then<'b, O, P, Then<'b, O, P, Then<'b, O, P, NoField>>>>;

impl<'b, O: IdentifierValue, P: AnyValue> EncodeParams for &'b PssParamsOf<O, P> {
    type Fields = PssFields<'b, O, P>;

    ghost Params = { PssParameters };

    ghost params = { λ p. pss_in O.octets P.any p.now };

    ghost Is = { IsPss };

    ghost fields_of = { pss_fields };

    ghost form = { pss_record };

    fn fields(self) -> PssFields<'b, O, P> {
        FieldThen {
            first: FieldRef::Hash(&self.hash),
            later: FieldThen {
                first: FieldRef::MaskGen(&self.mask_gen),
                later: FieldThen {
                    first: FieldRef::SaltLen(self.salt_len),
                    later: FieldThen {
                        first: FieldRef::Trailer(self.trailer_field),
                        later: NoField,
                    },
                },
            },
        }
    }

    fn lemma_is_valid(self) {
        let _salt_len = self.salt_len;
    }
}

impl<O: IdentifierValue, P: AnyValue> PssParamsOf<O, P> {
    ghost use Rattle.std.specs.Prelude.{Decides};
    ghost use Rattle.pkcs1_params.specs.Words.{AreSamePss, UsesHash};

    /// Whether the hash function is D, and the mask generation function is MGF1 with D: each of them by `is_hash`, so
    /// with NULL or without parameters.
    pub fn uses_hash<D: AssociatedOid>(&self) -> bool
        ensures { let params = pss_in O.octets P.any self.now in
            Decides result (UsesHash D.contents params.hash params.mask_gen) }
    {
        uses_hash::<D, O, P>(&self.hash, &self.mask_gen)
    }

    /// Whether both mean the same: all fields are equal, where a hash function with NULL and one without parameters are
    /// alike, in the mask generation function too. `==` tells these apart.
    pub fn means_same<Q: IdentifierValue, R: AnyValue>(&self, other: &PssParamsOf<Q, R>) -> bool
        ensures { let other = pss_in Q.octets R.any other.now in
            Decides result (AreSamePss (pss_in O.octets P.any self.now) other) }
    {
        self.hash.is_same_hash(&other.hash)
            && is_same_mask(&self.mask_gen, &other.mask_gen)
            && self.salt_len == other.salt_len
            && self.trailer_field == other.trailer_field
    }

    /// How many fields equal their defaults.
    pub fn default_fields(&self) -> u8
        ensures { Defaults (pss_fields (pss_in O.octets P.any self.now)) result }
    {
        count_defaults(self)
    }

    /// All encodings of the parameters, each at the index that is its mask, none twice, so the shortest is the first:
    /// two to the number of default fields. Ok only if the one with every field is no longer than `Length::MAX`. Err:
    /// `Overflow` exactly if it is longer, before anything is allocated; else `OutOfMemory`.
    pub fn spellings(&self, alloc: Global) -> Result<Vec<Vec<u8>>>
        ensures listed { let params = pss_in O.octets P.any self.now in
            IfOk result (λ encodings. Lists IsPss pss_fields params (Some (encodings_in encodings))) }
        ensures shortest { let params = pss_in O.octets P.any self.now in
            IfOk result (λ encodings. IsShortest PssEncoding params
            (slice_index_or (encodings_in encodings) 0 [])) }
        ensures fit { OnOk result (length (longest (pss_fields (pss_in O.octets P.any self.now))) ≤ limit) }
        ensures err { IfErr result (IsListingError (pss_fields (pss_in O.octets P.any self.now))) }
    {
        all_spellings(self, alloc)
    }
}
