//! The fields and the spellings of RSAES-OAEP parameters.
ghost use Rattle.std.specs.Prelude.{◌≡◌, ◌≤◌, [], ⊤, length, slice_index_or, IfErr, IfOk, OnOk, Some};
ghost use Rattle.der_core.specs.Words.{limit};
ghost use Rattle.pkcs1_params.specs.Words.{IsListingError, IsMask, OaepParameters, Refuses, encodings_in, oaep_in, oaep_record};
ghost use Rattle.standard.specs.Statement.{Defaults, FieldsUnder, IsOaep, IsShortest, Lists, OaepEncoding, SequenceOf, longest, oaep_fields};

use crate::error::Result;
use crate::fields::{FieldRef, FieldThen, NoField};
use crate::hash_fields::{MaskGenOf, is_same_mask, uses_hash};
use crate::holders::{MaskHolder, PlainHolder};
use crate::label::is_same_source;
use crate::listing::all_spellings;
use crate::oaep::OaepParamsOf;
use crate::spelling::{EncodeParams, count_defaults};
use spki_core::{AlgorithmIdentifierOf, AnyValue, AssociatedOid, IdentifierValue};
use std::alloc::Global;

/// A field and the later ones.
type Then<'b, O, P, L> = FieldThen<'b, AlgorithmIdentifierOf<O, P>, MaskGenOf<O, P>, L>;

type OaepFields<'b, O, P> = Then<'b, O, P, Then<'b, O, P, Then<'b, O, P, NoField>>>;

impl<'b, O: IdentifierValue, P: AnyValue> EncodeParams for &'b OaepParamsOf<O, P> {
    type Fields = OaepFields<'b, O, P>;

    ghost Params = { OaepParameters };

    ghost params = { λ p. oaep_in O.octets P.any p.now };

    ghost Is = { IsOaep };

    ghost fields_of = { oaep_fields };

    ghost form = { oaep_record };

    fn fields(self) -> OaepFields<'b, O, P> {
        FieldThen {
            first: FieldRef::Hash(&self.hash),
            later: FieldThen {
                first: FieldRef::MaskGen(&self.mask_gen),
                later: FieldThen {
                    first: FieldRef::PSource(&self.p_source),
                    later: NoField,
                },
            },
        }
    }

    fn lemma_is_valid(self) {}
}

impl<O: IdentifierValue, P: AnyValue> OaepParamsOf<O, P> {
    ghost use Rattle.std.specs.Prelude.{Decides};
    ghost use Rattle.pkcs1_params.specs.Words.{AreSameOaep, UsesHash};

    /// Whether the hash function is D, and the mask generation function is MGF1 with D: each of them by `is_hash`, so
    /// with NULL or without parameters.
    pub fn uses_hash<D: AssociatedOid>(&self) -> bool
        ensures { let params = oaep_in O.octets P.any self.now in
            Decides result (UsesHash D.contents params.hash params.mask_gen) }
    {
        uses_hash::<D, O, P>(&self.hash, &self.mask_gen)
    }

    /// Whether both mean the same: all fields are equal, where a hash function with NULL and one without parameters are
    /// alike, in the mask generation function too. `==` tells these apart.
    pub fn means_same<Q: IdentifierValue, R: AnyValue>(&self, other: &OaepParamsOf<Q, R>) -> bool
        ensures { let other = oaep_in Q.octets R.any other.now in
            Decides result (AreSameOaep (oaep_in O.octets P.any self.now) other) }
    {
        self.hash.is_same_hash(&other.hash)
            && is_same_mask(&self.mask_gen, &other.mask_gen)
            && is_same_source(&self.p_source.as_view(), &other.p_source.as_view())
    }

    /// How many fields equal their defaults.
    pub fn default_fields(&self) -> u8
        ensures { Defaults (oaep_fields (oaep_in O.octets P.any self.now)) result }
    {
        count_defaults(self)
    }

    /// All encodings of the parameters, each at the index that is its mask, none twice, so the shortest is the first:
    /// two to the number of default fields. Ok only if the one with every field is no longer than `Length::MAX`. Err:
    /// `Overflow` exactly if it is longer, before anything is allocated; else `OutOfMemory`.
    pub fn spellings(&self, alloc: Global) -> Result<Vec<Vec<u8>>>
        ensures listed { let params = oaep_in O.octets P.any self.now in
            IfOk result (λ encodings. Lists IsOaep oaep_fields params (Some (encodings_in encodings))) }
        ensures shortest { let params = oaep_in O.octets P.any self.now in
            IfOk result (λ encodings. IsShortest OaepEncoding params
            (slice_index_or (encodings_in encodings) 0 [])) }
        ensures fit { OnOk result (length (longest (oaep_fields (oaep_in O.octets P.any self.now))) ≤ limit) }
        ensures err { IfErr result (IsListingError (oaep_fields (oaep_in O.octets P.any self.now))) }
    {
        all_spellings(self, alloc)
    }
}
