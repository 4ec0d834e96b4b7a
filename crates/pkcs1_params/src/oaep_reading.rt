//! What `reading.rt` calls of RSAES-OAEP parameters.
ghost use Rattle.der_core.specs.Words.{nothing_asked};
ghost use Rattle.pkcs1_params.specs.Words.{OaepParameters, oaep_in, oaep_record};
ghost use Rattle.spki_core.specs.Words.{any_of};
ghost use Rattle.standard.specs.Statement.{IsOaep, oaep_fields};

use crate::from_view::ReadParams;
use crate::noting::note_oaep;
use crate::oaep::{OaepParamsOf, RsaOaepParamsView};
use crate::oaep_algorithm::RsaesOaep;
use crate::reading::{AlgorithmParams, read_fields};
use der_core::{DecodeValue, Memory, Result, TagNumber};
use spki_core::AnyRef;

impl<'a, O: ReadParams<'a>> AlgorithmParams<'a> for OaepParamsOf<O, AnyRef<'a>> {
    type Oid = RsaesOaep;

    ghost Params = { OaepParameters };

    ghost params = { oaep_in O.octets any_of };

    ghost Is = { IsOaep };

    ghost fields_of = { oaep_fields };

    ghost form = { oaep_record };

    #[inline(always)]
    fn read_noting(contents: &'a [u8]) -> Result<(OaepParamsOf<O, AnyRef<'a>>, Option<TagNumber>)> {
        let (view, noted) = note_oaep(contents)?;
        Ok((O::oaep_from_view(view), noted))
    }
}

impl<'a, M: Memory, O: ReadParams<'a>> DecodeValue<&'a [u8], M> for OaepParamsOf<O, AnyRef<'a>> {
    ghost may_allocate = { λ _. ⊥ };

    ghost asks_memory = { nothing_asked };

    #[inline(always)]
    fn read_value(_memory: M, contents: &'a [u8]) -> Result<OaepParamsOf<O, AnyRef<'a>>> {
        let view = read_fields::<RsaOaepParamsView<'a>>(contents, false)?;
        Ok(O::oaep_from_view(view))
    }
}
