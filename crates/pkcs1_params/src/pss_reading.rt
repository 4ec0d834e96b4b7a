//! What `reading.rt` calls of RSASSA-PSS parameters.
ghost use Rattle.der_core.specs.Words.{nothing_asked};
ghost use Rattle.pkcs1_params.specs.Words.{PssParameters, pss_in, pss_record};
ghost use Rattle.spki_core.specs.Words.{any_of};
ghost use Rattle.standard.specs.Statement.{IsPss, pss_fields};

use crate::from_view::ReadParams;
use crate::noting::note_pss;
use crate::pss::{PssParamsOf, RsaPssParamsView};
use crate::pss_algorithm::RsassaPss;
use crate::reading::{AlgorithmParams, read_fields};
use der_core::{DecodeValue, Memory, Result, TagNumber};
use spki_core::AnyRef;

impl<'a, O: ReadParams<'a>> AlgorithmParams<'a> for PssParamsOf<O, AnyRef<'a>> {
    type Oid = RsassaPss;

    ghost Params = { PssParameters };

    ghost params = { pss_in O.octets any_of };

    ghost Is = { IsPss };

    ghost fields_of = { pss_fields };

    ghost form = { pss_record };

    #[inline(always)]
    fn read_noting(contents: &'a [u8]) -> Result<(PssParamsOf<O, AnyRef<'a>>, Option<TagNumber>)> {
        let (view, noted) = note_pss(contents)?;
        Ok((O::pss_from_view(view), noted))
    }
}

impl<'a, M: Memory, O: ReadParams<'a>> DecodeValue<&'a [u8], M> for PssParamsOf<O, AnyRef<'a>> {
    ghost may_allocate = { λ _. ⊥ };

    ghost asks_memory = { nothing_asked };

    #[inline(always)]
    fn read_value(_memory: M, contents: &'a [u8]) -> Result<PssParamsOf<O, AnyRef<'a>>> {
        let view = read_fields::<RsaPssParamsView<'a>>(contents, false)?;
        Ok(O::pss_from_view(view))
    }
}
