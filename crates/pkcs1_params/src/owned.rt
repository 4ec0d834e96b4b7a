//! Reading parameters whose algorithms have owned parameters: those that borrow from the input, copied.
ghost use Rattle.std.specs.Prelude.{◌≡◌, ◌≢◌, [], IfOk, IfErr};
ghost use Rattle.der_core.specs.declared.error.ErrorKind.TheVariants.{OutOfMemory};
ghost use Rattle.pkcs1_params.specs.Words.{IsBareOaep, IsBarePss, OwnedOaepAllocates, OwnedPssAllocates, oaep_of, oaep_with, pss_of, pss_with};
ghost use Rattle.spki_core.specs.Words.{algorithm_with, algorithm_of, mask_gen_of, any_of, own_any_of};
ghost use Rattle.standard.specs.Statement.{IfPresent, IsBare};

use crate::hash_fields::{MaskGenOf, MaskGenRef};
use crate::oaep::{RsaOaepParams, RsaOaepParamsOwned, RsaOaepParamsRef};
use crate::pss::{RsaPssParams, RsaPssParamsOwned, RsaPssParamsRef};
use der_core::{DecodeValue, NoMemory, Result};
use spki_core::{
    AlgorithmIdentifier, AlgorithmIdentifierRef, Any, AnyParams, AnyRef, ObjectIdentifier,
};
use std::alloc::Global;

/// Copies the contents octets. Nothing is allocated if there are none.
fn copy_any(alloc: Global, any: AnyRef<'_>) -> Result<Any>
    ensures ok { IfOk result (λ copy. own_any_of copy ≡ any_of any.entry) }
    ensures err { IfErr result (λ e. (e.kind ≡ OutOfMemory) × ((any_of any.entry).contents ≢ [])) }
{
    if any.value().is_empty() {
        return Ok(Any::empty(alloc, any.tag()));
    }
    Any::new(alloc, any.tag(), any.value())
}

/// Copies a hash function or a label source.
fn copy_plain(
    alloc: Global,
    algorithm: AlgorithmIdentifierRef<'_>,
) -> Result<AlgorithmIdentifier<Any>>
    ensures ok { IfOk result (λ copy. algorithm_with own_any_of copy ≡ algorithm_of algorithm.entry) }
    ensures err { let bare = IsBare (algorithm_of algorithm.entry) in
        IfErr result (λ e. (e.kind ≡ OutOfMemory) × (bare → ⊥)) }
{
    let parameters = match algorithm.parameters {
        Some(any) => Some(copy_any(alloc, any)?),
        None => None,
    };
    Ok(AlgorithmIdentifier {
        oid: algorithm.oid,
        parameters,
    })
}

/// Copies a mask generation function.
fn copy_mask_gen(
    alloc: Global,
    mask_gen: MaskGenRef<'_>,
) -> Result<MaskGenOf<ObjectIdentifier, Any>>
    ensures ok { IfOk result (λ copy. algorithm_with (algorithm_with own_any_of) copy ≡ mask_gen_of mask_gen.entry) }
    ensures err { let bare = IfPresent IsBare (mask_gen_of mask_gen.entry).parameters in
        IfErr result (λ e. (e.kind ≡ OutOfMemory) × (bare → ⊥)) }
{
    let parameters = match mask_gen.parameters {
        Some(hash) => Some(copy_plain(alloc, hash)?),
        None => None,
    };
    Ok(AlgorithmIdentifier {
        oid: mask_gen.oid,
        parameters,
    })
}

/// Copies RSASSA-PSS parameters.
fn copy_pss(alloc: Global, params: RsaPssParamsRef<'_>) -> Result<RsaPssParamsOwned>
    ensures ok { IfOk result (λ copy. pss_with own_any_of copy ≡ pss_of params.entry) }
    ensures err { let bare = IsBarePss (pss_of params.entry) in
        IfErr result (λ e. (e.kind ≡ OutOfMemory) × (bare → ⊥)) }
{
    Ok(RsaPssParams {
        hash: copy_plain(alloc, params.hash)?,
        mask_gen: copy_mask_gen(alloc, params.mask_gen)?,
        salt_len: params.salt_len,
        trailer_field: params.trailer_field,
    })
}

/// Copies RSAES-OAEP parameters.
fn copy_oaep(alloc: Global, params: RsaOaepParamsRef<'_>) -> Result<RsaOaepParamsOwned>
    ensures ok { IfOk result (λ copy. oaep_with own_any_of copy ≡ oaep_of params.entry) }
    ensures err { let bare = IsBareOaep (oaep_of params.entry) in
        IfErr result (λ e. (e.kind ≡ OutOfMemory) × (bare → ⊥)) }
{
    Ok(RsaOaepParams {
        hash: copy_plain(alloc, params.hash)?,
        mask_gen: copy_mask_gen(alloc, params.mask_gen)?,
        p_source: copy_plain(alloc, params.p_source)?,
    })
}

impl<'a> DecodeValue<&'a [u8], Global> for RsaPssParams<Any> {
    ghost may_allocate = { OwnedPssAllocates };

    ghost asks_memory = { λ _ _. tt };

    fn read_value(memory: Global, contents: &'a [u8]) -> Result<RsaPssParamsOwned> {
        let params = RsaPssParamsRef::read_value(NoMemory, contents)?;
        copy_pss(memory, params)
    }
}

impl<'a> DecodeValue<&'a [u8], Global> for RsaOaepParams<Any> {
    ghost may_allocate = { OwnedOaepAllocates };

    ghost asks_memory = { λ _ _. tt };

    fn read_value(memory: Global, contents: &'a [u8]) -> Result<RsaOaepParamsOwned> {
        let params = RsaOaepParamsRef::read_value(NoMemory, contents)?;
        copy_oaep(memory, params)
    }
}
