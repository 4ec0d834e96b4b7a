//! Parameters in their algorithm identifier (RFC 8017 A.2.3, A.2.1; RFC 5280 4.1.1.2). `AlgorithmView::from_der` reads
//! one, and `reading.rt` the parameters in it.
ghost use Rattle.std.specs.Prelude.{◌≡◌, ⊤, length, Err, IfErr, IfOk, if◌then◌else◌};
ghost use Rattle.der_core.specs.Words.{Reading, ok_of, sequence_tag as sequence_kind};
ghost use Rattle.spki_core.specs.Words.{algorithm_in, algorithm_of, any_as, any_of, record_read, record_strictly};
ghost use Rattle.pkcs1_params.specs.Words.{AnswersAsn1, EncodingOfFields, Identifies, IsAsn1, Refuses, identified, whole_algorithm};
ghost use Rattle.standard.specs.Statement.{AlgorithmEncoding, Decodes, Encodes, IsShortest};

use crate::error::{Error, Result};
use crate::reading::{AlgorithmParams, read_any};
use crate::shortest::Shortest;
use crate::spelling::EncodeParams;
use der_core::{Decode, Encode, ErrorKind, NoMemory};
use spki_core::{
    AlgorithmIdentifierOf, AlgorithmIdentifierRef, AlgorithmView, AnyRef, AssociatedOid,
    IdentifierValue,
};

/// Borrowed parameters that are read from the algorithm identifier that they stand in: `RsaPssParamsRef`,
/// `RsaPssParamsView`, `RsaOaepParamsRef`, `RsaOaepParamsView`. Nothing is allocated.
pub trait FromAlgorithm<'a>: AlgorithmParams<'a> {
    /// The parameters in an algorithm identifier. Ok exactly if it is this algorithm, and its parameters are the
    /// SEQUENCE of the fields of such parameters: then the only value that has them. `OidUnknown` if it is another
    /// algorithm's, then `ParametersMissing` if it has none, as RFC 4055 forbids with a signature and an encrypted
    /// value (3.1, 4.1). Else `TagUnexpected` if they are no SEQUENCE, or the first fault of the fields.
    fn from_algorithm(algorithm: &AlgorithmIdentifierRef<'a>) -> Result<Self>
        ensures read { let Holds = Identifies Self.Oid.contents Self.Is Self.fields_of in
            Decodes Holds (algorithm_of algorithm.now) (ok_of Self.params result) }
        ensures exact { let given = identified Self.Oid.contents (record_read Self.form) (algorithm_of algorithm.now) in
            AnswersAsn1 Self.params given result };

    /// Reads an algorithm identifier with such parameters, as in a certificate's signatureAlgorithm. Ok exactly if the
    /// whole slice encodes one: then its parameters. Err: the first fault. Once the slice is an algorithm identifier
    /// with parameters of any type, it is that of `from_algorithm`.
    fn from_algorithm_der(bytes: &'a [u8]) -> Result<Self>
        ensures read { let Encoding = AlgorithmEncoding Self.Oid.contents (EncodingOfFields Self.Is Self.fields_of) in
            Decodes Encoding bytes.now (ok_of Self.params result) }
        ensures exact { let read = whole_algorithm Self.Oid.contents (record_read Self.form) in
            AnswersAsn1 Self.params (read bytes.now) result };

    /// Reads it as `from_algorithm_der` does, but only from its shortest encoding. Of an encoding in which a default is
    /// written the error is `Noncanonical` with the tag of the first such field. Else it is that of
    /// `from_algorithm_der`.
    fn from_algorithm_der_strict(bytes: &'a [u8]) -> Result<Self>
        ensures read { let Encoding = AlgorithmEncoding Self.Oid.contents (EncodingOfFields Self.Is Self.fields_of) in
            Decodes (IsShortest Encoding) bytes.now (ok_of Self.params result) }
        ensures exact { let read = whole_algorithm Self.Oid.contents (record_strictly Self.form) in
            AnswersAsn1 Self.params (read bytes.now) result };
}

impl<'a, T: AlgorithmParams<'a>> FromAlgorithm<'a> for T {
    fn from_algorithm(algorithm: &AlgorithmIdentifierRef<'a>) -> Result<T> {
        from_identifier(algorithm, false)
    }

    fn from_algorithm_der(bytes: &'a [u8]) -> Result<T> {
        let algorithm = AlgorithmView::from_der(NoMemory, bytes)?;
        from_identifier(&algorithm, false)
    }

    fn from_algorithm_der_strict(bytes: &'a [u8]) -> Result<T> {
        let algorithm = AlgorithmView::from_der(NoMemory, bytes)?;
        from_identifier(&algorithm, true)
    }
}

/// The parameters in an algorithm identifier, whatever holds its object identifier; if `strict`, only where no default
/// is written.
#[inline(always)]
fn from_identifier<'a, O: IdentifierValue, T: AlgorithmParams<'a>>(
    algorithm: &AlgorithmIdentifierOf<O, AnyRef<'a>>,
    strict: bool,
) -> Result<T>
    ensures { let a = algorithm_in O.octets any_of algorithm.now in
        let read = if strict then record_strictly T.form else record_read T.form in
        AnswersAsn1 T.params (identified T.Oid.contents read a) result }
{
    let any = parameters_of::<O, T>(algorithm)?;
    Ok(read_any(any, strict)?)
}

/// The parameters in an algorithm identifier, whatever holds its object identifier, as they are before they are read.
#[inline(always)]
fn parameters_of<'a, O: IdentifierValue, T: AlgorithmParams<'a>>(
    algorithm: &AlgorithmIdentifierOf<O, AnyRef<'a>>,
) -> Result<AnyRef<'a>>
    ensures ok { let a = algorithm_in O.octets any_of algorithm.now in (read : Reading T.Params) →
        IfOk result (λ any. identified T.Oid.contents read a ≡ any_as sequence_kind read (any_of any)) }
    ensures err { let a = algorithm_in O.octets any_of algorithm.now in (read : Reading T.Params) →
        IfErr result (IsAsn1 (λ e. identified T.Oid.contents read a ≡ Err e.kind)) }
{
    let oid = algorithm.oid.as_identifier_view();
    if oid.as_bytes() != T::Oid::octets() {
        return Err(Error::Asn1(der_core::Error::new(ErrorKind::OidUnknown)));
    }
    match algorithm.parameters {
        Some(any) => Ok(any),
        None => Err(Error::Asn1(der_core::Error::new(ErrorKind::ParametersMissing))),
    }
}

/// Writes the shortest encoding of the algorithm identifier of D with these parameters to the front of a slice and
/// returns its length.
pub(crate) fn encode_identifier<D: AssociatedOid, T: EncodeParams>(
    params: T,
    out: &mut [u8],
) -> Result<usize>
    ensures written { let Encoding = AlgorithmEncoding D.contents (EncodingOfFields T.Is T.fields_of) in
        Encodes Encoding (T.params params) out.old out.new (ok_of (λ n. n) result) }
    ensures err { let Encoding = AlgorithmEncoding D.contents (EncodingOfFields T.Is T.fields_of) in
        IfErr result (Refuses (λ _. ⊤) Encoding (T.params params) (length out.old)) }
{
    let algorithm = Shortest::identified::<D>(params);
    Ok(algorithm.encode_into(out)?)
}
