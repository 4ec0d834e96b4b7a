//! Algorithm identifiers (RFC 5280 4.1.1.2).
ghost use Rattle.std.specs.Prelude.{◌≡◌, ◌≢◌, ◌⊎◌, IfOk, IfErr, IfSome, IsOk, option_map, Some, None, Decides};
ghost use Rattle.std.specs.Option.{unwrap_or};
ghost use Rattle.der_core.specs.Words.{begins_with_any};
ghost use Rattle.spki_core.specs.Words.{Algorithm, AllocatesForParameters, AreSameHash, IsHash, NothingAskedAlone, TagAndContents, algorithm_alike, algorithm_asks_as_parameters, algorithm_contents, algorithm_decides, algorithm_in, algorithm_law, algorithm_map, algorithm_read, algorithm_with, algorithm_writes_shortest, any_of, identifier_octets, null_value, own_octets_of, viewed_with};
ghost use Rattle.standard.specs.Statement as standard;

use crate::any::{AnyRef, AnyValue};
use crate::identifier_view::{IdentifierValue, IdentifierView};
use crate::object_identifier::{AssociatedOid, ObjectIdentifier};
use der_core::{
    BorrowedLast, Contents, Decode, DecodeParts, DecodeValue, Encode, EncodeValue, Encoding,
    EqualByValue, Error, ErrorKind, Last, Memory, Prepend, Result, SequenceTag, TaggedBy, TryClone,
    Writer,
};
use std::alloc::Global;
use std::fmt;

/// An identifier, and parameters that are there or not (RFC 5280 4.1.1.2). An `O` holds the object identifier: see
/// `AlgorithmIdentifier` and `AlgorithmView`.
///
/// ```text
/// AlgorithmIdentifier ::= SEQUENCE {
///     algorithm   OBJECT IDENTIFIER,
///     parameters  ANY DEFINED BY algorithm OPTIONAL
/// }
/// ```
#[derive(Clone, Copy, PartialEq, Eq, Drop)]
pub struct AlgorithmIdentifierOf<O, P> {
    /// The identifier of the algorithm.
    pub oid: O,
    /// The parameters of the algorithm. `None` means that no octet follows the identifier, which is another value than
    /// NULL.
    pub parameters: Option<P>,
}

/// An algorithm identifier that holds its object identifier.
pub type AlgorithmIdentifier<P> = AlgorithmIdentifierOf<ObjectIdentifier, P>;

/// An algorithm identifier with borrowed parameters of any tag.
pub type AlgorithmIdentifierRef<'a> = AlgorithmIdentifier<AnyRef<'a>>;

/// An algorithm identifier that borrows the octets of its object identifier. Only `to_algorithm_identifier` copies
/// them.
pub type AlgorithmView<'a, P> = AlgorithmIdentifierOf<IdentifierView<'a>, P>;

impl<O: fmt::Debug, P: fmt::Debug> fmt::Debug for AlgorithmIdentifierOf<O, P> {
    fn fmt<W: fmt::Write>(&self, f: &mut fmt::Formatter<W>) -> fmt::Result {
        f.debug_struct("AlgorithmIdentifier")
            .field("oid", &self.oid)
            .field("parameters", &self.parameters)
            .finish()
    }
}

impl<O: IdentifierValue, P: Encoding> Contents for AlgorithmIdentifierOf<O, P> {
    ghost Value = { Algorithm P.Value };

    ghost value = { algorithm_in O.octets P.value };

    ghost Spelling = { Algorithm P.Spelling };

    ghost means = { algorithm_map P.means };

    ghost written = { algorithm_map P.written };

    ghost valid = { standard.IsAlgorithm P.valid };

    ghost printed = { algorithm_contents P.printed };

    ghost read_spelling = { algorithm_read P.read_spelling };

    ghost read = { algorithm_read P.read_front };

    ghost law = { algorithm_law P.law P.some };

    ghost shortest = { algorithm_writes_shortest P.shortest };

    ghost reads_alike = { algorithm_alike P.reads_alike };

    ghost begins = { begins_with_any };
}

impl<O, P> TaggedBy for AlgorithmIdentifierOf<O, P> {
    type Marker = SequenceTag;
}

impl<P: EqualByValue> EqualByValue for AlgorithmIdentifier<P> {
    ghost decides = { λ a b. let left = own_octets_of a.oid in
        algorithm_decides P.value P.eq P.decides left (own_octets_of b.oid) a.parameters b.parameters };
}

impl<'a, M: Memory, O: ReadIdentifier<'a>, P: Decode<&'a [u8], M>> DecodeValue<&'a [u8], M>
    for AlgorithmIdentifierOf<O, P> {
    ghost may_allocate = { AllocatesForParameters P.Decode.may_allocate };

    ghost asks_memory = { algorithm_asks_as_parameters P.Decode.asks_memory };

    #[inline(always)]
    fn read_value(memory: M, contents: &'a [u8]) -> Result<AlgorithmIdentifierOf<O, P>> {
        let (oid, Last(parameters)) = <(IdentifierView<'a>, Last<P>)>::read_parts(
            memory, contents,
        )?;
        Ok(O::algorithm_from_view(AlgorithmView { oid, parameters }))
    }
}

/// Reading an identifier without parameters never asks for memory, whatever type they would have. It does nothing: the
/// law is its contract.
pub fn lemma_identifier_alone_takes_no_memory<'a, P: Decode<&'a [u8], M>, M: Memory>()
    ensures { NothingAskedAlone ⟦<AlgorithmIdentifier<P> as Decode<&'a [u8], M>>⟧.may_allocate }
{}

impl<O: IdentifierValue, P: Encode> EncodeValue for AlgorithmIdentifierOf<O, P> {
    ghost refused = { λ tag. ⊥ ⊎ P.Encode.refused tag };

    #[inline(always)]
    fn check_value(&self) -> Result<()> {
        let oid = self.oid.as_identifier_view();
        (oid, BorrowedLast(&self.parameters)).check_value()
    }

    #[inline(always)]
    fn prepend_value<W: Prepend>(&self, writer: &mut W) {
        let oid = self.oid.as_identifier_view();
        (oid, BorrowedLast(&self.parameters)).prepend_value(writer);
    }

    fn append_value<W: Writer>(&self, writer: &mut W) -> Result<()> {
        let oid = self.oid.as_identifier_view();
        (oid, BorrowedLast(&self.parameters)).append_value(writer)
    }
}

impl<P: TryClone> TryClone for AlgorithmIdentifier<P> {
    ghost never_out_of_memory = { λ algorithm. IfSome algorithm.parameters P.never_out_of_memory };

    fn try_clone(&self, alloc: Global) -> Result<AlgorithmIdentifier<P>> {
        self.try_clone(alloc)
    }
}

impl<P: TryClone> AlgorithmIdentifier<P> {
    /// The same identifier with a copy of the parameters, or `OutOfMemory` where copying these may return it.
    pub fn try_clone(&self, alloc: Global) -> Result<AlgorithmIdentifier<P>>
        ensures ok { IfOk result (λ copy. algorithm_with P.value copy ≡ algorithm_with P.value self.now) }
        ensures err { IfErr result (λ e. e.kind ≡ ErrorKind.OutOfMemory) }
        ensures may_allocate { IfSome self.now.parameters P.never_out_of_memory → IsOk result }
    {
        let parameters = match &self.parameters {
            Some(parameters) => Some(parameters.try_clone(alloc)?),
            None => None,
        };
        Ok(AlgorithmIdentifier {
            oid: self.oid,
            parameters,
        })
    }
}

impl<P> AlgorithmIdentifier<P> {
    /// Returns the identifier. `OidUnknown` exactly if it isn't the expected one.
    pub fn assert_algorithm_oid(&self, expected: ObjectIdentifier) -> Result<ObjectIdentifier>
        ensures ok { IfOk result (λ oid. (oid ≡ self.now.oid) × (own_octets_of self.now.oid ≡ own_octets_of expected)) }
        ensures err { IfErr result (λ e. (e.kind ≡ ErrorKind.OidUnknown)
            × (own_octets_of self.now.oid ≢ own_octets_of expected)) }
    {
        if self.oid == expected {
            Ok(self.oid)
        } else {
            Err(Error::new(ErrorKind::OidUnknown))
        }
    }
}

impl<'a, P> AlgorithmView<'a, P> {
    /// The same identifier, as a copy of its octets, and the same parameters.
    #[inline(always)]
    pub fn to_algorithm_identifier(self) -> AlgorithmIdentifier<P>
        ensures oid { own_octets_of result.oid ≡ identifier_octets self.entry.oid }
        ensures parameters { result.parameters ≡ self.entry.parameters }
    {
        ObjectIdentifier::algorithm_from_view(self)
    }
}

/// What holds the object identifiers of algorithms that are read: `IdentifierView`, or `ObjectIdentifier` as a copy.
pub trait ReadIdentifier<'a>: IdentifierValue + Drop {
    /// The algorithm of a view: the same identifier, kept, and the same parameters.
    fn algorithm_from_view<P>(algorithm: AlgorithmView<'a, P>) -> AlgorithmIdentifierOf<Self, P>
        ensures oid { Self.octets result.oid ≡ identifier_octets algorithm.entry.oid }
        ensures parameters { result.parameters ≡ algorithm.entry.parameters };
}

impl<'a> ReadIdentifier<'a> for IdentifierView<'a> {
    #[inline(always)]
    fn algorithm_from_view<P>(algorithm: AlgorithmView<'a, P>) -> AlgorithmView<'a, P> {
        algorithm
    }
}

impl<'a> ReadIdentifier<'a> for ObjectIdentifier {
    #[inline(always)]
    fn algorithm_from_view<P>(algorithm: AlgorithmView<'a, P>) -> AlgorithmIdentifier<P> {
        AlgorithmIdentifier {
            oid: algorithm.oid.to_object_identifier(),
            parameters: algorithm.parameters,
        }
    }
}

impl<O: IdentifierValue, P: AnyValue> AlgorithmIdentifierOf<O, P> {
    /// The algorithm identifier, borrowed.
    #[inline(always)]
    pub fn as_view(&self) -> AlgorithmView<'_, AnyRef<'_>>
        ensures { viewed_with any_of result ≡ algorithm_in O.octets P.any self.now }
    {
        AlgorithmView {
            oid: self.oid.as_identifier_view(),
            parameters: match &self.parameters {
                Some(parameters) => Some(parameters.as_any_ref()),
                None => None,
            },
        }
    }

    /// Whether this is the hash function D: its identifier, with NULL or without parameters. Both mean the same
    /// function (RFC 4055 2.1), though `==` tells them apart.
    pub fn is_hash<D: AssociatedOid>(&self) -> bool
        ensures { Decides result (IsHash D.contents (algorithm_in O.octets P.any self.now)) }
    {
        self.oid.as_identifier_view().as_bytes() == D::octets()
            && self.parameters_or_null() == AnyRef::null()
    }

    /// Whether both are the same hash function: the identifiers are equal, and so are the parameters, where NULL and
    /// none are alike.
    pub fn is_same_hash<Q: IdentifierValue, R: AnyValue>(
        &self,
        other: &AlgorithmIdentifierOf<Q, R>,
    ) -> bool
        ensures { let other = algorithm_in Q.octets R.any other.now in
            Decides result (AreSameHash (algorithm_in O.octets P.any self.now) other) }
    {
        self.oid.as_identifier_view().as_bytes() == other.oid.as_identifier_view().as_bytes()
            && self.parameters_or_null() == other.parameters_or_null()
    }

    /// The parameters, borrowed, or NULL if there are none.
    #[inline(always)]
    fn parameters_or_null(&self) -> AnyRef<'_>
        ensures { any_of result ≡ unwrap_or (option_map P.any self.now.parameters) null_value }
    {
        match &self.parameters {
            Some(parameters) => parameters.as_any_ref(),
            None => AnyRef::null(),
        }
    }

    /// The parameters, borrowed. `ParametersMissing` exactly if there are none.
    pub fn parameters_any(&self) -> Result<AnyRef<'_>>
        ensures ok { IfOk result (λ any. option_map P.any self.now.parameters ≡ Some (any_of any)) }
        ensures err { IfErr result (λ e. (e.kind ≡ ErrorKind.ParametersMissing)
            × (option_map P.any self.now.parameters ≡ None)) }
    {
        match &self.parameters {
            Some(parameters) => Ok(parameters.as_any_ref()),
            None => Err(Error::new(ErrorKind::ParametersMissing)),
        }
    }
}
