//! PKCS #8 containers of private keys.
ghost use Rattle.std.specs.Prelude.{◌≡◌, ◌⊎◌, ⊤, ℕ, List, length, IfErr, option_map};
ghost use Rattle.der_core.specs.Words.{Answers, AreBytes, Excludes, begins_with_any, reading_alike, encode_error, itself_once, made_errs, ok_of, one_spelling_shortest, value_in, Unwritten};
ghost use Rattle.pkcs1.specs.Words.{AreStated};
ghost use Rattle.pkcs8_core.specs.Words.{Container, IsContainer, attributes_of, container_law, container_printed, info_in, info_of, info_read, of_info_parts, private_key_info, rsa_private_key_info, slice_now};
ghost use Rattle.pkcs8_core.specs.declared.info.PrivateKeyInfoOf as containers;
ghost use Rattle.standard.specs.Statement.{AtMostOne, ContainedKeyEncoding, ContainerEncoding, Decodes, Encodes, OaepEncoding, PrivateKeyEncoding, PssEncoding, PublicKeyEncoding, SameByShortest};

use crate::attributes::Attributes;
use pkcs1::der::{
    Borrowed, Contents, Decode, EncodeInParts, Encoding, Error, Expected, InParts, Last, LastByTag,
    Memory, OctetStringRef, Result, RowOperation, SequenceTag, TaggedBy, read_borrowed, write_only,
};
use pkcs1::spki::{
    AlgorithmIdentifierOf, AnyRef, IdentifierValue, IdentifierView, ObjectIdentifier,
    ReadIdentifier,
};

/// A private key with its algorithm and attributes (RFC 5208 5). The version is always 0. An `O` holds the object
/// identifier of the algorithm: see `PrivateKeyInfoRef` and `PrivateKeyInfoView`.
///
/// ```text
/// PrivateKeyInfo ::= SEQUENCE {
///     version              INTEGER { v1(0) },
///     privateKeyAlgorithm  AlgorithmIdentifier,
///     privateKey           OCTET STRING,
///     attributes           [0] IMPLICIT Attributes OPTIONAL
/// }
/// ```
#[derive(Clone, Copy, Drop)]
pub struct PrivateKeyInfoOf<'a, O> {
    /// The algorithm that the private key is for.
    pub algorithm: AlgorithmIdentifierOf<O, AnyRef<'a>>,
    /// The octets of the private key, in the format of its algorithm.
    pub private_key: OctetStringRef<'a>,
    /// The contents octets of the attributes, which aren't checked.
    pub attributes: Option<&'a [u8]>,
}

/// A container that holds the identifier of its algorithm.
pub type PrivateKeyInfoRef<'a> = PrivateKeyInfoOf<'a, ObjectIdentifier>;

/// A container over its encoding, whose octets are the identifier of its algorithm.
pub type PrivateKeyInfoView<'a> = PrivateKeyInfoOf<'a, IdentifierView<'a>>;

/// The contents octets of the attributes, if there are any.
fn contents_of<'a>(attributes: Option<Attributes<'a>>) -> Option<&'a [u8]>
    ensures { option_map slice_now result ≡ option_map attributes_of attributes.entry }
{
    match attributes {
        Some(attributes) => Some(attributes.bytes),
        None => None,
    }
}

/// The parts of a container: its version, its algorithm, its private key, and its attributes.
type InfoParts<'a, O> = (
    Expected<0>,
    (
        AlgorithmIdentifierOf<O, AnyRef<'a>>,
        (OctetStringRef<'a>, LastByTag<Attributes<'a>>),
    ),
);

impl<O: IdentifierValue> Contents for PrivateKeyInfoOf<'_, O> {
    ghost Value = { Container };

    ghost value = { info_in O.octets };

    ghost Spelling = { Container };

    ghost means = { λ container. container };

    ghost written = { λ container. container };

    ghost valid = { IsContainer };

    ghost printed = { container_printed };

    ghost read_spelling = { info_read };

    ghost read = { info_read };

    ghost law = { container_law };

    ghost shortest = { one_spelling_shortest IsContainer container_printed };

    ghost reads_alike = { reading_alike info_read };

    ghost begins = { begins_with_any };
}

impl<O> TaggedBy for PrivateKeyInfoOf<'_, O> {
    type Marker = SequenceTag;
}

impl<'a, O: ReadIdentifier<'a>> InParts for PrivateKeyInfoOf<'a, O> {
    type Parts = InfoParts<'a, O>;

    #[inline(always)]
    fn from_parts(parts: InfoParts<'a, O>) -> PrivateKeyInfoOf<'a, O> {
        let (_version, (algorithm, (private_key, LastByTag(Last(attributes))))) = parts;
        PrivateKeyInfoOf {
            algorithm,
            private_key,
            attributes: contents_of(attributes),
        }
    }

    ghost errs = { made_errs of_info_parts _ };

    ghost once = { λ _. itself_once };
}

impl<'a, O: ReadIdentifier<'a>> EncodeInParts for PrivateKeyInfoOf<'a, O> {
    ghost refused = { λ _. ⊥ ⊎ ((⊥ ⊎ ⊥) ⊎ (⊥ ⊎ ⊥)) };

    #[inline(always)]
    fn with_row<R: RowOperation>(&self, operation: &mut R) -> R::Output {
        let key = (
            Borrowed(&self.private_key),
            LastByTag(Last(self.attributes_encoding())),
        );
        operation.apply(&(Expected::<0>, (Borrowed(&self.algorithm), key)))
    }
}

impl<'a, O: ReadIdentifier<'a>> PrivateKeyInfoOf<'a, O> {
    /// The contents octets of the attributes. `None` exactly if there are none.
    pub fn attributes(&self) -> Option<&'a [u8]>
        ensures { option_map slice_now result ≡ (info_in O.octets self.now).attributes }
    {
        self.attributes
    }

    /// The attributes, as a type that can be encoded.
    fn attributes_encoding(&self) -> Option<Attributes<'a>>
        ensures { option_map attributes_of result ≡ (info_in O.octets self.now).attributes }
    {
        match self.attributes {
            Some(bytes) => Some(Attributes::new(bytes)),
            None => None,
        }
    }

    /// Does nothing. Its contract: each container has an encoding, within the limit or not, so no call that encodes one
    /// returns `Value`.
    pub fn lemma_has_encoding(&self)
        ensures { IsContainer (info_in O.octets self.now) }
    {
        let _attributes = self.attributes_encoding();
    }

    /// Writes the container's only encoding, which is that of no other container, to the front of a slice, and returns
    /// its length. The bytes behind it stay as they were. After an error all of the slice does. It is `Overflow`
    /// exactly if the encoding is longer than `Length::MAX`, else `NoRoom` exactly if it is longer than the slice, and
    /// never `Value`.
    pub fn encode_info(&self, out: &mut [u8]) -> Result<usize>
        ensures written { let c = info_in O.octets self.now in
            Encodes ContainerEncoding c out.old out.new (ok_of (λ n. n) result) }
        ensures err { let c = info_in O.octets self.now in
            IfErr result (λ e. Unwritten (λ _. ⊤) ContainerEncoding c (length out.old) (encode_error e.kind)) }
    {
        self.lemma_has_encoding();
        write_only(self, out)
    }
}

impl<'a, O: ReadIdentifier<'a>> TryFrom<&'a [u8]> for PrivateKeyInfoOf<'a, O> {
    type Error = Error;

    /// Reads a container, and allocates nothing. Ok exactly if the whole slice encodes one: then that container. Err:
    /// the first fault of a container, which of a version other than 0 is `Value` of INTEGER.
    #[inline(always)]
    fn try_from(bytes: &'a [u8]) -> Result<PrivateKeyInfoOf<'a, O>>
        ensures read { Decodes ContainerEncoding bytes.now (ok_of (info_in O.octets) result) }
        ensures exact { Answers (info_in O.octets) result (private_key_info bytes.now) }
    {
        let view: PrivateKeyInfoView<'a> = read_borrowed(bytes)?;
        Ok(PrivateKeyInfoOf {
            algorithm: O::algorithm_from_view(view.algorithm),
            private_key: view.private_key,
            attributes: view.attributes,
        })
    }
}

/// Reading a container never asks for memory. It does nothing: the law is its contract.
pub fn lemma_containers_take_no_memory<M: Memory>()
    ensures { (b : List ℕ) → ⟦<PrivateKeyInfoRef<'static> as Decode<&'static [u8], M>>⟧.may_allocate b → ⊥ }
{}

/// The functions that tell the containers of whole slices, and the RSA keys in them, give one exactly of the bytes that
/// encode it, and this one.
pub fn lemma_containers_decode()
    ensures container { (bytes : List ℕ) → AreBytes bytes
        → Decodes ContainerEncoding bytes (value_in (private_key_info bytes)) }
    ensures key { (bytes : List ℕ) → AreBytes bytes
        → Decodes ContainedKeyEncoding bytes (value_in (rsa_private_key_info bytes)) }
{}

/// A container has the encodings of the statement: so a clause of `Decode` or `Encode` at this type is about those.
pub fn lemma_containers_share_the_grammar()
    ensures { let it = ⟦<PrivateKeyInfoRef<'static> as Encoding>⟧ in
        AreStated it.valid it.printed it.means (λ c. c) ContainerEncoding }
{}

/// A container has at most one encoding. Two encodings mean the same container exactly if the shortest encodings of
/// what they mean are equal: they are the same bytes.
pub fn lemma_containers_have_one_encoding()
    ensures one { AtMostOne ContainerEncoding }
    ensures same { SameByShortest ContainerEncoding }
{}

/// No bytes encode both a container and a key, or both a container and parameters: so a loader may try one after the
/// other.
pub fn lemma_containers_exclude_other_types()
    ensures public_key { Excludes ContainerEncoding PublicKeyEncoding }
    ensures private_key { Excludes ContainerEncoding PrivateKeyEncoding }
    ensures pss { Excludes ContainerEncoding PssEncoding }
    ensures oaep { Excludes ContainerEncoding OaepEncoding }
{}

/// A clone of a container means the same as the original.
pub fn lemma_container_clones_mean_the_same()
    ensures { (a b : containers.PrivateKeyInfoOf ObjectIdentifier)
        → ⟦<PrivateKeyInfoRef<'static> as Clone>⟧.is_clone a b → info_of b ≡ info_of a }
{}
