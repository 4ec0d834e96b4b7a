//! Identifiers and encodings of any tag as parts of records: what writing their only encoding asks of them.
ghost use Rattle.der_core.specs.Words.{itself_once};
ghost use Rattle.spki_core.specs.Words.{algorithm_once};

use crate::algorithm_identifier::{AlgorithmIdentifierOf, ReadIdentifier};
use crate::any::AnyRef;
use crate::identifier_view::{IdentifierValue, IdentifierView};
use crate::object_identifier::ObjectIdentifier;
use der_core::{OneContents, OneEncoding};

impl OneContents for ObjectIdentifier {
    ghost once = { itself_once };
}

impl OneContents for IdentifierView<'_> {
    ghost once = { itself_once };
}

impl OneEncoding for AnyRef<'_> {
    ghost once = { itself_once };
}

impl<O: IdentifierValue, P: OneEncoding> OneContents for AlgorithmIdentifierOf<O, P> {
    ghost once = { algorithm_once P.OneEncoding.once };
}
