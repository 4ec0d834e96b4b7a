//! Traits for keys of any type: PKCS #1 encodings decoded and written, in memory and in files.
ghost use Rattle.std.specs.Prelude.{◌≡◌, ◌⊎◌, ⊤, List, ℕ, Err, IfOk, IfErr, OnOk, IsErrAnd, Some};
ghost use Rattle.std.specs.Path.{path_bytes};
ghost use Rattle.der_core.specs.Words.{FileFault, FileGives, FileRefuses, FileTakes, IsDocument, created, encoding_of, opened, with_call, FaultOrMemory, IsFile, sequence_tag, own_bytes_of};
ghost use Rattle.pkcs1.specs.Words.{OwnedKeyAllocates, OwnedPublicKeyAllocates, rsa_private_key, rsa_public_key, IsPrivateKey, ListsNone, Rejects, Withholds, held_private_key, held_public_key};
ghost use Rattle.pkcs1_params.specs.Words.{AnswersAsn1OrAsks, IsAsn1};
ghost use Rattle.standard.specs.Statement.{Decodes, IsShortest, PrivateKeyEncoding, PublicKeyEncoding};
ghost use Rattle.pkcs1_params.specs.declared.error.Error.{Error};

use crate::private_key::RsaPrivateKey;
use crate::private_key::other_prime_info::require_listed;
use crate::public_key::RsaPublicKey;
use der_core::{
    Decode, Document, Encode, ErrorKind, FileSystem, SecretDocument, Uint, UintEncoding,
};
use pkcs1_params::Result;
use std::alloc::Global;
use std::path::Path;

/// A private key that can be decoded from its PKCS #1 encoding (RFC 8017 A.1.2). A caller's own type says by
/// `stands_for` how a key relates to the bytes that it was read from, and by `rejected_by` which bytes an error
/// rejects.
pub trait DecodeRsaPrivateKey: Sized + Drop {
    /// The key was read from these bytes.
    ghost stands_for: { Self → List ℕ → Type 0 };

    /// These bytes are rejected with this error.
    ghost rejected_by: { List ℕ → Error → Type 0 };

    /// Reads a key from the whole slice. Ok: the key stands for the slice. Err: the type rejects the slice with this
    /// error.
    fn from_pkcs1_der(alloc: Global, bytes: &[u8]) -> Result<Self>
        ensures read { IfOk result (λ key. stands_for key bytes.now) }
        ensures rejected { IfErr result (λ e. rejected_by bytes.now e) };

    /// Reads the document that a file holds, and calls `from_pkcs1_der` on its bytes. Ok: the key stands for a
    /// document, which is all that the file opened at this path gave. Err: as of `Document::read_der_file`, so `File`
    /// if the file can't be opened or read, and `Overflow` if it has more bytes than `Length::MAX`; or the file gave a
    /// document that the type rejects with this error.
    fn read_pkcs1_der_file<F: FileSystem>(
        files: &mut F,
        alloc: Global,
        path: Path<'_>,
    ) -> Result<Self>
        ensures read { let gives = FileGives (F.opens (path_bytes path.entry)) F.Opened.remaining in
            IfOk result (λ key. (bytes : List ℕ) × gives bytes × IsDocument bytes × stands_for key bytes) }
        ensures rejected { let opens = F.opens (path_bytes path.entry) in
            IfErr result (λ e. IsAsn1 (λ file. FileFault opens F.Opened.remaining F.Opened.failures file.kind) e
            ⊎ ((bytes : List ℕ) × FileGives opens F.Opened.remaining bytes × IsDocument bytes × rejected_by bytes e)) }
        ensures called { F.calls files.new ≡ with_call (F.calls files.old) (opened (path_bytes path.entry)) }
    {
        let document = SecretDocument::read_der_file(files, alloc, path)?;
        Self::from_pkcs1_der(alloc, document.as_bytes())
    }
}

/// A public key that can be decoded from its PKCS #1 encoding (RFC 8017 A.1.1). A caller's own type says by
/// `stands_for` how a key relates to the bytes that it was read from, and by `rejected_by` which bytes an error
/// rejects.
pub trait DecodeRsaPublicKey: Sized + Drop {
    /// The key was read from these bytes.
    ghost stands_for: { Self → List ℕ → Type 0 };

    /// These bytes are rejected with this error.
    ghost rejected_by: { List ℕ → Error → Type 0 };

    /// Reads a key from the whole slice. Ok: the key stands for the slice. Err: the type rejects the slice with this
    /// error.
    fn from_pkcs1_der(alloc: Global, bytes: &[u8]) -> Result<Self>
        ensures read { IfOk result (λ key. stands_for key bytes.now) }
        ensures rejected { IfErr result (λ e. rejected_by bytes.now e) };

    /// Reads the document that a file holds, and calls `from_pkcs1_der` on its bytes. Ok: the key stands for a
    /// document, which is all that the file opened at this path gave. Err: as of `Document::read_der_file`, so `File`
    /// if the file can't be opened or read, and `Overflow` if it has more bytes than `Length::MAX`; or the file gave a
    /// document that the type rejects with this error.
    fn read_pkcs1_der_file<F: FileSystem>(
        files: &mut F,
        alloc: Global,
        path: Path<'_>,
    ) -> Result<Self>
        ensures read { let gives = FileGives (F.opens (path_bytes path.entry)) F.Opened.remaining in
            IfOk result (λ key. (bytes : List ℕ) × gives bytes × IsDocument bytes × stands_for key bytes) }
        ensures rejected { let opens = F.opens (path_bytes path.entry) in
            IfErr result (λ e. IsAsn1 (λ file. FileFault opens F.Opened.remaining F.Opened.failures file.kind) e
            ⊎ ((bytes : List ℕ) × FileGives opens F.Opened.remaining bytes × IsDocument bytes × rejected_by bytes e)) }
        ensures called { F.calls files.new ≡ with_call (F.calls files.old) (opened (path_bytes path.entry)) }
    {
        let document = Document::read_der_file(files, alloc, path)?;
        Self::from_pkcs1_der(alloc, document.as_bytes())
    }
}

/// A private key that can be written as its PKCS #1 encoding (RFC 8017 A.1.2). A caller's own type says by `written_as`
/// how a key relates to its bytes, and by `unwritten_by` which keys an error rejects.
pub trait EncodeRsaPrivateKey {
    /// The key is written as these bytes.
    ghost written_as: { Self → List ℕ → Type 0 };

    /// The key isn't written, but rejected with this error.
    ghost unwritten_by: { Self → Error → Type 0 };

    /// Makes the encoding of the key. Ok: the key is written as what the document holds. Err: the type rejects the key
    /// with this error.
    fn to_pkcs1_der(&self, alloc: Global) -> Result<SecretDocument>
        ensures written { IfOk result (λ document. written_as self.now (encoding_of document)) }
        ensures rejected { IfErr result (λ e. unwritten_by self.now e) };

    /// Writes the encoding of the key to a file. Ok: the key is written as a document, which the file took, as of
    /// `Document::write_der_file`. Err: the type rejects the key with this error, and no file was created or truncated;
    /// or it is `File`, and the file refused that document. A failed write may leave a beginning.
    fn write_pkcs1_der_file<F: FileSystem>(
        &self,
        files: &mut F,
        alloc: Global,
        path: Path<'_>,
    ) -> Result<()>
        ensures written { let takes = FileTakes (F.creates (path_bytes path.entry)) F.Created.is_closed in
            OnOk result ((bytes : List ℕ) × takes F.Created.contents F.Created.is_flushed bytes × IsDocument bytes
            × written_as self.now bytes) }
        ensures called { OnOk result
            (F.calls files.new ≡ with_call (F.calls files.old) (created (path_bytes path.entry))) }
        ensures rejected { let refuses = FileRefuses (F.creates (path_bytes path.entry)) F.Created.is_closed in
            IfErr result (λ e. (unwritten_by self.now e × (F.calls files.new ≡ F.calls files.old))
            ⊎ (IsAsn1 IsFile e × (bytes : List ℕ) × IsDocument bytes
            × written_as self.now bytes × refuses F.Created.contents F.Created.failures bytes
            × (F.calls files.new ≡ with_call (F.calls files.old) (created (path_bytes path.entry))))) }
    {
        let secret = self.to_pkcs1_der(alloc)?;
        Ok(secret.write_der_file(files, path)?)
    }
}

/// A public key that can be written as its PKCS #1 encoding (RFC 8017 A.1.1). A caller's own type says by `written_as`
/// how a key relates to its bytes, and by `unwritten_by` which keys an error rejects.
pub trait EncodeRsaPublicKey {
    /// The key is written as these bytes.
    ghost written_as: { Self → List ℕ → Type 0 };

    /// The key isn't written, but rejected with this error.
    ghost unwritten_by: { Self → Error → Type 0 };

    /// Makes the encoding of the key. Ok: the key is written as what the document holds. Err: the type rejects the key
    /// with this error.
    fn to_pkcs1_der(&self, alloc: Global) -> Result<Document>
        ensures written { IfOk result (λ document. written_as self.now (encoding_of document)) }
        ensures rejected { IfErr result (λ e. unwritten_by self.now e) };

    /// Writes the encoding of the key to a file. Ok: the key is written as a document, which the file took, as of
    /// `Document::write_der_file`. Err: the type rejects the key with this error, and no file was created or truncated;
    /// or it is `File`, and the file refused that document. A failed write may leave a beginning.
    fn write_pkcs1_der_file<F: FileSystem>(
        &self,
        files: &mut F,
        alloc: Global,
        path: Path<'_>,
    ) -> Result<()>
        ensures written { let takes = FileTakes (F.creates (path_bytes path.entry)) F.Created.is_closed in
            OnOk result ((bytes : List ℕ) × takes F.Created.contents F.Created.is_flushed bytes × IsDocument bytes
            × written_as self.now bytes) }
        ensures called { OnOk result
            (F.calls files.new ≡ with_call (F.calls files.old) (created (path_bytes path.entry))) }
        ensures rejected { let refuses = FileRefuses (F.creates (path_bytes path.entry)) F.Created.is_closed in
            IfErr result (λ e. (unwritten_by self.now e × (F.calls files.new ≡ F.calls files.old))
            ⊎ (IsAsn1 IsFile e × (bytes : List ℕ) × IsDocument bytes
            × written_as self.now bytes × refuses F.Created.contents F.Created.failures bytes
            × (F.calls files.new ≡ with_call (F.calls files.old) (created (path_bytes path.entry))))) }
    {
        let document = self.to_pkcs1_der(alloc)?;
        Ok(document.write_der_file(files, path)?)
    }
}

impl DecodeRsaPrivateKey for RsaPrivateKey<Uint> {
    ghost stands_for = { λ key. PrivateKeyEncoding (held_private_key own_bytes_of key) };

    ghost rejected_by = { λ bytes e. let asked = OwnedKeyAllocates bytes in
        IsAsn1 (λ asn1. FaultOrMemory asn1.kind asked (rsa_private_key bytes ≡ Err asn1.kind)) e };

    /// Reads a private key, as `decode_owned_key` does.
    fn from_pkcs1_der(alloc: Global, bytes: &[u8]) -> Result<RsaPrivateKey<Uint>>
        ensures ok { let held = held_private_key own_bytes_of in
            IfOk result (λ key. Decodes PrivateKeyEncoding bytes.now (Some (held key))) }
        ensures err { IfErr result (Rejects PrivateKeyEncoding bytes.now (OwnedKeyAllocates bytes.now)) }
        ensures exact { let asked = OwnedKeyAllocates bytes.now in
            AnswersAsn1OrAsks (held_private_key own_bytes_of) (rsa_private_key bytes.now) asked result }
    {
        RsaPrivateKey::<Uint>::decode_owned_key(alloc, bytes)
    }
}

impl DecodeRsaPublicKey for RsaPublicKey<Uint> {
    ghost stands_for = { λ key. PublicKeyEncoding (held_public_key own_bytes_of key) };

    ghost rejected_by = { λ bytes e. let asked = OwnedPublicKeyAllocates bytes in
        IsAsn1 (λ asn1. FaultOrMemory asn1.kind asked (rsa_public_key bytes ≡ Err asn1.kind)) e };

    /// Reads a public key, whose numbers it copies. Ok only if the whole slice encodes one: then that key. Err: the
    /// first fault of a public key, or `OutOfMemory`, which comes only if the slice begins with a SEQUENCE that begins
    /// with a number.
    fn from_pkcs1_der(alloc: Global, bytes: &[u8]) -> Result<RsaPublicKey<Uint>>
        ensures ok { let held = held_public_key own_bytes_of in
            IfOk result (λ key. Decodes PublicKeyEncoding bytes.now (Some (held key))) }
        ensures err { IfErr result (Rejects PublicKeyEncoding bytes.now (OwnedPublicKeyAllocates bytes.now)) }
        ensures exact { let asked = OwnedPublicKeyAllocates bytes.now in
            AnswersAsn1OrAsks (held_public_key own_bytes_of) (rsa_public_key bytes.now) asked result }
    {
        Ok(RsaPublicKey::from_der(alloc, bytes)?)
    }
}

impl<U: Encode + UintEncoding> EncodeRsaPrivateKey for RsaPrivateKey<U> {
    ghost written_as = { λ key. IsShortest PrivateKeyEncoding (held_private_key U.number key) };

    ghost unwritten_by = { λ key. Withholds IsPrivateKey PrivateKeyEncoding (held_private_key U.number key) };

    /// Makes a document that holds the key's only encoding. `Value` of SEQUENCE exactly if the list of other primes is
    /// there but empty, which is looked at first. `Overflow` exactly if the encoding is longer than `Length::MAX`.
    /// Memory runs out only if there is an encoding that isn't.
    fn to_pkcs1_der(&self, alloc: Global) -> Result<SecretDocument>
        ensures encoding { let key = held_private_key U.number self.now in
            IfOk result (λ document. IsShortest PrivateKeyEncoding key (encoding_of document)) }
        ensures err { let key = held_private_key U.number self.now in
            IfErr result (Withholds IsPrivateKey PrivateKeyEncoding key) }
        ensures no_primes { ListsNone self.now.other_prime_infos
            → IsErrAnd result (IsAsn1 (λ e. e.kind ≡ ErrorKind.Value sequence_tag)) }
    {
        require_listed(&self.other_prime_infos)?;
        Ok(SecretDocument::encode_msg(alloc, self)?)
    }
}

impl<U: UintEncoding> EncodeRsaPublicKey for RsaPublicKey<U> {
    ghost written_as = { λ key. IsShortest PublicKeyEncoding (held_public_key U.number key) };

    ghost unwritten_by = { λ key. Withholds (λ _. ⊤) PublicKeyEncoding (held_public_key U.number key) };

    /// Makes a document that holds the key's only encoding. `Overflow` exactly if that is longer than `Length::MAX`.
    /// Memory runs out only if it isn't.
    fn to_pkcs1_der(&self, alloc: Global) -> Result<Document>
        ensures encoding { let key = held_public_key U.number self.now in
            IfOk result (λ document. IsShortest PublicKeyEncoding key (encoding_of document)) }
        ensures err { let key = held_public_key U.number self.now in
            IfErr result (Withholds (λ _. ⊤) PublicKeyEncoding key) }
    {
        Ok(Document::encode_msg(alloc, &self.as_key_ref())?)
    }
}
