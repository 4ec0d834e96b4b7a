//! What errors mean for the caller.
ghost use Rattle.std.specs.Prelude.{◌≡◌};
ghost use Rattle.der_core.specs.Words.{TellsOfBytes, IsFile};
ghost use Rattle.pkcs1_params.specs.Words.{IsAsn1};

use pkcs1::Error;
use pkcs1::der::ErrorKind;

/// What to do after an error.
#[derive(Clone, Copy, Debug, PartialEq, Eq)]
pub enum Advice {
    /// Memory ran out. A later call may succeed.
    TryAgain,
    /// The file couldn't be opened, read, created or written.
    LookAtTheFile,
    /// The bytes are no key, or the key has no encoding.
    LookAtTheKey,
}

impl Advice {
    /// What to do after this error.
    pub fn after(error: &Error) -> Advice
        ensures memory { IsAsn1 (λ e. e.kind ≡ ErrorKind.OutOfMemory) error.now → result ≡ Advice.TryAgain }
        ensures file { IsAsn1 IsFile error.now → result ≡ Advice.LookAtTheFile }
        ensures bytes { IsAsn1 (λ e. TellsOfBytes e.kind) error.now → result ≡ Advice.LookAtTheKey }
        ensures version { error.now ≡ Error.Version → result ≡ Advice.LookAtTheKey }
    {
        match error {
            Error::Asn1(inner) => match inner.kind() {
                ErrorKind::OutOfMemory => Advice::TryAgain,
                ErrorKind::File => Advice::LookAtTheFile,
                _ => Advice::LookAtTheKey,
            },
            _ => Advice::LookAtTheKey,
        }
    }
}
