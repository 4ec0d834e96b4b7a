//! Other ways to a key, for the words of `keys.rt`: the view, documents, and the traits that callers' own types can
//! implement.
use crate::shown::Shown;
use crate::told::{PrintedError, Told};
use pkcs1::{
    DecodeRsaPrivateKey, DecodeRsaPublicKey, EncodeRsaPrivateKey, EncodeRsaPublicKey,
    RsaPrivateKeyOwned, RsaPrivateKeyView, RsaPublicKeyOwned,
};

/// The bytes of a document, if they differ from the row's.
fn document(to: &mut Told, bytes: &[u8], held: &[u8]) {
    if held != bytes {
        to.text("; document: ");
        to.digits(held);
    }
}

/// `priv` by the view, which has to keep the bytes.
pub fn viewed(to: &mut Told, bytes: &[u8]) {
    match RsaPrivateKeyView::try_from(bytes) {
        Ok(view) if view.as_bytes() == bytes => view.shown(to),
        Ok(_) => to.text("other bytes"),
        Err(error) => error.told(to),
    }
}

/// A private key by the traits, and its document if that differs from the row's bytes.
pub fn private_der(to: &mut Told, bytes: &[u8]) {
    match RsaPrivateKeyOwned::from_pkcs1_der(to.alloc(), bytes) {
        Ok(key) => match key.to_pkcs1_der(to.alloc()) {
            Ok(der) => {
                key.shown(to);
                document(to, bytes, der.as_bytes());
            }
            Err(error) => error.told(to),
        },
        Err(error) => error.told(to),
    }
}

/// A public key by the traits, and its document if that differs from the row's bytes.
pub fn public_der(to: &mut Told, bytes: &[u8]) {
    match RsaPublicKeyOwned::from_pkcs1_der(to.alloc(), bytes) {
        Ok(key) => match key.to_pkcs1_der(to.alloc()) {
            Ok(der) => {
                key.shown(to);
                document(to, bytes, der.as_bytes());
            }
            Err(error) => error.told(to),
        },
        Err(error) => error.told(to),
    }
}
