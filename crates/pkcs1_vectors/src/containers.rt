//! The words of rows about containers of private keys (PKCS #8): each public function with a `Told` writes a row's
//! output to it, or the trouble for which there is none.
use crate::read::{borrowed, compared, read, shown};
use crate::told::Told;
use pkcs8_core::{PrivateKeyInfoRef, fault_of_private_key_info, rsa_from_pkcs8_der};

/// The key in the container, by the view and by the struct with a list.
fn key_inside(to: &mut Told, info: &PrivateKeyInfoRef<'_>) {
    shown(to, info.rsa_view());
    to.way("rsa_key");
    let alloc = to.alloc();
    shown(to, info.rsa_key(alloc));
}

/// The key in the container with this encoding.
fn key_of(to: &mut Told, bytes: &[u8]) {
    to.way("rsa_from_pkcs8_der");
    shown(to, rsa_from_pkcs8_der(bytes));
}

/// `info HEX`: a container, its algorithm and attributes, and the key in it.
pub fn info(to: &mut Told, bytes: &[u8]) {
    borrowed::<PrivateKeyInfoRef>(to, bytes);
    to.way("try_from");
    read(to, bytes, PrivateKeyInfoRef::try_from(bytes));
    match PrivateKeyInfoRef::try_from(bytes) {
        Ok(info) => {
            let mut key = Told::new(to.alloc());
            key_inside(&mut key, &info);
            key_of(&mut key, bytes);
            to.rest();
            to.text("; ");
            to.answered(key.answer());
        }
        Err(_) => key_of(to, bytes),
    }
    let answer = PrivateKeyInfoRef::try_from(bytes).map_err(pkcs1::Error::from);
    compared(to, answer, fault_of_private_key_info(bytes));
}
