//! An example as a crate of its own: RSA keys in SubjectPublicKeyInfo.
#![tactic(auto)]

mod info;
mod rsa;

pub use info::SubjectPublicKeyInfo;
pub use rsa::{RsaKeyInfoRef, key_from_info, key_to_info};
