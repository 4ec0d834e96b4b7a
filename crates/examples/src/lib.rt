//! The examples of the documents: uses of keys and parameters, and types of one's own over `der_core` and `spki_core`.
#![tactic(auto)]

mod authority_key_identifier;
mod by_grammar;
mod bytes;
mod counting_reader;
mod counting_writer;
mod digest_info;
mod dsa;
mod dss_sig;
mod errors;
mod extension;
mod files;
mod hashing_writer;
mod implicit_pair;
mod in_memory;
mod kept_key;
mod key_number;
mod key_store;
mod number_list;
mod optional_salt;
mod primes;
mod sha3;
mod signatures;
mod sizes;

pub use authority_key_identifier::{
    AuthorityKeyIdentifier, IssuerTag, KeyIdentifierTag, SerialNumberTag, read_authority_key,
    write_authority_key,
};
pub use by_grammar::{read_signature, write_signature};
pub use bytes::{modulus_of, public_half};
pub use counting_reader::{CountingReader, NoHeap, read_number};
pub use counting_writer::{CountingWriter, write_number};
pub use digest_info::{DigestInfo, DigestInfoRef, read_digest_info, write_digest_info};
pub use dsa::{DsaAlgorithmRef, DsaParams, DsaParamsRef, read_dsa_algorithm, write_dsa_algorithm};
pub use dss_sig::{DssSigValue, DssSigValueRef, read, write};
pub use errors::Advice;
pub use extension::{Extension, ExtensionRef, True, read_extension, write_extension};
pub use files::publish;
pub use hashing_writer::{HashingWriter, hash_of};
pub use implicit_pair::{ImplicitPair, ImplicitPairRef, ImplicitTag, read_pair, write_pair};
pub use in_memory::{Bytes, Taken, copy_document};
pub use kept_key::KeptKey;
pub use key_number::{KeyNumber, write_public_key};
pub use key_store::{StoreError, copy_long_keys, long_entries};
pub use number_list::{NumberList, NumberListRef, read_number_list, write_number_list};
pub use optional_salt::{OptionalSalt, OptionalSaltRef, read_optional_salt, write_optional_salt};
pub use primes::primes_of;
pub use sha3::{Digest, Sha3_256, is_by_sha3_256};
pub use signatures::{is_accepted, salt_with_sha256};
pub use sizes::{modulus_len, salt_len};
