//! The words of rows, by their parameters. Each function returns whether the word is one of its own.
use crate::damaged::{self, Oaep, Private, Pss, Public};
use crate::fields::{self, Part};
use crate::into::{into_all, into_both, read_into};
use crate::read::{borrowed, both, owned, read};
use crate::spellings::{spell, spellings};
use crate::told::Told;
use crate::written::written;
use crate::{
    algorithms, asked, containers, errors, identifiers, keys, lengths, named, parameters, records,
    values,
};
use der_core::{Containing, OctetStringRef, OctetStringTag, Tagged, Uint, UintRef};
use examples::is_accepted;
use pkcs1::hash_functions::{Sha1, Sha256};
use pkcs1::{
    OtherPrimeInfo, RsaOaepParamsOwned, RsaOaepParamsRef, RsaOaepParamsView, RsaPrivateKeyOwned,
    RsaPrivateKeyRef, RsaPssParamsOwned, RsaPssParamsRef, RsaPssParamsView, RsaPublicKeyRef,
    TrailerField, Version, algorithm_id,
};
use pkcs8_core::PrivateKeyInfoRef;
use spki_core::{AlgorithmIdentifier, AlgorithmIdentifierRef, Any, AnyRef, ObjectIdentifier};

/// Words without parameters.
pub fn alone(to: &mut Told, word: &str) -> bool {
    match word {
        "length-max" => lengths::max(to),
        "any-null" => written(to, &AnyRef::null()),
        "algorithm-rsa" => written(to, &algorithm_id()),
        "trailer-default" => written(to, &TrailerField::default()),
        "pss-default" => parameters::pss_default(to),
        "oaep-default" => parameters::oaep_default(to),
        "new-oaep-sha1" => parameters::new_oaep::<Sha1>(to),
        "new-oaep-sha256" => parameters::new_oaep::<Sha256>(to),
        _ => return false,
    }
    true
}

/// Words with a name.
pub fn of_name(to: &mut Told, word: &str, name: &str) -> bool {
    match word {
        "tag-named" => lengths::named(to, name),
        "oid-named" => named::oid_named(to, name),
        "kind" => errors::kind(to, name),
        "error" => errors::error(to, name),
        _ => return false,
    }
    true
}

/// Words with a number.
pub fn of_number(to: &mut Told, word: &str, number: usize) -> bool {
    match word {
        "length-of" => lengths::length_of(to, number),
        "length-tlv" => lengths::for_tlv(to, number),
        "tag-context" => lengths::context(to, number),
        "small-new" => values::small_new(to, number),
        "version-new" => keys::version_new(to, number),
        "pub-filled" => keys::filled(to, number),
        "new-pss-sha1" => parameters::new_pss::<Sha1>(to, number),
        "new-pss-sha256" => parameters::new_pss::<Sha256>(to, number),
        "label-fits-sha1" => to.yes_or_no(RsaOaepParamsRef::label_fits::<Sha1>(number)),
        "label-fits-sha256" => to.yes_or_no(RsaOaepParamsRef::label_fits::<Sha256>(number)),
        _ => return false,
    }
    true
}

/// Words with bytes.
pub fn of_bytes(to: &mut Told, word: &str, bytes: &[u8]) -> bool {
    of_kernel_text(to, word, bytes)
        || of_algorithm_text(to, word, bytes)
        || of_key_text(to, word, bytes)
        || of_parameter_text(to, word, bytes)
        || of_identifier_text(to, word, bytes)
        || of_record_text(to, word, bytes)
        || of_damaged_text(to, word, bytes)
}

/// Lengths, tags, headers, INTEGERs, OCTET STRINGs, lists, documents, last parts.
fn of_kernel_text(to: &mut Told, word: &str, bytes: &[u8]) -> bool {
    match word {
        "length" => lengths::length(to, bytes),
        "tag" => lengths::tag(to, bytes),
        "header" => lengths::header(to, bytes),
        "uint" => both::<UintRef, Uint>(to, bytes),
        "uint-new" => values::uint_new(to, bytes),
        "bits" => values::bits(to, bytes),
        "uints" => owned::<Vec<Uint>>(to, bytes),
        "small" => borrowed::<u8>(to, bytes),
        "octets" => borrowed::<OctetStringRef>(to, bytes),
        "octets-new" => values::octets_new(to, bytes),
        "octets-holding" => borrowed::<Tagged<OctetStringTag, Containing<UintRef>>>(to, bytes),
        "document" => values::document(to, bytes),
        "optional" => fields::read_part(to, bytes, Part::Optional),
        "whole" => fields::read_part(to, bytes, Part::Whole),
        "last" => fields::read_part(to, bytes, Part::Last),
        _ => return false,
    }
    true
}

/// Object identifiers, encodings of any tag, algorithms. A mask is an algorithm whose parameters are another one.
fn of_algorithm_text(to: &mut Told, word: &str, bytes: &[u8]) -> bool {
    match word {
        "oid" => borrowed::<ObjectIdentifier>(to, bytes),
        "oid-new" => algorithms::oid_new(to, bytes),
        "any" => algorithms::any(to, bytes),
        "anys" => owned::<Vec<Any>>(to, bytes),
        "algorithm" => algorithms::algorithm(to, bytes),
        "algorithms" => owned::<Vec<AlgorithmIdentifier<Any>>>(to, bytes),
        "mask" => both::<
            AlgorithmIdentifier<AlgorithmIdentifierRef>,
            AlgorithmIdentifier<AlgorithmIdentifier<Any>>,
        >(to, bytes),
        _ => return false,
    }
    true
}

/// Types of one's own.
fn of_record_text(to: &mut Told, word: &str, bytes: &[u8]) -> bool {
    match word {
        "extension" => records::extension(to, bytes),
        "digest-info" => records::digest_info(to, bytes),
        "dsa" => records::dsa_algorithm(to, bytes),
        "implicit-pair" => records::implicit_pair(to, bytes),
        "authority-key" => records::authority_key(to, bytes),
        "key-store" => records::key_store(to, bytes),
        _ => return false,
    }
    true
}

/// Keys and containers.
fn of_key_text(to: &mut Told, word: &str, bytes: &[u8]) -> bool {
    match word {
        "version" => borrowed::<Version>(to, bytes),
        "pub" => keys::public_key(to, bytes),
        "pub-error" => keys::public_error(to, bytes),
        "priv" => keys::private_key(to, bytes),
        "priv-rooms" => keys::rooms(to, bytes),
        "priv-octets" => keys::from_octets(to, bytes),
        "priv-pub" => keys::public_of_private(to, bytes),
        "priv-debug" => keys::debug(to, bytes),
        "prime" => both::<OtherPrimeInfo<UintRef>, OtherPrimeInfo<Uint>>(to, bytes),
        "primes" => keys::other_primes(to, bytes),
        "info" => containers::info(to, bytes),
        _ => return false,
    }
    true
}

/// Parameters, also read strictly, their hash functions and labels.
fn of_parameter_text(to: &mut Told, word: &str, bytes: &[u8]) -> bool {
    match word {
        "trailer" => borrowed::<TrailerField>(to, bytes),
        "pss" => parameters::pss(to, bytes),
        "pss-strict" => read(to, bytes, RsaPssParamsRef::from_der_strict(bytes)),
        "pss-spellings" => spellings::<RsaPssParamsRef, RsaPssParamsOwned, RsaPssParamsView>(
            to, bytes,
        ),
        "oaep" => parameters::oaep(to, bytes),
        "oaep-strict" => read(to, bytes, RsaOaepParamsRef::from_der_strict(bytes)),
        "oaep-spellings" => spellings::<RsaOaepParamsRef, RsaOaepParamsOwned, RsaOaepParamsView>(
            to, bytes,
        ),
        "label-sha1" => parameters::with_label::<Sha1>(to, bytes),
        "label-sha256" => parameters::with_label::<Sha256>(to, bytes),
        "pss-hash" => named::pss_hash(to, bytes),
        "oaep-hash" => named::oaep_hash(to, bytes),
        "oaep-label" => asked::oaep_label(to, bytes),
        _ => return false,
    }
    true
}

/// Parameters in their algorithm identifiers, also read strictly or with a policy, and identifiers of hash functions.
fn of_identifier_text(to: &mut Told, word: &str, bytes: &[u8]) -> bool {
    match word {
        "pss-algorithm" => identifiers::pss_algorithm(to, bytes),
        "pss-algorithm-strict" => identifiers::pss_strict(to, bytes),
        "oaep-algorithm" => identifiers::oaep_algorithm(to, bytes),
        "oaep-algorithm-strict" => identifiers::oaep_strict(to, bytes),
        "is-sha256" => identifiers::is_sha256(to, bytes),
        "pss-accepted" => to.yes_or_no(is_accepted(bytes)),
        _ => return false,
    }
    true
}

/// Damaged encodings.
fn of_damaged_text(to: &mut Told, word: &str, bytes: &[u8]) -> bool {
    match word {
        "changed-pub" => damaged::changed::<Public>(to, bytes),
        "changed-priv" => damaged::changed::<Private>(to, bytes),
        "changed-pss" => damaged::changed::<Pss>(to, bytes),
        "changed-oaep" => damaged::changed::<Oaep>(to, bytes),
        "types" => damaged::types(to, bytes),
        _ => return false,
    }
    true
}

/// Words with two numbers.
pub fn of_numbers(to: &mut Told, word: &str, first: usize, second: usize) -> bool {
    match word {
        "length-sum" => lengths::sum(to, first, second),
        "field-new" => fields::field_new(to, first, second),
        _ => return false,
    }
    true
}

/// Words with a number, mostly the length of a slice, and bytes. `TYPE-into N HEX`: what a slice of N bytes holds after
/// writing the value that the bytes mean.
pub fn of_room(to: &mut Told, word: &str, room: usize, bytes: &[u8]) -> bool {
    match word {
        "field" => fields::field(to, room, bytes),
        "pub-into" => read_into::<RsaPublicKeyRef>(to, room, bytes),
        "priv-into" => into_both::<RsaPrivateKeyRef, RsaPrivateKeyOwned>(to, room, bytes),
        "priv-empty-list" => keys::empty_list(to, room, bytes),
        "info-into" => read_into::<PrivateKeyInfoRef>(to, room, bytes),
        "pss-into" => into_all::<RsaPssParamsRef, RsaPssParamsOwned, RsaPssParamsView>(
            to, room, bytes,
        ),
        "oaep-into" => into_all::<RsaOaepParamsRef, RsaOaepParamsOwned, RsaOaepParamsView>(
            to, room, bytes,
        ),
        _ => return false,
    }
    true
}

/// Words with two byte strings. In words that read contents under another tag, the first is the tag's octet.
pub fn of_texts(to: &mut Told, word: &str, first: &[u8], second: &[u8]) -> bool {
    match word {
        "any-new" => algorithms::any_new(to, first, second),
        "as-small" => algorithms::read_as::<u8>(to, first, second),
        "as-uint" => algorithms::read_as::<UintRef>(to, first, second),
        "as-octets" => algorithms::read_as::<OctetStringRef>(to, first, second),
        "as-pub" => algorithms::read_as::<RsaPublicKeyRef>(to, first, second),
        "assert-oid" => algorithms::asserted(to, first, second),
        "pss-same" => parameters::pss_same(to, first, second),
        "oaep-same" => parameters::oaep_same(to, first, second),
        "same-hash" => asked::same_hash(to, first, second),
        "pss-means-same" => asked::pss_means_same(to, first, second),
        "oaep-means-same" => asked::oaep_means_same(to, first, second),
        _ => return false,
    }
    true
}

/// Words with a mask, the length of a slice, and bytes.
pub fn of_mask(to: &mut Told, word: &str, mask: u8, room: usize, bytes: &[u8]) -> bool {
    match word {
        "pss-spell" => spell::<RsaPssParamsRef, RsaPssParamsView>(to, mask, room, bytes),
        "oaep-spell" => spell::<RsaOaepParamsRef, RsaOaepParamsView>(to, mask, room, bytes),
        _ => return false,
    }
    true
}

/// Words with a number and a list of byte strings.
pub fn of_list(to: &mut Told, word: &str, number: u32, texts: &[Vec<u8>]) -> bool {
    match word {
        "joined-pss" => damaged::joined::<Pss>(to, number, texts),
        "joined-oaep" => damaged::joined::<Oaep>(to, number, texts),
        _ => return false,
    }
    true
}
