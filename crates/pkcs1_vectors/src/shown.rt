//! Values as rows show them: numbers and contents in hexadecimal digits, `-` if absent.
use crate::told::Told;
use der_core::{
    AsUintRef, Borrowed, Containing, OctetStringRef, Tagged, Uint, UintEncoding, UintRef,
};
use pkcs1::{
    OaepParamsOf, OtherPrimeInfo, OtherPrimes, PssParamsOf, RsaPrivateKey, RsaPrivateKeyView,
    RsaPublicKey, TrailerField, Version,
};
use pkcs8_core::PrivateKeyInfoRef;
use spki_core::{AlgorithmIdentifierOf, Any, AnyRef, AnyValue, IdentifierValue, ObjectIdentifier};

/// A value that rows can show.
pub trait Shown {
    /// Shows all parts of the value.
    fn shown(&self, to: &mut Told);
}

impl Shown for u8 {
    fn shown(&self, to: &mut Told) {
        to.plain(*self);
    }
}

impl Shown for UintRef<'_> {
    fn shown(&self, to: &mut Told) {
        to.digits(self.as_bytes());
    }
}

impl Shown for Uint {
    fn shown(&self, to: &mut Told) {
        to.digits(self.as_bytes());
    }
}

impl Shown for OctetStringRef<'_> {
    fn shown(&self, to: &mut Told) {
        to.digits(self.as_bytes());
    }
}

impl<M, T: Shown> Shown for Tagged<M, Containing<T>> {
    fn shown(&self, to: &mut Told) {
        self.contents.0.shown(to);
    }
}

impl Shown for ObjectIdentifier {
    fn shown(&self, to: &mut Told) {
        to.digits(self.as_bytes());
    }
}

impl Shown for Version {
    fn shown(&self, to: &mut Told) {
        to.debug(self);
    }
}

impl Shown for TrailerField {
    fn shown(&self, to: &mut Told) {
        to.debug(self);
    }
}

impl Shown for AnyRef<'_> {
    fn shown(&self, to: &mut Told) {
        to.octets(&[self.tag().octet()]);
        to.text(":");
        to.octets(self.value());
    }
}

impl Shown for Any {
    fn shown(&self, to: &mut Told) {
        self.as_any_ref().shown(to);
    }
}

impl<O: IdentifierValue, P: Shown> Shown for AlgorithmIdentifierOf<O, P> {
    fn shown(&self, to: &mut Told) {
        self.oid
            .as_identifier_view()
            .to_object_identifier()
            .shown(to);
        to.text("/");
        match &self.parameters {
            Some(parameters) => parameters.shown(to),
            None => to.text("-"),
        }
    }
}

impl<T: Shown> Shown for Borrowed<'_, T> {
    fn shown(&self, to: &mut Told) {
        self.0.shown(to);
    }
}

impl<T: Shown> Shown for Vec<T> {
    fn shown(&self, to: &mut Told) {
        if self.is_empty() {
            to.text("none");
        }
        for item in self {
            to.text("[");
            item.shown(to);
            to.text("]");
        }
    }
}

impl<U: AsUintRef> Shown for RsaPublicKey<U> {
    fn shown(&self, to: &mut Told) {
        to.text("n=");
        self.modulus.as_uint_ref().shown(to);
        to.text(" e=");
        self.public_exponent.as_uint_ref().shown(to);
    }
}

impl<U: AsUintRef> Shown for OtherPrimeInfo<U> {
    fn shown(&self, to: &mut Told) {
        self.prime.as_uint_ref().shown(to);
        to.text(",");
        self.exponent.as_uint_ref().shown(to);
        to.text(",");
        self.coefficient.as_uint_ref().shown(to);
    }
}

/// The version and the eight numbers in order, each with its name.
fn numbers_shown(to: &mut Told, version: Version, numbers: [UintRef<'_>; 8]) {
    version.shown(to);
    for (name, number) in [" n=", " e=", " d=", " p=", " q=", " dp=", " dq=", " qi="]
        .iter()
        .zip(&numbers)
    {
        to.text(name);
        number.shown(to);
    }
    to.text(" others=");
}

impl<U: UintEncoding> Shown for RsaPrivateKey<U> {
    fn shown(&self, to: &mut Told) {
        let public = self.public_key();
        let numbers = [
            public.modulus,
            public.public_exponent,
            self.private_exponent.as_uint_ref(),
            self.prime1.as_uint_ref(),
            self.prime2.as_uint_ref(),
            self.exponent1.as_uint_ref(),
            self.exponent2.as_uint_ref(),
            self.coefficient.as_uint_ref(),
        ];
        numbers_shown(to, self.version(), numbers);
        match &self.other_prime_infos {
            Some(others) => others.shown(to),
            None => to.text("-"),
        }
    }
}

impl Shown for RsaPrivateKeyView<'_> {
    fn shown(&self, to: &mut Told) {
        let public = self.public_key();
        let numbers = [
            public.modulus,
            public.public_exponent,
            self.private_exponent(),
            self.prime1(),
            self.prime2(),
            self.exponent1(),
            self.exponent2(),
            self.coefficient(),
        ];
        numbers_shown(to, self.version(), numbers);
        self.other_primes().shown(to);
    }
}

impl Shown for OtherPrimes<'_> {
    /// The primes in order. Says so where `size_hint` or `len` isn't how many are left.
    fn shown(&self, to: &mut Told) {
        let mut primes = *self;
        let count = primes.remaining();
        if count == 0 {
            to.text("-");
        }
        for taken in 0..=count {
            let left = count.saturating_sub(taken);
            if primes.size_hint() != (left, Some(left)) || primes.len() != left {
                to.text("another number than ");
                to.number(left);
            }
            if let Some(prime) = primes.next() {
                to.text("[");
                prime.shown(to);
                to.text("]");
            }
        }
    }
}

impl Shown for PrivateKeyInfoRef<'_> {
    fn shown(&self, to: &mut Told) {
        self.algorithm.shown(to);
        to.text(" ");
        self.private_key.shown(to);
        to.text(" attributes=");
        match self.attributes() {
            Some(contents) => to.digits(contents),
            None => to.text("none"),
        }
    }
}

impl<O: IdentifierValue, P: AnyValue + Shown> Shown for PssParamsOf<O, P> {
    fn shown(&self, to: &mut Told) {
        to.text("hash=");
        self.hash.shown(to);
        to.text(" mask=");
        self.mask_gen.shown(to);
        to.text(" salt=");
        self.salt_len.shown(to);
        to.text(" trailer=");
        self.trailer_field.shown(to);
        to.text(" defaults=");
        self.default_fields().shown(to);
    }
}

impl<O: IdentifierValue, P: AnyValue + Shown> Shown for OaepParamsOf<O, P> {
    fn shown(&self, to: &mut Told) {
        to.text("hash=");
        self.hash.shown(to);
        to.text(" mask=");
        self.mask_gen.shown(to);
        to.text(" source=");
        self.p_source.shown(to);
        to.text(" defaults=");
        self.default_fields().shown(to);
    }
}
