//! What receives an encoding from its end to its start: a slice that is filled, or a counter.
ghost use Rattle.std.specs.Prelude.{◌≡◌, ◌≤◌, ◌++◌, [], List, ℕ, length};
ghost use Rattle.der_core.specs.Words.{tlv};

use crate::tag::Tag;

/// Receives octets, each time in front of those that it received before.
pub trait Prepend {
    /// Whether it has room for so many octets more.
    ghost has_room: { Self → ℕ → Type 0 };

    /// Whether it receives an encoding of so many octets: one within `Length::MAX`, unless headers are only counted.
    ghost length_fits: { ℕ → Type 0 };

    /// How many octets it received.
    ghost filled: { Self → ℕ };

    /// The octets were received, in front of those before.
    ghost prepended: { List ℕ → Self → Self → Type 0 };

    /// How many octets it received.
    fn filled_len(&self) -> u64
        ensures { result ≡ filled self.now };

    /// Receives the octets in front of those before. There has to be room for them.
    fn prepend(&mut self, bytes: &[u8])
        requires { has_room self.old (length bytes.now) }
        ensures { prepended bytes.now self.old self.new };

    /// Receives the header of the contents that it received since `filled_len` was `before`. There has to have been room
    /// for both, and their length has to fit.
    fn prepend_header(&mut self, tag: Tag, before: u64)
        requires { (contents : List ℕ) × (start : Self) × prepended contents start self.old × (before ≡ filled start)
            × let n = length (tlv tag.octet contents) in has_room start n × length_fits n }
        ensures { (contents : List ℕ) (start : Self) → prepended contents start self.old → before ≡ filled start
            → (let n = length (tlv tag.octet contents) in has_room start n × length_fits n)
            → prepended (tlv tag.octet contents) start self.new };

    /// By doing nothing no octets are received.
    ghost prepended_nothing: { (w : Self) → prepended [] w w };

    /// What was received in two steps was received by both together.
    ghost prepended_through: { (a b : List ℕ) (u v w : Self) → prepended b u v → prepended a v w
        → prepended (a ++ b) u w };

    /// Where there is room for octets, there is for the last of them, and then for those in front. The lengths of both
    /// fit if that of the whole does.
    ghost room_for_parts: { (a b : List ℕ) (u : Self)
        → has_room u (length (a ++ b)) × length_fits (length (a ++ b))
        → (has_room u (length b) × length_fits (length b))
        × ((v : Self) → prepended b u v → has_room v (length a) × length_fits (length a)) };
}
