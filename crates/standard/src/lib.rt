//! What is proved of the library, as definitions: `specs/Statement.antt` says which octets encode which values, and what
//! reading and writing promise. The crate has no code and needs no other. All other crates stand on it.
#![tactic(auto)]
