//! Worked rows of the definitions that contracts lead to: `Statement.antt` of `standard`, what values hold, as `Held.antt`
//! of `pkcs1`, and the relations of reading, writing and files, as `Reading.antt` of `der_core` and `Replaced.antt` of
//! `pkcs1_program`. The crate has no code, and no crate stands on it: a row more proves no other crate again.
#![tactic(auto)]
