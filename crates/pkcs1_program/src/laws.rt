//! A law of outputs: a function that does nothing, with the law as its contract.
ghost use Rattle.std.specs.Prelude.{ℕ, List};
ghost use Rattle.der_core.specs.Words.{HasAtMostOne};
ghost use Rattle.pkcs1_program.specs.Words.{Answer, Outputs};

use pkcs1::{lemma_encodings_are_delimited, lemma_oaep_spellings, lemma_pss_spellings};
use pkcs8_core::lemma_containers_have_one_encoding;

/// A line has at most one output, and so has a list of lines.
pub fn lemma_answers_are_one()
    ensures { ((line : List ℕ) → HasAtMostOne (Answer line))
        × ((lines : List (List ℕ)) → HasAtMostOne (Outputs lines)) }
{
    lemma_encodings_are_delimited();
    lemma_containers_have_one_encoding();
    lemma_pss_spellings();
    lemma_oaep_spellings();
}
