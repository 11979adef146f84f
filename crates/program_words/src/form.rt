//! What the words ask for.

ghost use Rattle.std.specs.Prelude.{IfOk, IfErr, MatchOption, map};
ghost use Rattle.std.specs.String.{string_bytes};
ghost use Rattle.program_words.specs.Words.{AreOfNoForm, AreWordsOf, HaveForm};

use crate::form_test::have_form;
use crate::matching::{form_in, matches_of};
use life_model::Life;
use std::alloc::{AllocError, Global};

/// What the words ask for.
#[derive(Clone, Copy, Debug, PartialEq, Eq)]
pub enum Form<'a> {
    /// A life of this kind, whose image is kept under this name; a resume goes on from the image that was kept there.
    Lead { life: Life, image: &'a str },
    /// The judgement of the image under this name.
    Check { image: &'a str },
    /// The drill of this number.
    Drill { number: u64 },
}

/// The form that the words after the program's name have; none where they have no form. Memory is wanted only for words that have one.
pub fn form_of<'a>(alloc: Global, words: &'a [String]) -> Result<Option<Form<'a>>, AllocError>
    ensures form { IfOk result (λ form.
        MatchOption form (AreOfNoForm (map string_bytes words.now)) (AreWordsOf (map string_bytes words.now))) }
    ensures want { IfErr result (λ _. HaveForm (map string_bytes words.now)) }
{
    if !have_form(words) {
        return Ok(None);
    }
    match matches_of(alloc, words) {
        Ok(matches) => Ok(form_in(&matches)),
        Err(_) => Err(AllocError),
    }
}
