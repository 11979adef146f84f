//! What `clap` makes of words that have a form.

ghost use Rattle.std.specs.Prelude.{◌≡◌, ℕ, List, IfOk, IfErr, MatchOption, map};
ghost use Rattle.std.specs.String.{string_bytes};
ghost use Rattle.clap.specs.Words.{kind_of, subcommand_rows_of};
ghost use Rattle.clap.specs.declared.error.kind.ErrorKind.TheVariants.{OutOfMemory};
ghost use Rattle.program_words.specs.Words.{AreOfNoForm, AreWordsOf, HaveForm};
ghost use Rattle.program_words.specs.Commands.{Tells};

use crate::command::program;
use crate::form::Form;
use clap::{ArgMatches, Error};
use life_model::Life;
use std::alloc::Global;

/// The matches of the words.
pub fn matches_of<'a>(alloc: Global, words: &'a [String]) -> Result<ArgMatches<'a>, Error>
    ensures told { HaveForm (map string_bytes words.now)
        → IfOk result (λ matches. Tells (map string_bytes words.now) (subcommand_rows_of matches)) }
    ensures want { HaveForm (map string_bytes words.now) → IfErr result (λ error. kind_of error ≡ OutOfMemory) }
{
    let command = program(alloc)?;
    command.try_get_matches_from(words)
}

/// The form that matches tell of.
pub fn form_in<'a>(matches: &ArgMatches<'a>) -> Option<Form<'a>>
    ensures { (words : List (List ℕ)) → Tells words (subcommand_rows_of matches.now)
        → MatchOption result (AreOfNoForm words) (AreWordsOf words) }
{
    let (word, inner) = matches.subcommand()?;
    if word == "drill" {
        return Some(Form::Drill {
            number: inner.get_one::<u64>("number")?,
        });
    }
    let image = inner.get_str("image")?;
    if word == "start" {
        Some(Form::Lead {
            life: Life::Start,
            image,
        })
    } else if word == "resume" {
        Some(Form::Lead {
            life: Life::Resume,
            image,
        })
    } else if word == "check" {
        Some(Form::Check { image })
    } else {
        None
    }
}
