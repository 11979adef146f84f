//! Words that have a form, and words that have none, by hand.

use crate::command::program;
use crate::{Form, form_of};
use life_model::Life;
use std::alloc::{AllocError, Global};
use std::test::Fail;

/// The words of a text, which stand between single spaces; so an empty text is one empty word.
fn words_in(alloc: Global, text: &str) -> Result<Vec<String>, AllocError> {
    let mut words = Vec::new(alloc);
    for word in text.split(' ') {
        words.push(String::from_str(alloc, word)?)?;
    }
    Ok(words)
}

#[test]
fn words_of_each_form(rt: HostRuntime) -> Result<(), Fail> {
    let start = |image| Form::Lead {
        life: Life::Start,
        image,
    };
    let resume = |image| Form::Lead {
        life: Life::Resume,
        image,
    };
    let check = |image| Form::Check { image };
    let drill = |number| Form::Drill { number };
    for (text, form) in [
        ("start", start("respct.image")),
        ("resume", resume("respct.image")),
        ("check", check("respct.image")),
        ("start --image a", start("a")),
        ("start --image=a-b", start("a-b")),
        ("resume --image a=b", resume("a=b")),
        ("resume --image==", resume("=")),
        ("check --image a,b", check("a,b")),
        ("check --image=a/b.c", check("a/b.c")),
        ("start --image start", start("start")),
        ("check --image help", check("help")),
        ("start --image é☃𝄞", start("é☃𝄞")),
        ("resume --image=é☃𝄞", resume("é☃𝄞")),
        ("drill 0", drill(0)),
        ("drill 10", drill(10)),
        ("drill 18446744073709551615", drill(u64::MAX)),
    ] {
        let words = words_in(rt.alloc(), text)?;
        assert!(rt; form_of(rt.alloc(), &words)? == Some(form), "at {text:?}");
    }
    Ok(())
}

/// Whether these words have no form, and whether `clap` takes them.
fn judged(alloc: Global, words: &[String]) -> Result<(bool, bool), AllocError> {
    let formless = form_of(alloc, words)?.is_none();
    let taken = program(alloc)?.try_get_matches_from(words).is_ok();
    Ok((formless, taken))
}

#[test]
fn words_that_clap_takes_and_that_have_no_form(rt: HostRuntime) -> Result<(), Fail> {
    for text in [
        "start --image=",
        "start --image ",
        "start --image=-x",
        "resume --image -",
        "check --",
        "drill 01",
        "drill 00",
        "drill +1",
        "drill -- 1",
    ] {
        let words = words_in(rt.alloc(), text)?;
        assert_eq!(rt; judged(rt.alloc(), &words)?, (true, true), "at {text:?}");
    }
    assert_eq!(rt; judged(rt.alloc(), &[])?, (true, true));
    Ok(())
}

#[test]
fn words_that_clap_refuses(rt: HostRuntime) -> Result<(), Fail> {
    for text in [
        "",
        " ",
        "begin",
        "START",
        "starts",
        " start",
        "start ",
        "start x",
        "start -i a",
        "start --image",
        "start --image -x",
        "start --imag a",
        "start --image a b",
        "start --image a --image b",
        "start --image=a --image=b",
        "start resume",
        "resume --image",
        "check a --image b",
        "--image a start",
        "--image=a",
        "--help",
        "-h",
        "help",
        "help start",
        "--version",
        "start --help",
        "drill",
        "drill ",
        "drill x",
        "drill -1",
        "drill 1x",
        "drill 0x1",
        "drill 1 2",
        "drill 18446744073709551616",
        "drill ١",
        "drill --image a",
        "drill=1",
        "drills 1",
    ] {
        let words = words_in(rt.alloc(), text)?;
        assert_eq!(rt; judged(rt.alloc(), &words)?, (true, false), "at {text:?}");
    }
    Ok(())
}
