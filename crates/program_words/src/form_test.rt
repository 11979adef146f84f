//! The test of the forms: which words have one. It compares texts, and takes no memory.

ghost use Rattle.std.specs.Prelude.{◌≡◌, ◌∷◌, [], ℕ, List, map};
ghost use Rattle.std.specs.Bool.{MatchBool};
ghost use Rattle.std.specs.String.{string_bytes};
ghost use Rattle.program_words.specs.Words.{AreNaming, AreOfNoForm, HaveForm, IsName, IsNumber, TakesImage, has_number_front};

/// The option that gives a name, in a word of its own.
const OPTION: &str = "--image";

/// The option that gives a name behind it, in the same word.
const OPTION_WITH_NAME: &str = "--image=";

/// Whether the words have a form.
pub(crate) fn have_form(words: &[String]) -> bool
    ensures { MatchBool result (HaveForm (map string_bytes words.now)) (AreOfNoForm (map string_bytes words.now)) }
{
    match words.split_first() {
        Some((word, options)) => {
            if word.as_str() == "drill" {
                give_number(options)
            } else if takes_image(word.as_str()) {
                give_name(options)
            } else {
                false
            }
        }
        None => false,
    }
}

/// Whether the form with this first word takes the name of an image.
fn takes_image(word: &str) -> bool
    ensures { MatchBool result (TakesImage word.now) (TakesImage word.now → ⊥) }
{
    word == "start" || word == "resume" || word == "check"
}

/// Whether the words behind a form's word give the name of an image.
fn give_name(options: &[String]) -> bool
    ensures { MatchBool result ((name : List ℕ) × AreNaming (map string_bytes options.now) name)
        ((name : List ℕ) → AreNaming (map string_bytes options.now) name → ⊥) }
{
    match options {
        [] => true,
        [option] => match option.as_str().strip_prefix(OPTION_WITH_NAME) {
            Some(name) => is_name(name),
            None => false,
        },
        [option, name] => {
            if option.as_str() == OPTION {
                is_name(name.as_str())
            } else {
                false
            }
        }
        _ => false,
    }
}

/// Whether the words behind `drill` are a number.
fn give_number(options: &[String]) -> bool
    ensures { MatchBool result ((number : ℕ) × (text : List ℕ) × (map string_bytes options.now ≡ text ∷ []) × IsNumber text number)
        ((number : ℕ) (text : List ℕ) → map string_bytes options.now ≡ text ∷ [] → IsNumber text number → ⊥) }
{
    match options {
        [word] => is_number(word.as_str()),
        _ => false,
    }
}

/// Whether an image may have this name.
fn is_name(name: &str) -> bool
    ensures { MatchBool result (IsName name.now) (IsName name.now → ⊥) }
{
    match name.as_bytes() {
        [] | [b'-', ..] => false,
        _ => true,
    }
}

/// Whether the word is a number of 64 bits.
fn is_number(word: &str) -> bool
    ensures { MatchBool result ((number : ℕ) × IsNumber word.now number) ((number : ℕ) → IsNumber word.now number → ⊥) }
{
    if has_number_front(word.as_bytes()) {
        word.parse::<u64>().is_ok()
    } else {
        false
    }
}

/// Whether a number may begin so: with no zero before other letters, and no plus.
fn has_number_front(word: &[u8]) -> bool
    ensures { result ≡ has_number_front word.now }
{
    match word {
        [] => false,
        [b'0', _, ..] => false,
        [first, ..] => *first != b'+',
    }
}
