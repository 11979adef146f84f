//! Pieces of bytes round a separator: the lines of a text, the words of a line, the two numbers of an item.
//! Each look for a separator goes over the piece that it finds and no further.

ghost use Rattle.std.specs.Prelude.{◌≡◌, ◌∷◌, ◌<◌, length, IfSome, IfNone, codes, false, option_copied, ◌==◌, position};
ghost use Rattle.std.specs.Str.{bytes_eq};
ghost use Rattle.script_text.specs.Pieces.{pieces, pieces_behind, words, begins_list, AreWords};

/// The first piece, and the bytes behind its separator, where there is one.
pub fn first_piece(bytes: &[u8], at: u8) -> (&[u8], Option<&[u8]>)
    ensures shorter { IfSome result.1 (λ rest. length rest.now < length bytes.now) }
    ensures cut { pieces at bytes.now ≡ result.0.now ∷ pieces_behind at (option_copied result.1) }
{
    match place_of(bytes, at) {
        Some(end) => (&bytes[..end], Some(&bytes[end + 1..])),
        None => (bytes, None),
    }
}

// Where the separator comes first.
fn place_of(bytes: &[u8], at: u8) -> Option<usize>
    ensures { result ≡ position (λ b. b == at) bytes.now }
{
    bytes.iter().position(|b| *b == at)
}

/// The words of a line, as far as any form of a line has need of them.
#[derive(Clone, Copy, Debug)]
pub enum Words<'a> {
    One(&'a [u8]),
    Two(&'a [u8], &'a [u8]),
    Three(&'a [u8], &'a [u8], &'a [u8]),
    Four(&'a [u8], &'a [u8], &'a [u8], &'a [u8]),
    More,
}

/// The words of a line, which stand between single spaces.
pub fn words_of(line: &[u8]) -> Words<'_>
    ensures { AreWords result (words line.now) }
{
    let (first, rest) = first_piece(line, b' ');
    let Some(rest) = rest else {
        return Words::One(first);
    };
    let (second, rest) = first_piece(rest, b' ');
    let Some(rest) = rest else {
        return Words::Two(first, second);
    };
    let (third, rest) = first_piece(rest, b' ');
    let Some(rest) = rest else {
        return Words::Three(first, second, third);
    };
    let (fourth, rest) = first_piece(rest, b' ');
    match rest {
        Some(_) => Words::More,
        None => Words::Four(first, second, third, fourth),
    }
}

/// Whether a word is this name.
pub fn is_word(word: &[u8], name: &str) -> bool
    ensures { result ≡ bytes_eq word.now name.now }
{
    word == name.as_bytes()
}

/// Of a line whose first words are this name and `list`, what follows them: none, or the words of the list.
pub fn list_behind<'a>(line: &'a [u8], name: &str) -> Option<Option<&'a [u8]>>
    ensures list { IfSome result (λ rest. words line.now ≡ name.now ∷ codes "list" ∷ pieces_behind 32 (option_copied rest)) }
    ensures other { IfNone result (begins_list name.now (words line.now) ≡ false) }
{
    let (first, rest) = first_piece(line, b' ');
    let rest = rest?;
    let (second, rest) = first_piece(rest, b' ');
    if is_word(first, name) && is_word(second, "list") {
        return Some(rest);
    }
    None
}
