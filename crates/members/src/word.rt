// A text of the sheet against words that the program knows.
ghost use Rattle.std.specs.Prelude.{◌≡◌, position, slice_get};
ghost use Rattle.json_text.specs.Bytes.{is_one_of, same_bytes};
ghost use Rattle.json_text.specs.Cursor.{OnText};
ghost use Rattle.json_text.specs.Spans.{text_at};
ghost use Rattle.members.specs.Words.{words};

use strings::text::Decoded;

// Whether a text is a given word, decoded as it is compared.
fn spells(s: &[u8], at: usize, word: &[u8]) -> bool
    requires { OnText s.now at 0 }
    ensures { result ≡ same_bytes (text_at s.now at) word.now }
{
    Decoded::new(s, at).eq(word.iter().copied())
}

// Whether a text is a given word. Few names have an escape: up to the first one, bytes are compared as they stand.
fn matches(s: &[u8], at: usize, word: &[u8]) -> bool
    requires { OnText s.now at 0 }
    ensures { result ≡ same_bytes (text_at s.now at) word.now }
{
    for (i, w) in word.iter().enumerate() {
        let b = s[at + i];
        if b == b'\\' {
            return spells(s, at + i, &word[i..]);
        }
        if b == b'"' || b != *w {
            return false;
        }
    }
    s[at + word.len()] == b'"'
}

// Whether a text is a given word. Mostly it is not, and its first byte tells.
pub fn is_word(s: &[u8], at: usize, word: &[u8]) -> bool
    requires { OnText s.now at 0 }
    ensures { result ≡ same_bytes (text_at s.now at) word.now }
{
    let Some(first) = word.first() else {
        return matches(s, at, word);
    };
    let b = s[at];
    (b == *first || b == b'\\') && matches(s, at, word)
}

// The first byte of a text, decoded; none where the text is empty. A list of words is gone over with it, so that an escape at the text's
// start is decoded once for all words that begin with another byte.
pub fn first_byte(s: &[u8], at: usize) -> Option<u8>
    requires { OnText s.now at 0 }
    ensures { result ≡ slice_get (text_at s.now at) 0 }
{
    Decoded::new(s, at).next()
}

// Whether a text is a given word, where the text's first byte is known. Mostly the word begins with another, and no more is read.
pub fn is_word_by_first(s: &[u8], at: usize, first: Option<u8>, word: &[u8]) -> bool
    requires on_text { OnText s.now at 0 }
    requires first { first ≡ slice_get (text_at s.now at) 0 }
    ensures { result ≡ same_bytes (text_at s.now at) word.now }
{
    word.first().copied() == first && matches(s, at, word)
}

// The place of a text among words.
pub fn which(s: &[u8], at: usize, names: &[&[u8]]) -> Option<usize>
    requires { OnText s.now at 0 }
    ensures { result ≡ position (λ w. same_bytes (text_at s.now at) w.now) names.now }
{
    let first = first_byte(s, at);
    names
        .iter()
        .position(|word| is_word_by_first(s, at, first, word))
}

// Whether a text is one of some words.
pub fn is_one_of(s: &[u8], at: usize, names: &[&[u8]]) -> bool
    requires { OnText s.now at 0 }
    ensures { result ≡ is_one_of (text_at s.now at) (words names.now) }
{
    which(s, at, names).is_some()
}
