// UTF-8 (RFC 3629), of the whole text before it is read.
ghost use Rattle.std.specs.Prelude.{Some, ◌≡◌};
ghost use Rattle.json_text.specs.Utf8.{is_ascii, lead, scalar, utf8};
ghost use Rattle.strings.specs.Answers.{expect_of, step};

// What may come next: a scalar value's first byte, or so many further bytes of one. Behind four first bytes the next one has a narrower range.
#[derive(Clone, Copy)]
pub enum Expect {
    Scalar,
    One,
    Two,
    Three,
    // behind E0, from A0 on: two bytes spell what lies below
    TwoFromA0,
    // behind ED, up to 9F: what lies above are surrogates
    TwoTo9F,
    // behind F0, from 90 on: three bytes spell what lies below
    ThreeFrom90,
    // behind F4, up to 8F: what lies above is no scalar value
    ThreeTo8F,
}

// What a scalar value's first byte leads to; some bytes are none.
fn lead(c: u8) -> Option<Expect>
    ensures { lead c ≡ expect_of result }
{
    match c {
        0..=0x7F => Some(Expect::Scalar),
        0xC2..=0xDF => Some(Expect::One),
        0xE0 => Some(Expect::TwoFromA0),
        0xED => Some(Expect::TwoTo9F),
        0xE1..=0xEF => Some(Expect::Two),
        0xF0 => Some(Expect::ThreeFrom90),
        0xF1..=0xF3 => Some(Expect::Three),
        0xF4 => Some(Expect::ThreeTo8F),
        _ => None,
    }
}

// What a further byte makes of it.
fn next(e: Expect, c: u8) -> Option<Expect>
    ensures { step (expect_of (Some e)) c ≡ expect_of result }
{
    match (e, c) {
        // most bytes are these: told first, they take three instructions fewer
        (Expect::Scalar, 0..=0x7F) => Some(Expect::Scalar),
        (Expect::Scalar, _) => lead(c),
        (Expect::One, 0x80..=0xBF) => Some(Expect::Scalar),
        (Expect::Two, 0x80..=0xBF) => Some(Expect::One),
        (Expect::TwoFromA0, 0xA0..=0xBF) => Some(Expect::One),
        (Expect::TwoTo9F, 0x80..=0x9F) => Some(Expect::One),
        (Expect::Three, 0x80..=0xBF) => Some(Expect::Two),
        (Expect::ThreeFrom90, 0x90..=0xBF) => Some(Expect::Two),
        (Expect::ThreeTo8F, 0x80..=0x8F) => Some(Expect::Two),
        _ => None,
    }
}

// Whether every byte is below 128. The greatest one tells: its loop has no way out but its end, so the compiler takes many bytes at once.
fn is_ascii(s: &[u8]) -> bool
    ensures { result ≡ is_ascii s.now }
{
    s.iter().fold(0, |greatest, c| (*c).max(greatest)) < 128
}

// Whether a text is UTF-8.
pub fn utf8(s: &[u8]) -> bool
    ensures { result ≡ utf8 scalar s.now }
{
    if is_ascii(s) {
        return true;
    }
    let mut e = Expect::Scalar;
    for c in s {
        match next(e, *c) {
            Some(further) => e = further,
            None => return false,
        }
    }
    matches!(e, Expect::Scalar)
}
