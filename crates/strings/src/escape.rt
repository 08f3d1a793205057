// Escapes of a text: the scalar value that each stands for.
ghost use Rattle.std.specs.Prelude.{◌≡◌, ◌≤◌, ◌<◌, length, drop, IfSome};
ghost use Rattle.json_text.specs.Strings.{hex_digit, simple_escape};
ghost use Rattle.json_text.specs.Escapes.{escaped, high_scalar};
ghost use Rattle.strings.specs.Answers.{HexTold, EscapedTold};

// The scalar value that an escape stands for, and the place behind it.
#[derive(Clone, Copy)]
pub struct Scalar {
    pub unit: u32,
    pub next: usize,
}

// A hexadecimal digit's value.
pub fn hex_digit(c: u8) -> Option<u32>
    ensures value { result ≡ hex_digit c }
    ensures upper_bound { IfSome result (λ d. d < 16) }
{
    match c {
        b'0'..=b'9' => Some(u32::from(c - b'0')),
        b'A'..=b'F' => Some(u32::from(c - b'A' + 10)),
        b'a'..=b'f' => Some(u32::from(c - b'a' + 10)),
        _ => None,
    }
}

// The byte that a one-letter escape stands for.
pub fn simple(c: u8) -> Option<u8>
    ensures value { result ≡ simple_escape c }
    ensures upper_bound { IfSome result (λ d. d < 128) }
{
    match c {
        b'"' | b'\\' | b'/' => Some(c),
        b'b' => Some(8),
        b'f' => Some(12),
        b'n' => Some(b'\n'),
        b'r' => Some(b'\r'),
        b't' => Some(b'\t'),
        _ => None,
    }
}

// The number that four hexadecimal digits spell.
pub fn hex4(s: &[u8], at: usize) -> Option<u32>
    requires { at ≤ length s.now }
    ensures { HexTold s.now at result }
{
    let mut unit = 0;
    for c in s[at..].first_chunk::<4>()? {
        unit = unit * 16 + hex_digit(*c)?;
    }
    Some(unit)
}

// The scalar value of a surrogate pair, whose second half is spelt behind `at`.
pub fn low_half(s: &[u8], at: usize, high: u32) -> Option<Scalar>
    requires { (at ≤ length s.now) × (55296 ≤ high) × (high < 56320) }
    ensures { EscapedTold s.now at (high_scalar high (drop at s.now)) result }
{
    if !s[at..].starts_with(b"\\u") {
        return None;
    }
    match hex4(s, at + 2)? {
        low @ 0xDC00..=0xDFFF => Some(Scalar {
            unit: 0x10000 + (high - 0xD800) * 0x400 + (low - 0xDC00),
            next: at + 6,
        }),
        _ => None,
    }
}

// What an escape stands for; `at` is the place behind its backslash.
pub fn escape(s: &[u8], at: usize) -> Option<Scalar>
    requires { at ≤ length s.now }
    ensures { EscapedTold s.now at (escaped (drop at s.now)) result }
{
    let c = *s.get(at)?;
    if let Some(d) = simple(c) {
        return Some(Scalar {
            unit: u32::from(d),
            next: at + 1,
        });
    }
    if c != b'u' {
        return None;
    }
    let unit = hex4(s, at + 1)?;
    match unit {
        0xD800..=0xDBFF => low_half(s, at + 5, unit),
        0xDC00..=0xDFFF => None,
        _ => Some(Scalar { unit, next: at + 5 }),
    }
}
