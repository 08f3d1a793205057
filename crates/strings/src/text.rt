// Texts of the sheet, compared as they are decoded: an iterator gives one decoded byte at a time, and no copy is kept.
// A text that is kept stays a place beside the sheet, and no struct: places lie in the lent table, in frames and in answers, and sheet and table are lent as two slices.
ghost use Rattle.std.specs.Prelude.{◌≡◌, ◌<◌};
ghost use Rattle.json_text.specs.Bytes.{order_bytes, same_bytes};
ghost use Rattle.json_text.specs.Cursor.{OnText};
ghost use Rattle.json_text.specs.Spans.{text_at};
ghost use Rattle.json_text.specs.Orders.{order_of};
ghost use Rattle.strings.specs.OnceOn.{on_text_prop};
ghost use Rattle.strings.specs.Answers.{FirstOf};

use crate::escape::{Scalar, escape};
use std::cmp::Ordering;

// What is left of a text, decoded: a place in it, and the bytes of a scalar value that are still to be given. It is copied where a text is read again from here.
// No Option for the scalar value: `left` counts down to 0 in any case, and at 0 there is none.
#[derive(Clone, Copy)]
pub struct Decoded<'a> {
    s: &'a [u8],
    at: usize,
    unit: u32,
    left: u32,
    ghost on_text: { OnText s.now at left } by { on_text_prop s.now at left },
}

impl<'a> Decoded<'a> {
    ghost use Rattle.strings.specs.Decoded.{left_of};

    // The bytes of the text at a place.
    pub fn new(s: &'a [u8], at: usize) -> Decoded<'a>
        requires { OnText s.now at 0 }
        ensures { left_of result ≡ text_at s.now at }
    {
        Decoded {
            s,
            at,
            unit: 0,
            left: 0,
        }
    }
}

// The first byte of a scalar value's UTF-8, and how many follow it.
fn first(unit: u32) -> (u8, u32)
    requires { unit < 1114112 }
    ensures { FirstOf unit result.0 result.1 }
{
    let (byte, left) = match unit {
        0..=0x7F => (unit, 0),
        0x80..=0x7FF => (0xC0 + unit / 64, 1),
        0x800..=0xFFFF => (0xE0 + unit / 4096, 2),
        _ => (0xF0 + unit / 262144, 3),
    };
    (byte as u8, left)
}

impl<'a> Iterator for Decoded<'a> {
    ghost use Rattle.std.specs.Iterator.{YieldsFirst, item_count};
    ghost use Rattle.strings.specs.Decoded.{left_of};

    type Item = u8;

    ghost next_gives = { YieldsFirst left_of };

    ghost remaining = { item_count left_of };

    fn next(&mut self) -> Option<u8> {
        let Decoded { s, at, unit, left } = *self;
        if 0 < left {
            let bits = match left {
                1 => unit,
                2 => unit / 64,
                _ => unit / 4096,
            };
            self.left = left - 1;
            return Some((0x80 + bits % 64) as u8);
        }
        match s[at] {
            b'"' => None,
            b'\\' => {
                let Scalar { unit, next: at } = escape(s, at + 1)?;
                let (byte, left) = first(unit);
                *self = Decoded { s, at, unit, left };
                Some(byte)
            }
            byte => {
                self.at = at + 1;
                Some(byte)
            }
        }
    }
}

// The order of two texts, decoded as they are compared.
fn compare_decoded(s: &[u8], a: usize, b: usize) -> Ordering
    requires { OnText s.now a 0 × OnText s.now b 0 }
    ensures { order_bytes (text_at s.now a) (text_at s.now b) ≡ order_of result }
{
    Decoded::new(s, a).cmp(Decoded::new(s, b))
}

// The order of two texts. Few names have an escape, and many begin alike: up to the first escape or difference, bytes are compared as they stand.
pub fn compare(s: &[u8], a: usize, b: usize) -> Ordering
    requires { OnText s.now a 0 × OnText s.now b 0 }
    ensures { order_bytes (text_at s.now a) (text_at s.now b) ≡ order_of result }
{
    // counted by hand: `position` in a `zip` of the two takes 1.2 times the instructions where names are put in order
    let mut n = 0;
    loop {
        let (c, d) = (s[a + n], s[b + n]);
        if c != d {
            if c == b'"' || c == b'\\' || d == b'"' || d == b'\\' {
                return compare_decoded(s, a + n, b + n);
            }
            return c.cmp(&d);
        }
        if c == b'"' {
            return Ordering::Equal;
        }
        if c == b'\\' {
            return compare_decoded(s, a + n, b + n);
        }
        n += 1;
    }
}

// Whether two texts are the same, decoded.
pub fn same(s: &[u8], a: usize, b: usize) -> bool
    requires { OnText s.now a 0 × OnText s.now b 0 }
    ensures { result ≡ same_bytes (text_at s.now a) (text_at s.now b) }
{
    compare(s, a, b).is_eq()
}
