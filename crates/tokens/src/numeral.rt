// Numbers of the sheet. `[minus] int [frac] [exp]` is a state machine: where a number stands, and what a further byte makes of it.
ghost use Rattle.std.specs.Prelude.{IsTrue, cond, ◌≡◌, ◌<◌, length};
ghost use Rattle.json_text.specs.Numerals.{digit, first, onward, complete};
ghost use Rattle.json_text.specs.Placing.{digits_at};
ghost use Rattle.json_text.specs.Refusal.{not_json, ok, refused};
ghost use Rattle.strings.specs.Answers.{scan_of};
ghost use Rattle.tokens.specs.Numbering.{Digits, StaysOnDigits, after, place_in};

use strings::answer::Refusal;

// How many bytes a number may have.
const MAX_NUMBER: usize = 255;

// What a number has last, so far.
#[derive(Clone, Copy, PartialEq, Eq)]
pub enum Place {
    Sign,
    Zero,
    Whole,
    Point,
    Fraction,
    Exponent,
    ExponentSign,
    ExponentDigits,
}

// Where the first byte leads; no number begins with any other.
fn first(c: u8) -> Option<Place>
    ensures { first c ≡ after result }
{
    match c {
        b'-' => Some(Place::Sign),
        b'0' => Some(Place::Zero),
        b'1'..=b'9' => Some(Place::Whole),
        _ => None,
    }
}

impl Place {
    // Where a further byte leads; any other is no byte of the number.
    fn onward(self, c: u8) -> Option<Place>
        ensures { onward (place_in self) (digit c) ≡ after result }
    {
        match (self, c) {
            (Place::Sign, b'0') => Some(Place::Zero),
            (Place::Sign, b'1'..=b'9') => Some(Place::Whole),
            (Place::Zero | Place::Whole, b'.') => Some(Place::Point),
            (Place::Zero | Place::Whole | Place::Fraction, b'e' | b'E') => Some(Place::Exponent),
            (Place::Whole, b'0'..=b'9') => Some(Place::Whole),
            (Place::Point | Place::Fraction, b'0'..=b'9') => Some(Place::Fraction),
            (Place::Exponent, b'+' | b'-') => Some(Place::ExponentSign),
            (Place::Exponent | Place::ExponentSign | Place::ExponentDigits, b'0'..=b'9') => Some(
                Place::ExponentDigits,
            ),
            _ => None,
        }
    }

    // Whether digits lead nowhere else from there.
    fn stays_on_digits(self) -> bool
        ensures { IsTrue result → StaysOnDigits self }
    {
        matches!(self, Place::Whole | Place::Fraction)
    }

    // Whether a number may end there.
    fn is_complete(self) -> bool
        ensures { result ≡ complete (place_in self) }
    {
        matches!(
            self,
            Place::Zero | Place::Whole | Place::Fraction | Place::ExponentDigits
        )
    }

    // The number's end, where it may end.
    fn ending(self, at: usize) -> Result<usize, Refusal>
        ensures { cond (complete (place_in self)) (ok at) (refused not_json) ≡ scan_of result }
    {
        if self.is_complete() {
            Ok(at)
        } else {
            Err(Refusal::NotJson)
        }
    }
}

// How many digits come first.
fn digits(s: &[u8]) -> usize
    ensures { Digits s.now result }
{
    s.iter()
        .position(|c| !matches!(*c, b'0'..=b'9'))
        .unwrap_or(s.len())
}

// The place behind the number that starts at `at`; its 256th byte is one too many.
pub fn number(s: &[u8], at: usize) -> Result<usize, Refusal>
    requires { at < length s.now }
    ensures { digits_at s.now at ≡ scan_of result }
{
    let end = s.len().min(at + MAX_NUMBER);
    let Some(mut place) = first(s[at]) else {
        return Err(Refusal::NotJson);
    };
    // `here` moves by a run of digits or by one byte, so no `for` counts it
    let mut here = at + 1;
    loop {
        // most bytes of a number are digits
        if place.stays_on_digits() {
            here += digits(&s[here..end]);
        }
        if here == s.len() {
            return place.ending(here);
        }
        match place.onward(s[here]) {
            None => return place.ending(here),
            Some(_) if here == end => return Err(Refusal::NumberTooLong),
            Some(next) => place = next,
        }
        here += 1;
    }
}
