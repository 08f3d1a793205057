// A written text: itself, a text less one `$`, or an expression. A `$` may be written as an escape, so a text is read unit by unit.
ghost use Rattle.json_text.specs.Cursor.{OnText};
ghost use Rattle.paths.specs.Told.{UnitTold, WrittenTold};

use strings::escape::Scalar;

// With the place of the text behind the `$`.
#[derive(Clone, Copy)]
pub enum Written {
    Plain,
    Escaped(usize),
    Expression(usize),
}

// The unit at a place, an escape being one, and the place behind it; none at the closing quote.
pub fn unit_at(s: &[u8], at: usize) -> Option<Scalar>
    requires { OnText s.now at 0 }
    ensures { UnitTold s.now at result }
{
    match s[at] {
        b'"' => None,
        b'\\' => strings::escape::escape(s, at + 1),
        b => Some(Scalar {
            unit: u32::from(b),
            next: at + 1,
        }),
    }
}

pub fn classify(s: &[u8], at: usize) -> Written
    requires { OnText s.now at 0 }
    ensures { WrittenTold s.now at result }
{
    let dollar = u32::from(b'$');
    match unit_at(s, at) {
        Some(x) if x.unit == dollar => match unit_at(s, x.next) {
            Some(y) if y.unit == dollar => Written::Escaped(x.next),
            _ => Written::Expression(x.next),
        },
        _ => Written::Plain,
    }
}
