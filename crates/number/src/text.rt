// The parts of a number's characters, found where they stand.
ghost use Rattle.std.specs.Prelude.{Bool, ℕ, ◌||◌, ◌++◌, ◌≡◌, ◌≤◌, drop, length, true};
ghost use Rattle.json_text.specs.Orders.{order_of};
ghost use Rattle.number.specs.Compare as compare;
ghost use Rattle.number.specs.Decimal.{before, behind, is_point, minus, unsigned};
ghost use Rattle.number.specs.Decimal as decimal;
ghost use Rattle.number.specs.Places.{Same, Tidy, integer, order_integers};
ghost use Rattle.number.specs.Parts.{Parsed, Short, Splits, Trimmed, ends_whole, held, side_of, stops_at};
ghost use Rattle.json_text.specs.Bytes.{order_bytes};

use crate::places::Integer;
use std::cmp::Ordering;

// A number's characters in their parts. `Short` is a clause and no ghost field, since `parse` takes a text of any length.
#[derive(Clone, Copy)]
pub struct Decimal<'a> {
    negative: bool,
    // its digits, from the first that is not 0: those before the point, and those behind it
    upper: &'a [u8],
    lower: &'a [u8],
    // how many digits stand before the point, and how many zeros lead them all
    whole: usize,
    leading: usize,
    // what stands behind `e`, with its sign
    exponent: &'a [u8],
}

// Whether a minus leads, and what stands behind one leading sign.
fn split_sign(s: &[u8]) -> (bool, &[u8])
    ensures negative { result.0 ≡ minus s.now }
    ensures rest { result.1.now ≡ unsigned s.now }
{
    let Some((first, rest)) = s.split_first() else {
        return (false, s);
    };
    match first {
        b'-' => (true, rest),
        b'+' => (false, rest),
        _ => (false, s),
    }
}

// What stands before the first byte that `stops`, and what stands from there on.
fn split<'a, F: Fn(u8) -> bool>(s: &'a [u8], stops: F) -> (&'a [u8], &'a [u8])
    requires { F.IsAlwaysCallable stops }
    ensures { (p : ℕ → Bool) → ((c : ℕ) (b : Bool) → F.post stops c b → b ≡ p c) → Splits p s.now result.0.now result.1.now }
{
    match s.iter().position(|c| stops(*c)) {
        Some(at) => s.split_at(at),
        None => (s, &[]),
    }
}

fn is_e(c: u8) -> bool
    ensures { result ≡ decimal.is_e c }
{
    c == b'e' || c == b'E'
}

// What stands behind a point, if one leads.
fn behind_point(s: &[u8]) -> &[u8]
    requires { stops_at ends_whole s.now ≡ true }
    ensures fraction { before decimal.is_e result.now ≡ behind is_point (before decimal.is_e s.now) }
    ensures exponent { behind decimal.is_e result.now ≡ behind decimal.is_e s.now }
{
    match s {
        [b'.', rest @ ..] => rest,
        _ => s,
    }
}

// All but the first byte.
fn behind_first(s: &[u8]) -> &[u8]
    ensures { result.now ≡ drop 1 s.now }
{
    match s {
        [_, rest @ ..] => rest,
        [] => s,
    }
}

// The same without zeros at its start.
fn trim(s: &[u8]) -> &[u8]
    ensures { result.now ≡ compare.trim s.now }
{
    let mut rest = s;
    while let [b'0', behind @ ..] = rest {
        rest = behind;
    }
    rest
}

// The same without zeros at its end.
fn trim_end(s: &[u8]) -> &[u8]
    ensures { result.now ≡ compare.trim_end s.now }
{
    let mut rest = s;
    while let [before @ .., b'0'] = rest {
        rest = before;
    }
    rest
}

// Two rows of digits without the zeros at the end of both.
fn trim_both_ends<'a>(upper: &'a [u8], lower: &'a [u8]) -> (&'a [u8], &'a [u8])
    ensures { result.0.now ++ result.1.now ≡ compare.trim_end (upper.now ++ lower.now) }
{
    let rest = trim_end(lower);
    if rest.is_empty() {
        return (trim_end(upper), rest);
    }
    (upper, rest)
}

impl<'a> Decimal<'a> {
    pub fn parse(s: &'a [u8]) -> Decimal<'a>
        ensures { Parsed s.now result }
    {
        let (negative, unsigned) = split_sign(s);
        // zeros are passed before a point or an `e` is looked for: the other way round takes 2.4 times the instructions where a hundred of them lead
        let digits = trim(unsigned);
        let (upper, rest) = split(digits, |c| c == b'.' || is_e(c));
        let fraction = behind_point(rest);
        let behind = if upper.is_empty() {
            trim(fraction)
        } else {
            fraction
        };
        let (lower, at_e) = split(behind, is_e);
        Decimal {
            negative,
            upper,
            lower,
            whole: unsigned.len() - rest.len(),
            leading: (unsigned.len() - digits.len()) + (fraction.len() - behind.len()),
            exponent: behind_first(at_e),
        }
    }

    // Where the point stands, counted from the first digit that is not 0: the exponent, the whole's length and, negative,
    // the leading zeros.
    fn places(&self) -> Integer
        requires { Short self.now }
        ensures tidy { Tidy result }
        ensures same { Same (integer result) (held self.now).place }
    {
        let (negative, digits) = split_sign(self.exponent);
        if self.whole < self.leading {
            return Integer::sum(digits, negative, self.leading - self.whole, true);
        }
        Integer::sum(digits, negative, self.whole - self.leading, false)
    }

    // The order of where two points stand. Without exponents it is that of two differences of lengths, and no digits are made.
    fn order_places(&self, other: &Decimal) -> Ordering
        requires { Short self.now × Short other.now }
        ensures { order_of result ≡ order_integers (held self.now).place (held other.now).place }
    {
        if self.exponent.is_empty() && other.exponent.is_empty() {
            return (self.whole + other.leading).cmp(&(other.whole + self.leading));
        }
        self.places().order(&other.places())
    }

    fn order_digits(&self, other: &Decimal) -> Ordering
        ensures { order_of result ≡ order_bytes (held self.now).digits (held other.now).digits }
    {
        let (a, b) = trim_both_ends(self.upper, self.lower);
        let (c, d) = trim_both_ends(other.upper, other.lower);
        a.iter().chain(b.iter()).cmp(c.iter().chain(d.iter()))
    }

    // The order of two numbers without their signs.
    pub fn magnitude(&self, other: &Decimal) -> Ordering
        requires { Short self.now × Short other.now }
        ensures { order_of result ≡ compare.scaled_order (held self.now) (held other.now) }
    {
        // a match and no `then_with`: a proof can't read there what the closure ensures
        match self.order_places(other) {
            Ordering::Equal => self.order_digits(other),
            unequal => unequal,
        }
    }

    // How the number compares with 0.
    pub fn sign(&self) -> Ordering
        requires { Trimmed self.now }
        ensures { result ≡ side_of (compare.sign_of (held self.now)) }
    {
        if self.upper.is_empty() && self.lower.is_empty() {
            Ordering::Equal
        } else if self.negative {
            Ordering::Less
        } else {
            Ordering::Greater
        }
    }
}
