// The exact order of two numbers by their characters.
#![tactic(auto)]

mod places;
mod text;

ghost use Rattle.std.specs.Prelude.{◌≡◌};
ghost use Rattle.number.specs.Compared.{compared, order_of};

use crate::text::Decimal;
use std::cmp::Ordering;

// The bytes that a number has at most.
const LONGEST: usize = 255;

pub fn compare(left: &[u8], right: &[u8]) -> Ordering
    ensures { order_of result ≡ compared left.now right.now }
{
    if LONGEST < left.len() || LONGEST < right.len() {
        return Ordering::Equal;
    }
    let a = Decimal::parse(left);
    let b = Decimal::parse(right);
    let (x, y) = (a.sign(), b.sign());
    if x != y {
        return x.cmp(&y);
    }
    match x {
        Ordering::Less => b.magnitude(&a),
        Ordering::Equal => Ordering::Equal,
        Ordering::Greater => a.magnitude(&b),
    }
}
