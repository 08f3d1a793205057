// The place of a decimal point: an integer of 260 decimal digits, the lowest first, with a sign.
ghost use Rattle.number.specs.Row.{Digits};

use std::cmp::Ordering;

// `Tidy` is a clause and no ghost field, since what `parse` and `minus` make may be 0 with a sign.
#[derive(Clone, Copy)]
pub struct Integer {
    // the paper's form: 260 digits in an array
    digits: [u8; 260],
    // how many of the digits are in use; those above them are 0
    count: usize,
    negative: bool,
    ghost fits: { Digits digits count },
}

impl Integer {
    ghost use Prim.Native.Nat.{compare};
    ghost use Rattle.json_text.specs.Bytes.{natural};
    ghost use Rattle.json_text.specs.Orders.{order_of};
    ghost use Rattle.number.specs.Decimal.{signed};
    ghost use Rattle.number.specs.Places.{Same, Tidy, added, integer, order_integers};
    ghost use Rattle.number.specs.Row.{value};
    ghost use Rattle.std.specs.Prelude.{◌≡◌, ◌+◌, ◌<◌, ◌≤◌, length, true};

    // The number that bytes spell, and `more`: `more` is what is carried into the lowest digit.
    fn parse(s: &[u8], more: usize, negative: bool) -> Integer
        requires { (length s.now ≤ 255) × (more ≤ 255) }
        ensures digits_value { value result.digits ≡ natural 0 s.now + more }
        ensures negative_value { result.negative ≡ negative }
    {
        let mut digits = [0u8; 260];
        let mut carry = more;
        for (i, c) in s.iter().rev().enumerate() {
            let t = usize::from(c.saturating_sub(b'0')) + carry;
            digits[i] = (t % 10) as u8;
            carry = t / 10;
        }
        // What is left of the carry makes further digits: how many, only the carry tells.
        let mut count = s.len();
        while carry != 0 {
            digits[count] = (carry % 10) as u8;
            carry /= 10;
            count += 1;
        }
        Integer {
            digits,
            count,
            negative,
        }
    }

    // The signed number that bytes spell, and a signed `amount`. Where the signs differ, the smaller is taken from the larger.
    // A sign beside its number, as `signed` of the specs has it: the bytes need one anyway, and an `isize` would need casts both ways.
    pub fn sum(s: &[u8], negative: bool, amount: usize, less: bool) -> Integer
        requires in_bounds { (length s.now ≤ 255) × (amount ≤ 255) }
        requires amount_nonzero { less ≡ true → 0 < amount }
        ensures tidy { Tidy result }
        ensures same { Same (integer result) (added (signed negative (natural 0 s.now)) (signed less amount)) }
    {
        if s.is_empty() || negative == less {
            return Integer::parse(s, amount, less);
        }
        let x = Integer::parse(s, 0, negative);
        let y = Integer::parse(&[], amount, less);
        let (larger, smaller) = match x.order_digits(&y) {
            Ordering::Less => (&y, &x),
            Ordering::Equal => return Integer::parse(&[], 0, false),
            Ordering::Greater => (&x, &y),
        };
        larger.minus(smaller)
    }

    // The order of two integers, by their signs and their digits.
    // No Ord: it asks that neither is 0 with a sign, which a trait's method can't ask.
    pub fn order(&self, other: &Integer) -> Ordering
        requires { Tidy self.now × Tidy other.now }
        ensures { order_of result ≡ order_integers (integer self.now) (integer other.now) }
    {
        match (self.negative, other.negative) {
            (true, true) => other.order_digits(self),
            (true, false) => Ordering::Less,
            (false, true) => Ordering::Greater,
            (false, false) => self.order_digits(other),
        }
    }

    // The order of two integers without their signs: the highest digit that differs decides.
    fn order_digits(&self, other: &Integer) -> Ordering
        ensures { order_of result ≡ compare (value self.now.digits) (value other.now.digits) }
    {
        let count = self.count.max(other.count);
        self.digits[..count]
            .iter()
            .rev()
            .cmp(other.digits[..count].iter().rev())
    }

    // What is left of an integer, with its sign, where the digits of another one are taken from it that are not the larger.
    fn minus(&self, other: &Integer) -> Integer
        requires { value other.now.digits ≤ value self.now.digits }
        ensures left { value result.digits + value other.now.digits ≡ value self.now.digits }
        ensures negative_value { result.negative ≡ self.now.negative }
    {
        let count = self.count.max(other.count);
        let mut digits = [0u8; 260];
        let mut borrow = 0;
        // by place: of digits that a loop over `iter_mut()` has written nothing is known behind it, so an iterator over the two rows would count all the same
        for i in 0..count {
            let t = 10 + self.digits[i] - other.digits[i] - borrow;
            digits[i] = t % 10;
            borrow = 1 - t / 10;
        }
        Integer {
            digits,
            count,
            negative: self.negative,
        }
    }
}
