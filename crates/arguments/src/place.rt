// The place of `admit`: plain decimal digits below 2^64, "0" itself or no zero in front.
ghost use Rattle.std.specs.Prelude.{◌≡◌};
ghost use Rattle.arguments.specs.Places.{number_in, place_in};

// The number that digits alone spell. By hand: `parse` takes a str, and also a sign.
fn number(text: &[u8]) -> Option<usize>
    ensures { result ≡ number_in 0 text.now }
{
    let mut n: usize = 0;
    for c in text {
        if !c.is_ascii_digit() {
            return None;
        }
        n = n.checked_mul(10)?.checked_add(usize::from(*c - b'0'))?;
    }
    Some(n)
}

pub fn place_in(text: &[u8]) -> Option<usize>
    ensures { result ≡ place_in text.now }
{
    match text {
        [] | [b'0', _, ..] => None,
        _ => number(text),
    }
}
