// Bytes, digits and escaped bytes put into an output one behind another, as far as there is room. All are counted, so that over no room they are only counted.
ghost use Rattle.std.specs.Prelude.{◌≡◌, [], ◌∷◌, ◌≤◌};
ghost use Rattle.writer.specs.Room.{Room};
ghost use Rattle.answers.specs.Line.{decimal_digits, hex_of, quoted_byte};

// A buffer that the caller lends, and the place of the next byte in it or behind it. A place is held at the largest number, so that no count wraps.
#[derive(Drop)]
pub struct Output<'a> {
    bytes: &'a mut [u8],
    at: usize,
    ghost room: { Room bytes.now at },
}

impl<'a> Output<'a> {
    ghost use Rattle.writer.specs.Laid.{Begun, Laid};

    // An output that is filled from its start.
    pub fn new(bytes: &'a mut [u8]) -> Output<'a>
        ensures same_reference { result.bytes.ghost_name ≡ bytes.entry.ghost_name }
        ensures empty { Begun bytes.old result }
    {
        Output { bytes, at: 0 }
    }

    // How many bytes were put.
    pub fn count(&self) -> usize
        ensures { result ≡ self.now.at }
    {
        self.at
    }

    pub fn byte(&mut self, b: u8)
        ensures { Laid self.old (b ∷ []) self.new }
    {
        // Read once: behind the store the place would be read again, which long texts feel.
        let at = self.at;
        if at < self.bytes.len() {
            self.bytes[at] = b;
        }
        self.at = at.saturating_add(1);
    }

    pub fn bytes(&mut self, bs: &[u8])
        ensures { Laid self.old bs.now self.new }
    {
        for &b in bs {
            self.byte(b);
        }
    }

    // A number in decimal digits.
    // By hand and no `write!`: each digit goes through `byte`, which also counts where there is no room.
    pub fn decimal(&mut self, n: usize)
        ensures { Laid self.old (decimal_digits n) self.new }
    {
        if n < 10 {
            self.byte(b'0' + n as u8);
        } else {
            self.decimal(n / 10);
            self.byte(b'0' + (n % 10) as u8);
        }
    }

    // A byte of a text in quotes.
    pub fn quoted_byte(&mut self, b: u8)
        ensures { Laid self.old (quoted_byte b) self.new }
    {
        match b {
            b'"' => self.bytes(b"\\\""),
            b'\\' => self.bytes(b"\\\\"),
            0..=31 => {
                self.bytes(b"\\u00");
                self.byte(hex(b / 16));
                self.byte(hex(b % 16));
            }
            _ => self.byte(b),
        }
    }
}

// A lower-case hexadecimal digit.
fn hex(n: u8) -> u8
    requires { n ≤ 15 }
    ensures { result ≡ hex_of n }
{
    if n < 10 { b'0' + n } else { b'a' + (n - 10) }
}
