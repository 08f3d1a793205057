// The list of texts that a value holds: a text alone, or the texts of an array in written order.
ghost use Rattle.json_text.specs.Bytes.{ascii};
ghost use Rattle.json_text.specs.Table.{value_at};
ghost use Rattle.writer.specs.Laid.{Laid};
ghost use Rattle.answers.specs.Line.{listed};
ghost use Rattle.writer.specs.Texts.{TextsHeld, texts_in};

use crate::lay::Output;
use strings::rows::{Elements, Kind, after_at, kind_at, start_at};

impl<'a> Output<'a> {
    pub fn sources(&mut self, s: &[u8], work: &[u32], node: usize)
        requires { TextsHeld s.now work.now node }
        ensures { Laid self.old (listed (ascii "from") (texts_in (value_at s.now work.now node))) self.new }
    {
        self.bytes(b"(from");
        if kind_at(work, node) == Kind::Text {
            self.element(s, start_at(work, node));
            self.byte(b')');
            return;
        }
        let end = after_at(work, node);
        for k in Elements::new(work, node + 1, end) {
            self.element(s, start_at(work, k));
        }
        self.byte(b')');
    }
}
