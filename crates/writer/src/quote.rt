// Texts of the sheet in quotes, decoded and escaped again as they are laid.
ghost use Rattle.std.specs.Prelude.{◌∷◌};
ghost use Rattle.json_text.specs.Cursor.{OnText};
ghost use Rattle.json_text.specs.Spans.{text_at};
ghost use Rattle.writer.specs.Laid.{Laid};
ghost use Rattle.answers.specs.Line.{quoted};

use crate::lay::Output;
use strings::text::Decoded;

impl<'a> Output<'a> {
    // The text that starts at `text`.
    pub fn quoted(&mut self, s: &[u8], text: usize)
        requires { OnText s.now text 0 }
        ensures { Laid self.old (quoted (text_at s.now text)) self.new }
    {
        self.byte(b'"');
        for b in Decoded::new(s, text) {
            self.quoted_byte(b);
        }
        self.byte(b'"');
    }

    // An element of a list: a space, and a text in quotes.
    pub fn element(&mut self, s: &[u8], text: usize)
        requires { OnText s.now text 0 }
        ensures { Laid self.old (32 ∷ quoted (text_at s.now text)) self.new }
    {
        self.byte(b' ');
        self.quoted(s, text);
    }
}
