// The names of a condition, from the marks of the table: each once, by ascending bytes.
ghost use Rattle.std.specs.Prelude.{None, ◌≡◌, ◌≤◌, length};
ghost use Rattle.order.specs.ByText.{TextNodes};
ghost use Rattle.json_text.specs.Cursor.{OnText};
ghost use Rattle.json_text.specs.Marks.{marked};
ghost use Rattle.json_text.specs.Spans.{text_at};
ghost use Rattle.semantics.specs.Names.{ascending};
ghost use Rattle.writer.specs.Laid.{Laid};
ghost use Rattle.answers.specs.Line.{names};
ghost use Rattle.writer.specs.Once.{Fronted, elements, is_again, once_after, texts_of};
ghost use Rattle.writer.specs.Texts.{IsText, NamesHeld, text_of};

use crate::lay::Output;
use order::sort::sort;
use strings::rows::start_at;
use strings::text::same;

// The marked nodes in the order of the table, and how many there are.
fn marked_nodes(work: &[u32], nodes: &mut [u16]) -> usize
    requires { (16384 ≤ length work.now) × (4096 ≤ length nodes.old) }
    ensures { Fronted work.now nodes.new result }
{
    // the list is lent, so its length stands beside it, and only the marks tell how many there are
    let mut count = 0;
    for k in 0..4096 {
        if work[12288 + k] % 2 == 1 {
            nodes[count] = k as u16;
            count += 1;
        }
    }
    count
}

// Whether a text is the last one again.
fn is_again(s: &[u8], last: Option<usize>, text: usize) -> bool
    requires { IsText s.now last × OnText s.now text 0 }
    ensures { result ≡ is_again (text_of s.now last) (text_at s.now text) }
{
    last.is_some_and(|place| same(s, place, text))
}

impl<'a> Output<'a> {
    // The texts of sorted nodes, each once.
    fn each_once(&mut self, s: &[u8], work: &[u32], nodes: &[u16])
        requires { (12288 ≤ length work.now) × TextNodes s.now work.now nodes.now }
        ensures { Laid self.old (elements (once_after None (texts_of s.now work.now nodes.now))) self.new }
    {
        let mut last = None;
        for &node in nodes {
            let text = start_at(work, usize::from(node));
            if !is_again(s, last, text) {
                self.element(s, text);
            }
            last = Some(text);
        }
    }

    // The list of names.
    pub fn names(&mut self, s: &[u8], work: &[u32])
        requires { NamesHeld s.now work.now }
        ensures { Laid self.old (names (ascending (marked s.now work.now))) self.new }
    {
        // on the stack, since there is no heap: as many as a table has nodes
        let mut nodes = [0u16; 4096];
        let mut spare = [0u16; 4096];
        let count = marked_nodes(work, &mut nodes);
        let marked = &mut nodes[..count];
        sort(s, work, marked, &mut spare);
        self.bytes(b"(names");
        self.each_once(s, work, marked);
        self.byte(b')');
    }
}
