// Rows of the table, and members by name.
// A value is the number of its node in a slice, and no Box or struct: no heap is used, the caller lends sheet and table as two slices, and the table is marked between reads.
ghost use Rattle.std.specs.Prelude.{◌∷◌, [], ◌≡◌, ◌+◌, ◌-◌, ◌*◌, ◌%◌, ◌≤◌, ◌<◌, length};
ghost use Rattle.std.proofs.lemmas.List.Edits.{sets};
ghost use Rattle.json_text.specs.Bytes.{find};
ghost use Rattle.json_text.specs.Json.{entries};
ghost use Rattle.json_text.specs.Spans.{text_at};
ghost use Rattle.json_text.specs.Table.{start_at, end_at, after_at, kind_at, members_at};
ghost use Rattle.json_text.specs.Cursor.{OnText};
ghost use Rattle.json_text.specs.Held.{HasMembers};
ghost use Rattle.strings.specs.Answers.{FoundTold, RowFits, code_of};
ghost use Rattle.strings.specs.Leads.{Leads, leads_prop, of_array, of_object};

// What kind of value a row holds. `Free` is the one code that no row has.
#[derive(Clone, Copy, PartialEq, Eq)]
pub enum Kind {
    Null,
    True,
    False,
    Number,
    Text,
    Array,
    Object,
    Free,
}

impl Kind {
    // The code of a kind in the lowest three bits of its row's first word.
    pub fn code(self) -> u32
        ensures { result ≡ code_of self }
    {
        self as u32
    }

    // The kind that the lowest three bits of a word are the code of.
    // By hand and no TryFrom: the lent table has the code in three bits, and each of the eight has its case, so nothing is refused.
    fn of_word(word: u32) -> Kind
        ensures { code_of result ≡ word % 8 }
    {
        match word % 8 {
            0 => Kind::Null,
            1 => Kind::True,
            2 => Kind::False,
            3 => Kind::Number,
            4 => Kind::Text,
            5 => Kind::Array,
            6 => Kind::Object,
            _ => Kind::Free,
        }
    }
}

// What kind of value a node is.
pub fn kind_at(work: &[u32], node: usize) -> Kind
    requires { (3 * node + 3 ≤ length work.now) × (node < 4096) }
    ensures { code_of result ≡ kind_at work.now node }
{
    Kind::of_word(work[3 * node])
}

// Where the text of a node starts. A word becomes a place by `as`: std has no `usize::from` of a u32.
pub fn start_at(work: &[u32], node: usize) -> usize
    requires { (3 * node + 3 ≤ length work.now) × (node < 4096) }
    ensures { result ≡ start_at work.now node }
{
    (work[3 * node] / 8) as usize
}

// Where the text of a node ends.
pub fn end_at(work: &[u32], node: usize) -> usize
    requires { (3 * node + 3 ≤ length work.now) × (node < 4096) }
    ensures { result ≡ end_at work.now node }
{
    work[3 * node + 1] as usize
}

// The node after all that a node holds.
pub fn after_at(work: &[u32], node: usize) -> usize
    requires { (3 * node + 3 ≤ length work.now) × (node < 4096) }
    ensures { result ≡ after_at work.now node }
{
    work[3 * node + 2] as usize
}

// The elements of an array, from one node up to another: a row says which is next.
#[derive(Clone, Copy)]
pub struct Elements<'a> {
    work: &'a [u32],
    at: usize,
    end: usize,
    ghost leads: { Leads work.now of_array end at } by { leads_prop work.now of_array end at },
}

impl<'a> Elements<'a> {
    ghost use Rattle.strings.specs.Nodes.{elements_left};

    // The elements from `from` up to `end`.
    pub fn new(work: &'a [u32], from: usize, end: usize) -> Elements<'a>
        requires { Leads work.now of_array end from }
        ensures { elements_left result ≡ record { words = work.now; along = of_array; upto = end; place = from } }
    {
        Elements {
            work,
            at: from,
            end,
        }
    }
}

impl<'a> Iterator for Elements<'a> {
    ghost use Rattle.std.specs.Iterator.{at_most};
    ghost use Rattle.strings.specs.Nodes.{Steps, elements_left};

    type Item = usize;

    ghost next_gives = { λ it r rest. Steps (elements_left it) r (elements_left rest) };

    ghost remaining = { λ it. at_most (it.end - it.at) };

    fn next(&mut self) -> Option<usize> {
        let Elements { work, at, end } = *self;
        if end <= at {
            return None;
        }
        self.at = after_at(work, at);
        Some(at)
    }
}

// The nodes of the names of an object's members, from one up to another: the row of a member's value, behind its name, says which is next.
// Two types and no const parameter, which would say 0 and 1 at each use where these say what is walked; with a number as a field 50 short texts take 1.12
// times the instructions, in a library compiled without proofs.
#[derive(Clone, Copy)]
pub struct Keys<'a> {
    work: &'a [u32],
    at: usize,
    end: usize,
    ghost leads: { Leads work.now of_object end at } by { leads_prop work.now of_object end at },
}

impl<'a> Keys<'a> {
    ghost use Rattle.strings.specs.Nodes.{keys_left};

    // The names from `from` up to `end`.
    pub fn new(work: &'a [u32], from: usize, end: usize) -> Keys<'a>
        requires { Leads work.now of_object end from }
        ensures { keys_left result ≡ record { words = work.now; along = of_object; upto = end; place = from } }
    {
        Keys {
            work,
            at: from,
            end,
        }
    }
}

impl<'a> Iterator for Keys<'a> {
    ghost use Rattle.std.specs.Iterator.{at_most};
    ghost use Rattle.strings.specs.Nodes.{Steps, keys_left};

    type Item = usize;

    ghost next_gives = { λ it r rest. Steps (keys_left it) r (keys_left rest) };

    ghost remaining = { λ it. at_most (it.end - it.at) };

    fn next(&mut self) -> Option<usize> {
        let Keys { work, at, end } = *self;
        if end <= at {
            return None;
        }
        self.at = after_at(work, at + 1);
        Some(at)
    }
}

// A node's row.
// Six parameters: a struct of kind, start, end and after would be made at each call only to be taken apart here.
// A place becomes a word by `as`, here and where nodes are linked and gathered: the contract says that it fits.
pub fn put_row(work: &mut [u32], node: usize, kind: Kind, start: usize, end: usize, after: usize)
    requires { RowFits (length work.old) node (code_of kind) start end after }
    ensures { work.new ≡ sets work.old (3 * node) ((8 * start + code_of kind) ∷ end ∷ after ∷ []) }
{
    let at = 3 * node;
    work[at] = (8 * start) as u32 + kind.code();
    work[at + 1] = end as u32;
    work[at + 2] = after as u32;
}

// The value's node of the first member from `from` up to `end` whose name is the text at `name`.
// `from` and `end` and no node: an object is searched while it is still being read, and then no row says where it ends.
pub fn find(s: &[u8], work: &[u32], from: usize, end: usize, name: usize) -> Option<usize>
    requires { HasMembers s.now work.now from end × OnText s.now name 0 }
    ensures { FoundTold s.now work.now (find (text_at s.now name) (entries (members_at s.now work.now from end))) result }
{
    // a loop by hand: over `Keys` it takes 1.31 times the instructions where 1,600 names meet in one mark
    let mut k = from;
    while k < end {
        let a = start_at(work, k);
        if crate::text::same(s, name, a) {
            return Some(k + 1);
        }
        k = after_at(work, k + 1);
    }
    None
}
