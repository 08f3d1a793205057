// Values without brackets: their kind, where they end, and their row.
ghost use Rattle.std.specs.Prelude.{◌≡◌, ◌<◌, length};
ghost use Rattle.strings.specs.Answers.{RowFits, code_of, scan_of};
ghost use Rattle.json_text.specs.Placing.{read_at};
ghost use Rattle.json_text.specs.Reader.{start};
ghost use Rattle.leaves.specs.Laid.{ParsedTold, Ready, RowLaid, kind_by, plain_by, scan_by};

use strings::answer::{Place, Refusal};
use strings::rows::Kind;

// The kind of the value that a byte starts.
fn kind(c: u8) -> Option<Kind>
    ensures { result ≡ kind_by (start c) }
{
    match c {
        b'"' => Some(Kind::Text),
        b'-' | b'0'..=b'9' => Some(Kind::Number),
        b'[' => Some(Kind::Array),
        b'{' => Some(Kind::Object),
        b'n' => Some(Kind::Null),
        b't' => Some(Kind::True),
        b'f' => Some(Kind::False),
        _ => None,
    }
}

// The place behind a value without brackets.
fn scan(s: &[u8], at: usize, kind: Kind) -> Result<usize, Refusal>
    requires { at < length s.now }
    ensures { scan_by (plain_by kind) s.now at ≡ scan_of result }
{
    match kind {
        Kind::Null => tokens::scan::word(s, at, b"null"),
        Kind::True => tokens::scan::word(s, at, b"true"),
        Kind::False => tokens::scan::word(s, at, b"false"),
        Kind::Number => tokens::numeral::number(s, at),
        _ => tokens::scan::string(s, at + 1),
    }
}

// A node's row is written; the answer is the place behind its value.
// Seven parameters, the six of `put_row` and the place: a struct would be taken apart here at once, as there.
pub fn lay(
    work: &mut [u32],
    node: usize,
    kind: Kind,
    start: usize,
    end: usize,
    after: usize,
    place: usize,
) -> Place
    requires { RowFits (length work.old) node (code_of kind) start end after }
    ensures { RowLaid work.old work.new node (code_of kind) start end after place result }
{
    strings::rows::put_row(work, node, kind, start, end, after);
    Place {
        at: place,
        node: after,
    }
}

// A value in which no bracket may be open.
pub fn leaf(s: &[u8], work: &mut [u32], at: usize, node: usize) -> Result<Place, Refusal>
    requires { Ready s.now work.old at node }
    ensures { ParsedTold (read_at 0 s.now node at) work.old work.new node result }
{
    let Some(c) = s.get(at) else {
        return Err(Refusal::NotJson);
    };
    let Some(kind) = kind(*c) else {
        return Err(Refusal::NotJson);
    };
    if kind == Kind::Array || kind == Kind::Object {
        return Err(Refusal::TooDeep);
    }
    if 4096 <= node {
        return Err(Refusal::TooManyNodes);
    }
    let end = scan(s, at, kind)?;
    if kind == Kind::Text {
        return Ok(lay(work, node, kind, at + 1, end - 1, node + 1, end));
    }
    Ok(lay(work, node, kind, at, end, node + 1, end))
}
