// Names of an object's members. A new name is told from the earlier ones of its object by a mark: of 32,749 marks each name sets the one
// that a number made of its object and its decoded bytes gives. A name whose mark is not set is new; else it is compared with the earlier
// names. So m names of an object cost m numbers and, if these are spread evenly, m * m * m / 98,247 comparisons: 81,000 for 2,000 names,
// where comparing each with all before it takes 2,000,000. Names made to meet in one mark cost what comparing all costs.
ghost use Rattle.std.specs.Prelude.{◌≡◌, ◌<◌};
ghost use Rattle.json_text.specs.Bytes.{is_one_of};
ghost use Rattle.json_text.specs.Cursor.{OnText};
ghost use Rattle.json_text.specs.Naming.{hashed};
ghost use Rattle.json_text.specs.Spans.{text_at};
ghost use Rattle.leaves.specs.Laid.{Looking, NameReady, NameTold, earlier};

use strings::answer::Refusal;
use strings::rows::Kind;
use strings::text::Decoded;

// The mark of a name in an object.
fn slot(s: &[u8], object: usize, name: usize) -> usize
    requires { OnText s.now name 0 × (object < 32749) }
    ensures { (result ≡ hashed object (text_at s.now name)) × (result < 32749) }
{
    let mut mark = object;
    for b in Decoded::new(s, name) {
        mark = (mark * 31 + usize::from(b)) % 32749;
    }
    mark
}

// Whether the text at `name` is an earlier name of the object.
fn repeated(s: &[u8], work: &[u32], marked: bool, object: usize, count: usize, name: usize) -> bool
    requires { Looking s.now work.now marked object count name }
    ensures { result ≡ is_one_of (text_at s.now name) (earlier s.now work.now object count) }
{
    marked && strings::rows::find(s, work, object + 1, count, name).is_some()
}

// The name at a place, with `count` nodes before it: its row is written and its mark set, and the answer is where its value begins.
pub fn name(
    s: &[u8],
    work: &mut [u32],
    seen: &mut [bool],
    object: usize,
    at: usize,
    count: usize,
) -> Result<usize, Refusal>
    requires { NameReady s.now work.old seen.old object at count }
    ensures { NameTold s.now work.old work.new seen.old seen.new object at count result }
{
    let text = tokens::scan::byte(s, at, b'"')?;
    let is_full = 4096 <= count;
    if is_full {
        return Err(Refusal::TooManyNodes);
    }
    let end = tokens::scan::string(s, text)?;
    let mark = slot(s, object, text);
    if repeated(s, work, seen[mark], object, count, text) {
        return Err(Refusal::RepeatedName);
    }
    let colon = tokens::scan::skip(s, end);
    let from = tokens::scan::byte(s, colon, b':')?;
    seen[mark] = true;
    strings::rows::put_row(work, count, Kind::Text, text, end - 1, count + 1);
    Ok(tokens::scan::skip(s, from))
}
