// Values of the sheet, laid out in the table. A value, an array and an object call each other; the brackets that may still be open fall.
ghost use Rattle.std.specs.Prelude.{◌<◌, length};
ghost use Rattle.json_text.specs.Placing.{arr_at, obj_at, read_at};
ghost use Rattle.leaves.specs.Laid.{ParsedTold, Ready, Told, TreeReady};

use leaves::bracket::{Sep, following, opening};
use leaves::leaf::{lay, leaf};
use leaves::names::name;
use strings::answer::{Place, Refusal};
use strings::rows::Kind;

// The value at a place, in which `left` brackets may be open at once. Sheet, table and marks are lent one by one: for methods of a struct that
// holds the three references the checker makes no proof, since one is lent again while the call lasts.
#[cycle(array_object_value)]
pub fn value(
    s: &[u8],
    work: &mut [u32],
    seen: &mut [bool],
    at: usize,
    node: usize,
    left: usize,
) -> Result<Place, Refusal>
    requires { TreeReady s.now work.old seen.old at node left }
    ensures { Told (read_at left s.now node at) work.old work.new seen.old seen.new node result }
{
    if left == 0 {
        return leaf(s, work, at, node);
    }
    let Some(c) = s.get(at) else {
        return Err(Refusal::NotJson);
    };
    match c {
        b'[' => array(s, work, seen, at, node, left - 1),
        b'{' => object(s, work, seen, at, node, left - 1),
        _ => leaf(s, work, at, node),
    }
}

// The sheet's value, with no mark of a name set.
pub fn root(s: &[u8], work: &mut [u32], at: usize) -> Result<Place, Refusal>
    requires { Ready s.now work.old at 0 }
    ensures { ParsedTold (read_at 64 s.now 0 at) work.old work.new 0 result }
{
    // on the stack, since there is no heap: a mark for each number that a name can give
    let mut seen = [false; 32749];
    value(s, work, &mut seen, at, 0, 64)
}

// An array from its bracket on, each element with `left` brackets.
#[cycle(array_object_value)]
fn array(
    s: &[u8],
    work: &mut [u32],
    seen: &mut [bool],
    at: usize,
    node: usize,
    left: usize,
) -> Result<Place, Refusal>
    requires { TreeReady s.now work.old seen.old at node left × (at < length s.now) }
    ensures { Told (arr_at s.now (read_at left s.now) node at) work.old work.new seen.old seen.new node result }
{
    if 4096 <= node {
        return Err(Refusal::TooManyNodes);
    }
    let mut count = node + 1;
    let mut sep = opening(s, at, b']');
    loop {
        match sep {
            Sep::Shut(end) => return Ok(lay(work, node, Kind::Array, at, end, count, end)),
            Sep::On(here) => {
                let element = value(s, work, seen, here, count, left)?;
                sep = following(s, element.at, b']')?;
                count = element.node;
            }
        }
    }
}

// An object from its bracket on, each member's value with `left` brackets. Not one function with `array`: that would ask at each turn
// whether a name comes first, and its invariant would be the two of today, by cases.
#[cycle(array_object_value)]
fn object(
    s: &[u8],
    work: &mut [u32],
    seen: &mut [bool],
    at: usize,
    node: usize,
    left: usize,
) -> Result<Place, Refusal>
    requires { TreeReady s.now work.old seen.old at node left × (at < length s.now) }
    ensures { Told (obj_at s.now (read_at left s.now) node at) work.old work.new seen.old seen.new node result }
{
    if 4096 <= node {
        return Err(Refusal::TooManyNodes);
    }
    let mut count = node + 1;
    let mut sep = opening(s, at, b'}');
    loop {
        match sep {
            Sep::Shut(end) => return Ok(lay(work, node, Kind::Object, at, end, count, end)),
            Sep::On(here) => {
                let from = name(s, work, seen, node, here, count)?;
                let member = value(s, work, seen, from, count + 1, left)?;
                sep = following(s, member.at, b'}')?;
                count = member.node;
            }
        }
    }
}
