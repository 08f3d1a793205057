// Links through the members of every object.
ghost use Rattle.std.specs.Prelude.{◌≡◌, ◌≤◌, length};
ghost use Rattle.order.specs.ByText.{TextNodes, by_key, key_at};
ghost use Rattle.order.specs.Chained.{CanGather, CanLink, CanOrder, ClearedBehind, Gathered, chained, ordered_at};
ghost use Rattle.order.specs.Ordered.{CanOrderRows, LinkedUpto, Ordered, Unordered};

use strings::rows::{Keys, Kind, after_at, kind_at};

// The nodes of the names from a place up to another, as the text has them; how many there are.
fn gather(work: &[u32], from: usize, end: usize, names: &mut [u16]) -> usize
    requires { CanGather work.now from end (length names.old) }
    ensures { Gathered work.now from end names.new result }
{
    // the list is lent, so how many names it has stands beside it
    let mut count = 0;
    for k in Keys::new(work, from, end) {
        names[count] = k as u16;
        count += 1;
    }
    count
}

// From a node through its names in their order, and then to the end.
fn link_names(
    s: &[u8],
    work: &mut [u32],
    node: usize,
    names: &mut [u16],
    spare: &mut [u16],
    end: usize,
)
    requires { CanLink work.old node end × TextNodes s.now work.old names.old × (length names.old ≤ length spare.old) }
    ensures { work.new ≡ chained work.old node (by_key (key_at s.now work.old) names.old) end }
{
    crate::sort::sort(s, work, names, spare);
    crate::links::chain(work, node, names, end);
}

// An object's names are linked in their order.
// Two lists and no struct of them: the sort lends a part of the one and all of the other. They lie on the stack, since there is no heap.
fn order_at(s: &[u8], work: &mut [u32], node: usize, names: &mut [u16], spare: &mut [u16])
    requires { CanOrder s.now work.old node (length names.old) (length spare.old) }
    ensures { work.new ≡ ordered_at s.now work.old node }
{
    let end = after_at(work, node);
    let count = gather(work, node + 1, end, names);
    link_names(s, work, node, &mut names[..count], spare, end);
}

// No row behind the last node looks like an object's.
fn clear_behind(work: &mut [u32], count: usize)
    requires { (16384 ≤ length work.old) × (count ≤ 4096) }
    ensures { ClearedBehind work.old count work.new }
{
    work[3 * count..12288].fill(0);
}

// The objects among so many rows, one after the other.
fn order_rows(s: &[u8], work: &mut [u32], count: usize, names: &mut [u16], spare: &mut [u16])
    requires { CanOrderRows s.now work.old count (length names.old) (length spare.old) }
    ensures { LinkedUpto s.now work.old work.new count }
{
    for k in 0..count {
        if kind_at(work, k) == Kind::Object {
            order_at(s, work, k, names, spare);
        }
    }
}

// Every object's names are linked in their order; no row behind the last node looks like one.
pub fn order(s: &[u8], work: &mut [u32])
    requires { Unordered s.now work.old }
    ensures { Ordered s.now work.old work.new }
{
    let count = after_at(work, 0);
    clear_behind(work, count);
    let mut names = [0u16; 2048];
    let mut spare = [0u16; 2048];
    order_rows(s, work, count, &mut names, &mut spare);
}
