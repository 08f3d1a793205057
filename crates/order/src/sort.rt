// Nodes by the bytes of their texts, ascending: a merge sort.
ghost use Rattle.std.specs.Prelude.{◌++◌, ◌≡◌, ◌<◌, ◌≤◌, drop, get_or, length};
ghost use Rattle.order.specs.ByText.{Halves, Joinable, TextNode, TextNodes, by_key, is_above, is_after, key_at};

use strings::rows::start_at;
use strings::text::compare;

// Whether a node's text stands after another's.
fn is_after(s: &[u8], work: &[u32], a: usize, b: usize) -> bool
    requires { (12288 ≤ length work.now) × TextNode s.now work.now a × TextNode s.now work.now b }
    ensures { result ≡ is_after (key_at s.now work.now) a b }
{
    compare(s, start_at(work, a), start_at(work, b)).is_gt()
}

// The same nodes in a list that is as long.
// Not std's `copy_from_slice`: it calls memmove, which nothing else needs of those who link the archive.
fn copy(from: &[u16], to: &mut [u16])
    requires { length from.now ≡ length to.old }
    ensures { to.new ≡ from.now }
{
    for i in 0..from.len() {
        to[i] = from[i];
    }
}

// Whether the node at `j` of the right comes before the node at `i` of the left.
fn right_first(s: &[u8], work: &[u32], left: &[u16], i: usize, right: &[u16], j: usize) -> bool
    requires { (12288 ≤ length work.now) × TextNodes s.now work.now left.now × TextNodes s.now work.now (drop j right.now) × (i < length left.now) }
    ensures { result ≡ is_above (key_at s.now work.now) (get_or left.now i 0) (drop j right.now) }
{
    j < right.len() && is_after(s, work, usize::from(left[i]), usize::from(right[j]))
}

// Nodes in order and those behind the place where they stood, in order too, become one list in order.
fn merge(s: &[u8], work: &[u32], left: &[u16], nodes: &mut [u16])
    requires { Halves s.now work.now left.now nodes.old }
    ensures { nodes.new ≡ by_key (key_at s.now work.now) (left.now ++ drop (length left.now) nodes.old) }
{
    // three places, each of which moves on at its own pace: no one loop over a list counts them
    let mut i = 0;
    let mut j = left.len();
    let mut k = 0;
    while i < left.len() {
        if right_first(s, work, left, i, nodes, j) {
            nodes[k] = nodes[j];
            j += 1;
        } else {
            nodes[k] = left[i];
            i += 1;
        }
        k += 1;
    }
}

// The nodes up to `mid` and those behind it, each in order, become one list in order.
fn join(s: &[u8], work: &[u32], nodes: &mut [u16], mid: usize, spare: &mut [u16])
    requires { Joinable s.now work.now nodes.old mid × (mid ≤ length spare.old) }
    ensures { nodes.new ≡ by_key (key_at s.now work.now) nodes.old }
{
    // names that are written in order need no merging
    if is_after(
        s,
        work,
        usize::from(nodes[mid - 1]),
        usize::from(nodes[mid]),
    ) {
        let left = &mut spare[..mid];
        copy(&nodes[..mid], left);
        merge(s, work, left, nodes);
    }
}

// A few nodes in order: from the last one backwards, each is merged with those behind it.
fn insert_each(s: &[u8], work: &[u32], nodes: &mut [u16])
    requires { (12288 ≤ length work.now) × TextNodes s.now work.now nodes.old }
    ensures { nodes.new ≡ by_key (key_at s.now work.now) nodes.old }
{
    for i in (0..nodes.len()).rev() {
        let one = [nodes[i]];
        merge(s, work, &one, &mut nodes[i..]);
    }
}

// The nodes in order. `spare` is as long at least, and holds anything.
// Not std's `sort_unstable_by`: its comparison has to be callable on any two numbers, and this one only on nodes of texts.
pub fn sort(s: &[u8], work: &[u32], nodes: &mut [u16], spare: &mut [u16])
    requires { (12288 ≤ length work.now) × TextNodes s.now work.now nodes.old × (length nodes.old ≤ length spare.old) }
    ensures { nodes.new ≡ by_key (key_at s.now work.now) nodes.old }
{
    let n = nodes.len();
    if n < 9 {
        insert_each(s, work, nodes);
        return;
    }
    let mid = n / 2;
    sort(s, work, &mut nodes[..mid], spare);
    sort(s, work, &mut nodes[mid..], spare);
    join(s, work, nodes, mid, spare);
}
