// A node's link: twice the next node, in the word behind the rows whose lowest bit is the node's mark.
ghost use Rattle.std.specs.Prelude.{◌≡◌};
ghost use Rattle.order.specs.Chained.{AllSmall, CanLink, chained, linked};

// A node's link to the next.
fn link(work: &mut [u32], node: usize, next: usize)
    requires { CanLink work.old node next }
    ensures { work.new ≡ linked work.old node next }
{
    work[12288 + node] = (2 * next) as u32;
}

// From a node through the names, and then to the end.
pub fn chain(work: &mut [u32], node: usize, names: &[u16], end: usize)
    requires { CanLink work.old node end × AllSmall names.now }
    ensures { work.new ≡ chained work.old node names.now end }
{
    let mut at = node;
    for name in names {
        let next = usize::from(*name);
        link(work, at, next);
        at = next;
    }
    link(work, at, end);
}
