// The children of a node, one after the other: the elements of an array by place, the names of an object's members by ascending bytes.
ghost use Rattle.std.specs.Prelude.{◌≡◌, ◌<◌, ◌≤◌};
ghost use Rattle.json_text.specs.Table.{after_at};
ghost use Rattle.paths.specs.Children.{begun, first_at, next_of, onward};
ghost use Rattle.paths.specs.Stored.{Room, table};

// Where a walk is: the next child, where there is one below the end, and how many more there are at most.
#[derive(Clone, Copy)]
pub struct Children {
    // a flag and no const parameter: a value's kind tells which, and each caller goes the same way for both
    pub named: bool,
    pub end: usize,
    pub at: usize,
    pub left: usize,
}

// A child, and the walk behind it.
#[derive(Clone, Copy)]
pub struct Next {
    pub node: usize,
    pub rest: Children,
}

// The first child of a node, and the child after another: names by their links.
fn first_at(work: &[u32], node: usize, named: bool) -> usize
    requires { Room work.now node }
    ensures { result ≡ first_at (table work.now) named node }
{
    if named {
        crate::rows::link_at(work, node)
    } else {
        node + 1
    }
}

fn onward(work: &[u32], child: usize, named: bool) -> usize
    requires { Room work.now child }
    ensures { result ≡ onward (table work.now) named child }
{
    if named {
        crate::rows::link_at(work, child)
    } else {
        crate::rows::after_at(work, child)
    }
}

impl Children {
    pub fn of(work: &[u32], node: usize, named: bool) -> Children
        requires { Room work.now node × (node < after_at (table work.now) node) }
        ensures { result ≡ begun (table work.now) node named }
    {
        let end = crate::rows::after_at(work, node);
        Children {
            named,
            end,
            at: first_at(work, node, named),
            left: end - (node + 1),
        }
    }

    // The next child and the walk behind it. No Iterator: that would borrow the table, which is marked between the steps of a walk.
    pub fn next(self, work: &[u32]) -> Option<Next>
        requires { Room work.now 0 × (self.end ≤ 4096) }
        ensures { result ≡ next_of (table work.now) self }
    {
        if self.left == 0 || self.end <= self.at {
            return None;
        }
        Some(Next {
            node: self.at,
            rest: Children {
                at: onward(work, self.at, self.named),
                left: self.left - 1,
                ..self
            },
        })
    }
}
