// A walk along the items of an array of the sheet.
ghost use Rattle.std.specs.Prelude.{◌≡◌, ◌*◌, ◌+◌, ◌<◌, ◌≤◌, length};
ghost use Rattle.json_text.specs.Table.{after_at};

use strings::rows::after_at;

// An item by its place among the others, from 0 on, and its node.
#[derive(Clone, Copy, PartialEq, Eq)]
pub struct Placed {
    pub place: usize,
    pub node: usize,
}

impl Placed {
    // The item behind this one.
    pub fn next(self, work: &[u32]) -> Placed
        requires { (self.place ≤ self.node) × (3 * self.node + 3 ≤ length work.now) × (self.node < 4096) }
        ensures { result ≡ record { place = self.place + 1; node = after_at work.now self.node } }
    {
        Placed {
            place: self.place + 1,
            node: after_at(work, self.node),
        }
    }
}
