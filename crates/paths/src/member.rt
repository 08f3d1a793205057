// The member of an object whose name is the first part of a path.
ghost use Rattle.std.specs.Prelude.{cond, ◌≡◌, ◌+◌, ◌<◌};
ghost use Rattle.json_text.specs.Bytes.{same_bytes};
ghost use Rattle.json_text.specs.Cursor.{OnText};
ghost use Rattle.json_text.specs.Spans.{text_at};
ghost use Rattle.paths.specs.Path.{part};
ghost use Rattle.paths.specs.Reached.{MemberTold};
ghost use Rattle.paths.specs.Stored.{HasKind, Room, table};

// The value behind a name, if that is the part, else what was found before.
fn chosen(s: &[u8], path: &[u8], name: usize, value: usize, found: usize) -> usize
    requires { OnText path.now 0 0 × OnText s.now name 0 }
    ensures { result ≡ cond (same_bytes (part (text_at path.now 0)) (text_at s.now name)) value found }
{
    if crate::path::part_is(path, s, name) {
        return value;
    }
    found
}

// The value's node, if there is one. Names are not repeated; sorting would keep the last of a name, and so does this.
// Not one function with members' `named`: the last of a name is kept here, and a part of a path is compared.
pub fn member_of(s: &[u8], work: &[u32], node: usize, path: &[u8]) -> Option<usize>
    requires { Room work.now node × HasKind s.now (table work.now) node 6 × OnText path.now 0 0 }
    ensures { MemberTold s.now (table work.now) (part (text_at path.now 0)) node result }
{
    let end = crate::rows::after_at(work, node);
    // A loop by hand, and 0 for none in it: over `Keys` and with an Option a look-up among 400 names that part at the first byte took 1.33 times
    // the instructions and half as much time again.
    let mut found = 0;
    let mut k = node + 1;
    while k < end {
        let name = crate::rows::start_at(work, k);
        found = chosen(s, path, name, k + 1, found);
        k = crate::rows::after_at(work, k + 1);
    }
    if found == 0 { None } else { Some(found) }
}
