// Equality of two operands: layer by layer, a number falling that bounds how deep resolved values nest.
ghost use Rattle.std.specs.Prelude.{◌≡◌};
ghost use Rattle.paths.specs.Comparing.{alike};
ghost use Rattle.paths.specs.Layered.{alike_nodes, kids, part_at};
ghost use Rattle.paths.specs.Matched.{Paired};
ghost use Rattle.paths.specs.Ready.{Ready};
ghost use Rattle.members.specs.Sheet.{sheet_in};
ghost use Rattle.paths.specs.Stored.{OperandAt, frames_of, operand_of, table};

use paths::children::Children;
use paths::operand::Operand;
use paths::scope::Scope;
use resolving::layer::{names_agree, part_of, same_leaf, value_node};
use strings::rows::Kind;

#[cycle(equal_at_equal_parts)]
pub fn equal_at(s: &[u8], work: &[u32], scope: &Scope, a: Operand, b: Operand, left: usize) -> bool
    requires { Ready s.now work.now scope.now.roots scope.now.frames × OperandAt s.now (table work.now) a × OperandAt s.now (table work.now) b }
    ensures { result ≡ alike (sheet_in s.now) left (frames_of s.now (table work.now) scope.now.frames) (operand_of s.now (table work.now) a) (operand_of s.now (table work.now) b) }
{
    if left == 0 {
        return false;
    }
    let class = a.kind.class();
    if class != b.kind.class() {
        return false;
    }
    match class {
        Kind::Array => equal_parts(s, work, scope, a, b, false, left - 1),
        Kind::Object => equal_parts(s, work, scope, a, b, true, left - 1),
        _ => same_leaf(s, work, a, b, class),
    }
}

// Two arrays place by place, or two objects name by name.
#[cycle(equal_at_equal_parts)]
fn equal_parts(
    s: &[u8],
    work: &[u32],
    scope: &Scope,
    a: Operand,
    b: Operand,
    named: bool,
    left: usize,
) -> bool
    requires { Ready s.now work.now scope.now.roots scope.now.frames × Paired s.now (table work.now) named a b }
    ensures { result ≡ alike_nodes s.now (table work.now) (alike (sheet_in s.now) left (frames_of s.now (table work.now) scope.now.frames)) named (part_at (sheet_in s.now) s.now (table work.now) (frames_of s.now (table work.now) scope.now.frames) a) (part_at (sheet_in s.now) s.now (table work.now) (frames_of s.now (table work.now) scope.now.frames) b) (kids s.now (table work.now) a.node named) (kids s.now (table work.now) b.node named) }
{
    let mut x = Children::of(work, a.node, named);
    let mut y = Children::of(work, b.node, named);
    while let Some(p) = x.next(work) {
        let Some(q) = y.next(work) else {
            return false;
        };
        if !names_agree(s, work, named, p.node, q.node) {
            return false;
        }
        let u = part_of(s, work, scope, a, value_node(named, p.node));
        let v = part_of(s, work, scope, b, value_node(named, q.node));
        if !equal_at(s, work, scope, u, v, left) {
            return false;
        }
        x = p.rest;
        y = q.rest;
    }
    y.next(work).is_none()
}
