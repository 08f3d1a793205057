// One layer of an operand: its class, its text or number, and a part by its node.
ghost use Rattle.std.specs.Prelude.{◌≡◌, ◌+◌, ◌<◌};
ghost use Rattle.number.specs.Compare.{number_order};
ghost use Rattle.json_text.specs.Orders.{order_of};
ghost use Rattle.json_text.specs.Held.{HasNode};
ghost use Rattle.paths.specs.Children.{ChildAt};
ghost use Rattle.paths.specs.Layered.{Flat, LeavesAlike, TextPlace, class_of, digits_of, names_agree, part_at, value_node};
ghost use Rattle.paths.specs.Ready.{Ready};
ghost use Rattle.members.specs.Sheet.{sheet_in};
ghost use Rattle.paths.specs.Stored.{HasKind, Means, OperandAt, Room, frames_of, table};
ghost use Rattle.strings.specs.declared.rows.Kind.TheVariants.{Text};

use paths::operand::{Kind, Operand};
use paths::rows::{end_at, start_at};
use paths::scope::Scope;
use std::cmp::Ordering;
use strings::rows::Kind as RowKind;

// The place of a text: less its `$`, the place behind that.
pub fn text_place(s: &[u8], work: &[u32], o: Operand) -> usize
    requires { Room work.now 0 × OperandAt s.now (table work.now) o × (class_of o.kind ≡ Text) }
    ensures { TextPlace s.now (table work.now) o result }
{
    let start = start_at(work, o.node);
    match o.kind {
        Kind::Less => paths::written::unit_at(s, start).map_or(start, |dollar| dollar.next),
        _ => start,
    }
}

// The order of the numbers at two nodes.
pub fn number_order(s: &[u8], work: &[u32], m: usize, n: usize) -> Ordering
    requires { Room work.now 0 × HasKind s.now (table work.now) m 3 × HasKind s.now (table work.now) n 3 }
    ensures { order_of result ≡ number_order (digits_of s.now (table work.now) m) (digits_of s.now (table work.now) n) }
{
    let a = &s[start_at(work, m)..end_at(work, m)];
    let b = &s[start_at(work, n)..end_at(work, n)];
    number::compare(a, b)
}

// Whether two of one class that hold no parts are equal.
pub fn same_leaf(s: &[u8], work: &[u32], a: Operand, b: Operand, class: RowKind) -> bool
    requires { Room work.now 0 × OperandAt s.now (table work.now) a × OperandAt s.now (table work.now) b × Flat class × (class_of a.kind ≡ class) × (class_of b.kind ≡ class) }
    ensures { LeavesAlike s.now (table work.now) result a b }
{
    match class {
        RowKind::Number => number_order(s, work, a.node, b.node).is_eq(),
        RowKind::Text => strings::text::same(s, text_place(s, work, a), text_place(s, work, b)),
        _ => true,
    }
}

// The part at a node below an operand: a written one is touched under the frames of the whole.
pub fn part_of(s: &[u8], work: &[u32], scope: &Scope, o: Operand, node: usize) -> Operand
    requires { Ready s.now work.now scope.now.roots scope.now.frames × HasNode s.now (table work.now) node }
    ensures { Means s.now (table work.now) result (part_at (sheet_in s.now) s.now (table work.now) (frames_of s.now (table work.now) scope.now.frames) o node) }
{
    match o.kind {
        Kind::Listed | Kind::Named => {
            let under = scope.outer(o.depth);
            crate::reach::touch_at(s, work, &under, node, under.frames.depth + 1)
        }
        _ => paths::operand::value_at(work, node),
    }
}

// The value's node of a child: behind its name in an object.
pub fn value_node(named: bool, child: usize) -> usize
    requires { child < 4096 }
    ensures { result ≡ value_node named child }
{
    if named { child + 1 } else { child }
}

// Whether the names of two children agree.
pub fn names_agree(s: &[u8], work: &[u32], named: bool, i: usize, j: usize) -> bool
    requires { Room work.now 0 × ChildAt s.now (table work.now) named i × ChildAt s.now (table work.now) named j }
    ensures { result ≡ names_agree s.now (table work.now) named i j }
{
    !named || strings::text::same(s, start_at(work, i), start_at(work, j))
}
