// Expressions under frames, nothing copied: touching a written node, looking an expression up, and walking on along its path call each other.
ghost use Rattle.json_text.specs.Held.{HasNode};
ghost use Rattle.json_text.specs.Spans.{text_at};
ghost use Rattle.semantics.specs.Expression.{parts};
ghost use Rattle.paths.specs.Lazy.{look, step_from, touch, walk_from};
ghost use Rattle.paths.specs.Path.{part};
ghost use Rattle.paths.specs.Reached.{BoundAs, LookedAs};
ghost use Rattle.paths.specs.Ready.{PathAt, Ready};
ghost use Rattle.members.specs.Sheet.{sheet_in};
ghost use Rattle.paths.specs.Stored.{Means, OperandAt, frames_of, operand_of, table, tree};

use paths::member::member_of;
use paths::operand::{Kind, LookupError, Operand, nothing, or_null, value_at, written_kind};
use paths::path::{part_is_word, rest_at};
use paths::roots::{base_at, root_at, root_named};
use paths::rows::{kind_at, start_at};
use paths::scope::Scope;
use paths::written::{Written, classify};
use strings::rows::Kind as RowKind;

// A written node under frames, its parts untouched. The number falls from expression to expression.
#[cycle(look_up_step_to_touch_at_walk_on)]
pub fn touch_at(s: &[u8], work: &[u32], scope: &Scope, node: usize, left: usize) -> Operand
    requires { Ready s.now work.now scope.now.roots scope.now.frames × HasNode s.now (table work.now) node }
    ensures { Means s.now (table work.now) result (touch (sheet_in s.now) left (frames_of s.now (table work.now) scope.now.frames) (tree s.now (table work.now) node)) }
{
    if left == 0 {
        return nothing();
    }
    match kind_at(work, node) {
        RowKind::Text => match classify(s, start_at(work, node)) {
            Written::Plain => Operand::at(node, Kind::Text),
            Written::Escaped(_) => Operand::at(node, Kind::Less),
            Written::Expression(next) => or_null(look_up(s, work, scope, &s[next..], left - 1)),
        },
        kind => Operand {
            node,
            depth: scope.frames.depth,
            kind: written_kind(kind),
        },
    }
}

// What the expression gives whose text behind the `$` the path is: a binder first, then the sheet.
#[cycle(look_up_step_to_touch_at_walk_on)]
pub fn look_up(
    s: &[u8],
    work: &[u32],
    scope: &Scope,
    path: &[u8],
    left: usize,
) -> Result<Option<Operand>, LookupError>
    requires { Ready s.now work.now scope.now.roots scope.now.frames × PathAt path.now }
    ensures { LookedAs s.now (table work.now) (text_at path.now 0) result (look (sheet_in s.now) (touch (sheet_in s.now) left) (frames_of s.now (table work.now) scope.now.frames) (text_at path.now 0)) }
{
    let bound = scope.frames.find(s, path);
    match rest_at(path) {
        None => match bound {
            Some(o) => Ok(Some(o)),
            None => root_at(&scope.roots, root_named(path).ok_or(LookupError::Unknown)?),
        },
        Some(next) => match bound {
            Some(o) => Ok(walk_on(s, work, scope, &path[next..], o, left)),
            None => {
                let root = root_named(path).ok_or(LookupError::Unknown)?;
                let o = base_at(&scope.roots, root).ok_or(LookupError::Unknown)?;
                if part_is_word(&path[next..], b"") {
                    return Ok(None);
                }
                Ok(walk_on(s, work, scope, &path[next..], o, left))
            }
        },
    }
}

// The member that the first part of a path names: a value of the sheet, or a written one, touched under the frames of its object.
#[cycle(look_up_step_to_touch_at_walk_on)]
pub fn step_to(
    s: &[u8],
    work: &[u32],
    scope: &Scope,
    path: &[u8],
    o: Operand,
    left: usize,
) -> Option<Operand>
    requires { Ready s.now work.now scope.now.roots scope.now.frames × PathAt path.now × OperandAt s.now (table work.now) o }
    ensures { BoundAs s.now (table work.now) result (step_from (sheet_in s.now) (touch (sheet_in s.now) left) (frames_of s.now (table work.now) scope.now.frames) (part (text_at path.now 0)) (operand_of s.now (table work.now) o)) }
{
    match o.kind {
        Kind::Object => {
            let v = member_of(s, work, o.node, path)?;
            Some(value_at(work, v))
        }
        Kind::Named => {
            let v = member_of(s, work, o.node, path)?;
            Some(touch_at(s, work, &scope.outer(o.depth), v, left))
        }
        _ => None,
    }
}

// Each step hands the rest of the text on.
#[cycle(look_up_step_to_touch_at_walk_on)]
pub fn walk_on(
    s: &[u8],
    work: &[u32],
    scope: &Scope,
    path: &[u8],
    o: Operand,
    left: usize,
) -> Option<Operand>
    requires { Ready s.now work.now scope.now.roots scope.now.frames × PathAt path.now × OperandAt s.now (table work.now) o }
    ensures { BoundAs s.now (table work.now) result (walk_from (sheet_in s.now) (touch (sheet_in s.now) left) (frames_of s.now (table work.now) scope.now.frames) (parts (text_at path.now 0)) (operand_of s.now (table work.now) o)) }
{
    let p = step_to(s, work, scope, path, o, left)?;
    match rest_at(path) {
        None => Some(p),
        Some(next) => walk_on(s, work, scope, &path[next..], p, left),
    }
}
