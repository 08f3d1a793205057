// Operands: a written value under frames, every part looked at and none kept. A missing expression's node is marked, unless quiet.
ghost use Rattle.std.specs.Prelude.{◌≡◌, ◌*◌, ◌+◌, ◌<◌, ◌≤◌, length, set};
ghost use Rattle.json_text.specs.Held.{HasNode};
ghost use Rattle.json_text.specs.Limits.{depth};
ghost use Rattle.json_text.specs.Links.{link_at};
ghost use Rattle.paths.specs.Lazy.{operand};
ghost use Rattle.paths.specs.Matched.{Holds};
ghost use Rattle.paths.specs.Marks.{Observed, ResolvedAs, but_null, gathered_of, missed};
ghost use Rattle.paths.specs.Ready.{Ready};
ghost use Rattle.members.specs.Sheet.{sheet_in};
ghost use Rattle.paths.specs.Stored.{HasKind, frames_of, table, tree};

use crate::layer::value_node;
use crate::reach::look_up;
use paths::children::Children;
use paths::operand::{EvalError, Kind, Operand, value_kind};
use paths::rows::{kind_at, start_at};
use paths::scope::Scope;
use paths::written::{Written, classify};
use strings::rows::Kind as RowKind;

fn mark(work: &mut [u32], node: usize)
    requires { (16384 ≤ length work.old) × (node < 4096) }
    ensures { work.new ≡ set work.old (12288 + node) (2 * link_at work.old node + 1) }
{
    let at = 12288 + node;
    work[at] = 2 * (work[at] / 2) + 1;
}

// A missing expression's node is marked, unless quiet.
// A flag and no closure: what it would change is the table that is lent beside it, and each function of the cycle would have to carry what it promises.
fn miss(work: &mut [u32], node: usize, quiet: bool)
    requires { (16384 ≤ length work.old) × (node < 4096) }
    ensures { work.new ≡ missed quiet work.old node }
{
    if !quiet {
        mark(work, node);
    }
}

// What an expression gave: null is missing.
fn observed(work: &mut [u32], found: Option<Operand>, node: usize, quiet: bool) -> Option<Operand>
    requires { (16384 ≤ length work.old) × (node < 4096) }
    ensures { Observed quiet work.old work.new found node result }
{
    let there = but_null(found);
    if there.is_none() {
        miss(work, node, quiet);
    }
    there
}

// What was found, but for null.
fn but_null(found: Option<Operand>) -> Option<Operand>
    ensures { result ≡ but_null found }
{
    found.filter(|o| o.kind != Kind::Null)
}

pub fn resolve_text(
    s: &[u8],
    work: &mut [u32],
    scope: &Scope,
    node: usize,
    quiet: bool,
) -> Result<Option<Operand>, EvalError>
    requires { Ready s.now work.old scope.now.roots scope.now.frames × HasKind s.now (table work.old) node 4 }
    ensures { ResolvedAs quiet s.now work.old work.new result (operand (sheet_in s.now) (frames_of s.now (table work.old) scope.now.frames) (tree s.now (table work.old) node)) }
{
    match classify(s, start_at(work, node)) {
        Written::Plain => Ok(Some(Operand::at(node, Kind::Text))),
        Written::Escaped(_) => Ok(Some(Operand::at(node, Kind::Less))),
        // a match and no `map_err`: both arms change what they hold
        Written::Expression(next) => match look_up(s, work, scope, &s[next..], scope.frames.depth) {
            Ok(found) => Ok(observed(work, found, node, quiet)),
            Err(e) => Err(e.at(node)),
        },
    }
}

// A whole whose parts were all looked at.
fn gathered(node: usize, depth: usize, named: bool, whole: bool) -> Option<Operand>
    ensures { result ≡ gathered_of node depth named whole }
{
    let kind = if named { Kind::Named } else { Kind::Listed };
    whole.then_some(Operand { node, depth, kind })
}

#[cycle(resolve_resolve_parts)]
pub fn resolve(
    s: &[u8],
    work: &mut [u32],
    scope: &Scope,
    node: usize,
    quiet: bool,
    left: usize,
) -> Result<Option<Operand>, EvalError>
    requires { Ready s.now work.old scope.now.roots scope.now.frames × HasNode s.now (table work.old) node × (depth (tree s.now (table work.old) node) ≤ left) }
    ensures { ResolvedAs quiet s.now work.old work.new result (operand (sheet_in s.now) (frames_of s.now (table work.old) scope.now.frames) (tree s.now (table work.old) node)) }
{
    match kind_at(work, node) {
        RowKind::Text => resolve_text(s, work, scope, node, quiet),
        RowKind::Array => resolve_parts(s, work, scope, node, false, quiet, left),
        RowKind::Object => resolve_parts(s, work, scope, node, true, quiet, left),
        kind => Ok(Some(Operand::at(node, value_kind(kind)))),
    }
}

// Elements by place, members by ascending key, up to the first refusal.
#[cycle(resolve_resolve_parts)]
fn resolve_parts(
    s: &[u8],
    work: &mut [u32],
    scope: &Scope,
    node: usize,
    named: bool,
    quiet: bool,
    left: usize,
) -> Result<Option<Operand>, EvalError>
    requires { Ready s.now work.old scope.now.roots scope.now.frames × Holds s.now (table work.old) named node × (depth (tree s.now (table work.old) node) ≤ left) }
    ensures { ResolvedAs quiet s.now work.old work.new result (operand (sheet_in s.now) (frames_of s.now (table work.old) scope.now.frames) (tree s.now (table work.old) node)) }
{
    let mut whole = true;
    let mut c = Children::of(work, node, named);
    while let Some(x) = c.next(work) {
        let v = value_node(named, x.node);
        let part = resolve(s, work, scope, v, quiet, left - 1)?;
        whole &= part.is_some();
        c = x.rest;
    }
    Ok(gathered(node, scope.frames.depth, named, whole))
}
