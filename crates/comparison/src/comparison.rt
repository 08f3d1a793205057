// The conditions that hold operands only: `exists` and the pair forms, with their names marked.
ghost use Rattle.std.specs.Prelude.{◌≤◌};
ghost use Rattle.json_text.specs.Held.{HasNode};
ghost use Rattle.json_text.specs.Limits.{depth};
ghost use Rattle.members.specs.Condition.{exists, pair};
ghost use Rattle.comparison.specs.Answers.{EvaluatedAs};
ghost use Rattle.comparison.specs.Judge.{judge};
ghost use Rattle.members.specs.Answers.{form_of};
ghost use Rattle.paths.specs.Ready.{Ready};
ghost use Rattle.members.specs.Sheet.{sheet_in};
ghost use Rattle.paths.specs.Stored.{frames_of, table, tree};

use members::told::Form;
use operands::holds::holds;
use paths::operand::EvalError;
use paths::scope::Scope;
use resolving::resolve::resolve;
use semantics::truth::Truth;

// Whether an operand is there; its names are dropped.
pub fn exists_at(
    s: &[u8],
    work: &mut [u32],
    scope: &Scope,
    node: usize,
    left: usize,
) -> Result<Truth, EvalError>
    requires { Ready s.now work.old scope.now.roots scope.now.frames × HasNode s.now (table work.old) node × (depth (tree s.now (table work.old) node) ≤ left) }
    ensures { EvaluatedAs s.now work.old work.new result (judge (sheet_in s.now) (frames_of s.now (table work.old) scope.now.frames) (exists (tree s.now (table work.old) node))) }
{
    let found = resolve(s, work, scope, node, true, left)?;
    Ok(Truth::from(found.is_some()))
}

// Left, then right; either missing gives Unknown.
pub fn pair_at(
    s: &[u8],
    work: &mut [u32],
    scope: &Scope,
    form: Form,
    m: usize,
    n: usize,
    left: usize,
) -> Result<Truth, EvalError>
    requires { Ready s.now work.old scope.now.roots scope.now.frames × HasNode s.now (table work.old) m × HasNode s.now (table work.old) n × (depth (tree s.now (table work.old) m) ≤ left) × (depth (tree s.now (table work.old) n) ≤ left) }
    ensures { EvaluatedAs s.now work.old work.new result (judge (sheet_in s.now) (frames_of s.now (table work.old) scope.now.frames) (pair (form_of form) (tree s.now (table work.old) m) (tree s.now (table work.old) n))) }
{
    let a = resolve(s, work, scope, m, false, left)?;
    let b = resolve(s, work, scope, n, false, left)?;
    Ok(match (a, b) {
        (Some(a), Some(b)) => Truth::from(holds(s, work, scope, form, a, b)),
        _ => Truth::Unknown,
    })
}
