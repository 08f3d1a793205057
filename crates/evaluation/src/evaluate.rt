// A condition of an accepted sheet, from outside every binder.
ghost use Rattle.std.specs.Prelude.{[], ◌≡◌, ◌≤◌, length};
ghost use Rattle.sheet.specs.Accepted.{Accepted, Gives, Known};
ghost use Rattle.members.specs.Condition.{Condition, condition};
ghost use Rattle.members.specs.Sheet.{Sheet};
ghost use Rattle.semantics.specs.Evaluate.{evaluate};
ghost use Rattle.semantics.specs.Semantics.{kernel};
ghost use Rattle.comparison.specs.Answers.{EvaluatedAs};
ghost use Rattle.comparison.specs.Entry.{roots_of};

use paths::operand::EvalError;
use paths::roots::Roots;
use paths::scope::Scope;
use semantics::truth::Truth;
use sheet::shape::Members;

// The nodes that expressions start from. Neither type is this crate's, so it is no `From`; `Roots` is a type of its own, since paths knows of no sheet's members.
fn roots_of(m: Members) -> Roots
    ensures { result ≡ roots_of m }
{
    Roots {
        id: m.id,
        entity: m.entity,
        version: m.version,
        from: m.from_state,
        to: m.to_state,
        args: m.args,
        fields: m.fields,
        old: m.old_fields,
    }
}

// A condition of an accepted sheet: its truth with its names marked, or 13 or 14.
pub fn evaluate_condition(
    s: &[u8],
    work: &mut [u32],
    m: Members,
    node: usize,
) -> Result<Truth, EvalError>
    requires { (16384 ≤ length work.old) × Known (Accepted s.now work.old m) × Known (Gives condition s.now work.old node) }
    ensures { (sheet : Sheet Condition) (c : Condition) → Accepted s.now work.old m sheet → Gives condition s.now work.old node c → EvaluatedAs s.now work.old work.new result (evaluate kernel sheet [] c) }
{
    crate::condition::evaluate(s, work, &Scope::new(roots_of(m)), node, 64)
}
