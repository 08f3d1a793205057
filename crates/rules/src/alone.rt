// A condition evaluated alone.
ghost use Rattle.std.specs.Prelude.{List, ℕ, [], ◌≤◌, length};
ghost use Rattle.comparison.specs.Answers.{EvaluatedAs};
ghost use Rattle.json_text.specs.Bytes.{Bytes};
ghost use Rattle.json_text.specs.Refusal.{Result};
ghost use Rattle.semantics.specs.Evaluate as evaluated;
ghost use Rattle.semantics.specs.Evaluate.{evaluate};
ghost use Rattle.semantics.specs.Semantics.{kernel};
ghost use Rattle.sheet.specs.Accepted.{Accepted, Gives, Known};
ghost use Rattle.members.specs.Condition.{Condition, condition};
ghost use Rattle.members.specs.Sheet.{Sheet};
ghost use Rattle.rules.specs.Alone.{Alone, RefusedAt};
ghost use Rattle.rules.specs.Told.{Stops};

use crate::marks::clear_marks;
use evaluation::evaluate::evaluate_condition;
use paths::operand::EvalError;
use paths::rows::start_at;
use semantics::truth::Truth;
use sheet::shape::Members;
use writer::answer::Answer;

// A condition that gives no truth, as an answer names it.
fn refused(work: &[u32], why: EvalError) -> Answer
    requires { (16384 ≤ length work.now) × Known (λ (s : Bytes). RefusedAt s work.now why) }
    ensures { (s : Bytes) (w : List ℕ) (x : Result evaluated.Answer) → EvaluatedAs s w work.now (Err why) x → Stops s work.now x result }
{
    match why {
        EvalError::UnknownExpression(n) => Answer::UnknownExpression(start_at(work, n)),
        EvalError::NoId => Answer::NoId,
    }
}

// A condition's truth with its own names marked and no others, or 13 or 14.
pub fn evaluate_alone(s: &[u8], work: &mut [u32], m: Members, node: usize) -> Result<Truth, Answer>
    requires { (16384 ≤ length work.old) × Known (Accepted s.now work.old m) × Known (Gives condition s.now work.old node) }
    ensures { (sheet : Sheet Condition) (c : Condition) → Accepted s.now work.old m sheet → Gives condition s.now work.old node c → Alone s.now work.old work.new result (evaluate kernel sheet [] c) }
{
    clear_marks(work);
    // No `map_err`: a proof can't read what `refused` ensures through the closure.
    match evaluate_condition(s, work, m, node) {
        Ok(t) => Ok(t),
        Err(why) => Err(refused(work, why)),
    }
}
