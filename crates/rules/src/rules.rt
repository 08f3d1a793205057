// Rules in order: the first that is not True settles.
ghost use Rattle.std.specs.Prelude.{List, Option, ◌≤◌, length};
ghost use Rattle.writer.specs.Meaning.{rules_of};
ghost use Rattle.writer.specs.Texts.{TextTold};
ghost use Rattle.json_text.specs.Bytes.{Bytes};
ghost use Rattle.sheet.specs.Accepted.{Accepted, Gives, Known, MayGive, RuleGives};
ghost use Rattle.members.specs.Condition.{Condition, condition};
ghost use Rattle.members.specs.Kinds.{a_text, an_array_of};
ghost use Rattle.members.specs.Rule as all;
ghost use Rattle.members.specs.Rule.{a_rule};
ghost use Rattle.members.specs.Sheet.{Sheet};
ghost use Rattle.rules.specs.Ruled.{Checked, RuleEntered, Ruled};
ghost use Rattle.answers.specs.Rules.{check};

use crate::alone::evaluate_alone;
use crate::placed::Placed;
use semantics::truth::Truth;
use sheet::rule::{RuleMembers, members};
use sheet::shape::{Members, node_of};
use strings::rows::{after_at, start_at};
use writer::answer::{Answer, Rule, Rules};

// A text that may be missing, by its place.
fn text_of(work: &[u32], found: Option<usize>) -> Option<usize>
    requires { Known (λ (s : Bytes). Known (MayGive a_text s work.now found)) }
    ensures { (s : Bytes) (t : Option Bytes) → MayGive a_text s work.now found t → TextTold s t result }
{
    found.map(|n| start_at(work, n))
}

// A rule as an answer names it.
fn entry(work: &[u32], rules: Rules, place: usize, m: RuleMembers) -> Rule
    requires { Known (λ (s : Bytes). Known (RuleGives s work.now m)) }
    ensures { (s : Bytes) (x : all.Rule Condition) → RuleGives s work.now m x → RuleEntered s rules place x result }
{
    Rule {
        rules,
        place,
        name: text_of(work, m.name),
        message: text_of(work, m.message),
    }
}

// One rule, its own names marked and no others.
fn judge(s: &[u8], work: &mut [u32], m: Members, rules: Rules, at: Placed) -> Result<(), Answer>
    requires { (16384 ≤ length work.old) × Known (Accepted s.now work.old m) × Known (Gives (a_rule condition) s.now work.old at.node) }
    ensures { (sheet : Sheet Condition) (x : all.Rule Condition) → Accepted s.now work.old m sheet → Gives (a_rule condition) s.now work.old at.node x → Ruled s.now work.old work.new sheet (rules_of rules) at.place x result }
{
    let end = after_at(work, at.node);
    let r = members(s, work, at.node + 1, end);
    let named = entry(work, rules, at.place, r);
    match evaluate_alone(s, work, m, node_of(r.assert))? {
        Truth::True => Ok(()),
        Truth::False => Err(Answer::RuleFalse(named)),
        Truth::Unknown => Err(Answer::RuleUnknown(named)),
    }
}

// The rules of an array.
pub fn check(
    s: &[u8],
    work: &mut [u32],
    m: Members,
    rules: Rules,
    node: usize,
) -> Result<(), Answer>
    requires { (16384 ≤ length work.old) × Known (Accepted s.now work.old m) × Known (Gives (an_array_of (a_rule condition)) s.now work.old node) }
    ensures { (sheet : Sheet Condition) (xs : List (all.Rule Condition)) → Accepted s.now work.old m sheet → Gives (an_array_of (a_rule condition)) s.now work.old node xs → Checked s.now work.old work.new (check sheet (rules_of rules) 0 xs) result }
{
    let end = after_at(work, node);
    // No iterator: `judge` changes the table that the items stand in.
    let mut at = Placed {
        place: 0,
        node: node + 1,
    };
    while at.node < end {
        judge(s, work, m, rules, at)?;
        at = at.next(work);
    }
    Ok(())
}
