// The form of each answer and refusal: its line without LF.
ghost use Rattle.std.specs.Prelude.{[], ◌++◌, ◌∷◌};
ghost use Rattle.json_text.specs.Bytes.{ascii};
ghost use Rattle.json_text.specs.Cursor.{OnText};
ghost use Rattle.json_text.specs.Spans.{text_at};
ghost use Rattle.json_text.specs.Table.{value_at};
ghost use Rattle.writer.specs.Laid.{Laid};
ghost use Rattle.answers.specs.Line.{decimal_digits, false_number, form, listed, message_or, name_or, names, opened, quoted, quoted_or, refused_form, unknown_number};
ghost use Rattle.writer.specs.Meaning.{RuleHeld, names_in, rules_of};
ghost use Rattle.writer.specs.Texts.{IsText, NamesHeld, TextsHeld, text_of, texts_in};

use writer::answer::{Move, Outcome, Rule};
use writer::lay::Output;

// A space and a number.
fn number(out: &mut Output, n: usize)
    ensures { Laid out.old (32 ∷ decimal_digits n) out.new }
{
    out.byte(b' ');
    out.decimal(n);
}

// A space and a text in quotes, or other bytes where it is missing.
fn element_or(out: &mut Output, s: &[u8], text: Option<usize>, other: &[u8])
    requires { IsText s.now text }
    ensures { Laid out.old (32 ∷ quoted_or other.now (text_of s.now text)) out.new }
{
    out.byte(b' ');
    match text {
        None => out.bytes(other),
        Some(place) => out.quoted(s, place),
    }
}

// The names, the last part of a form, and its bracket.
fn close_named(out: &mut Output, s: &[u8], work: &[u32])
    requires { NamesHeld s.now work.now }
    ensures { Laid out.old ((32 ∷ names (names_in s.now work.now)) ++ (41 ∷ [])) out.new }
{
    out.byte(b' ');
    out.names(s, work);
    out.byte(b')');
}

// A truth by its word.
pub fn truth(out: &mut Output, s: &[u8], work: &[u32], word: &[u8])
    requires { NamesHeld s.now work.now }
    ensures { Laid out.old (form (ascii "truth" ∷ word.now ∷ names (names_in s.now work.now) ∷ [])) out.new }
{
    out.bytes(b"(truth ");
    out.bytes(word);
    close_named(out, s, work);
}

// An outcome that is selected or admitted.
pub fn kept(out: &mut Output, s: &[u8], word: &[u8], outcome: Outcome)
    requires { OnText s.now outcome.name 0 }
    ensures { Laid out.old (form (word.now ∷ decimal_digits outcome.place ∷ quoted (text_at s.now outcome.name) ∷ [])) out.new }
{
    out.byte(b'(');
    out.bytes(word);
    number(out, outcome.place);
    out.element(s, outcome.name);
    out.byte(b')');
}

// The start of a refusal.
pub fn refused(out: &mut Output, n: usize)
    ensures { Laid out.old (opened (ascii "refused" ∷ decimal_digits n ∷ [])) out.new }
{
    out.bytes(b"(refused");
    number(out, n);
}

// A refusal with a text.
pub fn refused_text(out: &mut Output, s: &[u8], n: usize, text: usize)
    requires { OnText s.now text 0 }
    ensures { Laid out.old (refused_form n (quoted (text_at s.now text) ∷ [])) out.new }
{
    refused(out, n);
    out.element(s, text);
    out.byte(b')');
}

// The start of a refusal at an outcome.
fn refused_outcome(out: &mut Output, s: &[u8], n: usize, outcome: Outcome)
    requires { OnText s.now outcome.name 0 }
    ensures { Laid out.old (opened (ascii "refused" ∷ decimal_digits n ∷ decimal_digits outcome.place ∷ quoted (text_at s.now outcome.name) ∷ [])) out.new }
{
    refused(out, n);
    number(out, outcome.place);
    out.element(s, outcome.name);
}

pub fn guard_unknown(out: &mut Output, s: &[u8], work: &[u32], outcome: Outcome)
    requires { OnText s.now outcome.name 0 × NamesHeld s.now work.now }
    ensures { Laid out.old (refused_form 20 (decimal_digits outcome.place ∷ quoted (text_at s.now outcome.name) ∷ names (names_in s.now work.now) ∷ [])) out.new }
{
    refused_outcome(out, s, 20, outcome);
    close_named(out, s, work);
}

pub fn not_a_source(out: &mut Output, s: &[u8], work: &[u32], m: Move)
    requires { OnText s.now m.outcome.name 0 × OnText s.now m.state 0 × TextsHeld s.now work.now m.from }
    ensures { Laid out.old
        (refused_form 22 (decimal_digits m.outcome.place ∷ quoted (text_at s.now m.outcome.name) ∷ quoted (text_at s.now m.state)
        ∷ listed (ascii "from") (texts_in (value_at s.now work.now m.from)) ∷ []))
        out.new }
{
    refused_outcome(out, s, 22, m.outcome);
    out.element(s, m.state);
    out.byte(b' ');
    out.sources(s, work, m.from);
    out.byte(b')');
}

// The start of a refusal at a rule; `other` is its message, in quotes, where it has none.
fn refused_rule(out: &mut Output, s: &[u8], n: usize, rule: Rule, other: &[u8])
    requires { RuleHeld s.now rule }
    ensures { Laid out.old
        (opened (ascii "refused" ∷ decimal_digits n ∷ decimal_digits rule.place ∷ name_or (text_of s.now rule.name)
        ∷ quoted_or other.now (text_of s.now rule.message) ∷ []))
        out.new }
{
    refused(out, n);
    number(out, rule.place);
    element_or(out, s, rule.name, b"()");
    element_or(out, s, rule.message, other);
}

// Not one function with `rule_unknown`: number, message and what ends the form differ, and each would be passed.
pub fn rule_false(out: &mut Output, s: &[u8], rule: Rule)
    requires { RuleHeld s.now rule }
    ensures { Laid out.old
        (refused_form (false_number (rules_of rule.rules)) (decimal_digits rule.place ∷ name_or (text_of s.now rule.name)
        ∷ message_or (ascii "condition evaluated to false") (text_of s.now rule.message) ∷ []))
        out.new }
{
    refused_rule(
        out,
        s,
        rule.rules.false_number(),
        rule,
        b"\"condition evaluated to false\"",
    );
    out.byte(b')');
}

pub fn rule_unknown(out: &mut Output, s: &[u8], work: &[u32], rule: Rule)
    requires { RuleHeld s.now rule × NamesHeld s.now work.now }
    ensures { Laid out.old
        (refused_form (unknown_number (rules_of rule.rules)) (decimal_digits rule.place ∷ name_or (text_of s.now rule.name)
        ∷ message_or (ascii "condition could not be evaluated") (text_of s.now rule.message) ∷ names (names_in s.now work.now) ∷ []))
        out.new }
{
    refused_rule(
        out,
        s,
        rule.rules.unknown_number(),
        rule,
        b"\"condition could not be evaluated\"",
    );
    close_named(out, s, work);
}
