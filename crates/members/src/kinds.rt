// Kinds of members: what a value must be where a sheet, a rule, an outcome or an effect has it. Each test asks one thing of a node; all have
// one shape, so that any of them can be passed where a test is asked.
ghost use Rattle.std.specs.Prelude.{◌≡◌};
ghost use Rattle.strings.specs.Answers.{FoundIn, found_of};
ghost use Rattle.json_text.specs.Held.{AreNodes, IsNode};
ghost use Rattle.json_text.specs.Table.{value_at, values_at};
ghost use Rattle.members.specs.Kinds.{a_bool, a_text, a_version, an_array_of, an_object, is_version, not_null, some_texts};
ghost use Rattle.members.specs.Verdicts.{all_of, is_ok};
ghost use Rattle.members.specs.Wants.{MayTest, Tells, allowed, array_where, needed};

use strings::rows::{Elements, Kind, after_at, end_at, kind_at, start_at};

// Whether characters are digits alone and spell at most 4,294,967,295. By hand: `parse` takes a str, and also a sign.
pub fn is_version_number(digits: &[u8]) -> bool
    ensures { result ≡ is_version digits.now }
{
    let mut n: u64 = 0;
    for c in digits {
        if !c.is_ascii_digit() {
            return false;
        }
        n = n * 10 + u64::from(*c - b'0');
        if n > 4294967295 {
            return false;
        }
    }
    true
}

// Whether a node is a text.
pub fn is_text(s: &[u8], work: &[u32], node: usize) -> bool
    requires { IsNode s.now work.now 64 node }
    ensures { result ≡ is_ok (a_text (value_at s.now work.now node)) }
{
    kind_at(work, node) == Kind::Text
}

// Whether a node is true or false.
pub fn is_bool(s: &[u8], work: &[u32], node: usize) -> bool
    requires { IsNode s.now work.now 64 node }
    ensures { result ≡ is_ok (a_bool (value_at s.now work.now node)) }
{
    matches!(kind_at(work, node), Kind::True | Kind::False)
}

// Whether a node is an object.
pub fn is_object(s: &[u8], work: &[u32], node: usize) -> bool
    requires { IsNode s.now work.now 64 node }
    ensures { result ≡ is_ok (an_object (value_at s.now work.now node)) }
{
    kind_at(work, node) == Kind::Object
}

// Whether a node is anything but null.
pub fn is_present(s: &[u8], work: &[u32], node: usize) -> bool
    requires { IsNode s.now work.now 64 node }
    ensures { result ≡ is_ok (not_null (value_at s.now work.now node)) }
{
    kind_at(work, node) != Kind::Null
}

// Whether a node is a version: a number of digits alone that is not too large.
pub fn is_version(s: &[u8], work: &[u32], node: usize) -> bool
    requires { IsNode s.now work.now 64 node }
    ensures { result ≡ is_ok (a_version (value_at s.now work.now node)) }
{
    kind_at(work, node) == Kind::Number
        && is_version_number(&s[start_at(work, node)..end_at(work, node)])
}

// Whether each of the nodes from `from` up to `end` passes the test.
pub fn all_of<F: Fn(&[u8], &[u32], usize) -> bool>(
    s: &[u8],
    work: &[u32],
    from: usize,
    end: usize,
    test: F,
) -> bool
    requires nodes { AreNodes s.now work.now 64 from end }
    requires test { MayTest (F.pre test) }
    ensures { (p : _) → Tells (F.post test) p → result ≡ all_of p (values_at s.now work.now from end) }
{
    for k in Elements::new(work, from, end) {
        if !test(s, work, k) {
            return false;
        }
    }
    true
}

// Whether a node is an array each element of which passes the test.
pub fn is_array_of<F: Fn(&[u8], &[u32], usize) -> bool>(
    s: &[u8],
    work: &[u32],
    node: usize,
    test: F,
) -> bool
    requires node { IsNode s.now work.now 64 node }
    requires test { MayTest (F.pre test) }
    ensures { (p : _) → Tells (F.post test) p → result ≡ array_where p (value_at s.now work.now node) }
{
    kind_at(work, node) == Kind::Array && all_of(s, work, node + 1, after_at(work, node), test)
}

// Whether a node is an array of texts.
pub fn are_texts(s: &[u8], work: &[u32], node: usize) -> bool
    requires { IsNode s.now work.now 64 node }
    ensures { result ≡ is_ok (an_array_of a_text (value_at s.now work.now node)) }
{
    is_array_of(s, work, node, is_text)
}

// Whether a node is a text or an array of texts.
pub fn is_text_or_texts(s: &[u8], work: &[u32], node: usize) -> bool
    requires { IsNode s.now work.now 64 node }
    ensures { result ≡ is_ok (some_texts (value_at s.now work.now node)) }
{
    is_text(s, work, node) || are_texts(s, work, node)
}

// Whether a member that must be there passes the test. `needs` and `allows` differ in what they say of a missing member alone: their two names
// say it where a sheet's members are listed, as `is_some_and` and `is_none_or` do in the library.
pub fn needs<F: Fn(&[u8], &[u32], usize) -> bool>(
    s: &[u8],
    work: &[u32],
    found: Option<usize>,
    test: F,
) -> bool
    requires node { FoundIn s.now work.now found }
    requires test { MayTest (F.pre test) }
    ensures { (p : _) → Tells (F.post test) p → result ≡ needed p (found_of s.now work.now found) }
{
    // a match and no `is_some_and`: its closure would have to be callable on any number, and `test` may ask for a node
    match found {
        None => false,
        Some(n) => test(s, work, n),
    }
}

// Whether a member that may be missing passes the test.
pub fn allows<F: Fn(&[u8], &[u32], usize) -> bool>(
    s: &[u8],
    work: &[u32],
    found: Option<usize>,
    test: F,
) -> bool
    requires node { FoundIn s.now work.now found }
    requires test { MayTest (F.pre test) }
    ensures { (p : _) → Tells (F.post test) p → result ≡ allowed p (found_of s.now work.now found) }
{
    // a match and no `is_none_or`, for the same reason
    match found {
        None => true,
        Some(n) => test(s, work, n),
    }
}
