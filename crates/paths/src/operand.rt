// A resolved operand: a value of the sheet, or a written array or object with the number of frames that it is read under.
ghost use Rattle.std.specs.Prelude.{◌≡◌};
ghost use Rattle.paths.specs.Reached.{NullTold, ValueTold, error_at, value_kind, written_kind};
ghost use Rattle.paths.specs.declared.operand.Kind.TheVariants.{Null};
ghost use Rattle.paths.specs.Layered.{class_of};
ghost use Rattle.paths.specs.Stored.{Room, plain_at, table};
ghost use Rattle.strings.specs.Answers.{code_of};

use strings::rows::Kind as RowKind;

// Which kind of value it is. Less is a text less its first `$`; Listed and Named are a written array and object.
// Not the rows' kinds: a text less its `$`, a written array and a written object are kinds of their own. The paper names the form.
#[derive(Clone, Copy, PartialEq, Eq)]
pub enum Kind {
    Null,
    False,
    True,
    Number,
    Text,
    Less,
    Array,
    Object,
    Listed,
    Named,
}

impl Kind {
    // What the kinds have in common: the kind of row that such a value is written as.
    pub fn class(self) -> RowKind
        ensures { result ≡ class_of self }
    {
        match self {
            Kind::Null => RowKind::Null,
            Kind::False => RowKind::False,
            Kind::True => RowKind::True,
            Kind::Number => RowKind::Number,
            Kind::Text | Kind::Less => RowKind::Text,
            Kind::Array | Kind::Listed => RowKind::Array,
            Kind::Object | Kind::Named => RowKind::Object,
        }
    }
}

#[derive(Clone, Copy)]
pub struct Operand {
    pub node: usize,
    pub depth: usize,
    pub kind: Kind,
}

impl Operand {
    // An operand that is read under no frames.
    pub fn at(node: usize, kind: Kind) -> Operand
        ensures { result ≡ plain_at node kind }
    {
        Operand {
            node,
            depth: 0,
            kind,
        }
    }
}

// Why an expression names nothing of the sheet: the refusals 13 and 14.
#[derive(Clone, Copy, PartialEq, Eq)]
pub enum LookupError {
    Unknown,
    NoId,
}

// The kind of a row, as that of a value of the sheet.
// Two functions and no From: a row's kind is one kind as a value of the sheet and another as a written value.
pub fn value_kind(kind: RowKind) -> Kind
    ensures { result ≡ value_kind (code_of kind) }
{
    match kind {
        RowKind::Null => Kind::Null,
        RowKind::True => Kind::True,
        RowKind::False => Kind::False,
        RowKind::Number => Kind::Number,
        RowKind::Text => Kind::Text,
        RowKind::Array => Kind::Array,
        RowKind::Object | RowKind::Free => Kind::Object,
    }
}

// And as that of a written value, but for a text.
pub fn written_kind(kind: RowKind) -> Kind
    ensures { result ≡ written_kind (code_of kind) }
{
    match kind {
        RowKind::Array => Kind::Listed,
        RowKind::Object => Kind::Named,
        _ => value_kind(kind),
    }
}

// The value at a node.
pub fn value_at(work: &[u32], node: usize) -> Operand
    requires { Room work.now node }
    ensures { ValueTold (table work.now) node result }
{
    Operand::at(node, value_kind(crate::rows::kind_at(work, node)))
}

// What was found, or null.
// A match: `found.ok().flatten().unwrap_or_else(nothing)` says the same in three steps.
pub fn or_null(found: Result<Option<Operand>, LookupError>) -> Operand
    ensures { NullTold found result }
{
    match found {
        Ok(Some(o)) => o,
        _ => nothing(),
    }
}

pub fn nothing() -> Operand
    ensures { result ≡ plain_at 0 Null }
{
    Operand::at(0, Kind::Null)
}

// Why an operand or a condition gives nothing: the refusal 13 with the expression's node, or 14.
#[derive(Clone, Copy, PartialEq, Eq)]
pub enum EvalError {
    UnknownExpression(usize),
    NoId,
}

impl LookupError {
    // The same of the expression at a node.
    pub fn at(self, node: usize) -> EvalError
        ensures { result ≡ error_at self node }
    {
        match self {
            LookupError::Unknown => EvalError::UnknownExpression(node),
            LookupError::NoId => EvalError::NoId,
        }
    }
}
