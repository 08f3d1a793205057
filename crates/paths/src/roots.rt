// Expressions that no binder takes: the sheet's own members, by their nodes.
ghost use Rattle.std.specs.Prelude.{◌≡◌};
ghost use Rattle.json_text.specs.Cursor.{OnText};
ghost use Rattle.json_text.specs.Spans.{text_at};
ghost use Rattle.paths.specs.Path.{part};
ghost use Rattle.paths.specs.Rooted.{BaseTold, RootTold, root_of};
ghost use Rattle.paths.specs.Stored.{plain_at};
ghost use Rattle.paths.specs.declared.operand.Kind.TheVariants.{Object, Text};

use crate::operand::{Kind, LookupError, Operand};
use crate::path::part_is_word;

// The nodes of the sheet's members that expressions start from.
#[derive(Clone, Copy)]
pub struct Roots {
    pub id: Option<usize>,
    pub entity: usize,
    pub version: usize,
    pub from: Option<usize>,
    pub to: usize,
    pub args: usize,
    pub fields: usize,
    pub old: usize,
}

// `$state` gives `to_state`.
#[derive(Clone, Copy)]
pub enum Root {
    Id,
    Entity,
    Version,
    FromState,
    ToState,
    Args,
    Fields,
    OldFields,
}

// The root that the first part of a path names; other parts name none.
pub fn root_named(path: &[u8]) -> Option<Root>
    requires { OnText path.now 0 0 }
    ensures { result ≡ root_of (part (text_at path.now 0)) }
{
    let names: [(&[u8], Root); 9] = [
        (b"id", Root::Id),
        (b"entity", Root::Entity),
        (b"version", Root::Version),
        (b"from_state", Root::FromState),
        (b"to_state", Root::ToState),
        (b"state", Root::ToState),
        (b"args", Root::Args),
        (b"fields", Root::Fields),
        (b"old_fields", Root::OldFields),
    ];
    for (word, root) in names {
        if part_is_word(path, word) {
            return Some(root);
        }
    }
    None
}

fn text_at(node: usize) -> Operand
    ensures { result ≡ plain_at node Text }
{
    Operand::at(node, Kind::Text)
}

fn object_at(node: usize) -> Operand
    ensures { result ≡ plain_at node Object }
{
    Operand::at(node, Kind::Object)
}

// What a whole expression gives.
pub fn root_at(roots: &Roots, root: Root) -> Result<Option<Operand>, LookupError>
    ensures { RootTold roots.now root result }
{
    match root {
        Root::Id => Ok(Some(text_at(roots.id.ok_or(LookupError::NoId)?))),
        Root::Entity => Ok(Some(text_at(roots.entity))),
        Root::Version => Ok(Some(Operand::at(roots.version, Kind::Number))),
        Root::FromState => Ok(roots.from.map(text_at)),
        Root::ToState => Ok(Some(text_at(roots.to))),
        Root::Args => Ok(Some(object_at(roots.args))),
        Root::Fields => Ok(Some(object_at(roots.fields))),
        Root::OldFields => Ok(Some(object_at(roots.old))),
    }
}

// What a path may start from.
pub fn base_at(roots: &Roots, root: Root) -> Option<Operand>
    ensures { BaseTold roots.now root result }
{
    match root {
        Root::Args => Some(object_at(roots.args)),
        Root::Fields => Some(object_at(roots.fields)),
        Root::OldFields => Some(object_at(roots.old)),
        _ => None,
    }
}
