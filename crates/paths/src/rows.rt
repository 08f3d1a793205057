// Words of a node's row, and its link. Marking changes none of them, and so the contracts speak of the table without its marks: callers need no law of it.
ghost use Rattle.std.specs.Prelude.{◌≡◌};
ghost use Rattle.json_text.specs.Links.{link_at};
ghost use Rattle.json_text.specs.Table.{after_at, end_at, kind_at, start_at};
ghost use Rattle.paths.specs.Stored.{Room, table};
ghost use Rattle.strings.specs.Answers.{code_of};

use strings::rows::Kind;

pub fn kind_at(work: &[u32], node: usize) -> Kind
    requires { Room work.now node }
    ensures { code_of result ≡ kind_at (table work.now) node }
{
    strings::rows::kind_at(work, node)
}

pub fn start_at(work: &[u32], node: usize) -> usize
    requires { Room work.now node }
    ensures { result ≡ start_at (table work.now) node }
{
    strings::rows::start_at(work, node)
}

pub fn end_at(work: &[u32], node: usize) -> usize
    requires { Room work.now node }
    ensures { result ≡ end_at (table work.now) node }
{
    strings::rows::end_at(work, node)
}

pub fn after_at(work: &[u32], node: usize) -> usize
    requires { Room work.now node }
    ensures { result ≡ after_at (table work.now) node }
{
    strings::rows::after_at(work, node)
}

pub fn link_at(work: &[u32], node: usize) -> usize
    requires { Room work.now node }
    ensures { result ≡ link_at (table work.now) node }
{
    (work[12288 + node] / 2) as usize
}
