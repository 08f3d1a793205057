// The whole shape of a sheet: 9, then 10 and 11; and where its members stand.
ghost use Rattle.std.specs.Prelude.{◌≡◌};
ghost use Rattle.sheet.specs.Accepted.{Shaped, Stored, members_of, misshapen_by, node_of};

use crate::sheet::{SheetMembers, are_sheet, members};
use crate::written::first_fault;
use members::told::Fault;
use strings::rows::{Kind, after_at, kind_at};

// The nodes of an accepted sheet's members. Those that may be missing are as they were found.
// Not one generic type with `SheetMembers`: four members may be missing in both, and `placed` would still go field by field.
#[derive(Clone, Copy)]
pub struct Members {
    pub id: Option<usize>,
    pub entity: usize,
    pub version: usize,
    pub args: usize,
    pub fields: usize,
    pub old_fields: usize,
    pub from_state: Option<usize>,
    pub to_state: usize,
    pub state: Option<usize>,
    pub states: usize,
    pub condition: Option<usize>,
    pub preconditions: usize,
    pub invariants: usize,
    pub outcomes: usize,
}

// Why a tree is no sheet: the refusals 9, 10 and 11.
#[derive(Clone, Copy, PartialEq, Eq)]
pub enum Misshapen {
    WrongSheet,
    WrongShape,
    NotCarried,
}

impl From<Fault> for Misshapen {
    ghost from_gives = { λ fault e. e ≡ misshapen_by fault };

    fn from(fault: Fault) -> Misshapen {
        match fault {
            Fault::Shape => Misshapen::WrongShape,
            Fault::NotCarried => Misshapen::NotCarried,
        }
    }
}

// The node of a member that is there. Where it is not, no one asks for it.
// No `unwrap`: `placed` answers for any members, so it can ask of none that it is there.
pub fn node_of(found: Option<usize>) -> usize
    ensures { result ≡ node_of found }
{
    found.unwrap_or(0)
}

// The members of a sheet whose required members are there.
// No `From`: it is right only for members that were looked for in a sheet, and says so by its name.
pub fn placed(m: SheetMembers) -> Members
    ensures { result ≡ members_of m }
{
    Members {
        id: m.id,
        entity: node_of(m.entity),
        version: node_of(m.version),
        args: node_of(m.args),
        fields: node_of(m.fields),
        old_fields: node_of(m.old_fields),
        from_state: m.from_state,
        to_state: node_of(m.to_state),
        state: m.state,
        states: node_of(m.states),
        condition: m.condition,
        preconditions: node_of(m.preconditions),
        invariants: node_of(m.invariants),
        outcomes: node_of(m.outcomes),
    }
}

// The shape of the sheet that the table holds.
pub fn shape_of(s: &[u8], work: &[u32]) -> Result<Members, Misshapen>
    requires { Stored s.now work.now }
    ensures { Shaped s.now work.now result }
{
    // first: only an object has members to look for
    if kind_at(work, 0) != Kind::Object {
        return Err(Misshapen::WrongSheet);
    }
    let end = after_at(work, 0);
    let m = members(s, work, 1, end);
    if !are_sheet(s, work, 1, end, m) {
        return Err(Misshapen::WrongSheet);
    }
    first_fault(s, work, 1, end)?;
    Ok(placed(m))
}
