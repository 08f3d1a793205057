// A sheet read and accepted, or refused by its text or its shape.
ghost use Rattle.std.specs.Prelude.{◌≡◌};
ghost use Rattle.opening.specs.Opening.{Opening};
ghost use Rattle.opening.specs.declared.open.NotOpened.TheVariants as not_opened;

use order::order::order;
use reader::read;
use sheet::shape::{Members, Misshapen, shape_of};
use strings::answer::Refusal;

// Why bytes are no sheet: they could not be read as JSON, or the tree that they spell has another shape.
#[derive(Clone, Copy)]
pub enum NotOpened {
    Unread(Refusal),
    Misshapen(Misshapen),
}

impl From<Refusal> for NotOpened {
    ghost from_gives = { λ why e. e ≡ not_opened.Unread why };

    fn from(why: Refusal) -> NotOpened {
        NotOpened::Unread(why)
    }
}

impl From<Misshapen> for NotOpened {
    ghost from_gives = { λ why e. e ≡ not_opened.Misshapen why };

    fn from(why: Misshapen) -> NotOpened {
        NotOpened::Misshapen(why)
    }
}

// The sheet that the bytes spell: its tree in the table, the members of every object linked in their order.
pub fn open(sheet: &[u8], work: &mut [u32]) -> Result<Members, NotOpened>
    ensures { Opening sheet.now work.old work.new result }
{
    read(sheet, work)?;
    order(sheet, work);
    Ok(shape_of(sheet, work)?)
}
