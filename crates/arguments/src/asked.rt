// What the arguments ask. An argument is told by its place, 0 the first one behind the program's name.
ghost use Rattle.std.specs.Prelude.{◌≡◌};
ghost use Rattle.arguments.specs.Asked.{admits, alone, asks, asks_for, with_file};

use crate::place::place_in;
use crate::word::{Word, word_of};
use calling::Call;

// A call on one sheet, or a decision of each line.
#[derive(Clone, Copy, PartialEq, Eq)]
pub enum Task {
    One(Call),
    Lines,
}

// A task on the file that an argument names, or on standard input where none does; or something about the program.
#[derive(Clone, Copy, PartialEq, Eq)]
pub enum Asked {
    Run(Task, Option<usize>),
    Help,
    Version,
}

// What is wrong with the arguments.
#[derive(Clone, Copy, PartialEq, Eq)]
pub enum Misuse {
    UnknownOption,
    NoPlace,
    WrongPlace,
    Further(usize),
}

// A file may stand behind so many arguments, and nothing further.
fn with_file(task: Task, passed: usize, count: usize) -> Result<Asked, Misuse>
    ensures { result ≡ with_file task passed count }
{
    if count <= passed {
        return Ok(Asked::Run(task, None));
    }
    if count - passed == 1 {
        return Ok(Asked::Run(task, Some(passed)));
    }
    Err(Misuse::Further(passed + 1))
}

// Nothing may stand behind the first argument.
fn alone(asked: Asked, count: usize) -> Result<Asked, Misuse>
    ensures { result ≡ alone asked count }
{
    if 1 < count {
        return Err(Misuse::Further(1));
    }
    Ok(asked)
}

fn admit(count: usize, second: &[u8]) -> Result<Asked, Misuse>
    ensures { result ≡ admits count second.now }
{
    if count < 2 {
        return Err(Misuse::NoPlace);
    }
    match place_in(second) {
        Some(n) => with_file(Task::One(Call::Admit(n)), 2, count),
        None => Err(Misuse::WrongPlace),
    }
}

fn by_word(w: Word, count: usize, second: &[u8]) -> Result<Asked, Misuse>
    ensures { result ≡ asks w count second.now }
{
    match w {
        Word::Evaluate => with_file(Task::One(Call::Evaluate), 1, count),
        Word::Preconditions => with_file(Task::One(Call::Preconditions), 1, count),
        Word::Invariants => with_file(Task::One(Call::Invariants), 1, count),
        Word::Select => with_file(Task::One(Call::Select), 1, count),
        Word::Admit => admit(count, second),
        Word::Decide => with_file(Task::One(Call::Decide), 1, count),
        Word::Lines => with_file(Task::Lines, 1, count),
        Word::Help => alone(Asked::Help, count),
        Word::Version => alone(Asked::Version, count),
        Word::UnknownOption => Err(Misuse::UnknownOption),
        Word::File => with_file(Task::One(Call::Decide), 0, count),
    }
}

// How many arguments there are, and the first two of them; one that is missing is empty.
pub fn read(count: usize, first: &[u8], second: &[u8]) -> Result<Asked, Misuse>
    ensures { result ≡ asks_for count first.now second.now }
{
    if count == 0 {
        return Ok(Asked::Run(Task::One(Call::Decide), None));
    }
    by_word(word_of(first), count, second)
}
