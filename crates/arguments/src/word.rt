// What the first argument is: a call's word, an option, or else a file.
ghost use Rattle.std.specs.Prelude.{◌≡◌};
ghost use Rattle.arguments.specs.Words.{option_of, word_of};

#[derive(Clone, Copy, PartialEq, Eq)]
pub enum Word {
    Evaluate,
    Preconditions,
    Invariants,
    Select,
    Admit,
    Decide,
    Lines,
    Help,
    Version,
    UnknownOption,
    File,
}

// One that begins with `-` is an option; any other that is no call's word is a file. A chain of tests, as in `word_of`.
#[tactic(auto, using(crate::proofs::Same::by_equality), unfolding(crate::specs::Words::option_of))]
fn option(text: &[u8]) -> Word
    ensures { result ≡ option_of text.now }
{
    if text == b"--help".as_slice() {
        Word::Help
    } else if text == b"--version".as_slice() {
        Word::Version
    } else if text.starts_with(b"-") {
        Word::UnknownOption
    } else {
        Word::File
    }
}

#[tactic(auto, using(crate::proofs::Same::by_equality), unfolding(crate::specs::Words::word_of))]
pub fn word_of(text: &[u8]) -> Word
    ensures { result ≡ word_of text.now }
{
    // no `match` on the words: it is no shorter, and its last arm would be proved byte by byte, along each of more than thirty ways to it
    if text == b"evaluate".as_slice() {
        Word::Evaluate
    } else if text == b"preconditions".as_slice() {
        Word::Preconditions
    } else if text == b"invariants".as_slice() {
        Word::Invariants
    } else if text == b"select".as_slice() {
        Word::Select
    } else if text == b"admit".as_slice() {
        Word::Admit
    } else if text == b"decide".as_slice() {
        Word::Decide
    } else if text == b"lines".as_slice() {
        Word::Lines
    } else {
        option(text)
    }
}
