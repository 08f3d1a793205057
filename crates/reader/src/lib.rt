// Reading a sheet: its bytes become the node table, or the refusal that they show first. The definitions stand in the specs of json_text and strings, the laws in proofs/.
#![tactic(auto)]

ghost use Rattle.strings.specs.Reads.{ReadTold};

use strings::answer::Refusal;

mod tree;

// The sheet's tree in the table, or the first refusal of 1 to 8. UTF-8 is judged first, then one pass reads, without a step back. Besides the
// lent table it takes stack: the marks of names, 32,749 bytes, and two calls for each of at most 64 brackets.
pub fn read(sheet: &[u8], work: &mut [u32]) -> Result<usize, Refusal>
    ensures { ReadTold sheet.now work.old work.new result }
{
    if work.len() < 16384 {
        return Err(Refusal::WorkTooSmall);
    }
    if 32768 < sheet.len() {
        return Err(Refusal::TooLong);
    }
    if !strings::utf8::utf8(sheet) {
        return Err(Refusal::NotUtf8);
    }
    let at = tokens::scan::skip(sheet, 0);
    let tree = tree::root(sheet, work, at)?;
    if tokens::scan::skip(sheet, tree.at) != sheet.len() {
        return Err(Refusal::NotJson);
    }
    Ok(tree.node)
}
