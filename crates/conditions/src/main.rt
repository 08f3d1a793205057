// Runs a stored list of conditions: each record is a sheet, a tab, and the line that Evaluate writes. Prints the first records that differ, and how
// many do.
#![tactic(auto)]

use calling::Call;
use decision::call::run;
use records::{behind, check_list, find, is_line};

// Whether the sheet's condition is answered with the record's line: all that stands behind the first tab, a further tab too.
fn check(record: &[u8]) -> Result<(), &'static str> {
    let mut work = [0u32; 16384];
    let mut out = [0u8; 65536];
    let stop = find(record, 0, b'\t');
    let from = behind(record, stop);
    match run(&record[..stop], &mut work, &mut out, Call::Evaluate).size() {
        Some(size) if is_line(&out, size, &record[from..]) => Ok(()),
        _ => Err(" differs"),
    }
}

fn main(rt: HostRuntime) {
    let mut list = [0u8; 262144];
    let all = check_list(&rt, &mut rt.stdin(), &mut list, &check);
    let _ = println!(rt; "{} records, {} differ", all.ran, all.differ);
}
