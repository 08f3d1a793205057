// Reads pairs of numbers on standard input, a pair a line and a space between the two, and writes the order of each.
#![tactic(auto)]

use records::read_full;
use std::cmp::Ordering;

// A write that fails is passed over.
fn write_order(rt: &impl Print, order: Ordering) {
    let _ = rt.write_all(match order {
        Ordering::Less => b"less\n",
        Ordering::Equal => b"equal\n",
        Ordering::Greater => b"greater\n",
    });
}

fn answer_all(rt: &impl Print, pairs: &[u8]) {
    let mut words = pairs.split(|c| matches!(*c, b' ' | b'\n'));
    while let Some(left) = words.next() {
        let Some(right) = words.next() else {
            break;
        };
        write_order(rt, number::compare(left, right));
    }
}

fn main(rt: HostRuntime) {
    let mut pairs = [0u8; 262144];
    let n = read_full(&mut rt.stdin(), &mut pairs);
    answer_all(&rt, &pairs[..n]);
}
