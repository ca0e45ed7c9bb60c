//! The bench sheet's program: reads an image from standard input, loads and runs it, and prints one line of what came of it, then each line of its
//! output after `>`. An input above MOST bytes is told instead, in a line that does not begin with `end`: nothing is loaded of it, and no call has a number for it.
#![tactic(auto)]

use report::{read_full, run_image};

// The bytes of standard input that are taken.
const MOST: usize = 70000;

// What is printed is the program's only answer: a failure to print is passed over. Not inlined: a buffer of it would stand in the frame of `main`.
#[inline(never)]
fn print_too_long(rt: &impl Print) {
    let _ = println!(rt; "input above {MOST} bytes: not loaded");
}

fn main(rt: HostRuntime) {
    let mut input = [0u8; MOST + 1];
    let n = read_full(&mut rt.stdin(), &mut input);
    if MOST < n {
        print_too_long(&rt);
        return;
    }
    run_image(&rt, &input[..n]);
}
