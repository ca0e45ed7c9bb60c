//! The image writer at work: writes two of the examples call by call, compares their bytes with the stored images, which stand one behind the other on standard
//! input, loads and runs them; then meets every refusal at its edge.
#![tactic(auto)]

use report::{read_full, run_image};
use rows::{OTHER, Tally};
use std::fmt::Display;

mod examples;
mod rows;

// The most bytes that are read: more than the two images have.
const STORED: usize = 1024;

// What is printed is the program's only answer: a failure to print is passed over, and the rest is printed all the same.
fn say(rt: &impl Print, line: impl Display + Drop) {
    let _ = rt.println(line);
}

// What was written beside what is stored; what was written is run.
fn compare(rt: &impl Print, name: &str, buffer: &[u8], size: usize, stored: &[u8]) {
    let Some((image, others)) = buffer.split_at_checked(size) else {
        return;
    };
    let same = image == stored && others.iter().all(|x| *x == OTHER);
    let are = if same { "are" } else { "are not" };
    say(
        rt,
        format_args!("{name}: the bytes {are} the stored image's"),
    );
    run_image(rt, image);
}

fn write_examples(rt: &impl Print, stored: &[u8]) -> Tally {
    let mut buffer = [OTHER; 256];
    let t = examples::sample(Tally::default(), &mut buffer);
    let Some((sample, nested)) = stored.split_at_checked(t.writer.size) else {
        return t;
    };
    compare(rt, "sample", &buffer, t.writer.size, sample);
    let mut buffer = [OTHER; 256];
    let t = examples::nested(t, &mut buffer);
    compare(rt, "nested", &buffer, t.writer.size, nested);
    t
}

fn main(rt: HostRuntime) {
    let mut stored = [0u8; STORED];
    let n = read_full(&mut rt.stdin(), &mut stored);
    let t = write_examples(&rt, &stored[..n]);
    let t = rows::all(t);
    say(&rt, format_args!("calls: {t}"));
}
