//! Replays a list of programs through the engine and compares all that it answers and holds with the Rust's answers, which the list has.
//! tests/replay/README.md has the list's format and says how it is made.
#![tactic(auto)]

use bytes::List;
use differs::{Differs, want};
use heapops::Counts;
use held::{Held, drained};
use report::{Stores, read_full};
use run::Ran;
use std::io::{self, Read};
use texts::OUTPUT_LIMIT;
use value::{JsVmError, Stop, Value};

mod bytes;
mod differs;
mod held;

// How many differences are told.
const TOLD: u64 = 20;

// "CWR1", with which a list begins.
const MAGIC: u64 = 0x43575231;

// The most bytes of a program.
const PROGRAM_BYTES: usize = 65536;

// A program as far as it was replayed: the counts that the engine answered last, and how many images were loaded and runs made.
#[derive(Drop)]
struct Progress {
    counts: Counts,
    images: u64,
    runs: u64,
}

// The list as far as it was read.
#[derive(Default, Drop)]
struct Tally {
    programs: u64,
    runs: u64,
    differ: u64,
    cut: bool,
}

// The number, then the value of 0 and of 17 and the byte of 13.
fn ended(held: Held<'_>, list: &mut List<'_>, e: Result<Value, Stop>) -> Result<(), Differs> {
    want(list.byte(), run::end_number(e), Differs::End)?;
    match e {
        Ok(v) => held.value(list, v, Differs::Payload),
        Err(Stop::Failed(JsVmError::UncaughtException(v))) => {
            held.value(list, v, Differs::Payload)
        }
        Err(Stop::Failed(JsVmError::UnknownOpcode(b))) => {
            want(list.byte(), u64::from(b), Differs::Payload)
        }
        Err(_) => Ok(()),
    }
}

// What a run answers and leaves; `out` has its output, of `size` bytes.
fn compared(
    stores: &Stores,
    out: &[u8],
    list: &mut List<'_>,
    r: Ran,
    size: Option<usize>,
) -> Result<(), Differs> {
    let held = Held {
        stores,
        counts: r.counts,
    };
    ended(held, list, r.end)?;
    want(list.triple(), r.steps as u64, Differs::Steps)?;
    held.state(list)?;
    let size = size.ok_or(Differs::Output)?;
    drained(list, out, size, Differs::Output)?;
    held.in_use(list)
}

impl Progress {
    // A load is refused where the list has the number of a question behind its image.
    fn load(
        &mut self,
        stores: &mut Stores,
        list: &mut List<'_>,
        refused: bool,
    ) -> Result<(), Differs> {
        let image = list.text().ok_or(Differs::Cut)?;
        match stores.load(self.counts, image) {
            Ok((i, counts)) => {
                self.counts = counts;
                let next = self.images;
                self.images = self.images.saturating_add(1);
                if refused {
                    return Err(Differs::Load);
                }
                want(next, i as u64, Differs::Load)
            }
            Err(e) if refused => want(list.byte(), u64::from(e), Differs::Load),
            Err(_) => Err(Differs::Load),
        }
    }

    // So is a run where it has one behind its image's number.
    fn run(
        &mut self,
        stores: &mut Stores,
        out: &mut [u8],
        list: &mut List<'_>,
        refused: bool,
    ) -> Result<(), Differs> {
        let image = list.byte() as usize;
        match stores.run(self.counts, image) {
            Ok(r) => {
                self.counts = r.counts;
                self.runs = self.runs.saturating_add(1);
                let size = stores.drain(r.counts, out).ok().map(|(n, _)| n);
                if refused {
                    return Err(Differs::Run);
                }
                compared(stores, out, list, r, size)
            }
            Err(e) if refused => want(list.byte(), u64::from(e), Differs::Run),
            Err(_) => Err(Differs::Run),
        }
    }

    fn drain(
        &mut self,
        stores: &Stores,
        out: &mut [u8],
        list: &mut List<'_>,
    ) -> Result<(), Differs> {
        let Ok((n, counts)) = stores.drain(self.counts, out) else {
            return Err(Differs::Drain);
        };
        self.counts = counts;
        drained(list, out, n, Differs::Drain)
    }

    // One call of the list.
    fn call(
        &mut self,
        stores: &mut Stores,
        out: &mut [u8],
        list: &mut List<'_>,
    ) -> Result<(), Differs> {
        match list.byte() {
            1 => self.load(stores, list, false),
            2 => self.run(stores, out, list, false),
            3 => self.drain(stores, out, list),
            7 => self.run(stores, out, list, true),
            8 => self.load(stores, list, true),
            _ => Err(Differs::Cut),
        }
    }

    // A program's calls, each of which has a byte or more.
    fn calls(
        &mut self,
        stores: &mut Stores,
        out: &mut [u8],
        program: &[u8],
    ) -> Result<(), Differs> {
        let mut list = List::new(program);
        for _ in 0..program.len() {
            if list.is_done() {
                break;
            }
            self.call(stores, out, &mut list)?;
        }
        if list.is_whole() {
            Ok(())
        } else {
            Err(Differs::Cut)
        }
    }
}

// What differs in a program, and its runs.
#[derive(Clone, Copy)]
struct Found {
    differs: Option<Differs>,
    runs: u64,
}

// The calls of a program, on a cleared engine.
fn replayed(stores: &mut Stores, out: &mut [u8], program: &[u8]) -> Found {
    let Ok(counts) = stores.clear() else {
        return Found {
            differs: Some(Differs::Clear),
            runs: 0,
        };
    };
    let mut progress = Progress {
        counts,
        images: 0,
        runs: 0,
    };
    let differs = progress.calls(stores, out, program).err();
    Found {
        differs,
        runs: progress.runs,
    }
}

// What is printed is the program's only answer: a failure to print is passed over, and the rest is compared and printed all the same.
fn pass_over(_printed: io::Result<()>) {}

impl Tally {
    // One program more. The first differences are told.
    fn add(&mut self, rt: &impl Print, f: Found) {
        self.programs = self.programs.saturating_add(1);
        self.runs = self.runs.saturating_add(f.runs);
        let Some(differs) = f.differs else {
            return;
        };
        if self.differ < TOLD {
            pass_over(println!(rt; "program {}, run {}: {differs}", self.programs, f.runs));
        }
        self.differ = self.differ.saturating_add(1);
    }

    // `runs` is the list's count of them.
    fn report(&self, rt: &impl Print, runs: u64) {
        pass_over(println!(rt;
            "{} programs, {} runs, {} differ",
            self.programs, self.runs, self.differ
        ));
        if self.cut {
            pass_over(println!(rt; "the list is cut"));
        }
        if self.differ == 0 && self.runs != runs {
            pass_over(println!(rt; "the list has another count of runs"));
        }
    }
}

// The next program, whose bytes go to the start of the buffer. A byte that is missing of its size is 0.
fn next_program<'a>(input: &mut impl Read, buf: &'a mut [u8]) -> Option<&'a [u8]> {
    let mut size = [0u8; 4];
    read_full(input, &mut size);
    let program = buf.get_mut(..List::new(&size).quad() as usize)?;
    if read_full(input, program) < program.len() {
        return None;
    }
    Some(program)
}

fn programs(rt: &impl Print, input: &mut impl Read, stores: &mut Stores, count: u64) -> Tally {
    let mut out = [0u8; OUTPUT_LIMIT];
    let mut buf = [0u8; PROGRAM_BYTES];
    let mut tally = Tally::default();
    for _ in 0..count {
        let Some(program) = next_program(input, &mut buf) else {
            tally.cut = true;
            return tally;
        };
        tally.add(rt, replayed(stores, &mut out, program));
    }
    tally
}

fn main(rt: HostRuntime) {
    let mut input = rt.stdin();
    // so is one that is missing of the head
    let mut head = [0u8; 12];
    read_full(&mut input, &mut head);
    let mut head = List::new(&head);
    if head.quad() != MAGIC {
        pass_over(println!(rt; "this is no list"));
        return;
    }
    let count = head.quad();
    let runs = head.quad();
    let mut stores = Stores::filled(0xaa);
    let tally = programs(&rt, &mut input, &mut stores, count);
    tally.report(&rt, runs);
}
