//! Loads a list of good and damaged images and compares each answer with the one that the list has. A row is a line of standard input:
//!     L q bytes           a fresh engine answers q to a load of these bytes; 0 is an image's number
//!     K q bytes           so does the engine as the rows above left it
//!     S n                 the next load is lent store n (1 code, 2 places, 3 rows, 4 starts) an entry short
//!     T i t p l n a z     template t of image i has parameters, locals, constants, place and size of code
//!     C i t k kind a b    constant k of it has this kind (6 is none) and value
//! Bytes are hexadecimal, two digits each; `*n` stands for the byte before it, n times in all. Numbers of T and C have two bytes, a and b of
//! C four each. q is decimal. A refusal is also to leave every entry of the stores as it was.
//! A line of another first byte is no row. In a row what is neither two digits, in capitals, nor `*n` is passed over, and a number that is
//! missing is 0. Of the list 65,536 bytes are read, and of a row 70,000 kept.
#![tactic(auto)]

ghost use Rattle.std.specs.Prelude.{◌≤◌, length};

use image::{CODE_BYTES, IMAGES, ImageCounts, LoadError};
use reader::Constant;
use row::{Row, RowBytes, Store};
use std::fmt::{self, Write};
use std::io::{Read, Stdin};

mod row;

// Bytes of the list that are read.
const LIST_BYTES: usize = 65536;

// The stores that a load is lent.
#[derive(Clone, Copy, PartialEq)]
struct Stores {
    code: [u8; CODE_BYTES],
    places: [u16; CODE_BYTES],
    rows: [u16; CODE_BYTES],
    starts: [u16; IMAGES],
}

// A store's size, or an entry less.
fn shorter(n: usize, cut: bool) -> usize
    ensures { result ≤ n }
{
    n.saturating_sub(usize::from(cut))
}

// A load, which is lent one of the stores an entry short, or none.
fn load_short(
    code: &mut [u8],
    places: &mut [u16],
    rows: &mut [u16],
    starts: &mut [u16],
    short: Option<Store>,
    counts: ImageCounts,
    image: &[u8],
) -> Result<(usize, ImageCounts), LoadError> {
    let c = shorter(code.len(), short == Some(Store::Code));
    let p = shorter(places.len(), short == Some(Store::Places));
    let r = shorter(rows.len(), short == Some(Store::Rows));
    let s = shorter(starts.len(), short == Some(Store::Starts));
    image::load(
        &mut code[..c],
        &mut places[..p],
        &mut rows[..r],
        &mut starts[..s],
        counts,
        image,
    )
}

impl Stores {
    // No image is there, but no zeros either.
    fn new() -> Stores {
        Stores {
            code: [170; CODE_BYTES],
            places: [43690; CODE_BYTES],
            rows: [43690; CODE_BYTES],
            starts: [43690; IMAGES],
        }
    }

    fn load(
        &mut self,
        short: Option<Store>,
        counts: ImageCounts,
        image: &[u8],
    ) -> Result<(usize, ImageCounts), LoadError> {
        load_short(
            &mut self.code,
            &mut self.places,
            &mut self.rows,
            &mut self.starts,
            short,
            counts,
            image,
        )
    }
}

// What a row wants and what it gets.
#[derive(Clone, Copy)]
struct Compared {
    want: u64,
    got: u64,
}

// Which number is another than the one that is wanted, from 1 on; 0 where none is.
fn differs(seen: &[u64], wanted: &[u64]) -> Compared {
    let place = seen.iter().zip(wanted).position(|(a, b)| *a != *b);
    Compared {
        want: 0,
        got: place.map_or(0, |i| i as u64 + 1),
    }
}

fn shown(c: Option<Constant>) -> [u64; 3] {
    match c {
        Some(Constant::Number(n)) => [0, n >> 32, n & 0xffff_ffff],
        Some(Constant::Str(at, size)) => [1, at, size],
        Some(Constant::Bool(b)) => [2, 0, u64::from(b)],
        Some(Constant::Null) => [3, 0, 0],
        Some(Constant::Undefined) => [4, 0, 0],
        Some(Constant::Function(t)) => [5, 0, t],
        None => [6, 0, 0],
    }
}

// The engine as the rows so far have left it.
#[derive(Drop)]
struct Engine {
    stores: Stores,
    counts: ImageCounts,
    short: Option<Store>,
}

impl Engine {
    // An answer as a number: 98 is an image numbered wrongly, 99 a refusal that altered a store.
    fn load(&mut self, counts: ImageCounts, image: &[u8]) -> u64 {
        let before = self.stores;
        match self.stores.load(self.short, counts, image) {
            Ok((number, now)) => {
                self.counts = now;
                if number == counts.images { 0 } else { 98 }
            }
            Err(e) => {
                if self.stores == before {
                    u64::from(e)
                } else {
                    99
                }
            }
        }
    }

    fn template(&self, at: [u64; 2], wanted: [u64; 5]) -> Compared {
        let [i, t] = at.map(|n| n as usize);
        let f = image::template_at(
            &self.stores.rows,
            &self.stores.starts,
            self.counts.images,
            i,
            t,
        );
        let seen = [f.param_count, f.local_count, f.constant_count, f.at, f.size];
        differs(&seen.map(|n| n as u64), &wanted)
    }

    fn constant(&self, at: [u64; 3], wanted: [u64; 3]) -> Compared {
        let [i, t, k] = at.map(|n| n as usize);
        let c = image::load_const(
            &self.stores.code,
            &self.stores.places,
            &self.stores.rows,
            &self.stores.starts,
            self.counts.images,
            i,
            t,
            k,
        );
        differs(&shown(c), &wanted)
    }

    // Only `Short` compares nothing; it holds for the next row that does.
    fn row(&mut self, row: Row<'_>) -> Option<Compared> {
        let compared = match row {
            Row::Short(store) => {
                self.short = store;
                return None;
            }
            Row::LoadFresh(want, image) => Compared {
                want,
                got: self.load(ImageCounts::default(), image),
            },
            Row::Load(want, image) => Compared {
                want,
                got: self.load(self.counts, image),
            },
            Row::Template(at, wanted) => self.template(at, wanted),
            Row::Constant(at, wanted) => self.constant(at, wanted),
        };
        self.short = None;
        Some(compared)
    }

    // A remark compares nothing, and neither does a line that is no row.
    fn line(&mut self, bytes: &mut RowBytes, line: &[u8]) -> Option<Compared> {
        let (kind, text) = line.split_first()?;
        if *kind == b'#' {
            return None;
        }
        row::read(text, bytes);
        self.row(Row::new(*kind, bytes.as_slice())?)
    }
}

#[derive(Default, Drop)]
struct Tally {
    rows: u64,
    agree: u64,
}

impl fmt::Display for Tally {
    fn fmt<W: fmt::Write>(&self, f: &mut fmt::Formatter<W>) -> fmt::Result {
        write!(f, "rows {}, agree {}", self.rows, self.agree)
    }
}

// Standard output. What it does not take is passed over: the program's answer is what it prints, and no other place has it.
#[derive(Drop)]
struct Told<'a, P> {
    rt: &'a P,
}

impl<P: Print> Write for Told<'_, P> {
    fn write_str(&mut self, text: &str) -> fmt::Result {
        let _written = self.rt.write_all(text.as_bytes());
        Ok(())
    }
}

// How much of the list could be read: it ends where the input does, where a read fails, or where no more fits.
fn read_list(input: &mut Stdin, list: &mut [u8]) -> usize
    ensures { result ≤ length list.new }
{
    let mut size = 0;
    // each read that goes on takes a byte at least
    for _ in 0..list.len() {
        match input.read(&mut list[size..]) {
            Ok(n) if 0 < n => size += n,
            _ => break,
        }
    }
    size
}

fn main(rt: HostRuntime) {
    let mut list = [0; LIST_BYTES];
    let size = read_list(&mut rt.stdin(), &mut list);
    let mut engine = Engine {
        stores: Stores::new(),
        counts: ImageCounts::default(),
        short: None,
    };
    let mut bytes = RowBytes::new();
    let mut tally = Tally::default();
    let mut told = Told { rt: &rt };
    for (i, line) in list[..size].split(|b| *b == b'\n').enumerate() {
        let Some(row) = engine.line(&mut bytes, line) else {
            continue;
        };
        tally.rows = tally.rows.saturating_add(1);
        if row.want == row.got {
            tally.agree = tally.agree.saturating_add(1);
        } else {
            let line = i.saturating_add(1);
            let _told = write!(
                told,
                "line {line} wants {} and gets {}\n",
                row.want, row.got
            );
        }
    }
    let _told = write!(told, "{tally}\n");
}
