//! Each question of the image writer, answered no and, beside it, just yes: 34 out of order and at 65,535 and 65,536 of each count and length, 31 with a byte
//! too few and with enough, 34 where both would be given.
use std::fmt;
use writer::{WriteError, Writer};

// What a byte of a buffer is before a begin.
pub const OTHER: u8 = 165;

// Room for 65,536 templates.
const MOST: usize = 524290;

// The writer as the calls so far left it, how many there were, and how many were answered otherwise than they had to be.
#[derive(Clone, Copy, Default)]
pub struct Tally {
    pub writer: Writer,
    pub calls: u64,
    pub differ: u64,
}

impl Tally {
    fn counted(self, writer: Writer, agrees: bool) -> Tally {
        Tally {
            writer,
            calls: self.calls.wrapping_add(1),
            differ: self.differ.wrapping_add(u64::from(!agrees)),
        }
    }

    // A call's answer beside the number that it had to give; 0 is acceptance.
    pub fn met(self, number: u64, answer: Result<Writer, WriteError>) -> Tally {
        match answer {
            Ok(writer) => self.counted(writer, number == 0),
            Err(e) => self.counted(self.writer, number == u64::from(e)),
        }
    }
}

impl fmt::Display for Tally {
    fn fmt<W: fmt::Write>(&self, f: &mut fmt::Formatter<W>) -> fmt::Result {
        write!(f, "{} compared, {} differ", self.calls, self.differ)
    }
}

// All but a begin, and all refused by 34.
fn refuses_each(t: Tally, b: &mut [u8]) -> Tally {
    let t = t.met(34, t.writer.template(b, 0, 0));
    let t = refuses_items(t, b);
    t.met(34, t.writer.finish())
}

fn refuses_items(t: Tally, b: &mut [u8]) -> Tally {
    let t = refuses_values(t, b);
    let t = t.met(34, t.writer.function(b, 1));
    let t = t.met(34, t.writer.code(b, b"a"));
    t.met(34, t.writer.code(b, b""))
}

fn refuses_values(t: Tally, b: &mut [u8]) -> Tally {
    let t = t.met(34, t.writer.number(b, 1));
    let t = t.met(34, t.writer.text(b, b"a"));
    let t = t.met(34, t.writer.boolean(b, true));
    let t = t.met(34, t.writer.null(b));
    t.met(34, t.writer.undefined(b))
}

// Out of order: before a begin, with no template, behind a template's code of no bytes, after the finish.
fn order(t: Tally, b: &mut [u8]) -> Tally {
    let unbegun = Tally {
        writer: Writer::default(),
        ..t
    };
    let t = refuses_each(unbegun, b);
    let t = refuses_items(t.met(0, Writer::begin(b)), b);
    let t = behind_code(t, b);
    let t = refuses_each(t.met(0, t.writer.finish()), b);
    // a begin starts anew, and an image of no template is finished
    let t = t.met(0, Writer::begin(b));
    t.met(0, t.writer.finish())
}

fn behind_code(t: Tally, b: &mut [u8]) -> Tally {
    let t = t.met(0, t.writer.template(b, 0, 0));
    let t = t.met(0, t.writer.code(b, b""));
    refuses_items(t, b)
}

fn opened(t: Tally, b: &mut [u8]) -> Tally {
    let t = t.met(0, Writer::begin(b));
    t.met(0, t.writer.template(b, 0, 0))
}

// Begin needs 2 bytes, a template 8, finish none.
fn first_bytes(t: Tally) -> Tally {
    let mut none: [u8; 0] = [];
    let mut one: [u8; 1] = [OTHER; 1];
    let mut nine: [u8; 9] = [OTHER; 9];
    let mut ten: [u8; 10] = [OTHER; 10];
    let t = t.met(31, Writer::begin(&mut none));
    let t = t.met(31, Writer::begin(&mut one));
    let t = t.met(0, Writer::begin(&mut nine));
    let t = t.met(31, t.writer.template(&mut nine, 0, 0));
    let t = t.met(34, t.writer.template(&mut nine, 65536, 0));
    let t = opened(t, &mut ten);
    let t = t.met(31, t.writer.template(&mut ten, 0, 0));
    t.met(0, t.writer.finish())
}

// A template is open and no byte is left: a constant and code need their own, and code of no bytes needs none.
fn full(t: Tally, long: &[u8]) -> Tally {
    let mut b: [u8; 10] = [OTHER; 10];
    let t = opened(t, &mut b);
    let t = full_of_values(t, &mut b);
    let t = full_of_texts(t, &mut b, long);
    let t = t.met(31, t.writer.code(&mut b, b"a"));
    let t = t.met(34, t.writer.code(&mut b, long));
    t.met(0, t.writer.code(&mut b, b""))
}

fn full_of_values(t: Tally, b: &mut [u8]) -> Tally {
    let t = t.met(31, t.writer.number(b, 1));
    let t = t.met(31, t.writer.boolean(b, false));
    let t = t.met(31, t.writer.null(b));
    t.met(31, t.writer.undefined(b))
}

fn full_of_texts(t: Tally, b: &mut [u8], long: &[u8]) -> Tally {
    let t = t.met(31, t.writer.text(b, b""));
    let t = t.met(34, t.writer.text(b, long));
    let t = t.met(31, t.writer.function(b, 65535));
    t.met(34, t.writer.function(b, 65536))
}

// What a template is given: a constant of each kind, or its code.
#[derive(Clone, Copy)]
enum Item {
    Number,
    Text,
    Boolean,
    Null,
    Undefined,
    Function,
    Code,
}

impl Item {
    fn write(self, w: Writer, b: &mut [u8]) -> Result<Writer, WriteError> {
        match self {
            Item::Number => w.number(b, 0xffff_ffff_ffff_ffff),
            Item::Text => w.text(b, b"echo"),
            Item::Boolean => w.boolean(b, true),
            Item::Null => w.null(b),
            Item::Undefined => w.undefined(b),
            Item::Function => w.function(b, 1),
            Item::Code => w.code(b, b"echo"),
        }
    }
}

// A byte too few for an item, then just enough.
fn at_edge(t: Tally, short: &mut [u8], exact: &mut [u8], item: Item) -> Tally {
    let t = opened(t, short);
    let t = t.met(31, item.write(t.writer, short));
    let t = opened(t, exact);
    let t = t.met(0, item.write(t.writer, exact));
    t.met(0, t.writer.finish())
}

// Sizes of 10 bytes, of a template, and a constant's own.
fn exact(t: Tally) -> Tally {
    let mut b10: [u8; 10] = [OTHER; 10];
    let mut b11: [u8; 11] = [OTHER; 11];
    let mut b12: [u8; 12] = [OTHER; 12];
    let mut b13: [u8; 13] = [OTHER; 13];
    let mut b14: [u8; 14] = [OTHER; 14];
    let mut b16: [u8; 16] = [OTHER; 16];
    let mut b17: [u8; 17] = [OTHER; 17];
    let mut b18: [u8; 18] = [OTHER; 18];
    let mut b19: [u8; 19] = [OTHER; 19];
    let t = at_edge(t, &mut b18, &mut b19, Item::Number);
    let t = at_edge(t, &mut b16, &mut b17, Item::Text);
    let t = at_edge(t, &mut b11, &mut b12, Item::Boolean);
    let t = at_edge(t, &mut b10, &mut b11, Item::Null);
    let t = at_edge(t, &mut b10, &mut b11, Item::Undefined);
    let t = at_edge(t, &mut b12, &mut b13, Item::Function);
    at_edge(t, &mut b13, &mut b14, Item::Code)
}

// The counts and lengths that one call gives.
fn lengths(t: Tally, b: &mut [u8], most: &[u8], long: &[u8]) -> Tally {
    let t = numbers(t.met(0, Writer::begin(b)), b);
    let t = t.met(34, t.writer.text(b, long));
    let t = t.met(0, t.writer.text(b, most));
    let t = t.met(34, t.writer.code(b, long));
    let t = t.met(0, t.writer.code(b, most));
    t.met(0, t.writer.finish())
}

fn numbers(t: Tally, b: &mut [u8]) -> Tally {
    let t = t.met(34, t.writer.template(b, 65536, 0));
    let t = t.met(34, t.writer.template(b, 0, 65536));
    let t = t.met(0, t.writer.template(b, 65535, 65535));
    let t = t.met(34, t.writer.function(b, 65536));
    t.met(0, t.writer.function(b, 65535))
}

// As many constants, and templates, as their counts can tell.
fn most_constants(t: Tally, b: &mut [u8]) -> Tally {
    let mut t = t;
    for _ in 0..65535 {
        t = t.met(0, t.writer.null(b));
    }
    t
}

fn most_templates(t: Tally, b: &mut [u8]) -> Tally {
    let mut t = t;
    for _ in 0..65535 {
        t = t.met(0, t.writer.template(b, 0, 0));
    }
    t
}

fn counts(t: Tally, b: &mut [u8]) -> Tally {
    let t = most_constants(opened(t, b), b);
    let t = t.met(34, t.writer.null(b));
    let t = t.met(0, t.writer.code(b, b"a"));
    let t = most_templates(t.met(0, Writer::begin(b)), b);
    let t = t.met(34, t.writer.template(b, 0, 0));
    t.met(0, t.writer.finish())
}

// The long buffers: a proof need not compute with their bytes.
fn others() -> [u8; MOST] {
    [OTHER; MOST]
}

fn zeros() -> [u8; 65535] {
    [0; 65535]
}

fn more_zeros() -> [u8; 65536] {
    [0; 65536]
}

pub fn all(t: Tally) -> Tally {
    let mut b = others();
    let mut ten: [u8; 10] = [OTHER; 10];
    let most = zeros();
    let long = more_zeros();
    let t = order(t, &mut b);
    let t = order(t, &mut ten);
    let t = first_bytes(t);
    let t = full(t, &long);
    let t = exact(t);
    let t = lengths(t, &mut b, &most, &long);
    counts(t, &mut b)
}
