//! Two of the examples, by writer calls; examples/sample.lst and examples/nested.lst say what the code does.
use crate::rows::Tally;
use writer::Writer;

pub fn sample(t: Tally, b: &mut [u8]) -> Tally {
    let t = t.met(0, Writer::begin(b));
    let t = t.met(0, t.writer.template(b, 0, 0));
    let t = t.met(0, t.writer.number(b, 7 * 0x1_0000_0000));
    let t = t.met(
        0,
        t.writer.code(b, &[0x4b, 0, 8, 0, 0, 0, 0x4a, 0xff, 0xff]),
    );
    t.met(0, t.writer.finish())
}

pub fn nested(t: Tally, b: &mut [u8]) -> Tally {
    let t = t.met(0, Writer::begin(b));
    let t = chunk(t, b);
    let t = correct(t, b);
    let t = firn(t, b);
    t.met(0, t.writer.finish())
}

fn chunk(t: Tally, b: &mut [u8]) -> Tally {
    let t = t.met(0, t.writer.template(b, 0, 0));
    let t = chunk_names(t, b);
    let t = chunk_depths(t, b);
    let bytes = [
        0x34, 0, 0, 0x04, 0, 1, // the function, into `correct`
        0x03, 0, 2, 0x03, 0, 1, 0x00, 0, 3, 0x00, 0, 4, 0x32, 2, // console, and correct(840, 12)
        0x03, 0, 1, 0x00, 0, 3, 0x32, 1, 0x47, 0x32, 2, 0x50, // the type of correct(840), printed
        0x03, 0, 1, 0x00, 0, 5, 0x00, 0, 6, 0x32, 2, 0xff, // correct(100, 0)
    ];
    t.met(0, t.writer.code(b, &bytes))
}

fn chunk_names(t: Tally, b: &mut [u8]) -> Tally {
    let t = t.met(0, t.writer.function(b, 1));
    let t = t.met(0, t.writer.text(b, b"correct"));
    t.met(0, t.writer.text(b, b"console"))
}

fn chunk_depths(t: Tally, b: &mut [u8]) -> Tally {
    let t = t.met(0, t.writer.number(b, 840 * 0x1_0000_0000));
    let t = t.met(0, t.writer.number(b, 12 * 0x1_0000_0000));
    let t = t.met(0, t.writer.number(b, 100 * 0x1_0000_0000));
    t.met(0, t.writer.number(b, 0))
}

fn correct(t: Tally, b: &mut [u8]) -> Tally {
    let t = t.met(0, t.writer.template(b, 2, 3));
    let t = t.met(0, t.writer.function(b, 2));
    let bytes = [
        0x34, 0, 0, 0x01, 0, 1, 0x32, 1, 0x02, 0, 2, 0x01, 0, 0, 0x01, 0, 2, 0x0a, 0x33,
    ];
    t.met(0, t.writer.code(b, &bytes))
}

fn firn(t: Tally, b: &mut [u8]) -> Tally {
    let t = t.met(0, t.writer.template(b, 1, 0));
    let t = t.met(0, t.writer.number(b, 0xa666_6666));
    t.met(0, t.writer.code(b, &[0x01, 0, 0, 0x00, 0, 0, 0x0c, 0x33]))
}
