//! The number rows of document 01's bench sheet, that of number texts as change 4 amends it.
use crate::rust::formats;
use number::JsNumber;

// The most negative number, minus one as a count of 2^-32, and minus one.
const LEAST: JsNumber = JsNumber {
    bits: 0x8000_0000_0000_0000,
};

const MINUS_RAW: JsNumber = JsNumber {
    bits: 0xffff_ffff_ffff_ffff,
};

const MINUS_ONE: JsNumber = JsNumber {
    bits: 0xffff_ffff_0000_0000,
};

fn reads(text: &'static str, number: JsNumber) -> (&'static str, bool) {
    (text, JsNumber::parse_js_number(text.as_bytes()) == number)
}

/// Each row with whether it agrees.
pub fn rows() -> [(&'static str, bool); 13] {
    let more = JsNumber::raw(6442450944);
    let two = JsNumber::js_int(2);
    [
        (
            "raw 6442450944 squared",
            more * more == JsNumber::raw(9663676416),
        ),
        (
            "raw -1 Mul raw 1",
            MINUS_RAW * JsNumber::raw(1) == MINUS_RAW,
        ),
        ("raw -1 Div two", MINUS_RAW / two == JsNumber::JS_ZERO),
        ("raw -2^63 Div minus one", LEAST / MINUS_ONE == LEAST),
        ("Neg of raw -2^63", -LEAST == LEAST),
        (
            "one shifted left by 33",
            JsNumber::JS_ONE << JsNumber::js_int(33) == two,
        ),
        reads("-2147483648", LEAST),
        reads("4294967297", JsNumber::JS_ONE),
        reads("-", JsNumber::JS_ZERO),
        reads("+5", JsNumber::JS_NAN),
        (
            "raw -2^31 written",
            formats(JsNumber::raw(0xffff_ffff_8000_0000), b"-0.5"),
        ),
        ("raw 1 written", formats(JsNumber::raw(1), b"0")),
        ("raw -1 written", formats(MINUS_RAW, b"0")),
    ]
}
