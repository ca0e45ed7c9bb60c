//! The template that runs, and the operand bytes of its code.
#![tactic(auto)]

ghost use Rattle.std.specs.Prelude.{◌≡◌, ℕ, ◌+◌, ◌-◌, ◌*◌, ◌≤◌, ◌<◌, max, length};
ghost use Rattle.stacks.specs.Laws.{with_ip};
ghost use Rattle.stacks.specs.View.{Ready};
ghost use Rattle.fetch.specs.Running.{byte_in, Fetches, FetchesWord, Known, Current, cut_of};

use image::FunctionTemplate;
use outcome::{Stepped, failed};
use stacks::Depths;
use value::JsVmError;

// A template of an image, and what the tables say of it. The run keeps it while the newest frame is one of this template: a step then needs no lookup.
#[derive(Clone, Copy)]
pub struct Running {
    pub image: u64,
    pub template: u64,
    pub shape: FunctionTemplate,
}

pub fn find(rows: &[u16], starts: &[u16], images: usize, i: u64, t: u64) -> Running
    ensures known { Known rows.now starts.now images result }
    ensures place { (result.image ≡ i) × (result.template ≡ t) }
{
    Running {
        image: i,
        template: t,
        shape: image::template_at(rows, starts, images, i as usize, t as usize),
    }
}

// The template of the newest frame: the one at hand, or else looked up.
pub fn current(
    x: Running,
    d: Depths,
    stacks: &[u64],
    rows: &[u16],
    starts: &[u16],
    images: usize,
) -> Running
    requires ready { Ready d stacks.now }
    requires known { Known rows.now starts.now images x }
    ensures { Current rows.now starts.now images d stacks.now result }
{
    let k = d.frames;
    if k == 0 {
        return x;
    }
    let at = stacks::FRAMES_AT + 5 * (k - 1);
    let i = stacks[at];
    let t = stacks[at + 1];
    if i == x.image && t == x.template {
        return x;
    }
    find(rows, starts, images, i, t)
}

// Byte at + p of the n that are loaded, or 0.
pub fn byte_at(code: &[u8], n: usize, at: usize, p: usize) -> usize
    requires { n ≤ length code.now }
    ensures { (result ≡ byte_in code.now n (at + p)) × (result < 256) }
{
    if n <= at || n - at <= p {
        return 0;
    }
    usize::from(code[at + p])
}

// `read_byte`
pub fn fetch(x: Running, d: Depths, code: &[u8], n: usize) -> Option<(usize, Depths)>
    requires { n ≤ length code.now }
    ensures { Fetches x n code.now d result }
{
    let p = d.ip;
    if x.shape.size <= p {
        return None;
    }
    Some((byte_at(code, n, x.shape.at, p), d.with_ip(p + 1)))
}

// `read_u16`
pub fn fetch_word(x: Running, d: Depths, code: &[u8], n: usize) -> Option<(usize, Depths)>
    requires { n ≤ length code.now }
    ensures { FetchesWord x n code.now d result }
{
    let (hi, e) = fetch(x, d, code, n)?;
    let (lo, f) = fetch(x, e, code, n)?;
    Some((hi * 256 + lo, f))
}

// The operand bytes that were there are read.
pub fn past_end(x: Running, d: Depths) -> Depths
    ensures { result ≡ with_ip (max d.ip x.shape.size) d }
{
    d.with_ip(d.ip.max(x.shape.size))
}

// Error 14
pub fn cut_short(x: Running, d: Depths) -> Stepped
    ensures { result ≡ cut_of x d }
{
    failed(JsVmError::IpOutOfBounds, past_end(x, d))
}
