//! What an instruction leaves to do with the other stores, and what the dispatcher leaves whole.
#![tactic(auto)]

ghost use Rattle.std.specs.Prelude.{◌≡◌, ℕ, ◌≤◌, List, length};
ghost use Rattle.texts.specs.Keeps.{text_limit, output_limit};
ghost use Rattle.opcode.specs.Programs.{deferred, looking_up, changing};
ghost use Rattle.outcome.specs.Meets.{Meets};
ghost use Rattle.heap.specs.View.{Sized};
ghost use Rattle.heapops.specs.Turns.{Turns, mem, Loaded};
ghost use Rattle.finish.specs.Parts.{Completes, Finishes, Ground, LeftReady, LeftBy, MoreReady, Looks, tables, steady_of};

use fetch::Running;
use heap::Heap;
use heapops::{Counts, Turned, create, joining, print, stores};
use opcode::{Change, Deferred, Lookup};
use outcome::{Part, Stepped};
use readops::{call, constants, lookups};
use texts::Texts;
use value::JsVmError;

// Whatever an instruction does, the code and the images stay.
fn steady(c: Counts, t: Turned) -> Turned
    ensures { result ≡ steady_of c t }
{
    Turned {
        counts: Counts {
            code: c.code,
            images: c.images,
            ..t.counts
        },
        ..t
    }
}

pub fn complete(
    r: Stepped,
    c: Counts,
    code: &[u8],
    stacks: &mut [u64],
    heap: &mut [u64],
    text: &mut [u8],
    output: &mut [u8],
) -> Turned
    requires left_ready { LeftReady r.how r.depths stacks.old }
    requires code_in_bounds { c.code ≤ length code.now }
    requires sized { Sized c.sizes heap.old }
    requires text_le_text_limit { (c.text ≤ text_limit) × (length text.old ≡ text_limit) }
    requires output_le_output_limit { (c.output ≤ output_limit) × (length output.old ≡ output_limit) }
    ensures { Completes (Loaded c.code code.now) c (mem stacks.old heap.old text.old output.old) r result (mem stacks.new heap.new text.new output.new) }
{
    let e = c.with_depths(r.depths);
    match r.how {
        Part::Went | Part::More(_) => heapops::went(e),
        Part::Ended(q) => heapops::ended(e, q),
        Part::Refused(q) => heapops::refused(e, q),
        Part::Register(i, t) => create::register(e, i, t, stacks, heap),
        Part::Join(a, b) => joining::join(e, a, b, code, stacks, text),
        Part::Print(k) => print::print(e, k, code, stacks, text, output),
    }
}

// The instructions that read other stores.
fn look_up(
    op: Lookup,
    x: Running,
    c: Counts,
    code: &[u8],
    places: &[u16],
    rows: &[u16],
    starts: &[u16],
    texts: &Texts,
    heap: &Heap,
    stacks: &mut [u64],
) -> Stepped
    requires more_ready { MoreReady x c.depths stacks.old }
    requires code_in_bounds { c.code ≤ length code.now }
    ensures { Meets (Looks x c (tables code.now places.now rows.now starts.now) texts.now heap.now) (looking_up op) c.depths stacks.old result stacks.new }
{
    let d = c.depths;
    let n = c.code;
    match op {
        Lookup::LoadGlobal => lookups::load_global(x, d, code, n, places, texts, heap, stacks),
        Lookup::LoadProperty => lookups::load_property(x, d, code, n, places, texts, heap, stacks),
        Lookup::LoadIndex => lookups::load_index(d, texts, heap, stacks),
        Lookup::Call => call::call(x, d, code, n, rows, starts, c.images, heap, stacks),
        Lookup::CreateClosure => constants::create_closure(x, d, code, n, places, stacks),
    }
}

// The instructions that change other stores.
fn change(
    op: Change,
    x: Running,
    c: Counts,
    code: &[u8],
    places: &[u16],
    stacks: &mut [u64],
    heap: &mut [u64],
    text: &mut [u8],
) -> Turned
    requires more_ready { MoreReady x c.depths stacks.old }
    requires code_in_bounds { c.code ≤ length code.now }
    requires sized { Sized c.sizes heap.old }
    requires text_le_text_limit { (c.text ≤ text_limit) × (length text.old ≡ text_limit) }
    ensures { (rows starts o : List ℕ) → Turns (Ground x c (tables code.now places.now rows starts)) (changing op) c (mem stacks.old heap.old text.old o) result (mem stacks.new heap.new text.new o) }
{
    match op {
        Change::StoreGlobal => stores::store_global(x, c, code, places, stacks, heap, text),
        Change::StoreProperty => stores::store_property(x, c, code, places, stacks, heap, text),
        Change::StoreIndex => stores::store_index(c, code, stacks, heap, text),
        Change::CreateObject => create::create_object(c, stacks, heap),
        Change::CreateArray => create::create_array(x, c, code, stacks, heap, text),
        Change::Typeof => joining::type_of(c, stacks, text),
    }
}

// The depths are those behind the opcode.
pub fn execute_more(
    op: Deferred,
    x: Running,
    c: Counts,
    code: &[u8],
    places: &[u16],
    rows: &[u16],
    starts: &[u16],
    stacks: &mut [u64],
    heap: &mut [u64],
    text: &mut [u8],
    output: &mut [u8],
) -> Turned
    requires more_ready { MoreReady x c.depths stacks.old }
    requires code_in_bounds { c.code ≤ length code.now }
    requires sized { Sized c.sizes heap.old }
    requires text_le_text_limit { (c.text ≤ text_limit) × (length text.old ≡ text_limit) }
    requires output_le_output_limit { (c.output ≤ output_limit) × (length output.old ≡ output_limit) }
    ensures { Turns (Ground x c (tables code.now places.now rows.now starts.now)) (deferred op) c (mem stacks.old heap.old text.old output.old) result (mem stacks.new heap.new text.new output.new) }
{
    match op {
        Deferred::Lookup(op) => {
            let texts = Texts::new(code, c.code, text, c.text);
            let held = Heap::new(c.sizes, heap);
            let r = look_up(op, x, c, code, places, rows, starts, &texts, &held, stacks);
            complete(r, c, code, stacks, heap, text, output)
        }
        Deferred::Change(op) => change(op, x, c, code, places, stacks, heap, text),
        Deferred::Unknown(b) => heapops::failed(c, c.depths, JsVmError::UnknownOpcode(b)),
    }
}

// What a step leaves to do.
pub fn finish(
    r: Stepped,
    x: Running,
    c: Counts,
    code: &[u8],
    places: &[u16],
    rows: &[u16],
    starts: &[u16],
    stacks: &mut [u64],
    heap: &mut [u64],
    text: &mut [u8],
    output: &mut [u8],
) -> Turned
    requires left_by { LeftBy x r.how r.depths stacks.old }
    requires code_in_bounds { c.code ≤ length code.now }
    requires sized { Sized c.sizes heap.old }
    requires text_le_text_limit { (c.text ≤ text_limit) × (length text.old ≡ text_limit) }
    requires output_le_output_limit { (c.output ≤ output_limit) × (length output.old ≡ output_limit) }
    ensures { Finishes (Ground x c (tables code.now places.now rows.now starts.now)) x c (mem stacks.old heap.old text.old output.old) r result (mem stacks.new heap.new text.new output.new) }
{
    match r.how {
        Part::More(op) => {
            let e = c.with_depths(r.depths);
            let t = execute_more(
                op, x, e, code, places, rows, starts, stacks, heap, text, output,
            );
            steady(c, t)
        }
        _ => {
            let t = complete(r, c, code, stacks, heap, text, output);
            steady(c, t)
        }
    }
}
