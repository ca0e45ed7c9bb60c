//! The stacks of a run: operands, local slots, frames and handlers, side by side in one lent store of STACK_WORDS words.
//! Each function is one act of the machine, and says so by one equation over the machine's state.
#![tactic(auto)]

ghost use Rattle.std.specs.Prelude.{◌≡◌, ℕ, ◌+◌, ◌-◌, ◌*◌, ◌≤◌, ◌<◌, min, max, [], length};
ghost use Rattle.machine.specs.State.{State};
ghost use Rattle.machine.specs.Act.{push, push_handler, store, push_frame};
ghost use Rattle.value.specs.Words.{value_of, value_at};
ghost use Rattle.stacks.specs.Layout.{slot_limit, frame_limit, handler_limit, slots_at, frames_at, handlers_at, stack_words};
ghost use Rattle.stacks.specs.View.{on_stacks, Ready, Pops, Makes, PopsHandler, Truncates, Keeps, Cuts, handlers_of, saved_more, PendingOver, PopsFrame, Unwinds, frame_at, frame_of, handler_at, handler_of, top_of, slot_of, Filled, Puts, Saves, set_frame, above, Copies, Passes, called};
ghost use Rattle.stacks.specs.Laws.{with_operands, with_ip, Grows};
ghost use Rattle.stacks.specs.Places.{Stands};
ghost use Rattle.machine.specs.State.{operand_limit};

use value::{JsVmError, Space, Stop, Value};

// The limits of documents 01 and 02, and where each stack begins: an operand and a slot have 3 words, a frame 5, a handler 3.
pub const OPERAND_LIMIT: usize = 1024;

pub const SLOT_LIMIT: usize = 2048;

pub const FRAME_LIMIT: usize = 64;

pub const HANDLER_LIMIT: usize = 12;

pub const SLOTS_AT: usize = 3 * OPERAND_LIMIT;

pub const FRAMES_AT: usize = SLOTS_AT + 3 * SLOT_LIMIT;

pub const HANDLERS_AT: usize = FRAMES_AT + 5 * FRAME_LIMIT;

pub const STACK_WORDS: usize = HANDLERS_AT + 3 * HANDLER_LIMIT;

// How many stand, and the place of the newest frame.
#[repr(C)]
#[derive(Clone, Copy, Debug, Default, PartialEq, Eq)]
pub struct Depths {
    pub operands: usize,
    pub slots: usize,
    pub frames: usize,
    pub handlers: usize,
    pub ip: usize,
}

#[derive(Clone, Copy, Debug, PartialEq, Eq)]
pub struct Frame {
    pub image: u64,
    pub template: u64,
    pub ip: u64,
    pub base: u64,
    pub count: u64,
}

#[derive(Clone, Copy, Debug, PartialEq, Eq)]
pub struct Handler {
    pub catch: u64,
    pub operands: u64,
    pub frames: u64,
}

impl Depths {
    pub fn with_operands(self, n: usize) -> Depths
        ensures { result ≡ with_operands n self }
    {
        Depths {
            operands: n,
            ..self
        }
    }

    pub fn with_ip(self, p: usize) -> Depths
        ensures { result ≡ with_ip p self }
    {
        Depths { ip: p, ..self }
    }

    pub fn pop(self, stacks: &[u64]) -> Option<(Value, Depths)>
        requires { Ready self stacks.now }
        ensures { Pops self stacks.now result }
    {
        let n = self.operands.checked_sub(1)?;
        Some((value::read(stacks, 3 * n), self.with_operands(n)))
    }

    // The newest operand, or Undefined.
    pub fn top(self, stacks: &[u64]) -> Value
        requires { Ready self stacks.now }
        ensures { value_of result ≡ top_of self stacks.now }
    {
        let n = self.operands;
        if n == 0 {
            return Value::Undefined;
        }
        value::read(stacks, 3 * (n - 1))
    }

    // n operands off, or all where fewer stand.
    pub fn truncate(self, n: usize) -> Depths
        ensures { Truncates self n result }
    {
        self.with_operands(self.operands.saturating_sub(n))
    }

    // One operand more, if there is room for it.
    fn grown(self) -> Result<Depths, Stop>
        ensures { Grows self result }
    {
        let n = self.operands;
        if n < OPERAND_LIMIT {
            Ok(self.with_operands(n + 1))
        } else {
            Err(Stop::Failed(JsVmError::StackOverflow))
        }
    }

    pub fn push(self, stacks: &mut [u64], v: Value) -> Result<Depths, Stop>
        requires { Ready self stacks.old }
        ensures { Makes (push (value_of v)) self stacks.old result stacks.new }
    {
        let d = self.grown()?;
        value::write(stacks, 3 * self.operands, v);
        Ok(d)
    }

    // The value at place k of the store, pushed.
    pub fn push_copy(self, stacks: &mut [u64], k: usize) -> Result<Depths, Stop>
        requires ready { Ready self stacks.old }
        requires k_bound { k + 2 < stack_words }
        ensures { Makes (push (value_at stacks.old k)) self stacks.old result stacks.new }
    {
        let d = self.grown()?;
        value::copy(stacks, 3 * self.operands, k);
        Ok(d)
    }

    // The value at place k of another store, pushed.
    pub fn push_from(self, stacks: &mut [u64], source: &[u64], k: usize) -> Result<Depths, Stop>
        requires ready { Ready self stacks.old }
        requires k_in_bounds { k + 2 < length source.now }
        ensures { Makes (push (value_at source.now k)) self stacks.old result stacks.new }
    {
        let d = self.grown()?;
        value::bring(stacks, 3 * self.operands, source, k);
        Ok(d)
    }

    pub fn push_handler(self, stacks: &mut [u64], catch: u64) -> Result<Depths, Stop>
        requires { Ready self stacks.old }
        ensures { Makes (push_handler catch) self stacks.old result stacks.new }
    {
        if self.frames == 0 {
            return Err(Stop::Failed(JsVmError::NoCallFrame));
        }
        let n = self.handlers;
        if HANDLER_LIMIT <= n {
            return Err(Stop::Refused(Space::Handlers));
        }
        let k = HANDLERS_AT + 3 * n;
        stacks[k] = catch;
        stacks[k + 1] = self.operands as u64;
        stacks[k + 2] = self.frames as u64;
        Ok(Depths {
            handlers: n + 1,
            ..self
        })
    }

    // The newest handler off, if there is one.
    pub fn pop_handler(self) -> Depths
        ensures { PopsHandler self result }
    {
        Depths {
            handlers: self.handlers.saturating_sub(1),
            ..self
        }
    }

    // Only the lowest k frames stand, with their slots; the newest goes on at p.
    pub fn keep_frames(self, k: usize, p: usize, stacks: &[u64]) -> Depths
        requires ready { Ready self stacks.now }
        requires k_le_frame_limit { k ≤ frame_limit }
        ensures { Keeps self k p stacks.now result }
    {
        let slots = if k == 0 {
            0
        } else {
            let f = read_frame(stacks, FRAMES_AT + 5 * (k - 1));
            f.end_of(self.slots)
        };
        Depths {
            slots,
            frames: k,
            ip: p,
            ..self
        }
    }

    // Only the lowest m frames stand, with their slots.
    pub fn cut_frames(self, m: usize, stacks: &[u64]) -> Depths
        requires { Ready self stacks.now }
        ensures { Cuts self m stacks.now result }
    {
        let n = self.frames;
        if n <= m {
            return self.keep_frames(n, self.ip, stacks);
        }
        if m == 0 {
            return self.keep_frames(0, 0, stacks);
        }
        let f = read_frame(stacks, FRAMES_AT + 5 * (m - 1));
        self.keep_frames(m, f.ip as usize, stacks)
    }

    // The newest frame is taken off, with its slots and its handlers.
    pub fn pop_frame(self, stacks: &[u64]) -> Depths
        requires { Ready self stacks.now }
        ensures { PopsFrame self stacks.now result }
    {
        let k = self.frames.saturating_sub(1);
        let d = Depths {
            handlers: pending_over(self.handlers, k, stacks),
            ..self
        };
        d.cut_frames(k, stacks)
    }

    // The newest handler is taken off, with what stands above the operands and frames that it saved.
    pub fn unwind(self, h: Handler, stacks: &[u64]) -> Depths
        requires ready { Ready self stacks.now }
        requires pending { self.handlers ≡ 0 → ⊥ }
        requires newest { handler_of h ≡ handler_at stacks.now (handlers_at + 3 * (self.handlers - 1)) }
        ensures { Unwinds self stacks.now result }
    {
        let d = Depths {
            operands: self.operands.min(h.operands as usize),
            handlers: self.handlers - 1,
            ..self
        };
        d.cut_frames(h.frames as usize, stacks)
    }

    // Where slot i of the newest frame stands.
    pub fn slot_place(self, stacks: &[u64], i: usize) -> Option<usize>
        requires { Ready self stacks.now }
        ensures { Stands self stacks.now i result }
    {
        let k = self.frames.checked_sub(1)?;
        let f = read_frame(stacks, FRAMES_AT + 5 * k);
        if f.count <= i as u64 {
            return None;
        }
        let b = f.base as usize;
        if self.slots.saturating_sub(i) <= b {
            return None;
        }
        Some(SLOTS_AT + 3 * (b + i))
    }

    // Slot i of the newest frame, or Undefined.
    pub fn read_slot(self, stacks: &[u64], i: usize) -> Value
        requires { Ready self stacks.now }
        ensures { value_of result ≡ slot_of self stacks.now i }
    {
        let Some(k) = self.slot_place(stacks, i) else {
            return Value::Undefined;
        };
        value::read(stacks, k)
    }

    // A value into slot i of the newest frame, which grows to have it.
    pub fn store(self, stacks: &mut [u64], i: usize, v: Value) -> Result<Depths, Stop>
        requires ready { Ready self stacks.old }
        requires i_bound { i < 65536 }
        ensures { Makes (store i (value_of v)) self stacks.old result stacks.new }
    {
        let k = self.frames;
        if k == 0 {
            return Ok(self);
        }
        let at = FRAMES_AT + 5 * (k - 1);
        let f = read_frame(stacks, at);
        let more = f.lacking(i);
        let n = self.slots;
        if SLOT_LIMIT - n < more {
            return Err(Stop::Refused(Space::Slots));
        }
        fill(stacks, n, n + more);
        stacks[at + 4] = f.count + more as u64;
        put(stacks, n + more, f.base, i, v);
        Ok(Depths {
            slots: n + more,
            ..self
        })
    }

    // The newest frame's place, from the depths into its row.
    pub fn save_ip(self, stacks: &mut [u64])
        requires { Ready self stacks.old }
        ensures { Saves self stacks.old stacks.new }
    {
        let k = self.frames;
        if k == 0 {
            return;
        }
        stacks[FRAMES_AT + 5 * (k - 1) + 2] = self.ip as u64;
    }

    // A frame for a template of an image, with the `count` values above the slots as its own. There is room for it.
    fn add_frame(self, stacks: &mut [u64], image: u64, template: u64, count: usize) -> Depths
        requires ready { Ready self stacks.old }
        requires frames_lt_frame_limit { (self.frames < frame_limit) × (count ≤ slot_limit - self.slots) }
        ensures { Makes (push_frame image template (above stacks.old self.slots count)) self stacks.old (Ok result) stacks.new }
    {
        let k = self.frames;
        let n = self.slots;
        self.save_ip(stacks);
        write_frame(
            stacks,
            FRAMES_AT + 5 * k,
            Frame {
                image,
                template,
                ip: 0,
                base: n as u64,
                count: count as u64,
            },
        );
        Depths {
            slots: n + count,
            frames: k + 1,
            ip: 0,
            ..self
        }
    }

    // A run's own frame: it has no slots.
    pub fn push_frame(self, stacks: &mut [u64], image: u64, template: u64) -> Result<Depths, Stop>
        requires { Ready self stacks.old }
        ensures { Makes (push_frame image template []) self stacks.old result stacks.new }
    {
        if FRAME_LIMIT <= self.frames {
            return Err(Stop::Refused(Space::Frames));
        }
        Ok(self.add_frame(stacks, image, template, 0))
    }

    // A called function's frame. Callee and arguments are popped already: the arguments stand right above the callee, above these operands.
    pub fn call_frame(
        self,
        stacks: &mut [u64],
        image: u64,
        template: u64,
        argc: usize,
        params: usize,
        locals: usize,
    ) -> Result<Depths, Stop>
        requires ready { Ready self stacks.old }
        requires argc_bound { self.operands + 1 + argc ≤ operand_limit }
        ensures { Makes (push_frame image template (called stacks.old (self.operands + 1) argc params locals)) self stacks.old result stacks.new }
    {
        if FRAME_LIMIT <= self.frames {
            return Err(Stop::Refused(Space::Frames));
        }
        let n = self.slots;
        let count = params.max(locals);
        if SLOT_LIMIT - n < count {
            return Err(Stop::Refused(Space::Slots));
        }
        pass_arguments(stacks, self.operands + 1, argc, n, params, locals);
        Ok(self.add_frame(stacks, image, template, count))
    }
}

impl Frame {
    // The place after its slots, of n slots in all.
    pub fn end_of(self, n: usize) -> usize
        ensures { result ≡ min (self.base + self.count) n }
    {
        self.base.saturating_add(self.count).min(n as u64) as usize
    }

    // How many slots it lacks to have slot i.
    pub fn lacking(self, i: usize) -> usize
        requires { i < 65536 }
        ensures { result ≡ i + 1 - self.count }
    {
        (i as u64 + 1).saturating_sub(self.count) as usize
    }
}

#[tactic(auto, unfolding(crate::specs::View::frame_at))]
pub fn read_frame(w: &[u64], k: usize) -> Frame
    requires { k + 4 < length w.now }
    ensures { frame_of result ≡ frame_at w.now k }
{
    Frame {
        image: w[k],
        template: w[k + 1],
        ip: w[k + 2],
        base: w[k + 3],
        count: w[k + 4],
    }
}

#[tactic(auto, unfolding(crate::specs::View::set_frame))]
pub fn write_frame(w: &mut [u64], k: usize, f: Frame)
    requires { k + 4 < length w.old }
    ensures { w.new ≡ set_frame w.old k f }
{
    w[k] = f.image;
    w[k + 1] = f.template;
    w[k + 2] = f.ip;
    w[k + 3] = f.base;
    w[k + 4] = f.count;
}

#[tactic(auto, unfolding(crate::specs::View::handler_at))]
pub fn read_handler(w: &[u64], k: usize) -> Handler
    requires { k + 2 < length w.now }
    ensures { handler_of result ≡ handler_at w.now k }
{
    Handler {
        catch: w[k],
        operands: w[k + 1],
        frames: w[k + 2],
    }
}

// Did the newest of n handlers save more than k frames?
pub fn saved_more(n: usize, k: usize, stacks: &[u64]) -> bool
    requires { (n ≤ handler_limit) × (length stacks.now ≡ stack_words) }
    ensures { result ≡ saved_more k (handlers_of stacks.now n) }
{
    if n == 0 {
        return false;
    }
    let saved = stacks[HANDLERS_AT + 3 * (n - 1) + 2];
    (k as u64) < saved
}

// How many of n handlers are left over k frames: the newest go, as long as they saved more.
pub fn pending_over(n: usize, k: usize, stacks: &[u64]) -> usize
    requires { (n ≤ handler_limit) × (length stacks.now ≡ stack_words) }
    ensures { PendingOver n k stacks.now result }
{
    let mut m = n;
    while saved_more(m, k, stacks) {
        m -= 1;
    }
    m
}

// Undefined into the slots from a place to another.
pub fn fill(w: &mut [u64], from: usize, to: usize)
    requires { (from ≤ to) × (to ≤ slot_limit) × (length w.old ≡ stack_words) }
    ensures { Filled w.old w.new from to }
{
    for i in from..to {
        value::write(w, SLOTS_AT + 3 * i, Value::Undefined);
    }
}

// v into slot base + i of n, if it is there.
pub fn put(w: &mut [u64], n: usize, base: u64, i: usize, v: Value)
    requires { (n ≤ slot_limit) × (length w.old ≡ stack_words) }
    ensures { Puts w.old w.new n (base + i) (value_of v) }
{
    let b = base as usize;
    if b < n.saturating_sub(i) {
        value::write(w, SLOTS_AT + 3 * (b + i), v);
    }
}

// `count` operands from number `from` on, into the slots from number `to` on.
fn copy_arguments(w: &mut [u64], from: usize, to: usize, count: usize)
    requires { (from + count ≤ operand_limit) × (to + count ≤ slot_limit) × (length w.old ≡ stack_words) }
    ensures { Copies w.old w.new from to count }
{
    for i in 0..count {
        // written and not copied: a word that the value does not use is 0 in its slot
        let v = value::read(w, 3 * (from + i));
        value::write(w, SLOTS_AT + 3 * (to + i), v);
    }
}

// The slots of a called function, laid from slot n on: its arguments are the `argc` operands from number `from` on.
fn pass_arguments(w: &mut [u64], from: usize, argc: usize, n: usize, params: usize, locals: usize)
    requires { (from + argc ≤ operand_limit) × (n + max params locals ≤ slot_limit) × (length w.old ≡ stack_words) }
    ensures { Passes w.old w.new from argc n params locals }
{
    let m = argc.min(params);
    copy_arguments(w, from, n, m);
    fill(w, n + m, n + params.max(locals));
}
