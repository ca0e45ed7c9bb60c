//! What the list and the engine differ in.
use std::fmt;

#[derive(Clone, Copy)]
pub enum Differs {
    Load,
    End,
    Payload,
    Steps,
    Operands,
    Operand,
    Frames,
    Frame,
    Slot,
    Handlers,
    Handler,
    Functions,
    Function,
    Objects,
    Object,
    Properties,
    Property,
    Globals,
    Global,
    Slots,
    Text,
    Output,
    Run,
    Drain,
    Clear,
    Cut,
}

impl Differs {
    fn name(self) -> &'static str {
        match self {
            Differs::Load => "the answer of a load",
            Differs::End => "the number of a run's end",
            Differs::Payload => "the value or byte of a run's end",
            Differs::Steps => "the steps of a run",
            Differs::Operands => "the count of operands",
            Differs::Operand => "an operand",
            Differs::Frames => "the count of frames",
            Differs::Frame => "a frame",
            Differs::Slot => "a slot",
            Differs::Handlers => "the count of handlers",
            Differs::Handler => "a handler",
            Differs::Functions => "the count of functions",
            Differs::Function => "a function",
            Differs::Objects => "the count of objects",
            Differs::Object => "the kind of an object",
            Differs::Properties => "the count of properties",
            Differs::Property => "a property",
            Differs::Globals => "the count of globals",
            Differs::Global => "a global",
            Differs::Slots => "the count of slots",
            Differs::Text => "the count of text bytes",
            Differs::Output => "the output",
            Differs::Run => "whether a run is refused",
            Differs::Drain => "what is drained",
            Differs::Clear => "the clear",
            Differs::Cut => "the end of the program in the list",
        }
    }
}

impl fmt::Display for Differs {
    fn fmt<W: fmt::Write>(&self, f: &mut fmt::Formatter<W>) -> fmt::Result {
        write!(f, "{}", self.name())
    }
}

// The list's number is this one.
pub fn want(listed: u64, have: u64, what: Differs) -> Result<(), Differs> {
    if listed == have { Ok(()) } else { Err(what) }
}
