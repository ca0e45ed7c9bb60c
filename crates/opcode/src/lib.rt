//! The instructions under their names in 001.
#![tactic(auto)]

ghost use Rattle.opcode.specs.Programs.{Decodes};

/// An instruction.
#[derive(Clone, Copy, Debug, PartialEq, Eq)]
pub enum Opcode {
    LoadConst,
    LoadLocal,
    StoreLocal,
    LoadGlobal,
    StoreGlobal,
    LoadProperty,
    StoreProperty,
    LoadIndex,
    StoreIndex,
    Add,
    Sub,
    Mul,
    Div,
    Mod,
    Neg,
    Not,
    BitAnd,
    BitOr,
    BitXor,
    ShiftLeft,
    ShiftRight,
    Eq,
    StrictEq,
    NotEq,
    StrictNotEq,
    Lt,
    Gt,
    LtEq,
    GtEq,
    LogicalAnd,
    LogicalOr,
    Jump,
    JumpIfFalse,
    JumpIfTrue,
    Call,
    Return,
    CreateClosure,
    CreateObject,
    CreateArray,
    GetThis,
    Typeof,
    Instanceof,
    In,
    Throw,
    EnterTry,
    LeaveTry,
    Pop,
    Dup,
    Halt,
}

/// What the dispatcher leaves whole: an instruction that does with more than the stacks, or a byte that names none.
#[derive(Clone, Copy, Debug, PartialEq, Eq)]
pub enum Deferred {
    Lookup(Lookup),
    Change(Change),
    Unknown(u8),
}

/// These read other stores, and change the stacks alone.
#[derive(Clone, Copy, Debug, PartialEq, Eq)]
pub enum Lookup {
    LoadGlobal,
    LoadProperty,
    LoadIndex,
    Call,
    CreateClosure,
}

/// These change other stores.
#[derive(Clone, Copy, Debug, PartialEq, Eq)]
pub enum Change {
    StoreGlobal,
    StoreProperty,
    StoreIndex,
    CreateObject,
    CreateArray,
    Typeof,
}

// The byte of each.
impl Opcode {
    pub const LOAD_CONST: u8 = 0;

    pub const LOAD_LOCAL: u8 = 1;

    pub const STORE_LOCAL: u8 = 2;

    pub const LOAD_GLOBAL: u8 = 3;

    pub const STORE_GLOBAL: u8 = 4;

    pub const LOAD_PROPERTY: u8 = 5;

    pub const STORE_PROPERTY: u8 = 6;

    pub const LOAD_INDEX: u8 = 7;

    pub const STORE_INDEX: u8 = 8;

    pub const ADD: u8 = 10;

    pub const SUB: u8 = 11;

    pub const MUL: u8 = 12;

    pub const DIV: u8 = 13;

    pub const MOD: u8 = 14;

    pub const NEG: u8 = 15;

    pub const NOT: u8 = 20;

    pub const BIT_AND: u8 = 21;

    pub const BIT_OR: u8 = 22;

    pub const BIT_XOR: u8 = 23;

    pub const SHIFT_LEFT: u8 = 24;

    pub const SHIFT_RIGHT: u8 = 25;

    pub const EQ: u8 = 30;

    pub const STRICT_EQ: u8 = 31;

    pub const NOT_EQ: u8 = 32;

    pub const STRICT_NOT_EQ: u8 = 33;

    pub const LT: u8 = 34;

    pub const GT: u8 = 35;

    pub const LT_EQ: u8 = 36;

    pub const GT_EQ: u8 = 37;

    pub const LOGICAL_AND: u8 = 38;

    pub const LOGICAL_OR: u8 = 39;

    pub const JUMP: u8 = 40;

    pub const JUMP_IF_FALSE: u8 = 41;

    pub const JUMP_IF_TRUE: u8 = 42;

    pub const CALL: u8 = 50;

    pub const RETURN: u8 = 51;

    pub const CREATE_CLOSURE: u8 = 52;

    pub const CREATE_OBJECT: u8 = 60;

    pub const CREATE_ARRAY: u8 = 61;

    pub const GET_THIS: u8 = 70;

    pub const TYPEOF: u8 = 71;

    pub const INSTANCEOF: u8 = 72;

    pub const IN: u8 = 73;

    pub const THROW: u8 = 74;

    pub const ENTER_TRY: u8 = 75;

    pub const LEAVE_TRY: u8 = 76;

    pub const POP: u8 = 80;

    pub const DUP: u8 = 81;

    pub const HALT: u8 = 255;
}

impl Opcode {
    pub fn from_byte(b: u8) -> Option<Opcode>
        ensures { Decodes b result }
    {
        Some(match b {
            Opcode::LOAD_CONST => Opcode::LoadConst,
            Opcode::LOAD_LOCAL => Opcode::LoadLocal,
            Opcode::STORE_LOCAL => Opcode::StoreLocal,
            Opcode::LOAD_GLOBAL => Opcode::LoadGlobal,
            Opcode::STORE_GLOBAL => Opcode::StoreGlobal,
            Opcode::LOAD_PROPERTY => Opcode::LoadProperty,
            Opcode::STORE_PROPERTY => Opcode::StoreProperty,
            Opcode::LOAD_INDEX => Opcode::LoadIndex,
            Opcode::STORE_INDEX => Opcode::StoreIndex,
            Opcode::ADD => Opcode::Add,
            Opcode::SUB => Opcode::Sub,
            Opcode::MUL => Opcode::Mul,
            Opcode::DIV => Opcode::Div,
            Opcode::MOD => Opcode::Mod,
            Opcode::NEG => Opcode::Neg,
            Opcode::NOT => Opcode::Not,
            Opcode::BIT_AND => Opcode::BitAnd,
            Opcode::BIT_OR => Opcode::BitOr,
            Opcode::BIT_XOR => Opcode::BitXor,
            Opcode::SHIFT_LEFT => Opcode::ShiftLeft,
            Opcode::SHIFT_RIGHT => Opcode::ShiftRight,
            Opcode::EQ => Opcode::Eq,
            Opcode::STRICT_EQ => Opcode::StrictEq,
            Opcode::NOT_EQ => Opcode::NotEq,
            Opcode::STRICT_NOT_EQ => Opcode::StrictNotEq,
            Opcode::LT => Opcode::Lt,
            Opcode::GT => Opcode::Gt,
            Opcode::LT_EQ => Opcode::LtEq,
            Opcode::GT_EQ => Opcode::GtEq,
            Opcode::LOGICAL_AND => Opcode::LogicalAnd,
            Opcode::LOGICAL_OR => Opcode::LogicalOr,
            Opcode::JUMP => Opcode::Jump,
            Opcode::JUMP_IF_FALSE => Opcode::JumpIfFalse,
            Opcode::JUMP_IF_TRUE => Opcode::JumpIfTrue,
            Opcode::CALL => Opcode::Call,
            Opcode::RETURN => Opcode::Return,
            Opcode::CREATE_CLOSURE => Opcode::CreateClosure,
            Opcode::CREATE_OBJECT => Opcode::CreateObject,
            Opcode::CREATE_ARRAY => Opcode::CreateArray,
            Opcode::GET_THIS => Opcode::GetThis,
            Opcode::TYPEOF => Opcode::Typeof,
            Opcode::INSTANCEOF => Opcode::Instanceof,
            Opcode::IN => Opcode::In,
            Opcode::THROW => Opcode::Throw,
            Opcode::ENTER_TRY => Opcode::EnterTry,
            Opcode::LEAVE_TRY => Opcode::LeaveTry,
            Opcode::POP => Opcode::Pop,
            Opcode::DUP => Opcode::Dup,
            Opcode::HALT => Opcode::Halt,
            _ => return None,
        })
    }
}
