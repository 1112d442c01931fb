//! `Instr`, `Code`: the instructions of a function.
use checked_tree::{KernelName, Scalar};

/// What is awaited of a call or of the kernel: the numbers with which the running goes on behind it.
#[derive(Clone, Copy, PartialEq, Eq, Debug)]
pub enum Awaited {
    /// No number: the result, if there is one, is dropped.
    Nothing,
    /// The result.
    Number,
    /// A pointer with its bounds: three numbers, the greater bound topmost.
    Pointer,
}

/// An instruction over a stack of whole numbers, the locals and the memory. A program counter is the place of an instruction among those
/// of its function. Of two numbers that an instruction takes the lower one is the left one.
#[derive(Clone, Copy, PartialEq, Eq, Debug)]
pub enum Instr {
    /// Puts a number.
    Const(i128),
    /// Puts the value of a slot.
    Get(u32),
    /// Takes a number into a slot. The slot of a pointer's greater bound is one more than a slot of 32 bits, so this has a `usize`.
    Set(usize),
    /// Takes an address, puts the value of the place.
    Load(Scalar),
    /// Takes a number, then the address below it, and stores the number in the place.
    Store(Scalar),
    /// Takes an address; so many bytes from it on become 0.
    Fill(u32),
    Add,
    Sub,
    Mul,
    /// A quotient rounded towards 0.
    Div,
    /// The remainder of that quotient.
    Rem,
    Neg,
    And,
    Or,
    Xor,
    /// A product with a power of two; the count is taken modulo 32.
    Shl,
    /// A quotient by a power of two, rounded down; the count is taken modulo 32.
    Shr,
    /// Converts a number to a type.
    Ext(Scalar),
    Lt,
    Le,
    Eq,
    /// 1 for 0, 0 for every other number.
    Not,
    /// Goes on at a program counter.
    Jump(usize),
    /// Takes a number, and goes on at a program counter where it is 0.
    JumpZero(usize),
    /// Calls the function with this number. The numbers on the stack are its arguments, the last one topmost.
    Call(u32, Awaited),
    /// Asks the kernel. The numbers on the stack are the arguments, the last one topmost; above them a pointer with its bounds, if the call
    /// has one.
    Kernel {
        name: KernelName,
        pointer: bool,
        function: u32,
        elem: u32,
        size: u32,
        awaited: Awaited,
    },
    /// Returns without a value.
    Ret,
    /// Returns the number on the stack.
    RetValue,
    Pop,
    Dup,
    /// The check with this number: the lower number is at most the upper one.
    CheckLe(usize),
    /// The same, or the guard below them is 0.
    CheckOr(usize),
    /// The upper number is a multiple of the size, or the guard below it is 0.
    CheckMod(usize, u32),
    /// The number is not 0.
    CheckNonZero(usize),
    /// The two numbers are equal.
    CheckEqual(usize),
    /// The lower number, a byte, is not 0, or the upper one is 0.
    CheckTerm(usize),
    /// From below the old tag, the new one and an address: the tags are equal, or so many bytes from the address on are 0.
    CheckKept(usize, u32),
}

/// The code of a function.
#[derive(Drop)]
pub struct Code {
    pub instrs: Vec<Instr>,
    /// The first program counter and the line of each statement, in text order.
    pub segments: Vec<(usize, u32)>,
    /// No running within a statement puts more numbers on the stack.
    pub depth: usize,
}
