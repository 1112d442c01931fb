//! The line of an instruction in a listing.
ghost use Rattle.std.specs.Prelude.{◌≡◌, ◌+◌, ◌<◌, ◌≤◌, ◌++◌, length, slice_get};
ghost use Rattle.std.specs.Fmt.{decimal, signed_decimal};
ghost use Rattle.checked_tree.specs.KernelTable.{kernel_row};
ghost use Rattle.driver_code.specs.Listing as spec;
ghost use Rattle.driver_code.specs.Listing.{IsSplit, IsListed};

use crate::instr::{Code, Instr};
use checked_tree::{KernelName, Scalar, kernel_row};
use itoa::Buffer;
use sd_base::{Line, Name};

/// How many bits are read, with `s` where the number has a sign. A place of `void`, which no rule derives, has none.
fn load_word(scalar: Scalar) -> &'static [u8]
    ensures word { result.now ≡ spec.load_word scalar }
    ensures short { length result.now ≤ 10 }
{
    match scalar {
        Scalar::Void => b"load0",
        Scalar::U8 => b"load8",
        Scalar::I8 => b"load8s",
        Scalar::U16 => b"load16",
        Scalar::I16 => b"load16s",
        Scalar::I32 => b"load32s",
        Scalar::U32 => b"load32",
        Scalar::Pointer { size: _ } => b"load32",
    }
}

/// How many bits are stored.
fn store_word(scalar: Scalar) -> &'static [u8]
    ensures word { result.now ≡ spec.store_word scalar }
    ensures short { length result.now ≤ 10 }
{
    match scalar {
        Scalar::Void => b"store0",
        Scalar::U8 => b"store8",
        Scalar::I8 => b"store8",
        Scalar::U16 => b"store16",
        Scalar::I16 => b"store16",
        Scalar::I32 => b"store32",
        Scalar::U32 => b"store32",
        Scalar::Pointer { size: _ } => b"store32",
    }
}

/// To which type a number is converted.
fn ext_word(scalar: Scalar) -> &'static [u8]
    ensures word { result.now ≡ spec.ext_word scalar }
    ensures short { length result.now ≤ 10 }
{
    match scalar {
        Scalar::Void => b"ext0",
        Scalar::U8 => b"ext8",
        Scalar::I8 => b"ext8s",
        Scalar::U16 => b"ext16",
        Scalar::I16 => b"ext16s",
        Scalar::I32 => b"ext32s",
        Scalar::U32 => b"ext32",
        Scalar::Pointer { size: _ } => b"ext32",
    }
}

/// The word of an instruction.
fn word(instr: Instr) -> &'static [u8]
    ensures word { result.now ≡ spec.word instr }
    ensures short { length result.now ≤ 10 }
{
    match instr {
        Instr::Const(_) => b"const",
        Instr::Get(_) => b"get",
        Instr::Set(_) => b"set",
        Instr::Load(scalar) => load_word(scalar),
        Instr::Store(scalar) => store_word(scalar),
        Instr::Fill(_) => b"fill",
        Instr::Add => b"add",
        Instr::Sub => b"sub",
        Instr::Mul => b"mul",
        Instr::Div => b"div",
        Instr::Rem => b"rem",
        Instr::Neg => b"neg",
        Instr::And => b"and",
        Instr::Or => b"or",
        Instr::Xor => b"xor",
        Instr::Shl => b"shl",
        Instr::Shr => b"shr",
        Instr::Ext(scalar) => ext_word(scalar),
        Instr::Lt => b"lt",
        Instr::Le => b"le",
        Instr::Eq => b"eq",
        Instr::Not => b"not",
        Instr::Jump(_) => b"jump",
        Instr::JumpZero(_) => b"jzero",
        Instr::Call(_, _) => b"call",
        Instr::Kernel {
            name: _,
            pointer: _,
            function: _,
            elem: _,
            size: _,
            awaited: _,
        } => b"kernel",
        Instr::Ret => b"ret",
        Instr::RetValue => b"retv",
        Instr::Pop => b"pop",
        Instr::Dup => b"dup",
        Instr::CheckLe(_) => b"check_le",
        Instr::CheckOr(_) => b"check_or",
        Instr::CheckMod(_, _) => b"check_mod",
        Instr::CheckNonZero(_) => b"check_nz",
        Instr::CheckEqual(_) => b"check_eq",
        Instr::CheckTerm(_) => b"check_term",
        Instr::CheckKept(_, _) => b"check_kept",
    }
}

/// The decimal digits of a count.
fn put_digits(line: &mut Line, n: u64)
    requires { length line.old + 20 ≤ 200 }
    ensures line { line.new ≡ line.old ++ decimal n }
    ensures len { length line.new ≤ length line.old + 20 }
{
    let mut buffer = Buffer::new();
    line.put_text(buffer.format(n).as_bytes());
}

/// A blank and a count.
fn put_count(line: &mut Line, n: u64)
    requires { length line.old + 21 ≤ 200 }
    ensures line { line.new ≡ line.old ++ spec.behind (decimal n) }
    ensures len { length line.new ≤ length line.old + 21 }
{
    line.put_text(b" ");
    put_digits(line, n);
}

/// What stands behind the word of an instruction.
fn put_operands(line: &mut Line, instr: Instr)
    requires { length line.old + 42 ≤ 200 }
    ensures { line.new ≡ line.old ++ spec.operands instr }
{
    match instr {
        Instr::Const(n) => {
            line.put_text(b" ");
            line.put_dec(n);
        }
        Instr::Get(slot) => put_count(line, u64::from(slot)),
        Instr::Set(slot) => put_count(line, slot as u64),
        Instr::Load(_) => {}
        Instr::Store(_) => {}
        Instr::Fill(size) => put_count(line, u64::from(size)),
        Instr::Add => {}
        Instr::Sub => {}
        Instr::Mul => {}
        Instr::Div => {}
        Instr::Rem => {}
        Instr::Neg => {}
        Instr::And => {}
        Instr::Or => {}
        Instr::Xor => {}
        Instr::Shl => {}
        Instr::Shr => {}
        Instr::Ext(_) => {}
        Instr::Lt => {}
        Instr::Le => {}
        Instr::Eq => {}
        Instr::Not => {}
        Instr::Jump(to) => put_count(line, to as u64),
        Instr::JumpZero(to) => put_count(line, to as u64),
        Instr::Call(function, _) => put_count(line, u64::from(function)),
        Instr::Kernel {
            name,
            pointer: _,
            function: _,
            elem: _,
            size: _,
            awaited: _,
        } => {
            line.put_text(b" ");
            line.put_text(kernel_spelling(name));
        }
        Instr::Ret => {}
        Instr::RetValue => {}
        Instr::Pop => {}
        Instr::Dup => {}
        Instr::CheckLe(id) => put_count(line, id as u64),
        Instr::CheckOr(id) => put_count(line, id as u64),
        Instr::CheckMod(id, size) => {
            put_count(line, id as u64);
            put_count(line, u64::from(size));
        }
        Instr::CheckNonZero(id) => put_count(line, id as u64),
        Instr::CheckEqual(id) => put_count(line, id as u64),
        Instr::CheckTerm(id) => put_count(line, id as u64),
        Instr::CheckKept(id, size) => {
            put_count(line, id as u64);
            put_count(line, u64::from(size));
        }
    }
}

/// The spelling of a kernel call.
fn kernel_spelling(name: KernelName) -> &'static [u8]
    ensures word { result.now ≡ (kernel_row name).spelling }
    ensures short { length result.now ≤ 20 }
{
    kernel_row(name).spelling
}

/// How many segments stand before the place, by halves: the last of them begins there or before, and the next one behind it.
fn split(segments: &[(usize, u32)], pc: usize) -> usize
    ensures { IsSplit segments.now pc result }
{
    let mut low = 0;
    let mut high = segments.len();
    while low < high {
        let middle = low + (high - low) / 2;
        if segments[middle].0 <= pc {
            low = middle + 1;
        } else {
            high = middle;
        }
    }
    low
}

/// The line of the last of so many segments, 0 where there is none.
fn line_before(segments: &[(usize, u32)], count: usize) -> u32
    ensures { result ≡ spec.line_before segments.now count }
{
    if count == 0 {
        return 0;
    }
    match segments.get(count - 1) {
        Some(segment) => segment.1,
        None => 0,
    }
}

/// An instruction with its operands.
fn put_instr(line: &mut Line, instr: Instr)
    requires { length line.old + 52 ≤ 200 }
    ensures { line.new ≡ line.old ++ spec.instr_text instr }
{
    line.put_text(word(instr));
    put_operands(line, instr);
}

/// The line of an instruction: `FUNCTION PC LINE INSTR`, where LINE is the line of the statement in whose segment it stands.
pub fn list(name: &Name, code: &Code, pc: usize) -> Line
    requires { pc < length code.now.instrs.items }
    ensures { IsListed name.now code.now.instrs.items code.now.segments.items pc result }
{
    let segments = code.segments.as_slice();
    let at = line_before(segments, split(segments, pc));
    let mut line = Line::new();
    line.put_text(name.bytes());
    put_count(&mut line, pc as u64);
    put_count(&mut line, u64::from(at));
    line.put_text(b" ");
    put_instr(&mut line, code.instrs[pc]);
    line
}
