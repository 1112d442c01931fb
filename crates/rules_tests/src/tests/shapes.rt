//! Layouts as text: the types of elements, structs with their members, and the load image.
use super::forms::{put, write_scalar};
use checked_tree::{Bounds, Edge, ImageBlock, Member, Shape, StructShape};
use deputy_types::TypeTable;
use std::fmt::Write;

/// A number with its sign.
fn write_signed(out: &mut String, number: i64) {
    if number >= 0 {
        put(out, "+");
    }
    let _ = write!(out, "{number}");
}

/// A side of bounds: where it begins, its siblings times their numbers, and its bytes. Siblings are written by number.
fn write_edge(out: &mut String, edge: &Edge) {
    match edge.base {
        Some(sibling) => {
            let _ = write!(out, "m{sibling}");
        }
        None => put(out, "v"),
    }
    for (times, sibling) in edge.terms.as_slice() {
        write_signed(out, *times);
        let _ = write!(out, "*m{sibling}");
    }
    if edge.bytes != 0 {
        write_signed(out, edge.bytes);
    }
}

/// A shape: a pointer by the number of its element and its bounds.
pub fn write_shape(out: &mut String, shape: &Shape) {
    match shape {
        Shape::Int(scalar) => write_scalar(out, *scalar),
        Shape::Pointer { elem, bounds } => {
            let _ = write!(out, "e{elem}*");
            match bounds {
                Bounds::Hidden => put(out, " hidden"),
                Bounds::Nullterm => put(out, " nullterm"),
                Bounds::Within { lo, hi } => {
                    put(out, "[");
                    write_edge(out, lo);
                    put(out, ", ");
                    write_edge(out, hi);
                    put(out, ")");
                }
            }
        }
        Shape::Struct(number) => {
            let _ = write!(out, "struct {number}");
        }
        Shape::Address => put(out, "address"),
    }
}

fn write_member(out: &mut String, member: &Member) {
    let _ = write!(out, "{} ", member.offset);
    write_shape(out, &member.shape);
    if member.count != 1 {
        let _ = write!(out, "[{}]", member.count);
    }
    if let Some((part, value)) = member.arm {
        let _ = write!(out, " in u{part} when {value}");
    }
}

/// A struct: its size, its members with their offsets, and its unions.
fn write_struct(out: &mut String, shape: &StructShape) {
    let _ = write!(out, "struct {}:", shape.size);
    for member in shape.members.as_slice() {
        put(out, " ");
        write_member(out, member);
        put(out, ";");
    }
    for part in shape.unions.as_slice() {
        let _ = write!(
            out,
            " union {} of {} by m{};",
            part.offset, part.size, part.tag
        );
    }
}

/// A block of the image: its base, its elements, and its bytes up to the last that is not 0.
fn write_block(out: &mut String, block: &ImageBlock) {
    let _ = write!(
        out,
        "block {}: e{}*{} of {}",
        block.base, block.elem, block.count, block.size
    );
    if block.nullterm {
        put(out, " nullterm");
    }
    let mut zeros = 0usize;
    for byte in block.bytes.as_slice() {
        if *byte == 0 {
            zeros = zeros.saturating_add(1);
        } else {
            if zeros > 0 {
                let _ = write!(out, " {zeros} zeros");
            }
            zeros = 0;
            let _ = write!(out, " {byte}");
        }
    }
    if zeros > 0 {
        let _ = write!(out, " {zeros} zeros");
    }
}

/// A table, each element, struct and block on a line of its own with two spaces before it.
pub fn write_table(out: &mut String, table: &TypeTable) {
    let mut number = 0usize;
    for shape in table.elems() {
        let _ = write!(out, "  e{number}: ");
        write_shape(out, shape);
        put(out, "\n");
        number = number.saturating_add(1);
    }
    for shape in table.structs() {
        put(out, "  ");
        write_struct(out, shape);
        put(out, "\n");
    }
    for block in table.image() {
        put(out, "  ");
        write_block(out, block);
        put(out, "\n");
    }
}

/// The structs of a table, each on a line of its own: its bytes, the offsets of its members, and the offset and the bytes of each union.
pub fn write_offsets(out: &mut String, structs: &[StructShape]) {
    for shape in structs {
        let _ = write!(out, "  {}:", shape.size);
        for member in shape.members.as_slice() {
            let _ = write!(out, " {}", member.offset);
        }
        for part in shape.unions.as_slice() {
            let _ = write!(out, "; {} of {}", part.offset, part.size);
        }
        put(out, "\n");
    }
}
