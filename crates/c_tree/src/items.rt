//! A driver text as a tree: the items of a unit (C99, 6.7 and 6.9), each with the line of its first word.

use crate::{Base, Number, Star, Stmt, TypeName};
use sd_base::Name;
use sqlite_items::Items;

/// A constant.
#[derive(Clone, Copy, PartialEq, Eq, Debug)]
pub enum Const {
    Number(Number),
    /// `-` and a number.
    Negative(Number),
    /// A character constant by its byte.
    Character(u8),
}

/// A declared object: its type, its name, and the number of its elements where it is an array.
#[derive(Drop)]
pub struct Declaration {
    pub type_name: TypeName,
    pub name: Name,
    pub size: Option<Number>,
}

/// An arm of a union: `T a when (t == c);`.
#[derive(Drop)]
pub struct Arm {
    /// The line of its first word.
    pub line: u32,
    pub type_name: TypeName,
    pub name: Name,
    /// The field whose value says whether the arm is there.
    pub tag: Name,
    /// The value that it has then.
    pub value: Const,
}

/// A field of a struct.
#[derive(Drop)]
pub enum Field {
    /// Its line, and what it declares.
    Plain(u32, Declaration),
    /// A union: its line, its arms and its name.
    Union(u32, Items<Arm>, Name),
}

/// `struct s { .. };`
#[derive(Drop)]
pub struct StructItem {
    /// The line of its first word.
    pub line: u32,
    pub name: Name,
    pub fields: Items<Field>,
}

/// A global object.
#[derive(Drop)]
pub struct GlobalItem {
    /// The line of its first word.
    pub line: u32,
    /// Whether `static` stands before it. It has no meaning.
    pub is_static: bool,
    pub declaration: Declaration,
    pub value: Option<Const>,
}

/// What a function's result begins with.
#[derive(Drop)]
pub enum ResultBase {
    Void,
    Base(Base),
}

/// A parameter.
#[derive(Drop)]
pub struct Param {
    /// The line of its first word.
    pub line: u32,
    pub type_name: TypeName,
    pub name: Name,
}

/// What stands before a function's body: its result, its name and its parameters.
#[derive(Drop)]
pub struct Head {
    /// The line of its first word.
    pub line: u32,
    /// Whether `static` stands before it. It has no meaning.
    pub is_static: bool,
    pub result: ResultBase,
    pub stars: Items<Star>,
    pub name: Name,
    /// Whether `void` stands in the parentheses in place of parameters.
    pub written_void: bool,
    pub params: Items<Param>,
}

/// A local of a function.
#[derive(Drop)]
pub struct Local {
    /// The line of its first word.
    pub line: u32,
    pub type_name: TypeName,
    pub name: Name,
}

/// A function with its body. The body ends with the `return` that the reader adds.
#[derive(Drop)]
pub struct Function {
    pub head: Head,
    pub locals: Items<Local>,
    pub body: Items<Stmt>,
    /// The line of the closing brace.
    pub end: u32,
}

/// An item of a text.
#[derive(Drop)]
pub enum Item {
    Struct(StructItem),
    Global(GlobalItem),
    Function(Function),
    /// A head without a body.
    Prototype(Head),
}

/// A driver text.
#[derive(Drop)]
pub struct Unit {
    pub items: Items<Item>,
}
