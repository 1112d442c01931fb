//! `Signature`: what a call sees of a function.
use checked_tree::Shape;
use sd_base::Name;
use sqlite_items::Items;

/// The result of a function.
#[derive(Debug, Drop)]
pub enum Returned {
    /// `void`.
    Nothing,
    /// An integer, or a pointer with a constant annotation.
    Value(Shape),
}

/// What a call sees of a function with a body.
#[derive(Debug, Drop)]
pub struct Signature {
    pub name: Name,
    /// The shapes of its parameters, by place. Where one of them does not stand (its name is that of an earlier one, or no rule derives its type), all are none.
    pub params: Items<Option<Shape>>,
    /// Its result; none where no rule derives the type.
    pub result: Option<Returned>,
}
