//! `LimitKind`: which limit of the profile a text passes.

/// The limits that a driver text is refused by.
///
/// Where one word passes several limits at once, the refusal names the one that stands first here.
#[derive(Clone, Copy, PartialEq, Eq, Debug)]
pub enum LimitKind {
    /// More than 200,000 words.
    Words,
    /// More than 1,000 words since the last `;`, `{` or `}`.
    Run,
    /// More than 64 open brackets.
    Nesting,
    /// More than 16 words in a row out of `- ~ ! + * &`.
    Unary,
    /// A name of more than 63 bytes.
    Name,
    /// Too many structs in one text.
    Structs,
    /// Too many fields in one struct.
    Fields,
    /// Too many functions in one text.
    Functions,
    /// Too many globals in one text.
    Globals,
    /// A struct or an array of too many bytes.
    Size,
    /// A load image of too many bytes.
    Image,
    /// Too many locals in one function.
    Locals,
}
