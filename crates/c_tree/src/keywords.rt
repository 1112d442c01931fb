//! `Keyword`: the reserved words of the profile.
ghost use Rattle.std.specs.Prelude.{◌≡◌};
ghost use Rattle.c_tree.specs.Names.{spelled_keyword};

/// The reserved words: those of C99 (6.4.1) that the profile keeps, and its own.
///
/// The last nineteen are read by no rule of the base form. They are reserved so that no name can
/// be spelled as they are.
#[derive(Clone, Copy, PartialEq, Eq, Debug)]
pub enum Keyword {
    Int,
    Unsigned,
    Signed,
    Char,
    Short,
    Long,
    Void,
    Struct,
    Union,
    Static,
    If,
    Else,
    While,
    Return,
    Sizeof,
    Safe,
    Count,
    Bound,
    Sentinel,
    Nullterm,
    When,
    Zero,
    Kalloc,
    Kfree,
    For,
    Switch,
    Case,
    Default,
    Break,
    Do,
    Goto,
    Continue,
    Typedef,
    Enum,
    Const,
    Volatile,
    Extern,
    Inline,
    Float,
    Double,
    Register,
    Auto,
    Restrict,
}

impl Keyword {
    /// How it is spelled.
    pub fn spelling(self) -> &'static [u8]
        ensures { result.now ≡ spelled_keyword self }
    {
        match self {
            Keyword::Int => b"int",
            Keyword::Unsigned => b"unsigned",
            Keyword::Signed => b"signed",
            Keyword::Char => b"char",
            Keyword::Short => b"short",
            Keyword::Long => b"long",
            Keyword::Void => b"void",
            Keyword::Struct => b"struct",
            Keyword::Union => b"union",
            Keyword::Static => b"static",
            Keyword::If => b"if",
            Keyword::Else => b"else",
            Keyword::While => b"while",
            Keyword::Return => b"return",
            Keyword::Sizeof => b"sizeof",
            Keyword::Safe => b"safe",
            Keyword::Count => b"count",
            Keyword::Bound => b"bound",
            Keyword::Sentinel => b"sentinel",
            Keyword::Nullterm => b"nullterm",
            Keyword::When => b"when",
            Keyword::Zero => b"zero",
            Keyword::Kalloc => b"kalloc",
            Keyword::Kfree => b"kfree",
            Keyword::For => b"for",
            Keyword::Switch => b"switch",
            Keyword::Case => b"case",
            Keyword::Default => b"default",
            Keyword::Break => b"break",
            Keyword::Do => b"do",
            Keyword::Goto => b"goto",
            Keyword::Continue => b"continue",
            Keyword::Typedef => b"typedef",
            Keyword::Enum => b"enum",
            Keyword::Const => b"const",
            Keyword::Volatile => b"volatile",
            Keyword::Extern => b"extern",
            Keyword::Inline => b"inline",
            Keyword::Float => b"float",
            Keyword::Double => b"double",
            Keyword::Register => b"register",
            Keyword::Auto => b"auto",
            Keyword::Restrict => b"restrict",
        }
    }
}
