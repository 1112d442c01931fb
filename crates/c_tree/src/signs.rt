//! `Sign`: the punctuators of the profile.
ghost use Rattle.std.specs.Prelude.{◌≡◌};
ghost use Rattle.c_tree.specs.Signs.{spelled_sign};

/// The signs, C99's punctuators (6.4.6) without `#`, `##`, `...` and the digraphs.
#[derive(Clone, Copy, PartialEq, Eq, Debug)]
pub enum Sign {
    /// `{`
    BraceOpen,
    /// `}`
    BraceClose,
    /// `(`
    ParenOpen,
    /// `)`
    ParenClose,
    /// `[`
    BracketOpen,
    /// `]`
    BracketClose,
    /// `;`
    Semicolon,
    /// `,`
    Comma,
    /// `.`
    Dot,
    /// `->`
    Arrow,
    /// `=`
    Assign,
    /// `+`
    Plus,
    /// `-`
    Minus,
    /// `*`
    Star,
    /// `/`
    Slash,
    /// `%`
    Percent,
    /// `&`
    Ampersand,
    /// `|`
    Bar,
    /// `^`
    Caret,
    /// `~`
    Tilde,
    /// `!`
    Exclamation,
    /// `<`
    Less,
    /// `>`
    Greater,
    /// `<=`
    LessEqual,
    /// `>=`
    GreaterEqual,
    /// `==`
    Equal,
    /// `!=`
    NotEqual,
    /// `<<`
    ShiftLeft,
    /// `>>`
    ShiftRight,
    /// `&&`
    Ampersands,
    /// `||`
    Bars,
    /// `++`
    Increment,
    /// `--`
    Decrement,
    /// `+=`
    PlusAssign,
    /// `-=`
    MinusAssign,
    /// `*=`
    StarAssign,
    /// `/=`
    SlashAssign,
    /// `%=`
    PercentAssign,
    /// `&=`
    AmpersandAssign,
    /// `|=`
    BarAssign,
    /// `^=`
    CaretAssign,
    /// `<<=`
    ShiftLeftAssign,
    /// `>>=`
    ShiftRightAssign,
    /// `?`
    Question,
    /// `:`
    Colon,
}

impl Sign {
    /// How it is spelled.
    pub fn spelling(self) -> &'static [u8]
        ensures { result.now ≡ spelled_sign self }
    {
        match self {
            Sign::BraceOpen => b"{",
            Sign::BraceClose => b"}",
            Sign::ParenOpen => b"(",
            Sign::ParenClose => b")",
            Sign::BracketOpen => b"[",
            Sign::BracketClose => b"]",
            Sign::Semicolon => b";",
            Sign::Comma => b",",
            Sign::Dot => b".",
            Sign::Arrow => b"->",
            Sign::Assign => b"=",
            Sign::Plus => b"+",
            Sign::Minus => b"-",
            Sign::Star => b"*",
            Sign::Slash => b"/",
            Sign::Percent => b"%",
            Sign::Ampersand => b"&",
            Sign::Bar => b"|",
            Sign::Caret => b"^",
            Sign::Tilde => b"~",
            Sign::Exclamation => b"!",
            Sign::Less => b"<",
            Sign::Greater => b">",
            Sign::LessEqual => b"<=",
            Sign::GreaterEqual => b">=",
            Sign::Equal => b"==",
            Sign::NotEqual => b"!=",
            Sign::ShiftLeft => b"<<",
            Sign::ShiftRight => b">>",
            Sign::Ampersands => b"&&",
            Sign::Bars => b"||",
            Sign::Increment => b"++",
            Sign::Decrement => b"--",
            Sign::PlusAssign => b"+=",
            Sign::MinusAssign => b"-=",
            Sign::StarAssign => b"*=",
            Sign::SlashAssign => b"/=",
            Sign::PercentAssign => b"%=",
            Sign::AmpersandAssign => b"&=",
            Sign::BarAssign => b"|=",
            Sign::CaretAssign => b"^=",
            Sign::ShiftLeftAssign => b"<<=",
            Sign::ShiftRightAssign => b">>=",
            Sign::Question => b"?",
            Sign::Colon => b":",
        }
    }
}
