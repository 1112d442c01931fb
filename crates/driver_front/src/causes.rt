//! `Cause`: why a driver text is refused.
ghost use Rattle.std.specs.Prelude.{◌≡◌, ◌≤◌, length};
ghost use Rattle.driver_front.specs.Reasons.{spelling_of};

/// Why a driver text is refused, as it is printed.
#[derive(Clone, Copy, PartialEq, Eq, Debug)]
pub enum Cause {
    /// At some byte no word begins.
    Word,
    /// The words go on with no item.
    Item,
    /// A declaration stands against the rules of declarations.
    Type,
    /// No rule derives a head, a parameter, a local or a statement.
    Rule,
    /// A limit is passed.
    Limit,
}

impl Cause {
    /// The cause as one word.
    pub fn spelling(self) -> &'static [u8]
        ensures word { result.now ≡ spelling_of self }
        ensures short { length result.now ≤ 63 }
    {
        match self {
            Cause::Word => b"word",
            Cause::Item => b"item",
            Cause::Type => b"type",
            Cause::Rule => b"rule",
            Cause::Limit => b"limit",
        }
    }
}
