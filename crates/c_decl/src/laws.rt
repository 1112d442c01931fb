//! What holds of the grammar of statements, items and whole texts, whatever is read.
ghost use Rattle.std.specs.Prelude.{◌≡◌, ℕ, ◌⊎◌, List, [], ◌++◌};
ghost use Rattle.c_tree.specs.declared.items.Item.{Item};
ghost use Rattle.c_tree.specs.declared.items.Unit.{Unit as TextUnit};
ghost use Rattle.c_tree.specs.declared.keywords.Keyword.TheVariants as keyword;
ghost use Rattle.c_tree.specs.declared.statements.Body.{Body};
ghost use Rattle.c_tree.specs.declared.statements.Stmt.{Stmt};
ghost use Rattle.c_tree.specs.declared.words.Token.{Token};
ghost use Rattle.c_tree.specs.declared.words.Word.TheVariants as word;
ghost use Rattle.c_tree.specs.Bytes.{Text};
ghost use Rattle.c_tree.specs.ItemGrammar.{ItemAt};
ghost use Rattle.c_tree.specs.StatementGrammar.{BodyAt, StmtAt};
ghost use Rattle.c_tree.specs.Units.{IsUnit, HasNoItem, Reads};
ghost use Rattle.c_expr.specs.Looking.{Lacks};

/// Two bodies that begin at one place are one and end at one place, and so are two statements behind which no `else` stands.
pub fn one_statement()
    ensures bodies { (w v u : List Token) (x y : Body) → BodyAt w v x → BodyAt w u y → (x ≡ y) × (v ≡ u) }
    ensures statements { (w v u : List Token) (x y : Stmt) → StmtAt w v x → StmtAt w u y → Lacks v (word.Keyword keyword.Else) → Lacks u (word.Keyword keyword.Else) → (x ≡ y) × (v ≡ u) }
{}

/// Two items that begin at one place are one and end at one place. Words that are an item begin with it whatever stands
/// after them. So no item is a proper prefix of another.
pub fn one_item()
    ensures places { (w v u : List Token) (x y : Item) → ItemAt w v x → ItemAt w u y → (x ≡ y) × (v ≡ u) }
    ensures stands { (s r : List Token) (x : Item) → ItemAt s [] x → ItemAt (s ++ r) r x }
    ensures prefix { (s r : List Token) (x y : Item) → ItemAt s [] x → ItemAt (s ++ r) [] y → r ≡ [] }
{}

/// Words, all of them, are a unit, or behind some items there is a place at which no item begins.
pub fn some_unit()
    ensures { (w : List Token) → ((x : TextUnit) × IsUnit w x) ⊎ ((line : ℕ) × HasNoItem w line) }
{}

/// A text is at most one unit, and so is a list of words. A place at which no item begins stands on one line at most, and not where the words are a unit.
pub fn one_unit()
    ensures texts { (text : Text) (x y : TextUnit) → Reads text x → Reads text y → x ≡ y }
    ensures units { (w : List Token) (x y : TextUnit) → IsUnit w x → IsUnit w y → x ≡ y }
    ensures lines { (w : List Token) (line other : ℕ) → HasNoItem w line → HasNoItem w other → line ≡ other }
    ensures apart { (w : List Token) (x : TextUnit) (line : ℕ) → IsUnit w x → HasNoItem w line → ⊥ }
{}
