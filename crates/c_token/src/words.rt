//! The word that a lexeme stands for.
ghost use Rattle.std.specs.Prelude.{◌≡◌, ◌≤◌, IfOk};
ghost use Rattle.c_tree.specs.Limits.{name_length};
ghost use Rattle.c_token.specs.Lexemes.{word_of};

use crate::lexemes::{Kind, Lexeme};
use crate::quotes::meaning;
use c_tree::Word;
use sd_base::Name;
use std::alloc::{AllocError, Global};

/// The word that a lexeme stands for, behind so many strings.
pub fn word(alloc: Global, lexeme: &Lexeme, strings: u32) -> Result<Word, AllocError>
    requires { name_length (word_of strings lexeme.now.kind lexeme.now.spelling.now) ≤ 63 }
    ensures { IfOk result (λ word. word ≡ word_of strings lexeme.now.kind lexeme.now.spelling.now) }
{
    match lexeme.kind {
        Kind::Name => Ok(Word::Name(Name::new(lexeme.spelling))),
        Kind::Keyword(keyword) => Ok(Word::Keyword(keyword)),
        Kind::Number(value, suffix) => Ok(Word::Number(value, suffix)),
        Kind::Character(byte) => Ok(Word::Character(byte)),
        Kind::String => {
            let bytes = meaning(alloc, lexeme.spelling)?;
            Ok(Word::String(bytes, strings))
        }
        Kind::Sign(sign) => Ok(Word::Sign(sign)),
    }
}
