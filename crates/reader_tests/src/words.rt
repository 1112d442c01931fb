//! The words of texts: each form with its value and its line, what is none, each limit, and texts of a mebibyte.
use crate::printed::{put, write_after, write_character, write_number};
use crate::texts::{Frame, View, words_of, wrong_limits, wrong_rows};
use c_tree::{Keyword, Sign, Suffix, Token, Word};
use std::alloc::{AllocError, Global};
use std::fmt::Write;
use std::test::Fail;

fn write_keyword(out: &mut String, keyword: Keyword) {
    let _ = write!(out, "k{keyword:?}");
}

fn write_suffixed(out: &mut String, value: u32, suffix: Suffix) {
    let _ = write!(out, "d{value}{suffix:?}");
}

fn write_string(out: &mut String, bytes: &[u8], number: u32) {
    put(out, "s");
    write_number(out, number);
    for byte in bytes {
        put(out, ",");
        write_number(out, u32::from(*byte));
    }
}

fn write_sign(out: &mut String, sign: Sign) {
    let _ = write!(out, "{sign:?}");
}

/// A word in short: `n` a name, `k` a reserved word, `d` a number, `s` a string with its number; a character is its number between apostrophes.
fn write_word(out: &mut String, word: &Word) {
    match word {
        Word::Name(name) => write_after(out, "n", name),
        Word::Keyword(keyword) => write_keyword(out, *keyword),
        Word::Number(value, suffix) => write_suffixed(out, *value, *suffix),
        Word::Character(byte) => write_character(out, *byte),
        Word::String(bytes, number) => write_string(out, bytes.as_slice(), *number),
        Word::Sign(sign) => write_sign(out, *sign),
    }
}

/// Words, those of each line behind its number.
fn write_words(out: &mut String, words: &[Token]) {
    let mut line = 0;
    for token in words {
        if token.line != line {
            line = token.line;
            put(out, "\n");
            write_number(out, line);
        }
        put(out, " ");
        write_word(out, &token.word);
    }
}

/// How many words there are, and those of each line behind its number.
fn written(alloc: Global, words: &[Token]) -> Result<String, AllocError> {
    let mut out = format!(in alloc; "{} words", words.len())?;
    write_words(&mut out, words);
    Ok(out)
}

/// The words of a text in short, or its refusal.
pub fn read_words(alloc: Global, text: &str) -> Result<String, AllocError> {
    match words_of(alloc, text) {
        Ok(words) => written(alloc, words.as_slice()),
        Err(refusal) => format!(in alloc; "{refusal:?}"),
    }
}

/// How many words a text has, or its refusal.
pub fn count_words(alloc: Global, text: &str) -> Result<String, AllocError> {
    match words_of(alloc, text) {
        Ok(words) => format!(in alloc; "{} words", words.len()),
        Err(refusal) => format!(in alloc; "{refusal:?}"),
    }
}

/// Each form of word and of gap.
const WORDS: &str = "
 \t\x0c

int x_1
_;
integer In
auto restrict kfree
0 00 017 19 0x0 0XfF
2147483647 2147483648u 4294967295U
0xffffffff 037777777777 1l 1L 1ul 1LU
'a' '\"' '\\'' '\\\\' '\\n' '\\t' '\\r' '\\0' '\\\"'
\"\" \"a'b\" \"\\0a\\n\\\"\"
a<<=b<<c<=d
a---b->c
a+++++b
a/**/b /* * / 
 */c // d */ 
e
a/ *b
/*

*/
a
# 1 \"x\" /*
a
  # \tpragma @
/* */ #9@
/* 
 */ #pragmatic
b
/*
# 1
*/ b
//
//
{}()[];,.->=+-*/%
& | ^ ~ ! < > <= >= == != << >> && || ++ --
+= -= *= /= %= &= |= ^= <<= >>= ? :
/* é \x00 */ a";

const WORDS_READ: &str = "112 words
4 kInt nx_1
5 n_ Semicolon
6 ninteger nIn
7 kAuto kRestrict kKfree
8 d0Plain d0Plain d15Plain d19Plain d0Plain d255Plain
9 d2147483647Plain d2147483648Unsigned d4294967295Unsigned
10 d4294967295Plain d4294967295Plain d1Long d1Long d1UnsignedLong d1UnsignedLong
11 '97' '34' '39' '92' '10' '9' '13' '0' '34'
12 s0 s1,97,39,98 s2,0,97,10,34
13 na ShiftLeftAssign nb ShiftLeft nc LessEqual nd
14 na Decrement Minus nb Arrow nc
15 na Increment Increment Plus nb
16 na nb
17 nc
18 ne
19 na Slash Star nb
23 na
25 na
30 nb
33 nb
36 BraceOpen BraceClose ParenOpen ParenClose BracketOpen BracketClose Semicolon Comma Dot Arrow Assign Plus Minus Star Slash Percent
37 Ampersand Bar Caret Tilde Exclamation Less Greater LessEqual GreaterEqual Equal NotEqual ShiftLeft ShiftRight Ampersands Bars Increment Decrement
38 PlusAssign MinusAssign StarAssign SlashAssign PercentAssign AmpersandAssign BarAssign CaretAssign ShiftLeftAssign ShiftRightAssign Question Colon
39 na";

#[test]
fn words_have_their_values_and_lines(rt: HostRuntime) -> Result<(), Fail> {
    assert_eq!(rt; read_words(rt.alloc(), WORDS)?.as_str(), WORDS_READ);
    Ok(())
}

/// What is no word.
const NO_WORDS: &str = "0x
0x1g
08
1a 2_
1uu 1lul
1ll
2147483648
2147483648l
4294967296u
0x100000000
99999999999999999999999999999999u
''
'ab'
'\\00'
'\\a'
'\t'
'a
'
\"\\08\"
\"a
\"a\\\"
\"
/* b
/*/
x # 1
#define A
@
\\
\x00
\x0b
é";

/// They stand on the second line of three.
const SECOND_LINE: Frame<'static> = Frame {
    view: View::Words,
    before: "a\n",
    after: "\n",
    wanted: "NotAWord(2)",
};

#[test]
fn what_is_no_word_is_refused_on_its_line(rt: HostRuntime) -> Result<(), Fail> {
    assert_eq!(rt;
        wrong_rows(rt.alloc(), &SECOND_LINE, NO_WORDS)?.as_str(),
        ""
    );
    Ok(())
}

/// Texts as a piece, how often it stands there and what stands behind it, and how many words such a text has or its refusal. The last are of a mebibyte.
const LIMITS: &str = "\
a;|100000|||200000 words
a;|100000|;||Limit(1, Words)
a |999|;a||1001 words
a |1000|;||Limit(1, Run)
a |1000|@||NotAWord(1)
(|64|)[||66 words
(|65|@||Limit(1, Nesting)
})|70|{||141 words
*&|8|a - - --- -||22 words
*&|8|-||Limit(1, Unary)
- |16|-- - a||19 words
a|63|||1 words
a|64|||Limit(1, Name)
+ a |500|b||Limit(1, Run)
 |1048576|||0 words
 |1048577|||0 words
/|1048576|||0 words
a b |262144|||Limit(1, Run)
\"|1048576|||Limit(1, Run)
\"\\|524288|||NotAWord(1)
*|1048576|||Limit(1, Unary)
9|1048576|||NotAWord(1)
a|1048576|||Limit(1, Name)
/* |349525|||NotAWord(1)
#1|524288|||0 words";

#[test]
fn limits_are_passed_one_past_their_values(rt: HostRuntime) -> Result<(), Fail> {
    assert_eq!(rt; wrong_limits(rt.alloc(), View::Count, LIMITS)?, "");
    Ok(())
}
