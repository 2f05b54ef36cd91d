//! Texts, their tokens and their faults.

use pc_lexer::{Keyword, LexError, Mark, Token, TokenKind, TokenList, lex, tokens};
use pc_word::{MOST_SOURCE, MOST_TOKENS};
use std::alloc::Global;
use std::test::Fail;

/// How each mark is spelled.
static MARKS: [(&[u8], Mark); 43] = [
    (b"(", Mark::LeftParen),
    (b")", Mark::RightParen),
    (b"{", Mark::LeftBrace),
    (b"}", Mark::RightBrace),
    (b"[", Mark::LeftBracket),
    (b"]", Mark::RightBracket),
    (b";", Mark::Semicolon),
    (b",", Mark::Comma),
    (b"?", Mark::Question),
    (b":", Mark::Colon),
    (b"=", Mark::Assign),
    (b"+=", Mark::AddAssign),
    (b"-=", Mark::SubAssign),
    (b"*=", Mark::MulAssign),
    (b"/=", Mark::DivAssign),
    (b"%=", Mark::RemAssign),
    (b"<<=", Mark::ShiftLeftAssign),
    (b">>=", Mark::ShiftRightAssign),
    (b"&=", Mark::AndAssign),
    (b"^=", Mark::XorAssign),
    (b"|=", Mark::OrAssign),
    (b"++", Mark::PlusPlus),
    (b"--", Mark::MinusMinus),
    (b"||", Mark::OrOr),
    (b"&&", Mark::AndAnd),
    (b"|", Mark::Or),
    (b"^", Mark::Xor),
    (b"&", Mark::And),
    (b"==", Mark::EqualEqual),
    (b"!=", Mark::NotEqual),
    (b"<", Mark::Less),
    (b"<=", Mark::LessEqual),
    (b">", Mark::Greater),
    (b">=", Mark::GreaterEqual),
    (b"<<", Mark::ShiftLeft),
    (b">>", Mark::ShiftRight),
    (b"+", Mark::Plus),
    (b"-", Mark::Minus),
    (b"*", Mark::Star),
    (b"/", Mark::Slash),
    (b"%", Mark::Percent),
    (b"~", Mark::Tilde),
    (b"!", Mark::Not),
];

/// How each keyword is spelled.
static KEYWORDS: [(&[u8], Keyword); 47] = [
    (b"auto", Keyword::Auto),
    (b"break", Keyword::Break),
    (b"case", Keyword::Case),
    (b"char", Keyword::Char),
    (b"const", Keyword::Const),
    (b"continue", Keyword::Continue),
    (b"default", Keyword::Default),
    (b"do", Keyword::Do),
    (b"double", Keyword::Double),
    (b"else", Keyword::Else),
    (b"enum", Keyword::Enum),
    (b"extern", Keyword::Extern),
    (b"float", Keyword::Float),
    (b"for", Keyword::For),
    (b"goto", Keyword::Goto),
    (b"if", Keyword::If),
    (b"inline", Keyword::Inline),
    (b"int", Keyword::Int),
    (b"long", Keyword::Long),
    (b"register", Keyword::Register),
    (b"restrict", Keyword::Restrict),
    (b"return", Keyword::Return),
    (b"short", Keyword::Short),
    (b"signed", Keyword::Signed),
    (b"sizeof", Keyword::Sizeof),
    (b"static", Keyword::Static),
    (b"struct", Keyword::Struct),
    (b"switch", Keyword::Switch),
    (b"typedef", Keyword::Typedef),
    (b"union", Keyword::Union),
    (b"unsigned", Keyword::Unsigned),
    (b"void", Keyword::Void),
    (b"volatile", Keyword::Volatile),
    (b"while", Keyword::While),
    (b"_Alignas", Keyword::AlignAs),
    (b"_Alignof", Keyword::AlignOf),
    (b"_Atomic", Keyword::Atomic),
    (b"_Bool", Keyword::Bool),
    (b"_Complex", Keyword::Complex),
    (b"_Generic", Keyword::Generic),
    (b"_Imaginary", Keyword::Imaginary),
    (b"_Noreturn", Keyword::NoReturn),
    (b"_Static_assert", Keyword::StaticAssert),
    (b"_Thread_local", Keyword::ThreadLocal),
    (b"main", Keyword::Main),
    (b"print", Keyword::Print),
    (b"read", Keyword::Read),
];

/// The values of numbers (C17 6.4.4.1), where they have one.
static NUMBERS: [(&[u8], Option<i32>); 23] = [
    (b"0", Some(0)),
    (b"2147483647", Some(2147483647)),
    (b"2147483648", None),
    (b"99999999999999999999", None),
    (b"010", Some(8)),
    (b"00", Some(0)),
    (b"017777777777", Some(2147483647)),
    (b"020000000000", None),
    (b"08", None),
    (b"0x10", Some(16)),
    (b"0X1f", Some(31)),
    (b"0xAbC", Some(2748)),
    (b"0x7FFFFFFF", Some(2147483647)),
    (b"0x80000000", None),
    (b"0x", None),
    (b"0xG", None),
    (b"0xE+1", None),
    (b"0xep-1", None),
    (b"1e+5", None),
    (b"1P-", None),
    (b"1u", None),
    (b"1_000", None),
    (b"9a", None),
];

/// Texts, their tokens with blanks between them, and the lines of these.
static TEXTS: [(&[u8], &[u8], &[u32]); 4] = [
    (b"a+++b<<<=0x1+1", b"a ++ + b << <= 1 + 1", &[1; 9]),
    (
        b"#include <stdio.h>\n/* x */ int main(void){print(0x10);print(010);return 0;} // end",
        b"int main ( void ) { print ( 16 ) ; print ( 8 ) ; return 0 ; }",
        &[2; 20],
    ),
    (
        b"b /* \n\r\n*/ a\tb Int _Bool\x0b_bool//\n\x0ca /**/",
        b"b a b Int _Bool _bool a",
        &[1, 3, 3, 3, 3, 3, 4],
    ),
    (
        b"#include\n # \tinclude\"a\" /* $\n\r#include<b>\r#x\n#include/\nx\n#include",
        b"x",
        &[5],
    ),
];

/// The tokens of `b a\nb`.
static NAMES: [Token; 3] = [
    Token {
        kind: TokenKind::Name { symbol: 0 },
        line: 1,
    },
    Token {
        kind: TokenKind::Name { symbol: 1 },
        line: 1,
    },
    Token {
        kind: TokenKind::Name { symbol: 0 },
        line: 2,
    },
];

/// Texts without tokens, and their first faults.
static FAULTS: [(&[u8], LexError); 20] = [
    (b"int main(void){$}", LexError::BadByte { offset: 15 }),
    (b"@", LexError::BadByte { offset: 0 }),
    (b"a\x00", LexError::BadByte { offset: 1 }),
    (b"\xc3\xa9", LexError::BadByte { offset: 0 }),
    (b"'a'", LexError::BadByte { offset: 0 }),
    (b"a.b", LexError::BadByte { offset: 1 }),
    (b"1.5", LexError::BadByte { offset: 1 }),
    (b"#define a 1", LexError::BadByte { offset: 0 }),
    (b"#includes", LexError::BadByte { offset: 0 }),
    (b"#include_", LexError::BadByte { offset: 0 }),
    (b"#\ninclude", LexError::BadByte { offset: 0 }),
    (b"x #include", LexError::BadByte { offset: 2 }),
    (b"/* */ #include", LexError::BadByte { offset: 6 }),
    (b"/*\n*/#include", LexError::BadByte { offset: 5 }),
    (b"a\r#include", LexError::BadByte { offset: 2 }),
    (b"print(08);", LexError::BadLiteral { line: 1 }),
    (b"\n/*\n*/ 09", LexError::BadLiteral { line: 3 }),
    (b"/* x", LexError::OpenComment { line: 1 }),
    (b"\n\n a /*/\n", LexError::OpenComment { line: 3 }),
    (b"08 $ /*", LexError::BadLiteral { line: 1 }),
];

/// A text, and the names that it uses, each once, in the order of first use.
static NAMED: (&[u8], [&[u8]; 3]) = (
    b"int main(void){int sum = 0; int a[2]; /* b */ a[0] = sum; return print(sum + x1);}",
    [b"sum", b"a", b"x1"],
);

/// What stands after as many tokens as there may be, and the fault of the text then.
static ENDS: [(&[u8], Option<LexError>); 5] = [
    (b" \n/* a */ // b\n#include <c>\n\t", None),
    (b"// a\na", Some(LexError::TooManyTokens)),
    (b"08", Some(LexError::TooManyTokens)),
    (b"$ /* a", Some(LexError::TooManyTokens)),
    (b"\n/* a", Some(LexError::OpenComment { line: 2 })),
];

/// The tokens of a text. `Memory` stands for a text that is too long.
fn tokens_of(alloc: Global, text: &[u8]) -> Result<TokenList, LexError> {
    if text.len() > MOST_SOURCE {
        return Err(LexError::Memory);
    }
    tokens(alloc, text)
}

/// Whether a text is one token of this kind.
fn is_one(alloc: Global, text: &[u8], kind: TokenKind) -> bool {
    match tokens_of(alloc, text) {
        Ok(found) => found.as_slice() == [Token { kind, line: 1 }].as_slice(),
        Err(_) => false,
    }
}

/// The fault of a text, if it has one.
fn fault_of(alloc: Global, text: &[u8]) -> Option<LexError> {
    match tokens_of(alloc, text) {
        Ok(_) => None,
        Err(fault) => Some(fault),
    }
}

/// Whether tokens are of the same kinds as others, and stand in these lines.
fn are_alike(found: &[Token], other: &[Token], lines: &[u32]) -> bool {
    if found.len() != other.len() || found.len() != lines.len() {
        return false;
    }
    for ((token, same), line) in found.iter().zip(other.iter()).zip(lines.iter()) {
        if token.kind != same.kind || token.line != *line {
            return false;
        }
    }
    true
}

#[test]
fn single_tokens(rt: HostRuntime) {
    for (text, mark) in MARKS.iter() {
        assert!(rt; is_one(rt.alloc(), text, TokenKind::Mark { mark: *mark }));
    }
    for (text, key) in KEYWORDS.iter() {
        assert!(rt; is_one(rt.alloc(), text, TokenKind::Key { key: *key }));
    }
    for (text, value) in NUMBERS.iter() {
        let meets = match *value {
            Some(value) => is_one(rt.alloc(), text, TokenKind::Number { value }),
            None => fault_of(rt.alloc(), text) == Some(LexError::BadLiteral { line: 1 }),
        };
        assert!(rt; meets);
    }
}

#[test]
fn texts(rt: HostRuntime) -> Result<(), Fail> {
    for (text, spaced, lines) in TEXTS.iter() {
        let found = tokens_of(rt.alloc(), text)?;
        let other = tokens_of(rt.alloc(), spaced)?;
        assert!(rt; are_alike(found.as_slice(), other.as_slice(), lines));
    }
    let found = tokens_of(rt.alloc(), b"b a\nb")?;
    assert!(rt; found.as_slice() == NAMES.as_slice());
    Ok(())
}

/// Whether these are the names of a text.
fn has_names(alloc: Global, text: &[u8], names: &[&[u8]]) -> bool {
    if text.len() > MOST_SOURCE {
        return false;
    }
    match lex(alloc, text) {
        Ok(found) => found.names.as_slice() == names,
        Err(_) => false,
    }
}

#[test]
fn names(rt: HostRuntime) {
    let (text, names) = &NAMED;
    assert!(rt; has_names(rt.alloc(), text, names.as_slice()));
    assert!(rt; has_names(rt.alloc(), b"1 + 1", [].as_slice()));
}

#[test]
fn faults(rt: HostRuntime) -> Result<(), Fail> {
    for (text, fault) in FAULTS.iter() {
        assert!(rt; fault_of(rt.alloc(), text) == Some(*fault));
    }
    for (end, fault) in ENDS.iter() {
        let mut text = vec![in rt.alloc(); b';'; MOST_TOKENS]?;
        text.extend_from_slice(end)?;
        assert!(rt; fault_of(rt.alloc(), text.as_slice()) == *fault);
    }
    Ok(())
}
