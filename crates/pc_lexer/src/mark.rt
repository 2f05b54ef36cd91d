ghost use Rattle.std.specs.Prelude.{◌≡◌, nat_eq};
ghost use Rattle.std.specs.List.{find, starts_with};
ghost use Rattle.pc_lexer.specs.Spelling.{mark_spelling, mark_at};

/// The punctuators of C17 6.4.6 that the language has.
#[derive(Clone, Copy, Debug, PartialEq, Eq)]
pub enum Mark {
    /// `<<=`
    ShiftLeftAssign,
    /// `>>=`
    ShiftRightAssign,
    /// `+=`
    AddAssign,
    /// `-=`
    SubAssign,
    /// `*=`
    MulAssign,
    /// `/=`
    DivAssign,
    /// `%=`
    RemAssign,
    /// `&=`
    AndAssign,
    /// `^=`
    XorAssign,
    /// `|=`
    OrAssign,
    /// `++`
    PlusPlus,
    /// `--`
    MinusMinus,
    /// `||`
    OrOr,
    /// `&&`
    AndAnd,
    /// `==`
    EqualEqual,
    /// `!=`
    NotEqual,
    /// `<=`
    LessEqual,
    /// `>=`
    GreaterEqual,
    /// `<<`
    ShiftLeft,
    /// `>>`
    ShiftRight,
    /// `(`
    LeftParen,
    /// `)`
    RightParen,
    /// `{`
    LeftBrace,
    /// `}`
    RightBrace,
    /// `[`
    LeftBracket,
    /// `]`
    RightBracket,
    /// `;`
    Semicolon,
    /// `,`
    Comma,
    /// `?`
    Question,
    /// `:`
    Colon,
    /// `=`
    Assign,
    /// `|`
    Or,
    /// `^`
    Xor,
    /// `&`
    And,
    /// `<`
    Less,
    /// `>`
    Greater,
    /// `+`
    Plus,
    /// `-`
    Minus,
    /// `*`
    Star,
    /// `/`
    Slash,
    /// `%`
    Percent,
    /// `~`
    Tilde,
    /// `!`
    Not,
}

impl Mark {
    /// Each mark once, longer ones before shorter ones.
    pub const ALL: [Mark; 43] = [
        Mark::ShiftLeftAssign,
        Mark::ShiftRightAssign,
        Mark::AddAssign,
        Mark::SubAssign,
        Mark::MulAssign,
        Mark::DivAssign,
        Mark::RemAssign,
        Mark::AndAssign,
        Mark::XorAssign,
        Mark::OrAssign,
        Mark::PlusPlus,
        Mark::MinusMinus,
        Mark::OrOr,
        Mark::AndAnd,
        Mark::EqualEqual,
        Mark::NotEqual,
        Mark::LessEqual,
        Mark::GreaterEqual,
        Mark::ShiftLeft,
        Mark::ShiftRight,
        Mark::LeftParen,
        Mark::RightParen,
        Mark::LeftBrace,
        Mark::RightBrace,
        Mark::LeftBracket,
        Mark::RightBracket,
        Mark::Semicolon,
        Mark::Comma,
        Mark::Question,
        Mark::Colon,
        Mark::Assign,
        Mark::Or,
        Mark::Xor,
        Mark::And,
        Mark::Less,
        Mark::Greater,
        Mark::Plus,
        Mark::Minus,
        Mark::Star,
        Mark::Slash,
        Mark::Percent,
        Mark::Tilde,
        Mark::Not,
    ];

    /// How it is spelled.
    pub fn spelling(self) -> &'static [u8]
        ensures { result.now ≡ mark_spelling self }
    {
        match self {
            Mark::ShiftLeftAssign => b"<<=",
            Mark::ShiftRightAssign => b">>=",
            Mark::AddAssign => b"+=",
            Mark::SubAssign => b"-=",
            Mark::MulAssign => b"*=",
            Mark::DivAssign => b"/=",
            Mark::RemAssign => b"%=",
            Mark::AndAssign => b"&=",
            Mark::XorAssign => b"^=",
            Mark::OrAssign => b"|=",
            Mark::PlusPlus => b"++",
            Mark::MinusMinus => b"--",
            Mark::OrOr => b"||",
            Mark::AndAnd => b"&&",
            Mark::EqualEqual => b"==",
            Mark::NotEqual => b"!=",
            Mark::LessEqual => b"<=",
            Mark::GreaterEqual => b">=",
            Mark::ShiftLeft => b"<<",
            Mark::ShiftRight => b">>",
            Mark::LeftParen => b"(",
            Mark::RightParen => b")",
            Mark::LeftBrace => b"{",
            Mark::RightBrace => b"}",
            Mark::LeftBracket => b"[",
            Mark::RightBracket => b"]",
            Mark::Semicolon => b";",
            Mark::Comma => b",",
            Mark::Question => b"?",
            Mark::Colon => b":",
            Mark::Assign => b"=",
            Mark::Or => b"|",
            Mark::Xor => b"^",
            Mark::And => b"&",
            Mark::Less => b"<",
            Mark::Greater => b">",
            Mark::Plus => b"+",
            Mark::Minus => b"-",
            Mark::Star => b"*",
            Mark::Slash => b"/",
            Mark::Percent => b"%",
            Mark::Tilde => b"~",
            Mark::Not => b"!",
        }
    }
}

/// The first of these marks that the text begins with.
fn first_at(marks: &[Mark], text: &[u8]) -> Option<Mark>
    ensures { result ≡ find (λ mark. starts_with nat_eq text.now (mark_spelling mark)) marks.now }
{
    for mark in marks {
        if text.starts_with(mark.spelling()) {
            return Some(*mark);
        }
    }
    None
}

/// The longest mark that the text begins with.
#[tactic(auto, unfolding(crate::specs::Spelling::mark_at))]
pub(crate) fn mark_at(text: &[u8]) -> Option<Mark>
    ensures { result ≡ mark_at text.now }
{
    first_at(&Mark::ALL, text)
}
