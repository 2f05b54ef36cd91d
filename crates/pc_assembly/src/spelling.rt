//! The words and marks of a listing.

ghost use Rattle.std.specs.Prelude.{◌≡◌};
ghost use Rattle.pc_assembly.specs.Spelling.{word_spelling, mark_byte};

/// A word of a listing. `A` and `R` stand in front of the numbers of arrays and registers.
#[derive(Clone, Copy, Debug, PartialEq, Eq)]
pub enum Word {
    Limits,
    Of,
    A,
    Row,
    Items,
    Tests,
    Loads,
    And,
    Stores,
    Arrays,
    None,
    Registers,
    R,
    Yes,
    No,
    If,
    Goto,
    Stop,
    Trap,
    At,
    Line,
    Print,
    Read,
    More,
    Below,
    Divide,
    By,
    Zero,
    Out,
    Bounds,
    End,
    Input,
    Loop,
    Pipelined,
    Packed,
    Plain,
    Rows,
    Live,
    Bytes,
    Window,
}

/// A mark of a listing.
#[derive(Clone, Copy, Debug, PartialEq, Eq)]
pub enum Mark {
    Colon,
    Comma,
    Semicolon,
    Equals,
    OpenBracket,
    CloseBracket,
    OpenParenthesis,
    CloseParenthesis,
}

impl Word {
    /// How it is spelled.
    pub fn spelling(self) -> &'static [u8]
        ensures { result.now ≡ word_spelling self }
    {
        match self {
            Word::Limits => b"limits",
            Word::Of => b"of",
            Word::A => b"a",
            Word::Row => b"row",
            Word::Items => b"items",
            Word::Tests => b"tests",
            Word::Loads => b"loads",
            Word::And => b"and",
            Word::Stores => b"stores",
            Word::Arrays => b"arrays",
            Word::None => b"none",
            Word::Registers => b"registers",
            Word::R => b"r",
            Word::Yes => b"yes",
            Word::No => b"no",
            Word::If => b"if",
            Word::Goto => b"goto",
            Word::Stop => b"stop",
            Word::Trap => b"trap",
            Word::At => b"at",
            Word::Line => b"line",
            Word::Print => b"print",
            Word::Read => b"read",
            Word::More => b"more",
            Word::Below => b"below",
            Word::Divide => b"divide",
            Word::By => b"by",
            Word::Zero => b"zero",
            Word::Out => b"out",
            Word::Bounds => b"bounds",
            Word::End => b"end",
            Word::Input => b"input",
            Word::Loop => b"loop",
            Word::Pipelined => b"pipelined",
            Word::Packed => b"packed",
            Word::Plain => b"plain",
            Word::Rows => b"rows",
            Word::Live => b"live",
            Word::Bytes => b"bytes",
            Word::Window => b"window",
        }
    }
}

impl Mark {
    /// The byte that it is.
    pub fn byte(self) -> u8
        ensures { result ≡ mark_byte self }
    {
        match self {
            Mark::Colon => b':',
            Mark::Comma => b',',
            Mark::Semicolon => b';',
            Mark::Equals => b'=',
            Mark::OpenBracket => b'[',
            Mark::CloseBracket => b']',
            Mark::OpenParenthesis => b'(',
            Mark::CloseParenthesis => b')',
        }
    }
}
