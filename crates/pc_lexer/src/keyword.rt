ghost use Rattle.std.specs.Prelude.{◌≡◌, bytes_eq};
ghost use Rattle.std.specs.List.{find};
ghost use Rattle.pc_lexer.specs.Spelling.{keyword_spelling, keyword_of};

/// The words that are no names: the 44 keywords of C17 6.4.1, most of which no rule of the grammar
/// uses, and `main`, `print` and `read`.
#[derive(Clone, Copy, Debug, PartialEq, Eq)]
pub enum Keyword {
    Auto,
    Break,
    Case,
    Char,
    Const,
    Continue,
    Default,
    Do,
    Double,
    Else,
    Enum,
    Extern,
    Float,
    For,
    Goto,
    If,
    Inline,
    Int,
    Long,
    Register,
    Restrict,
    Return,
    Short,
    Signed,
    Sizeof,
    Static,
    Struct,
    Switch,
    Typedef,
    Union,
    Unsigned,
    Void,
    Volatile,
    While,
    AlignAs,
    AlignOf,
    Atomic,
    Bool,
    Complex,
    Generic,
    Imaginary,
    NoReturn,
    StaticAssert,
    ThreadLocal,
    Main,
    Print,
    Read,
}

impl Keyword {
    /// Each keyword once.
    pub const ALL: [Keyword; 47] = [
        Keyword::Auto,
        Keyword::Break,
        Keyword::Case,
        Keyword::Char,
        Keyword::Const,
        Keyword::Continue,
        Keyword::Default,
        Keyword::Do,
        Keyword::Double,
        Keyword::Else,
        Keyword::Enum,
        Keyword::Extern,
        Keyword::Float,
        Keyword::For,
        Keyword::Goto,
        Keyword::If,
        Keyword::Inline,
        Keyword::Int,
        Keyword::Long,
        Keyword::Register,
        Keyword::Restrict,
        Keyword::Return,
        Keyword::Short,
        Keyword::Signed,
        Keyword::Sizeof,
        Keyword::Static,
        Keyword::Struct,
        Keyword::Switch,
        Keyword::Typedef,
        Keyword::Union,
        Keyword::Unsigned,
        Keyword::Void,
        Keyword::Volatile,
        Keyword::While,
        Keyword::AlignAs,
        Keyword::AlignOf,
        Keyword::Atomic,
        Keyword::Bool,
        Keyword::Complex,
        Keyword::Generic,
        Keyword::Imaginary,
        Keyword::NoReturn,
        Keyword::StaticAssert,
        Keyword::ThreadLocal,
        Keyword::Main,
        Keyword::Print,
        Keyword::Read,
    ];

    /// How it is spelled.
    pub fn spelling(self) -> &'static [u8]
        ensures { result.now ≡ keyword_spelling self }
    {
        match self {
            Keyword::Auto => b"auto",
            Keyword::Break => b"break",
            Keyword::Case => b"case",
            Keyword::Char => b"char",
            Keyword::Const => b"const",
            Keyword::Continue => b"continue",
            Keyword::Default => b"default",
            Keyword::Do => b"do",
            Keyword::Double => b"double",
            Keyword::Else => b"else",
            Keyword::Enum => b"enum",
            Keyword::Extern => b"extern",
            Keyword::Float => b"float",
            Keyword::For => b"for",
            Keyword::Goto => b"goto",
            Keyword::If => b"if",
            Keyword::Inline => b"inline",
            Keyword::Int => b"int",
            Keyword::Long => b"long",
            Keyword::Register => b"register",
            Keyword::Restrict => b"restrict",
            Keyword::Return => b"return",
            Keyword::Short => b"short",
            Keyword::Signed => b"signed",
            Keyword::Sizeof => b"sizeof",
            Keyword::Static => b"static",
            Keyword::Struct => b"struct",
            Keyword::Switch => b"switch",
            Keyword::Typedef => b"typedef",
            Keyword::Union => b"union",
            Keyword::Unsigned => b"unsigned",
            Keyword::Void => b"void",
            Keyword::Volatile => b"volatile",
            Keyword::While => b"while",
            Keyword::AlignAs => b"_Alignas",
            Keyword::AlignOf => b"_Alignof",
            Keyword::Atomic => b"_Atomic",
            Keyword::Bool => b"_Bool",
            Keyword::Complex => b"_Complex",
            Keyword::Generic => b"_Generic",
            Keyword::Imaginary => b"_Imaginary",
            Keyword::NoReturn => b"_Noreturn",
            Keyword::StaticAssert => b"_Static_assert",
            Keyword::ThreadLocal => b"_Thread_local",
            Keyword::Main => b"main",
            Keyword::Print => b"print",
            Keyword::Read => b"read",
        }
    }
}

/// The first of these keywords that the word spells.
fn first_spelled(keys: &[Keyword], word: &[u8]) -> Option<Keyword>
    ensures { result ≡ find (λ key. bytes_eq (keyword_spelling key) word.now) keys.now }
{
    for key in keys {
        if key.spelling() == word {
            return Some(*key);
        }
    }
    None
}

/// The keyword that a word spells, if it spells one.
#[tactic(auto, unfolding(crate::specs::Spelling::keyword_of))]
pub(crate) fn keyword_of(word: &[u8]) -> Option<Keyword>
    ensures { result ≡ keyword_of word.now }
{
    first_spelled(&Keyword::ALL, word)
}
