use pc_word::Seq;

/// A constant of the initialiser of a static array: a number, or `-` and a number. So `value` is at least
/// -2147483647, for no number of the language is above 2147483647.
///
/// `line` is the line of its first token.
#[derive(Clone, Copy, Debug, PartialEq, Eq)]
pub struct Const {
    pub line: u32,
    pub value: i32,
}

/// Constants in order.
pub type ConstList = Seq<Const>;
