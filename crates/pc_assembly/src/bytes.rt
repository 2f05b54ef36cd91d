//! Classes of bytes, and runs of bytes of one class.

ghost use Rattle.std.specs.Prelude.{◌≡◌, ◌≤◌, length};
ghost use Rattle.std.specs.List.{prefix_len};
ghost use Rattle.pc_assembly.specs.Bytes.{is_in, run, after_run};

/// A class of bytes.
#[derive(Clone, Copy, Debug, PartialEq, Eq)]
pub enum Class {
    /// Spaces, tabs and carriage returns.
    Blank,
    /// What stands in front of a line of a row: blanks and bars.
    Indent,
    /// What a word is made of.
    Letter,
    /// What a number is made of.
    Digit,
    /// What a name is made of: letters and digits.
    Name,
    /// What an operator other than `below` is made of.
    Sign,
    /// All but the line feed.
    InLine,
}

impl Class {
    /// Whether a byte is of the class.
    pub fn has(self, byte: u8) -> bool
        ensures { result ≡ is_in self byte }
    {
        match self {
            Class::Blank => matches!(byte, b' ' | b'\t' | b'\r'),
            Class::Indent => matches!(byte, b' ' | b'\t' | b'\r' | b'|'),
            Class::Letter => is_letter(byte),
            Class::Digit => byte.is_ascii_digit(),
            Class::Name => is_letter(byte) || byte.is_ascii_digit(),
            Class::Sign => is_sign(byte),
            Class::InLine => byte != b'\n',
        }
    }
}

/// What a word is made of.
fn is_letter(byte: u8) -> bool
    ensures { result ≡ is_in Class.Letter byte }
{
    byte.is_ascii_alphabetic() || byte == b'_'
}

/// What operators other than `below` are made of.
fn is_sign(byte: u8) -> bool
    ensures { result ≡ is_in Class.Sign byte }
{
    matches!(
        byte,
        b'+' | b'-' | b'*' | b'/' | b'%' | b'<' | b'>' | b'&' | b'|' | b'^' | b'=' | b'!'
    )
}

/// How many bytes of a class stand at the beginning.
fn run_length(class: Class, bytes: &[u8]) -> usize
    ensures value { result ≡ prefix_len (is_in class) bytes.now }
    ensures within { result ≤ length bytes.now }
{
    for (at, byte) in bytes.iter().enumerate() {
        if !class.has(*byte) {
            return at;
        }
    }
    bytes.len()
}

/// The bytes of a class that stand at the beginning, and those after them.
pub fn cut_run(class: Class, bytes: &[u8]) -> (&[u8], &[u8])
    ensures run { result.0.now ≡ run class bytes.now }
    ensures after { result.1.now ≡ after_run class bytes.now }
{
    bytes.split_at(run_length(class, bytes))
}

/// The bytes of a class that stand at the beginning.
pub fn run(class: Class, bytes: &[u8]) -> &[u8]
    ensures { result.now ≡ run class bytes.now }
{
    let (run, _) = cut_run(class, bytes);
    run
}

/// What stands after the bytes of a class at the beginning.
pub fn after_run(class: Class, bytes: &[u8]) -> &[u8]
    ensures { result.now ≡ after_run class bytes.now }
{
    let (_, after) = cut_run(class, bytes);
    after
}

/// The bytes after the blanks at the beginning.
pub fn unblank(bytes: &[u8]) -> &[u8]
    ensures { result.now ≡ after_run Class.Blank bytes.now }
{
    after_run(Class::Blank, bytes)
}
