//! What a word for SRC names.
ghost use Rattle.std.specs.Prelude.{◌≡◌, option_map};
ghost use Rattle.pc_command.specs.Requests.{behind_at, source_place, source_place_of, sample_number_of};

/// Where a source comes from.
#[derive(Clone, Copy, Debug, PartialEq, Eq)]
pub enum SourceName<'a> {
    /// The file of this name, which does not begin with `@`.
    File(&'a str),
    /// The generated sample of this number.
    Sample(u32),
}

/// What a word names: after a `@` the number of a sample, in decimal digits alone, and with any
/// other first character a file.
#[tactic(auto, unfolding(crate::specs::Requests::source_place_of))]
pub(crate) fn source_named<'a>(word: &'a str) -> Option<SourceName<'a>>
    ensures { option_map source_place result ≡ source_place_of word.entry.now }
{
    match behind_at(word) {
        Some(digits) => Some(SourceName::Sample(sample_number(digits)?)),
        None => Some(SourceName::File(word)),
    }
}

/// What stands after a first `@`.
fn behind_at<'a>(word: &'a str) -> Option<&'a str>
    ensures { option_map (λ digits. digits.now) result ≡ behind_at word.entry.now }
{
    word.strip_prefix('@')
}

/// The number that digits alone spell.
fn sample_number(digits: &str) -> Option<u32>
    ensures { result ≡ sample_number_of digits.now }
{
    if digits.starts_with('+') {
        return None;
    }
    digits.parse().ok()
}
