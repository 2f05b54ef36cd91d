//! The text of a source: that of a file, or of a sample.
ghost use Rattle.std.specs.Prelude.{◌≡◌, ◌≤◌, length, IfOk, MatchResult};
ghost use Rattle.pc_command.specs.Requests.{OfFile, source_place};
ghost use Rattle.pc_outside.specs.Shelf.{ReadKeeps};
ghost use Rattle.pc_sample.specs.SampleText.{sample_text};
ghost use Rattle.pc_source.specs.Files.{HasSource};
ghost use Rattle.pc_source.specs.Reading.{FailsToRead};
ghost use Rattle.pc_source.specs.declared.source.SourceError.TheVariants.{Memory};
ghost use Rattle.pc_word.specs.SourceLimits.{most_source};

use pc_command::SourceName;
use pc_driver::{FileError, read_whole};
use pc_outside::Shelf;
use pc_sample::{SampleError, sample};
use pc_word::MOST_SOURCE;
use std::alloc::Global;
use thiserror::Error;

/// Why the text of a source was not read. It borrows the name of a file.
#[derive(Clone, Copy, Debug, PartialEq, Eq, Error)]
pub enum SourceError<'a> {
    /// The shelf failed on the file of this name.
    #[error("the source could not be read")]
    Unread { name: &'a str },
    /// The file has more than 1,048,576 bytes.
    #[error("the source is longer than 1048576 bytes")]
    TooLong,
    /// Memory ran out.
    #[error("out of memory")]
    Memory,
}

/// The text of a source, which has at most 1,048,576 bytes: that of a file of the shelf, or of a sample. It fails
/// where the shelf does, where the file is longer, and where memory runs out.
#[tactic(auto, using(crate::proofs::Readings::reads_due))]
pub fn read_source<'a, H: Shelf>(
    alloc: Global,
    source: SourceName<'a>,
    shelf: &mut H,
) -> Result<Vec<u8>, SourceError<'a>>
    ensures keeps { ReadKeeps (H.state shelf.old) (H.state shelf.new) }
    ensures few { IfOk result (λ text. length text.items ≤ most_source) }
    ensures text { MatchResult result
        (λ text. HasSource (H.state shelf.old).held (source_place source.entry) text.items)
        (λ error. FailsToRead (source_place source.entry) (H.state shelf.old) (H.state shelf.new) error) }
{
    match source {
        SourceName::File(name) => read_file(alloc, name, shelf),
        SourceName::Sample(number) => sample_of(alloc, number),
    }
}

/// The text of a source that is a file.
#[tactic(auto, using(crate::proofs::Readings::reads_due))]
fn read_file<'a, H: Shelf>(
    alloc: Global,
    name: &'a str,
    shelf: &mut H,
) -> Result<Vec<u8>, SourceError<'a>>
    ensures keeps { ReadKeeps (H.state shelf.old) (H.state shelf.new) }
    ensures few { IfOk result (λ text. length text.items ≤ most_source) }
    ensures text { MatchResult result
        (λ text. HasSource (H.state shelf.old).held (OfFile name.entry.now) text.items)
        (λ error. FailsToRead (OfFile name.entry.now) (H.state shelf.old) (H.state shelf.new) error) }
{
    match read_whole(alloc, name, MOST_SOURCE, shelf) {
        Ok(text) => Ok(text),
        Err(FileError::Failed) => Err(SourceError::Unread { name }),
        Err(FileError::TooLong) => Err(SourceError::TooLong),
        Err(FileError::Memory) => Err(SourceError::Memory),
    }
}

/// The text of a source that is a sample.
fn sample_of<'a>(alloc: Global, number: u32) -> Result<Vec<u8>, SourceError<'a>>
    ensures few { IfOk result (λ text. length text.items ≤ most_source) }
    ensures text { MatchResult result (λ text. text.items ≡ sample_text number) (λ error. error ≡ Memory) }
{
    match sample(alloc, number) {
        Ok(text) => Ok(text),
        Err(SampleError::Memory) => Err(SourceError::Memory),
    }
}
