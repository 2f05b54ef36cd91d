//! The words with which arrays begin, a line each.
ghost use Rattle.std.specs.Prelude.{◌≡◌, ◌++◌, OnOk, string_bytes};
ghost use Rattle.pc_view.specs.DataLines.{data_line, data_lines, all_data_lines};
ghost use Rattle.pc_view.specs.Listing.{lines_text};

use pc_word::WordList;
use std::alloc::AllocError;

/// Appends the lines of the words with which each array begins to a text.
pub(crate) fn push_data(text: &mut String, lists: &[WordList]) -> Result<(), AllocError>
    ensures { OnOk result (string_bytes text.new ≡ string_bytes text.old ++ lines_text (all_data_lines 0 lists.now)) }
{
    for (array, words) in lists.iter().enumerate() {
        push_data_lines(text, array, words.as_slice())?;
    }
    Ok(())
}

/// Appends the lines of the words with which an array begins to a text.
fn push_data_lines(text: &mut String, array: usize, words: &[i32]) -> Result<(), AllocError>
    ensures { OnOk result (string_bytes text.new ≡ string_bytes text.old ++ lines_text (data_lines array 0 words.now)) }
{
    for (place, word) in words.iter().enumerate() {
        push_data_line(text, array, place, *word)?;
        text.push_str("\n")?;
    }
    Ok(())
}

/// Appends an element and its word to a text.
#[tactic(auto, unfolding(crate::specs::DataLines::data_line))]
fn push_data_line(
    text: &mut String,
    array: usize,
    place: usize,
    word: i32,
) -> Result<(), AllocError>
    ensures { OnOk result (string_bytes text.new ≡ string_bytes text.old ++ data_line array place word) }
{
    write!(text, "    a{array}[{place}] = {word}")
}
