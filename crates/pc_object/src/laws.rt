//! Laws of the format, of every object and all bytes. Each is proved; nothing runs.

ghost use Rattle.pc_object.specs.Laws.{SizesAreLengths, OneTextOneObject, ReadsExactlyTexts, LongerIsTrailing, ShorterIsTruncated, FlawedIsBadField, DepthDecidesNothing};

/// Each text is the text of one object.
pub fn one_object()
    ensures { OneTextOneObject }
{}

/// Bytes are read as an object exactly where they are its text.
pub fn reads_exactly_texts()
    ensures { ReadsExactlyTexts }
{}

/// What follows an object's text is refused at its first byte.
pub fn longer_is_trailing()
    ensures { LongerIsTrailing }
{}

/// An object's text that is cut off is refused as truncated, wherever the cut is.
pub fn shorter_is_truncated()
    ensures { ShorterIsTruncated }
{}

/// The text of a code that is not well formed is refused for the flaw that
/// [`well_formed`](pc_machine::well_formed) tells.
pub fn flawed_is_bad_field()
    ensures { FlawedIsBadField }
{}

/// A reader that may go deeper than the one in use reads no row otherwise, since the limits stop
/// both before.
pub fn depth_decides_nothing()
    ensures { DepthDecidesNothing }
{}

/// Each part of an object's text has as many bytes as `item_bytes` and its like say.
pub fn sizes_are_lengths()
    ensures { SizesAreLengths }
{}
