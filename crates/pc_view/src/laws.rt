//! Laws of the texts. No function here does anything: each one's contract is a law.
ghost use Rattle.pc_view.specs.Laws.{TreesShowEachPart, ListingsHaveALineForEachPart, ListingsHaveALineFeedForEachLine, GraphsHaveALineForEachPart, LeadingRowsLead};

/// A listing has a line for the limits, arrays and registers; a line for each word of data; for each row a
/// heading and a line for each item, test and leaf, in preorder; and a line for each note. There is a line feed
/// at the end of each line and nowhere else.
pub fn laws_of_listings()
    ensures parts { TreesShowEachPart }
    ensures lines { ListingsHaveALineForEachPart }
    ensures line_feeds { ListingsHaveALineFeedForEachLine }
{}

/// A graph has a line for each array with data, for each row, for each leaf that leads to a row and for each
/// note, two lines before them and one after.
pub fn laws_of_graphs()
    ensures { GraphsHaveALineForEachPart }
{}

/// The rows that are listed as leading to a row are those that have a leaf to it, each once.
pub fn laws_of_leading_rows()
    ensures { LeadingRowsLead }
{}
