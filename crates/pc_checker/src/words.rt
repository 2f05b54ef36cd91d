//! The reason for a rejection in words.
ghost use Rattle.std.specs.Prelude.{◌≡◌, Some};
ghost use Rattle.pc_checker.specs.RejectionText.{flaw_text, leaf_flaw_text};

use pc_accepted::{Flaw, LeafFlaw};
use std::fmt;

/// Why what is left does not lead on.
fn leaf_words(why: LeafFlaw) -> &'static str
    ensures { result.now ≡ leaf_flaw_text why }
{
    match why {
        LeafFlaw::OtherEnd => "the row ends, and what is left does not end so",
        LeafFlaw::NoEntry => "no entry speaks of the row that comes next",
        LeafFlaw::NoBeginning => "the next entry cannot begin with what is left",
        LeafFlaw::NoParameter => {
            "a fact of the next entry names a parameter that its window has not"
        }
        LeafFlaw::NoArrival => {
            "what is left is not the window of the next entry, or a fact of that entry does not hold"
        }
        LeafFlaw::NoProgress => {
            "the next entry has no smaller rank, and there is no other progress"
        }
    }
}

/// Why an entry is refused, which is to be written.
#[derive(Clone, Copy)]
pub(crate) struct FlawWords {
    pub(crate) flaw: Flaw,
}

impl fmt::Display for FlawWords {
    ghost output = { λ words. Some (flaw_text words.flaw) };

    fn fmt<W: fmt::Write>(&self, f: &mut fmt::Formatter<W>) -> fmt::Result {
        match self.flaw {
            Flaw::OtherData => {
                f.write_str("the arrays or their words are not those of the source")
            }
            Flaw::Start { why } => {
                let why = leaf_words(why);
                write!(f, "at the start, {why}")
            }
            Flaw::Unreached => f.write_str(
                "nothing before it leads to the entry, or an earlier entry speaks of its row",
            ),
            Flaw::NoRow => f.write_str("the object has no such row"),
            Flaw::IllegalStep => f.write_str("a step is not legal, or makes a window too large"),
            Flaw::OtherRow => f.write_str("the row does not do what the front of the window does"),
            Flaw::Leaf { leaf: number, why } => {
                let why = leaf_words(why);
                write!(f, "at leaf {number} of the row, counted from 0, {why}")
            }
        }
    }
}
