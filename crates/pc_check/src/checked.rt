ghost use Rattle.std.specs.Prelude.{◌≡◌, ◌≤◌, false, IsTrue, Ok, length, sum};
ghost use Rattle.std.specs.List.{list_all};
ghost use Rattle.pc_syntax.specs.Source.{SourceProgram};
ghost use Rattle.pc_word.specs.Data.{AreData};
ghost use Rattle.pc_word.specs.Exact.{checked};
ghost use Rattle.pc_word.specs.SourceLimits.{most_scalars};
ghost use Rattle.pc_word.specs.MachineLimits.{most_arrays, most_elements};
ghost use Rattle.pc_syntax.specs.Erasure.{list_of};
ghost use Rattle.pc_check.specs.DataOnce.{data_once};
ghost use Rattle.pc_check.specs.Sound.{is_length, list_is_sound};
ghost use Rattle.pc_check.specs.Faults.{faults};
ghost use Rattle.pc_check.specs.Resolution.{resolved};

use pc_syntax::Program;
use pc_word::{DataList, LengthList};

/// A program without faults, with a number for each name.
///
/// It is what `check` gives of some program. So what was checked holds of it, and is told by the other
/// ghost fields: each name is a slot that it declares, no expression needs more than 32 temporaries, each
/// `break` and `continue` stands in a loop's body, and no array has more data than elements.
#[derive(Debug, Drop)]
pub struct Checked {
    /// How many scalars the program declares, at most 64.
    pub scalars: u8,
    /// The lengths of its arrays, at most 32.
    pub arrays: LengthList,
    /// For each array the words with which it begins: the values of its initialiser, without the zeros at
    /// their end. It goes on with 0.
    pub initial: DataList,
    /// Its statements. A symbol is the number of a scalar or of an array, each counted from 0 in the order
    /// of declaration.
    pub body: Program,
    pub ghost few_scalars: { scalars ≤ most_scalars },
    pub ghost few_arrays: { length arrays ≤ most_arrays },
    pub ghost sized: { IsTrue (list_all is_length arrays) },
    pub ghost few_elements: { sum arrays ≤ most_elements },
    pub ghost data_fits: { AreData arrays initial } by { data_once _ _ },
    pub ghost sound: { IsTrue (list_is_sound scalars (length arrays) false (list_of body.items)) },
    pub ghost of_a_program: { ∥ ((program : SourceProgram) × (checked (faults program) (resolved program)
        ≡ Ok (record { scalars = scalars; arrays = arrays; initial = initial; body = list_of body.items }))) ∥₁ },
}
