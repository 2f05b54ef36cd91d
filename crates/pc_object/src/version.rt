ghost use Rattle.std.specs.Prelude.{◌≡◌};
ghost use Rattle.pc_word.specs.Data.{has_no_data};
ghost use Rattle.pc_object.specs.ObjectText.{fits_ptv1, version_for};

use pc_machine::FEW_REGISTERS;
use pc_word::WordList;

/// The versions of the format. Each object has a text in one of them alone.
#[derive(Clone, Copy, Debug, PartialEq, Eq)]
pub enum Version {
    /// `PTV1`, which has no field of registers and none of data: it tells of codes with 128
    /// registers whose arrays have no data.
    Ptv1,
    /// `PTV2`, which tells of all others.
    Ptv2,
}

/// Whether `PTV1` can tell of so many registers and this data.
pub fn fits_ptv1(registers: u16, initial: &[WordList]) -> bool
    ensures { result ≡ fits_ptv1 registers initial.now }
{
    registers as usize == FEW_REGISTERS && has_no_data(initial)
}

/// The version of a text with so many registers and this data.
pub fn version_for(registers: u16, initial: &[WordList]) -> Version
    ensures { result ≡ version_for registers initial.now }
{
    if fits_ptv1(registers, initial) {
        Version::Ptv1
    } else {
        Version::Ptv2
    }
}

fn has_no_data(lists: &[WordList]) -> bool
    ensures { result ≡ has_no_data lists.now }
{
    for words in lists {
        if !words.is_empty() {
            return false;
        }
    }
    true
}
