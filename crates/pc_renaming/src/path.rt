//! What is known on the way down two rows of which one does the other.
ghost use Rattle.std.specs.Prelude.{◌≡◌, ◌<◌, ◌↔◌, ℕ, Some, None, true, false, IfSome, IsSome};
ghost use Rattle.pc_machine.specs.Registers.{most_registers};
ghost use Rattle.pc_renaming.specs.declared.kept.Kept.TheVariants as Kept;
ghost use Rattle.pc_renaming.specs.Renaming.{all_before, none_written, with_kept, with_written, StandsIn};
ghost use Rattle.pc_renaming.specs.models.Tables.{homes_in, kept_in, written_in};

use crate::homes::Homes;
use crate::kept::Kept;
use pc_machine::MOST_REGISTERS;

/// Where the values of registers of the code before stand, and which registers of the code after
/// are written.
#[derive(Clone, Copy, Debug)]
pub(crate) struct Path {
    kept: [Kept; MOST_REGISTERS],
    written: [bool; MOST_REGISTERS],
}

impl Path {
    /// At the root of a row.
    pub(crate) fn root() -> Path
        ensures kept { kept_in result ≡ all_before }
        ensures written { written_in result ≡ none_written }
    {
        Path {
            kept: [Kept::Before; MOST_REGISTERS],
            written: [false; MOST_REGISTERS],
        }
    }

    /// Whether the path has not written a register of the code before, which is there.
    pub(crate) fn is_before(&self, register: u32) -> bool
        ensures kept { result ≡ true → kept_in self.now register ≡ Kept.Before }
        ensures so { register < most_registers → kept_in self.now register ≡ Kept.Before → result ≡ true }
    {
        match self.kept.get(register as usize) {
            Some(Kept::Before) => true,
            _ => false,
        }
    }

    /// Whether the path has written a register of the code after.
    pub(crate) fn writes(&self, place: u32) -> bool
        ensures { result ≡ written_in self.now place }
    {
        self.written.get(place as usize).copied().unwrap_or(false)
    }

    /// With another place for the value of a register of the code before; `None` where there is no
    /// such register.
    pub(crate) fn with_kept(&self, register: u32, kept: Kept) -> Option<Path>
        ensures kept { IfSome result (λ below. kept_in below ≡ with_kept register kept (kept_in self.now)) }
        ensures written { IfSome result (λ below. written_in below ≡ written_in self.now) }
        ensures there { register < most_registers → IsSome result }
    {
        let at = register as usize;
        if MOST_REGISTERS <= at {
            return None;
        }
        let mut table = self.kept;
        table[at] = kept;
        Some(Path {
            kept: table,
            written: self.written,
        })
    }

    /// With one more register of the code after that is written.
    pub(crate) fn with_written(&self, place: u8) -> Path
        ensures kept { kept_in result ≡ kept_in self.now }
        ensures written { written_in result ≡ with_written place (written_in self.now) }
    {
        let mut table = self.written;
        table[place as usize] = true;
        Path {
            kept: self.kept,
            written: table,
        }
    }

    /// Whether a value stands so that once the row is done it is where it is to be.
    pub(crate) fn finds(&self, homes: &Homes, register: u8, place: u8) -> bool
        ensures { (result ≡ true) ↔ StandsIn (homes_in homes.now) (written_in self.now) register place (kept_in self.now register) }
    {
        match self.kept[register as usize] {
            Kept::Before => {
                homes.is_at(register as u32, place as u32) && !self.writes(place as u32)
            }
            Kept::Was { register: other } => other == place && !self.writes(place as u32),
            Kept::Made { register: other } => other == place,
            Kept::Lost => false,
        }
    }
}
