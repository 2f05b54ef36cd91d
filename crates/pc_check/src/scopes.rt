ghost use Rattle.std.specs.Prelude.{◌≡◌, ◌≤◌, IsTrue, length, sum};
ghost use Rattle.std.specs.List.{list_all};
ghost use Rattle.pc_word.specs.SourceLimits.{most_scalars};
ghost use Rattle.pc_word.specs.MachineLimits.{most_arrays, most_elements};
ghost use Rattle.pc_check.specs.Sound.{is_length};

use crate::error::CheckError;
use crate::initial::{check_values, data_of};
use crate::search::find_in;
use crate::slot::Slot;
use indexmap::IndexMap;
use pc_syntax::ConstList;
use pc_word::{DataList, LengthList, MOST_ARRAYS, MOST_ELEMENTS, MOST_LENGTH, MOST_SCALARS, Seq};
use std::alloc::Global;
use std::mem;

/// The names that are declared where a place of a program is reached, and how much was declared so far.
#[derive(Drop)]
pub(crate) struct Scopes {
    innermost: IndexMap<u32, Slot>,
    // the scopes round the innermost, the outermost first
    outer: Vec<IndexMap<u32, Slot>>,
    scalars: u8,
    lengths: LengthList,
    initial: DataList,
    elements: u32,
    ghost few_scalars: { scalars ≤ most_scalars },
    ghost few_arrays: { length lengths ≤ most_arrays },
    ghost counted: { elements ≡ sum lengths },
    ghost few_elements: { elements ≤ most_elements },
    ghost sized: { IsTrue (list_all is_length lengths) },
}

impl Scopes {
    ghost use Rattle.std.specs.Prelude.{◌≡◌, [], OnOk, IfOk, IfErr};
    ghost use Rattle.pc_check.specs.Names.{no_names, found, entered, with_scalar, with_array};
    ghost use Rattle.pc_check.specs.InitialData.{data_of};
    ghost use Rattle.pc_check.specs.Faults.{scalar_faults, array_faults};
    ghost use Rattle.pc_check.specs.models.Resolves.{IsFirst};
    ghost use Rattle.pc_check.specs.models.View.{names_of, outwards};

    /// The one scope of the block of `main`, which declares nothing yet.
    pub(crate) fn new(alloc: Global) -> Scopes
        ensures { names_of result ≡ no_names }
    {
        Scopes {
            innermost: IndexMap::new(alloc),
            outer: Vec::new(alloc),
            scalars: 0,
            lengths: Seq::new(alloc),
            initial: Seq::new(alloc),
            elements: 0,
        }
    }

    /// What a name stands for, if it is declared.
    pub(crate) fn find(&self, symbol: u32) -> Option<Slot>
        ensures { result ≡ found (names_of self.now) symbol }
    {
        match self.innermost.get(&symbol) {
            Some(slot) => Some(*slot),
            None => find_in(self.outer.as_slice(), symbol),
        }
    }

    /// Opens a scope.
    pub(crate) fn enter(&mut self, alloc: Global) -> Result<(), CheckError>
        ensures entered { OnOk result (names_of self.new ≡ entered (names_of self.old)) }
        ensures full { IfErr result (λ e. e ≡ CheckError.Memory) }
    {
        let surrounding = mem::replace(&mut self.innermost, IndexMap::new(alloc));
        self.outer.push(surrounding)?;
        Ok(())
    }

    /// Closes the innermost scope, if it is not the only one.
    pub(crate) fn leave(&mut self)
        ensures { names_of self.new ≡ outwards (names_of self.old) }
    {
        if let Some(surrounding) = self.outer.pop() {
            self.innermost = surrounding;
        }
    }

    /// Declares a scalar, and gives its number.
    pub(crate) fn declare_scalar(&mut self, symbol: u32, line: u32) -> Result<u8, CheckError>
        ensures faultless { OnOk result (scalar_faults (names_of self.old) symbol line ≡ []) }
        ensures number { IfOk result (λ number. number ≡ self.old.scalars) }
        ensures declared { OnOk result (names_of self.new ≡ with_scalar (names_of self.old) symbol) }
        ensures refused { IfErr result (λ e. IsFirst e (scalar_faults (names_of self.old) symbol line)) }
    {
        if self.innermost.contains_key(&symbol) {
            return Err(CheckError::Redeclared { line });
        }
        if u32::from(self.scalars) >= MOST_SCALARS {
            return Err(CheckError::TooManyScalars { line });
        }
        let number = self.scalars;
        self.innermost.insert(symbol, Slot::Scalar { number })?;
        self.scalars += 1;
        Ok(number)
    }

    /// Declares an array of `size` elements, whose length stands at the line `at`, with these values, and
    /// gives its number.
    #[tactic(auto, using(crate::proofs::FaultLaws::first_faults))]
    pub(crate) fn declare_array(
        &mut self,
        alloc: Global,
        symbol: u32,
        line: u32,
        at: u32,
        size: u32,
        values: &ConstList,
    ) -> Result<u8, CheckError>
        ensures faultless { OnOk result
            (array_faults (names_of self.old) symbol line at size values.now ≡ []) }
        ensures number { IfOk result (λ number. number ≡ length self.old.lengths) }
        ensures declared { OnOk result
            (names_of self.new ≡ with_array (names_of self.old) symbol size (data_of values.now)) }
        ensures refused { IfErr result (λ e. IsFirst e
            (array_faults (names_of self.old) symbol line at size values.now)) }
    {
        if self.innermost.contains_key(&symbol) {
            return Err(CheckError::Redeclared { line });
        }
        if self.lengths.len() >= MOST_ARRAYS {
            return Err(CheckError::TooManyArrays { line });
        }
        if size == 0 || size > MOST_LENGTH {
            return Err(CheckError::BadSize { line: at });
        }
        if size > MOST_ELEMENTS - self.elements {
            return Err(CheckError::TooManyElements { line: at });
        }
        check_values(size, values.as_slice())?;
        let words = data_of(alloc, values.as_slice())?;
        let number = self.lengths.len() as u8;
        self.innermost.insert(symbol, Slot::Array { number })?;
        self.initial.push(words)?;
        self.lengths.push(size)?;
        self.elements += size;
        Ok(number)
    }

    /// How many scalars were declared.
    pub(crate) fn scalars(&self) -> u8
        ensures value { result ≡ self.now.scalars }
        ensures few { result ≤ most_scalars }
    {
        self.scalars
    }

    /// The lengths of the arrays that were declared, and their data.
    pub(crate) fn into_arrays(self) -> (LengthList, DataList)
        ensures lengths { result.0 ≡ self.lengths }
        ensures data { result.1 ≡ self.initial }
        ensures few { length result.0 ≤ most_arrays }
        ensures sized { IsTrue (list_all is_length result.0) }
        ensures few_elements { sum result.0 ≤ most_elements }
    {
        (self.lengths, self.initial)
    }
}
