//! The names of a window, and their forms.
ghost use Rattle.std.specs.Prelude.{◌≡◌, ◌<◌, ◌≤◌, ◌+◌, ◌^◌, Some, length, IfOk, OnErr};
ghost use Rattle.pc_word.specs.Items.{dest_of};
ghost use Rattle.pc_word.specs.Naming.{with_dest};
ghost use Rattle.pc_window.specs.Hold.{operand_form};
ghost use Rattle.pc_window.specs.Filled.{given_supply};
ghost use Rattle.pc_window.specs.Jump.{combined};
ghost use Rattle.pc_window.specs.Opening.{with_name, first_supply};
ghost use Rattle.pc_window.specs.StoredWindow.{forms_in, supply_in};

use crate::FormList;
use crate::grafting::VARIABLES;
use pc_linear::LinForm;
use pc_word::{Item, MOST_SCALARS, MOST_TEMPORARIES, Operand};
use std::alloc::{AllocError, Global};

/// The form of each name, and the number from which on form variables are new.
#[derive(Debug, Drop)]
pub struct NameTable {
    pub forms: FormList,
    pub next_variable: u32,
}

impl NameTable {
    /// A name for each variable, whose form is a form variable of its own.
    #[tactic(auto, using(crate::proofs::NamesStored::names))]
    pub(crate) fn first(alloc: Global) -> Result<NameTable, AllocError>
        ensures { IfOk result (λ names. supply_in names ≡ first_supply) }
    {
        let mut forms = Vec::with_capacity(alloc, VARIABLES)?;
        for variable in 0..MOST_SCALARS + MOST_TEMPORARIES {
            forms.push(LinForm::variable(variable))?;
        }
        Ok(NameTable {
            forms: FormList::from_vec(forms),
            next_variable: MOST_SCALARS + MOST_TEMPORARIES,
        })
    }

    /// An equal table, in memory of its own. It takes time and memory in proportion to the names.
    pub fn copy(&self, alloc: Global) -> Result<NameTable, AllocError>
        ensures { IfOk result (λ copy. copy ≡ self.now) }
    {
        let forms = FormList::from_slice(alloc, self.forms.as_slice())?;
        Ok(NameTable {
            forms,
            next_variable: self.next_variable,
        })
    }

    /// The form of an operand.
    pub fn form(&self, operand: Operand) -> LinForm
        ensures { result ≡ operand_form (supply_in self.now).forms operand }
    {
        match operand {
            Operand::Name(name) => match self.forms.get(name as usize) {
                Some(form) => *form,
                None => LinForm::constant(0),
            },
            Operand::Lit(value) => LinForm::constant(value),
        }
    }

    /// The form of what an item gives, where it is linear.
    pub fn combined(&self, item: Item) -> Option<LinForm>
        ensures { result ≡ combined (forms_in self.now.forms) item }
    {
        match item {
            Item::Bin {
                op,
                left,
                right,
                ..
            } => LinForm::combine(op, &self.form(left), &self.form(right)),
            _ => None,
        }
    }

    /// One more name, with this form, or with a new form variable where there is none. On `Err` the
    /// table is as before.
    #[tactic(auto, using(crate::proofs::NamesStored::names))]
    pub fn add(&mut self, form: Option<LinForm>) -> Result<u32, AllocError>
        requires names { length self.old.forms < 2 ^ 31 }
        requires variables { self.old.next_variable < 2 ^ 31 }
        ensures name { IfOk result (λ name. name ≡ length self.old.forms) }
        ensures names { IfOk result (λ name. supply_in self.new ≡ with_name (supply_in self.old) form) }
        ensures count { IfOk result (λ name. length self.new.forms ≤ length self.old.forms + 1) }
        ensures variables { IfOk result (λ name. self.new.next_variable ≤ self.old.next_variable + 1) }
        ensures undone { OnErr result (self.new ≡ self.old) }
    {
        let name = self.forms.len() as u32;
        match form {
            Some(form) => self.forms.push(form)?,
            None => {
                self.forms.push(LinForm::variable(self.next_variable))?;
                self.next_variable += 1;
            }
        }
        Ok(name)
    }

    /// An item with the next name, where it writes one. The name's form is what the item gives, or
    /// else a new form variable. On `Err` the table is as before.
    pub fn give_name(&mut self, item: Item) -> Result<Item, AllocError>
        requires names { length self.old.forms < 2 ^ 31 }
        requires variables { self.old.next_variable < 2 ^ 31 }
        ensures item { IfOk result (λ it. it ≡ with_dest (length self.old.forms) item) }
        ensures names { IfOk result (λ it. supply_in self.new
            ≡ given_supply (supply_in self.old) (dest_of (with_dest (length self.old.forms) item)) (Some (with_dest (length self.old.forms) item))) }
        ensures count { IfOk result (λ it. length self.new.forms ≤ length self.old.forms + 1) }
        ensures variables { IfOk result (λ it. self.new.next_variable ≤ self.old.next_variable + 1) }
        ensures undone { OnErr result (self.new ≡ self.old) }
    {
        let named = item.with_dest(self.forms.len() as u32);
        if named.dest().is_some() {
            let form = self.combined(named);
            self.add(form)?;
        }
        Ok(named)
    }
}
