//! What is known along a trail: forms of variables, and accesses of elements.
ghost use Rattle.std.specs.Prelude.{◌≡◌, ◌<◌, ◌^◌, length, IfSome, IfOk, OnOk};
ghost use Rattle.pc_flow.specs.FlowGraph.{variables};
ghost use Rattle.pc_linear.specs.Form.{IsForm};
ghost use Rattle.pc_forward.specs.Trail.{own_forms, first_trail, operand_form, given, renewed, combined, accessed, behind_item, behind};
ghost use Rattle.pc_forward.specs.models.Words.{IsWordOperand, TakesWords, ItemTakesWords, node_writes};
ghost use Rattle.pc_word.specs.Items.{dest_of};

use crate::access::{Access, AccessKind};
use pc_flow::FlowNode;
use pc_linear::LinForm;
use pc_word::{Item, MOST_SCALARS, MOST_TEMPORARIES, OpCode, Operand, Seq};
use std::alloc::{AllocError, Global};

/// The form of each variable, the number from which on form variables are new, and the accesses of elements, the latest last.
#[derive(Debug, Drop)]
pub(crate) struct Trail {
    pub forms: Seq<LinForm>,
    pub next: u32,
    pub accesses: Seq<Access>,
}

impl Trail {
    /// What is known where a trail begins.
    pub(crate) fn first(alloc: Global) -> Result<Trail, AllocError>
        ensures { IfOk result (λ trail. trail ≡ first_trail) }
    {
        Ok(Trail {
            forms: own_forms(alloc)?,
            next: MOST_SCALARS + MOST_TEMPORARIES,
            accesses: Seq::new(alloc),
        })
    }

    /// The same, once more.
    pub(crate) fn copy(&self, alloc: Global) -> Result<Trail, AllocError>
        ensures { IfOk result (λ trail. trail ≡ self.now) }
    {
        let forms = Seq::from_slice(alloc, self.forms.as_slice())?;
        let accesses = Seq::from_slice(alloc, self.accesses.as_slice())?;
        Ok(Trail {
            forms,
            next: self.next,
            accesses,
        })
    }

    /// Goes past a node.
    pub(crate) fn go_past(&mut self, node: FlowNode) -> Result<(), AllocError>
        requires room { self.old.next < 2 ^ 31 }
        requires writes { IfSome (node_writes node) (λ name. name < length self.old.forms) }
        ensures behind { OnOk result (self.new ≡ behind node self.old) }
        ensures words { TakesWords node }
    {
        match node {
            FlowNode::Op { item, .. } => self.go_past_item(item),
            FlowNode::Test { .. } | FlowNode::Stop | FlowNode::Trap { .. } => Ok(()),
        }
    }

    /// Goes past an item.
    fn go_past_item(&mut self, item: Item) -> Result<(), AllocError>
        requires room { self.old.next < 2 ^ 31 }
        requires writes { IfSome (dest_of item) (λ name. name < length self.old.forms) }
        ensures behind { OnOk result (self.new ≡ behind_item item self.old) }
        ensures words { ItemTakesWords item }
    {
        match item {
            Item::Bin {
                op,
                dest,
                left,
                right,
            } => {
                let left = self.form(left);
                let right = self.form(right);
                self.combine(dest, LinForm::combine(op, &left, &right));
                Ok(())
            }
            Item::Copy { dest, from } => {
                let form = self.form(from);
                self.give(dest, form);
                Ok(())
            }
            Item::Load { dest, array, index } => {
                let access = Access {
                    kind: AccessKind::Load,
                    array,
                    index: self.form(index),
                    value: LinForm::variable(self.next),
                };
                self.renew(dest);
                self.accesses.push(access)?;
                Ok(())
            }
            Item::Store {
                array,
                index,
                value,
            } => {
                let access = Access {
                    kind: AccessKind::Store,
                    array,
                    index: self.form(index),
                    value: self.form(value),
                };
                self.accesses.push(access)?;
                Ok(())
            }
            Item::Print { .. } => Ok(()),
            Item::Read { dest } | Item::More { dest } => {
                self.renew(dest);
                Ok(())
            }
        }
    }

    /// The form of an operand.
    pub(crate) fn form(&self, operand: Operand) -> LinForm
        ensures form { result ≡ operand_form self.now.forms operand }
        ensures word { IsWordOperand operand }
    {
        match operand {
            Operand::Name(name) => match self.forms.get(name as usize) {
                Some(form) => *form,
                None => LinForm::constant(0),
            },
            Operand::Lit(value) => LinForm::constant(value),
        }
    }

    /// Gives a variable a form.
    fn give(&mut self, dest: u32, form: LinForm)
        requires { dest < length self.old.forms }
        ensures { self.new ≡ given dest form self.old }
    {
        self.forms.set(dest as usize, form);
    }

    /// Lets a variable be a new form variable.
    fn renew(&mut self, dest: u32)
        requires room { self.old.next < 2 ^ 31 }
        requires there { dest < length self.old.forms }
        ensures { self.new ≡ renewed dest self.old }
    {
        self.forms.set(dest as usize, LinForm::variable(self.next));
        self.next += 1;
    }

    /// Gives a variable the form that was combined, or a new form variable.
    fn combine(&mut self, dest: u32, form: Option<LinForm>)
        requires room { self.old.next < 2 ^ 31 }
        requires there { dest < length self.old.forms }
        ensures { self.new ≡ combined dest form self.old }
    {
        match form {
            Some(form) => self.give(dest, form),
            None => self.renew(dest),
        }
    }
}

/// A form variable for each variable.
#[tactic(auto, using(crate::proofs::OwnForms::own_next))]
fn own_forms(alloc: Global) -> Result<Seq<LinForm>, AllocError>
    ensures { IfOk result (λ forms. forms ≡ own_forms 0 variables) }
{
    let mut forms = Seq::new(alloc);
    for variable in 0..MOST_SCALARS + MOST_TEMPORARIES {
        forms.push(LinForm::variable(variable))?;
    }
    Ok(forms)
}
