//! Sets of variables.
ghost use Rattle.std.specs.Prelude.{◌≡◌, ◌<◌, ◌≤◌, ◌^◌, ℕ, false, true, not, ◌&&◌, ◌||◌, nat_eq};
ghost use Rattle.pc_flow.specs.FlowGraph.{variables, IsVariable};
ghost use Rattle.pc_live.specs.Liveness.{member};
ghost use Rattle.pc_word.specs.Items.{reads_name};

use pc_word::Operand;

/// A set of the 96 variables of a flow graph: one bit a variable.
#[derive(Clone, Copy, Debug, PartialEq, Eq)]
pub struct VariableSet {
    bits: u128,
}

impl VariableSet {
    /// The set of no variable.
    pub fn empty() -> VariableSet
        ensures none { (x : ℕ) → member result x ≡ false }
        ensures fits { result.bits ≤ 2 ^ 128 }
    {
        VariableSet { bits: 0 }
    }

    /// Whether a variable is in the set.
    pub fn contains(self, variable: u32) -> bool
        requires { variable < variables }
        ensures { result ≡ member self variable }
    {
        (self.bits >> variable) & 1 == 1
    }

    /// The set with a variable in it.
    pub fn with(self, variable: u32) -> VariableSet
        requires { variable < variables }
        ensures { (x : ℕ) → member result x ≡ (nat_eq variable x || member self x) }
    {
        VariableSet {
            bits: self.bits | (1 << variable),
        }
    }

    /// The set with what an operand reads in it.
    pub fn with_operand(self, operand: Operand) -> VariableSet
        requires { IsVariable operand }
        ensures { (x : ℕ) → member result x ≡ (reads_name operand x || member self x) }
    {
        match operand {
            Operand::Name(variable) => self.with(variable),
            Operand::Lit(_) => self,
        }
    }

    /// The set without a variable.
    pub fn without(self, variable: u32) -> VariableSet
        requires { variable < variables }
        ensures { (x : ℕ) → x < variables → member result x ≡ (not (nat_eq variable x) && member self x) }
    {
        VariableSet {
            bits: self.bits & !(1 << variable),
        }
    }

    /// The variables of both sets.
    pub fn union(self, other: VariableSet) -> VariableSet
        ensures { (x : ℕ) → member result x ≡ (member self x || member other x) }
    {
        VariableSet {
            bits: self.bits | other.bits,
        }
    }

    /// Puts the variables of another set into this one. Whether there were new ones.
    pub fn add(&mut self, other: VariableSet) -> bool
        ensures both { (x : ℕ) → member self.new x ≡ (member self.old x || member other x) }
        ensures grew { result ≡ true → self.old.bits < self.new.bits }
        ensures same { result ≡ false → self.new ≡ self.old }
        ensures fits { self.new.bits ≤ 2 ^ 128 }
    {
        let both = self.bits | other.bits;
        let grew = both != self.bits;
        self.bits = both;
        grew
    }
}
