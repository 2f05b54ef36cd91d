//! The machine: a code, what it holds, and the row that comes next.
ghost use Rattle.std.specs.Prelude.{◌≡◌, ◌≤◌, true, false, length, Some, IfOk, OnOk, OnErr, IfSome, option_to_list};
ghost use Rattle.std.specs.Io.KnownBytes.{Appends};
ghost use Rattle.pc_word.specs.Items.{operand_value, value_of};
ghost use Rattle.pc_word.specs.NumberText.{text_of};
ghost use Rattle.pc_word.specs.Run.{run_from, reach};
ghost use Rattle.pc_machine.specs.MachineCode.{code_of};
ghost use Rattle.pc_machine.specs.MachineRun.{machine_step, machine_start};
ghost use Rattle.pc_machine.specs.Registers.{most_registers};
ghost use Rattle.pc_machine.specs.WellFormed.{IsItem, IsLeaf, IsOperand, WellFormed};
ghost use Rattle.pc_word.specs.Count.{Rose};
ghost use Rattle.pc_outside.specs.Stream.{AppendsPart};
ghost use Rattle.pc_vm.specs.Exits.{IsExit};
ghost use Rattle.pc_vm.specs.Standing.{here_of, IsStep, KeepsAll, end_of, StandsAt};
ghost use Rattle.pc_vm.specs.models.Moves.{event_of, moved};

use crate::event::{Event, MachineError, Outcome, RunError};
use crate::exit::{Exit, exit_number};
use crate::pending::Pending;
use crate::row::{RowResult, run_row};
use crate::values::Values;
use pc_machine::{Code, Leaf};
use pc_outside::{Failed, Sink, send};
use pc_word::{End, Item, NumberLine, Operand, WordList};
use std::alloc::Global;
use std::marker::Model;

/// A machine that runs a well-formed code on an input.
///
/// Contracts see the code, the row that comes next, what is held (the registers, the elements of
/// each array, the input that is left), and whether the machine is over: once an end was answered,
/// or a sink failed, it runs no further.
#[derive(Drop)]
pub struct Machine {
    code: Code,
    row: u32,
    values: Values,
    pending: Pending,
    over: bool,
}

impl Model for Machine {
    ghost use Rattle.std.specs.Coded.{codes};
    ghost use Rattle.pc_machine.specs.contracts.code.Code as stored_code;
    ghost use Rattle.pc_vm.specs.Standing.{Standing};

    ghost Value = { Standing };

    ghost coded = { Prim.hlevel (codes, stored_code.the_row.coded) };

    ghost use Rattle.pc_vm.specs.models.Sound.{IsSound};

    ghost view = { λ a. record { code = a.code; row = a.row; held = a.values; over = a.over } };

    ghost invariant = { IsSound };
}

impl Machine {
    /// A machine at row 0 of the code, with all registers 0 and each array as its data has it. It
    /// takes all memory that a run needs.
    pub fn new(alloc: Global, code: Code, inputs: WordList) -> Result<Machine, MachineError>
        requires { WellFormed (code_of code) }
        ensures code { IfOk result (λ machine. machine.code ≡ code) }
        ensures start { IfOk result (λ machine. here_of machine ≡ machine_start (code_of code) inputs) }
        ensures not_over { IfOk result (λ machine. machine.over ≡ false) }
    {
        let values = Values::new(
            alloc,
            code.arrays.as_slice(),
            code.initial.as_slice(),
            inputs,
        )?;
        let pending = Pending::new(alloc)?;
        Ok(Machine {
            code,
            row: 0,
            values,
            pending,
            over: false,
        })
    }

    /// The code that it runs.
    pub fn code(&self) -> &Code
        ensures code { result.now ≡ self.now.code }
        ensures well { WellFormed (code_of self.now.code) }
    {
        &self.code
    }

    /// The code that it ran.
    pub fn into_code(self) -> Code
        ensures { result ≡ self.code }
    {
        let Machine { code, .. } = self;
        code
    }

    /// Where the next cycle leaves its row, unless it faults. Nothing is changed. It goes down the
    /// path that the cycle takes, and through the yes side of each test whose no side is taken.
    pub fn exit(&self) -> Exit
        ensures { IsExit (code_of self.now.code) (here_of self.now) result }
    {
        let tree = &self.code.rows.as_slice()[self.row as usize];
        Exit {
            row: self.row as usize,
            leaf: exit_number(tree, &self.values),
        }
    }

    /// The value that an operand has as the next cycle begins.
    pub fn operand(&self, operand: &Operand) -> i32
        requires { IsOperand most_registers operand.now }
        ensures { result ≡ operand_value (here_of self.now).state.names operand.now }
    {
        self.values.operand(operand)
    }

    /// The word that an item writes, stores or prints if the next cycle does it.
    pub fn value(&self, item: &Item) -> i32
        requires { IsItem most_registers (length self.now.code.arrays) item.now }
        ensures { result ≡ value_of self.now.code.arrays (here_of self.now).state item.now }
    {
        self.values.value(item)
    }

    /// Runs one row: one step of the code. It takes no memory.
    pub fn cycle(&mut self) -> Event
        requires { self.old.over ≡ false }
        ensures step { IsStep result self.new (machine_step (code_of self.old.code) (here_of self.old)) }
        ensures fault { IfSome result.end (KeepsAll result self.old self.new) }
        ensures code { self.new.code ≡ self.old.code }
    {
        let tree = &self.code.rows.as_slice()[self.row as usize];
        match run_row(tree, &mut self.values, &mut self.pending) {
            RowResult::Faulted { fault } => self.stop(None, End::Fault { fault }),
            RowResult::Done { printed, leaf } => self.follow(printed, leaf),
        }
    }

    /// Goes where a leaf leads to, and tells what the row printed.
    fn follow(&mut self, printed: Option<i32>, leaf: Leaf) -> Event
        requires { IsLeaf (length self.old.code.rows) leaf }
        ensures event { result ≡ event_of printed leaf }
        ensures moved { self.new ≡ moved leaf self.old }
    {
        match leaf {
            Leaf::Goto { row } => {
                self.row = row;
                Event { printed, end: None }
            }
            Leaf::Stop => self.stop(printed, End::Ended),
            Leaf::Trap { kind, line } => self.stop(printed, End::Trapped { kind, line }),
        }
    }

    /// Is over, with this end.
    fn stop(&mut self, printed: Option<i32>, end: End) -> Event
        ensures event { result ≡ record { printed = printed; end = Some end } }
        ensures over { self.new ≡ record self.old { over = true } }
    {
        self.over = true;
        Event {
            printed,
            end: Some(end),
        }
    }

    /// Runs at most `budget` cycles and sends the line of each printed number by a `send` of its
    /// own. It takes no memory.
    ///
    /// It answers the end, or `Going` where the budget is spent, once the whole text was sent. At
    /// `Write` the sink's faults rose and a proper prefix of the text was sent; the machine is then
    /// over, as after an end.
    pub fn run<O: Sink>(&mut self, budget: u64, out: &mut O) -> Result<Outcome, RunError>
        requires { self.old.over ≡ false }
        ensures outcome { IfOk result (λ outcome. end_of outcome ≡ (run_from (machine_step (code_of self.old.code)) budget (here_of self.old)).end) }
        ensures sent { OnOk result (Appends (O.taken out.old) (O.taken out.new) (text_of (run_from (machine_step (code_of self.old.code)) budget (here_of self.old)).printed)) }
        ensures stands { OnOk result (StandsAt self.new (reach (machine_step (code_of self.old.code)) budget (here_of self.old))) }
        ensures part { OnErr result (AppendsPart (O.taken out.old) (O.taken out.new) (text_of (run_from (machine_step (code_of self.old.code)) budget (here_of self.old)).printed)) }
        ensures fault { OnErr result (Rose (O.faults out.old) (O.faults out.new)) }
        ensures over { OnErr result (self.new.over ≡ true) }
        ensures counted { O.faults out.old ≤ O.faults out.new }
        ensures code { self.new.code ≡ self.old.code }
    {
        for _ in 0..budget {
            let event = self.cycle();
            if print(out, event.printed).is_err() {
                self.over = true;
                return Err(RunError::Write);
            }
            if let Some(end) = event.end {
                return Ok(Outcome::Over { end });
            }
        }
        Ok(Outcome::Going)
    }
}

/// Sends the line of a number, if there is one.
fn print<O: Sink>(out: &mut O, printed: Option<i32>) -> Result<(), Failed>
    ensures all { OnOk result (Appends (O.taken out.old) (O.taken out.new) (text_of (option_to_list printed))) }
    ensures part { OnErr result (AppendsPart (O.taken out.old) (O.taken out.new) (text_of (option_to_list printed))) }
    ensures fault { OnErr result (Rose (O.faults out.old) (O.faults out.new)) }
    ensures counted { O.faults out.old ≤ O.faults out.new }
{
    match printed {
        Some(number) => send(out, NumberLine::new(number).as_slice()),
        None => Ok(()),
    }
}
