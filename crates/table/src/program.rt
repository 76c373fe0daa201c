// A program's table, with the word at which its instructions begin, so that no step works it out anew.
ghost use Rattle.std.specs.Prelude.{◌≡◌, ◌+◌, ◌*◌, ◌<◌};
ghost use Rattle.table.specs.Table.{methods, offset_of, return_of, params_of, op_at, arg_at};

use super::words::word_at;
use std::marker::Model;

#[derive(Drop)]
pub struct Program<'a> {
    table: &'a [u16],
    start: usize,
}

impl<'a> Model for Program<'a> {
    ghost use Rattle.std.specs.Prelude.{◌≡◌, ◌+◌, ◌*◌, ◌<◌, List, ℕ};
    ghost use Rattle.table.specs.Table.{methods};

    ghost Value = { List ℕ };

    ghost view = { λ p. p.table.now };

    ghost invariant = { λ p. (p.start ≡ 2 + 20 * methods p.table.now) × (p.start < 2097152) };
}

// The op and the argument of an instruction.
#[derive(Drop)]
pub struct Instruction {
    pub op: usize,
    pub argument: u16,
}

impl<'a> Program<'a> {
    // Any words are read as a table, since a word past their end is 0.
    pub fn of(table: &'a [u16]) -> Program<'a>
        ensures { result ≡ table.now }
    {
        Program {
            table,
            start: 2 + 20 * word_at(table, 0),
        }
    }

    // The table's words.
    pub fn words(&self) -> &[u16]
        ensures { result.now ≡ self.now }
    {
        self.table
    }

    // Where the instructions begin.
    pub fn start(&self) -> usize
        ensures { result ≡ 2 + 20 * methods self.now }
    {
        self.start
    }

    // Instruction i, with one test where both its words are within the table.
    pub fn instruction(&self, i: u32) -> Instruction
        ensures { (result.op ≡ op_at self.now i) × (result.argument ≡ arg_at self.now i) }
    {
        let at = self.start + 2 * (i as usize);
        if at + 1 < self.table.len() {
            return Instruction {
                op: self.table[at] as usize,
                argument: self.table[at + 1],
            };
        }
        Instruction {
            op: word_at(self.table, at),
            argument: word_at(self.table, at + 1) as u16,
        }
    }

    // The op of instruction i, and its argument.
    pub fn op(&self, i: u32) -> usize
        ensures { result ≡ op_at self.now i }
    {
        word_at(self.table, self.start + 2 * (i as usize))
    }

    pub fn argument(&self, i: u32) -> u16
        ensures { result ≡ arg_at self.now i }
    {
        word_at(self.table, self.start + 2 * (i as usize) + 1) as u16
    }

    // The first instruction of method m.
    pub fn offset(&self, m: u32) -> usize
        ensures { (result ≡ offset_of self.now m) × (result < 65536) }
    {
        word_at(self.table, 2 + 2 * (m as usize))
    }

    // How many parameters method m has.
    pub fn params(&self, m: u16) -> u16
        ensures { result ≡ params_of self.now m }
    {
        let methods = word_at(self.table, 0);
        word_at(self.table, 2 + 2 * methods + 18 * (m as usize) + 1) as u16
    }

    // The type that method m returns, 0 for none.
    pub fn returns(&self, m: u32) -> usize
        ensures { (result ≡ return_of self.now m) × (result < 65536) }
    {
        let methods = word_at(self.table, 0);
        word_at(self.table, 2 + 2 * methods + 18 * (m as usize))
    }
}
