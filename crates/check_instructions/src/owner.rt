// The method that owns an instruction, walked along with the instructions.
ghost use Rattle.std.specs.Prelude.{◌≡◌, ◌-◌, ◌≤◌, ◌<◌};
ghost use Rattle.table.specs.Table.{instructions};
ghost use Rattle.table.proofs.Accepted.{Sizes, Pairs};
ghost use Rattle.check_instructions.specs.OwnersCode.{owner_in, owner_at};

use table::words::word_at;

// Its number, where its row starts, its first instruction, and the first after it.
#[derive(Clone, Copy)]
pub struct Owner {
    pub method: usize,
    pub row: usize,
    pub start: usize,
    pub end: usize,
}

impl Owner {
    pub fn of(p: &[u16], m: usize) -> Owner
        requires { m ≤ 32 }
        ensures { result ≡ owner_in p.now m }
    {
        let start = word_at(p, 2 + 2 * m);
        Owner {
            method: m,
            row: 2 + 2 * word_at(p, 0) + 18 * m,
            start,
            end: start + word_at(p, 3 + 2 * m),
        }
    }

    // The owner of instruction i, from that of the one before.
    pub fn at(self, p: &[u16], i: usize) -> Owner
        requires { Sizes p.now × Pairs p.now × (i < instructions p.now) × (self ≡ owner_at p.now (i - 1)) }
        ensures { result ≡ owner_at p.now i }
    {
        if i < self.end {
            return self;
        }
        Owner::of(p, self.method + 1)
    }
}
