// The types of the pending values. What is asked of them answers None where that is a fault.
ghost use Rattle.std.specs.Prelude.{◌≡◌, ◌≤◌, ◌<◌, ◌^◌, []};
ghost use Rattle.std.proofs.Math.Option.{some};

// No more values are pending at any time.
const MOST: usize = 8;

// The types packed in one word, the top one in the lowest byte, and their number.
#[derive(Clone, Copy)]
pub struct Pending {
    pub types: u64,
    pub count: usize,
    pub ghost few: { count ≤ 8 },
    pub ghost packed: { types < 256 ^ count },
}

impl Pending {
    ghost use Rattle.check_types.specs.PendingCode.{result_in, types_of, top_of, take_off, put_on, bared, dropped_one};

    // No value is pending.
    pub fn nothing() -> Pending
        ensures { types_of result ≡ [] }
    {
        Pending { types: 0, count: 0 }
    }

    // The top type, 0 where there is none.
    pub fn top(self) -> u64
        ensures { (result ≡ top_of (some (types_of self))) × (result < 256) }
    {
        self.types % 256
    }

    // One operand off, which must be of type t.
    pub fn off(self, t: u64) -> Option<Pending>
        requires { 1 ≤ t }
        ensures { result_in result ≡ take_off t (some (types_of self)) }
    {
        if self.types % 256 == t {
            return Some(Pending {
                types: self.types / 256,
                count: self.count - 1,
            });
        }
        None
    }

    // A value of type g on.
    pub fn on(self, g: u64) -> Option<Pending>
        requires { g < 256 }
        ensures { result_in result ≡ put_on g (some (types_of self)) }
    {
        if self.count < MOST {
            return Some(Pending {
                types: self.types * 256 + g,
                count: self.count + 1,
            });
        }
        None
    }

    // One operand of type t off, a value of type g on: one test in place of two.
    pub fn one(self, t: u64, g: u64) -> Option<Pending>
        requires { (1 ≤ t) × (g < 256) }
        ensures { result_in result ≡ put_on g (take_off t (some (types_of self))) }
    {
        if self.types % 256 == t {
            return Some(Pending {
                types: self.types / 256 * 256 + g,
                count: self.count,
            });
        }
        None
    }

    // Two ints off, a value of type g on.
    pub fn two(self, g: u64) -> Option<Pending>
        requires { g < 256 }
        ensures { result_in result ≡ put_on g (take_off 1 (take_off 1 (some (types_of self)))) }
    {
        if self.types % 65536 == 257 {
            return Some(Pending {
                types: self.types / 65536 * 256 + g,
                count: self.count - 1,
            });
        }
        None
    }

    // A value of any type off, and nothing may be left.
    pub fn dropped(self) -> Option<Pending>
        ensures { result_in result ≡ dropped_one (some (types_of self)) }
    {
        if self.count == 1 {
            return Some(Pending::nothing());
        }
        None
    }

    // Nothing may be pending.
    pub fn bare(self) -> Option<Pending>
        ensures { result_in result ≡ bared (some (types_of self)) }
    {
        if self.count == 0 {
            return Some(self);
        }
        None
    }
}
