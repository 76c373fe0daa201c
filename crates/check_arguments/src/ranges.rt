// What an op's argument may be. The limits are read from a table over the op's number and all of them are looked at, so
// that no jump depends on the op: which one comes next cannot be foreseen, and a wrong guess costs more than a few
// reads.
ghost use Rattle.std.specs.Prelude.{◌≡◌, cond, ◌%◌, ◌<◌};
ghost use Rattle.table.specs.Table.{methods, slot_type};
ghost use Rattle.table.specs.Ops.{op_of};
ghost use Rattle.table.proofs.Accepted.{Sizes};
ghost use Rattle.check_instructions.specs.OwnersCode.{owner_in};
ghost use Rattle.check_arguments.specs.LimitsCode.{limits_for, in_limits};

use check_instructions::owner::Owner;

// By the op's number: four times the first number above the arguments, and 2 where the argument is a slot, and 1 where
// it is not 0. CALL and FORK name one of `count` methods; the bound of a jump is its method's length.
pub fn limits_for(count: usize) -> [usize; 24]
    requires { count < 65536 }
    ensures { result ≡ limits_for count }
{
    let named = 4 * count;
    [
        0, 262144, 8, 66, 66, 4, 66, 4, 17, 8, 37, 4, named, 4, named, 4, 4, 0, 0, 4, 4, 4, 4, 4,
    ]
}

// x where b is true, else y.
pub fn chosen<T: Copy>(b: bool, x: T, y: T) -> T
    ensures { result ≡ cond b x y }
{
    if b { x } else { y }
}

// The type of the slot that the argument names, or of another where it is none.
fn slot_type(p: &[u16], o: Owner, a: usize) -> usize
    requires { Sizes p.now × (o ≡ owner_in p.now o.method) × (o.method < methods p.now) }
    ensures { result ≡ slot_type p.now o.method (a % 16) }
{
    let at = o.row + 2 + a % 16;
    p[at] as usize
}

// The argument is within the op's limits e.
fn in_limits(op: usize, e: usize, long: usize, a: usize, t: usize) -> bool
    ensures { result ≡ in_limits op e long a t }
{
    let bound = chosen((op == 17) | (op == 18), long, e / 4);
    (e % 2 <= a) & (a < bound) & (e / 2 % 2 <= t)
}

// Whether the argument is in range for the op, its slot used, its target inside its own method.
pub fn argument_kept(p: &[u16], limits: &[usize; 24], o: Owner, op: usize, a: usize) -> bool
    requires { Sizes p.now × (limits.now ≡ limits_for (methods p.now)) × (o ≡ owner_in p.now o.method)
        × (o.method < methods p.now) × (a < 65536) }
    ensures { result ≡ (op_of op).argument p.now o.method a }
{
    if 24 <= op {
        return false;
    }
    let t = slot_type(p, o, a);
    in_limits(op, limits[op], o.end - o.start, a, t)
}
