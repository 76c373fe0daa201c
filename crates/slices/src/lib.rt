// Elements of slices of any length: a read past the end answers what the caller names for it, and a write past the end
// does nothing, so that nothing is asked of the caller.
#![tactic(auto)]

ghost use Rattle.std.specs.Prelude.{◌≡◌, slice_index_or, slice_set};

// The element at an index, `default` past the end.
pub fn at_or<T: Copy>(xs: &[T], at: usize, default: T) -> T
    ensures { result ≡ slice_index_or xs.now at default }
{
    match xs.get(at) {
        Some(x) => *x,
        None => default,
    }
}

// An element written.
pub fn put<T: Copy>(xs: &mut [T], at: usize, x: T)
    ensures { xs.new ≡ slice_set xs.old at x }
{
    if at < xs.len() {
        xs[at] = x;
    }
}
