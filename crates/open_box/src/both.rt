//! Two values are taken out of their places at once, and others are put back.

/// Takes both values out for `f`, and leaves in their places what `f` gives back, as `std::mem::replace_with` does with
/// one. `x` goes to `f` too. Nothing unwinds, so no one meets the places while they are empty.
pub fn replace_both<T, U, X, R, F: FnOnce(T, U, X) -> (T, U, R)>(
    first: &mut T,
    second: &mut U,
    x: X,
    f: F,
) -> R
    requires { F.pre f first.old second.old x }
    ensures { F.post f first.old second.old x (first.new, second.new, result) }
{
    let p = first as *mut T;
    let q = second as *mut U;
    unsafe {
        let (new_first, new_second, r) = f(p.read(), q.read(), x);
        p.write(new_first);
        q.write(new_second);
        r
    }
}
