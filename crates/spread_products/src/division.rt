// A division by z^m - 1, in place: below m an entry is negated, and from there on it is taken away from the quotient's
// entry m before.

ghost use Rattle.std.specs.Prelude.{◌≤◌, ◌≡◌};
ghost use Rattle.spread_products.specs.Quotients.{quotient_list};

use wrapped_sums::minus;

// By z - 1: each entry needs the one before it, which is carried, since what was stored a moment ago is read slowly.
fn divide_running(a: &mut [i64])
    ensures { a.new ≡ quotient_list 1 a.old }
{
    let mut carried: i64 = 0;
    for x in a.iter_mut() {
        carried = minus(carried, *x);
        *x = carried;
    }
}

pub fn divide(a: &mut [i64], m: usize)
    requires { 1 ≤ m }
    ensures { a.new ≡ quotient_list m a.old }
{
    if m == 1 {
        divide_running(a);
        return;
    }
    let low = m.min(a.len());
    for i in 0..low {
        a[i] = minus(0, a[i]);
    }
    for i in low..a.len() {
        a[i] = minus(a[i - m], a[i]);
    }
}
