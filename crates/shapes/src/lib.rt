// Inner: each `requires` is shown by the callers `squarefree_from_half` and `whole_from_half`. The passes that give a
// polynomial its shape, in place: clearing, the upper half, the signs and the second copy of an even index, and z^t for
// z. Each works on a slice that is just as long as what it makes.

#![tactic(auto)]

ghost use Rattle.std.specs.Prelude.{◌+◌, ◌*◌, ◌-◌, ◌/◌, ◌≤◌, ◌≡◌, length};
ghost use Rattle.definitions.specs.Series.{firsts, alternate, spread};
ghost use Rattle.definitions.specs.Steps.{entries};
ghost use Rattle.definitions.specs.Requests.{zeros};
ghost use Rattle.definitions.specs.Halves.{mirrored_up};
ghost use Rattle.shapes.specs.Shapes.{InRange, negated_copy};

// All entries 0.
pub fn clear(a: &mut [i64])
    ensures { a.new ≡ zeros (length a.old) }
{
    a.fill(0);
}

// The upper half from the lower: entry N - i is entry i, or its negative.
// Stays a bool: callers compute it (`negates`), and the compiler asks for it once, before the loop.
pub fn mirror(a: &mut [i64], negate: bool)
    requires { InRange ((length a.old + 1) / 2) a.old }
    ensures { a.new
        ≡ firsts (length a.old) (mirrored_up negate (length a.old) (entries a.old)) }
{
    let n = a.len();
    for i in (n + 1) / 2..n {
        let x = a[n - 1 - i];
        a[i] = if negate { -x } else { x };
    }
}

// The entries at odd places negated.
pub fn alternate(a: &mut [i64])
    requires { InRange (length a.old) a.old }
    ensures { a.new ≡ firsts (length a.old) (alternate (entries a.old)) }
{
    for k in 0..a.len() / 2 {
        a[2 * k + 1] = -a[2 * k + 1];
    }
}

// From r on, the negatives of the entries r before.
pub fn negated_copy(a: &mut [i64], r: usize)
    requires { InRange (length a.old - r) a.old × (1 ≤ r) × (r ≤ length a.old) × (length a.old ≤ r + r) }
    ensures { a.new ≡ firsts (length a.old) (negated_copy r (entries a.old)) }
{
    for i in r..a.len() {
        a[i] = -a[i - r];
    }
}

// z^t for z: the entries 0, 1, .. go to 0, t, .. with zeros between, from the top down, so that none is overwritten
// before it is moved. What lies above them is cleared first, at once, and an entry's own place when it is moved: before
// the entry is put, since for t = 1 it stays where it is.
pub fn spread(a: &mut [i64], top: usize, t: usize)
    requires { (1 ≤ t) × (length a.old ≡ top * t + 1) }
    ensures { a.new ≡ firsts (length a.old) (spread t (entries a.old)) }
{
    a[top + 1..].fill(0);
    for i in (1..top + 1).rev() {
        let x = a[i];
        a[i] = 0;
        a[i * t] = x;
    }
}
