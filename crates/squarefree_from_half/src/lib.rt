// Inner: each `requires` is shown by `whole_from_half`. From the lower half for r to the polynomial of m, in place.

#![tactic(auto)]

ghost use Rattle.std.specs.Prelude.{◌+◌, ◌*◌, ◌-◌, ◌≤◌, ◌≡◌, cond, true, length};
ghost use Rattle.definitions.specs.Series.{firsts, alternate};
ghost use Rattle.definitions.specs.Polynomials.{polynomial, degree, I};
ghost use Rattle.definitions.specs.Numbers.{phi};
ghost use Rattle.definitions.specs.Requests.{known_kind};
ghost use Rattle.squarefree_from_half.specs.Growth.{Lower, FirstCopy};

// r odd: the upper half mirrors the lower, for I with the sign changed.
fn mirrored(a: &mut [i64], kind: u64, r: u64)
    requires { Lower kind r a.old × (length a.old ≡ degree kind r + 1) }
    ensures { a.new ≡ firsts (degree kind r + 1) (polynomial kind r) }
{
    shapes::mirror(a, kind != 1);
}

// The same, and the coefficients at odd degrees negated: F(2r), and the first copy in I(2r).
fn alternated(a: &mut [i64], kind: u64, r: u64)
    requires { Lower kind r a.old × (length a.old ≡ degree kind r + 1) }
    ensures { a.new ≡ firsts (degree kind r + 1) (alternate (polynomial kind r)) }
{
    mirrored(a, kind, r);
    shapes::alternate(a);
}

// I(2r) from its first copy, which has `top` entries: zeros up to r, and the second copy, negated, from there.
fn second_copy(a: &mut [i64], r: u64, top: usize)
    requires { FirstCopy r top a.old }
    ensures { a.new ≡ firsts (length a.old) (I (2 * r)) }
{
    let s = r as usize;
    a[top..s].fill(0);
    shapes::negated_copy(a, s);
}

// I(2r), where I(r) has `top` coefficients.
fn inverse_of_twice(a: &mut [i64], r: u64, top: usize)
    requires { Lower 2 r a.old × (top ≡ degree 2 r + 1) × (length a.old ≡ r + top) }
    ensures { a.new ≡ firsts (length a.old) (I (2 * r)) }
{
    alternated(&mut a[..top], 2, r);
    second_copy(a, r, top);
}

// The polynomial of m, which is r or, where n is even, 2 r.
pub fn of_m(a: &mut [i64], kind: u64, r: u64, free: u64, even: bool)
    requires { Lower kind r a.old × (known_kind kind ≡ true) × (free ≡ phi r) × (r ≤ 65535)
        × (length a.old ≡ degree kind (cond even (2 * r) r) + 1) }
    ensures { a.new ≡ firsts (length a.old) (polynomial kind (cond even (2 * r) r)) }
{
    if !even {
        mirrored(a, kind, r);
        return;
    }
    if kind == 1 {
        alternated(a, kind, r);
        return;
    }
    let top = (r - free + 1) as usize;
    inverse_of_twice(a, r, top);
}

// The first coefficient of F(1), F(2), I(1) and I(2).
fn first_of(kind: u64, even: bool) -> i64
    requires { known_kind kind ≡ true }
    ensures { result ≡ polynomial kind (cond even 2 1) 0 }
{
    if kind == 1 {
        if even { 1 } else { -1 }
    } else {
        if even { -1 } else { 1 }
    }
}

// F(1), F(2), I(1) and I(2): the first coefficient, and 1 as the last.
pub fn of_one_or_two(a: &mut [i64], kind: u64, even: bool)
    requires { (known_kind kind ≡ true) × (length a.old ≡ degree kind (cond even 2 1) + 1) }
    ensures { a.new ≡ firsts (length a.old) (polynomial kind (cond even 2 1)) }
{
    let last = a.len() - 1;
    let first = first_of(kind, even);
    a[0] = first;
    a[last] = 1;
}
