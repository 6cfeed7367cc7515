// The polynomial of m p from both polynomials of m, which stand in one slice: the other kind's first, whole, and after
// it the lower half of its own.

ghost use Rattle.std.specs.Prelude.{◌+◌, ◌*◌, ◌<◌, ◌≤◌, ◌≡◌, length};
ghost use Rattle.definitions.specs.Series.{◌·◌, spread};
ghost use Rattle.definitions.specs.Polynomials.{degree};
ghost use Rattle.definitions.specs.Steps.{entries};
ghost use Rattle.spread_products.specs.Rows.{Made};
ghost use Rattle.second_engine.specs.Kinds.{kind_means};
ghost use Rattle.second_engine.specs.Halves.{Half, HalfFrom, Filled, Joining, divided};

use crate::kind::Kind;
use answers::negates;
use shapes::mirror;
use spread_products::{divide, times_spread};

// From the lower half that stands at `from` to the whole polynomial of m.
pub(crate) fn fill(b: &mut [i64], from: usize, to: usize, kind: Kind, m: u64)
    requires m_nonzero { (0 < m) × (m ≤ 65535) × (to ≡ from + (degree (kind_means kind) m + 1)) × (to ≤ length b.old) }
    requires half_from { HalfFrom from (kind_means kind) m b.old }
    ensures { Filled from to (kind_means kind) m b.old b.new }
{
    mirror(&mut b[from..to], negates(kind.number(), m));
}

// f, with z^p for z, times g, and for F a division by z^m - 1.
fn product(a: &mut [i64], f: &[i64], g: &[i64], kind: Kind, m: u64, p: u64)
    requires { (1 ≤ m) × (1 ≤ p) × (p ≤ 65535) }
    ensures { Made (divided (kind_means kind) m (spread p (entries f.now) · entries g.now)) a.new }
{
    times_spread(a, f, g, p as usize);
    if let Kind::First = kind {
        divide(a, m as usize);
    }
}

// F(m), with z^p for z, times I(m), divided by z^m - 1; or I(m), with z^p for z, times F(m).
pub(crate) fn join(a: &mut [i64], b: &mut [i64], kind: Kind, m: u64, below: u64, p: u64)
    requires { Joining (kind_means kind) m below p a.old b.old }
    ensures { Half (kind_means kind) (m * p) a.new }
{
    let whole = kind.other().degree(m, below) as usize + 1;
    let end = m as usize + 2;
    fill(b, whole, end, kind, m);
    let size = kind.degree(m * p, below * (p - 1)) as usize / 2 + 1;
    let (other, own) = b[..end].split_at(whole);
    product(&mut a[..size], own, other, kind, m, p);
}
