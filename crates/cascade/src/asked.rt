// The list that is asked for: whether its indices are good, and how long the product and the longest factor are.
ghost use Rattle.std.specs.Prelude.{◌≤◌, length};
ghost use Rattle.cascade.specs.Asked.{SizesAre};

// The total degree, and that of the longest factor.
#[derive(Clone, Copy)]
pub(crate) struct Sizes {
    pub total: u64,
    pub longest: u64,
}

// None where an index is not good.
pub(crate) fn sizes_of(indices: &[u64]) -> Option<Sizes>
    requires { length indices.now ≤ 8 }
    ensures { SizesAre indices.now result }
{
    let mut total: u64 = 0;
    let mut longest: u64 = 0;
    for n in indices {
        if !answers::good_index(*n) {
            return None;
        }
        let phi = index::degree_of(1, *n);
        total += phi;
        longest = longest.max(phi);
    }
    Some(Sizes { total, longest })
}
