// The two kinds of polynomials, each of which the engine makes from both.

ghost use Rattle.std.specs.Prelude.{◌≡◌, true};
ghost use Rattle.definitions.specs.Numbers.{phi};
ghost use Rattle.definitions.specs.Polynomials.{degree};
ghost use Rattle.definitions.specs.Requests.{known_kind};
ghost use Rattle.definitions.specs.Second.{other_kind};
ghost use Rattle.second_engine.specs.Kinds.{kind_means};

// F and I.
#[derive(Clone, Copy)]
pub(crate) enum Kind {
    First,
    Inverse,
}

impl Kind {
    pub(crate) fn of(number: u64) -> Kind
        requires { known_kind number ≡ true }
        ensures { kind_means result ≡ number }
    {
        if number == 1 {
            Kind::First
        } else {
            Kind::Inverse
        }
    }

    pub(crate) fn number(self) -> u64
        ensures { result ≡ kind_means self }
    {
        match self {
            Kind::First => 1,
            Kind::Inverse => 2,
        }
    }

    pub(crate) fn other(self) -> Kind
        ensures { kind_means result ≡ other_kind (kind_means self) }
    {
        match self {
            Kind::First => Kind::Inverse,
            Kind::Inverse => Kind::First,
        }
    }

    // The degree of the polynomial of m, whose phi is `free`.
    pub(crate) fn degree(self, m: u64, free: u64) -> u64
        requires { free ≡ phi m }
        ensures { result ≡ degree (kind_means self) m }
    {
        match self {
            Kind::First => free,
            Kind::Inverse => m - free,
        }
    }
}
