//! How a file will be used.
ghost use Rattle.std.specs.Prelude.{◌≡◌};
ghost use Rattle.wasi_p2_types.specs.Advices.{advice_named};

/// How a file will be used: preview2's `advice`.
#[derive(Clone, Copy, Debug, PartialEq, Eq)]
pub enum Advice {
    Normal,
    Sequential,
    Random,
    WillNeed,
    DontNeed,
    NoReuse,
}

/// The advice of the same name.
impl From<Advice> for wasi_host::Advice {
    ghost from_gives = { λ advice named. named ≡ advice_named advice };

    fn from(advice: Advice) -> Self {
        match advice {
            Advice::Normal => wasi_host::Advice::Normal,
            Advice::Sequential => wasi_host::Advice::Sequential,
            Advice::Random => wasi_host::Advice::Random,
            Advice::WillNeed => wasi_host::Advice::WillNeed,
            Advice::DontNeed => wasi_host::Advice::DontNeed,
            Advice::NoReuse => wasi_host::Advice::NoReuse,
        }
    }
}
