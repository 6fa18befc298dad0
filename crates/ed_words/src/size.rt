ghost use Rattle.std.specs.Prelude.{◌≡◌, ◌↔◌, ◌<◌, IsTrue};
ghost use Rattle.ed_words.specs.Sizes.{locations, WithinIsModulo};

/// The number of locations that a machine's orders reach. The machine of 1949 had 512 (the two sizes are this project's
/// own rule).
#[derive(Clone, Copy, PartialEq, Eq)]
pub enum Size {
    /// 512 locations.
    Small,
    /// 1,024 locations.
    Full,
}

impl Size {
    /// The number of locations, 512 or 1024.
    pub fn value(self) -> u16
        ensures is { result ≡ locations self }
        ensures law { WithinIsModulo }
    {
        match self {
            Size::Small => 512,
            Size::Full => 1024,
        }
    }
}

/// Whether a number is an address, below 1024: callers test with it what the calls that take an address require.
pub fn fits(address: u16) -> bool
    ensures { IsTrue result ↔ (address < 1024) }
{
    address < 1024
}
