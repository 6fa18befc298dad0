ghost use Rattle.std.specs.Prelude.{◌≡◌, ◌==◌};
ghost use Rattle.ed_syntax.specs.Versions.{is_second};

use ed_lines::Program;

/// A version of the source language.
#[derive(Clone, Copy)]
pub enum Version {
    One,
    Two,
}

impl Version {
    /// The version of a program.
    pub fn of(program: &Program) -> Version
        ensures { is_second result ≡ (program.now.version == 2) }
    {
        if program.version == 2 {
            Version::Two
        } else {
            Version::One
        }
    }

    /// Whether it is version 2.
    pub fn is_two(self) -> bool
        ensures { result ≡ is_second self }
    {
        match self {
            Version::One => false,
            Version::Two => true,
        }
    }
}
