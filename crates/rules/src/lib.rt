// The rules: what document 01 fixes and later requests vary. What a link is opened as is chosen here, and why a copy is given up is
// named; the numbers of sending (section 5) are definitions alone, which the other crates' definitions take as a parameter.
#![tactic(auto)]

ghost use Rattle.std.specs.Prelude.{◌≡◌};
ghost use Rattle.rules.specs.Rules.{is_module, usual};

// Which end of the line a link is: the host, or the stand-in for a module.
#[derive(Clone, Copy, Debug, PartialEq, Eq)]
pub enum Role {
    Host,
    Module,
}

impl Role {
    // Whether it is the stand-in.
    #[inline]
    pub fn is_module(self) -> bool
        ensures { result ≡ is_module self }
    {
        matches!(self, Role::Module)
    }
}

// How a copy that was lost in silence is repeated (document 02, P4): sooner, or spaced as document 01 has it.
#[derive(Clone, Copy, Debug, PartialEq, Eq)]
pub enum Mode {
    Sooner,
    Spaced,
}

// Why a copy is given up: 15 or 18 came, or its wait ran out.
#[derive(Clone, Copy, Debug, PartialEq, Eq)]
pub enum Cause {
    Told,
    Time,
}

// What opening chooses, and every call keeps; a restart too.
#[derive(Clone, Copy, Debug, PartialEq, Eq)]
pub struct Choice {
    pub role: Role,
    pub mode: Mode,
}

impl Choice {
    // That of a link opened without a choice: the host, in the new mode.
    pub fn usual() -> Self
        ensures { result ≡ usual }
    {
        Choice {
            role: Role::Host,
            mode: Mode::Sooner,
        }
    }
}
