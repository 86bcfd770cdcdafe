//! The mode of a grammar.
ghost use Rattle.std.specs.Prelude.{◌≡◌};
ghost use Rattle.vg_base.specs.Declarations.{mode_name};

/// What a grammar's tokens stand for: spoken words, or keys of a telephone (SRGS 1.0, section 4.6).
#[derive(Clone, Copy, Debug, PartialEq, Eq)]
pub enum Mode {
    Voice,
    Dtmf,
}

impl Mode {
    /// The mode's name in a `mode` declaration.
    pub fn name(self) -> &'static str
        ensures { result.now ≡ mode_name self }
    {
        match self {
            Mode::Voice => "voice",
            Mode::Dtmf => "dtmf",
        }
    }
}
