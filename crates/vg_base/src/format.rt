//! The format of the tags of a grammar.
ghost use Rattle.std.specs.Prelude.{◌≡◌};
ghost use Rattle.vg_base.specs.Declarations.{format_name};

/// How a grammar's tags are read: as scripts, or as the text of the value (SISR 1.0, tag formats; SRGS 1.0, section 4.8).
#[derive(Clone, Copy, Debug, PartialEq, Eq)]
pub enum Format {
    Script,
    Literal,
}

impl Format {
    /// The format's name in a `tag-format` declaration.
    pub fn name(self) -> &'static str
        ensures { result.now ≡ format_name self }
    {
        match self {
            Format::Script => "semantics/1.0",
            Format::Literal => "semantics/1.0-literals",
        }
    }
}
