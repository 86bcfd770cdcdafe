//! How a run ends.
ghost use Rattle.std.specs.Prelude.{◌≡◌};
ghost use Rattle.server_shell.specs.Codes.{code_of};

/// How a run of the program ended.
#[derive(Clone, Copy, PartialEq, Eq, Drop, Debug)]
pub enum Status {
    Done,
    Usage,
    ReadFault,
    WriteFault,
    Memory,
    InputOver,
}

impl Status {
    /// The exit status of the program.
    pub fn code(self) -> u8
        ensures { result ≡ code_of self }
    {
        match self {
            Status::Done => 0,
            Status::Usage => 2,
            Status::ReadFault => 3,
            Status::WriteFault => 4,
            Status::Memory => 5,
            Status::InputOver => 6,
        }
    }
}
