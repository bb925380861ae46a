ghost use Rattle.std.specs.Prelude.{◌≡◌};

/// How a run ends.
#[derive(Debug, Drop, Clone, Copy, PartialEq, Eq)]
pub enum Status {
    Done,
    Refused,
    Words,
    Files,
    Output,
    Memory,
    Limit,
}

impl Status {
    ghost use Rattle.exportdata_cmd.specs.Exits.{exit_code};

    /// The exit status of the program.
    pub fn code(self) -> u8
        ensures { result ≡ exit_code self }
    {
        match self {
            Status::Done => 0,
            Status::Refused => 1,
            Status::Words => 2,
            Status::Files => 3,
            Status::Output => 4,
            Status::Memory => 5,
            Status::Limit => 6,
        }
    }
}
