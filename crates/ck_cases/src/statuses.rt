ghost use Rattle.std.specs.Prelude.{◌≤◌};

/// How the program ends; the later ones are the worse.
#[derive(Clone, Copy, PartialEq, Eq, PartialOrd, Ord)]
pub(crate) enum Status {
    /// All lines are right.
    Right = 0,
    /// A line differs or is bad, or a file couldn't be played to its end.
    Wrong = 1,
    /// The arguments are bad, or a file can't be read.
    BadInput = 2,
}

impl Status {
    /// The status where all arguments and files could be read.
    pub(crate) fn of(is_right: bool) -> Status {
        if is_right {
            Status::Right
        } else {
            Status::Wrong
        }
    }

    /// The program's exit status.
    pub(crate) fn number(self) -> u8
        ensures { result ≤ 2 }
    {
        self as u8
    }
}
