ghost use Rattle.std.specs.Prelude.{◌≡◌};
ghost use Rattle.ck_foreign.specs.Outcomes.{outcome_number};

/// What comes of a call that C asks for, or of the text of a reply.
#[derive(Clone, Copy)]
pub enum Outcome {
    /// The call was answered and stands in the journal, or the text was made.
    Answered,
    /// The line is empty, a comment or a bad one, or no call was given.
    NoCall,
    /// There was no memory for it.
    NoMemory,
}

impl Outcome {
    /// The number that C knows it by.
    pub fn number(self) -> u32
        ensures { result ≡ outcome_number self }
    {
        match self {
            Outcome::Answered => 0,
            Outcome::NoCall => 1,
            Outcome::NoMemory => 2,
        }
    }
}
