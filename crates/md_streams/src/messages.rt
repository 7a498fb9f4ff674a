// How much standard error is told.
ghost use Rattle.std.specs.Prelude.{◌≡◌};
ghost use Rattle.md_streams.specs.Messages.{has_advice};

/// How much standard error is told of a refusal, and where a command was refused of what it did before.
#[derive(Clone, Copy, Debug, PartialEq, Eq)]
pub enum Messages {
    /// The fault, in one line.
    Plain,
    /// The fault, and then a line for people: the image that it is about, and what to do. And on which images
    /// marks were stored, what was noticed, and that what an added image held is lost.
    WithAdvice,
}

impl Messages {
    /// Whether more is told of a fault than its line.
    pub fn has_advice(self) -> bool
        ensures { result ≡ has_advice self }
    {
        match self {
            Messages::Plain => false,
            Messages::WithAdvice => true,
        }
    }
}

/// Who reads standard error: how much it is told, and whether it was shown what a command is asked of before that was done.
#[derive(Clone, Copy)]
pub struct Audience {
    pub messages: Messages,
    pub was_shown: bool,
}
