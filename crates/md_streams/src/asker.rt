// Who is asked before a command goes on.
ghost use Rattle.std.specs.Prelude.{◌≡◌, ℕ, Bool, List};

/// Who is asked before a command overwrites what perhaps should stay.
pub trait Asker {
    /// Whether lines are shown to somebody, or the command is refused because nobody can be asked.
    ghost shows: { Self → Bool };

    /// Whether lines are shown on standard error. Then they are not shown there again after the command.
    ghost told_first: { Self → Bool };

    /// The asker before one question and after it, the lines of the question, and the answer: whether the command
    /// goes on. Only `goes_on` says it, and only for one question. So if a contract says it, there was exactly one question.
    ghost asks: { Self → Self → List ℕ → Bool → Type 0 };

    /// Whether to ask. If not, the command goes on, whatever the lines are.
    fn is_there(&self) -> bool
        ensures { result ≡ shows self.now };

    /// Whether lines are shown on standard error.
    fn is_told_first(&self) -> bool
        ensures { result ≡ told_first self.now };

    /// Shows these lines, and asks whether to go on. If there is nothing to ask the answer is yes; if nobody can be asked it is no.
    fn goes_on(&mut self, lines: &[u8]) -> bool
        ensures { asks self.old self.new lines.now result };
}
