// Who is asked while a line says how far a command is.
ghost use Rattle.std.specs.Prelude.{◌≡◌, IfSome};
ghost use Rattle.md_streams.specs.Terminal.{answer_unasked, are_put};

use crate::person::Person;
use crate::progress::Progress;
use md_files::Line;
use md_streams::Asker;

/// The person who is asked before a command overwrites what perhaps should stay. The line of progress goes before that.
#[derive(Drop)]
pub struct Prompt<'a> {
    rt: &'a HostRuntime,
    progress: &'a Progress<'a>,
    person: Person,
}

impl<'a> Prompt<'a> {
    pub fn new(rt: &'a HostRuntime, progress: &'a Progress<'a>, person: Person) -> Prompt<'a> {
        Prompt {
            rt,
            progress,
            person,
        }
    }
}

impl<'a> Asker for Prompt<'a> {
    ghost shows = { λ p. are_put p.person.questions };

    ghost told_first = { λ p. p.person.is_err_shown };

    // No contract says what a terminal gives; but where nobody is asked, the answer is the one that stands for that.
    ghost asks = { λ old new _ goes_on.
        (new ≡ old) × IfSome (answer_unasked old.person.questions) (λ answer. goes_on ≡ answer) };

    fn is_there(&self) -> bool {
        self.person.is_there()
    }

    fn is_told_first(&self) -> bool {
        self.person.is_err_shown()
    }

    fn goes_on(&mut self, lines: &[u8]) -> bool {
        self.progress.clear();
        self.person.goes_on(self.rt, lines)
    }
}
