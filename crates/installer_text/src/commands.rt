ghost use Rattle.installer_text.specs.Commands.{Named};

// What a line asks of a plan file: to check it as it is, or to mark it anew.
#[derive(Clone, Copy)]
pub enum Command {
    Check,
    Mark,
}

impl Command {
    // The command that the word names, or none.
    pub fn named(word: &[u8]) -> Option<Command>
        ensures { Named word.now result }
    {
        match word {
            [b'C'] => Some(Command::Check),
            [b'M'] => Some(Command::Mark),
            _ => None,
        }
    }
}
