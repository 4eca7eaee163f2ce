//! The commands, and the words that ask for them.

ghost use Rattle.std.specs.Prelude.{◌≡◌};
ghost use Rattle.scenario_cli.specs.Command.{command_of};

/// What the program can be asked to do.
#[derive(Clone, Copy, Debug, PartialEq, Eq)]
pub enum Command {
    /// Play the script that is read, and write its report: with a line for every entry of the journal where `with_words`
    /// is true.
    Run { with_words: bool },
}

/// The command that these words ask for: `run` and `run --words`. No other words are a command.
pub fn command_of(words: &Vec<String>) -> Option<Command>
    ensures { result ≡ command_of words.now.items }
{
    if words.is_empty() || words[0].as_str() != "run" {
        return None;
    }
    if words.len() == 1 {
        return Some(Command::Run { with_words: false });
    }
    if words.len() == 2 && words[1].as_str() == "--words" {
        return Some(Command::Run { with_words: true });
    }
    None
}
