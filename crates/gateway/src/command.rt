//! The commands of a script that are no lines of a listing.
ghost use Rattle.gateway.specs.Commands.{command_name};

use listing_words::fault::LineFault;
use listing_words::names::Named;
use listing_words::token::Cursor;

#[derive(Clone, Copy)]
pub enum Command {
    Check,
    Show,
    Numbers,
    Keep,
    Alike,
}

static COMMANDS: [Command; 5] = [
    Command::Check,
    Command::Show,
    Command::Numbers,
    Command::Keep,
    Command::Alike,
];

impl Named for Command {
    ghost spelling = { command_name };

    fn name(&self) -> &'static str {
        match *self {
            Command::Check => "check",
            Command::Show => "show",
            Command::Numbers => "numbers",
            Command::Keep => "keep",
            Command::Alike => "alike",
        }
    }

    fn all() -> &'static [Command] {
        &COMMANDS
    }
}

/// The command that a line gives, or none where its first word is no command. Nothing may stand behind a command.
pub fn read_command(line: &[u8]) -> Result<Option<Command>, LineFault> {
    let mut cursor = Cursor::new(line);
    let Some(command) = cursor.named() else {
        return Ok(None);
    };
    cursor.expect_end()?;
    Ok(Some(command))
}
