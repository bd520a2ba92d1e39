//! What a FLOW_MOD does.

ghost use Rattle.std.specs.Prelude.{◌≡◌, ◌<◌, MatchOption};
ghost use Rattle.of_msgs.specs.declared.command.Command.TheVariants.{DeleteStrict};
ghost use Rattle.of_msgs.specs.FlowMods.{command_number};

/// What a FLOW_MOD does to the flow table (OpenFlow 1.0.0, modify flow entry message).
#[derive(Clone, Copy, Debug, PartialEq, Eq)]
pub enum Command {
    /// Adds an entry, in place of one with the same match and priority.
    Add,
    /// Changes the actions of all entries that the match covers, or adds one.
    Modify,
    /// Changes the actions of the entry with this match and priority, or adds it.
    ModifyStrict,
    /// Deletes all entries that the match covers.
    Delete,
    /// Deletes the entry with this match and priority.
    DeleteStrict,
}

/// The command of this number.
pub(crate) fn command_of(number: u16) -> Option<Command>
    ensures { MatchOption result (command_number DeleteStrict < number) (λ command. command_number command ≡ number) }
{
    match number {
        0 => Some(Command::Add),
        1 => Some(Command::Modify),
        2 => Some(Command::ModifyStrict),
        3 => Some(Command::Delete),
        4 => Some(Command::DeleteStrict),
        _ => None,
    }
}

/// The number of a command.
pub(crate) fn number_of(command: Command) -> u16
    ensures { result ≡ command_number command }
{
    match command {
        Command::Add => 0,
        Command::Modify => 1,
        Command::ModifyStrict => 2,
        Command::Delete => 3,
        Command::DeleteStrict => 4,
    }
}
