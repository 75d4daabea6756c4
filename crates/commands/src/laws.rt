// The law of commands.
ghost use Rattle.commands.specs.Orders.{CommandsReadBack};

// Exactly the texts of commands are read as commands.
pub fn commands_read_back()
    ensures { CommandsReadBack }
{}
