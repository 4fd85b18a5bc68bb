ghost use Rattle.std.specs.Prelude.{◌≡◌};
ghost use Rattle.tb_session.specs.Commands.{is_served};

use tb_words::Command;

/// Whether this version builds what a command asks for: a plain build of the workspace.
pub fn is_served(command: &Command) -> bool
    ensures { result ≡ is_served command.now }
{
    !(command.force
        || command.clean
        || command.dry
        || command.watch
        || command.gen_number.is_some())
}
