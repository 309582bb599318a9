ghost use Rattle.std.specs.Prelude.{List, [], ◌∷◌, None, OnOk, OnErr};
ghost use Rattle.std.specs.declared.option.Option.{Option};
ghost use Rattle.cast_message.specs.declared.client.Command.{Command};
ghost use Rattle.cast_session.specs.Known.{Adds};

use cast_message::Command;
use cast_types::NoMemory;

/// What takes the commands of a program, in their order.
pub trait Sink {
    // All commands that were taken, at a type that tells of them.
    ghost taken: { Self → Option (List Command) } = { λ _. None };

    /// Takes the command. `NoMemory` comes where an allocation was refused, and then nothing is
    /// taken.
    fn take(&mut self, command: Command) -> Result<(), NoMemory>
        ensures ok { OnOk result (Adds (taken self.old) (taken self.new) (command ∷ [])) }
        ensures err { OnErr result (Adds (taken self.old) (taken self.new) []) };
}
