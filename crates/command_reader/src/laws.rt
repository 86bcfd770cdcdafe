//! What holds of the definitions alone.
ghost use Rattle.std.specs.Prelude.{◌≡◌, Ok};
ghost use Rattle.serde_json.specs.Written.{compact_text};
ghost use Rattle.command_reader.specs.Answer.{answer_to};
ghost use Rattle.command_reader.specs.Facts.{IsCalled};
ghost use Rattle.command_reader.specs.Written.{written};
ghost use Rattle.command_reader.specs.declared.command.Called.{Called};

/// The compact JSON text that is written for a command is read as just this command.
pub fn commands_are_read_back()
    ensures { (called : Called) → IsCalled called
        → answer_to (compact_text (written called)) ≡ Ok called }
{}
