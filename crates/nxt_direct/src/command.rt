// The commands and their numbers.

ghost use Rattle.std.specs.Prelude.{◌≡◌, option_map};
ghost use Rattle.nxt_model.specs.DirectCommands.{command_of};
ghost use Rattle.nxt_direct.specs.Commands.{command_meant};

/// A direct command (LEGO MINDSTORMS NXT Bluetooth Developer Kit, Appendix 2, "Direct Commands").
#[derive(Clone, Copy)]
pub(crate) enum Command {
    /// STARTPROGRAM.
    StartProgram,
    /// STOPPROGRAM.
    StopProgram,
    /// PLAYTONE.
    PlayTone,
    /// SETOUTPUTSTATE.
    SetOutput,
    /// SETINPUTMODE.
    SetInput,
    /// GETOUTPUTSTATE.
    GetOutput,
    /// GETINPUTVALUES.
    GetInput,
    /// RESETINPUTSCALEDVALUE.
    ResetScaled,
    /// MESSAGEWRITE.
    WriteMessage,
    /// RESETMOTORPOSITION.
    ResetMotor,
    /// GETBATTERYLEVEL.
    GetBattery,
    /// STOPSOUNDPLAYBACK.
    StopSound,
    /// KEEPALIVE.
    KeepAlive,
    /// GETCURRENTPROGRAMNAME.
    ProgramName,
    /// MESSAGEREAD.
    ReadMessage,
}

impl Command {
    /// The command of a number, if there is one.
    pub fn from_number(number: u8) -> Option<Command>
        ensures { option_map command_meant result ≡ command_of number }
    {
        match number {
            0x00 => Some(Command::StartProgram),
            0x01 => Some(Command::StopProgram),
            0x03 => Some(Command::PlayTone),
            0x04 => Some(Command::SetOutput),
            0x05 => Some(Command::SetInput),
            0x06 => Some(Command::GetOutput),
            0x07 => Some(Command::GetInput),
            0x08 => Some(Command::ResetScaled),
            0x09 => Some(Command::WriteMessage),
            0x0A => Some(Command::ResetMotor),
            0x0B => Some(Command::GetBattery),
            0x0C => Some(Command::StopSound),
            0x0D => Some(Command::KeepAlive),
            0x11 => Some(Command::ProgramName),
            0x13 => Some(Command::ReadMessage),
            _ => None,
        }
    }
}
