// The names of calls.
use line_calls::lines;
use line_calls::lines::LineCall;
use point_calls::readings::ReadingKind;

#[derive(Clone, Copy)]
pub enum Command {
    Setup,
    Restart,
    Reading(ReadingKind),
    Table,
    Frag,
    Held,
    Line(LineCall),
}

// The call of this name.
pub fn command_of(name: &[u8]) -> Option<Command> {
    match name {
        b"bin" => Some(Command::Reading(ReadingKind::State)),
        b"ana" => Some(Command::Reading(ReadingKind::Whole)),
        b"flt" => Some(Command::Reading(ReadingKind::Float)),
        b"table" => Some(Command::Table),
        b"frag" => Some(Command::Frag),
        b"held" => Some(Command::Held),
        b"setup" => Some(Command::Setup),
        b"restart" => Some(Command::Restart),
        _ => lines::line_call_of(name).map(Command::Line),
    }
}
