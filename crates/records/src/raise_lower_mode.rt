// The sides that raise/lower names. A call may have any byte.
use crate::Refusal;

#[derive(Clone, Copy, PartialEq, Eq)]
pub enum RaiseLowerMode {
    Heat = 0,
    Cool = 1,
    Both = 2,
}

impl TryFrom<u8> for RaiseLowerMode {
    type Error = Refusal;

    ghost use Rattle.records.specs.RaiseLowerModes.{Decodes};

    ghost try_from_gives = { Decodes };

    fn try_from(mode: u8) -> Result<RaiseLowerMode, Refusal> {
        match mode {
            0 => Ok(RaiseLowerMode::Heat),
            1 => Ok(RaiseLowerMode::Cool),
            2 => Ok(RaiseLowerMode::Both),
            _ => Err(Refusal::UnknownRaiseLowerMode),
        }
    }
}
