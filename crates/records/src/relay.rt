// Relay bits, which are read as sets: heat 0x01 and 0x08, cool 0x02 and 0x10, fan 0x04, 0x20 and 0x40.

pub const HEAT_STAGES: u16 = 0x09;

pub const COOL_STAGES: u16 = 0x12;

pub const FAN_STAGES: u16 = 0x64;
