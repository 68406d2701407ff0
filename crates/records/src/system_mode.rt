// System modes of the cluster. A record or a call may have any byte, so they are matched as numbers. The running mode and a setpoint event take theirs from them.

pub const OFF: u8 = 0;

pub const AUTO: u8 = 1;

pub const COOL: u8 = 3;

pub const HEAT: u8 = 4;
