// Control sequences of the cluster. A configuration may have any byte, so they are matched as numbers.

pub const COOLING_ONLY: u8 = 0;

pub const COOLING_WITH_REHEAT: u8 = 1;

pub const HEATING_ONLY: u8 = 2;

pub const HEATING_WITH_REHEAT: u8 = 3;

pub const COOLING_AND_HEATING: u8 = 4;

pub const COOLING_AND_HEATING_WITH_REHEAT: u8 = 5;
