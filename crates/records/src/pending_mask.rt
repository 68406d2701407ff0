// The pending bits, each as a mask, and those that a message sets together: sets of bits.

pub const LOCAL_TEMPERATURE: u16 = 0x001;

pub const OCCUPIED_HEATING_SETPOINT: u16 = 0x002;

pub const OCCUPIED_COOLING_SETPOINT: u16 = 0x004;

pub const SYSTEM_MODE: u16 = 0x008;

pub const LIMITS: u16 = 0x0F0;

pub const RUNNING_STATE: u16 = 0x100;

pub const UPDATE: u16 = 0x101;

pub const EVENT_SWEEP: u16 = 0x200;
