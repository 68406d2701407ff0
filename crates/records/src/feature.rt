// Feature bits of the cluster: a configuration has a set of them.

// HEAT
pub const HEATING: u32 = 0x001;

// COOL
pub const COOLING: u32 = 0x002;

// AUTO
pub const AUTO_MODE: u32 = 0x020;

// LTNE
pub const LOCAL_TEMPERATURE_NOT_EXPOSED: u32 = 0x040;

// TEVT
pub const EVENTS: u32 = 0x200;

// The five together.
pub const SUPPORTED_FEATURES: u32 = 0x263;
