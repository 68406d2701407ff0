// Attribute codes of the cluster. Functions take every code of 16 bits, so an attribute goes to them by `as u16`.
#[derive(Clone, Copy, PartialEq, Eq)]
pub enum AttributeId {
    LocalTemperature = 0x00,
    AbsMinHeatSetpointLimit = 0x03,
    AbsMaxHeatSetpointLimit = 0x04,
    AbsMinCoolSetpointLimit = 0x05,
    AbsMaxCoolSetpointLimit = 0x06,
    OccupiedCoolingSetpoint = 0x11,
    OccupiedHeatingSetpoint = 0x12,
    MinHeatSetpointLimit = 0x15,
    MaxHeatSetpointLimit = 0x16,
    MinCoolSetpointLimit = 0x17,
    MaxCoolSetpointLimit = 0x18,
    MinSetpointDeadBand = 0x19,
    ControlSequenceOfOperation = 0x1B,
    SystemMode = 0x1C,
    ThermostatRunningMode = 0x1E,
    ThermostatRunningState = 0x29,
    SetpointChangeSource = 0x30,
    SetpointChangeAmount = 0x31,
    SetpointChangeSourceTimestamp = 0x32,
    // C-11: one notice for all attributes.
    WholeCluster = 0xFFFF,
}
