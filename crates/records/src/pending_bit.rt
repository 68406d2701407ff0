// Document 01, Messages: the pending bits.
#[derive(Clone, Copy, PartialEq, Eq)]
pub enum PendingBit {
    LocalTemperature = 0,
    OccupiedHeatingSetpoint = 1,
    OccupiedCoolingSetpoint = 2,
    SystemMode = 3,
    MinHeatLimit = 4,
    MaxHeatLimit = 5,
    MinCoolLimit = 6,
    MaxCoolLimit = 7,
    RunningState = 8,
    EventSweep = 9,
}
