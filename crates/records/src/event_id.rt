// Event codes of the cluster; to functions, which take every code of 16 bits, by `as u16`.
#[derive(Clone, Copy, PartialEq, Eq)]
pub enum EventId {
    SystemModeChange = 0,
    LocalTemperatureChange = 1,
    OccupancyChange = 2,
    SetpointChange = 3,
    RunningStateChange = 4,
    RunningModeChange = 5,
    ActiveScheduleChange = 6,
    ActivePresetChange = 7,
}
