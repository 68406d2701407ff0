// Who changed a setpoint.
#[derive(Clone, Copy, PartialEq, Eq)]
pub enum ChangeSource {
    Manual = 0,
    Schedule = 1,
    External = 2,
}
