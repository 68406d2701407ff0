// specs/NoticeTable: the fixed notice table in ten bytes (document 02, C-17).
ghost use Rattle.std.specs.Prelude.{◌≡◌};
ghost use Rattle.sweep_notices.specs.NoticeTable.{bit_of, row_of};

use records::{AttributeId, NoticeRow, PendingBit};

pub const ROWS: usize = 10;

// The attributes that pending bits report, in ascending order; a byte holds each code.
pub const PENDING_ATTRS: [u8; ROWS] = [
    AttributeId::LocalTemperature as u8,
    AttributeId::OccupiedCoolingSetpoint as u8,
    AttributeId::OccupiedHeatingSetpoint as u8,
    AttributeId::MinHeatSetpointLimit as u8,
    AttributeId::MaxHeatSetpointLimit as u8,
    AttributeId::MinCoolSetpointLimit as u8,
    AttributeId::MaxCoolSetpointLimit as u8,
    AttributeId::SystemMode as u8,
    AttributeId::ThermostatRunningMode as u8,
    AttributeId::ThermostatRunningState as u8,
];

// The pending bit of a code, by tests: a match can be compiled to a table of its own.
#[tactic(auto, unfolding(crate::specs::NoticeTable::bit_of))]
fn bit_of(code: u16) -> u16
    ensures { result ≡ bit_of code }
{
    if code > AttributeId::SystemMode as u16 {
        return PendingBit::RunningState as u16;
    }
    if code > AttributeId::MaxCoolSetpointLimit as u16 {
        return PendingBit::SystemMode as u16;
    }
    if code > AttributeId::OccupiedHeatingSetpoint as u16 {
        return code + PendingBit::MinHeatLimit as u16 - AttributeId::MinHeatSetpointLimit as u16;
    }
    if code > AttributeId::LocalTemperature as u16 {
        return AttributeId::OccupiedHeatingSetpoint as u16
            + PendingBit::OccupiedHeatingSetpoint as u16
            - code;
    }
    PendingBit::LocalTemperature as u16
}

// The row of a stored code.
pub fn row_of(stored: u8) -> NoticeRow
    ensures { result ≡ row_of stored }
{
    let code = stored as u16;
    let bit = bit_of(code);
    NoticeRow {
        bit: bit,
        code: code,
    }
}
