// What a line of its form asks for.
use crate::fields::Fields;
use crate::forms::Form;
use crate::{Line, values};
use records::{Call, OutOfBandMessage};

pub(crate) fn line_of(f: &Fields) -> Line {
    let h = f.hundredths(0);
    let b: u8 = f.unsigned(0);
    let call = match f.form {
        Form::Config => return Line::Config(values::config_of(f)),
        Form::Open => return Line::Open(values::settings_of(f), values::readings_of(f)),
        Form::Record => return Line::Record(values::record_of(f)),
        Form::Heat => Call::WriteOccupiedHeatingSetpoint(h),
        Form::Cool => Call::WriteOccupiedCoolingSetpoint(h),
        Form::MinHeat => Call::WriteMinHeatSetpointLimit(h),
        Form::MaxHeat => Call::WriteMaxHeatSetpointLimit(h),
        Form::MinCool => Call::WriteMinCoolSetpointLimit(h),
        Form::MaxCool => Call::WriteMaxCoolSetpointLimit(h),
        Form::Mode => Call::WriteSystemMode(b),
        Form::Sequence => Call::SetControlSequenceOfOperation(b),
        Form::Raise => Call::RaiseLowerSetpoint(b, f.tenths(1)),
        Form::Arm => Call::ArmClock,
        Form::Start => Call::SeedEvents,
        Form::Sweep => Call::Sweep,
        Form::Timer => Call::Timer,
        Form::Deadline => Call::Deadline,
        Form::OobHeat => Call::OutOfBand(OutOfBandMessage::OccupiedHeatingSetpoint(h)),
        Form::OobCool => Call::OutOfBand(OutOfBandMessage::OccupiedCoolingSetpoint(h)),
        Form::OobMode => Call::OutOfBand(OutOfBandMessage::SystemMode(b)),
        Form::OobLimits => Call::OutOfBand(OutOfBandMessage::SetpointLimits(
            h,
            f.hundredths(1),
            f.hundredths(2),
            f.hundredths(3),
        )),
        Form::OobTemp => Call::OutOfBand(OutOfBandMessage::LocalTemperature),
        Form::OobRunning => Call::OutOfBand(OutOfBandMessage::RunningState),
        Form::OobUpdate => Call::OutOfBand(OutOfBandMessage::Update),
        Form::Reset => Call::FactoryReset,
        Form::Hour => Call::Hour(b),
    };
    Line::Call(call, values::readings_of(f))
}
