// The numbers of a sound line as the values that they stand for.
ghost use Rattle.std.specs.Prelude.{◌<◌};

use crate::fields::Fields;
use records::{
    Attrs, Config, Controller, EventState, Readings, SetpointChangeState, Setpoints, Settings,
    Snapshot,
};

// The seven settings that stand from place `i` on, all 0 where no numbers stand there.
fn settings_from(f: &Fields, i: usize) -> Settings
    requires { i < 16 }
{
    Settings {
        heating: f.hundredths(i),
        cooling: f.hundredths(i + 1),
        minheat: f.hundredths(i + 2),
        maxheat: f.hundredths(i + 3),
        mincool: f.hundredths(i + 4),
        maxcool: f.hundredths(i + 5),
        mode: f.unsigned(i + 6),
    }
}

// Those of an opening or a record.
pub(crate) fn settings_of(f: &Fields) -> Settings {
    settings_from(f, 0)
}

pub(crate) fn config_of(f: &Fields) -> Config {
    Config {
        revision: f.unsigned(0),
        features: f.unsigned(1),
        attributes: f.unsigned(2),
        events: f.unsigned(3),
        commands: f.unsigned(4),
        absminheat: f.hundredths(5),
        absmaxheat: f.hundredths(6),
        absmincool: f.hundredths(7),
        absmaxcool: f.hundredths(8),
        deadband: f.tenths(9),
        sequence: f.unsigned(10),
        delta: f.hundredths(11),
        defaults: settings_from(f, 12),
    }
}

fn attributed_of(f: &Fields) -> Option<Setpoints> {
    Some(Setpoints {
        heating: f.hundredths_or_none(12)?,
        cooling: f.hundredths_or_none(13)?,
    })
}

fn change_of(f: &Fields) -> SetpointChangeState {
    SetpointChangeState {
        source: f.unsigned(9),
        amount: f.hundredths_or_none(10),
        timestamp: f.unsigned(11),
        attributed: attributed_of(f),
        armed: f.unsigned_or_none(14),
    }
}

fn snapshot_of(f: &Fields) -> Snapshot {
    Snapshot {
        temperature: f.hundredths_or_none(16),
        heating: f.hundredths(17),
        cooling: f.hundredths(18),
        mode: f.unsigned(19),
        relays: f.unsigned(20),
        runningmode: f.unsigned(21),
    }
}

pub(crate) fn record_of(f: &Fields) -> Controller {
    Controller {
        attrs: Attrs {
            settings: settings_of(f),
            dirty: f.unsigned::<u64>(7) == 1,
        },
        pending: f.unsigned(8),
        events: EventState {
            // The snapshot stands there or not.
            shadow: (16 < f.next).then(|| snapshot_of(f)),
            last: f.unsigned_or_none(15),
        },
        change: change_of(f),
    }
}

// The numbers after @, all 0 and none where that does not stand in the line.
pub(crate) fn readings_of(f: &Fields) -> Readings {
    Readings {
        relaysbefore: f.unsigned(16),
        relaysafter: f.unsigned(17),
        temperature: f.hundredths_or_none(18),
        hook: f.unsigned_or_none(19),
        node: f.unsigned_or_none(20),
        clock: f.unsigned(21),
    }
}
