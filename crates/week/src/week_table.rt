// model/specs/Week: the mill's week, one fixed entry for each hour from Monday 00:00.
ghost use Rattle.std.specs.Prelude.{◌≡◌, ◌<◌};
ghost use Rattle.model.specs.Week.{mill_week};

use units::Hundredths;

const HOURS: usize = 168;

pub const LAST_HOUR: usize = 167;

const COMFORT: Hundredths = Hundredths(2000);

const SETBACK: Hundredths = Hundredths(1700);

// A static: as a const, the array is copied at every look-up.
static WEEK: [Hundredths; HOURS] = [
    SETBACK, // Monday 00:00
    SETBACK, // Monday 01:00
    SETBACK, // Monday 02:00
    SETBACK, // Monday 03:00
    SETBACK, // Monday 04:00
    SETBACK, // Monday 05:00
    COMFORT, // Monday 06:00
    COMFORT, // Monday 07:00
    COMFORT, // Monday 08:00
    COMFORT, // Monday 09:00
    COMFORT, // Monday 10:00
    COMFORT, // Monday 11:00
    COMFORT, // Monday 12:00
    COMFORT, // Monday 13:00
    COMFORT, // Monday 14:00
    COMFORT, // Monday 15:00
    COMFORT, // Monday 16:00
    COMFORT, // Monday 17:00
    SETBACK, // Monday 18:00
    SETBACK, // Monday 19:00
    SETBACK, // Monday 20:00
    SETBACK, // Monday 21:00
    SETBACK, // Monday 22:00
    SETBACK, // Monday 23:00
    SETBACK, // Tuesday 00:00
    SETBACK, // Tuesday 01:00
    SETBACK, // Tuesday 02:00
    SETBACK, // Tuesday 03:00
    SETBACK, // Tuesday 04:00
    SETBACK, // Tuesday 05:00
    COMFORT, // Tuesday 06:00
    COMFORT, // Tuesday 07:00
    COMFORT, // Tuesday 08:00
    COMFORT, // Tuesday 09:00
    COMFORT, // Tuesday 10:00
    COMFORT, // Tuesday 11:00
    COMFORT, // Tuesday 12:00
    COMFORT, // Tuesday 13:00
    COMFORT, // Tuesday 14:00
    COMFORT, // Tuesday 15:00
    COMFORT, // Tuesday 16:00
    COMFORT, // Tuesday 17:00
    SETBACK, // Tuesday 18:00
    SETBACK, // Tuesday 19:00
    SETBACK, // Tuesday 20:00
    SETBACK, // Tuesday 21:00
    SETBACK, // Tuesday 22:00
    SETBACK, // Tuesday 23:00
    SETBACK, // Wednesday 00:00
    SETBACK, // Wednesday 01:00
    SETBACK, // Wednesday 02:00
    SETBACK, // Wednesday 03:00
    SETBACK, // Wednesday 04:00
    SETBACK, // Wednesday 05:00
    COMFORT, // Wednesday 06:00
    COMFORT, // Wednesday 07:00
    COMFORT, // Wednesday 08:00
    COMFORT, // Wednesday 09:00
    COMFORT, // Wednesday 10:00
    COMFORT, // Wednesday 11:00
    COMFORT, // Wednesday 12:00
    COMFORT, // Wednesday 13:00
    COMFORT, // Wednesday 14:00
    COMFORT, // Wednesday 15:00
    COMFORT, // Wednesday 16:00
    COMFORT, // Wednesday 17:00
    SETBACK, // Wednesday 18:00
    SETBACK, // Wednesday 19:00
    SETBACK, // Wednesday 20:00
    SETBACK, // Wednesday 21:00
    SETBACK, // Wednesday 22:00
    SETBACK, // Wednesday 23:00
    SETBACK, // Thursday 00:00
    SETBACK, // Thursday 01:00
    SETBACK, // Thursday 02:00
    SETBACK, // Thursday 03:00
    SETBACK, // Thursday 04:00
    SETBACK, // Thursday 05:00
    COMFORT, // Thursday 06:00
    COMFORT, // Thursday 07:00
    COMFORT, // Thursday 08:00
    COMFORT, // Thursday 09:00
    COMFORT, // Thursday 10:00
    COMFORT, // Thursday 11:00
    COMFORT, // Thursday 12:00
    COMFORT, // Thursday 13:00
    COMFORT, // Thursday 14:00
    COMFORT, // Thursday 15:00
    COMFORT, // Thursday 16:00
    COMFORT, // Thursday 17:00
    SETBACK, // Thursday 18:00
    SETBACK, // Thursday 19:00
    SETBACK, // Thursday 20:00
    SETBACK, // Thursday 21:00
    SETBACK, // Thursday 22:00
    SETBACK, // Thursday 23:00
    SETBACK, // Friday 00:00
    SETBACK, // Friday 01:00
    SETBACK, // Friday 02:00
    SETBACK, // Friday 03:00
    SETBACK, // Friday 04:00
    SETBACK, // Friday 05:00
    COMFORT, // Friday 06:00
    COMFORT, // Friday 07:00
    COMFORT, // Friday 08:00
    COMFORT, // Friday 09:00
    COMFORT, // Friday 10:00
    COMFORT, // Friday 11:00
    COMFORT, // Friday 12:00
    COMFORT, // Friday 13:00
    COMFORT, // Friday 14:00
    COMFORT, // Friday 15:00
    COMFORT, // Friday 16:00
    COMFORT, // Friday 17:00
    SETBACK, // Friday 18:00
    SETBACK, // Friday 19:00
    SETBACK, // Friday 20:00
    SETBACK, // Friday 21:00
    SETBACK, // Friday 22:00
    SETBACK, // Friday 23:00
    SETBACK, // Saturday 00:00
    SETBACK, // Saturday 01:00
    SETBACK, // Saturday 02:00
    SETBACK, // Saturday 03:00
    SETBACK, // Saturday 04:00
    SETBACK, // Saturday 05:00
    SETBACK, // Saturday 06:00
    SETBACK, // Saturday 07:00
    SETBACK, // Saturday 08:00
    SETBACK, // Saturday 09:00
    SETBACK, // Saturday 10:00
    SETBACK, // Saturday 11:00
    SETBACK, // Saturday 12:00
    SETBACK, // Saturday 13:00
    SETBACK, // Saturday 14:00
    SETBACK, // Saturday 15:00
    SETBACK, // Saturday 16:00
    SETBACK, // Saturday 17:00
    SETBACK, // Saturday 18:00
    SETBACK, // Saturday 19:00
    SETBACK, // Saturday 20:00
    SETBACK, // Saturday 21:00
    SETBACK, // Saturday 22:00
    SETBACK, // Saturday 23:00
    SETBACK, // Sunday 00:00
    SETBACK, // Sunday 01:00
    SETBACK, // Sunday 02:00
    SETBACK, // Sunday 03:00
    SETBACK, // Sunday 04:00
    SETBACK, // Sunday 05:00
    SETBACK, // Sunday 06:00
    SETBACK, // Sunday 07:00
    SETBACK, // Sunday 08:00
    SETBACK, // Sunday 09:00
    SETBACK, // Sunday 10:00
    SETBACK, // Sunday 11:00
    SETBACK, // Sunday 12:00
    SETBACK, // Sunday 13:00
    SETBACK, // Sunday 14:00
    SETBACK, // Sunday 15:00
    SETBACK, // Sunday 16:00
    SETBACK, // Sunday 17:00
    SETBACK, // Sunday 18:00
    SETBACK, // Sunday 19:00
    SETBACK, // Sunday 20:00
    SETBACK, // Sunday 21:00
    SETBACK, // Sunday 22:00
    SETBACK, // Sunday 23:00
];

#[tactic(auto, using(model::proofs::Week::entry_by_rule), unfolding(model::specs::Week::week_table))]
pub fn entry(hour: usize) -> Hundredths
    requires { hour < 168 }
    ensures { result ≡ mill_week hour }
{
    WEEK[hour]
}
