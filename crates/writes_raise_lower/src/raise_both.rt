// model/specs/RaiseBoth (C-14): both sides by the same amount.
ghost use Rattle.std.specs.Prelude.{◌≡◌, cond};
ghost use Rattle.units.specs.Units.{in_hundredths, plus, clamped_to, clamping};
ghost use Rattle.records.specs.Records.{zero_wide};

use crate::raise;
use limits::Side;
use records::{Config, Settings};
use units::{Clamped, Tenths, Wide};

// A side that is not there keeps its setpoint, and nothing is removed of it.
pub(crate) fn raise_if_served<S: Side>(cfg: Config, s: Settings, amount: Tenths) -> Clamped
    ensures { result ≡ cond (S.present cfg) (clamping (plus (S.stored s) (in_hundredths amount)) (S.least cfg s) (S.greatest cfg s)) (clamped_to (S.stored s) zero_wide) }
{
    if S::is_served(cfg) {
        return raise::<S>(cfg, s, amount);
    }
    Clamped {
        given: S::setpoint(s),
        removed: Wide::ZERO,
    }
}
