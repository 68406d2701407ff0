// model/specs/Sweep: which changes since the snapshot are emitted, their events in order, and how far the snapshot moves.
#![tactic(auto)]

ghost use Rattle.std.specs.Prelude.{◌≡◌, [], ◌∷◌};
ghost use Rattle.model.specs.Answers.{only_if, emit_all, packed_events};
ghost use Rattle.model.specs.Sweep as spec;

use records::{Config, Event, EventId, EventState, Events, Snapshot, system_mode};

// Which changes are emitted, in the order of their events.
#[derive(Clone, Copy)]
pub struct Emitted {
    pub mode: bool,
    pub temperature: bool,
    pub cooling: bool,
    pub heating: bool,
    pub relays: bool,
    pub runningmode: bool,
}

// Snapshots, last and now stay parameters, as in the definitions: no record holds them together.
#[tactic(auto, using(units::proofs::Comparisons::same), unfolding(model::specs::Sweep::mode_emitted, model::specs::Sweep::temperature_emitted, model::specs::Sweep::cooling_emitted, model::specs::Sweep::heating_emitted, model::specs::Sweep::relays_emitted, model::specs::Sweep::running_mode_emitted))]
pub fn emitted_events(
    cfg: Config,
    old: Snapshot,
    new: Snapshot,
    last: Option<u64>,
    now: u64,
) -> Emitted
    ensures { result ≡ record { mode = spec.mode_emitted cfg old new; temperature = spec.temperature_emitted cfg old new last now; cooling = spec.cooling_emitted cfg old new; heating = spec.heating_emitted cfg old new; relays = spec.relays_emitted cfg old new; runningmode = spec.running_mode_emitted cfg old new } }
{
    let setpoints = served::emits(cfg, EventId::SetpointChange as u16);
    Emitted {
        mode: served::emits(cfg, EventId::SystemModeChange as u16) && old.mode != new.mode,
        temperature: served::emits(cfg, EventId::LocalTemperatureChange as u16)
            && temperature::local_temperature_event_due(
                old.temperature,
                new.temperature,
                cfg.delta,
                last,
                now,
            ),
        cooling: setpoints && served::cools(cfg) && old.cooling != new.cooling,
        heating: setpoints && served::heats(cfg) && old.heating != new.heating,
        relays: served::emits(cfg, EventId::RunningStateChange as u16) && old.relays != new.relays,
        runningmode: served::emits(cfg, EventId::RunningModeChange as u16)
            && old.runningmode != new.runningmode,
    }
}

#[tactic(auto, using(model::proofs::Packing::emit_none, model::proofs::Packing::emit_one), unfolding(model::specs::Answers::only_if, model::specs::Answers::emit))]
fn emit_if(es: Events, t: bool, e: Event) -> Events
    ensures { result ≡ emit_all es (only_if t (e ∷ [])) }
{
    if t {
        return answers::emit(es, Some(e));
    }
    es
}

// In the order mode, temperature, cooling, heating, relays, running mode. Inlined, as in `sweep_take_events`.
#[tactic(auto, using(model::proofs::Packing::emit_all_append), unfolding(model::specs::Sweep::events_of, model::specs::Answers::packed_events))]
#[inline(always)]
pub fn events_of(cfg: Config, old: Snapshot, new: Snapshot, last: Option<u64>, now: u64) -> Events
    ensures { result ≡ packed_events (spec.events_of cfg old new last now) }
{
    let emitted = emitted_events(cfg, old, new, last, now);
    let es = emit_if(
        Events::none(),
        emitted.mode,
        Event::SystemModeChange(old.mode, new.mode),
    );
    let es = emit_if(
        es,
        emitted.temperature,
        Event::LocalTemperatureChange(new.temperature),
    );
    let es = emit_if(
        es,
        emitted.cooling,
        Event::SetpointChange(system_mode::COOL, old.cooling, new.cooling),
    );
    let es = emit_if(
        es,
        emitted.heating,
        Event::SetpointChange(system_mode::HEAT, old.heating, new.heating),
    );
    let es = emit_if(
        es,
        emitted.relays,
        Event::RunningStateChange(old.relays, new.relays),
    );
    emit_if(
        es,
        emitted.runningmode,
        Event::RunningModeChange(old.runningmode, new.runningmode),
    )
}

// Only what was emitted moves, except that both setpoints move whenever SetpointChange is served.
#[tactic(auto, unfolding(model::specs::Sweep::committed))]
pub fn commit(cfg: Config, old: Snapshot, new: Snapshot, last: Option<u64>, now: u64) -> EventState
    ensures { result ≡ spec.committed cfg old new last now }
{
    let emitted = emitted_events(cfg, old, new, last, now);
    let setpoints = served::emits(cfg, EventId::SetpointChange as u16);
    EventState {
        shadow: Some(Snapshot {
            temperature: if emitted.temperature {
                new.temperature
            } else {
                old.temperature
            },
            heating: if setpoints { new.heating } else { old.heating },
            cooling: if setpoints { new.cooling } else { old.cooling },
            mode: if emitted.mode { new.mode } else { old.mode },
            relays: if emitted.relays {
                new.relays
            } else {
                old.relays
            },
            runningmode: if emitted.runningmode {
                new.runningmode
            } else {
                old.runningmode
            },
        }),
        last: if emitted.temperature { Some(now) } else { last },
    }
}
