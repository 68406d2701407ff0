// model/specs/Step: one step, by cases on the call. What runs here is what the theorem of crate claims speaks of.
#![tactic(auto)]

ghost use Rattle.std.specs.Prelude.{◌≡◌, true, None};
ghost use Rattle.model.specs.Answers.{answer_with};
ghost use Rattle.model.specs.Plans.{planned};
ghost use Rattle.model.specs.Removed.{removed, removed_when_done};
ghost use Rattle.model.specs.Sound.{sound as sound_of};
ghost use Rattle.model.specs.Step.{step as step_of, step_sound};

use records::{Answer, Call, Config, Controller, Readings, Refusal};

// The calls that are no write, by cases as in the definition. The last arm serves the control sequence, which accepts every value, and an hour that does not act: both change nothing.
#[tactic(auto, using(crate::proofs::NoWrites::changes_nothing, model::proofs::Good::sound_last_lem), unfolding(model::specs::Step::step_sound, model::specs::Removed::removed_when_done, model::specs::Writes::arm_clock))]
fn serve(cfg: Config, rec: Controller, d: Readings, call: Call) -> Answer
    requires { (sound_of cfg rec ≡ true) × (planned cfg rec.attrs.settings call ≡ None) }
    ensures { result ≡ answer_with (step_sound cfg rec d call) (removed_when_done cfg rec.attrs call) }
{
    match call {
        Call::ArmClock => answers::quiet_answer(Answer::DONE, attribution::arm_clock(cfg, d, rec)),
        Call::OutOfBand(m) => messages::out_of_band_message(cfg, rec, m),
        Call::SeedEvents => sweep::seed_events(cfg, rec, d),
        Call::Sweep => sweep::sweep(cfg, rec, d),
        Call::Timer => sweep::timer(cfg, rec, d),
        Call::Deadline => sweep_deadline::deferred_local_temperature_deadline(cfg, rec, d),
        Call::FactoryReset => factory_reset::factory_reset(cfg, rec),
        _ => answers::quiet_answer(Answer::DONE, rec),
    }
}

// For a caller that holds its record from an opening on: row 28 is not tested, since the opening and every step keep it.
pub fn step_sound(cfg: Config, rec: Controller, d: Readings, call: Call) -> Answer
    requires { sound_of cfg rec ≡ true }
    ensures { (result ≡ answer_with (step_of cfg rec d call) (removed cfg rec d call)) × (sound_of cfg result.rec ≡ true) }
{
    match writes_plans::plan(cfg, rec.attrs.settings, call) {
        None => serve(cfg, rec, d, call),
        Some(p) => writes::carry_out(cfg, d, rec, p),
    }
}

// The public entry: it tests everything, row 28 here and nowhere else. Its parameters are those of the paper, each of its own.
#[tactic(auto, using(model::proofs::Refused::unsound_refused, model::proofs::Removed::unsound_removed), unfolding(records::specs::Refusals::number))]
pub fn step(cfg: Config, rec: Controller, d: Readings, call: Call) -> Answer
    ensures { result ≡ answer_with (step_of cfg rec d call) (removed cfg rec d call) }
{
    if !sound::is_sound(cfg, rec) {
        return answers::refuse(Refusal::UnsoundRecord, rec);
    }
    step_sound(cfg, rec, d, call)
}
