// model/specs/Step and Removed: opening.
#![tactic(auto)]

ghost use Rattle.std.specs.Prelude.{◌≡◌};
ghost use Rattle.model.specs.Answers.{answer_with};
ghost use Rattle.model.specs.Removed.{opening_removed};
ghost use Rattle.model.specs.Step.{opened};

use records::{Answer, Attrs, Config, Controller, Settings};

// Validation, then repair of the given settings in a record otherwise blank.
#[tactic(auto, unfolding(model::specs::Step::opened, model::specs::Removed::opening_removed, model::specs::Validation::accepted, records::specs::Refusals::number_or, records::specs::Refusals::number))]
pub fn open(cfg: Config, settings: Settings) -> Answer
    ensures { result ≡ answer_with (opened cfg settings) (opening_removed cfg settings) }
{
    let blank = Controller::blank();
    match validation::validate(cfg) {
        Err(refusal) => answers::refuse(refusal, blank),
        Ok(()) => {
            let attrs = Attrs {
                settings: settings,
                dirty: false,
            };
            repair_records::repair_record(cfg, blank, attrs)
        }
    }
}
