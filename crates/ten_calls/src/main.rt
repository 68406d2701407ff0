// Document 01, One plant, ten calls: prints call, answer, heating, cooling.
#![tactic(auto)]

ghost use Rattle.std.specs.Prelude.{◌≡◌, ◌+◌, ◌<◌};
ghost use Rattle.ten_calls.specs.Lines.{InTable, AnswerInTable, answer_after};

use records::Answer;
use std::io;

// Prints a line of document 01's table and nothing else: a caller shows that the numbers are one.
fn print_line(rt: &impl Print, call: u64, answer: u64, heating: u64, cooling: u64) -> io::Result<()>
    requires { InTable call answer heating cooling }
{
    println!(rt; "{call} {answer} {heating} {cooling}")
}

fn print_answer(rt: &impl Print, n: u64, a: Answer) -> io::Result<()>
    requires { AnswerInTable n a }
{
    let s = a.rec.attrs.settings;
    print_line(
        rt,
        n,
        a.number.into(),
        plant::whole(s.heating),
        plant::whole(s.cooling),
    )
}

// Call i after the opening, from 0, on the record of the answer before it, which is held from the opening on: so it is sound.
// The answers are those of the definitions, whose lines are the table by the theorem `Acceptance` of model.
#[tactic(auto, using(crate::proofs::Lines::one_more, crate::proofs::Lines::removed_more, crate::proofs::Lines::sound_after))]
fn call(i: u64, before: Answer) -> Answer
    requires { (i < 9) × (before ≡ answer_after i) }
    ensures { result ≡ answer_after (i + 1) }
{
    controller::step_sound(
        plant::plant(),
        before.rec,
        plant::no_readings(),
        plant::call_at(i),
    )
}

#[tactic(auto, using(crate::proofs::Lines::in_table, crate::proofs::Lines::opens, crate::proofs::Lines::first_in_table))]
fn main(rt: HostRuntime) -> io::Result<()> {
    let mut a = opening::open(plant::plant(), plant::settings());
    print_answer(&rt, 1, a)?;
    for i in 0..9 {
        a = call(i, a);
        print_answer(&rt, i + 2, a)?;
    }
    Ok(())
}
