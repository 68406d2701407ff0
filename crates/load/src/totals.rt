// The load: calls on one record, a sweep after every 16, and what their answers sum up to.
ghost use Rattle.std.specs.Prelude.{◌≡◌, ◌+◌, ◌%◌, ◌<◌, ◌≤◌};
ghost use Rattle.load.specs.Totals.{counted, chosen_of, turned, started_of, load_of, turns_of, TotalsBounded};

use crate::draws;
use crate::draws::Drawn;
use records::{Answer, Call, Controller};

// The last seed, the record, and the totals.
#[derive(Clone, Copy)]
pub struct Load {
    pub seed: u32,
    pub rec: Controller,
    pub accepted: u64,
    pub notices: u64,
    pub orders: u64,
    pub events: u64,
}

// A sweep is no call, so it is not counted as accepted.
fn count(l: Load, sweep: bool, seed: u32, a: Answer) -> Load
    requires { TotalsBounded l × (a.notices.len ≤ 13) × (a.events.len ≤ 6) }
    ensures { result ≡ counted l sweep seed a }
{
    Load {
        seed,
        rec: a.rec,
        accepted: l.accepted + u64::from(a.number == Answer::DONE && !sweep),
        notices: l.notices + a.notices.len as u64,
        orders: l.orders + u64::from(a.order.is_some()),
        events: l.events + a.events.len as u64,
    }
}

// By the definition's two cases.
fn choose(sweep: bool, s: u32) -> Drawn
    ensures { result ≡ chosen_of sweep s }
{
    if sweep {
        Drawn {
            seed: s,
            call: Call::Sweep,
        }
    } else {
        draws::draw(s)
    }
}

// A drawn call or a sweep: one place alone calls the controller, so that it is compiled into the loop with the plant known.
#[tactic(auto, using(crate::proofs::Bounds::notices_most, crate::proofs::Bounds::events_most), unfolding(crate::specs::Totals::turned))]
fn turn(l: Load, sweep: bool) -> Load
    requires { TotalsBounded l }
    ensures { result ≡ turned l sweep }
{
    let d = choose(sweep, l.seed);
    let a = controller::step(plant::plant(), l.rec, plant::no_readings(), d.call);
    count(l, sweep, d.seed, a)
}

fn start(seed: u32) -> Load
    ensures { result ≡ started_of seed }
{
    Load {
        seed,
        rec: opening::open(plant::plant(), plant::settings()).rec,
        accepted: 0,
        notices: 0,
        orders: 0,
        events: 0,
    }
}

// The place in a round of 17 turns, from 0: 16 calls and their sweep.
fn next_place(place: u8) -> u8
    requires { place < 17 }
    ensures { result ≡ (place + 1) % 17 }
{
    if place == 16 {
        return 0;
    }
    place + 1
}

#[tactic(auto, using(crate::proofs::Bounds::totals_bounded), unfolding(crate::specs::Totals::load_of, crate::specs::Totals::is_sweep))]
pub(crate) fn run(count: u64, seed: u32) -> Load
    requires { count < 1000000000000000 }
    ensures { result ≡ load_of seed (turns_of count) }
{
    let mut l = start(seed);
    let mut place: u8 = 0;
    for _ in 0..count + count / 16 {
        l = turn(l, place == 16);
        place = next_place(place);
    }
    l
}
