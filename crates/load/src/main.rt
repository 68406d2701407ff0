// A drawn load on document 01's plant, to count what a call costs: prints the settings at the end, and the totals.
#![tactic(auto)]

mod arguments;
mod draws;
mod totals;

use records::Settings;
use std::io;
use totals::Load;

fn print_settings(rt: &impl Print, s: Settings) -> io::Result<()> {
    print!(rt;
        "settings {} {} {} {} {} {} {}",
        plant::whole(s.heating),
        plant::whole(s.cooling),
        plant::whole(s.minheat),
        plant::whole(s.maxheat),
        plant::whole(s.mincool),
        plant::whole(s.maxcool),
        s.mode
    )
}

fn print(rt: &impl Print, l: Load) -> io::Result<()> {
    print_settings(rt, l.rec.attrs.settings)?;
    println!(rt;
        "\naccepted {}\nnotices {}\norders {}\nevents {}",
        l.accepted, l.notices, l.orders, l.events
    )
}

fn main(rt: HostRuntime) -> io::Result<()> {
    match arguments::read(&rt) {
        Some(a) => print(&rt, totals::run(a.count, a.seed)),
        None => println!(rt;
            "error: load COUNT SEED, with COUNT below 10^15 and SEED below 2^32, in decimal"
        ),
    }
}
