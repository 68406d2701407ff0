// What a session holds between lines.
ghost use Rattle.std.specs.Prelude.{◌≡◌};
ghost use Rattle.records.specs.Records.{blank};
ghost use Rattle.sessions.specs.Sessions.{Placed, Flushed, no_config};

use crate::Place;
use records::{Config, Controller, Settings};
use std::io::Write;
use text::{Buffer, Page};
use units::{Hundredths, Tenths};

// A line of more bytes than this less one is too long, so no more of it is kept.
pub type Held = Buffer<251>;

// `line` lines are read. Of the next one `held` is there, and `page` is answered and not yet written.
#[derive(Clone, Copy)]
pub struct Session {
    pub config: Config,
    pub rec: Controller,
    pub line: u64,
    pub held: Held,
    pub page: Page,
    pub writable: bool,
}

impl Session {
    pub(crate) fn new() -> Session
        ensures { (result.held.filled ≡ 0) × (result.page.filled ≡ 0) × (result.config ≡ no_config) × (result.rec ≡ blank) }
    {
        Session {
            config: no_config(),
            rec: Controller::blank(),
            line: 0,
            held: Buffer::new(),
            page: Buffer::new(),
            writable: true,
        }
    }

    pub(crate) fn place(&self) -> Place
        ensures { Placed result self.now.held.filled self.now.page.filled }
    {
        Place {
            line: self.line,
            held: self.held.filled,
            filled: self.page.filled,
            writable: self.writable,
        }
    }

    // The next line begins. What is answered stays on the page.
    pub(crate) fn next_line(&mut self)
        ensures next { (self.new.held.filled ≡ 0) × (self.new.page ≡ self.old.page) }
        ensures kept { (self.new.config ≡ self.old.config) × (self.new.rec ≡ self.old.rec) }
    {
        self.line = self.line.saturating_add(1);
        self.held.filled = 0;
    }

    // What is on the page goes out.
    pub(crate) fn flush<O: Write>(&mut self, output: &mut O)
        ensures { Flushed self.old self.new }
    {
        let is_written = output.write_all(self.page.as_slice()).is_ok();
        self.page.filled = 0;
        self.writable &= is_written;
    }
}

// The configuration before any is given.
fn no_config() -> Config
    ensures { result ≡ no_config }
{
    Config {
        revision: 0,
        features: 0,
        attributes: 0,
        events: 0,
        commands: 0,
        absminheat: Hundredths::ZERO,
        absmaxheat: Hundredths::ZERO,
        absmincool: Hundredths::ZERO,
        absmaxcool: Hundredths::ZERO,
        deadband: Tenths(0),
        sequence: 0,
        delta: Hundredths::ZERO,
        defaults: Settings::ZERO,
    }
}
