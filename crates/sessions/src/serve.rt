// One line is served: read, handed to the controller, and answered on the page.
ghost use Rattle.std.specs.Prelude.{◌≡◌};
ghost use Rattle.sessions.specs.Sessions.{Served};

use crate::{Session, replies};
use lines::{Line, Unreadable};
use std::io::Write;

impl Session {
    fn answer<O: Write>(&mut self, line: Result<Line, Unreadable>, output: &mut O)
        ensures { Served line self.old self.new }
    {
        let a = replies::answer_to(self.config, self.rec, line);
        self.config = replies::config_after(self.config, line);
        self.rec = a.rec;
        self.next_line();
        // The longest answer fits after this.
        if 63200 < self.page.filled {
            self.flush(output);
        }
        replies::write_reply(&mut self.page, self.line, line, &a);
    }

    // The line that is held, whole.
    pub(crate) fn serve<O: Write>(&mut self, output: &mut O)
        ensures { self.new.held.filled ≡ 0 }
    {
        let line = lines::read(self.held.as_slice());
        self.answer(line, output);
    }
}
