// The lines that the console takes: what may stand in them.

// A line has at most so many numbers after its first word.
pub const NUMBERS: usize = 22;

// The readings stand from this place on, after the mark.
pub const READINGS: usize = 16;

#[derive(Clone, Copy, PartialEq, Eq)]
pub enum Form {
    Config,
    Open,
    Record,
    Heat,
    Cool,
    MinHeat,
    MaxHeat,
    MinCool,
    MaxCool,
    Mode,
    Sequence,
    Raise,
    Arm,
    Start,
    Sweep,
    Timer,
    Deadline,
    OobHeat,
    OobCool,
    OobMode,
    OobLimits,
    OobTemp,
    OobRunning,
    OobUpdate,
    Reset,
    Hour,
}

// A letter for each number of a line, filled up with dots.
//
// b, w, d and q: unsigned, of 8, 16, 32 and 64 bits. t and h: tenths and hundredths, signed, of 8 and 16 bits. f: 0 or 1.
// D, Q, H and S: as d, q, h and h, or none. s: as h. @: the word that begins the readings. A line may end before @, S, s and a dot.
pub type Letters = [u8; NUMBERS];

// What a first word begins, if it is one.
pub(crate) fn form_of(word: &[u8]) -> Option<(Form, Letters)> {
    Some(match word {
        b"config" => (Form::Config, *b"wdqqqhhhhtbhshhhhhb..."),
        b"open" => (Form::Open, *b"hhhhhhb@........wwHDDq"),
        b"record" => (Form::Record, *b"hhhhhhbfwbHdHHDQShhbwb"),
        b"heat" => (Form::Heat, *b"h@..............wwHDDq"),
        b"cool" => (Form::Cool, *b"h@..............wwHDDq"),
        b"minheat" => (Form::MinHeat, *b"h@..............wwHDDq"),
        b"maxheat" => (Form::MaxHeat, *b"h@..............wwHDDq"),
        b"mincool" => (Form::MinCool, *b"h@..............wwHDDq"),
        b"maxcool" => (Form::MaxCool, *b"h@..............wwHDDq"),
        b"mode" => (Form::Mode, *b"b@..............wwHDDq"),
        b"sequence" => (Form::Sequence, *b"b@..............wwHDDq"),
        b"raise" => (Form::Raise, *b"bt@.............wwHDDq"),
        b"arm" => (Form::Arm, *b"@...............wwHDDq"),
        b"start" => (Form::Start, *b"@...............wwHDDq"),
        b"sweep" => (Form::Sweep, *b"@...............wwHDDq"),
        b"timer" => (Form::Timer, *b"@...............wwHDDq"),
        b"deadline" => (Form::Deadline, *b"@...............wwHDDq"),
        b"oobheat" => (Form::OobHeat, *b"h@..............wwHDDq"),
        b"oobcool" => (Form::OobCool, *b"h@..............wwHDDq"),
        b"oobmode" => (Form::OobMode, *b"b@..............wwHDDq"),
        b"ooblimits" => (Form::OobLimits, *b"hhhh@...........wwHDDq"),
        b"oobtemp" => (Form::OobTemp, *b"@...............wwHDDq"),
        b"oobrunning" => (Form::OobRunning, *b"@...............wwHDDq"),
        b"oobupdate" => (Form::OobUpdate, *b"@...............wwHDDq"),
        b"reset" => (Form::Reset, *b"@...............wwHDDq"),
        b"hour" => (Form::Hour, *b"b@..............wwHDDq"),
        _ => return None,
    })
}
