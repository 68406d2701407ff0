// The labels of the console's lines.
ghost use Rattle.std.specs.Prelude.{◌≡◌, ◌≤◌};

// A label has at most so many bytes.
pub(crate) const LONGEST: usize = 10;

// A label's discriminant is its row in the table.
#[derive(Clone, Copy, PartialEq, Eq)]
pub enum Label {
    Nothing = 0,
    Heating = 1,
    Cooling = 2,
    MinHeat = 3,
    MaxHeat = 4,
    MinCool = 5,
    MaxCool = 6,
    Mode = 7,
    Dirty = 8,
    Pending = 9,
    Shadow = 10,
    Last = 11,
    Source = 12,
    Amount = 13,
    Timestamp = 14,
    Attributed = 15,
    Armed = 16,
    Order = 17,
    Notices = 18,
    Events = 19,
    Deadline = 20,
    Cut = 21,
    SystemModeChange = 22,
    LocalTemperatureChange = 23,
    SetpointChange = 24,
    RunningStateChange = 25,
    RunningModeChange = 26,
    Close = 27,
    Comma = 28,
    Semicolon = 29,
    Slash = 30,
    Ok = 31,
    Error = 32,
    Newline = 33,
}

// Each label, filled up with tildes, of which none has any. Rows of one length: that a label has room is known by the type.
// Static, since a const would be built anew for each label.
pub(crate) static LABELS: [u8; 340] = *b"\
    ~~~~~~~~~~\
    \x20h=~~~~~~~\
    \x20c=~~~~~~~\
    \x20minh=~~~~\
    \x20maxh=~~~~\
    \x20minc=~~~~\
    \x20maxc=~~~~\
    \x20mode=~~~~\
    \x20dirty=~~~\
    \x20pend=~~~~\
    \x20shadow=~~\
    \x20last=~~~~\
    \x20src=~~~~~\
    \x20amt=~~~~~\
    \x20ts=~~~~~~\
    \x20att=~~~~~\
    \x20armed=~~~\
    \x20order=~~~\
    \x20notices=~\
    \x20events=~~\
    \x20deadline=\
    \x20cut=~~~~~\
    0(~~~~~~~~\
    1(~~~~~~~~\
    3(~~~~~~~~\
    4(~~~~~~~~\
    5(~~~~~~~~\
    )~~~~~~~~~\
    ,~~~~~~~~~\
    ;~~~~~~~~~\
    /~~~~~~~~~\
    ok\n~~~~~~~\
    error ~~~~\
    \n~~~~~~~~~\
";

impl From<Label> for usize {
    ghost use Rattle.text.specs.Labels.{number};

    ghost from_gives = { λ l n. n ≡ number l };

    #[tactic(auto, unfolding(crate::specs::Labels::number))]
    fn from(label: Label) -> usize {
        label as usize
    }
}

// Where a label's row begins: the empty one's, where no label has the number.
pub(crate) fn start(i: usize) -> usize
    ensures { result ≤ 330 }
{
    if i < 34 {
        return i * LONGEST;
    }
    0
}
