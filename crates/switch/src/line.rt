// A line of a switch sheet.
#[derive(Clone, Copy, PartialEq, Eq, Debug)]
pub struct SwitchLine {
    pub state: u8,
    pub channel: u8,
    pub low: u32,
    pub high: u32,
    pub next: u8,
    // None makes no ticket, and has the value 0; load refuses a lent line that has another.
    pub out: Option<u8>,
    pub value: u32,
}

impl SwitchLine {
    // What a lent place holds where no line was read into it.
    pub const BLANK: SwitchLine = SwitchLine {
        state: 0,
        channel: 0,
        low: 0,
        high: 0,
        next: 0,
        out: None,
        value: 0,
    };
}
