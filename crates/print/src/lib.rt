// Lines of words and numbers, appended to a growing list of bytes.
#![tactic(auto)]

ghost use Rattle.std.specs.Prelude.{◌≡◌, [], ◌∷◌, codes, decimal};
ghost use Rattle.print.specs.Appending.{Appends};
ghost use Rattle.print.specs.Lines.{keyword_text, entry_text, rest_text, line_text, fault_line};

use fault::Fault;
use itoa::Buffer;
use std::alloc::AllocError;

// The words that lines are printed with. By bytes and not by Display: std says nothing of what a failed `write!` leaves.
#[derive(Clone, Copy, PartialEq, Eq, Debug)]
pub enum Keyword {
    In,
    Out,
    Batch,
    Fault,
    Turn,
    Ended,
    Stalled,
    Refused,
    Labels,
    Pass,
    Leak,
}

impl Keyword {
    pub fn text(self) -> &'static [u8]
        ensures { result.now ≡ keyword_text self }
    {
        match self {
            Keyword::In => b"I",
            Keyword::Out => b"O",
            Keyword::Batch => b"B",
            Keyword::Fault => b"R",
            Keyword::Turn => b"T",
            Keyword::Ended => b"ended",
            Keyword::Stalled => b"stalled",
            Keyword::Refused => b"refused",
            Keyword::Labels => b"L",
            Keyword::Pass => b"pass",
            Keyword::Leak => b"leak",
        }
    }
}

// What stands between two commas.
#[derive(Clone, Copy, PartialEq, Eq, Debug)]
pub enum Entry {
    Word(Keyword),
    Number(u64),
}

// A line: a word, the entries behind commas, and a line feed.
pub fn put_line(out: &mut Vec<u8>, word: Keyword, entries: &[Entry]) -> Result<(), AllocError>
    ensures { Appends out.old (line_text word entries.now) result out.new }
{
    put_bytes(out, word.text())?;
    put_rest(out, entries)
}

// The refusal of a part of the input. The part is a number, as each program has parts of its own.
pub fn put_fault(out: &mut Vec<u8>, part: u8, fault: Fault) -> Result<(), AllocError>
    ensures { Appends out.old (fault_line part fault) result out.new }
{
    let entries = [
        Entry::Number(part as u64),
        Entry::Number(fault.reason.number() as u64),
        Entry::Number(fault.line as u64),
        Entry::Number(fault.field as u64),
    ];
    put_line(out, Keyword::Fault, &entries)
}

fn put_rest(out: &mut Vec<u8>, entries: &[Entry]) -> Result<(), AllocError>
    ensures { Appends out.old (rest_text entries.now) result out.new }
{
    for entry in entries {
        put_entry(out, *entry)?;
    }
    put_bytes(out, b"\n")
}

fn put_entry(out: &mut Vec<u8>, entry: Entry) -> Result<(), AllocError>
    ensures { Appends out.old (44 ∷ entry_text entry) result out.new }
{
    put_bytes(out, b",")?;
    match entry {
        Entry::Word(word) => put_bytes(out, word.text()),
        Entry::Number(n) => put_number(out, n),
    }
}

pub fn put_number(out: &mut Vec<u8>, n: u64) -> Result<(), AllocError>
    ensures { Appends out.old (decimal n) result out.new }
{
    put_bytes(out, Buffer::new().format(n).as_bytes())
}

pub fn put_bytes(out: &mut Vec<u8>, bytes: &[u8]) -> Result<(), AllocError>
    ensures { Appends out.old bytes.now result out.new }
{
    out.extend_from_slice(bytes)
}
