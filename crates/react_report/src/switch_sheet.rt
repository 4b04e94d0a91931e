// The text of a switch sheet, read into lent lines and loaded from them.
ghost use Rattle.switch.specs.Reading.{reading};
ghost use Rattle.react_report.specs.Switches.{LoadsAs};

use fault::Fault;
use switch::{SHEET_LIMIT, SwitchLine, read_switch};
use switch_machine::Switch;

// The machine of a text, in one lent table; load_program has two, so they stay apart.
pub fn load_switch<'a>(
    text: &[u8],
    lines: &'a mut [SwitchLine; SHEET_LIMIT],
) -> Result<Switch<'a>, Fault>
    ensures { LoadsAs (λ m. m.lines.now) result (reading text.now) }
{
    read_switch(text, lines)?;
    let mut machine = Switch::empty();
    machine.load(lines)?;
    Ok(machine)
}
