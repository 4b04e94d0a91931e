// The switch sheet as a reactive machine, over lent lines.
#![tactic(auto)]

ghost use Rattle.std.specs.Prelude.{◌≡◌, true};
ghost use Rattle.switch_machine.specs.Sound.{all_fit};

mod loading;
mod running;

use switch::SwitchLine;

#[derive(Clone, Copy)]
pub struct Switch<'a> {
    lines: &'a [SwitchLine],
    ghost sound: { all_fit lines.now ≡ true },
}
