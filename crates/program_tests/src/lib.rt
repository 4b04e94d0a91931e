// Tests of site programs at what no program's input reaches: other allowances, and what is lent.
#![tactic(auto)]

#[cfg(test)]
mod tests {
    use fault::{Fault, Reason};
    use loader::Program;
    use machine::{Machine, Reaction};
    use program::{ROW_LIMIT, Row, TERM_LIMIT, Term, read_program};
    use ticket::Ticket;

    const THREE_SKIPS: &[u8] = b"H,0\nS\nS\nS\nX\n";

    const FOR_EVER: &[u8] = b"H,0\nW,k1\nO,16,v0\nA,0,+,v0,k1\nX\nX\n";

    const TICKET: Ticket = Ticket {
        channel: 0,
        value: 7,
    };

    fn react_to_one(text: &[u8], allowance: u16) -> Result<Reaction, Fault> {
        let mut rows = [Row::BLANK; ROW_LIMIT];
        let mut terms = [Term::BLANK; TERM_LIMIT];
        read_program(text, &mut rows, &mut terms)?;
        let mut program = Program::empty();
        program.load(&rows, &terms)?;
        let mut words = [0; 16];
        let mut slip = [Ticket::BLANK; 16];
        Ok(program.react(&mut words, TICKET, allowance, &mut slip))
    }

    #[test]
    fn three_skips_end_with_three_steps_and_stall_with_two(rt: HostRuntime) {
        assert_eq!(rt;
            react_to_one(THREE_SKIPS, 3),
            Ok(Reaction {
                made: 0,
                steps: 3,
                stalled: false,
            })
        );
        assert_eq!(rt;
            react_to_one(THREE_SKIPS, 2),
            Ok(Reaction {
                made: 0,
                steps: 2,
                stalled: true,
            })
        );
    }

    #[test]
    fn a_seventeenth_ticket_is_no_step(rt: HostRuntime) {
        assert_eq!(rt;
            react_to_one(FOR_EVER, 1000),
            Ok(Reaction {
                made: 16,
                steps: 49,
                stalled: true,
            })
        );
    }

    #[test]
    fn too_few_lent_places_are_refused(rt: HostRuntime) {
        let mut rows = [Row::BLANK; 127];
        let mut terms = [Term::BLANK; 512];
        assert_eq!(rt;
            read_program(THREE_SKIPS, &mut rows, &mut terms),
            Err(Fault::unplaced(Reason::Slip))
        );
        let mut rows = [Row::BLANK; 128];
        let mut terms = [Term::BLANK; 511];
        assert_eq!(rt;
            read_program(THREE_SKIPS, &mut rows, &mut terms),
            Err(Fault::unplaced(Reason::Slip))
        );
    }
}
