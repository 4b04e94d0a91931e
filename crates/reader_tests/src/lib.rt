// Tests of the readers that no program's input reaches: a last line without its line feed, and what is lent.
#![tactic(auto)]

#[cfg(test)]
mod tests {
    use fault::{Fault, Reason};
    use levels::Chain;
    use sheet::LevelSheet;
    use sheet_reader::read_sheet;
    use std::test::Fail;
    use switch::{SwitchLine, read_switch};
    use text::placed;

    const LINE: SwitchLine = SwitchLine {
        state: 1,
        channel: 2,
        low: 3,
        high: 4,
        next: 5,
        out: Some(16),
        value: 6,
    };

    #[test]
    fn a_last_line_without_its_line_feed_is_ragged(rt: HostRuntime) -> Result<(), Fail> {
        let mut lines = [LINE; 64];
        assert_eq!(rt;
            read_switch(b"T,0,0,0,0,0,-,0", &mut lines),
            Err(placed(Reason::Ragged, 1, 0))
        );
        assert_eq!(rt;
            read_switch(b"T,0,0,0,0,0,-,0\nT", &mut lines),
            Err(placed(Reason::Ragged, 2, 0))
        );
        let mut sheet = LevelSheet::uniform(1);
        assert_eq!(rt;
            read_sheet(b"C,0,1", &Chain::new(2)?, &mut sheet),
            Err(placed(Reason::Ragged, 1, 0))
        );
        assert_eq!(rt; sheet, LevelSheet::uniform(0));
        Ok(())
    }

    #[test]
    fn sixty_three_lent_lines_are_refused_and_left(rt: HostRuntime) {
        let mut lines = [LINE; 63];
        assert_eq!(rt;
            read_switch(b"", &mut lines),
            Err(Fault::unplaced(Reason::Slip))
        );
        assert_eq!(rt; lines, [LINE; 63]);
    }

    #[test]
    fn what_is_lent_past_the_sheet_is_zeroed(rt: HostRuntime) {
        let mut lines = [LINE; 66];
        assert_eq!(rt; read_switch(b"T,7,0,0,0,0,-,0\n", &mut lines), Ok(1));
        assert_eq!(rt;
            lines[0],
            SwitchLine {
                state: 7,
                ..SwitchLine::BLANK
            }
        );
        assert_eq!(rt; &lines[1..], [SwitchLine::BLANK; 65].as_slice());
        let mut lines = [LINE; 66];
        assert_eq!(rt;
            read_switch(b"T,7,0,0,0,0,-,0\nT\n", &mut lines),
            Err(placed(Reason::Field, 2, 2))
        );
        assert_eq!(rt; lines, [SwitchLine::BLANK; 66]);
    }

    #[test]
    fn a_sheet_names_levels_and_leaves_the_lowest_elsewhere(rt: HostRuntime) -> Result<(), Fail> {
        let mut sheet = LevelSheet::uniform(9);
        assert_eq!(rt;
            read_sheet(b"C,31,1\nV,15,2\n", &Chain::new(3)?, &mut sheet),
            Ok(())
        );
        let mut expected = LevelSheet::uniform(0);
        expected.channels[31] = 1;
        expected.variables[15] = 2;
        assert_eq!(rt; sheet, expected);
        Ok(())
    }
}
