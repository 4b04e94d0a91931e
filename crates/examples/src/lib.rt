// Worked examples: one list with one proof, and the same values run.
#![tactic(auto)]

ghost use Rattle.examples.specs.Examples.{Examples};

// A theorem: the definitions give what the worked examples say.
pub fn examples_hold()
    ensures { Examples }
{}

#[cfg(test)]
mod tests {
    use fault::{Fault, Reason};
    use language::Operator;
    use levels::{Chain, Pair, Parties, Scheme};
    use std::test::Fail;
    use ticket::Ticket;

    #[test]
    fn tickets(rt: HostRuntime) {
        let ticket = Ticket {
            channel: 0,
            value: 300,
        };
        assert_eq!(rt; Ticket::decode(&[0, 73, 0, 0, 1, 44, 0, 0]), Ok(ticket));
        assert_eq!(rt;
            Ticket::decode(&[0, 73, 0, 0, 1, 44, 0, 1]),
            Err(Fault::unplaced(Reason::Record))
        );
        assert_eq!(rt;
            Ticket::decode(&[16, 73, 0, 0, 1, 44, 0, 0]),
            Err(Fault::unplaced(Reason::Channel))
        );
    }

    #[test]
    fn operators(rt: HostRuntime) {
        assert_eq!(rt; Operator::Round.apply(15, 10), 20);
        assert_eq!(rt; Operator::Round.apply(14, 10), 10);
        assert_eq!(rt; Operator::Round.apply(7, 0), 7);
        assert_eq!(rt; Operator::Round.apply(4294967295, 10), 4294967290);
        assert_eq!(rt; Operator::Minus.apply(3, 5), 4294967294);
    }

    #[test]
    fn schemes(rt: HostRuntime) -> Result<(), Fail> {
        let parties = Parties::new(2)?;
        assert_eq!(rt; parties.join(1, 2), Some(3));
        assert!(rt; !parties.at_or_below(1, 2));
        let four = Chain::new(4)?;
        assert_eq!(rt; Pair::new(four, four)?.count(), 16);
        assert_eq!(rt;
            Pair::new(four, Chain::new(5)?),
            Err(Fault::unplaced(Reason::Level))
        );
        Ok(())
    }
}
