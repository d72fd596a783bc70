// The queue at rows of two and of four fields, added in a scrambled order and taken out in order.
#![tactic(auto)]

pub mod alarm;
pub mod pair;
pub mod sort;

#[cfg(test)]
mod tests {
    use crate::alarm::Alarm;
    use crate::pair::Pair;
    use crate::sort::sort;

    #[test]
    fn pairs_come_in_order(rt: HostRuntime) {
        let mut rows = [
            Pair(5, 1),
            Pair(3, 9),
            Pair(9, 0),
            Pair(3, 2),
            Pair(7, 7),
            Pair(1, 4),
        ];
        let mut taken = [Pair(0, 0); 6];
        sort(&mut rows, &mut taken);
        assert!(rt;
            taken
                == [
                    Pair(1, 4),
                    Pair(3, 2),
                    Pair(3, 9),
                    Pair(5, 1),
                    Pair(7, 7),
                    Pair(9, 0),
                ]
        );
    }

    #[test]
    fn alarms_come_in_order(rt: HostRuntime) {
        let late = Alarm {
            due: 9,
            urgent: false,
            line: 1,
            source: 0,
        };
        let early = Alarm {
            due: 2,
            urgent: false,
            line: 1,
            source: 7,
        };
        let urgent = Alarm {
            due: 2,
            urgent: true,
            line: 1,
            source: 0,
        };
        let other = Alarm {
            due: 2,
            urgent: false,
            line: 3,
            source: 0,
        };
        let mut rows = [urgent, late, other, early, late];
        let mut taken = [late; 5];
        sort(&mut rows, &mut taken);
        assert!(rt; taken == [early, other, urgent, late, late]);
    }
}
