// Tests of the parts together: limits of rows and tables, the letters of the tests, and lines of known values.
#![tactic(auto)]

mod vectors;

#[cfg(test)]
mod tests {
    use curves::ceiling::Ceiling;
    use curves::segment_curve::SegmentCurve;
    use feasibility::better::Better;
    use feasibility::letter::letter_of;
    use feasibility::piecewise::Piecewise;
    use feasibility::test::Test;
    use feasibility::whole_job::WholeJob;
    use model::row::Row;
    use model::segmented::Segmented;
    use model::whole::Whole;
    use table::refusal::Refusal;
    use table::rows::{CAPACITY, append};

    // Segments 1 and 1 with a wait of 6 between them.
    fn checker(period: u32, deadline: u32) -> Segmented {
        Segmented {
            id: 7,
            period,
            deadline,
            count: 2,
            costs: [1, 1, 0, 0, 0, 0, 0, 0],
            least: [6, 0, 0, 0, 0, 0, 0],
            most: [6, 0, 0, 0, 0, 0, 0],
        }
    }

    // Adds a row at the end of an empty table.
    fn append_alone(row: Segmented) -> Result<(), Refusal> {
        let mut rows = [Segmented::blank(); CAPACITY];
        append(&mut rows, 0, row).map_err(|fault| fault.refusal)
    }

    #[test]
    fn deadlines_hold_computation_and_suspension(rt: HostRuntime) {
        assert_eq!(rt; append_alone(checker(8, 8)), Ok(()));
        assert_eq!(rt; append_alone(checker(8, 7)), Err(Refusal::RowUnlawful));
    }

    #[test]
    fn periods_are_limited(rt: HostRuntime) {
        assert_eq!(rt; append_alone(checker(1_000_000, 8)), Ok(()));
        assert_eq!(rt;
            append_alone(checker(1_000_001, 8)),
            Err(Refusal::RowUnlawful)
        );
    }

    // The constant of a test, and its letter as contracts speak of it.
    fn letters<R: Row, Q: Test<R>>() -> (u8, u8) {
        (Q::LETTER, letter_of::<R, Q>())
    }

    type BetterOfBoth = Better<WholeJob<SegmentCurve>, Piecewise<SegmentCurve>>;

    #[test]
    fn constants_are_the_letters(rt: HostRuntime) {
        assert_eq!(rt;
            letters::<Segmented, WholeJob<SegmentCurve>>(),
            (b'C', b'C')
        );
        assert_eq!(rt;
            letters::<Segmented, Piecewise<SegmentCurve>>(),
            (b'A', b'A')
        );
        assert_eq!(rt; letters::<Segmented, WholeJob<Ceiling>>(), (b'J', b'J'));
        assert_eq!(rt; letters::<Whole, WholeJob<Ceiling>>(), (b'J', b'J'));
        assert_eq!(rt; letters::<Segmented, BetterOfBoth>(), (b'B', b'B'));
    }
}
