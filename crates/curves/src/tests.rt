// Both curves at a row of two segments: T = D = 8, segments of 1 and 1, a suspension of 6 between them.
use crate::ceiling::Ceiling;
use crate::curve::Curve;
use crate::segment_curve::SegmentCurve;
use model::segmented::Segmented;

const ROW: Segmented = Segmented {
    id: 7,
    period: 8,
    deadline: 8,
    count: 2,
    costs: [1, 1, 0, 0, 0, 0, 0, 0],
    least: [6, 0, 0, 0, 0, 0, 0],
    most: [6, 0, 0, 0, 0, 0, 0],
};

#[test]
fn peaks(rt: HostRuntime) {
    assert_eq!(rt; SegmentCurve.peak(&ROW, 0), (0, 0));
    assert_eq!(rt; SegmentCurve.peak(&ROW, 2), (2, 1));
    assert_eq!(rt; SegmentCurve.peak(&ROW, 10), (4, 1));
}

// It has no contract, so that no proof counts the ticks of a long window one by one.
fn segment_ticks(window: u32) -> u32 {
    SegmentCurve.ticks(&ROW, window)
}

#[test]
fn letters_and_ticks(rt: HostRuntime) {
    assert_eq!(rt; Ceiling.ticks(&ROW, 2), 2);
    assert_eq!(rt; segment_ticks(4_000_000), 250_000);
    assert_eq!(rt; <SegmentCurve as Curve<Segmented>>::LETTER, b'C');
    assert_eq!(rt; <Ceiling as Curve<Segmented>>::LETTER, b'J');
}
