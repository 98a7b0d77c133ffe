use crate::*;
use refusal::Refusal;

#[test]
fn margins_flip_at_the_extremes(rt: HostRuntime) {
    assert_eq!(rt; Margin::new(0).flip().value(), -1);
    assert_eq!(rt; Margin::new(-1).flip().value(), 0);
    assert_eq!(rt; Margin::top().flip(), Margin::bottom());
    assert_eq!(rt; Margin::bottom().flip().value(), 2147483647);
}

#[test]
fn voices_meet_and_join_bit_by_bit(rt: HostRuntime) {
    let x = Voices::new(0b1100);
    let y = Voices::new(0b1010);
    assert_eq!(rt; x.meet(y).bits(), 0b1000);
    assert_eq!(rt; x.join(y).bits(), 0b1110);
    assert_eq!(rt; x.flip().bits(), 0xfff3);
}

#[test]
fn voices_are_not_all_in_one_row(rt: HostRuntime) {
    let x = Voices::new(0b1100);
    let y = Voices::new(0b1010);
    assert!(rt; !x.below(y));
    assert!(rt; !y.below(x));
    assert!(rt; x.meet(y).below(y));
}

#[test]
fn spans_stand_over_every_grade(rt: HostRuntime) {
    assert!(rt; Span::<bool>::unknown().encloses(true));
    let near = Span {
        low: Margin::new(-2),
        high: Margin::new(5),
    };
    assert_eq!(rt; near.flip().low.value(), -6);
    assert_eq!(rt; near.flip().high.value(), 1);
    let heard = Span::exact(Voices::new(3));
    assert!(rt; heard.is_exact());
    assert!(rt; heard.within(Span::unknown()));
    let spans: Span<Span<Voices>> = Span::unknown();
    assert!(rt; spans.encloses(heard));
    assert!(rt; !spans.is_exact());
}

#[test]
fn sign_carries_margins(rt: HostRuntime) {
    let margins = [Margin::new(5), Margin::new(3), Margin::new(-2)];
    let mut answers = [false; 3];
    assert_eq!(rt; carry(&Sign, &margins, &mut answers), Ok(()));
    assert_eq!(rt; answers, [true, true, false]);
    let mut short = [false; 2];
    assert_eq!(rt;
        carry(&Sign, &margins, &mut short),
        Err(Refusal::UnequalStrips)
    );
    assert_eq!(rt; short, [false, false]);
}

#[test]
fn voices_are_counted_round(rt: HostRuntime) {
    let words = Voices::new(0b10);
    assert_eq!(rt; Voice::new(17), Voice::new(1));
    assert!(rt; Voice::new(17).translate(words));
    assert!(rt; !Voice::new(0).translate(words));
    let ends = Ends {
        each: Voice::new(1),
    };
    assert_eq!(rt; ends.translate(Span::exact(words)), Span::exact(true));
}
