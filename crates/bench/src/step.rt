// One frame: fed, marked and told.
ghost use Rattle.std.specs.Prelude.{◌≡◌, true, length, is_ok, is_err, IfOk};
ghost use Rattle.report.specs.Texts.{line_text};
ghost use Rattle.grade.specs.Voices.{voices};
ghost use Rattle.watch.specs.Feeding.{progress_of, feed_answer, accepted_by, advanced, logged};
ghost use Rattle.watch.specs.Marking.{mark_span, Charted};
ghost use Rattle.bench.specs.Steps.{step_answer};

use grade::{Span, Voice, Voices};
use refusal::Refusal;
use report::line;
use watch::judge::judge;
use watch::record::Watch;

// Feeds the frame, and gives the line of the mark after it.
pub fn step(
    watch: &mut Watch,
    log: &mut [Voices],
    chart: &mut [Span<Voices>],
    frame: &[Voices],
) -> Result<[u8; 19], Refusal>
    ensures watch { progress_of watch.new ≡ advanced (progress_of watch.old) (accepted_by (feed_answer (progress_of watch.old) (length log.old) (length frame.now))) }
    ensures log { log.new ≡ logged (progress_of watch.old) (accepted_by (feed_answer (progress_of watch.old) (length log.old) (length frame.now))) frame.now log.old }
    ensures text { IfOk result (λ t. t ≡ line_text (progress_of watch.new).count (mark_span voices (progress_of watch.new) log.new).low.bits (mark_span voices (progress_of watch.new) log.new).high.bits) }
    ensures answer { result ≡ step_answer (feed_answer (progress_of watch.old) (length log.old) (length frame.now)) (progress_of watch.old) log.old frame.now (length chart.old) }
    ensures charted { is_ok result ≡ true → Charted voices (progress_of watch.new) log.new chart.old chart.new }
    ensures unchanged { is_err result ≡ true → chart.new ≡ chart.old }
{
    watch.feed(log, frame)?;
    let mark = judge::<Voice>(watch, log, chart)?;
    let mut text = [0; 19];
    line(
        &mut text,
        watch.accepted(),
        mark.span.low.bits(),
        mark.span.high.bits(),
    )?;
    Ok(text)
}

#[cfg(test)]
mod tests {
    use grade::{Margin, Span, Voices};
    use sheet::record::Sheet;
    use std::mem::size_of;
    use watch::judge::settle;
    use watch::record::Watch;

    const WINDOW: [u8; 10] = [1, 2, 1, 7, 1, 0, 0, 0, 3, 0];

    #[test]
    fn the_memory_is_small(rt: HostRuntime) {
        assert!(rt; size_of::<Watch>() < 600);
        assert_eq!(rt; size_of::<Watch>(), 164);
        assert_eq!(rt; size_of::<Span<bool>>(), 2);
        assert_eq!(rt; size_of::<Span<Voices>>(), 4);
        assert_eq!(rt; size_of::<Span<Margin>>(), 8);
    }

    #[test]
    fn a_strip_may_be_longer_than_the_take(rt: HostRuntime) {
        let mut sheet = Sheet::new();
        assert!(rt; sheet.load(&WINDOW).is_ok());
        let mut watch = Watch::start(&sheet);
        let mut log = [false; 4];
        assert_eq!(rt;
            watch.feed(&mut log, &[true, true, false, true, true]).ok(),
            Some(4)
        );
        assert!(rt; watch.feed(&mut log, &[true]).is_err());
        assert_eq!(rt; watch.feed(&mut log, &[]).ok(), Some(0));
    }

    #[test]
    fn a_margin_is_settled_early(rt: HostRuntime) {
        let mut sheet = Sheet::new();
        assert!(rt; sheet.load(&WINDOW).is_ok());
        let mut watch = Watch::start(&sheet);
        let mut log = [Margin::new(0); 4];
        let mut chart = [Span::<Margin>::unknown(); 8];
        assert!(rt;
            watch
                .feed(&mut log, &[Margin::new(5), Margin::new(3), Margin::new(-2)])
                .is_ok()
        );
        let Ok(mark) = watch.mark(&log, &mut chart) else {
            assert!(rt; false);
            return;
        };
        assert_eq!(rt; mark.span.low.value(), 3);
        assert_eq!(rt; mark.span.high.value(), 3);
        assert!(rt; mark.settled);
    }

    #[test]
    fn a_then_goes_on_with_the_next_frame(rt: HostRuntime) {
        let mut sheet = Sheet::new();
        assert!(rt;
            sheet
                .load(&[2, 3, 1, 1, 6, 0, 0, 0, 0, 1, 0, 0, 1, 0])
                .is_ok()
        );
        let mut watch = Watch::start(&sheet);
        let mut log = [false; 4];
        let mut chart = [Span::<bool>::unknown(); 6];
        assert!(rt; watch.feed(&mut log, &[true, true, true, false]).is_ok());
        let Ok(mark) = settle(&watch, &log, &mut chart) else {
            assert!(rt; false);
            return;
        };
        assert!(rt; mark.settled && !mark.span.high);
    }
}
