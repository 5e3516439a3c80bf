//! Records of deep and large texts, which take room in proportion to them.
use crate::feeding::recorded;
use crate::shown::show_record;
use std::alloc::{AllocError, Global};
use std::test::Fail;
use yl_record::Recorder;
use yl_text::split;

/// A front, and so many times a piece, before which a step stands once more each time.
fn text_of(
    alloc: Global,
    front: &str,
    count: usize,
    step: &str,
    piece: &str,
) -> Result<String, AllocError> {
    let mut text = String::from_str(alloc, front)?;
    let mut steps = String::new(alloc);
    for _i in 0..count {
        text.push_str(&steps)?;
        text.push_str(piece)?;
        steps.push_str(step)?;
    }
    Ok(text)
}

/// How many records there are, how many bytes show the last one, and whether its state equals itself and that of the first.
fn summary(
    global: Global,
    text: &str,
    times: usize,
) -> Result<Option<(usize, usize, bool, bool)>, Fail> {
    let rows = split(global, text.as_bytes())?;
    let records = recorded(global, Recorder::start(&global), times, &rows)?;
    let (Some(first), Some(last)) = (records.first(), records.last()) else {
        return Ok(None);
    };
    let mut shown = String::new(global);
    show_record(&mut shown, last)?;
    Ok(Some((
        records.len(),
        shown.len(),
        last.state() == last.state(),
        last.state() == first.state(),
    )))
}

/// A text's front, how often its piece stands behind that, the step, the piece, how often its rows are fed, and what comes of it.
type DeepText = (
    &'static str,
    usize,
    &'static str,
    &'static str,
    usize,
    (usize, usize, bool, bool),
);

#[test]
fn records_of_deep_rows(rt: HostRuntime) -> Result<(), Fail> {
    let texts: [DeepText; 6] = [
        ("[", 0, "", "", 200_000, (200_000, 1_600_031, true, false)),
        (
            "{a: [",
            0,
            "",
            "",
            200_000,
            (200_000, 3_200_079, true, false),
        ),
        (
            "[[[[[[[\n[[]],\n[[]],",
            0,
            "",
            "",
            2_000,
            (6_000, 112_105, true, false),
        ),
        ("", 8_000, " ", "-\n", 1, (8_000, 38_932, true, false)),
        ("[", 262_144, "", "aa, ", 1, (1, 15_666_142, true, true)),
        ("", 100_000, "", "[", 1, (1, 2_477_798, true, true)),
    ];
    for (front, count, step, piece, times, want) in texts {
        let text = text_of(rt.alloc(), front, count, step, piece)?;
        assert_eq!(rt;
            summary(rt.alloc(), text.as_str().trim_end(), times)?,
            Some(want)
        );
    }
    Ok(())
}
