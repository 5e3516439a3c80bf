//! Records that are told row by row, of recorders that begin again at each sound row, and of ones that are cut there.
use crate::feeding::{all_fed, fed, recorded};
use crate::shown::{show_records, shown};
use crate::texts::{LONG, TEXTS};
use std::alloc::{AllocError, Global};
use std::test::Fail;
use yl_lexeme::Meter;
use yl_record::{Record, Recorder};
use yl_text::{Row, split};

/// Feeds a row, shows the records that are complete then, and their number, and lets them go.
fn show_complete(
    global: Global,
    shown: &mut String,
    counts: &mut String,
    recorder: &mut Recorder<'_, Global>,
    row: &Row<Global>,
    meter: &mut Meter,
) -> Result<(), AllocError> {
    fed(global, recorder, row, meter)?;
    let complete = recorder.complete();
    let count = complete.len();
    show_records(shown, complete)?;
    recorder.let_go(count);
    write!(counts, "{count}")
}

/// The records of a text, each told as soon as it is complete, and how many get so with each row.
fn told_by_rows(global: Global, rows: &[Row<Global>]) -> Result<(String, String), AllocError> {
    let mut shown = String::new(global);
    let mut counts = String::new(global);
    let mut recorder = Recorder::start(&global);
    let mut meter = Meter::new();
    for row in rows {
        show_complete(
            global,
            &mut shown,
            &mut counts,
            &mut recorder,
            row,
            &mut meter,
        )?;
    }
    let records = recorder.finish()?;
    show_records(&mut shown, &records)?;
    Ok((shown, counts))
}

/// The records of the rows above the last of these, which is sound.
fn cut(global: Global, rows: &[Row<Global>]) -> Result<Vec<Record<Global>>, AllocError> {
    let Some((last, above)) = rows.split_last() else {
        return Err(AllocError);
    };
    let mut recorder = Recorder::start(&global);
    all_fed(global, &mut recorder, above)?;
    fed(global, &mut recorder, last, &mut Meter::new())?;
    if recorder.state().is_none() {
        return Err(AllocError);
    }
    Ok(recorder.cut())
}

/// Whether both are shown alike.
fn are_alike(
    global: Global,
    some: &[Record<Global>],
    others: Option<&[Record<Global>]>,
) -> Result<bool, AllocError> {
    Ok(shown(global, some)? == shown(global, others.unwrap_or(&[]))?)
}

/// How many of these records are sound, at how many of them a recorder that begins there tells the records of the rows from there on, and at how
/// many one that is cut there tells those of the rows above.
fn agreements(
    global: Global,
    rows: &[Row<Global>],
    records: &[Record<Global>],
) -> Result<(usize, usize, usize), AllocError> {
    let mut sound: usize = 0;
    let mut below: usize = 0;
    let mut above: usize = 0;
    for (at, record) in records.iter().enumerate() {
        if let Some(state) = record.state() {
            sound = sound.wrapping_add(1);
            let rest = rows.get(at..).unwrap_or(&[]);
            let told = recorded(global, Recorder::resume(&global, state)?, 1, rest)?;
            below = below.wrapping_add(usize::from(are_alike(global, &told, records.get(at..))?));
            let front = rows.get(..at.wrapping_add(1)).unwrap_or(&[]);
            let told = cut(global, front)?;
            above = above.wrapping_add(usize::from(are_alike(global, &told, records.get(..at))?));
        }
    }
    Ok((sound, below, above))
}

/// The records of a text, told row by row, how many get complete with each row, and how many of them are sound and agree. Told whole they have to be
/// the same.
fn told(global: Global, text: &str) -> Result<(String, String, (usize, usize, usize)), Fail> {
    let rows = split(global, text.as_bytes())?;
    let records = recorded(global, Recorder::start(&global), 1, &rows)?;
    let (told, counts) = told_by_rows(global, &rows)?;
    if shown(global, &records)? != told {
        Err(AllocError)?;
    }
    let agreements = agreements(global, &rows, &records)?;
    Ok((told, counts, agreements))
}

#[test]
fn at_each_sound_row(rt: HostRuntime) -> Result<(), Fail> {
    for (text, sound, counts, records) in TEXTS {
        let (told, complete, agreements) = told(rt.alloc(), text)?;
        assert_eq!(rt;
            (told.as_str(), complete.as_str(), agreements),
            (records, counts, (sound, sound, sound)),
            "{text:?}"
        );
    }
    Ok(())
}

#[test]
fn at_each_sound_row_of_many(rt: HostRuntime) -> Result<(), Fail> {
    for (text, sound) in LONG {
        let (_, _, agreements) = told(rt.alloc(), text)?;
        assert_eq!(rt; agreements, (sound, sound, sound), "{text:?}");
    }
    Ok(())
}
