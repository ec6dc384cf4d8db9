//! Moments of the calendar and of the weeks.
use gps_time::{DateFault, Tick, tick_of, week_tick};

const TICKS: [((u16, u8, u8), (u8, u8, u32), u64); 9] = [
    ((1980, 1, 6), (0, 0, 0), 0),
    ((1980, 1, 6), (0, 0, 1), 1),
    ((2000, 2, 29), (23, 59, 599_999_999), 6_359_039_999_999_999),
    ((2000, 3, 1), (0, 0, 1), 6_359_040_000_000_001),
    ((2024, 1, 1), (0, 0, 300_000_000), 13_881_024_300_000_000),
    ((2024, 1, 1), (0, 0, 599_999_999), 13_881_024_599_999_999),
    ((2024, 2, 29), (12, 34, 567_890_123), 13_932_452_967_890_123),
    ((2024, 12, 31), (0, 0, 0), 14_196_384_000_000_000),
    (
        (2099, 12, 31),
        (23, 59, 599_999_999),
        37_864_799_999_999_999,
    ),
];

#[test]
fn counts_ticks(rt: HostRuntime) {
    for row in TICKS.iter() {
        let ((year, month, day), (hour, minute, part), want) = *row;
        assert!(rt; tick_of(year, month, day, hour, minute, part) == Ok(Tick(want)));
    }
}

const NO_DATES: [((u16, u8, u8), (u8, u8, u32)); 13] = [
    ((1980, 1, 5), (23, 59, 0)),
    ((1979, 12, 31), (0, 0, 0)),
    ((2100, 1, 1), (0, 0, 0)),
    ((2023, 2, 29), (0, 0, 0)),
    ((2024, 2, 30), (0, 0, 0)),
    ((2024, 4, 31), (0, 0, 0)),
    ((2024, 13, 1), (0, 0, 0)),
    ((2024, 0, 1), (0, 0, 0)),
    ((2024, 1, 0), (0, 0, 0)),
    ((2024, 1, 1), (24, 0, 0)),
    ((2024, 1, 1), (0, 60, 0)),
    ((2024, 1, 1), (0, 0, 600_000_000)),
    ((65535, 255, 255), (0, 0, 0)),
];

#[test]
fn refuses_dates(rt: HostRuntime) {
    for row in NO_DATES.iter() {
        let ((year, month, day), (hour, minute, part)) = *row;
        assert!(rt; tick_of(year, month, day, hour, minute, part) == Err(DateFault));
    }
}

#[test]
fn counts_weeks(rt: HostRuntime) {
    assert!(rt; week_tick(0, 0) == Tick(0));
    assert!(rt; week_tick(2304, 5) == Tick(13_934_592_050_000_000));
    assert!(rt; tick_of(2024, 3, 3, 0, 0, 50_000_000) == Ok(week_tick(2304, 5)));
}
