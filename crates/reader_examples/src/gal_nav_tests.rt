//! Navigation files of Galileo: a real record.
use crate::texts::{MOST, joined};
use decimal_text::Dec;
use eph_store::{NavFile, Raw};
use gal_nav::read_gal_nav;
use std::alloc::Global;
use std::test::Fail;

const FIRST: &str =
    "     3.04           N: GNSS NAV DATA    M: Mixed            RINEX VERSION / TYPE\n";

const END: &str = "                                                            END OF HEADER\n";

// E08 of 2016-04-06 as a receiver of the station STFU7 had it (RTCM 3, gpsd's test data).
const RECORD: &str =
    "E08 2016 04 06 20 20 00  .978251919150D-03  .398927113565D-09  .000000000000D+00
      .420000000000D+02  .109375000000D+03  .274082845222D-08 -.220312612388D+01
      .512599945068D-05  .135224894620D-03  .173673033714D-04  .544062406921D+04
      .332400000000D+06  .128522515297D-06  .211486143555D+00 -.102445483208D-06
      .959750055248D+00 -.395937500000D+02 -.169323081841D+01 -.536379485216D-08
      .411445709794D-09  .517000000000D+03  .189100000000D+04  .000000000000D+00
      .312000000000D+01  .000000000000D+00 -.721774995327D-08 -.814907252789D-08
      .333516000000D+06  .000000000000D+00
";

// The numbers of the record that are looked at: of its clock, its orbit, its time, its week and its health.
fn numbers_of(raw: &Raw) -> [Dec; 5] {
    [raw.af0, raw.root_a, raw.toe_s, raw.week, raw.health]
}

fn dec(mant: i64, exp: i32) -> Dec {
    Dec { mant, exp }
}

// Whether the only record is the real one.
fn is_the_real_one(records: &[Raw]) -> bool {
    let numbers = [
        dec(978_251_919_150, -15),
        dec(544_062_406_921, -8),
        dec(332_400_000_000, -6),
        dec(189_100_000_000, -8),
        dec(0, -12),
    ];
    match records {
        [raw] => raw.sat == 8 && numbers_of(raw) == numbers,
        _ => false,
    }
}

fn read(alloc: Global, parts: &[&str]) -> Result<NavFile, Fail> {
    let text = joined(alloc, parts)?;
    if text.len() > MOST {
        return Err("a long text".into());
    }
    Ok(read_gal_nav(alloc, text.as_bytes())?)
}

#[test]
fn reads_a_real_record(rt: HostRuntime) -> Result<(), Fail> {
    let other = "G07 2016 04 06 20 00 00 anything\n     and anything behind it\n";
    let file = read(rt.alloc(), &[FIRST, END, other, RECORD])?;
    assert!(rt; is_the_real_one(file.all()) && file.fit().len() == 1);
    Ok(())
}
