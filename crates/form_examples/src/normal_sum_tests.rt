//! Normal matrices of an independent model, which are also those of the definition by the differences of each two rows.
ghost use Rattle.std.specs.Prelude.{◌<◌, ◌≡◌, ◌⊎◌};

use crate::row_numbers::{
    L1_AND_L2, L1_AND_L5, NoSession, Numbers, THREE_BANDS, arc, finished, pair_of, push,
    session_with, three_arcs,
};
use normal_sum::{Normal, sum, sum_pair};
use obs_rows::{Arc, SIGNALS, Session, Signals, has_its_arcs};
use quadratic_form::MOST_COLUMNS;
use std::alloc::{AllocError, Global};

// Two satellites whose phases on L1 are 2^18 units apart.
static TWO_ROWS: [Numbers; 2] = [
    (0, [262_144, 0, 0, 0, 0, 0], 0, [0; 3], [0; 3]),
    (1, [0; 6], 0, [0; 3], [0; 3]),
];

// Their columns, the constant's own entry and that of the first column.
fn sum_of_two(alloc: Global) -> Result<(usize, i128, i128), NoSession> {
    let arcs = [arc(3, true, 1), arc(5, false, 1)];
    let pair = pair_of(alloc, 0, L1_AND_L2, &TWO_ROWS)?;
    if !has_its_arcs(&arcs, &pair) {
        return Err(NoSession::OutOfRange);
    }
    let normal = sum_pair(&arcs, L1_AND_L2, 0, &pair);
    Ok((normal.columns, normal.c.at(5, 5), normal.c.at(0, 0)))
}

// F = 180180 · 10000 · 2^36.
#[test]
fn sums_two_satellites(rt: HostRuntime) -> Result<(), NoSession> {
    assert!(rt; sum_of_two(rt.alloc())? == (6, 123_818_753_182_924_800_000, 0));
    Ok(())
}

// Two pairs of three and two satellites, with numbers at the ends of their ranges.
static FIRST: [Numbers; 3] = [
    (
        0,
        [262_144, -77, 1_000_000, 5, -1_000_001, 7000],
        1024,
        [9_000_000, -8_000_000, 1000],
        [32, 31, 30],
    ),
    (
        1,
        [-12_345_678, 98_765_432, -55, 44, 33, -2_222_222],
        2048,
        [-7_000_000, 3_000_000, 14_000_000],
        [1, 2, 3],
    ),
    (
        2,
        [
            17_179_869_184,
            -17_179_869_184,
            3,
            -4,
            17_179_869_184,
            -17_179_869_184,
        ],
        1_048_576,
        [16_777_216, -16_777_216, 5],
        [1_048_576, 0, 7],
    ),
];

static SECOND: [Numbers; 2] = [
    (0, [1, 2, 3, 4, 5, 6], 5, [6, 7, 8], [9, 10, 11]),
    (
        2,
        [-1, 20, -300, 4000, -50_000, 600_000],
        50_000,
        [600_000, -7_000_000, 8_000_000],
        [0, 1, 2],
    ),
];

fn session_at(alloc: Global, scale: u32, signals: Signals) -> Result<Session, NoSession>
    requires { (scale ≡ 0) ⊎ (scale ≡ 14) }
{
    let mut session = session_with(alloc, scale, signals, three_arcs(alloc, 1)?)?;
    push(alloc, &mut session, 0, &FIRST)?;
    push(alloc, &mut session, 1, &SECOND)?;
    finished(session)
}

// What an arc's row says where all numbers are at the ends of their ranges, with changing signs.
fn numbers_at_ends(arc: u16) -> Numbers {
    let y = if arc % 2 == 0 { 1 << 34 } else { -(1 << 34) };
    let u = if arc % 3 == 0 { 1 << 24 } else { -(1 << 24) };
    let w = if arc % 2 == 0 { 1 << 24 } else { -(1 << 24) };
    let radius = 1 << 20;
    (arc, [y, -y, y, -y, y, -y], radius, [u, -u, w], [radius; 3])
}

fn rows_at_ends(first: u16) -> [Numbers; 15]
    requires { first < 7 }
{
    let mut rows = [(0, [0; SIGNALS], 0, [0; 3], [0; 3]); 15];
    for i in 0..15 {
        rows[i] = numbers_at_ends(first + i as u16);
    }
    rows
}

fn greatest_arcs(alloc: Global) -> Result<Vec<Arc>, AllocError> {
    let mut arcs = Vec::new(alloc);
    for sat in 1..22u8 {
        arcs.push(arc(sat, sat == 1, 3599))?;
    }
    Ok(arcs)
}

// 3600 pairs of 15 rows, with one datum and 20 free arcs, of three bands.
fn greatest_session(alloc: Global) -> Result<Session, NoSession> {
    let mut session = session_with(alloc, 0, THREE_BANDS, greatest_arcs(alloc)?)?;
    for number in 0..3600u32 {
        push(
            alloc,
            &mut session,
            number,
            &rows_at_ends((number % 7) as u16),
        )?;
    }
    finished(session)
}

fn entry_at(expected: &[(usize, usize, i128)], i: usize, j: usize) -> i128 {
    for (row, column, entry) in expected {
        if *row == i && *column == j {
            return *entry;
        }
    }
    0
}

// The entries on the diagonal and after it that are not 0; both halves are compared.
fn agrees(normal: &Normal, expected: &[(usize, usize, i128)]) -> bool {
    for i in 0..normal.columns {
        for j in i..normal.columns {
            let entry = entry_at(expected, i, j);
            if i < MOST_COLUMNS
                && j < MOST_COLUMNS
                && (normal.c.at(i, j) != entry || normal.c.at(j, i) != entry)
            {
                return false;
            }
        }
    }
    true
}

const FINE_ENTRIES: [(usize, usize, i128); 32] = [
    (0, 0, 2_120_044_286_510_297_675_367_840),
    (0, 1, -1_731_845_633_100_914_030_459_760),
    (0, 2, -1_320_665_802_254_276_182_024_320),
    (0, 3, -540_155_418_752_581_632_000_000),
    (0, 4, -693_199_454_065_813_094_400_000),
    (0, 5, 440_715_419_750_301_696_000_000),
    (0, 6, 565_584_788_679_553_843_200_000),
    (0, 7, 4_126_580_214_718_964_927_684_760),
    (1, 1, 1_592_176_685_816_743_358_852_520),
    (1, 2, 833_424_623_174_587_585_901_760),
    (1, 3, 417_939_757_184_581_632_000_000),
    (1, 4, 536_356_021_720_213_094_400_000),
    (1, 5, -530_340_503_034_101_760_000_000),
    (1, 6, -680_603_645_560_430_592_000_000),
    (1, 7, -3_194_202_839_430_006_287_023_140),
    (2, 2, 1_172_420_370_298_325_183_075_040),
    (2, 3, 380_212_855_240_458_240_000_000),
    (2, 4, 487_939_830_891_921_408_000_000),
    (2, 5, -27_172_642_580_987_904_000_000),
    (2, 6, -34_871_557_978_934_476_800_000),
    (2, 7, -2_902_095_165_848_359_405_404_480),
    (3, 3, 307_031_814_533_283_840_000_000),
    (3, 5, -153_515_907_266_641_920_000_000),
    (3, 7, 233_633_198_498_354_823_168_000_000),
    (4, 4, 505_664_341_213_288_857_600_000),
    (4, 6, -252_832_170_606_644_428_800_000),
    (4, 7, -302_836_786_760_873_164_800_000_000),
    (5, 5, 537_305_675_433_246_720_000_000),
    (5, 7, -466_752_772_520_417_230_848_000_000),
    (6, 6, 884_912_597_123_255_500_800_000),
    (6, 7, 600_509_999_241_575_949_926_400_000),
    (7, 7, 1_422_725_520_480_289_599_513_144_184_980),
];

const L1_L5_ENTRIES: [(usize, usize, i128); 32] = [
    (0, 0, 2_120_044_286_510_297_675_367_840),
    (0, 1, -1_731_845_633_100_914_030_459_760),
    (0, 2, -1_320_665_802_254_276_182_024_320),
    (0, 3, -540_155_418_752_581_632_000_000),
    (0, 4, -723_338_560_764_326_707_200_000),
    (0, 5, 440_715_419_750_301_696_000_000),
    (0, 6, 590_175_431_665_621_401_600_000),
    (0, 7, -1_302_860_908_109_931_512_112_290_520),
    (1, 1, 1_592_176_685_816_743_358_852_520),
    (1, 2, 833_424_623_174_587_585_901_760),
    (1, 3, 417_939_757_184_581_632_000_000),
    (1, 4, 559_675_848_751_526_707_200_000),
    (1, 5, -530_340_503_034_101_760_000_000),
    (1, 6, -710_195_108_410_884_096_000_000),
    (1, 7, 1_178_919_618_354_089_224_860_707_460),
    (2, 2, 1_172_420_370_298_325_183_075_040),
    (2, 3, 380_212_855_240_458_240_000_000),
    (2, 4, 509_154_606_148_091_904_000_000),
    (2, 5, -27_172_642_580_987_904_000_000),
    (2, 6, -36_387_712_673_670_758_400_000),
    (2, 7, 578_236_351_369_674_791_439_686_040),
    (3, 3, 307_031_814_533_283_840_000_000),
    (3, 5, -153_515_907_266_641_920_000_000),
    (3, 7, 233_633_198_498_354_823_168_000_000),
    (4, 4, 550_591_040_716_170_854_400_000),
    (4, 6, -275_295_520_358_085_427_200_000),
    (4, 7, 312_393_367_666_794_980_966_400_000),
    (5, 5, 537_305_675_433_246_720_000_000),
    (5, 7, -466_752_772_520_417_230_848_000_000),
    (6, 6, 963_534_321_253_298_995_200_000),
    (6, 7, -624_839_927_433_452_598_067_200_000),
    (7, 7, 1_418_737_922_809_469_767_445_230_229_940),
];

const THREE_ENTRIES: [(usize, usize, i128); 43] = [
    (0, 0, 3_180_066_429_765_446_513_051_760),
    (0, 1, -2_597_768_449_651_371_045_689_640),
    (0, 2, -1_980_998_703_381_414_273_036_480),
    (0, 3, -540_155_418_752_581_632_000_000),
    (0, 4, -693_199_454_065_813_094_400_000),
    (0, 5, -723_338_560_764_326_707_200_000),
    (0, 6, 440_715_419_750_301_696_000_000),
    (0, 7, 565_584_788_679_553_843_200_000),
    (0, 8, 590_175_431_665_621_401_600_000),
    (0, 9, -646_970_118_386_723_404_570_697_400),
    (1, 1, 2_388_265_028_725_115_038_278_780),
    (1, 2, 1_250_136_934_761_881_378_852_640),
    (1, 3, 417_939_757_184_581_632_000_000),
    (1, 4, 536_356_021_720_213_094_400_000),
    (1, 5, 559_675_848_751_526_707_200_000),
    (1, 6, -530_340_503_034_101_760_000_000),
    (1, 7, -680_603_645_560_430_592_000_000),
    (1, 8, -710_195_108_410_884_096_000_000),
    (1, 9, 586_005_939_321_784_709_052_304_980),
    (2, 2, 1_758_630_555_447_487_774_612_560),
    (2, 3, 380_212_855_240_458_240_000_000),
    (2, 4, 487_939_830_891_921_408_000_000),
    (2, 5, 509_154_606_148_091_904_000_000),
    (2, 6, -27_172_642_580_987_904_000_000),
    (2, 7, -34_871_557_978_934_476_800_000),
    (2, 8, -36_387_712_673_670_758_400_000),
    (2, 9, 285_983_777_818_341_002_634_714_480),
    (3, 3, 307_031_814_533_283_840_000_000),
    (3, 6, -153_515_907_266_641_920_000_000),
    (3, 9, 233_633_198_498_354_823_168_000_000),
    (4, 4, 505_664_341_213_288_857_600_000),
    (4, 7, -252_832_170_606_644_428_800_000),
    (4, 9, -302_836_786_760_873_164_800_000_000),
    (5, 5, 550_591_040_716_170_854_400_000),
    (5, 8, -275_295_520_358_085_427_200_000),
    (5, 9, 312_393_367_666_794_980_966_400_000),
    (6, 6, 537_305_675_433_246_720_000_000),
    (6, 9, -466_752_772_520_417_230_848_000_000),
    (7, 7, 884_912_597_123_255_500_800_000),
    (7, 9, 600_509_999_241_575_949_926_400_000),
    (8, 8, 963_534_321_253_298_995_200_000),
    (8, 9, -624_839_927_433_452_598_067_200_000),
    (9, 9, 2_131_901_019_078_278_325_058_582_941_540),
];

const COARSE_ENTRIES: [(usize, usize, i128); 10] = [
    (0, 0, 105_991_615_163_998_483_920),
    (0, 1, -86_583_623_292_716_429_880),
    (0, 2, -66_026_687_443_969_412_160),
    (0, 3, -987_962_220_793_908_360),
    (1, 1, 79_600_874_203_416_826_260),
    (1, 2, 41_667_064_452_284_150_880),
    (1, 3, 266_832_274_548_179_340),
    (2, 2, 58_615_156_999_216_337_520),
    (2, 3, 1_682_067_140_040_367_080),
    (3, 3, 240_252_509_790_673_380),
];

// A session of two pairs at this scale, of these signals, and what is summed of it.
struct Summed {
    scale: u32,
    signals: Signals,
    columns: usize,
    entries: &'static [(usize, usize, i128)],
    r: [i128; 4],
}

const SUMMED: [Summed; 4] = [
    // Of the bands L1 and L2.
    Summed {
        scale: 0,
        signals: L1_AND_L2,
        columns: 8,
        entries: &FINE_ENTRIES,
        r: [
            7_925_192_651_699_518_235_040,
            7_683_643_487_520,
            7_806_178_139_760,
            7_943_250_235_971_140_410_320,
        ],
    },
    // The integer of an arc on L5 stands after that on L1.
    Summed {
        scale: 0,
        signals: L1_AND_L5,
        columns: 8,
        entries: &L1_L5_ENTRIES,
        r: [
            7_925_192_651_699_518_235_040,
            7_683_643_487_520,
            7_806_178_139_760,
            7_943_250_235_971_140_410_320,
        ],
    },
    // Three integers for each free arc: on L1, L2 and L5.
    Summed {
        scale: 0,
        signals: THREE_BANDS,
        columns: 10,
        entries: &THREE_ENTRIES,
        r: [
            11_887_788_977_549_277_352_560,
            11_525_465_231_280,
            11_709_267_209_640,
            11_914_875_353_956_710_615_480,
        ],
    },
    // Of the code on L1 alone.
    Summed {
        scale: 14,
        signals: L1_AND_L2,
        columns: 4,
        entries: &COARSE_ENTRIES,
        r: [
            396_220_010_583_917_520,
            384_143_760,
            390_269_880,
            397_122_799_518_605_160,
        ],
    },
];

// What of a sum isn't as wanted.
fn sum_fault(alloc: Global, want: &Summed) -> Result<Option<&'static str>, NoSession> {
    if want.scale != 0 && want.scale != 14 {
        return Err(NoSession::OutOfRange);
    }
    let normal = sum(&session_at(alloc, want.scale, want.signals)?);
    if normal.columns != want.columns {
        Ok(Some("the columns"))
    } else if !agrees(&normal, want.entries) {
        Ok(Some("an entry"))
    } else if normal.r != want.r {
        Ok(Some("the spreads"))
    } else {
        Ok(None)
    }
}

#[test]
fn sums_sessions(rt: HostRuntime) -> Result<(), NoSession> {
    for want in SUMMED.iter() {
        assert!(rt; sum_fault(rt.alloc(), want)?.is_none());
    }
    Ok(())
}

// Whether these entries, and those mirrored on the diagonal, stand in the matrix.
fn has_entries(normal: &Normal, expected: &[(usize, usize, i128)]) -> bool {
    for (i, j, entry) in expected {
        if *i >= MOST_COLUMNS
            || *j >= MOST_COLUMNS
            || normal.c.at(*i, *j) != *entry
            || normal.c.at(*j, *i) != *entry
        {
            return false;
        }
    }
    true
}

static GREATEST_ENTRIES: [(usize, usize, i128); 13] = [
    (0, 0, 146_077_150_809_186_347_557_847_040_000),
    (0, 1, -146_077_150_809_186_347_557_847_040_000),
    (0, 2, 2_085_657_097_664_493_962_353_704_960),
    (0, 3, -469_322_602_064_558_161_920_000_000),
    (0, 5, -628_484_180_156_017_016_832_000_000),
    (3, 3, 442_739_876_556_995_297_280_000_000),
    (3, 4, 0),
    (4, 7, -52_083_427_144_968_752_332_800_000),
    (5, 5, 793_952_280_712_718_372_044_800_000),
    (5, 8, -56_710_877_193_765_598_003_200_000),
    (62, 62, 396_205_312_899_356_546_826_240_000),
    (62, 63, -449_622_707_985_666_331_650_293_760_000),
    (63, 63, 171_553_753_825_320_589_606_035_059_952_844_800),
];

// What of the sum of the greatest session isn't as wanted.
fn greatest_fault(alloc: Global) -> Result<Option<&'static str>, NoSession> {
    let normal = sum(&greatest_session(alloc)?);
    if normal.columns != 64 {
        Ok(Some("the columns"))
    } else if !has_entries(&normal, &GREATEST_ENTRIES) {
        Ok(Some("an entry"))
    } else if normal.r != [641_940_604_141_932_191_416_320_000; 4] {
        Ok(Some("the spreads"))
    } else {
        Ok(None)
    }
}

// Some entries of the greatest session.
#[test]
fn sums_the_greatest_session(rt: HostRuntime) -> Result<(), NoSession> {
    assert!(rt; greatest_fault(rt.alloc())?.is_none());
    Ok(())
}
