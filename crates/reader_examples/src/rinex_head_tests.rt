//! Header lines and versions of files.
use line_source::Line;
use rinex_head::{At, Version, What, head_line, version_of};

fn line(bytes: &[u8]) -> Line<'_> {
    Line { number: 1, bytes }
}

// A header line, how many bytes its content has, and its label.
static HEADER_LINES: [(&[u8], usize, &[u8]); 3] = [
    (
        b" -3957199.2407  3310199.5412  3737711.7114                  APPROX POSITION XYZ ",
        60,
        b"APPROX POSITION XYZ",
    ),
    (b"G    8 C1C", 10, b""),
    (
        b"                                                            END OF HEADER       past",
        60,
        b"END OF HEADER",
    ),
];

#[test]
fn splits_header_lines(rt: HostRuntime) {
    for row in HEADER_LINES.iter() {
        let (bytes, length, label) = *row;
        let found = head_line(&line(bytes));
        assert!(rt; found.content.len() == length && found.label == label);
        // the content is what the line begins with
        assert!(rt; bytes.starts_with(found.content));
    }
}

const VERSIONS: [(&[u8], u16, u8, u8); 3] = [
    (
        b"     3.04           OBSERVATION DATA    M                   RINEX VERSION / TYPE",
        304,
        b'O',
        b'M',
    ),
    (
        b"     3.00           N: GNSS NAV DATA    G                   RINEX VERSION / TYPE ",
        300,
        b'N',
        b'G',
    ),
    (
        b"3.05                                                        RINEX VERSION / TYPEpast",
        305,
        b' ',
        b' ',
    ),
];

const NO_VERSIONS: [&[u8]; 7] = [
    b"",
    b"     3.06           OBSERVATION DATA    M                   RINEX VERSION / TYPE",
    b"     2.11           OBSERVATION DATA    M                   RINEX VERSION / TYPE",
    b"     4.00           OBSERVATION DATA    M                   RINEX VERSION / TYPE",
    b"    3.041           OBSERVATION DATA    M                   RINEX VERSION / TYPE",
    b"     3.04           OBSERVATION DATA    M                  RINEX VERSION / TYPE",
    b"     3.04           OBSERVATION DATA    M                   COMMENT",
];

#[test]
fn reads_versions(rt: HostRuntime) {
    for row in VERSIONS.iter() {
        let (bytes, hundredths, kind, system) = *row;
        let want = Version {
            hundredths,
            kind,
            system,
        };
        assert!(rt; version_of(&line(bytes)) == Ok(want));
    }
    let refused = At {
        line: 1,
        column: 1,
        what: What::Version,
    };
    for bytes in NO_VERSIONS.iter() {
        assert!(rt; version_of(&line(bytes)) == Err(refused));
    }
}
