//! Each call once, with ample memory.

use crate::{faults_by_cases, lines_of_pieces, names_ascend, print_back};
use fm_line::read_line;
use std::test::Fail;

#[test]
fn a_printed_line_reads_back(rt: HostRuntime) -> Result<(), Fail> {
    let alloc = rt.alloc();
    for line in ["tick 5", "{\"acquit\":\"dx1/2\",\"time\":3}"] {
        let entry = read_line(alloc, line.as_bytes())?;
        let mut out = Vec::new(alloc);
        print_back(alloc, &entry, &mut out)?;
        let again = read_line(alloc, &out)?;
        assert_eq!(rt; again.moment(), entry.moment());
    }
    faults_by_cases();
    names_ascend();
    Ok(())
}

#[test]
fn a_stream_has_the_same_lines_in_any_pieces(rt: HostRuntime) -> Result<(), Fail> {
    let alloc = rt.alloc();
    let cuttings: [&[&[u8]]; 4] = [
        &[b"ab\ncd\n\ne"],
        &[b"a", b"b\nc", b"", b"d\n\n", b"e"],
        &[b"ab", b"\n", b"cd\n", b"\n", b"e"],
        &[b"ab\ncd", b"\n\ne", b""],
    ];
    for pieces in cuttings {
        let lines = lines_of_pieces(alloc, pieces)?;
        assert_eq!(rt; lines.len(), 4);
        for (line, want) in lines.iter().zip(["ab", "cd", "", "e"]) {
            let line = line.as_ref().ok_or("no line")?;
            assert_eq!(rt; line.as_slice(), want.as_bytes());
        }
    }
    Ok(())
}
