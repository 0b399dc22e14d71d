use super::shows;
use std::test::Fail;

#[test]
fn reads_texts(rt: HostRuntime) -> Result<(), Fail> {
    for (text, want) in [
        (
            b"'' \"\" 'a' \"b'c\"\n".as_slice(),
            b"text 1:1 0+2 |text 1:4 3+2 |text 1:7 6+3 a|text 1:11 10+5 b'c|newline 1:16 15+0 |end 2:1 16+0 ".as_slice(),
        ),
        (
            b"'a\\n\\t\\r\\\\\\'\\\"\\x41'\n".as_slice(),
            b"text 1:1 0+19 a\n\t\r\\'\"A|newline 1:20 19+0 |end 2:1 20+0 ".as_slice(),
        ),
        (
            b"'''a\nb\r\nc\rd'''\n".as_slice(),
            b"text 1:1 0+14 a\nb\nc\nd|newline 4:5 14+0 |end 5:1 15+0 ".as_slice(),
        ),
        (
            b"\"\"\"a\"b\"\"c\"\"\"\n".as_slice(),
            b"text 1:1 0+12 a\"b\"\"c|newline 1:13 12+0 |end 2:1 13+0 ".as_slice(),
        ),
        (
            b"'a\\\nb\\\r\nc'\n".as_slice(),
            b"text 1:1 0+10 abc|newline 3:3 10+0 |end 4:1 11+0 ".as_slice(),
        ),
        (
            b"'''a\\\nb'''\n".as_slice(),
            b"text 1:1 0+10 ab|newline 2:5 10+0 |end 3:1 11+0 ".as_slice(),
        ),
        (b"'a\n'".as_slice(), b"L6 1:1 0".as_slice()),
        (b"'a".as_slice(), b"L6 1:1 0".as_slice()),
        (b"'''a'".as_slice(), b"L6 1:1 0".as_slice()),
        (b"x = 'a\\q'\n".as_slice(), b"L2 1:7 6".as_slice()),
        (b"'\\x4'\n".as_slice(), b"L2 1:2 1".as_slice()),
        (b"'\\x80'\n".as_slice(), b"L7 1:2 1".as_slice()),
        (
            b"'\\x7f'\n".as_slice(),
            b"text 1:1 0+6 \x7f|newline 1:7 6+0 |end 2:1 7+0 ".as_slice(),
        ),
        (b"'\\".as_slice(), b"L2 1:2 1".as_slice()),
        (b"'\\\n".as_slice(), b"L6 1:1 0".as_slice()),
        (b"'''\\".as_slice(), b"L2 1:4 3".as_slice()),
        (b"x '\xc3\xa9'\n".as_slice(), b"L7 1:4 3".as_slice()),
        (b"'''\n\xe2\x82\xac'''\n".as_slice(), b"L7 2:1 4".as_slice()),
        (b"'a\x00'\n".as_slice(), b"L2 1:3 2".as_slice()),
        (b"''''\n".as_slice(), b"L6 1:1 0".as_slice()),
        (
            b"''''''\n".as_slice(),
            b"text 1:1 0+6 |newline 1:7 6+0 |end 2:1 7+0 ".as_slice(),
        ),
        (
            b"'a' 'b'\n".as_slice(),
            b"text 1:1 0+3 a|text 1:5 4+3 b|newline 1:8 7+0 |end 2:1 8+0 ".as_slice(),
        ),
        (
            b"a'b'\n".as_slice(),
            b"name 1:1 0+1 a|text 1:2 1+3 b|newline 1:5 4+0 |end 2:1 5+0 ".as_slice(),
        ),
        (b"(\n'a".as_slice(), b"L6 2:1 2".as_slice()),
    ] {
        shows(&rt, rt.alloc(), text, want)?;
    }
    Ok(())
}

#[test]
fn reads_places(rt: HostRuntime) -> Result<(), Fail> {
    for (text, want) in [
        (b"\x00".as_slice(), b"L2 1:1 0".as_slice()),
        (b"a\x00b".as_slice(), b"L2 1:2 1".as_slice()),
        (b"# \x00\n".as_slice(), b"L2 1:3 2".as_slice()),
        (b"a\n\\ b\n".as_slice(), b"L2 2:1 2".as_slice()),
        (b"a \\".as_slice(), b"L2 1:3 2".as_slice()),
        (b"\\".as_slice(), b"L2 1:1 0".as_slice()),
        (b"\xff".as_slice(), b"L1 1:1 0".as_slice()),
        (b"\xef\xbb\xbfa\n\xff".as_slice(), b"L1 2:1 5".as_slice()),
        (b"a\nb\xc3".as_slice(), b"L1 2:2 3".as_slice()),
        (b"\xc3\xa9\xff".as_slice(), b"L1 1:2 2".as_slice()),
        (b"\r\xff".as_slice(), b"L1 2:1 1".as_slice()),
        (b"a\r\n$".as_slice(), b"L2 2:1 3".as_slice()),
        (b"a\r$".as_slice(), b"L2 2:1 2".as_slice()),
        (b"\xef\xbb\xbf$".as_slice(), b"L2 1:1 3".as_slice()),
        (b"a\xef\xbb\xbf".as_slice(), b"L2 1:2 1".as_slice()),
        (b"\t\xc2\xa0".as_slice(), b"L3 1:1 0".as_slice()),
        (b"(\n$".as_slice(), b"L2 2:1 2".as_slice()),
        (b"  x\n '\xc3\xa9'".as_slice(), b"L4 2:2 5".as_slice()),
        (b"\xed\xa0\x80".as_slice(), b"L1 1:1 0".as_slice()),
        (b"a\x0cb".as_slice(), b"L2 1:2 1".as_slice()),
    ] {
        shows(&rt, rt.alloc(), text, want)?;
    }
    Ok(())
}

#[test]
fn refuses_sources(rt: HostRuntime) -> Result<(), Fail> {
    for (text, want) in [
        (b"x\xff".as_slice(), b"L1 1:2 1".as_slice()),
        (b"x = 6 / 2".as_slice(), b"L2 1:7 6".as_slice()),
        (b"if True:\n\tpass".as_slice(), b"L3 2:1 9".as_slice()),
        (
            b"if True:\n    pass\n  pass".as_slice(),
            b"L4 3:3 20".as_slice(),
        ),
        (b"x = 1.5".as_slice(), b"L5 1:5 4".as_slice()),
        (
            b"x = 9223372036854775808".as_slice(),
            b"L5 1:5 4".as_slice(),
        ),
        (b"x = 'ab".as_slice(), b"L6 1:5 4".as_slice()),
        (b"x = '\xc3\xa9'".as_slice(), b"L7 1:6 5".as_slice()),
        (b"print((1".as_slice(), b"L9 1:6 5".as_slice()),
    ] {
        shows(&rt, rt.alloc(), text, want)?;
    }
    Ok(())
}
