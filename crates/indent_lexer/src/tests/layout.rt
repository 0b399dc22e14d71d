use super::shows;
use std::test::Fail;

#[test]
fn reads_lines(rt: HostRuntime) -> Result<(), Fail> {
    for (text, want) in [
        (b"".as_slice(), b"end 1:1 0+0 ".as_slice()),
        (b"\n".as_slice(), b"end 2:1 1+0 ".as_slice()),
        (b"  \n\t# c\n".as_slice(), b"end 3:1 8+0 ".as_slice()),
        (
            b"x".as_slice(),
            b"name 1:1 0+1 x|newline 1:2 1+0 |end 1:2 1+0 ".as_slice(),
        ),
        (
            b"x\n".as_slice(),
            b"name 1:1 0+1 x|newline 1:2 1+0 |end 2:1 2+0 ".as_slice(),
        ),
        (
            b"x # c".as_slice(),
            b"name 1:1 0+1 x|newline 1:6 5+0 |end 1:6 5+0 ".as_slice(),
        ),
        (
            b"x\r\ny\rz\n".as_slice(),
            b"name 1:1 0+1 x|newline 1:2 1+0 |name 2:1 3+1 y|newline 2:2 4+0 |name 3:1 5+1 z|newline 3:2 6+0 |end 4:1 7+0 ".as_slice(),
        ),
        (
            b"\xef\xbb\xbfx\n".as_slice(),
            b"name 1:1 3+1 x|newline 1:2 4+0 |end 2:1 5+0 ".as_slice(),
        ),
        (
            b"# \xc3\xa9\nx".as_slice(),
            b"name 2:1 5+1 x|newline 2:2 6+0 |end 2:2 6+0 ".as_slice(),
        ),
        (
            b"x \\\n y\n".as_slice(),
            b"name 1:1 0+1 x|name 2:2 5+1 y|newline 2:3 6+0 |end 3:1 7+0 ".as_slice(),
        ),
        (
            b"x\\\r\n\\\ry".as_slice(),
            b"name 1:1 0+1 x|name 3:1 6+1 y|newline 3:2 7+0 |end 3:2 7+0 ".as_slice(),
        ),
        (
            b"\\\n  x\n".as_slice(),
            b"indent 2:3 4+0 |name 2:3 4+1 x|newline 2:4 5+0 |dedent 3:1 6+0 |end 3:1 6+0 ".as_slice(),
        ),
        (
            b"x\\\n".as_slice(),
            b"name 1:1 0+1 x|newline 2:1 3+0 |end 2:1 3+0 ".as_slice(),
        ),
        (
            b"x\n\n \n# c\n  # d\ny\n".as_slice(),
            b"name 1:1 0+1 x|newline 1:2 1+0 |name 6:1 15+1 y|newline 6:2 16+0 |end 7:1 17+0 ".as_slice(),
        ),
    ] {
        shows(&rt, rt.alloc(), text, want)?;
    }
    Ok(())
}

#[test]
fn reads_indents(rt: HostRuntime) -> Result<(), Fail> {
    for (text, want) in [
        (
            b"if x:\n  y\nz\n".as_slice(),
            b"keyword 1:1 0+2 if|name 1:4 3+1 x|op 1:5 4+1 :|newline 1:6 5+0 |indent 2:3 8+0 |name 2:3 8+1 y|newline 2:4 9+0 |dedent 3:1 10+0 |name 3:1 10+1 z|newline 3:2 11+0 |end 4:1 12+0 ".as_slice(),
        ),
        (
            b"a\n  b\n    c\nd\n".as_slice(),
            b"name 1:1 0+1 a|newline 1:2 1+0 |indent 2:3 4+0 |name 2:3 4+1 b|newline 2:4 5+0 |indent 3:5 10+0 |name 3:5 10+1 c|newline 3:6 11+0 |dedent 4:1 12+0 |dedent 4:1 12+0 |name 4:1 12+1 d|newline 4:2 13+0 |end 5:1 14+0 ".as_slice(),
        ),
        (
            b"a\n  b\n    c\n  d".as_slice(),
            b"name 1:1 0+1 a|newline 1:2 1+0 |indent 2:3 4+0 |name 2:3 4+1 b|newline 2:4 5+0 |indent 3:5 10+0 |name 3:5 10+1 c|newline 3:6 11+0 |dedent 4:3 14+0 |name 4:3 14+1 d|newline 4:4 15+0 |dedent 4:4 15+0 |end 4:4 15+0 ".as_slice(),
        ),
        (
            b"  a\n".as_slice(),
            b"indent 1:3 2+0 |name 1:3 2+1 a|newline 1:4 3+0 |dedent 2:1 4+0 |end 2:1 4+0 ".as_slice(),
        ),
        (b"a\n  b\n c\n".as_slice(), b"L4 3:2 7".as_slice()),
        (b"a\n  b\n $\n".as_slice(), b"L4 3:2 7".as_slice()),
        (b"a\n\tb\n".as_slice(), b"L3 2:1 2".as_slice()),
        (b"a\n \t b\n".as_slice(), b"L3 2:2 3".as_slice()),
        (
            b"a\n\t# c\nb\n".as_slice(),
            b"name 1:1 0+1 a|newline 1:2 1+0 |name 3:1 7+1 b|newline 3:2 8+0 |end 4:1 9+0 ".as_slice(),
        ),
        (
            b"a\n\t\n".as_slice(),
            b"name 1:1 0+1 a|newline 1:2 1+0 |end 3:1 4+0 ".as_slice(),
        ),
        (
            b"a\n  \\\n  b\nc\n".as_slice(),
            b"name 1:1 0+1 a|newline 1:2 1+0 |indent 3:3 8+0 |name 3:3 8+1 b|newline 3:4 9+0 |dedent 4:1 10+0 |name 4:1 10+1 c|newline 4:2 11+0 |end 5:1 12+0 ".as_slice(),
        ),
        (
            b"a\n  b\n\n# c\n  d\n".as_slice(),
            b"name 1:1 0+1 a|newline 1:2 1+0 |indent 2:3 4+0 |name 2:3 4+1 b|newline 2:4 5+0 |name 5:3 13+1 d|newline 5:4 14+0 |dedent 6:1 15+0 |end 6:1 15+0 ".as_slice(),
        ),
    ] {
        shows(&rt, rt.alloc(), text, want)?;
    }
    Ok(())
}

#[test]
fn reads_brackets(rt: HostRuntime) -> Result<(), Fail> {
    for (text, want) in [
        (
            b"(\n1,\n\t2)\n".as_slice(),
            b"op 1:1 0+1 (|number 2:1 2+1 1|op 2:2 3+1 ,|number 3:2 6+1 2|op 3:3 7+1 )|newline 3:4 8+0 |end 4:1 9+0 ".as_slice(),
        ),
        (
            b"f([{}],\n  # c\n  x)\ny\n".as_slice(),
            b"name 1:1 0+1 f|op 1:2 1+1 (|op 1:3 2+1 [|op 1:4 3+1 {|op 1:5 4+1 }|op 1:6 5+1 ]|op 1:7 6+1 ,|name 3:3 16+1 x|op 3:4 17+1 )|newline 3:5 18+0 |name 4:1 19+1 y|newline 4:2 20+0 |end 5:1 21+0 ".as_slice(),
        ),
        (
            b")\nx\n".as_slice(),
            b"op 1:1 0+1 )|newline 1:2 1+0 |name 2:1 2+1 x|newline 2:2 3+0 |end 3:1 4+0 ".as_slice(),
        ),
        (b"(\n".as_slice(), b"L9 1:1 0".as_slice()),
        (b"(a)[\n(b".as_slice(), b"L9 1:4 3".as_slice()),
        (b"x = (\n  1".as_slice(), b"L9 1:5 4".as_slice()),
        (b"((".as_slice(), b"L9 1:1 0".as_slice()),
        (b"[)(\n".as_slice(), b"L9 1:3 2".as_slice()),
        (
            b"(]]\nx".as_slice(),
            b"op 1:1 0+1 (|op 1:2 1+1 ]|op 1:3 2+1 ]|newline 1:4 3+0 |name 2:1 4+1 x|newline 2:2 5+0 |end 2:2 5+0 ".as_slice(),
        ),
        (
            b"if x:\n  (\ny\n)\nz\n".as_slice(),
            b"keyword 1:1 0+2 if|name 1:4 3+1 x|op 1:5 4+1 :|newline 1:6 5+0 |indent 2:3 8+0 |op 2:3 8+1 (|name 3:1 10+1 y|op 4:1 12+1 )|newline 4:2 13+0 |dedent 5:1 14+0 |name 5:1 14+1 z|newline 5:2 15+0 |end 6:1 16+0 ".as_slice(),
        ),
    ] {
        shows(&rt, rt.alloc(), text, want)?;
    }
    Ok(())
}
