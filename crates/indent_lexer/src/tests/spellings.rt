use super::shows;
use std::test::Fail;

#[test]
fn reads_words(rt: HostRuntime) -> Result<(), Fail> {
    for (text, want) in [
        (
            b"_a1 False Falsey\n".as_slice(),
            b"name 1:1 0+3 _a1|keyword 1:5 4+5 False|name 1:11 10+6 Falsey|newline 1:17 16+0 |end 2:1 17+0 ".as_slice(),
        ),
        (
            b"\xc3\xa9t\xc3\xa9 + \xe5\x90\x8d\n".as_slice(),
            b"name 1:1 0+5 \xc3\xa9t\xc3\xa9|op 1:5 6+1 +|name 1:7 8+3 \xe5\x90\x8d|newline 1:8 11+0 |end 2:1 12+0 ".as_slice(),
        ),
        (
            b"a\xf0\x90\x90\x80b c\n".as_slice(),
            b"name 1:1 0+6 a\xf0\x90\x90\x80b|name 1:5 7+1 c|newline 1:6 8+0 |end 2:1 9+0 ".as_slice(),
        ),
        (
            b"a\xc2\xb7b\n".as_slice(),
            b"name 1:1 0+4 a\xc2\xb7b|newline 1:4 4+0 |end 2:1 5+0 ".as_slice(),
        ),
        (b"\xc2\xb7\n".as_slice(), b"L2 1:1 0".as_slice()),
        (
            b"True and as assert async await break class continue def del elif else except finally for from global if import in is lambda nonlocal not or pass raise return try while with yield None".as_slice(),
            b"keyword 1:1 0+4 True|keyword 1:6 5+3 and|keyword 1:10 9+2 as|keyword 1:13 12+6 assert|keyword 1:20 19+5 async|keyword 1:26 25+5 await|keyword 1:32 31+5 break|keyword 1:38 37+5 class|keyword 1:44 43+8 continue|keyword 1:53 52+3 def|keyword 1:57 56+3 del|keyword 1:61 60+4 elif|keyword 1:66 65+4 else|keyword 1:71 70+6 except|keyword 1:78 77+7 finally|keyword 1:86 85+3 for|keyword 1:90 89+4 from|keyword 1:95 94+6 global|keyword 1:102 101+2 if|keyword 1:105 104+6 import|keyword 1:112 111+2 in|keyword 1:115 114+2 is|keyword 1:118 117+6 lambda|keyword 1:125 124+8 nonlocal|keyword 1:134 133+3 not|keyword 1:138 137+2 or|keyword 1:141 140+4 pass|keyword 1:146 145+5 raise|keyword 1:152 151+6 return|keyword 1:159 158+3 try|keyword 1:163 162+5 while|keyword 1:169 168+4 with|keyword 1:174 173+5 yield|keyword 1:180 179+4 None|newline 1:184 183+0 |end 1:184 183+0 ".as_slice(),
        ),
        (
            b"x||>y|>z|w||v\n".as_slice(),
            b"name 1:1 0+1 x|op 1:2 1+3 ||>|name 1:5 4+1 y|op 1:6 5+2 |>|name 1:8 7+1 z|op 1:9 8+1 ||name 1:10 9+1 w|op 1:11 10+1 ||op 1:12 11+1 ||name 1:13 12+1 v|newline 1:14 13+0 |end 2:1 14+0 ".as_slice(),
        ),
        (
            b"a**=b**c*=d//=e//f<<=g<<h>>=i>>j\n".as_slice(),
            b"name 1:1 0+1 a|op 1:2 1+3 **=|name 1:5 4+1 b|op 1:6 5+2 **|name 1:8 7+1 c|op 1:9 8+2 *=|name 1:11 10+1 d|op 1:12 11+3 //=|name 1:15 14+1 e|op 1:16 15+2 //|name 1:18 17+1 f|op 1:19 18+3 <<=|name 1:22 21+1 g|op 1:23 22+2 <<|name 1:25 24+1 h|op 1:26 25+3 >>=|name 1:29 28+1 i|op 1:30 29+2 >>|name 1:32 31+1 j|newline 1:33 32+0 |end 2:1 33+0 ".as_slice(),
        ),
        (
            b"==!=<=>=+=-=%=&=|=^=->\n".as_slice(),
            b"op 1:1 0+2 ==|op 1:3 2+2 !=|op 1:5 4+2 <=|op 1:7 6+2 >=|op 1:9 8+2 +=|op 1:11 10+2 -=|op 1:13 12+2 %=|op 1:15 14+2 &=|op 1:17 16+2 |=|op 1:19 18+2 ^=|op 1:21 20+2 ->|newline 1:23 22+0 |end 2:1 23+0 ".as_slice(),
        ),
        (
            b"...+-*%&|^~<>=,:.;@..\n".as_slice(),
            b"op 1:1 0+3 ...|op 1:4 3+1 +|op 1:5 4+1 -|op 1:6 5+1 *|op 1:7 6+1 %|op 1:8 7+1 &|op 1:9 8+1 ||op 1:10 9+1 ^|op 1:11 10+1 ~|op 1:12 11+1 <|op 1:13 12+2 >=|op 1:15 14+1 ,|op 1:16 15+1 :|op 1:17 16+1 .|op 1:18 17+1 ;|op 1:19 18+1 @|op 1:20 19+1 .|op 1:21 20+1 .|newline 1:22 21+0 |end 2:1 22+0 ".as_slice(),
        ),
        (
            b"a....b".as_slice(),
            b"name 1:1 0+1 a|op 1:2 1+3 ...|op 1:5 4+1 .|name 1:6 5+1 b|newline 1:7 6+0 |end 1:7 6+0 ".as_slice(),
        ),
        (b"!\n".as_slice(), b"L2 1:1 0".as_slice()),
        (b"a ? b\n".as_slice(), b"L2 1:3 2".as_slice()),
        (b"$".as_slice(), b"L2 1:1 0".as_slice()),
        (b"a / b\n".as_slice(), b"L2 1:3 2".as_slice()),
    ] {
        shows(&rt, rt.alloc(), text, want)?;
    }
    Ok(())
}

#[test]
fn reads_numbers(rt: HostRuntime) -> Result<(), Fail> {
    for (text, want) in [
        (
            b"0 00 0_0 7 10 1_0\n".as_slice(),
            b"number 1:1 0+1 0|number 1:3 2+2 0|number 1:6 5+3 0|number 1:10 9+1 7|number 1:12 11+2 10|number 1:15 14+3 10|newline 1:18 17+0 |end 2:1 18+0 ".as_slice(),
        ),
        (
            b"0x1F 0X_ff 0o17 0O7 0b101 0B_1\n".as_slice(),
            b"number 1:1 0+4 31|number 1:6 5+5 255|number 1:12 11+4 15|number 1:17 16+3 7|number 1:21 20+5 5|number 1:27 26+4 1|newline 1:31 30+0 |end 2:1 31+0 ".as_slice(),
        ),
        (
            b"9223372036854775807\n".as_slice(),
            b"number 1:1 0+19 9223372036854775807|newline 1:20 19+0 |end 2:1 20+0 ".as_slice(),
        ),
        (b"9223372036854775808\n".as_slice(), b"L5 1:1 0".as_slice()),
        (
            b"0x7fffffffffffffff\n".as_slice(),
            b"number 1:1 0+18 9223372036854775807|newline 1:19 18+0 |end 2:1 19+0 ".as_slice(),
        ),
        (b"0x8000000000000000\n".as_slice(), b"L5 1:1 0".as_slice()),
        (
            b"99999999999999999999999999999999999999\n".as_slice(),
            b"L5 1:1 0".as_slice(),
        ),
        (b"x = 01\n".as_slice(), b"L5 1:5 4".as_slice()),
        (b"1_\n".as_slice(), b"L5 1:1 0".as_slice()),
        (b"1__0\n".as_slice(), b"L5 1:1 0".as_slice()),
        (b"0x\n".as_slice(), b"L5 1:1 0".as_slice()),
        (b"0x_\n".as_slice(), b"L5 1:1 0".as_slice()),
        (b"0b12\n".as_slice(), b"L5 1:1 0".as_slice()),
        (b"1.\n".as_slice(), b"L5 1:1 0".as_slice()),
        (b"1.5\n".as_slice(), b"L5 1:1 0".as_slice()),
        (b"1e5\n".as_slice(), b"L5 1:1 0".as_slice()),
        (b"1if\n".as_slice(), b"L5 1:1 0".as_slice()),
        (b"12\xc3\xa9\n".as_slice(), b"L5 1:1 0".as_slice()),
        (
            b".5\n".as_slice(),
            b"op 1:1 0+1 .|number 1:2 1+1 5|newline 1:3 2+0 |end 2:1 3+0 ".as_slice(),
        ),
        (b"0_1\n".as_slice(), b"L5 1:1 0".as_slice()),
        (b"0_x1\n".as_slice(), b"L5 1:1 0".as_slice()),
        (
            b"1 .\n".as_slice(),
            b"number 1:1 0+1 1|op 1:3 2+1 .|newline 1:4 3+0 |end 2:1 4+0 ".as_slice(),
        ),
    ] {
        shows(&rt, rt.alloc(), text, want)?;
    }
    Ok(())
}
