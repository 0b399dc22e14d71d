use crate::tests::table::check;
use std::test::Fail;

const WORDS_ALONE: &str = "\
P1 pass $x
P1 break $1
P1 continue $x
P1 return 1 $2
P1 return $,
P1 yield$
P1 yield $,
P1 raise$
P1 raise $1
P1 raise E('a'$, 'b')
P1 raise a$.b
P1 raise E()$.x
P1 raise E('a')$, 1
P1 raise E $'a'
P1 assert$
P1 assert x,$
P1 assert x, y$, z
P1 assert x $= y
P1 return x $= 1
P1 return $print(1)
P1 yield x $= 1
P1 raise E($,)
P1 raise E('a'$,)
";

const LINES: &str = "\
P1 $;
P1 x;$; y
P1 x; $if y: pass
P1 x; $while y: pass
P1 x; $@par
P1     $x
P1 x⏎    $y
P1 pass⏎$else: pass
P1 if x:⏎    y⏎        $z
P1 $, x
P1 x,$, y
P1 x,$: int
P1 $= 1
P1 $: int
P1 $. x
P1 $-> x
P1 $+= 1
P1 $|> f
P1 $...
";

const TYPES: &str = "\
P1 x: $1
P1 x: int $int
P1 x: list[$]
P1 x: list[int$, int]
P1 x: tuple[$]
P1 x: tuple[int,$]
P1 x: int$[int]
P1 x: A$[int]
P1 x: $'A'
P1 x: None$[int]
P1 x: A$.b
P1 x: list[int$)
P1 x: list[list[int] $x]
P1 x: int = 1 $= 2
P1 x: int =$
P1 x: int $+= 1
P1 x[0]$: int
P1 x.y$: int
P1 (x)$: int
P1 x, y$: int
P1 f()$: int
P1 1$: int
P1 x:$= 1
P1 x: $[int]
P1 x: $(int)
P1 x: int$, y
P1 x: int $| None
P1 x:$
P1 x: List[$1]
P1 x: Tuple[int, $1]
P1 print: $1
";

const ASSIGNMENTS: &str = "\
P1 x =$
P1 x = y $= 1
P1 x = 1 $= 2
P1 x, y = a, b $= c
P1 x = $,
P1 x = 1,$, 2
P1 x += y $= z
P1 x += 1 $+= 2
P1 x, y $+= 1
P1 x +=$
P1 x = y $+= 1
P1 x = 1 $2
P1 x = (1)$: 2
P1 x = y $|> f
P1 x $-> 1
P1 x = $*y
P1 x = not$
P1 x; y $z
P1 x[0] = $= 1
";

#[test]
fn words_alone(rt: HostRuntime) -> Result<(), Fail> {
    check(&rt, rt.alloc(), WORDS_ALONE)?;
    Ok(())
}

#[test]
fn lines(rt: HostRuntime) -> Result<(), Fail> {
    check(&rt, rt.alloc(), LINES)?;
    Ok(())
}

#[test]
fn types(rt: HostRuntime) -> Result<(), Fail> {
    check(&rt, rt.alloc(), TYPES)?;
    Ok(())
}

#[test]
fn assignments(rt: HostRuntime) -> Result<(), Fail> {
    check(&rt, rt.alloc(), ASSIGNMENTS)?;
    Ok(())
}
