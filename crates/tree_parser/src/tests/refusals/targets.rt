use crate::tests::table::check;
use std::test::Fail;

const NO_TARGETS: &str = "\
P1 1 $= 2
P1 f() $= 1
P1 (x) $= 1
P1 (x, y) $= 1
P1 [x] $= 1
P1 -x $= 1
P1 x + y $= 1
P1 x[1:2] $= y
P1 x[:] $+= y
P1 x.f() $= 1
P1 x if y else z $= 1
P1 not x $= 1
P1 x < y $= 1
P1 x and y $= 1
P1 x ** y $= 1
P1 'a' $= 1
P1 True $= 1
P1 None $+= 1
P1 f(x) $+= 1
P1 [] $= x
P1 x, 1 $= 2
P1 x, f() $= 2
P1 1, x $= 2
P1 x, y + 1 $= 2
P1 x + 1, y $= 2
P1 x, -y $= 2
P1 x, (y) $= 2
P1 (x), y $= 2
P1 x, y[1:] $= 2
P1 x, $*y = z
P1 $*x, y = z
P1 x.f().g() $= 1
P1 x[0].f() $-= 1
P1 [x for x in y] $= 1
";

const PRINT_AMONG_TARGETS: &str = "\
P1 print$
P1 print $x
P1 print$[0] = 1
P1 print$.x = 1
P1 print, x$
P1 print,$
P1 x, print$
P1 x, print$(1)
P1 x, print$[0] = 1
P1 x, print$.y = 1
P1 print, x $+= 1
P1 print, 1$
P1 print, $-x = 1
P1 print, f()$
P1 print, x $+ 1 = 2
P1 1 + 1, $print = 2
P1 x + 1, $print
P1 (x, $print)
P1 print(1) $= 2
P1 print(1)$, x
P1 print, print$(1)
";

#[test]
fn no_targets(rt: HostRuntime) -> Result<(), Fail> {
    check(&rt, rt.alloc(), NO_TARGETS)?;
    Ok(())
}

#[test]
fn print_among_targets(rt: HostRuntime) -> Result<(), Fail> {
    check(&rt, rt.alloc(), PRINT_AMONG_TARGETS)?;
    Ok(())
}
