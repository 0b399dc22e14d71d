use crate::tests::table::check;
use std::test::Fail;

const FUNCTIONS: &str = "\
P1 def $1(): pass
P1 def f$: pass
P1 def f($1): pass
P1 def f(x $y): pass
P1 def f(x,$, y): pass
P1 def f($*args): pass
P1 def f($,): pass
P1 def f(x: $1): pass
P1 def f(x=$): pass
P1 def f(x: int $y): pass
P1 def f() $- 1: pass
P1 def f() ->$: pass
P1 def f() -> int$⏎    pass
P1 def f()$⏎    pass
P1 def f(self$.x): pass
P1 def f$[T](x): pass
P1 def f(x=1 $2): pass
P1 def f(x: int = 1 $= 2): pass
P1 def f(): $if x: pass
P3 def f(): $def g(): pass
P3 def $lambda(): pass
P1 def f():⏎$pass
P1 def f():⏎$
P1 def f() -> int$, int: pass
P1 def f(x :$= 1): pass
P1 def f(x)$(y): pass
P1 def$
P1 def f(x, y$; z): pass
P1 def $None(): pass
P1 def f(x=1, $*y): pass
P1 def f(x: list, y$[int]): pass
P1 def f(): pass⏎$else: pass
P1 def f($...): pass
P1 def f(x=$print): pass
P1 def f(x$->y): pass
";

const CLASSES: &str = "\
P1 class $1:⏎    pass
P1 class A$(B):⏎    pass
P1 class A: $pass
P1 class A$⏎    pass
P1 class A:⏎    x$
P1 class A:⏎    x: int $= 1
P1 class A:⏎    x: int$; y: int
P1 class A:⏎    $if x: pass
P1 class A:⏎    x $= 1
P1 class A:⏎    'doc' $'b'
P1 class A:⏎    pass$; pass
P1 class A:⏎    $1
P1 class A:⏎    $@par
P1 class A:⏎    x: int⏎    $return
P1 class A:⏎$x
P1 class A:⏎    x: $1
P1 class A:⏎    def f(self): pass⏎    $while x: pass
P1 class A:⏎$
P1 class A:⏎    x: int⏎        $y: int
P1 class A:⏎    x$, y: int
P1 class A:⏎    x$.y: int
P1 class A:⏎    print$(1)
P1 class A:⏎    $(x): int
P1 class A:⏎    'doc'$.x
P1 class A:⏎    'doc'$; pass
P3 class $def:⏎    pass
P1 class A$[T]:⏎    pass
P1 class A:⏎    pass⏎$else: pass
P1 class A:⏎    $None
";

#[test]
fn functions(rt: HostRuntime) -> Result<(), Fail> {
    check(&rt, rt.alloc(), FUNCTIONS)?;
    Ok(())
}

#[test]
fn classes(rt: HostRuntime) -> Result<(), Fail> {
    check(&rt, rt.alloc(), CLASSES)?;
    Ok(())
}
