use crate::tests::table::check;
use std::test::Fail;

const CONDITIONS_AND_COMPARISONS: &str = "\
P1 x if y$
P1 x if y else$
P1 x if y $if z else w
P1 x $else y
P1 x and$
P1 x and $or y
P1 x or $and y
P1 not$
P1 x not $y
P1 x not in$
P1 x in$
P1 x in $in y
P1 x == $not y
P1 x <$
P1 x <$> y
P1 x < $== y
P1 x == y $= z
";

const OPERATORS: &str = "\
P1 x +$
P1 x++$
P1 x + $not y
P1 x ** $not y
P1 -$
P1 ~$
P1 - $not x
P1 x * $* y
P1 x % $% y
P1 x // $// y
P1 x | $| y
P1 x ^$
P1 x & $& y
P1 x << $<< y
P1 x >>$
P1 $* x
P1 x $-> y
P1 x $@ y
P1 x $... y
P1 x = $...
P1 x **$
P1 x ** - $* y
";

const ATOMS: &str = "\
P1 ($)
P1 $)
P1 $]
P1 $}
P1 (x$]
P1 [x$)
P1 (1,$, 2)
P1 ($, 1)
P1 [1,$, 2]
P1 [$, 1]
P1 (1 $2)
P1 [1 $2]
P1 (x $for x in y)
P1 x $y
P1 1 $2
P1 'a' $b
P1 f$'a'
P1 'a' 'b' $1
P1 ($*a)
P1 [$*a]
P1 True $False
P1 (x$:= 1)
P1 (x, y $= 1)
";

const COMPREHENSIONS: &str = "\
P1 [x for $1 in y]
P1 [x for y $of z]
P1 [x for y in z $for a in b]
P1 [x for y in z if a $if b]
P1 [x for y in z if a $else b]
P1 [x for y in z if a $if b else c]
P1 [x, y $for z in w]
P1 [x for y in z$, w]
P1 [x for y in $]
P1 [x for y$]
P1 [x for $in y]
P1 [x for y,$, z in w]
P1 [x for y in z or $: w]
P1 [x for y in z if $]
P1 [x for y$.a in z]
P1 [x for $(y) in z]
P1 [$for x in y]
";

const CALLS_AND_PARTS: &str = "\
P1 1$(2)
P1 f()$()
P1 x[0]$(1)
P1 (f)$(1)
P1 'a'$(1)
P1 x.y()$()
P1 [f]$(1)
P1 None$()
P1 x.$1
P1 x.$(y)
P1 x.$
P1 x[$]
P1 x[1$, 2]
P1 x[1:2$:3]
P1 x[:$:]
P1 x[1 $2]
P1 f(a$=1)
P1 f($*a)
P1 f($**a)
P1 f($,)
P1 f(1,$, 2)
P1 f(1 $2)
P1 f(x $for x in y)
P1 f($:)
P1 x[y$)
P1 f(x$]
P1 f($...)
";

#[test]
fn conditions_and_comparisons(rt: HostRuntime) -> Result<(), Fail> {
    check(&rt, rt.alloc(), CONDITIONS_AND_COMPARISONS)?;
    Ok(())
}

#[test]
fn operators(rt: HostRuntime) -> Result<(), Fail> {
    check(&rt, rt.alloc(), OPERATORS)?;
    Ok(())
}

#[test]
fn atoms(rt: HostRuntime) -> Result<(), Fail> {
    check(&rt, rt.alloc(), ATOMS)?;
    Ok(())
}

#[test]
fn comprehensions(rt: HostRuntime) -> Result<(), Fail> {
    check(&rt, rt.alloc(), COMPREHENSIONS)?;
    Ok(())
}

#[test]
fn calls_and_parts(rt: HostRuntime) -> Result<(), Fail> {
    check(&rt, rt.alloc(), CALLS_AND_PARTS)?;
    Ok(())
}
