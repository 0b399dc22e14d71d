use crate::tests::table::check;
use std::test::Fail;

const KEYWORDS_THAT_ARE_LEFT_OUT: &str = "\
P3 $import x
P3 $from a import b
P3 $as
P3 $async def f(): pass
P3 $await x
P3 $del x
P3 $except: pass
P3 $finally: pass
P3 $global x
P3 $is
P3 $lambda: 1
P3 $nonlocal x
P3 $try: pass
P3 $with a: pass
";

const LEFT_OUT_WORDS_INSIDE: &str = "\
P3 x = $lambda y: y
P3 x $is y
P3 x $is not y
P3 x $as y
P3 x = $await y
P3 f($lambda: 1)
P3 x = ${}
P3 ${1: 2}
P3 f(1, ${2})
P3 x.$class
P3 x: $lambda
P3 raise E $from x
P3 x = y $with z
P3 x if $lambda: 1 else 2
P3 x |> $lambda y: y
P3 return ${}
P3 for $class in x: pass
P3 x ${}
";

const FUNCTIONS_AND_CLASSES_INSIDE: &str = "\
P3 if x:⏎    $def f(): pass
P3 def f():⏎    $def g(): pass
P3 def f():⏎    $class A:⏎        pass
P3 while x: $class A: pass
P3 pass; $def f(): pass
P3 class A:⏎    $class B:⏎        x: int
P3 class A:⏎    def f(self):⏎        $class B:⏎            pass
P3 class A:⏎    $import x
P3 for x in y:⏎    pass⏎    $class A:⏎        pass
";

const OTHER_KEYWORDS: &str = "\
P1 $elif x: pass
P1 $else: pass
P1 $and x
P1 $or x
P1 $in x
P1 x = $yield 1
P1 ($yield 1)
P1 x = $pass
P1 f($return)
P1 x = $print
P1 x = $print(1)
P1 ($print(1))
P1 [$print]
P1 x.$if
P1 x = $for
P1 x = $while
P3 yield $from x
";

#[test]
fn keywords_that_are_left_out(rt: HostRuntime) -> Result<(), Fail> {
    check(&rt, rt.alloc(), KEYWORDS_THAT_ARE_LEFT_OUT)?;
    Ok(())
}

#[test]
fn left_out_words_inside(rt: HostRuntime) -> Result<(), Fail> {
    check(&rt, rt.alloc(), LEFT_OUT_WORDS_INSIDE)?;
    Ok(())
}

#[test]
fn functions_and_classes_inside(rt: HostRuntime) -> Result<(), Fail> {
    check(&rt, rt.alloc(), FUNCTIONS_AND_CLASSES_INSIDE)?;
    Ok(())
}

#[test]
fn other_keywords(rt: HostRuntime) -> Result<(), Fail> {
    check(&rt, rt.alloc(), OTHER_KEYWORDS)?;
    Ok(())
}
