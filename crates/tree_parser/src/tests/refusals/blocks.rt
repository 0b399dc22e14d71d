use crate::tests::table::check;
use std::test::Fail;

const BRANCHES: &str = "\
P1 if $: pass
P1 if x$⏎    y
P1 if x $= 1: pass
P1 if x$, y: pass
P1 if x: $if y: pass
P1 if x: $while y: pass
P1 if x: $for y in z: pass
P1 if x:$: pass
P1 if x:⏎$y
P1 if x:⏎$
P1 if x: pass⏎else$⏎    y
P1 if x: pass⏎else: pass⏎$else: pass
P1 if x: pass⏎else: pass⏎$elif y: pass
P1 if x: pass⏎elif $: pass
P1 if x: pass⏎else $if y: pass
P1 if x: pass⏎else $y: pass
P1 if x:⏎    pass⏎y⏎$else: pass
P1 if x: pass; $else: pass
P1 if $print(1): pass
P1 if x:⏎    y⏎elif$: z
P1 if x: y $else z
P1 if x: pass⏎    $y
P1 if x:⏎    pass;$; x
P1 if x:⏎$else: pass
P1 if x if y$: pass
";

const LOOPS: &str = "\
P1 while $: pass
P1 while x$, y: pass
P1 while x: pass⏎$else: pass
P1 while x$⏎    y
P1 for $1 in x: pass
P1 for x $= 1
P1 for x$.y in z: pass
P1 for x$[0] in z: pass
P1 for $(x, y) in z: pass
P1 for x in $: pass
P1 for x in y$⏎    z
P1 for x,$, y in z: pass
P1 for x in y: pass⏎$else: pass
P1 for x $not in y: pass
P1 for x in y if z$: pass
P1 for $in x: pass
P1 for x$
P1 for $*x in y: pass
P1 for x in $*y: pass
P1 for x in y $|> f: pass
P1 for x in y,$, z: pass
P1 for x in y: $for a in b: pass
P1 for x in $print(y): pass
P1 while x:⏎    pass⏎        $y
P1 for x, y $= z
P1 for $None in x: pass
";

const PARALLEL_LOOPS: &str = "\
P1 @par⏎$x = 1
P1 @par⏎$while x: pass
P1 @par($)⏎for x in y: pass
P1 @par($x=1)⏎for x in y: pass
P1 @par(num_threads$)⏎for x in y: pass
P1 @par(num_threads=$0)⏎for x in y: pass
P1 @par(chunk_size=$0)⏎for x in y: pass
P1 @par(chunk_size=$65537)⏎for x in y: pass
P1 @par(schedule=$'x')⏎for x in y: pass
P1 @par(schedule=$dynamic)⏎for x in y: pass
P1 @par(schedule='static', $schedule='static')⏎for x in y: pass
P1 @par(chunk_size=1,$)⏎for x in y: pass
P1 @par(num_threads=$-1)⏎for x in y: pass
P1 @par(chunk_size=$'1')⏎for x in y: pass
P1 @par $for x in y: pass
P1 @$parallel⏎for x in y: pass
P1 @par(schedule='static' $'x')⏎for x in y: pass
P1 @par⏎$@par⏎for x in y: pass
P1 @par(num_threads=1, $num_threads=2)⏎for x in y: pass
P1 @par(num_threads=1, chunk_size=2, schedule='guided'$, x=1)⏎for x in y: pass
P1 if x:⏎    @par⏎$y
P1 @$
P1 @par$: x
P1 @par(num_threads=1 $+ 1)⏎for x in y: pass
P1 @par⏎$if x: pass
P1 @par⏎    $for x in y: pass
P1 @par(num_threads $1)⏎for x in y: pass
P1 @par($)
P1 @par($1)
P1 if x: $@par
P3 @par⏎$def f(): pass
P3 @par⏎$async
P3 @$class
P1 @par$.x
";

#[test]
fn branches(rt: HostRuntime) -> Result<(), Fail> {
    check(&rt, rt.alloc(), BRANCHES)?;
    Ok(())
}

#[test]
fn loops(rt: HostRuntime) -> Result<(), Fail> {
    check(&rt, rt.alloc(), LOOPS)?;
    Ok(())
}

#[test]
fn parallel_loops(rt: HostRuntime) -> Result<(), Fail> {
    check(&rt, rt.alloc(), PARALLEL_LOOPS)?;
    Ok(())
}
