//! Sources with one token left out, doubled, put in or changed, and the places at which a general recogniser of the grammar (Earley's) refuses them.

use crate::tests::table::check;
use std::test::Fail;

const EDITED_1: &str = "\
P1 $%2==0
P1 $** ''
P1 $...
P1 $:
P1 $in
P1 'a' $-= y
P1 'a' $iter 'b'
P1 'a' $while 'b'
P1 'a' not $True
P1 'a'$None [0] = x
P1 'a'$elif .b
P1 'abc'[0$, ]
P1 'abc'[schedule $1:]
P1 ($for x)
P1 (x ** y) < $** z
P1 (x + $|> y) * z
P1 (x + $} y).f()
P1 (x < y) < $else z
P1 (x and $else) and z
P1 (x if y else $elif) + 1
P1 (x$@ )
P1 (x& $).y
P1 (x)$None .y = z
P1 (x)$par .y
P1 (x).$or
P1 (x, $raise), z
P1 (x, end$='')
P1 (x,$; )
P1 + $%= y
P1 + $not x and y
P1 + x $|= y
P1 - $< y
P1 -f($;)
P1 -x if  $< 0 else +x
P1 -x if $) < 0 else +x
P1 -x if y ** $< 0 else +x
P1 -x[0$= ]
P1 1 $1
P1 1 $par 2 * 3 - 4
P1 1 $print(x)
P1 1 $x
P1 1 * $.x
P1 @ $(x)
P1 @ $1 - 2 - 3 - 4 - 5
P1 @$.y + z.w * v.u
P1 @$for par⏎for i in range(3):⏎    last = i⏎print(last)
P1 @par($list=10)⏎for x, y in z:⏎    x += y
P1 @par(chunk_size=10)⏎$-> x, y in z:⏎    x += y
P1 @par(num_threads=4, schedule='guided'$& )⏎for x in y: z
P1 @par⏎for $||> in range(3):⏎    break
P1 True $-= y
P1 True and False $-> None
P1 True not $False or None
P1 [$:]
P1 [$@ x]
";

const EDITED_2: &str = "\
P1 [$elif ]
P1 [$| ]
P1 [0] $= y
P1 [1& $, 2][0]
P1 [1, $if][0]
P1 [x + 1 for $: in y]
P1 [x for $not in y]
P1 [x for x $// in y]
P1 [x for x in y if z and $]
P1 [x for x, $None in y]
P1 [x for x, in $raise]
P1 assert $< if y else z, w
P1 assert $@ x
P1 assert $^ 1 == 2, 'no'
P1 assert $assert
P1 assert $elif x
P1 assert $} x, 'a'
P1 assert$
P1 class $'a'
P1 class $* A:⏎    pass
P1 class $<< A:⏎    x: int⏎print(A(1))
P1 class $False
P1 class $and not y
P1 def $&(): pass
P1 def $, f():⏎    pass⏎def f():⏎    pass
P1 def $= [0]
P1 def $False
P1 def $] f():⏎    pass
P1 def $for x in y:⏎    z
P1 def $in f(x):⏎    f([x])⏎f(1)
P1 def $|> f(x):⏎    f([x])⏎f(1)
P1 def calc(x, $+ y):⏎    return x + y ** 2⏎a = 2⏎print(calc(a, 3))
P1 def f($'a' ): pass
P1 def f() $... int: return 1
P1 def f(n: int) -> int:⏎    return $raise 0 if n == 0 else f(n - 1)⏎print(f(200))
P1 def f(x):⏎    f([x])⏎f(1$|> )
P1 def gen(n):⏎    for i in range(n):⏎        assert $yield i⏎5 |> gen |> print
P1 def gen(n):⏎    for i in range(n):⏎        yield i⏎5 |> $pass |> print
P1 def gen(n):⏎    for i in range(n):⏎        yield i⏎range(1, 4) |> iter $* gen |> print(end=' ')
P1 end $1 .x
P1 end $print(x, y)
P1 f($: x,)
P1 f($assert x)
P1 f(x if $... else z)
P1 f(x$||> )
P1 f(x, $|> y)
P1 f<$)
P1 for $None in y,: z
P1 for $pass, in y: z
P1 for c in 'abc'$sep print(c, end='')
P1 for i, c in enumerate('ab') $print(i, c)
P1 for x $if in y: z
P1 for x $not in y
P1 for x in $return, z: w
P1 h = [0] * 3⏎@par⏎for i in range(10):⏎    h[ $% 3] += i⏎print(h)
";

const EDITED_3: &str = "\
P1 i = 0⏎while $& i < 3:⏎    print(i)⏎    i += 1
P1 i = 0⏎while i < 3:⏎    print(i)⏎    i += $print 1
P1 if $**: y
P1 if $: y
P1 if $elif: y⏎elif z: w
P1 if x $^= y
P1 if x$
P1 if x: # a⏎    # b⏎    y⏎⏎    $)⏎
P1 if x: y; $||> z
P1 if x: y⏎elif $and z: w
P1 if x: y⏎elif $assert: w⏎elif v: u⏎else: t
P1 if x: ⏎$elif z: w
P1 if x:⏎    $and⏎    z
P1 if x:⏎    if y:⏎        ⏎$else:⏎    w
P1 if x:⏎    y⏎$:⏎    z
P1 if x:⏎    y⏎$or
P1 if x:⏎  y⏎  $... z:⏎     w⏎  v⏎u
P1 if$*-y**-z
P1 iter $1
P1 not $@
P1 not (x and $)
P1 not (x and y== $)
P1 not not $**
P1 not x <  $or z
P1 not x and $+= y
P1 not x if y else $==
P1 p = 1⏎@par⏎for i in range(40):⏎    p *= 3⏎$&(p)
P1 par $1
P1 pass$] ; break; continue
P1 pass; break $continue
P1 print $True
P1 print $if x:⏎    y⏎    z
P1 print $not x == y
P1 print $x.y
P1 print$**y)
P1 print$==)
P1 print$|> ()
P1 print($='a')
P1 print(($|> x))
P1 print(1 < 2 < $}, 1 if True else 1 // 0)
P1 print(1 < 2 < 3, 1 if 'a' $True else 1 // 0)
P1 print(end$}'a', sep='b')
P1 print(len('a' $yield * 16777216))
P1 print(sep $end)
P1 print(sep $sep='a')
P1 print(sep$-> ='a')
P1 print(sep, end$-> )
P1 print(x, end$;'')
P1 print(x, end='b', sep$== 'a')
P1 print(x, iter $sep='a')
P1 raise $& y ^ z
P1 raise $True E()
P1 raise $^
P1 raise $if('a')
P1 raise $return x,
";

const EDITED_4: &str = "\
P1 raise E($. 'a')
P1 raise E('a'$assert )
P1 raise x $in y:⏎    z
P1 return $*= y + 1
P1 return $// x, y
P1 return $<< x, y
P1 return not $for x
P1 sep $break
P1 sep $print(sep='a')
P1 sep $x
P1 total = 0⏎$|>par⏎for i in range(100000):⏎    total += i * i⏎print(total)
P1 while $// x:⏎    y⏎    z
P1 while $//= y
P1 while $^ y | z
P1 while $in: y
P1 while $raise x: y
P1 while $yield x
P1 while 1 < 2:⏎    $== pass
P1 while x < y and not z&$⏎    x += 1
P1 x $par 1
P1 x & $* -y
P1 x & $yield y ^ z
P1 x & y ^ $if z
P1 x * $elif * z
P1 x *= y + $if 1
P1 x +  $* z
P1 x + $or y
P1 x + 1 $else y else z + 2
P1 x + y * $<
P1 x + y + $| z
P1 x + y - z * w < $// v
P1 x += $+=
P1 x , $% y // z
P1 x , $< y
P1 x - $== y == z
P1 x // $@ y % z
P1 x // $not % z
P1 x //= $, y
P1 x //= $and y
P1 x < $+= 1
P1 x < $< y
P1 x < $@ y
P1 x < $assert and y < z
P1 x < y <= $if
P1 x < y <= $}
P1 x < y >  $>= w != v == u
P1 x << $&= y
P1 x << y + $elif
P1 x << y << $^
P1 x = $^y +⏎    z)
P1 x = $yield y,
P1 x = 1;  $= 2;
P1 x == $and not y
P1 x == y == $return
P1 x >>  $& z
";

const EDITED_5: &str = "\
P1 x >>= $*
P1 x ^ y | $assert z
P1 x ^= $: y
P1 x ^= $yield
P1 x and $print y or z
P1 x if $for y else z
P1 x if not y else $return
P1 x if y else $, z
P1 x if y or z else $< w
P1 x in y in $-> z
P1 x or $==
P1 x or y ||> $if z else w
P1 x | $//= y
P1 x | y == $if & w
P1 x |= $]
P1 x |> $+= 1
P1 x |> f |> g(1, ... $...) ||> print
P1 x |> f |> g(1, ...) ||> $True print
P1 x$]
P1 x%$print 2==0
P1 x*$
P1 x*$->y**-z
P1 x,$]
P1 x. $-= z
P1 x.$:]
P1 x.$assert.z
P1 x.$return
P1 x.f()$raise .g()
P1 x.y ** $== z
P1 x.y|$)
P1 x: $-
P1 x: $->
P1 x: $...
P1 x: $;
P1 x: $<
P1 x: $^ str
P1 x: $return bool
P1 x: $||>
P1 x: $}
P1 x: $~ int = 1
P1 x: iter $None
P1 x: list[list[A]$elif ]
P1 x: print $None
P1 x:$]
P1 x:y$.z
P1 x; $; z
P1 x; y; $, z
P1 x; y; $<< z
P1 x<<$, 1>>2<<3
P1 x<<1$>>==<<3
P1 x<<1>>$else<<3
P1 x<<1>>$|<<3
P1 x[$**].z
P1 x[$<< 0] ** y[1]
P1 x[$assert] ** y[1]
";

const EDITED_6: &str = "\
P1 x[0] $else = y
P1 x[1:2]$end [0] = y
P1 x[:$pass -1]
P1 x[y + 1:z ^ $* 2]
P1 x[y] $while z
P1 x[y] += $// z
P1 x[y]$@ .z *= w, v
P1 x[y].$|> = w
P1 x[y][$return z]
P1 xs = $<< []
P1 xs = $]
P1 xs = $|> []
P1 xs = True$]
P1 xs = [1, 2]⏎$+= print(xs[2])
P1 xs = []⏎$.append(xs)
P1 xs = []⏎$<.append(xs)
P1 xs = []⏎$in xs.append(xs)
P1 xs not $[]
P1 x||> $,
P1 x||>$2==0
P1 yield $;, y
P1 yield $or 1
P1 yield $yield x
P1 yield $|
P1 yield $|= y
P1 yield$: list
P1 ~$== -1
P1 ~x ** $,~y
P1 ~x ** -~$in
P3 (x ** y) $import ** z
P3 -$lambda~x
P3 def f() -> $lambda int: return 1
P3 def g():⏎    print(1)⏎    yield 1⏎sep $def f(x):⏎    pass⏎g() |> iter ||> f
P3 for $def f() -> int: return 1
P3 for $from in y,: z
P3 if x: $from⏎elif z: w
P3 last = 0⏎@$def par⏎for i in range(3):⏎    last = i
P3 not $def
P3 not x and $lambda y
P3 p = 1⏎@par⏎for i in range(40):⏎    $lambda p *= 3⏎print(p)
P3 while $lambda x < y and not z:⏎    x += 1
P3 x $lambda y
P3 x *= $import + 1
P3 x // y % $def
P3 x < y <= $def z
P3 x << y + $is
P3 x <<= $def y
P3 x = $def y,
P3 x or $class y
P3 x%2==$from
P3 x.$class.z
P3 x.f()$is .g()
P3 x: $import
P3 x[y]$class .z
P3 xs = [[0]]⏎@par⏎$is for i in range(1):⏎    xs[i] = [i]
";

#[test]
fn edited_1(rt: HostRuntime) -> Result<(), Fail> {
    check(&rt, rt.alloc(), EDITED_1)?;
    Ok(())
}

#[test]
fn edited_2(rt: HostRuntime) -> Result<(), Fail> {
    check(&rt, rt.alloc(), EDITED_2)?;
    Ok(())
}

#[test]
fn edited_3(rt: HostRuntime) -> Result<(), Fail> {
    check(&rt, rt.alloc(), EDITED_3)?;
    Ok(())
}

#[test]
fn edited_4(rt: HostRuntime) -> Result<(), Fail> {
    check(&rt, rt.alloc(), EDITED_4)?;
    Ok(())
}

#[test]
fn edited_5(rt: HostRuntime) -> Result<(), Fail> {
    check(&rt, rt.alloc(), EDITED_5)?;
    Ok(())
}

#[test]
fn edited_6(rt: HostRuntime) -> Result<(), Fail> {
    check(&rt, rt.alloc(), EDITED_6)?;
    Ok(())
}
