//! Statements under so many `if` that their own height may be 1 to 6: what fits, and what is too deep at which token, by a
//! general recogniser (Earley's) of the grammar within that height.

use crate::tests::table::check_in;
use std::test::Fail;

const HEIGHT_1: &str = "\
P2 $'a'.b
P2 $(x + x, y,)
P2 $(x + y).f()
P2 $(x + y)[z] = w
P2 $(x, ) y), z
P2 $-(x * y)
P2 $2 ** 3 ** 4 ** 5
P2 $None
P2 $[(x, y), (z,)]
P2 $[x for x in y or z if w or v]
P2 $[x][0] = y
P2 $for x in y:⏎    if x: break⏎    else: continue
";

const HEIGHT_1_B: &str = "\
P2 $for x, y, in z: w
P2 $if x:⏎    if y:⏎        z⏎else:⏎    w
P2 $while x < y and not z:⏎    x += 1
P2 $x %= x + y
P2 $x + (x).y = z
P2 $x - y - z
P2 $x < y > z >= w != v == u
P2 $x << y + z
P2 $x = [y, z]
P2 $x = y, z
P2 $x == y or not z
P2 $x.y
";

const HEIGHT_1_C: &str = "\
P2 $x.y.z
P2 $x: Tuple[list[int], tuple[bool, None]] = (1, 2)
P2 $x: import A
P2 $x[1:2][3]
P2 $x[y]
P2 print($- end='a', sep='b')
P2 print($end='a', sep='b')
P2 print($x, y, sep='a', end='b')
P1 $] f(x, y)
P1 $] if x: y
P1 $] x[y].z, w = -1, [2]
P3 $def f() -> int: return 1
";

const HEIGHT_1_D: &str = "\
P3 print($import (x))
ok pass; break; continue
";

const HEIGHT_2: &str = "\
P2 $(x + y) * z
P2 $(x if y else z) if w else v
P2 $- None
P2 $-x[0]
P2 $not True
P2 'abc'$[1:]
P2 [$x for x in y if z]
P2 [$x for x, y, in z]
P2 [$x x + 1 for x in y]
P2 [$x]
P2 f$(x)
P2 if x:⏎    $y⏎elif z:⏎    w⏎else:⏎    v
";

const HEIGHT_2_B: &str = "\
P2 x $+ 1; f(x); -y
P2 x $+ print(x, sep='a')
P2 x $+ x or y
P2 x $+ x, y,
P2 x $- -y
P2 x $< y > z >= w != v == u
P2 x $== y == z
P2 x $[x if y else z]
P2 x $in y in z
P2 x $not in y
P2 x $or (y or z)
P2 x $| y == z & w
";

const HEIGHT_2_C: &str = "\
P2 x *= y $+ 1
P2 x = [$y, z]
P2 x$, y
P2 x$, y = y, x
P2 x$, y[0], z.w = v
P2 x$[1:2][3]
P2 x$[y if z else w:v1 ]
P2 yield x$, y
P1 print $not True
P1 x $1 < y
P1 x: int = 1 $y if z else w
P3 $class A:⏎    x: int
";

const HEIGHT_2_D: &str = "\
P3 $import 1 .x
ok ''
ok pass
ok print(x, sep='a')
ok print(x, y)
ok raise E
ok x //= y
ok x <<= y
ok x = y
ok x |= y
";

const HEIGHT_3: &str = "\
P2 (x $+ y) * z
P2 (x $+ y)[z] = w
P2 -x $** y
P2 [$(... x, y), (z,)]
P2 [f$(x) for x, y in g(z) if not w]
P2 [x for x in y if x $in [z for z in w]]
P2 f($(x, y))
P2 f(x)$.y
P2 if x:⏎    if y:⏎        $z⏎else:⏎    w
P2 not f$()
P2 not x $< y <= z
P2 x ** $-y
";

const HEIGHT_3_B: &str = "\
P2 x ** $-y * z
P2 x - y $- z
P2 x << y $+ z
P2 x [x]$[0] = y
P2 x ^ y $| z
P2 x if y $or z else w
P2 x.f$().y = z
P2 x.f$()import .y = z
P2 x.y$, z, = w
P2 x.y$.z = w
P2 x: list[tuple$[int, list[A]]] = [[y]]
P2 x[:$-1]
";

const HEIGHT_3_C: &str = "\
P2 yield -x$, y
P1 1 $x *= y + 1
P1 for $... x, y, in z: w
P1 x in y $x. in z
P1 x |> f |> g(1, ...) ||> $- print
P1 x: print $tuple
P3 $def f():⏎    if x:⏎        return⏎    yield y
ok []
ok fnot (x)
ok for i, c in enumerate('ab'): print(i, c)
ok for x in y:⏎    if x: break⏎    else: continue
ok if x: # a⏎    # b⏎    y⏎⏎    z⏎
";

const HEIGHT_3_D: &str = "\
ok if x: y
ok print((x))
ok print(x, y, sep='a', end='b')
ok x or y
ok x |= y
ok x[1:2]
ok yield x, y
";

const HEIGHT_4: &str = "\
P2 -x[x$. 0]
P2 1 - 2 - 3 $- 4 - 5
P2 [x for x in y if x in [$z for z in w]]
P2 f(- $(x, y))
P2 not x < y $or z
P2 x ** -x$. y * z
P2 x[y].z$, w = -1, [2]
P1 return (x, y$] )
P1 while x:⏎    $) while y:⏎        break⏎    continue
P1 x - $and not y
P1 x << y $x + z
P1 x [x$, y,]
";

const HEIGHT_4_B: &str = "\
P1 x$... : bool
ok None
ok [x + 1 for x in y]
ok [x for x in y or z if w or v]
ok assert x
ok f((x, y))
ok if x:⏎    y⏎elif z:⏎    w⏎else:⏎    v
ok x ** -y
ok x < y <= z
ok x.y = z
ok x[0], y = z
ok x[y]
";

const HEIGHT_4_C: &str = "\
ok yield -x, y
";

const HEIGHT_5: &str = "\
P2 1 - 2 - 3 - 4 $- 5
P2 x + -(x $* y)
P2 x or (y or x $+ z)
P1 $, x not in y in z
P1 (x + $print y)[z] = w
P1 [$) x]
P1 while x $x: y
P1 x $1 |= y
P1 x - $, y - z
ok - ~-1
ok -x ** x + y
ok 2 ** 3 ** 4 ** 5
";

const HEIGHT_5_B: &str = "\
ok [(x, y), (z,)]
ok f(x, y)
ok not x if y else z
ok print((xx , y))
ok raise E('a')
ok x ** -y * z
ok x - -y
ok x, y = y, x
ok yield x
";

const HEIGHT_6: &str = "\
P1 $, x, y
P1 [x for x in y if x in [] $z for z in w]]
P1 assert x if y $1 else z, w
P1 x - $if y else z
P1 x not $<<= y
P1 x.$1 y
ok 'a'.b
ok (x + y).f()
ok (x).y = z
ok [x for x in y if z]
ok [x, y,]
ok if x: # a⏎    # b⏎    y⏎⏎    z⏎
";

const HEIGHT_6_B: &str = "\
ok if x: y⏎elsex : z
ok not (x and y)
ok print((x, y))
ok while x:⏎    while y:⏎        break⏎    continue
ok x in y
ok x, y[0], z.w = v
";

#[test]
fn height_1(rt: HostRuntime) -> Result<(), Fail> {
    check_in(&rt, rt.alloc(), 99, HEIGHT_1)?;
    Ok(())
}

#[test]
fn height_1_b(rt: HostRuntime) -> Result<(), Fail> {
    check_in(&rt, rt.alloc(), 99, HEIGHT_1_B)?;
    Ok(())
}

#[test]
fn height_1_c(rt: HostRuntime) -> Result<(), Fail> {
    check_in(&rt, rt.alloc(), 99, HEIGHT_1_C)?;
    Ok(())
}

#[test]
fn height_1_d(rt: HostRuntime) -> Result<(), Fail> {
    check_in(&rt, rt.alloc(), 99, HEIGHT_1_D)?;
    Ok(())
}

#[test]
fn height_2(rt: HostRuntime) -> Result<(), Fail> {
    check_in(&rt, rt.alloc(), 98, HEIGHT_2)?;
    Ok(())
}

#[test]
fn height_2_b(rt: HostRuntime) -> Result<(), Fail> {
    check_in(&rt, rt.alloc(), 98, HEIGHT_2_B)?;
    Ok(())
}

#[test]
fn height_2_c(rt: HostRuntime) -> Result<(), Fail> {
    check_in(&rt, rt.alloc(), 98, HEIGHT_2_C)?;
    Ok(())
}

#[test]
fn height_2_d(rt: HostRuntime) -> Result<(), Fail> {
    check_in(&rt, rt.alloc(), 98, HEIGHT_2_D)?;
    Ok(())
}

#[test]
fn height_3(rt: HostRuntime) -> Result<(), Fail> {
    check_in(&rt, rt.alloc(), 97, HEIGHT_3)?;
    Ok(())
}

#[test]
fn height_3_b(rt: HostRuntime) -> Result<(), Fail> {
    check_in(&rt, rt.alloc(), 97, HEIGHT_3_B)?;
    Ok(())
}

#[test]
fn height_3_c(rt: HostRuntime) -> Result<(), Fail> {
    check_in(&rt, rt.alloc(), 97, HEIGHT_3_C)?;
    Ok(())
}

#[test]
fn height_3_d(rt: HostRuntime) -> Result<(), Fail> {
    check_in(&rt, rt.alloc(), 97, HEIGHT_3_D)?;
    Ok(())
}

#[test]
fn height_4(rt: HostRuntime) -> Result<(), Fail> {
    check_in(&rt, rt.alloc(), 96, HEIGHT_4)?;
    Ok(())
}

#[test]
fn height_4_b(rt: HostRuntime) -> Result<(), Fail> {
    check_in(&rt, rt.alloc(), 96, HEIGHT_4_B)?;
    Ok(())
}

#[test]
fn height_4_c(rt: HostRuntime) -> Result<(), Fail> {
    check_in(&rt, rt.alloc(), 96, HEIGHT_4_C)?;
    Ok(())
}

#[test]
fn height_5(rt: HostRuntime) -> Result<(), Fail> {
    check_in(&rt, rt.alloc(), 95, HEIGHT_5)?;
    Ok(())
}

#[test]
fn height_5_b(rt: HostRuntime) -> Result<(), Fail> {
    check_in(&rt, rt.alloc(), 95, HEIGHT_5_B)?;
    Ok(())
}

#[test]
fn height_6(rt: HostRuntime) -> Result<(), Fail> {
    check_in(&rt, rt.alloc(), 94, HEIGHT_6)?;
    Ok(())
}

#[test]
fn height_6_b(rt: HostRuntime) -> Result<(), Fail> {
    check_in(&rt, rt.alloc(), 94, HEIGHT_6_B)?;
    Ok(())
}
