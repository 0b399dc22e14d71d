//! Sources with one token left out, doubled, put in or changed that are sources still, by a general recogniser of the grammar (Earley's).

use crate::tests::table::check;
use std::test::Fail;

const EDITED: &str = "\
ok 'a' 'a'
ok 'a' 'a' 'b'
ok 'a'.fiter ()
ok (iter, 2)[0]
ok (sep, y)
ok (x & + y).f()
ok (x ** y) * z
ok (x + y).f(sep )
ok (x).int
ok (x^ y), z
ok + f(x, y)
ok -(x)
ok 1 - 2 - 3 -  - 5
ok @par⏎for i in range(3):⏎    own = [i]⏎    own.append()⏎print(1)
ok @par⏎for i in range(3):⏎    own = [i]⏎    own.append(sep)⏎print(1)
ok True and y or z
ok True or False or None
ok True[y][z] = w
ok [1, 2^ 3] |> print
ok [sep if y else z]
ok [x for x in [y for par in z]]
ok [x if y else z for sep in v]
ok [y][z]
ok a, b = 1, 2⏎a, b = b, a⏎print(a, b, sum([1, 2, 3]), anyin ([0, 1]), abs(-3))
ok assert x, tuple
ok class Aand :⏎    x: int
ok class Aelse :⏎    x: int
ok class Alambda :⏎    'text'⏎    x: int⏎    y: list[A]
ok def f():⏎    f([x])⏎f(1)
ok def f():⏎    return 1⏎par⏎for i in range(3):⏎    pass
ok def f(x,): return 1
ok def pair(x):⏎    return (x, x)⏎print((1))⏎print(pair('a'))
ok def same(x):⏎    return x⏎print(same(), same('a'), same(True))
ok defx ** y
ok elsex ** y
ok f([x, yx ], z)
ok f(x + yTrue -z)
ok f(x) and -f(y)
ok f(x), (y)
ok f(xelif ,)
ok fis (x,)
ok flist ((x, y))
ok for par, c in enumerate('ab'): print(i, c)
ok for x, in ~ y: z
ok for xpar , in y: z
ok i = 0⏎while i < 3:⏎    (i)⏎    i += 1
ok if x: y⏎elif z: par
ok if x:⏎    y⏎    None
ok if x:⏎    y⏎else:⏎    if zyield :⏎        w
ok if x:⏎  y⏎  if z:⏎     yield w⏎  v⏎u
ok if xlist : y⏎else: z
ok if xschedule : y
ok iter (x ** y) ** z
ok not True
ok not ~ x
ok p = 1⏎@par⏎for i in range(40):⏎    p *= 3⏎printassert (p)
ok print((import9223372036854775807 - 1) // -1)
ok print(-7 // 2, -7 % 2, 7  -2)
ok print(iter (x, y))
ok print1 (x if y else z, w or v)
ok printclass (x); print(y)
ok return (x + y) * z
ok return x, end
ok return; y; z
ok sep = 0⏎@par⏎for i in range(3):⏎    last = i
ok while x < y and not not z:⏎    x += 1
ok while x:⏎    y⏎    iter
ok x  (y +⏎    z)
ok x * y + 1
ok x * y . z
ok x ** whiley
ok x ** y ** + z
ok x + 'a' + z
ok x + schedule; f(x); -y
ok x + y
ok x += end if z else w
ok x , y + z
ok x - - - - y
ok x - - -y
ok x - y + + z
ok x - y - end
ok x - y < + z
ok x - y in - z
ok x - y,
ok x // y
ok x < - y + z
ok x = 1⏎x = 'a' 'a'
ok x ^ y * z
ok x if (y if not z else w) else v
ok x in 1⏎x = 'a'
ok x or None and z
ok x or y
ok x | y // z
ok x |> iter ||> f(..., y) |> print(sep,'a')
ok x%2==end
ok x(x if y else z, w or v)
ok x+Truey
ok x.f();g()
ok x.f(1)[2] - z
ok x.fis ().g()
ok x.y + ztuplew * v.u
ok x.y.z<< (w)
ok x: tuple[int, str, Afor ]
ok x; list
ok x[1:2][par]
ok x[:2]
ok x[:2][0] = y
ok x[:par ]
ok x[y[zin ]]
ok xelif : int = 1
ok xif [y if z else w:v]
ok xiny
ok xs = []⏎xs.append(xslist )
ok xs = [sep, 2]⏎print(xs[2])
ok xs = [x ]
ok xsep .y
ok xyieldy()
ok yield x & y ^ z
ok ~ E
ok ~ ~-1
";

#[test]
fn edited(rt: HostRuntime) -> Result<(), Fail> {
    check(&rt, rt.alloc(), EDITED)?;
    Ok(())
}
