//! Sources of every part of the language: those that run, and those that later phases refuse.

use crate::tests::table::check;
use std::test::Fail;

const WORKED: &str = "\
ok print(9223372036854775807 + 1)
ok print(-7 // 2, -7 % 2, 7 % -2)
ok print((-9223372036854775807 - 1) // -1)
ok def fib(n):⏎    return n if n < 2 else fib(n - 1) + fib(n - 2)⏎print(fib(20))
ok def calc(x, y):⏎    return x + y ** 2⏎2 |> calc(3) |> print⏎2 |> calc(..., 3) |> print⏎2 |> calc(3, ...) |> print
ok def gen(n):⏎    for i in range(n):⏎        yield i⏎range(1, 4) |> iter |> gen |> print(end=' ')
ok def gen(n):⏎    for i in range(n):⏎        yield i⏎5 |> gen |> print
ok [1, 2, 3] |> print
ok print([1], (3,), 'a', ['a', \"it's\"], True, None)
ok xs = []⏎xs.append(1)⏎print(xs)
ok xs = []
ok total = 0⏎@par⏎for i in range(100000):⏎    total += i * i⏎print(total)
ok p = 1⏎@par⏎for i in range(40):⏎    p *= 3⏎print(p)
ok print('start')⏎@par⏎for i in range(100):⏎    if i == 30:⏎        x = 1 // 0⏎    if i == 70:⏎        raise ValueError('late')
ok @par⏎for i in range(10):⏎    if i == 3:⏎        raise RuntimeError('three')⏎    if i == 4:⏎        while True:⏎            pass
ok def show(x):⏎    print(x)⏎@par⏎for i in range(3):⏎    show(i)
ok out: list[int] = []⏎@par⏎for i in range(3):⏎    out.append(i)
ok @par⏎for i in range(3):⏎    own = [i]⏎    own.append(i)⏎print(1)
ok g = [0]⏎def put(b, x):⏎    b.append(x)⏎@par⏎for i in range(2):⏎    a: list[list[int]] = []⏎    put(a, g)⏎    a[0].append(i)
ok xs = [1, 2, 3, 4]⏎ys = xs⏎@par⏎for i in range(4):⏎    xs[i] = ys[(i + 1) % 4]⏎print(xs)
ok i = 0⏎while i < 3:⏎    print(i)⏎    i += 1
ok m = 5⏎@par⏎for i in range(0):⏎    m = min(m, i)⏎print(m)
ok @par⏎for i in range(0):⏎    t += i⏎t = 0
ok class Total:⏎    total: int⏎def add(x, t):⏎    t.total += x⏎t = Total(0)⏎range(1000) |> iter ||> add(t)⏎print(t.total)
ok t = 0⏎@par⏎for e in range(3):⏎    t = e - t
ok def f():⏎    return 1⏎@par⏎for i in range(3):⏎    f()
ok def g():⏎    yield 1⏎    print('after')⏎    yield 2⏎for x in g():⏎    print(x)⏎    break
ok xs = [1]⏎for x in xs:⏎    if x < 3:⏎        xs.append(x + 1)⏎print(xs, xs[1:10], 'hello'[-3:])
ok def steps(n: int) -> int:⏎    c = 0⏎    while n != 1:⏎        n = n // 2 if n % 2 == 0 else 3 * n + 1⏎        c += 1⏎    return c⏎⏎best = 0⏎@par(schedule='dynamic', chunk_size=10, num_threads=4)⏎for i in range(1, 100):⏎    best = max(best, steps(i))⏎print(best)
ok def pair(x):⏎    return (x, x)⏎print(pair(1))⏎print(pair('a'))
ok def f(n: int) -> int:⏎    return 0 if n == 0 else f(n - 1)⏎print(f(200))
ok xs = [1, 2, 3, 4]⏎ys = xs.copy()⏎@par⏎for i in range(4):⏎    xs[i] = ys[(i + 1) % 4]⏎print(xs)
ok m = 5⏎@par⏎for i in [3, 1, 2]:⏎    m = min(m, i)⏎print(m)
ok class Total:⏎    total: int⏎def add(x, t):⏎    t.total += x⏎t = Total(0)⏎def dup(x):⏎    yield x⏎    yield x⏎range(3) |> iter ||> dup ||> add(t)⏎print(t.total)
ok def f():⏎    return 1⏎@par⏎for i in range(3):⏎    pass
";

const REFUSED_LATER: &str = "\
ok print(y)
ok def f():⏎    pass⏎def f():⏎    pass
ok def f(x=1 + 1):⏎    return x
ok @par⏎for i in range(3):⏎    last = i⏎print(last)
ok @par⏎for i in range(3):⏎    break
ok x = 1⏎x = 'a'
ok xs = []⏎xs.append(xs)
ok print(True + 1)
ok def f(x):⏎    f([x])⏎f(1)
ok class A:⏎    x: int⏎print(A(1))
ok last = 0⏎@par⏎for i in range(3):⏎    last = i
ok xs = [[0]]⏎@par⏎for i in range(1):⏎    xs[i] = [i]
ok class T:⏎    s: int⏎def put(x, t):⏎    t.s += x⏎    y = t.s⏎t = T(0)⏎[1] |> iter ||> put(t)
ok def g():⏎    print(1)⏎    yield 1⏎def f(x):⏎    pass⏎g() |> iter ||> f
ok def g(xs):⏎    xs.append(2)⏎    yield 1⏎@par⏎for x in g([0]):⏎    pass
ok yield 1
ok xs = []
ok @par⏎for a in range(2):⏎    @par⏎    for b in range(2):⏎        @par⏎        for c in range(2):⏎            @par⏎            for d in range(2):⏎                @par⏎                for e in range(2):⏎                    pass
";

const OF_EACH_LAYER: &str = "\
ok print(x * (x + 1) - 10)
ok s = 0⏎for i in range(1, 5):⏎    s += i⏎print(s)
ok while 1 < 2:⏎    pass
ok if 1 > 2:⏎    x = 1⏎print(x)
ok def same(x):⏎    return x⏎print(same(1), same('a'), same(True))
ok print(1 < 2 < 3, 1 if True else 1 // 0)
ok for c in 'abc': print(c, end='')
ok assert 1 == 2, 'no'
ok a, b = 1, 2⏎a, b = b, a⏎print(a, b, sum([1, 2, 3]), any([0, 1]), abs(-3))
ok class P:⏎    x: int⏎    def __init__(self, a: int):⏎        self.x = a⏎    def twice(self) -> int:⏎        return self.x * 2⏎print(P(4).twice())
ok xs = [1, 2]⏎print(xs[2])
ok print([x * x for x in range(5) if x % 2 == 1])
ok for i, c in enumerate('ab'): print(i, c)
ok print(list(reversed([1, 2])))
ok def g(n):⏎    for i in range(n):⏎        yield i⏎        print('t', i)⏎for x in g(3):⏎    if x == 1:⏎        continue⏎    print(x)
ok class T:⏎    s: int⏎def up(t):⏎    t.s += 1⏎    return 1⏎def put(x, t):⏎    t.s += up(t)⏎t = T(0)⏎[1] |> iter ||> put(t)
ok t = 0⏎@par⏎for i in range(3):⏎    u = 0⏎    @par⏎    for j in range(i + 1):⏎        u += j⏎    t += u⏎print(t)
ok xs = [0] * 100000⏎@par⏎for i in range(100000):⏎    xs[i] = i * 2⏎print(xs[99999], len(xs))
ok print(len('a' * 16777216))
ok def f(n: int) -> int:⏎    return 0 if n == 0 else f(n - 1)⏎print(f(100000))
ok xs = [0]
ok h = [0] * 3⏎@par⏎for i in range(10):⏎    h[i % 3] += i⏎print(h)
ok h = [0, 0]⏎def put(x):⏎    h[x % 2] += 1⏎range(5) |> iter ||> put⏎print(h)
ok h = [0] * 3⏎@par⏎for i in range(5):⏎    h[3] += i
ok x = 2⏎print(x * (x + 1) - 10)
ok def f(a0=0, a1=0, a99=0):⏎    pass
ok f()
ok xs = [0]⏎def f(s, a1, a2, a15):⏎    f(s, a2, a15, [0])⏎    f(s, a2, a15, s)⏎@par⏎for i in range(1):⏎    f(xs, xs, xs, xs)
ok h = [0] * 3⏎@par⏎for i in range(10):⏎    h[i % 3] += h[0]⏎ys = h⏎h[ys[0]] += 1
ok def calc(x, y):⏎    return x + y ** 2⏎print(calc(2, 3))⏎print(calc(4, 3))⏎print(calc(2, 3))
ok def calc(x, y):⏎    return x + y ** 2⏎a = 2⏎print(calc(a, 3))
";

const PRELUDE_AND_SAMPLE: &str = "\
ok def abs(x: int) -> int:⏎    return -x if x < 0 else x⏎def sum(xs: list[int]) -> int:⏎    t = 0⏎    for x in xs:⏎        t += x⏎    return t⏎def any(xs):⏎    for x in xs:⏎        if x:⏎            return True⏎    return False⏎def all(xs):⏎    for x in xs:⏎        if not x:⏎            return False⏎    return True⏎def enumerate(xs):⏎    i = 0⏎    for x in xs:⏎        yield i, x⏎        i += 1⏎def zip(xs, ys):⏎    i = 0⏎    while i < len(xs) and i < len(ys):⏎        yield xs[i], ys[i]⏎        i += 1⏎def reversed(xs):⏎    i = len(xs) - 1⏎    while i >= 0:⏎        yield xs[i]⏎        i -= 1
ok def f0(x):⏎    return x + 0⏎def f1(x):⏎    return x + 1⏎def f2(x):⏎    return x + 2⏎total = 0⏎@par⏎for i in range(1002):⏎    total += f0(i)⏎    total += f1(i)⏎    total += f2(i)⏎print(total)⏎class Sum:⏎    s: int⏎def half(x):⏎    if x % 2 == 0:⏎        yield x // 2⏎def put(x, t):⏎    t.s += x⏎t = Sum(0)⏎range(1002) |> iter |> half ||> put(t)⏎print(t.s)
";

#[test]
fn worked(rt: HostRuntime) -> Result<(), Fail> {
    check(&rt, rt.alloc(), WORKED)?;
    Ok(())
}

#[test]
fn refused_later(rt: HostRuntime) -> Result<(), Fail> {
    check(&rt, rt.alloc(), REFUSED_LATER)?;
    Ok(())
}

#[test]
fn of_each_layer(rt: HostRuntime) -> Result<(), Fail> {
    check(&rt, rt.alloc(), OF_EACH_LAYER)?;
    Ok(())
}

#[test]
fn prelude_and_sample(rt: HostRuntime) -> Result<(), Fail> {
    check(&rt, rt.alloc(), PRELUDE_AND_SAMPLE)?;
    Ok(())
}
