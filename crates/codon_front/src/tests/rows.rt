//! Worked sources, with what `plain` and `check` answer for them: bytes on out, the line on err and the status.

use super::{NONE_FAILS, expect};
use outer_world::Status;
use std::alloc::Global;
use std::process::Abort;
use std::test::Fail;

/// Runs a source by `plain` with the fuel that it has by default.
fn expect_plain(
    rt: &impl Abort,
    alloc: Global,
    source: &[u8],
    wanted: (Status, &[u8], &[u8]),
) -> Result<(), Fail> {
    let words = ["plain", "a.py"];
    expect(rt, alloc, words.as_slice(), source, NONE_FAILS, wanted)
}

/// Runs a source by `plain`: it ends as Done and prints this.
fn expect_out(rt: &impl Abort, alloc: Global, source: &str, out: &str) -> Result<(), Fail> {
    let wanted = (Status::Done, out.as_bytes(), b"".as_slice());
    expect_plain(rt, alloc, source.as_bytes(), wanted)
}

/// Runs a source by `plain`: it prints `out` and ends with the fault of the line `err`.
fn expect_fault(
    rt: &impl Abort,
    alloc: Global,
    source: &str,
    out: &str,
    err: &str,
) -> Result<(), Fail> {
    let wanted = (Status::Fault, out.as_bytes(), err.as_bytes());
    expect_plain(rt, alloc, source.as_bytes(), wanted)
}

/// Runs a source by `plain` on so much fuel.
fn expect_fueled(
    rt: &impl Abort,
    alloc: Global,
    fuel: &str,
    source: &str,
    wanted: (Status, &str, &str),
) -> Result<(), Fail> {
    let words = ["plain", "--fuel", fuel, "a.py"];
    let source = source.as_bytes();
    let wanted = (wanted.0, wanted.1.as_bytes(), wanted.2.as_bytes());
    expect(rt, alloc, words.as_slice(), source, NONE_FAILS, wanted)
}

/// `check` accepts a source.
fn expect_accepted(rt: &impl Abort, alloc: Global, source: &str) -> Result<(), Fail> {
    let words = ["check", "a.py"];
    let source = source.as_bytes();
    let wanted = (Status::Done, b"accepted\n".as_slice(), b"".as_slice());
    expect(rt, alloc, words.as_slice(), source, NONE_FAILS, wanted)
}

/// `plain` and `check` refuse a source with this line.
fn expect_refused(rt: &impl Abort, alloc: Global, source: &[u8], line: &[u8]) -> Result<(), Fail> {
    let plain = ["plain", "a.py"];
    let check = ["check", "a.py"];
    let wanted = (Status::Refused, b"".as_slice(), line);
    expect(rt, alloc, plain.as_slice(), source, NONE_FAILS, wanted)?;
    expect(rt, alloc, check.as_slice(), source, NONE_FAILS, wanted)
}

#[test]
fn numbers_wrap_and_values_are_printed(rt: HostRuntime) -> Result<(), Fail> {
    let sources = [
        b"".as_slice(),
        b"print(9223372036854775807 + 1)\n".as_slice(),
        b"print(-7 // 2, -7 % 2, 7 % -2)\n".as_slice(),
        b"print((-9223372036854775807 - 1) // -1)\n".as_slice(),
        b"[1, 2, 3] |> print\n".as_slice(),
        b"print([1], (3,), 'a', ['a', \"it's\"], True, None)\n".as_slice(),
        b"xs = []\nxs.append(1)\nprint(xs)\n".as_slice(),
    ];
    let outs = [
        b"".as_slice(),
        b"-9223372036854775808\n".as_slice(),
        b"-4 1 -1\n".as_slice(),
        b"-9223372036854775808\n".as_slice(),
        b"[1, 2, 3]\n".as_slice(),
        b"[1] (3,) a ['a', \"it's\"] True None\n".as_slice(),
        b"[1]\n".as_slice(),
    ];
    for (source, out) in sources.iter().zip(outs.iter()) {
        let wanted = (Status::Done, *out, b"".as_slice());
        expect_plain(&rt, rt.alloc(), *source, wanted)?;
    }
    Ok(())
}

const FIB: &str = "\
def fib(n):
    return n if n < 2 else fib(n - 1) + fib(n - 2)
print(fib(20))
";

const PAIR: &str = "\
def pair(x):
    return (x, x)
print(pair(1))
print(pair('a'))
";

const GROWING: &str = "\
xs = [1]
for x in xs:
    if x < 3:
        xs.append(x + 1)
print(xs, xs[1:10], 'hello'[-3:])
";

const LEFT_EARLY: &str = "\
def g():
    yield 1
    print('after')
    yield 2
for x in g():
    print(x)
    break
";

#[test]
fn functions_lists_and_generators(rt: HostRuntime) -> Result<(), Fail> {
    let alloc = rt.alloc();
    expect_out(&rt, alloc, FIB, "6765\n")?;
    expect_out(&rt, alloc, PAIR, "(1, 1)\n('a', 'a')\n")?;
    expect_out(&rt, alloc, GROWING, "[1, 2, 3] [2, 3] llo\n")?;
    expect_out(&rt, alloc, LEFT_EARLY, "1\n")
}

const CALC: &str = "\
def calc(x, y):
    return x + y ** 2
2 |> calc(3) |> print
2 |> calc(..., 3) |> print
2 |> calc(3, ...) |> print
";

const GEN: &str = "\
def gen(n):
    for i in range(n):
        yield i
range(1, 4) |> iter |> gen |> print(end=' ')
";

const GEN_OF_FIVE: &str = "\
def gen(n):
    for i in range(n):
        yield i
5 |> gen |> print
";

const ADDED: &str = "\
class Total:
    total: int
def add(x, t):
    t.total += x
t = Total(0)
range(1000) |> iter ||> add(t)
print(t.total)
";

const ADDED_TWICE: &str = "\
class Total:
    total: int
def add(x, t):
    t.total += x
def dup(x):
    yield x
    yield x
t = Total(0)
range(3) |> iter ||> dup ||> add(t)
print(t.total)
";

#[test]
fn pipelines(rt: HostRuntime) -> Result<(), Fail> {
    let alloc = rt.alloc();
    expect_out(&rt, alloc, CALC, "11\n11\n7\n")?;
    expect_out(&rt, alloc, GEN, "0 0 1 0 1 2 ")?;
    expect_out(&rt, alloc, GEN_OF_FIVE, "0\n1\n2\n3\n4\n")?;
    expect_out(&rt, alloc, ADDED, "499500\n")?;
    expect_out(&rt, alloc, ADDED_TWICE, "6\n")
}

const SUM_OF_SQUARES: &str = "\
total = 0
@par
for i in range(100000):
    total += i * i
print(total)
";

const PRODUCT: &str = "\
p = 1
@par
for i in range(40):
    p *= 3
print(p)
";

const OWN_LISTS: &str = "\
@par
for i in range(3):
    own = [i]
    own.append(i)
print(1)
";

const OTHER_PLACE_OF_A_COPY: &str = "\
xs = [1, 2, 3, 4]
ys = xs.copy()
@par
for i in range(4):
    xs[i] = ys[(i + 1) % 4]
print(xs)
";

const LEAST_OF_NONE: &str = "\
m = 5
@par
for i in range(0):
    m = min(m, i)
print(m)
";

const LEAST_OF_THREE: &str = "\
m = 5
@par
for i in [3, 1, 2]:
    m = min(m, i)
print(m)
";

const STEPS: &str = "\
def steps(n: int) -> int:
    c = 0
    while n != 1:
        n = n // 2 if n % 2 == 0 else 3 * n + 1
        c += 1
    return c

best = 0
@par(schedule='dynamic', chunk_size=10, num_threads=4)
for i in range(1, 100):
    best = max(best, steps(i))
print(best)
";

#[test]
fn parallel_loops(rt: HostRuntime) -> Result<(), Fail> {
    let alloc = rt.alloc();
    expect_out(&rt, alloc, SUM_OF_SQUARES, "333328333350000\n")?;
    expect_out(&rt, alloc, PRODUCT, "-6289078614652622815\n")?;
    expect_out(&rt, alloc, OWN_LISTS, "1\n")?;
    expect_out(&rt, alloc, OTHER_PLACE_OF_A_COPY, "[2, 3, 4, 1]\n")?;
    expect_out(&rt, alloc, LEAST_OF_NONE, "5\n")?;
    expect_out(&rt, alloc, LEAST_OF_THREE, "1\n")?;
    expect_out(&rt, alloc, STEPS, "118\n")?;
    expect_accepted(&rt, alloc, STEPS)
}

const FIRST_FAULT_IN_ORDER: &str = "\
print('start')
@par
for i in range(100):
    if i == 30:
        x = 1 // 0
    if i == 70:
        raise ValueError('late')
";

const FAULT_BEFORE_A_LOOP_WITHOUT_END: &str = "\
@par
for i in range(10):
    if i == 3:
        raise RuntimeError('three')
    if i == 4:
        while True:
            pass
";

const OTHER_PLACE: &str = "\
xs = [1, 2, 3, 4]
ys = xs
@par
for i in range(4):
    xs[i] = ys[(i + 1) % 4]
print(xs)
";

const CAPTURED_UNSET: &str = "\
@par
for i in range(0):
    t += i
t = 0
";

#[test]
fn faults_of_parallel_loops(rt: HostRuntime) -> Result<(), Fail> {
    let alloc = rt.alloc();
    let line = "ZeroDivisionError: division by zero\n";
    expect_fault(&rt, alloc, FIRST_FAULT_IN_ORDER, "start\n", line)?;
    let line = "ParallelConflictError: place of another iteration\n";
    expect_fault(&rt, alloc, OTHER_PLACE, "", line)?;
    let line = "RuntimeError: name is not set\n";
    expect_fault(&rt, alloc, CAPTURED_UNSET, "", line)?;
    let wanted = (Status::Fault, "", "RuntimeError: three\n");
    expect_fueled(&rt, alloc, "10000", FAULT_BEFORE_A_LOOP_WITHOUT_END, wanted)
}

const COUNT: &str = "\
i = 0
while i < 3:
    print(i)
    i += 1
";

const CALLS_IN_ITERATIONS: &str = "\
def f():
    return 1
@par
for i in range(3):
    f()
";

const EMPTY_ITERATIONS: &str = "\
def f():
    return 1
@par
for i in range(3):
    pass
";

const DEEP: &str = "\
def f(n: int) -> int:
    return 0 if n == 0 else f(n - 1)
print(f(200))
";

#[test]
fn fuel_and_depth_end_runs(rt: HostRuntime) -> Result<(), Fail> {
    let alloc = rt.alloc();
    let counted = (Status::Done, "0\n1\n2\n", "");
    let cut_off = (Status::OutOfFuel, "0\n1\n", "out of fuel\n");
    expect_fueled(&rt, alloc, "3", COUNT, counted)?;
    expect_fueled(&rt, alloc, "2", COUNT, cut_off)?;
    let done = (Status::Done, "", "");
    let ended = (Status::OutOfFuel, "", "out of fuel\n");
    expect_fueled(&rt, alloc, "3", CALLS_IN_ITERATIONS, ended)?;
    expect_fueled(&rt, alloc, "4", CALLS_IN_ITERATIONS, done)?;
    expect_fueled(&rt, alloc, "3", EMPTY_ITERATIONS, done)?;
    expect_fueled(&rt, alloc, "2", EMPTY_ITERATIONS, ended)?;
    let source = DEEP.as_bytes();
    expect_plain(&rt, alloc, source, (Status::Deep, b"", b"too deep\n"))
}

#[test]
fn sources_without_tokens_or_tree_are_refused(rt: HostRuntime) -> Result<(), Fail> {
    let sources = [
        b"x\xff".as_slice(),
        b"x = 6 / 2\n".as_slice(),
        b"if True:\n\tpass\n".as_slice(),
        b"if True:\n    pass\n  pass\n".as_slice(),
        b"x = 1.5\n".as_slice(),
        b"x = 9223372036854775808\n".as_slice(),
        b"x = 'ab\n".as_slice(),
        b"x = '\xc3\xa9'\n".as_slice(),
        b"print((1\n".as_slice(),
        b"x =\n".as_slice(),
        b"import x\n".as_slice(),
    ];
    let lines = [
        b"refused L1 1:2 NotUtf8\n".as_slice(),
        b"refused L2 1:7 BadChar\n".as_slice(),
        b"refused L3 2:1 Tab\n".as_slice(),
        b"refused L4 3:3 BadDedent\n".as_slice(),
        b"refused L5 1:5 BadNumber\n".as_slice(),
        b"refused L5 1:5 BadNumber\n".as_slice(),
        b"refused L6 1:5 OpenString\n".as_slice(),
        b"refused L7 1:6 NonAsciiText\n".as_slice(),
        b"refused L9 1:6 OpenBracket\n".as_slice(),
        b"refused P1 1:4 Unexpected: NEWLINE\n".as_slice(),
        b"refused P3 1:1 NotInProfile: import\n".as_slice(),
    ];
    for (source, line) in sources.iter().zip(lines.iter()) {
        expect_refused(&rt, rt.alloc(), *source, *line)?;
    }
    Ok(())
}

#[test]
fn a_source_of_more_than_1048576_bytes_is_refused(rt: HostRuntime) -> Result<(), Fail> {
    let alloc = rt.alloc();
    let mut source = Vec::new(alloc);
    for _ in 0..1_048_576 {
        source.push(b' ')?;
    }
    source.push(b'\n')?;
    expect_refused(&rt, alloc, source.as_slice(), b"refused L8 1:1 TooLong\n")
}

#[test]
fn a_tree_of_more_than_100_levels_is_refused(rt: HostRuntime) -> Result<(), Fail> {
    let alloc = rt.alloc();
    let mut source = b"x = ".to_vec(alloc)?;
    for _ in 0..99 {
        source.push(b'(')?;
    }
    source.push(b'1')?;
    for _ in 0..99 {
        source.push(b')')?;
    }
    source.push(b'\n')?;
    expect_refused(&rt, alloc, source.as_slice(), b"refused P2 1:103 TooDeep\n")
}
