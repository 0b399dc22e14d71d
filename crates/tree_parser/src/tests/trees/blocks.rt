use super::check;
use std::test::Fail;

const BLOCKS: &str = "\
if x: y
 (branch x (do (evaluate y)))
if x: y; z
 (branch x (do (evaluate y) (evaluate z)))
if x:⏎    y
 (branch x (do (evaluate y)))
if x:⏎    y⏎    z
 (branch x (do (evaluate y) (evaluate z)))
if x:⏎    y⏎else:⏎    z
 (branch x (do (evaluate y)) (else (evaluate z)))
if x: y⏎else: z
 (branch x (do (evaluate y)) (else (evaluate z)))
if x: y⏎elif z: w
 (branch x (do (evaluate y)) (else (branch z (do (evaluate w)))))
if x:⏎    y⏎elif z:⏎    w⏎else:⏎    v
 (branch x (do (evaluate y)) (else (branch z (do (evaluate w)) (else (evaluate v)))))
if x: y⏎elif z: w⏎elif v: u⏎else: t
 (branch x (do (evaluate y)) (else (branch z (do (evaluate w)) (else (branch v (do (evaluate u)) (else (evaluate t)))))))
if x:⏎    if y:⏎        z⏎else:⏎    w
 (branch x (do (branch y (do (evaluate z)))) (else (evaluate w)))
if x:⏎    if y:⏎        z⏎    else:⏎        w
 (branch x (do (branch y (do (evaluate z)) (else (evaluate w)))))
if x:⏎    y⏎else:⏎    if z:⏎        w
 (branch x (do (evaluate y)) (else (branch z (do (evaluate w)))))
if x:⏎    y⏎z
 (branch x (do (evaluate y))) (evaluate z)
if x:⏎  y⏎  if z:⏎     w⏎  v⏎u
 (branch x (do (evaluate y) (branch z (do (evaluate w))) (evaluate v))) (evaluate u)
while x: y
 (while x (do (evaluate y)))
while x:⏎    y⏎    z
 (while x (do (evaluate y) (evaluate z)))
while x < y and not z:⏎    x += 1
 (while (and (compare x < y) (not z)) (do (update x + 1)))
while x:⏎    while y:⏎        break⏎    continue
 (while x (do (while y (do (break))) (continue)))
for x in y: z
 (for x y (do (evaluate z)))
for x in y:⏎    z
 (for x y (do (evaluate z)))
for x, y in z: w
 (for (tuple x y) z (do (evaluate w)))
for x, in y: z
 (for (tuple x) y (do (evaluate z)))
for x, y, in z: w
 (for (tuple x y) z (do (evaluate w)))
for x in y, z: w
 (for x (tuple y z) (do (evaluate w)))
for x in y,: z
 (for x (tuple y) (do (evaluate z)))
for x in (y, z): w
 (for x (tuple y z) (do (evaluate w)))
for x in [1, 2]: print(x, end='')
 (for x (list 1 2) (do (print x (end ''))))
for x in range(1, 10):⏎    for y in x:⏎        print(x, y)
 (for x (call range 1 10) (do (for y x (do (print x y)))))
for x in y if z else w: v
 (for x (if y z w) (do (evaluate v)))
for i, c in enumerate('ab'): print(i, c)
 (for (tuple i c) (call enumerate 'ab') (do (print i c)))
";

const BLOCKS_2: &str = "\
for x in y:⏎    if x: break⏎    else: continue
 (for x y (do (branch x (do (break)) (else (continue)))))
def f(): pass
 (def f (do (pass)))
def f():⏎    pass
 (def f (do (pass)))
def f(x): return x
 (def f (param x) (do (return x)))
def f(x,): return x
 (def f (param x) (do (return x)))
def f(x, y): return x, y
 (def f (param x) (param y) (do (return (tuple x y))))
def f(x=1): pass
 (def f (param x = 1) (do (pass)))
def f(x, y=1, z='a'): pass
 (def f (param x) (param y = 1) (param z = 'a') (do (pass)))
def f(x: int): pass
 (def f (param x : int) (do (pass)))
def f(x: int = 1, y: list[int] = [], z=None): pass
 (def f (param x : int = 1) (param y : (list int) = (list)) (param z = None) (do (pass)))
def f() -> int: return 1
 (def f -> int (do (return 1)))
def f(x: A, y) -> tuple[int, A]:⏎    return x, y
 (def f (param x : A) (param y) -> (tuple int A) (do (return (tuple x y))))
def f(x=-1, y=(1, 2), z=not True): pass
 (def f (param x = (- 1)) (param y = (tuple 1 2)) (param z = (not True)) (do (pass)))
def fib(n):⏎    return n if n < 2 else fib(n - 1) + fib(n - 2)
 (def fib (param n) (do (return (if n (compare n < 2) (+ (call fib (- n 1)) (call fib (- n 2)))))))
def f():⏎    if x:⏎        return⏎    yield y
 (def f (do (branch x (do (return))) (yield y)))
class A:⏎    pass
 (class A (pass))
class A:⏎    x: int
 (class A (field x int))
class A:⏎    'text'⏎    x: int⏎    y: list[A]
 (class A 'text' (field x int) (field y (list A)))
class A:⏎    def f(self): return self.x
 (class A (def f (param self) (do (return (field self x)))))
class A:⏎    x: int⏎    def __init__(self, x: int):⏎        self.x = x⏎    pass⏎    def g(self) -> int:⏎        return self.x * 2
 (class A (field x int) (def __init__ (param self) (param x : int) (do (assign (field self x) x))) (pass) (def g (param self) -> int (do (return (* (field self x) 2)))))
class A:⏎    x: int⏎class B:⏎    y: A⏎def f(): pass⏎z = 1
 (class A (field x int)) (class B (field y A)) (def f (do (pass))) (assign z 1)
x = (y +⏎    z)
 (assign x (+ y z))
x = [1,⏎2,⏎  3⏎]
 (assign x (list 1 2 3))
x = 1 # a
 (assign x 1)
if x: # a⏎    # b⏎    y⏎⏎    z⏎
 (branch x (do (evaluate y) (evaluate z)))
";

#[test]
fn blocks(rt: HostRuntime) -> Result<(), Fail> {
    check(&rt, rt.alloc(), BLOCKS)?;
    Ok(())
}

#[test]
fn blocks_2(rt: HostRuntime) -> Result<(), Fail> {
    check(&rt, rt.alloc(), BLOCKS_2)?;
    Ok(())
}
