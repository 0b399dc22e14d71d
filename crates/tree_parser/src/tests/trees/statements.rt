use super::check;
use std::test::Fail;

const STATEMENTS: &str = "\
pass
 (pass)
break
 (break)
continue
 (continue)
return
 (return)
return x
 (return x)
return x, y
 (return (tuple x y))
return x,
 (return (tuple x))
return (x, y)
 (return (tuple x y))
return not x
 (return (not x))
yield x
 (yield x)
yield x, y
 (yield (tuple x y))
yield (x)
 (yield x)
raise E
 (raise E)
raise E()
 (raise E)
raise E('a')
 (raise E 'a')
raise E(x + y)
 (raise E (+ x y))
assert x
 (assert x)
assert x, 'a'
 (assert x 'a')
assert (x), (y)
 (assert x y)
assert x == y, 'no'
 (assert (compare x == y) 'no')
assert x if y else z, w
 (assert (if x y z) w)
x: int
 (annotate x int)
x: bool
 (annotate x bool)
x: str
 (annotate x str)
x: None
 (annotate x None)
x: A
 (annotate x A)
x: int = 1
 (annotate x int 1)
x: list[int] = []
 (annotate x (list int) (list))
x: List[int]
 (annotate x (list int))
x: list[list[A]]
 (annotate x (list (list A)))
";

const STATEMENTS_2: &str = "\
x: tuple[int]
 (annotate x (tuple int))
x: tuple[int, str, A]
 (annotate x (tuple int str A))
x: Tuple[list[int], tuple[bool, None]] = (1, 2)
 (annotate x (tuple (list int) (tuple bool None)) (tuple 1 2))
x: list
 (annotate x list)
x: tuple
 (annotate x tuple)
x: int = y if z else w
 (annotate x int (if y z w))
x = 1
 (assign x 1)
x = y
 (assign x y)
x = y, z
 (assign x (tuple y z))
x = y,
 (assign x (tuple y))
x = (y, z)
 (assign x (tuple y z))
x = [y, z]
 (assign x (list y z))
x, y = z
 (assign (tuple x y) z)
x, y = y, x
 (assign (tuple x y) (tuple y x))
x, = y
 (assign (tuple x) y)
x, y, = z
 (assign (tuple x y) z)
x[0] = y
 (assign (index x 0) y)
x[y][z] = w
 (assign (index (index x y) z) w)
x.y = z
 (assign (field x y) z)
x.y.z = w
 (assign (field (field x y) z) w)
x[y].z = w
 (assign (field (index x y) z) w)
x.y[z] = w
 (assign (index (field x y) z) w)
f(x).y = z
 (assign (field (call f x) y) z)
f(x)[y] = z
 (assign (index (call f x) y) z)
x.f().y = z
 (assign (field (method x f) y) z)
x.f(1)[2] = z
 (assign (index (method x f 1) 2) z)
(x).y = z
 (assign (field x y) z)
(x + y)[z] = w
 (assign (index (+ x y) z) w)
'a'[0] = x
 (assign (index 'a' 0) x)
[x][0] = y
 (assign (index (list x) 0) y)
";

const STATEMENTS_3: &str = "\
x[1:2][0] = y
 (assign (index (slice x 1 2) 0) y)
x, y[0], z.w = v
 (assign (tuple x (index y 0) (field z w)) v)
x[0], y = z
 (assign (tuple (index x 0) y) z)
x.y, z, = w
 (assign (tuple (field x y) z) w)
x += 1
 (update x + 1)
x -= y
 (update x - y)
x *= y + 1
 (update x * (+ y 1))
x //= y
 (update x // y)
x %= y
 (update x % y)
x **= y
 (update x ** y)
x <<= y
 (update x << y)
x >>= y
 (update x >> y)
x &= y
 (update x & y)
x |= y
 (update x | y)
x ^= y
 (update x ^ y)
x[y] += z
 (update (index x y) + z)
x.y -= z
 (update (field x y) - z)
x[y].z *= w, v
 (update (field (index x y) z) * (tuple w v))
x += y if z else w
 (update x + (if y z w))
x; y; z
 (evaluate x) (evaluate y) (evaluate z)
x = 1; y = 2;
 (assign x 1) (assign y 2)
pass; break; continue
 (pass) (break) (continue)
x + 1; f(x); -y
 (evaluate (+ x 1)) (evaluate (call f x)) (evaluate (- y))
x < y
 (evaluate (compare x < y))
f(x), g(y)
 (evaluate (tuple (call f x) (call g y)))
print(x); print(y)
 (print x) (print y)
";

#[test]
fn statements(rt: HostRuntime) -> Result<(), Fail> {
    check(&rt, rt.alloc(), STATEMENTS)?;
    Ok(())
}

#[test]
fn statements_2(rt: HostRuntime) -> Result<(), Fail> {
    check(&rt, rt.alloc(), STATEMENTS_2)?;
    Ok(())
}

#[test]
fn statements_3(rt: HostRuntime) -> Result<(), Fail> {
    check(&rt, rt.alloc(), STATEMENTS_3)?;
    Ok(())
}
