use super::check;
use std::test::Fail;

const ATOMS: &str = "\
x
 (evaluate x)
(x)
 (evaluate x)
((x))
 (evaluate x)
1
 (evaluate 1)
'a'
 (evaluate 'a')
'a' 'b'
 (evaluate 'ab')
'a' \"b\" 'c'
 (evaluate 'abc')
''
 (evaluate '')
'it\\'s'
 (evaluate 'it\\'s')
'a\\\\b'
 (evaluate 'a\\\\b')
'a\\nb'
 (evaluate 'a\\nb')
'\\x41\\x7f'
 (evaluate 'A\\x7f')
\"a'b\"
 (evaluate 'a\\'b')
'''a'''
 (evaluate 'a')
x,
 (evaluate (tuple x))
x, y
 (evaluate (tuple x y))
x, y,
 (evaluate (tuple x y))
(x,)
 (evaluate (tuple x))
(x, y)
 (evaluate (tuple x y))
(x, y,)
 (evaluate (tuple x y))
(x, (y, z), w)
 (evaluate (tuple x (tuple y z) w))
((x, y),)
 (evaluate (tuple (tuple x y)))
(x, y), z
 (evaluate (tuple (tuple x y) z))
[]
 (evaluate (list))
[x]
 (evaluate (list x))
[x,]
 (evaluate (list x))
[x, y]
 (evaluate (list x y))
[x, y,]
 (evaluate (list x y))
[[x], [y, z], []]
 (evaluate (list (list x) (list y z) (list)))
[(x, y), (z,)]
 (evaluate (list (tuple x y) (tuple z)))
";

const ATOMS_2: &str = "\
[x, (y), [z]]
 (evaluate (list x y (list z)))
f()
 (evaluate (call f))
f(x)
 (evaluate (call f x))
f(x,)
 (evaluate (call f x))
f(x, y)
 (evaluate (call f x y))
f((x, y))
 (evaluate (call f (tuple x y)))
f(g(x), h())
 (evaluate (call f (call g x) (call h)))
f([x, y], z)
 (evaluate (call f (list x y) z))
f(x + y, -z)
 (evaluate (call f (+ x y) (- z)))
x.y
 (evaluate (field x y))
x.y.z
 (evaluate (field (field x y) z))
x.y()
 (evaluate (method x y))
x.y(z)
 (evaluate (method x y z))
x.y.z(w)
 (evaluate (method (field x y) z w))
x.f().g()
 (evaluate (method (method x f) g))
x.f(1).g(2).h
 (evaluate (field (method (method x f 1) g 2) h))
x[y]
 (evaluate (index x y))
x[y][z]
 (evaluate (index (index x y) z))
x[y].z
 (evaluate (field (index x y) z))
x.y[z]
 (evaluate (index (field x y) z))
x[y[z]]
 (evaluate (index x (index y z)))
x[y].f(z)[w]
 (evaluate (index (method (index x y) f z) w))
f(x)[y]
 (evaluate (index (call f x) y))
f(x).y
 (evaluate (field (call f x) y))
f(x).g(y)[z].w
 (evaluate (field (index (method (call f x) g y) z) w))
x[:]
 (evaluate (slice x _ _))
x[1:]
 (evaluate (slice x 1 _))
x[:2]
 (evaluate (slice x _ 2))
x[1:2]
 (evaluate (slice x 1 2))
x[-1:]
 (evaluate (slice x (- 1) _))
";

const ATOMS_3: &str = "\
x[:-1]
 (evaluate (slice x _ (- 1)))
x[y + 1:z * 2]
 (evaluate (slice x (+ y 1) (* z 2)))
x[y[1:]:z[0]]
 (evaluate (slice x (slice y 1 _) (index z 0)))
x[1:2][3]
 (evaluate (index (slice x 1 2) 3))
x[y if z else w:v]
 (evaluate (slice x (if y z w) v))
'abc'[0]
 (evaluate (index 'abc' 0))
'abc'[1:]
 (evaluate (slice 'abc' 1 _))
[1, 2][0]
 (evaluate (index (list 1 2) 0))
(1, 2)[0]
 (evaluate (index (tuple 1 2) 0))
(x)[y]
 (evaluate (index x y))
(x).y
 (evaluate (field x y))
(x + y).f()
 (evaluate (method (+ x y) f))
1 .x
 (evaluate (field 1 x))
'a'.b
 (evaluate (field 'a' b))
'a'.f()
 (evaluate (method 'a' f))
[x for x in y]
 (evaluate (each x x y))
[x + 1 for x in y]
 (evaluate (each (+ x 1) x y))
[x for x in y if z]
 (evaluate (each x x y z))
[x for x in y if z and w]
 (evaluate (each x x y (and z w)))
[x for x in y or z if w or v]
 (evaluate (each x x (or y z) (or w v)))
[x for x, y in z]
 (evaluate (each x (tuple x y) z))
[x for x, in y]
 (evaluate (each x (tuple x) y))
[x for x, y, in z]
 (evaluate (each x (tuple x y) z))
[(x, y) for x, y in z]
 (evaluate (each (tuple x y) (tuple x y) z))
[[x for x in y] for y in z]
 (evaluate (each (each x x y) y z))
[x for x in [y for y in z]]
 (evaluate (each x x (each y y z)))
[x for x in y if x in [z for z in w]]
 (evaluate (each x x y (compare x in (each z z w))))
[f(x) for x in range(10) if x % 2 == 0]
 (evaluate (each (call f x) x (call range 10) (compare (% x 2) == 0)))
[x if y else z for w in v]
 (evaluate (each (if x y z) w v))
[x for x in y if not z]
 (evaluate (each x x y (not z)))
";

const ATOMS_4: &str = "\
[x for x in y < z]
 (evaluate (each x x (compare y < z)))
print(x)
 (print x)
print()
 (print)
print(x, y)
 (print x y)
print(x, sep='a')
 (print x (sep 'a'))
print(x, end='')
 (print x (end ''))
print(x, y, sep='a', end='b')
 (print x y (sep 'a') (end 'b'))
print(x, end='b', sep='a')
 (print x (end 'b') (sep 'a'))
print(sep='a')
 (print (sep 'a'))
print(end='a', sep='b')
 (print (end 'a') (sep 'b'))
print(sep, end)
 (print sep end)
print((x))
 (print x)
print((x, y))
 (print (tuple x y))
print([print_it(x) for x in y])
 (print (each (call print_it x) x y))
print(x if y else z, w or v)
 (print (if x y z) (or w v))
";

#[test]
fn atoms(rt: HostRuntime) -> Result<(), Fail> {
    check(&rt, rt.alloc(), ATOMS)?;
    Ok(())
}

#[test]
fn atoms_2(rt: HostRuntime) -> Result<(), Fail> {
    check(&rt, rt.alloc(), ATOMS_2)?;
    Ok(())
}

#[test]
fn atoms_3(rt: HostRuntime) -> Result<(), Fail> {
    check(&rt, rt.alloc(), ATOMS_3)?;
    Ok(())
}

#[test]
fn atoms_4(rt: HostRuntime) -> Result<(), Fail> {
    check(&rt, rt.alloc(), ATOMS_4)?;
    Ok(())
}
