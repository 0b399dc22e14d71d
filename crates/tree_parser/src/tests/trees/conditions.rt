use super::check;
use std::test::Fail;

const CONDITIONS: &str = "\
x or y
 (evaluate (or x y))
x or y or z
 (evaluate (or x y z))
x and y and z
 (evaluate (and x y z))
x or y and z
 (evaluate (or x (and y z)))
x and y or z
 (evaluate (or (and x y) z))
(x or y) and z
 (evaluate (and (or x y) z))
(x or y) or z
 (evaluate (or (or x y) z))
x or (y or z)
 (evaluate (or x (or y z)))
(x and y) and z
 (evaluate (and (and x y) z))
not x
 (evaluate (not x))
not not x
 (evaluate (not (not x)))
not x and y
 (evaluate (and (not x) y))
not (x and y)
 (evaluate (not (and x y)))
x and not y
 (evaluate (and x (not y)))
not x == y
 (evaluate (not (compare x == y)))
not x in y
 (evaluate (not (compare x in y)))
x not in y
 (evaluate (compare x not in y))
x in y
 (evaluate (compare x in y))
x == y
 (evaluate (compare x == y))
x == y == z
 (evaluate (compare x == y == z))
x < y <= z
 (evaluate (compare x < y <= z))
x < y > z >= w != v == u
 (evaluate (compare x < y > z >= w != v == u))
(x < y) < z
 (evaluate (compare (compare x < y) < z))
x < (y < z)
 (evaluate (compare x < (compare y < z)))
x in y in z
 (evaluate (compare x in y in z))
x not in y in z
 (evaluate (compare x not in y in z))
x not in y not in z
 (evaluate (compare x not in y not in z))
x + y < z + w
 (evaluate (compare (+ x y) < (+ z w)))
x | y == z & w
 (evaluate (compare (| x y) == (& z w)))
not x < y or z
 (evaluate (or (not (compare x < y)) z))
";

const CONDITIONS_2: &str = "\
x < y and y < z
 (evaluate (and (compare x < y) (compare y < z)))
x == y or not z
 (evaluate (or (compare x == y) (not z)))
x if y else z
 (evaluate (if x y z))
x if y else z if w else v
 (evaluate (if x y (if z w v)))
(x if y else z) if w else v
 (evaluate (if (if x y z) w v))
x if (y if z else w) else v
 (evaluate (if x (if y z w) v))
x if y or z else w
 (evaluate (if x (or y z) w))
x or y if z else w
 (evaluate (if (or x y) z w))
x or y if z and w else not v
 (evaluate (if (or x y) (and z w) (not v)))
x if not y else z
 (evaluate (if x (not y) z))
-x if y < 0 else +x
 (evaluate (if (- x) (compare y < 0) (+ x)))
x + 1 if y else z + 2
 (evaluate (if (+ x 1) y (+ z 2)))
(x if y else z) + 1
 (evaluate (+ (if x y z) 1))
x if y else (z, w)
 (evaluate (if x y (tuple z w)))
f(x if y else z)
 (evaluate (call f (if x y z)))
[x if y else z]
 (evaluate (list (if x y z)))
x[y if z else w]
 (evaluate (index x (if y z w)))
not x if y else z
 (evaluate (if (not x) y z))
x in [1, 2] or y not in (3, 4)
 (evaluate (or (compare x in (list 1 2)) (compare y not in (tuple 3 4))))
x < y if z else w
 (evaluate (if (compare x < y) z w))
True and False or None
 (evaluate (or (and True False) None))
True
 (evaluate True)
False
 (evaluate False)
None
 (evaluate None)
not True
 (evaluate (not True))
";

#[test]
fn conditions(rt: HostRuntime) -> Result<(), Fail> {
    check(&rt, rt.alloc(), CONDITIONS)?;
    Ok(())
}

#[test]
fn conditions_2(rt: HostRuntime) -> Result<(), Fail> {
    check(&rt, rt.alloc(), CONDITIONS_2)?;
    Ok(())
}
