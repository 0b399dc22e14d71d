use super::check;
use std::test::Fail;

const OPERATORS: &str = "\
x + y + z
 (evaluate (+ (+ x y) z))
x - y - z
 (evaluate (- (- x y) z))
x - y + z
 (evaluate (+ (- x y) z))
x - (y - z)
 (evaluate (- x (- y z)))
x + y * z
 (evaluate (+ x (* y z)))
x * y + z
 (evaluate (+ (* x y) z))
(x + y) * z
 (evaluate (* (+ x y) z))
x * y * z
 (evaluate (* (* x y) z))
x // y % z
 (evaluate (% (// x y) z))
x % y // z
 (evaluate (// (% x y) z))
x * -y
 (evaluate (* x (- y)))
x ** y ** z
 (evaluate (** x (** y z)))
(x ** y) ** z
 (evaluate (** (** x y) z))
-x ** y
 (evaluate (- (** x y)))
x ** -y
 (evaluate (** x (- y)))
x ** -y ** z
 (evaluate (** x (- (** y z))))
x ** -y * z
 (evaluate (* (** x (- y)) z))
~x ** -~y
 (evaluate (~ (** x (- (~ y)))))
- - x
 (evaluate (- (- x)))
-+~x
 (evaluate (- (+ (~ x))))
-x + y
 (evaluate (+ (- x) y))
-x * y
 (evaluate (* (- x) y))
-(x * y)
 (evaluate (- (* x y)))
x << y << z
 (evaluate (<< (<< x y) z))
x << y + z
 (evaluate (<< x (+ y z)))
x + y >> z
 (evaluate (>> (+ x y) z))
x >> y & z
 (evaluate (& (>> x y) z))
x & y & z
 (evaluate (& (& x y) z))
x ^ y & z
 (evaluate (^ x (& y z)))
x & y ^ z
 (evaluate (^ (& x y) z))
";

const OPERATORS_2: &str = "\
x | y ^ z
 (evaluate (| x (^ y z)))
x ^ y | z
 (evaluate (| (^ x y) z))
x | y | z
 (evaluate (| (| x y) z))
x | y ^ z & w << v + u * t
 (evaluate (| x (^ y (& z (<< w (+ v (* u t)))))))
t * u + v << w & z ^ y | x
 (evaluate (| (^ (& (<< (+ (* t u) v) w) z) y) x))
x + y - z * w // v
 (evaluate (- (+ x y) (// (* z w) v)))
1 - 2 - 3 - 4 - 5
 (evaluate (- (- (- (- 1 2) 3) 4) 5))
1 - 2 * 3 - 4
 (evaluate (- (- 1 (* 2 3)) 4))
2 ** 3 ** 4 ** 5
 (evaluate (** 2 (** 3 (** 4 5))))
-1
 (evaluate (- 1))
--1
 (evaluate (- (- 1)))
~-1
 (evaluate (~ (- 1)))
x[0] ** y[1]
 (evaluate (** (index x 0) (index y 1)))
f(x) ** -f(y)
 (evaluate (** (call f x) (- (call f y))))
x.y ** z
 (evaluate (** (field x y) z))
x.y + z.w * v.u
 (evaluate (+ (field x y) (* (field z w) (field v u))))
-x.y
 (evaluate (- (field x y)))
-x[0]
 (evaluate (- (index x 0)))
-f(x)
 (evaluate (- (call f x)))
x - -y
 (evaluate (- x (- y)))
x - - - y
 (evaluate (- x (- (- y))))
x+-y
 (evaluate (+ x (- y)))
x*-y**-z
 (evaluate (* x (- (** y (- z)))))
x<<1>>2<<3
 (evaluate (<< (>> (<< x 1) 2) 3))
x%2==0
 (evaluate (compare (% x 2) == 0))
0x1F + 0o17 + 0b101
 (evaluate (+ (+ 31 15) 5))
1_000 + 0
 (evaluate (+ 1000 0))
";

#[test]
fn operators(rt: HostRuntime) -> Result<(), Fail> {
    check(&rt, rt.alloc(), OPERATORS)?;
    Ok(())
}

#[test]
fn operators_2(rt: HostRuntime) -> Result<(), Fail> {
    check(&rt, rt.alloc(), OPERATORS_2)?;
    Ok(())
}
