use crate::tests::table::check;
use std::test::Fail;

const PRINT_FORMS: &str = "\
P1 print(1,$)
P1 print($,)
P1 print(a$=1)
P1 print(sep=$)
P1 print(sep='a', $sep='b')
P1 print(end='a', $end='b')
P1 print(sep='a', $1)
P1 print(sep='a' $end='b')
P1 print(sep=1, end=2$, 3)
P1 print(end=1, sep=2$,)
P1 print(sep=1,$)
P1 print(1, sep=2,$)
P1 print(1)$(2)
P1 print(1)$.x
P1 print(1) $+ 2
P1 print(1) $|> f
P1 print(1) $if x else y
P1 print($*a)
P1 print(1 $2)
P1 print($...)
P1 print(1, sep=2, $file=3)
P1 print(sep=1, end$)
P1 print(x, $print(1))
P1 print(sep $1)
P1 print($print)
P1 print(sep.x$=1)
P1 print(sep, end=1, sep=2$, 3)
";

const STAGES: &str = "\
P1 x |>$
P1 x |> $1
P1 x |> $(f)
P1 x |> $not y
P1 x |> f(1, ..., $...)
P1 x |> f(...,$, 1)
P1 x |> f$.g
P1 x |> f()$.g
P1 x |> f()$()
P1 x |> f(1)$[0]
P1 x |> f $+ 1
P1 x, y $|> f
P1 (x $|> f)
P1 x |> f$, y
P1 x |> f $= 1
P1 x |> print$.y
P1 x |> print(1,$)
P1 x |> print($...)
P1 x |> f(a$=1)
P1 x |> f(... $+ 1)
P1 x |> iter $iter
P1 x ||> f |>$
P1 x |> $|> f
P1 x |> f $| g
P1 x |> iter$.y
P1 x |> $'a'
P1 x |> $[f]
P1 return x $|> f
P1 x |> print(sep=1, $sep=2)
P1 assert x $|> f
P1 x |> f($*y)
P1 x |> print(1)$(2)
P1 x |> f(1)$: int
P1 x |> f $if y else z
P1 x if y $|> f
";

#[test]
fn print_forms(rt: HostRuntime) -> Result<(), Fail> {
    check(&rt, rt.alloc(), PRINT_FORMS)?;
    Ok(())
}

#[test]
fn stages(rt: HostRuntime) -> Result<(), Fail> {
    check(&rt, rt.alloc(), STAGES)?;
    Ok(())
}
