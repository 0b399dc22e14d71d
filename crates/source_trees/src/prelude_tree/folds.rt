ghost use Rattle.std.specs.Prelude.{◌≡◌, IfOk};
ghost use Rattle.source_trees.specs.Prelude as prelude;

use super::forms::{
    comparison, conditional, for_each, if_true, list_of_int, name, negation, node, pair, parameter,
    single, target, triple, unary, variable,
};
use crate::{Annotation, BinaryOp, Comparator, Expr, Function, Param, Stmt, Targets, UnaryOp};
use codon_base::Memory;
use sqlite_items::Items;
use std::alloc::Global;

#[tactic(auto, unfolding(crate::specs::Prelude::abs_negated))]
fn abs_negated(alloc: Global) -> Result<Expr, Memory>
    ensures { IfOk result (λ made. made ≡ prelude.abs_negated) }
{
    let operand = variable(alloc, node(8, 36, 2, 13), b"x")?;
    Ok(unary(alloc, node(7, 35, 2, 12), UnaryOp::Minus, operand)?)
}

#[tactic(auto, unfolding(crate::specs::Prelude::abs_test))]
fn abs_test(alloc: Global) -> Result<Expr, Memory>
    ensures { IfOk result (λ made. made ≡ prelude.abs_test) }
{
    let left = variable(alloc, node(10, 41, 2, 18), b"x")?;
    let right = Expr::Number(node(11, 45, 2, 22), 0);
    Ok(comparison(alloc, node(9, 41, 2, 18), left, Comparator::Less, right)?)
}

#[tactic(auto, unfolding(crate::specs::Prelude::abs_value))]
fn abs_value(alloc: Global) -> Result<Expr, Memory>
    ensures { IfOk result (λ made. made ≡ prelude.abs_value) }
{
    let value = abs_negated(alloc)?;
    let condition = abs_test(alloc)?;
    let other = variable(alloc, node(12, 52, 2, 29), b"x")?;
    Ok(conditional(alloc, node(6, 35, 2, 12), value, condition, other)?)
}

#[tactic(auto, unfolding(crate::specs::Prelude::abs_return))]
fn abs_return(alloc: Global) -> Result<Stmt, Memory>
    ensures { IfOk result (λ made. made ≡ prelude.abs_return) }
{
    let value = abs_value(alloc)?;
    Ok(Stmt::Return(node(5, 28, 2, 5), Some(value)))
}

#[tactic(auto, unfolding(crate::specs::Prelude::abs_params))]
fn abs_params(alloc: Global) -> Result<Items<Param>, Memory>
    ensures { IfOk result (λ made. made ≡ prelude.abs_params) }
{
    let only = parameter(
        alloc,
        node(2, 8, 1, 9),
        b"x",
        Some(Annotation::Int(node(3, 11, 1, 12))),
    )?;
    Ok(single(alloc, only)?)
}

#[tactic(auto, unfolding(crate::specs::Prelude::abs_body))]
fn abs_body(alloc: Global) -> Result<Items<Stmt>, Memory>
    ensures { IfOk result (λ made. made ≡ prelude.abs_body) }
{
    let only = abs_return(alloc)?;
    Ok(single(alloc, only)?)
}

#[tactic(auto, unfolding(crate::specs::Prelude::abs_function))]
pub(crate) fn abs_function(alloc: Global) -> Result<Function, Memory>
    ensures { IfOk result (λ made. made ≡ prelude.abs_function) }
{
    let name = name(alloc, node(1, 4, 1, 5), b"abs")?;
    let params = abs_params(alloc)?;
    let body = abs_body(alloc)?;
    Ok(Function {
        node: node(0, 0, 1, 1),
        name,
        params,
        result: Some(Annotation::Int(node(4, 19, 1, 20))),
        body,
    })
}

#[tactic(auto, unfolding(crate::specs::Prelude::sum_start))]
fn sum_start(alloc: Global) -> Result<Stmt, Memory>
    ensures { IfOk result (λ made. made ≡ prelude.sum_start) }
{
    let value = Expr::Number(node(21, 93, 4, 9), 0);
    let target = target(alloc, node(20, 89, 4, 5), b"t")?;
    Ok(Stmt::Assign(node(19, 89, 4, 5), Targets::One(target), value))
}

#[tactic(auto, unfolding(crate::specs::Prelude::sum_step))]
fn sum_step(alloc: Global) -> Result<Stmt, Memory>
    ensures { IfOk result (λ made. made ≡ prelude.sum_step) }
{
    let value = variable(alloc, node(27, 125, 6, 14), b"x")?;
    let target = target(alloc, node(26, 120, 6, 9), b"t")?;
    Ok(Stmt::Update(node(25, 120, 6, 9), target, BinaryOp::Add, value))
}

#[tactic(auto, unfolding(crate::specs::Prelude::sum_loop))]
fn sum_loop(alloc: Global) -> Result<Stmt, Memory>
    ensures { IfOk result (λ made. made ≡ prelude.sum_loop) }
{
    let only = sum_step(alloc)?;
    let body = single(alloc, only)?;
    let name = name(alloc, node(23, 103, 5, 9), b"x")?;
    let iterable = variable(alloc, node(24, 108, 5, 14), b"xs")?;
    Ok(for_each(node(22, 99, 5, 5), name, iterable, body))
}

#[tactic(auto, unfolding(crate::specs::Prelude::sum_return))]
fn sum_return(alloc: Global) -> Result<Stmt, Memory>
    ensures { IfOk result (λ made. made ≡ prelude.sum_return) }
{
    let value = variable(alloc, node(29, 138, 7, 12), b"t")?;
    Ok(Stmt::Return(node(28, 131, 7, 5), Some(value)))
}

#[tactic(auto, unfolding(crate::specs::Prelude::sum_params))]
fn sum_params(alloc: Global) -> Result<Items<Param>, Memory>
    ensures { IfOk result (λ made. made ≡ prelude.sum_params) }
{
    let only = parameter(
        alloc,
        node(15, 62, 3, 9),
        b"xs",
        Some(list_of_int(alloc, node(16, 66, 3, 13), node(17, 71, 3, 18))?),
    )?;
    Ok(single(alloc, only)?)
}

#[tactic(auto, unfolding(crate::specs::Prelude::sum_body))]
fn sum_body(alloc: Global) -> Result<Items<Stmt>, Memory>
    ensures { IfOk result (λ made. made ≡ prelude.sum_body) }
{
    let first = sum_start(alloc)?;
    let second = sum_loop(alloc)?;
    let third = sum_return(alloc)?;
    Ok(triple(alloc, first, second, third)?)
}

#[tactic(auto, unfolding(crate::specs::Prelude::sum_function))]
pub(crate) fn sum_function(alloc: Global) -> Result<Function, Memory>
    ensures { IfOk result (λ made. made ≡ prelude.sum_function) }
{
    let name = name(alloc, node(14, 58, 3, 5), b"sum")?;
    let params = sum_params(alloc)?;
    let body = sum_body(alloc)?;
    Ok(Function {
        node: node(13, 54, 3, 1),
        name,
        params,
        result: Some(Annotation::Int(node(18, 80, 3, 27))),
        body,
    })
}

#[tactic(auto, unfolding(crate::specs::Prelude::any_found))]
fn any_found(alloc: Global) -> Result<Stmt, Memory>
    ensures { IfOk result (λ made. made ≡ prelude.any_found) }
{
    let value = Expr::True(node(39, 203, 11, 20));
    Ok(Stmt::Return(node(38, 196, 11, 13), Some(value)))
}

#[tactic(auto, unfolding(crate::specs::Prelude::any_test))]
fn any_test(alloc: Global) -> Result<Stmt, Memory>
    ensures { IfOk result (λ made. made ≡ prelude.any_test) }
{
    let only = any_found(alloc)?;
    let body = single(alloc, only)?;
    let condition = variable(alloc, node(37, 181, 10, 12), b"x")?;
    Ok(if_true(alloc, node(36, 178, 10, 9), condition, body)?)
}

#[tactic(auto, unfolding(crate::specs::Prelude::any_loop))]
fn any_loop(alloc: Global) -> Result<Stmt, Memory>
    ensures { IfOk result (λ made. made ≡ prelude.any_loop) }
{
    let only = any_test(alloc)?;
    let body = single(alloc, only)?;
    let name = name(alloc, node(34, 161, 9, 9), b"x")?;
    let iterable = variable(alloc, node(35, 166, 9, 14), b"xs")?;
    Ok(for_each(node(33, 157, 9, 5), name, iterable, body))
}

#[tactic(auto, unfolding(crate::specs::Prelude::any_return))]
fn any_return(alloc: Global) -> Result<Stmt, Memory>
    ensures { IfOk result (λ made. made ≡ prelude.any_return) }
{
    let value = Expr::False(node(41, 219, 12, 12));
    Ok(Stmt::Return(node(40, 212, 12, 5), Some(value)))
}

#[tactic(auto, unfolding(crate::specs::Prelude::any_params))]
fn any_params(alloc: Global) -> Result<Items<Param>, Memory>
    ensures { IfOk result (λ made. made ≡ prelude.any_params) }
{
    let only = parameter(alloc, node(32, 148, 8, 9), b"xs", None)?;
    Ok(single(alloc, only)?)
}

#[tactic(auto, unfolding(crate::specs::Prelude::any_body))]
fn any_body(alloc: Global) -> Result<Items<Stmt>, Memory>
    ensures { IfOk result (λ made. made ≡ prelude.any_body) }
{
    let first = any_loop(alloc)?;
    let second = any_return(alloc)?;
    Ok(pair(alloc, first, second)?)
}

#[tactic(auto, unfolding(crate::specs::Prelude::any_function))]
pub(crate) fn any_function(alloc: Global) -> Result<Function, Memory>
    ensures { IfOk result (λ made. made ≡ prelude.any_function) }
{
    let name = name(alloc, node(31, 144, 8, 5), b"any")?;
    let params = any_params(alloc)?;
    let body = any_body(alloc)?;
    Ok(Function {
        node: node(30, 140, 8, 1),
        name,
        params,
        result: None,
        body,
    })
}

#[tactic(auto, unfolding(crate::specs::Prelude::all_condition))]
fn all_condition(alloc: Global) -> Result<Expr, Memory>
    ensures { IfOk result (λ made. made ≡ prelude.all_condition) }
{
    let operand = variable(alloc, node(50, 270, 15, 16), b"x")?;
    Ok(negation(alloc, node(49, 266, 15, 12), operand)?)
}

#[tactic(auto, unfolding(crate::specs::Prelude::all_found))]
fn all_found(alloc: Global) -> Result<Stmt, Memory>
    ensures { IfOk result (λ made. made ≡ prelude.all_found) }
{
    let value = Expr::False(node(52, 292, 16, 20));
    Ok(Stmt::Return(node(51, 285, 16, 13), Some(value)))
}

#[tactic(auto, unfolding(crate::specs::Prelude::all_test))]
fn all_test(alloc: Global) -> Result<Stmt, Memory>
    ensures { IfOk result (λ made. made ≡ prelude.all_test) }
{
    let only = all_found(alloc)?;
    let body = single(alloc, only)?;
    let condition = all_condition(alloc)?;
    Ok(if_true(alloc, node(48, 263, 15, 9), condition, body)?)
}

#[tactic(auto, unfolding(crate::specs::Prelude::all_loop))]
fn all_loop(alloc: Global) -> Result<Stmt, Memory>
    ensures { IfOk result (λ made. made ≡ prelude.all_loop) }
{
    let only = all_test(alloc)?;
    let body = single(alloc, only)?;
    let name = name(alloc, node(46, 246, 14, 9), b"x")?;
    let iterable = variable(alloc, node(47, 251, 14, 14), b"xs")?;
    Ok(for_each(node(45, 242, 14, 5), name, iterable, body))
}

#[tactic(auto, unfolding(crate::specs::Prelude::all_return))]
fn all_return(alloc: Global) -> Result<Stmt, Memory>
    ensures { IfOk result (λ made. made ≡ prelude.all_return) }
{
    let value = Expr::True(node(54, 309, 17, 12));
    Ok(Stmt::Return(node(53, 302, 17, 5), Some(value)))
}

#[tactic(auto, unfolding(crate::specs::Prelude::all_params))]
fn all_params(alloc: Global) -> Result<Items<Param>, Memory>
    ensures { IfOk result (λ made. made ≡ prelude.all_params) }
{
    let only = parameter(alloc, node(44, 233, 13, 9), b"xs", None)?;
    Ok(single(alloc, only)?)
}

#[tactic(auto, unfolding(crate::specs::Prelude::all_body))]
fn all_body(alloc: Global) -> Result<Items<Stmt>, Memory>
    ensures { IfOk result (λ made. made ≡ prelude.all_body) }
{
    let first = all_loop(alloc)?;
    let second = all_return(alloc)?;
    Ok(pair(alloc, first, second)?)
}

#[tactic(auto, unfolding(crate::specs::Prelude::all_function))]
pub(crate) fn all_function(alloc: Global) -> Result<Function, Memory>
    ensures { IfOk result (λ made. made ≡ prelude.all_function) }
{
    let name = name(alloc, node(43, 229, 13, 5), b"all")?;
    let params = all_params(alloc)?;
    let body = all_body(alloc)?;
    Ok(Function {
        node: node(42, 225, 13, 1),
        name,
        params,
        result: None,
        body,
    })
}
