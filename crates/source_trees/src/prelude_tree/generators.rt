ghost use Rattle.std.specs.Prelude.{◌≡◌, IfOk};
ghost use Rattle.source_trees.specs.Prelude as prelude;

use super::forms::{
    binary, comparison, element, for_each, name, node, pair, parameter, single, target, variable,
};
use crate::{BinaryOp, Commas, Comparator, Expr, Function, Param, Stmt, Targets};
use codon_base::Memory;
use sqlite_items::Items;
use std::alloc::Global;

#[tactic(auto, unfolding(crate::specs::Prelude::enumerate_start))]
fn enumerate_start(alloc: Global) -> Result<Stmt, Memory>
    ensures { IfOk result (λ made. made ≡ prelude.enumerate_start) }
{
    let value = Expr::Number(node(60, 341, 19, 9), 0);
    let target = target(alloc, node(59, 337, 19, 5), b"i")?;
    Ok(Stmt::Assign(node(58, 337, 19, 5), Targets::One(target), value))
}

#[tactic(auto, unfolding(crate::specs::Prelude::enumerate_pair))]
fn enumerate_pair(alloc: Global) -> Result<Expr, Memory>
    ensures { IfOk result (λ made. made ≡ prelude.enumerate_pair) }
{
    let first = variable(alloc, node(66, 374, 21, 15), b"i")?;
    let second = variable(alloc, node(67, 377, 21, 18), b"x")?;
    Ok(Expr::Tuple(
        node(65, 374, 21, 15),
        Commas::Bare,
        pair(alloc, first, second)?,
    ))
}

#[tactic(auto, unfolding(crate::specs::Prelude::enumerate_yield))]
fn enumerate_yield(alloc: Global) -> Result<Stmt, Memory>
    ensures { IfOk result (λ made. made ≡ prelude.enumerate_yield) }
{
    let value = enumerate_pair(alloc)?;
    Ok(Stmt::Yield(node(64, 368, 21, 9), value))
}

#[tactic(auto, unfolding(crate::specs::Prelude::enumerate_step))]
fn enumerate_step(alloc: Global) -> Result<Stmt, Memory>
    ensures { IfOk result (λ made. made ≡ prelude.enumerate_step) }
{
    let value = Expr::Number(node(70, 392, 22, 14), 1);
    let target = target(alloc, node(69, 387, 22, 9), b"i")?;
    Ok(Stmt::Update(node(68, 387, 22, 9), target, BinaryOp::Add, value))
}

#[tactic(auto, unfolding(crate::specs::Prelude::enumerate_loop))]
fn enumerate_loop(alloc: Global) -> Result<Stmt, Memory>
    ensures { IfOk result (λ made. made ≡ prelude.enumerate_loop) }
{
    let first = enumerate_yield(alloc)?;
    let second = enumerate_step(alloc)?;
    let body = pair(alloc, first, second)?;
    let name = name(alloc, node(62, 351, 20, 9), b"x")?;
    let iterable = variable(alloc, node(63, 356, 20, 14), b"xs")?;
    Ok(for_each(node(61, 347, 20, 5), name, iterable, body))
}

#[tactic(auto, unfolding(crate::specs::Prelude::enumerate_params))]
fn enumerate_params(alloc: Global) -> Result<Items<Param>, Memory>
    ensures { IfOk result (λ made. made ≡ prelude.enumerate_params) }
{
    let only = parameter(alloc, node(57, 328, 18, 15), b"xs", None)?;
    Ok(single(alloc, only)?)
}

#[tactic(auto, unfolding(crate::specs::Prelude::enumerate_body))]
fn enumerate_body(alloc: Global) -> Result<Items<Stmt>, Memory>
    ensures { IfOk result (λ made. made ≡ prelude.enumerate_body) }
{
    let first = enumerate_start(alloc)?;
    let second = enumerate_loop(alloc)?;
    Ok(pair(alloc, first, second)?)
}

#[tactic(auto, unfolding(crate::specs::Prelude::enumerate_function))]
pub(crate) fn enumerate_function(alloc: Global) -> Result<Function, Memory>
    ensures { IfOk result (λ made. made ≡ prelude.enumerate_function) }
{
    let name = name(alloc, node(56, 318, 18, 5), b"enumerate")?;
    let params = enumerate_params(alloc)?;
    let body = enumerate_body(alloc)?;
    Ok(Function {
        node: node(55, 314, 18, 1),
        name,
        params,
        result: None,
        body,
    })
}

#[tactic(auto, unfolding(crate::specs::Prelude::zip_start))]
fn zip_start(alloc: Global) -> Result<Stmt, Memory>
    ensures { IfOk result (λ made. made ≡ prelude.zip_start) }
{
    let value = Expr::Number(node(77, 419, 24, 9), 0);
    let target = target(alloc, node(76, 415, 24, 5), b"i")?;
    Ok(Stmt::Assign(node(75, 415, 24, 5), Targets::One(target), value))
}

#[tactic(auto, unfolding(crate::specs::Prelude::zip_first_length))]
fn zip_first_length(alloc: Global) -> Result<Expr, Memory>
    ensures { IfOk result (λ made. made ≡ prelude.zip_first_length) }
{
    let name = name(alloc, node(83, 435, 25, 15), b"len")?;
    let argument = variable(alloc, node(84, 439, 25, 19), b"xs")?;
    Ok(Expr::Call(node(82, 435, 25, 15), name, single(alloc, argument)?))
}

#[tactic(auto, unfolding(crate::specs::Prelude::zip_first_test))]
fn zip_first_test(alloc: Global) -> Result<Expr, Memory>
    ensures { IfOk result (λ made. made ≡ prelude.zip_first_test) }
{
    let left = variable(alloc, node(81, 431, 25, 11), b"i")?;
    let right = zip_first_length(alloc)?;
    Ok(comparison(alloc, node(80, 431, 25, 11), left, Comparator::Less, right)?)
}

#[tactic(auto, unfolding(crate::specs::Prelude::zip_second_length))]
fn zip_second_length(alloc: Global) -> Result<Expr, Memory>
    ensures { IfOk result (λ made. made ≡ prelude.zip_second_length) }
{
    let name = name(alloc, node(88, 451, 25, 31), b"len")?;
    let argument = variable(alloc, node(89, 455, 25, 35), b"ys")?;
    Ok(Expr::Call(node(87, 451, 25, 31), name, single(alloc, argument)?))
}

#[tactic(auto, unfolding(crate::specs::Prelude::zip_second_test))]
fn zip_second_test(alloc: Global) -> Result<Expr, Memory>
    ensures { IfOk result (λ made. made ≡ prelude.zip_second_test) }
{
    let left = variable(alloc, node(86, 447, 25, 27), b"i")?;
    let right = zip_second_length(alloc)?;
    Ok(comparison(alloc, node(85, 447, 25, 27), left, Comparator::Less, right)?)
}

#[tactic(auto, unfolding(crate::specs::Prelude::zip_test))]
fn zip_test(alloc: Global) -> Result<Expr, Memory>
    ensures { IfOk result (λ made. made ≡ prelude.zip_test) }
{
    let left = zip_first_test(alloc)?;
    let right = zip_second_test(alloc)?;
    Ok(Expr::And(node(79, 431, 25, 11), pair(alloc, left, right)?))
}

#[tactic(auto, unfolding(crate::specs::Prelude::zip_first_item))]
fn zip_first_item(alloc: Global) -> Result<Expr, Memory>
    ensures { IfOk result (λ made. made ≡ prelude.zip_first_item) }
{
    let object = variable(alloc, node(93, 474, 26, 15), b"xs")?;
    let index = variable(alloc, node(94, 477, 26, 18), b"i")?;
    Ok(element(alloc, node(92, 474, 26, 15), object, index)?)
}

#[tactic(auto, unfolding(crate::specs::Prelude::zip_second_item))]
fn zip_second_item(alloc: Global) -> Result<Expr, Memory>
    ensures { IfOk result (λ made. made ≡ prelude.zip_second_item) }
{
    let object = variable(alloc, node(96, 481, 26, 22), b"ys")?;
    let index = variable(alloc, node(97, 484, 26, 25), b"i")?;
    Ok(element(alloc, node(95, 481, 26, 22), object, index)?)
}

#[tactic(auto, unfolding(crate::specs::Prelude::zip_pair))]
fn zip_pair(alloc: Global) -> Result<Expr, Memory>
    ensures { IfOk result (λ made. made ≡ prelude.zip_pair) }
{
    let first = zip_first_item(alloc)?;
    let second = zip_second_item(alloc)?;
    Ok(Expr::Tuple(
        node(91, 474, 26, 15),
        Commas::Bare,
        pair(alloc, first, second)?,
    ))
}

#[tactic(auto, unfolding(crate::specs::Prelude::zip_yield))]
fn zip_yield(alloc: Global) -> Result<Stmt, Memory>
    ensures { IfOk result (λ made. made ≡ prelude.zip_yield) }
{
    let value = zip_pair(alloc)?;
    Ok(Stmt::Yield(node(90, 468, 26, 9), value))
}

#[tactic(auto, unfolding(crate::specs::Prelude::zip_step))]
fn zip_step(alloc: Global) -> Result<Stmt, Memory>
    ensures { IfOk result (λ made. made ≡ prelude.zip_step) }
{
    let value = Expr::Number(node(100, 500, 27, 14), 1);
    let target = target(alloc, node(99, 495, 27, 9), b"i")?;
    Ok(Stmt::Update(node(98, 495, 27, 9), target, BinaryOp::Add, value))
}

#[tactic(auto, unfolding(crate::specs::Prelude::zip_loop))]
fn zip_loop(alloc: Global) -> Result<Stmt, Memory>
    ensures { IfOk result (λ made. made ≡ prelude.zip_loop) }
{
    let first = zip_yield(alloc)?;
    let second = zip_step(alloc)?;
    let body = pair(alloc, first, second)?;
    let condition = zip_test(alloc)?;
    Ok(Stmt::While(node(78, 425, 25, 5), condition, body))
}

#[tactic(auto, unfolding(crate::specs::Prelude::zip_params))]
fn zip_params(alloc: Global) -> Result<Items<Param>, Memory>
    ensures { IfOk result (λ made. made ≡ prelude.zip_params) }
{
    let first = parameter(alloc, node(73, 402, 23, 9), b"xs", None)?;
    let second = parameter(alloc, node(74, 406, 23, 13), b"ys", None)?;
    Ok(pair(alloc, first, second)?)
}

#[tactic(auto, unfolding(crate::specs::Prelude::zip_body))]
fn zip_body(alloc: Global) -> Result<Items<Stmt>, Memory>
    ensures { IfOk result (λ made. made ≡ prelude.zip_body) }
{
    let first = zip_start(alloc)?;
    let second = zip_loop(alloc)?;
    Ok(pair(alloc, first, second)?)
}

#[tactic(auto, unfolding(crate::specs::Prelude::zip_function))]
pub(crate) fn zip_function(alloc: Global) -> Result<Function, Memory>
    ensures { IfOk result (λ made. made ≡ prelude.zip_function) }
{
    let name = name(alloc, node(72, 398, 23, 5), b"zip")?;
    let params = zip_params(alloc)?;
    let body = zip_body(alloc)?;
    Ok(Function {
        node: node(71, 394, 23, 1),
        name,
        params,
        result: None,
        body,
    })
}

#[tactic(auto, unfolding(crate::specs::Prelude::reversed_length))]
fn reversed_length(alloc: Global) -> Result<Expr, Memory>
    ensures { IfOk result (λ made. made ≡ prelude.reversed_length) }
{
    let name = name(alloc, node(108, 528, 29, 9), b"len")?;
    let argument = variable(alloc, node(109, 532, 29, 13), b"xs")?;
    Ok(Expr::Call(node(107, 528, 29, 9), name, single(alloc, argument)?))
}

#[tactic(auto, unfolding(crate::specs::Prelude::reversed_last))]
fn reversed_last(alloc: Global) -> Result<Expr, Memory>
    ensures { IfOk result (λ made. made ≡ prelude.reversed_last) }
{
    let left = reversed_length(alloc)?;
    let right = Expr::Number(node(110, 538, 29, 19), 1);
    Ok(binary(
        alloc,
        node(106, 528, 29, 9),
        BinaryOp::Subtract,
        left,
        right,
    )?)
}

#[tactic(auto, unfolding(crate::specs::Prelude::reversed_start))]
fn reversed_start(alloc: Global) -> Result<Stmt, Memory>
    ensures { IfOk result (λ made. made ≡ prelude.reversed_start) }
{
    let value = reversed_last(alloc)?;
    let target = target(alloc, node(105, 524, 29, 5), b"i")?;
    Ok(Stmt::Assign(node(104, 524, 29, 5), Targets::One(target), value))
}

#[tactic(auto, unfolding(crate::specs::Prelude::reversed_test))]
fn reversed_test(alloc: Global) -> Result<Expr, Memory>
    ensures { IfOk result (λ made. made ≡ prelude.reversed_test) }
{
    let left = variable(alloc, node(113, 550, 30, 11), b"i")?;
    let right = Expr::Number(node(114, 555, 30, 16), 0);
    Ok(comparison(
        alloc,
        node(112, 550, 30, 11),
        left,
        Comparator::GreaterEqual,
        right,
    )?)
}

#[tactic(auto, unfolding(crate::specs::Prelude::reversed_item))]
fn reversed_item(alloc: Global) -> Result<Expr, Memory>
    ensures { IfOk result (λ made. made ≡ prelude.reversed_item) }
{
    let object = variable(alloc, node(117, 572, 31, 15), b"xs")?;
    let index = variable(alloc, node(118, 575, 31, 18), b"i")?;
    Ok(element(alloc, node(116, 572, 31, 15), object, index)?)
}

#[tactic(auto, unfolding(crate::specs::Prelude::reversed_yield))]
fn reversed_yield(alloc: Global) -> Result<Stmt, Memory>
    ensures { IfOk result (λ made. made ≡ prelude.reversed_yield) }
{
    let value = reversed_item(alloc)?;
    Ok(Stmt::Yield(node(115, 566, 31, 9), value))
}

#[tactic(auto, unfolding(crate::specs::Prelude::reversed_step))]
fn reversed_step(alloc: Global) -> Result<Stmt, Memory>
    ensures { IfOk result (λ made. made ≡ prelude.reversed_step) }
{
    let value = Expr::Number(node(121, 591, 32, 14), 1);
    let target = target(alloc, node(120, 586, 32, 9), b"i")?;
    Ok(Stmt::Update(node(119, 586, 32, 9), target, BinaryOp::Subtract, value))
}

#[tactic(auto, unfolding(crate::specs::Prelude::reversed_loop))]
fn reversed_loop(alloc: Global) -> Result<Stmt, Memory>
    ensures { IfOk result (λ made. made ≡ prelude.reversed_loop) }
{
    let first = reversed_yield(alloc)?;
    let second = reversed_step(alloc)?;
    let body = pair(alloc, first, second)?;
    let condition = reversed_test(alloc)?;
    Ok(Stmt::While(node(111, 544, 30, 5), condition, body))
}

#[tactic(auto, unfolding(crate::specs::Prelude::reversed_params))]
fn reversed_params(alloc: Global) -> Result<Items<Param>, Memory>
    ensures { IfOk result (λ made. made ≡ prelude.reversed_params) }
{
    let only = parameter(alloc, node(103, 515, 28, 14), b"xs", None)?;
    Ok(single(alloc, only)?)
}

#[tactic(auto, unfolding(crate::specs::Prelude::reversed_body))]
fn reversed_body(alloc: Global) -> Result<Items<Stmt>, Memory>
    ensures { IfOk result (λ made. made ≡ prelude.reversed_body) }
{
    let first = reversed_start(alloc)?;
    let second = reversed_loop(alloc)?;
    Ok(pair(alloc, first, second)?)
}

#[tactic(auto, unfolding(crate::specs::Prelude::reversed_function))]
pub(crate) fn reversed_function(alloc: Global) -> Result<Function, Memory>
    ensures { IfOk result (λ made. made ≡ prelude.reversed_function) }
{
    let name = name(alloc, node(102, 506, 28, 5), b"reversed")?;
    let params = reversed_params(alloc)?;
    let body = reversed_body(alloc)?;
    Ok(Function {
        node: node(101, 502, 28, 1),
        name,
        params,
        result: None,
        body,
    })
}
