ghost use Rattle.std.specs.Prelude.{◌≡◌, IfOk};
ghost use Rattle.meaning_rules.specs.Outcome.{is_next};
ghost use Rattle.meaning_rules.specs.Loops as spec;
ghost use Rattle.plain_interpreter.specs.Seen.{flow_of, ended_by};
ghost use Rattle.plain_interpreter.specs.Flows.{goes_on};

use codon_base::{Memory, Value};

/// How a statement ends that no body of a generator was left by.
#[derive(Drop)]
pub(crate) enum End {
    Next,
    Break,
    Continue,
    Return(Value),
}

/// How a statement ends: so, told through that many bodies of generators, which it leaves.
#[derive(Drop)]
pub(crate) struct Flow {
    pub(crate) left: u64,
    pub(crate) end: End,
}

/// A flow that leaves no body of a generator.
#[tactic(auto, unfolding(crate::specs::Seen::flow_of))]
pub(crate) fn ended(end: End) -> Flow
    ensures { flow_of result ≡ ended_by end }
{
    Flow { left: 0, end }
}

/// Whether the next statement is run.
#[tactic(auto, unfolding(crate::specs::Seen::flow_of), using(crate::proofs::Left::left_some))]
pub(crate) fn is_next(flow: &Flow) -> bool
    ensures { result ≡ is_next (flow_of flow.now) }
{
    if flow.left != 0 {
        return false;
    }
    matches!(&flow.end, End::Next)
}

/// Whether the next turn of a loop is run.
#[tactic(auto, unfolding(crate::specs::Seen::flow_of), using(crate::proofs::Left::left_some))]
pub(crate) fn goes_on(flow: &Flow) -> bool
    ensures { result ≡ goes_on (flow_of flow.now) }
{
    if flow.left != 0 {
        return false;
    }
    matches!(&flow.end, End::Next | End::Continue)
}

/// How the statement of a loop ends that was left so.
#[tactic(auto, unfolding(crate::specs::Seen::flow_of), using(crate::proofs::Left::left_some))]
pub(crate) fn after_loop(flow: Flow) -> Flow
    ensures { flow_of result ≡ spec.after_loop (flow_of flow) }
{
    if flow.left != 0 {
        return flow;
    }
    match flow.end {
        End::Break => ended(End::Next),
        end => ended(end),
    }
}

/// What a turn tells the generator that gave the item.
#[tactic(auto, unfolding(crate::specs::Seen::flow_of), using(crate::proofs::Left::left_more, crate::proofs::Left::yielded_left, crate::proofs::Left::yielded_next))]
pub(crate) fn yielded(flow: Flow) -> Result<Flow, Memory>
    ensures { IfOk result (λ told. flow_of told ≡ spec.yielded (flow_of flow)) }
{
    if goes_on(&flow) {
        return Ok(ended(End::Next));
    }
    match flow.left.checked_add(1) {
        Some(left) => Ok(Flow {
            left,
            end: flow.end,
        }),
        None => Err(Memory),
    }
}

/// How a loop is left whose generator's body ended so.
#[tactic(auto, unfolding(crate::specs::Seen::flow_of), using(crate::proofs::Left::left_some))]
pub(crate) fn closed(flow: Flow) -> Flow
    ensures { flow_of result ≡ spec.closed (flow_of flow) }
{
    if flow.left == 0 {
        return ended(End::Next);
    }
    Flow {
        left: flow.left - 1,
        end: flow.end,
    }
}
