// The single step of a state that the host keeps and lends for it.
#![tactic(auto)]

ghost use Rattle.refusal.specs.Numbers.{number_in};
ghost use Rattle.step.specs.Step.{as_stepped};
ghost use Rattle.lent.specs.Promise.{StepsLent};

use machine::ThreadId;
use refusal::Refusal;
use state::State;

// By value, as it is promised of a lent state.
fn by_value(state: State, thread: ThreadId) -> Result<State, Refusal>
    ensures { StepsLent state (as_stepped state result).state thread (as_stepped state result).refusal }
{
    step::step(state, thread)
}

// One entry of a schedule on the lent state. A refusal leaves the state as it was.
pub fn step(state: &mut State, thread: ThreadId) -> Result<(), Refusal>
    ensures { StepsLent state.old state.new thread (number_in result) }
{
    *state = by_value(*state, thread)?;
    Ok(())
}
